//! Many hosts at once, none of which may have a key of another.
use crate::bulk::hints_reserve;
use crate::held::*;
use crate::rows::hosts;

// `extend_unique` by the hosts, which a repeat of these ends.
fn repeats(hosts: &[Host], new: Host, in_its_way: Met) -> Step<'_> {
    Step::Extend(Way::Unique, hosts, 0, Some((Some(new), in_its_way, false)))
}

#[test]
fn all_are_new(rt: HostRuntime) {
    let left = [host(1), host(4), host(5), host(6), host(7)];
    let extend = Step::Extend(Way::Unique, &left[3..], 0, None);
    hosts(&rt, rt.alloc()).run(&rt, &[extend, Step::Holds(&left)]);
}

// The one before the repeat stays, and the one after it does not come in.
#[test]
fn stopped_by_one_there(rt: HostRuntime) {
    let mut all = hosts(&rt, rt.alloc());
    let left = [host(1), host(4), host(5), host(6)];
    let (one, other, both) = (host_of(4, 109, 9), host_of(9, 105, 9), host_of(1, 101, 9));
    for (coming, new, there) in [
        (&[host(6), one, host(7)][..], one, host(4)),
        (&[other, host(7)], other, host(5)),
        (&[both], both, host(1)),
    ] {
        let repeat = repeats(coming, new, (Some(there), None));
        all.run(&rt, &[repeat, Step::Holds(&left)]);
    }
}

#[test]
fn stopped_by_one_that_came_before(rt: HostRuntime) {
    let left = [host(1), host(4), host(5), host(6), host(7)];
    let new = host_of(9, 106, 9);
    let coming = [host(6), host(7), new, host(8)];
    let stop = Some((Some(new), (Some(host(6)), None), false));
    let extend = Step::Extend(Way::Unique, &coming, 4, stop);
    hosts(&rt, rt.alloc()).run(&rt, &[extend, Step::Holds(&left)]);
}

// That of the first key comes first, whichever slot it is in.
#[test]
fn stopped_by_two(rt: HostRuntime) {
    let mut all = hosts(&rt, rt.alloc());
    let (one, four, five, six) = (Some(host(1)), Some(host(4)), Some(host(5)), Some(host(6)));
    let left = [host(1), host(4), host(5), host(6)];
    let (new, turned, last) = (host_of(4, 105, 9), host_of(5, 104, 9), host_of(6, 101, 9));
    for (coming, new, met, count) in [
        (&[new][..], new, (four, five), 3),
        (&[turned], turned, (five, four), 3),
        (&[host(6), last], last, (six, one), 4),
    ] {
        let left = Step::Holds(&left[..count]);
        all.run(&rt, &[repeats(coming, new, met), left]);
    }
}

// A repeat is told before a full map. The first host without room is returned, and those before it stay.
#[test]
fn stopped_by_the_limit(rt: HostRuntime) {
    let coming = [host(1), host(2), host(3), host(4)];
    let stop = Some((Some(host(3)), NONE, true));
    let (new, left) = ([host_of(9, 102, 9)], Step::Holds(&coming[..2]));
    let repeat = repeats(&new, host_of(9, 102, 9), (Some(host(2)), None));
    let extend = Step::Extend(Way::Unique, &coming, 0, stop);
    Hosts::with_limit(rt.alloc(), 2).run(&rt, &[extend, left, repeat, left]);
}

#[test]
fn hints_are_reserved(rt: HostRuntime) {
    hints_reserve(&rt, Hosts::new(rt.alloc()), Way::Unique);
}

// A hint past the limit is refused before a host is asked for.
#[test]
fn a_hint_past_the_limit_is_refused(rt: HostRuntime) {
    let (coming, left) = ([host(6)], [host(1), host(4), host(5)]);
    let extend = Step::Extend(Way::Unique, &coming, usize::MAX, TOO_MANY);
    hosts(&rt, rt.alloc()).run(&rt, &[extend, Step::Holds(&left)]);
}
