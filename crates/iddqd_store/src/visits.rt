//! Visitors, which see and may write each item of a map, and decide which stay.
ghost use Rattle.std.specs.Prelude.{◌≡◌, Bool};

/// A visitor of items. A visit may change the item and the visitor, and decides whether the item stays.
pub trait Visit<T> {
    // The visitor and the item after a visit, and what `visit` returns.
    ghost visits: { Self → T → Self × T × Bool };

    /// Visits the item, and returns whether it stays.
    fn visit(&mut self, item: &mut T) -> bool
        ensures { visits self.old item.old ≡ (self.new, item.new, result) };
}
