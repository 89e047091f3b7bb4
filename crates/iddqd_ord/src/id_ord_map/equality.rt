//! Equality of two maps.
use super::IdOrdMap;

/// Two maps are equal if they have as many items, and those at each place are equal by their own `==`. Keys are not
/// compared. So maps of different keys can be equal, if the items do not compare theirs.
impl<T: PartialEq> PartialEq for IdOrdMap<T> {
    ghost use Rattle.iddqd_ord.specs.OrdMap.{have_equal_items};
    ghost use Rattle.std.specs.Cmp.{on_per};
    ghost use Rattle.std.specs.Cmp.Lexicographic.{lists_per};

    ghost eq = { have_equal_items T.eq };

    ghost laws = { on_per (λ map. map.items) (lists_per T.laws) };

    fn eq(&self, other: &IdOrdMap<T>) -> bool {
        if self.len() != other.len() {
            return false;
        }
        let mut others = other.iter();
        for item in self.iter() {
            if *item != *others.next().unwrap() {
                return false;
            }
        }
        true
    }
}

impl<T: Eq> Eq for IdOrdMap<T> {
    ghost use Rattle.std.specs.Cmp.{on_equiv};
    ghost use Rattle.std.specs.Cmp.Lexicographic.{lists_equiv};

    ghost laws = { on_equiv (λ map. map.items) (lists_equiv T.Eq.laws) };
}
