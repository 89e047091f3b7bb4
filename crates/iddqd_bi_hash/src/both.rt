//! Both keys of an item.
ghost use Rattle.std.specs.Prelude.{Bool};
ghost use Rattle.std.specs.Hash.{HashWrites};

use crate::items::BiHashItem;

/// Both keys of an item, which keys are equal, and what each makes a hasher write, for contracts to cite. It has no code.
pub trait Both {
    /// What the first keys are.
    type First;

    /// What the second keys are.
    type Second;

    // The keys that an item shows.
    ghost key1: { Self → Self.First };

    ghost key2: { Self → Self.Second };

    // Whether two keys are equal.
    ghost eq1: { Self.First → Self.First → Bool };

    ghost eq2: { Self.Second → Self.Second → Bool };

    // What a key makes a hasher write.
    ghost input1: { Self.First → HashWrites };

    ghost input2: { Self.Second → HashWrites };
}

impl<T: BiHashItem> Both for T {
    type First = T::K1;

    type Second = T::K2;

    ghost key1 = { T.key1 };

    ghost key2 = { T.key2 };

    ghost eq1 = { T.K1.eq };

    ghost eq2 = { T.K2.eq };

    ghost input1 = { T.K1.hash_input };

    ghost input2 = { T.K2.hash_input };
}
