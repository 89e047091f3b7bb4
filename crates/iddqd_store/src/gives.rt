//! What an iterable gives.
ghost use Rattle.std.specs.Prelude.{List};

/// What an iterable gives, for contracts to cite. It has no code.
pub trait Gives {
    /// What it gives.
    type Given;

    // It gives these items and no more.
    ghost gives_all: { Self → List Self.Given → Type 0 };

    // It gives these items and then this one.
    ghost gives_then: { Self → List Self.Given → Self.Given → Type 0 };
}

impl<U: IntoIterator> Gives for U {
    ghost use Rattle.iddqd_store.specs.Collecting.{GivesAll, GivesThen};

    type Given = U::Item;

    ghost gives_all = { GivesAll U.into_iter_gives U.IntoIter.next_gives };

    ghost gives_then = { GivesThen U.into_iter_gives U.IntoIter.next_gives };
}
