//! What a lane of a group holds beside its tag: a hash and a slot, in twelve bytes.
ghost use Rattle.std.specs.Prelude.{◌≡◌};
ghost use Rattle.iddqd_hash_index.specs.Lanes.{pair_in};

// The hash is kept in two halves, so that no byte is lost to alignment.
const HALF: u64 = 1 << 32;

// The pair of a lane.
#[derive(Clone, Copy)]
pub(super) struct Cell {
    slot: u32,
    low: u32,
    high: u32,
}

impl Cell {
    #[inline]
    pub(super) fn new(hash: u64, slot: u32) -> Cell
        ensures { pair_in result ≡ (hash, slot) }
    {
        Cell {
            slot,
            low: (hash % HALF) as u32,
            high: (hash / HALF) as u32,
        }
    }

    #[inline]
    pub(super) fn hash(&self) -> u64
        ensures { result ≡ (pair_in self.now).0 }
    {
        u64::from(self.high) * HALF + u64::from(self.low)
    }

    #[inline]
    pub(super) fn slot(&self) -> u32
        ensures { result ≡ (pair_in self.now).1 }
    {
        self.slot
    }
}
