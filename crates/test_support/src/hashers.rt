//! Hashers that tell few keys apart, or by few bits.
use std::hash::{BuildHasher, Hasher};

/// A hasher whose every hash is 0.
#[derive(Clone, Copy, Default)]
pub struct ZeroHasher;

impl Hasher for ZeroHasher {
    ghost write = { λ s _. s };

    ghost finish = { λ _. 0 };

    fn finish(&self) -> u64 {
        0
    }

    fn write(&mut self, _bytes: &[u8]) {}
}

/// The bits in which the hashes of small numbers differ.
#[derive(Clone, Copy)]
pub enum Varying {
    High,
    Low,
    /// All but the lowest six, which are 0.
    Multiples,
}

/// A hasher that passes the bits of a number on as they are, where they are to vary. It builds itself.
#[derive(Clone, Copy)]
pub struct FewBits {
    bits: u64,
    varying: Varying,
}

impl FewBits {
    /// The hasher before the first write.
    pub fn new(varying: Varying) -> FewBits {
        FewBits { bits: 0, varying }
    }
}

impl Hasher for FewBits {
    ghost use Rattle.std.specs.Prelude.{◌+◌, ◌*◌, ◌%◌, ◌^◌};
    ghost use Rattle.std.specs.List.{fold};
    ghost use Rattle.test_support.specs.FewBits.{placed};

    ghost write = { λ s bytes. record s { bits = fold (λ h b. (h * 256 % 2 ^ 64 + b) % 2 ^ 64) s.bits bytes } };

    ghost finish = { λ s. placed s.varying s.bits };

    fn finish(&self) -> u64 {
        match self.varying {
            Varying::High => self.bits.wrapping_mul(1 << 32),
            Varying::Low => self.bits / 256,
            Varying::Multiples => (self.bits / 256).wrapping_mul(64),
        }
    }

    // The lowest byte comes first: the hash of a number of 32 bits ends with its highest.
    fn write(&mut self, bytes: &[u8]) {
        for byte in bytes {
            self.bits = self.bits.wrapping_mul(256).wrapping_add(u64::from(*byte));
        }
    }
}

impl BuildHasher for FewBits {
    type Hasher = FewBits;

    ghost build_hasher = { λ hasher. hasher };

    fn build_hasher(&self) -> FewBits {
        *self
    }
}
