//! Hosts, by number and by address.
use iddqd_bi_hash::BiHashItem;

#[derive(Clone, Copy, Debug, Drop, PartialEq, Eq)]
pub(crate) struct Host {
    pub(crate) number: u32,
    pub(crate) address: u64,
    pub(crate) load: u32,
}

impl BiHashItem for Host {
    type K1 = u32;

    type K2 = u64;

    ghost key1 = { λ host. host.number };

    ghost key2 = { λ host. host.address };

    fn key1(&self) -> &u32 {
        &self.number
    }

    fn key2(&self) -> &u64 {
        &self.address
    }
}
