//! The unused blocks of a tree, which an insertion that splits takes and a removal that merges gives back.
ghost use Rattle.std.specs.Prelude.{◌≡◌, ◌+◌, ◌-◌, ◌^◌, ◌<◌, ◌≤◌, ◌↔◌, IsTrue, OnOk, OnErr, OnSome, IfOk, IfSome, vec_capacity, vec_len};
ghost use Rattle.iddqd_ord_index.specs.Changes.{AreBare, IsFilled, IsTaken};
ghost use Rattle.iddqd_ord_index.specs.Inserting.{HasFor};
ghost use Rattle.iddqd_ord_index.specs.Neighbours.{IsGivenBack};
ghost use Rattle.iddqd_ord_index.specs.Nodes.{IsBare};

use super::node::Block;
use std::alloc::{AllocError, Global};
use std::marker::Model;

/// Unused blocks for branches, and how many are wanted: those beyond are given to the heap.
#[derive(Drop)]
pub(crate) struct BlockPool {
    blocks: Vec<Box<Block>>,
    wanted: usize,
}

impl Model for BlockPool {
    ghost use Rattle.std.specs.Prelude.{◌≤◌, vec_capacity, vec_len};
    ghost use Rattle.iddqd_ord_index.specs.Changes.{Stock, AreBare};

    ghost Value = { Stock };

    ghost view = { λ s. record { count = vec_len s.blocks; wanted = s.wanted; room = vec_capacity s.blocks } };

    ghost invariant = { λ s. AreBare s.blocks.items × (s.wanted ≤ vec_capacity s.blocks) };
}

impl BlockPool {
    // Returns a pool without blocks, of which none is wanted. Does not allocate.
    pub(crate) fn new(alloc: Global) -> Self
        ensures { (result.count ≡ 0) × (result.wanted ≡ 0) }
    {
        BlockPool {
            blocks: Vec::new(alloc),
            wanted: 0,
        }
    }

    // Returns a pool without blocks, with room for `wanted`.
    pub(crate) fn wanting(wanted: usize, alloc: Global) -> Result<Self, AllocError>
        ensures { IfOk result (λ pool. (pool.wanted ≡ wanted) × (wanted ≤ pool.room)) }
    {
        let mut pool = BlockPool::new(alloc);
        pool.make_room(wanted)?;
        pool.want(wanted);
        Ok(pool)
    }

    // Allocates as many as are wanted, and room for one more. If one is refused, what was gained stays.
    pub(crate) fn prepare(&mut self, wanted: usize, alloc: Global) -> Result<(), AllocError>
        requires { wanted < 2 ^ 32 }
        ensures kept { (self.old.count ≤ self.new.count) × (self.old.room ≤ self.new.room) }
        ensures ok { OnOk result (IsFilled wanted self.new) }
        ensures err { OnErr result (self.new.wanted ≡ self.old.wanted) }
    {
        self.make_room(wanted + 1)?;
        fill(&mut self.blocks, wanted, alloc)?;
        self.wanted = wanted;
        Ok(())
    }

    // Whether as many are there, and room for one more.
    pub(crate) fn is_filled(&self, wanted: usize) -> bool
        ensures { IsTrue result ↔ HasFor wanted self.now }
    {
        self.blocks.len() >= wanted && self.blocks.capacity() > wanted
    }

    // Makes room for this many blocks.
    pub(crate) fn make_room(&mut self, room: usize) -> Result<(), AllocError>
        ensures same { (self.new.count ≡ self.old.count) × (self.new.wanted ≡ self.old.wanted) }
        ensures kept { self.old.room ≤ self.new.room }
        ensures ok { OnOk result (room ≤ self.new.room) }
    {
        self.blocks.reserve(room.saturating_sub(self.blocks.len()))
    }

    // Sets how many blocks are wanted.
    pub(crate) fn want(&mut self, wanted: usize)
        requires { wanted ≤ self.old.room }
        ensures { self.new ≡ record self.old { wanted = wanted } }
    {
        self.wanted = wanted;
    }

    // Takes a block out.
    pub(crate) fn take(&mut self) -> Box<Block>
        requires { 0 < self.old.count }
        ensures block { IsBare result.value }
        ensures taken { IsTaken self.old self.new }
    {
        let Some(block) = self.blocks.pop() else {
            unreachable!()
        };
        block
    }

    // Keeps an unused block, if there is one and it is wanted, and else frees it.
    pub(crate) fn give_back(&mut self, block: Option<Box<Block>>)
        requires { IfSome block (λ block. IsBare block.value) }
        ensures given { OnSome block (IsGivenBack self.old self.new) }
        ensures kept { self.old.count ≤ self.new.count }
        ensures same { (self.new.wanted ≡ self.old.wanted) × (self.new.room ≡ self.old.room) }
    {
        let Some(block) = block else {
            return;
        };
        if self.blocks.len() < self.wanted {
            self.blocks.push_reserved(block);
        }
    }
}

// Allocates blocks until there are as many as are wanted.
fn fill(blocks: &mut Vec<Box<Block>>, wanted: usize, alloc: Global) -> Result<(), AllocError>
    requires bare { AreBare blocks.old.items }
    requires room { wanted ≤ vec_capacity blocks.old }

    // afterwards
    ensures bare { AreBare blocks.new.items }
    ensures room { vec_capacity blocks.new ≡ vec_capacity blocks.old }
    ensures kept { vec_len blocks.old ≤ vec_len blocks.new }
    ensures ok { OnOk result (wanted ≤ vec_len blocks.new) }
{
    'fill: while blocks.len() < wanted {
        let block = Box::new(alloc, Block::new())?;
        blocks.push_reserved(block);
    }
    Ok(())
}
