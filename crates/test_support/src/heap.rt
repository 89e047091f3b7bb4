//! The count of requests for memory that the heap of the sweeps keeps (`tools/refuse.c`).
use std::alloc::Global;

/// Begins the count. No heap grants a block of this size.
pub fn arm(alloc: Global) {
    let _ = Vec::<u8>::with_capacity(alloc, 1 << 48);
}

/// Ends the count, and returns whether a request was refused since. Only the heap that counts ever grants this
/// block.
pub fn is_met(alloc: Global) -> bool {
    Vec::<u8>::with_capacity(alloc, (1 << 49) + 1).is_ok()
}

/// Whether more or fewer blocks of memory are held than when the count began. Only the heap that counts ever grants
/// this block.
pub fn has_leaked(alloc: Global) -> bool {
    Vec::<u8>::with_capacity(alloc, (1 << 49) + 2).is_ok()
}

/// Lets the heap that counts tell how many bytes are held beyond those when the count began. It tells too how many of
/// them are in the largest block. No heap grants a block of this size.
pub fn tell_bytes(alloc: Global) {
    let _ = Vec::<u8>::with_capacity(alloc, (1 << 49) + 3);
}
