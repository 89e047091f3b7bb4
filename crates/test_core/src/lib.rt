//! What no clause of the store and of the two indexes says: that each call succeeds with memory at hand, and long runs
//! of calls.
#![tactic(auto)]

#[cfg(test)]
mod hash_index;
#[cfg(test)]
mod ord_index;
#[cfg(test)]
mod queries;
#[cfg(test)]
mod store;
