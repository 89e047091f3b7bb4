//! What callers of the maps learn of what they did: each function here proves its contract from the maps' alone. Nobody
//! calls them.
#![tactic(auto)]

mod bi_accounts;
mod bi_entries;
mod bi_keys;
mod differences;
mod errors;
mod hash_adding;
mod hash_entries;
mod hash_guards;
mod hash_insertions;
mod hash_seeds;
mod items;
mod lookups;
mod ord_adding;
mod ord_entries;
mod ord_groups;
mod ord_guards;
mod ord_insertions;
mod ord_ranges;
mod own_keys;
mod parts;
mod registry;
mod runs;
mod stock;
mod walks;
