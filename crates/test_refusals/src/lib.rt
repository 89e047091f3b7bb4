//! Calls whose requests for memory are refused, one in each run. `tools/sweep` runs each test here under a heap
//! that refuses the first request, then the second, and so on. Any other heap refuses none. A test prints the word
//! for what it saw of a refusal.
#![tactic(auto)]

#[cfg(test)]
mod clones;
#[cfg(test)]
mod entries;
#[cfg(test)]
mod errors;
#[cfg(test)]
mod full;
#[cfg(test)]
mod growth;
#[cfg(test)]
mod hints;
#[cfg(test)]
mod late;
#[cfg(test)]
mod leaks;
#[cfg(test)]
mod lent;
#[cfg(test)]
mod made;
#[cfg(test)]
mod maps;
#[cfg(test)]
mod numbers;
#[cfg(test)]
mod prelude;
#[cfg(test)]
mod ranges;
#[cfg(test)]
mod reservations;
#[cfg(test)]
mod rooms;
#[cfg(test)]
mod walks;
