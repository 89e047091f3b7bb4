//! What calls of the maps cost, and the rows of hostile shapes. Keys are compared and hashed, hints lie, hashers
//! tell little, items are many, and keys are spelled anew. Beside them: walks, equality and numbers, and long random
//! lists of calls.
#![tactic(auto)]

#[cfg(test)]
mod alike;
#[cfg(test)]
mod bounds;
#[cfg(test)]
mod calls;
#[cfg(test)]
mod counting;
#[cfg(test)]
mod hints;
#[cfg(test)]
mod hostile;
#[cfg(test)]
mod many;
#[cfg(test)]
mod many_items;
#[cfg(test)]
mod metered;
#[cfg(test)]
mod numbers;
#[cfg(test)]
mod prelude;
#[cfg(test)]
mod random;
#[cfg(test)]
mod rows;
#[cfg(test)]
mod stored;
#[cfg(test)]
mod trees;
#[cfg(test)]
mod walks;
