//! What no clause of a map of two keys says: that calls succeed with memory at hand, what they cost, and long runs.
#![tactic(auto)]

#[cfg(test)]
mod bulk;
#[cfg(test)]
mod copies;
#[cfg(test)]
mod counts;
#[cfg(test)]
mod drops;
#[cfg(test)]
mod entries;
#[cfg(test)]
mod extended;
#[cfg(test)]
mod filled;
#[cfg(test)]
mod held;
#[cfg(test)]
mod hosts;
#[cfg(test)]
mod or_insert;
#[cfg(test)]
mod owned;
#[cfg(test)]
mod random;
#[cfg(test)]
mod refused;
#[cfg(test)]
mod rows;
#[cfg(test)]
mod short;
#[cfg(test)]
mod shrinks;
#[cfg(test)]
mod texts;
#[cfg(test)]
mod walks;
#[cfg(test)]
mod whole_counts;
