//! What no clause of the maps and of `run` says: the worked rows, printed texts, and that each call succeeds with
//! memory at hand.
#![tactic(auto)]

#[cfg(test)]
mod clones;
#[cfg(test)]
mod coarse;
#[cfg(test)]
mod collecting;
#[cfg(test)]
mod commands;
#[cfg(test)]
mod commands_refused;
#[cfg(test)]
mod differences;
#[cfg(test)]
mod drops;
#[cfg(test)]
mod errors;
#[cfg(test)]
mod insertions;
#[cfg(test)]
mod limits;
#[cfg(test)]
mod prelude;
#[cfg(test)]
mod queries;
#[cfg(test)]
mod ranges;
#[cfg(test)]
mod serve;
#[cfg(test)]
mod texts;
#[cfg(test)]
mod visits;
