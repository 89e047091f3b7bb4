//! What no clause of `serve` says: the worked lines and their replies, and what a reader and a writer see. Lines with
//! memory refused are swept (`tools/sweep`).
mod lines;
mod parts;
mod streams;
mod texts;
