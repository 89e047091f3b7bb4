//! What an argument asks for.
/// One number, or those from one up to another.
pub(crate) enum Asked {
    One(u32),
    Between(u32, u32),
}

/// Returns what a word asks for: `7` for a number, `3..9` for those from 3 up to 9, without 9.
pub(crate) fn parse_argument(word: &str) -> Option<Asked> {
    match word.split_once("..") {
        Some((low, high)) => Some(Asked::Between(low.parse().ok()?, high.parse().ok()?)),
        None => Some(Asked::One(word.parse().ok()?)),
    }
}
