//! A swept test prints the word for what it saw, or fails.
use crate::heap::is_met;
use std::alloc::Global;
use std::test::Fail;

/// The word for what a test saw, or what was wrong.
pub type Word = Result<&'static str, Fail>;

/// Prints the word.
pub fn tell(rt: &impl Print, word: Word) -> Result<(), Fail> {
    println!(rt; "{}", word?)?;
    Ok(())
}

/// Rows: a word each, and what is seen then.
#[macro_export]
macro_rules! rows {
    ($($word:literal: $seen:expr;)*) => {
        [$(($word, $seen)),*]
    };
}

/// The word of the row that was seen.
pub fn word_of<S: PartialEq>(rows: &[(&'static str, S)], seen: &S) -> Word {
    let found = rows.iter().find(|(_, row)| row == seen);
    Ok(found.ok_or("what was seen is no row")?.0)
}

/// The first word if all is well and no request was refused, the second if one was.
pub fn word_by_refusal(is_well: bool, is_met: bool, words: [&'static str; 2]) -> Word {
    let [done, refused] = words;
    let rows = [(done, (true, false)), (refused, (true, true))];
    word_of(&rows, &(is_well, is_met))
}

/// Ends the count: the word for calls that went well and met no request.
pub fn word_without_memory(alloc: Global, is_well: bool) -> Word {
    word_of(
        &[("asked_nothing", (true, false))],
        &(is_well, is_met(alloc)),
    )
}
