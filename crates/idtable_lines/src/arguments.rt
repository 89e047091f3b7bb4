//! The program's arguments.
ghost use Rattle.std.specs.Prelude.{◌≡◌, drop, map, string_bytes};
ghost use Rattle.idtable_lines.specs.Arguments.{kind_for};

/// The map that replies to the lines.
#[derive(Clone, Copy, Debug, PartialEq, Eq)]
pub enum Kind {
    /// `IdHashMap`, over the default hasher.
    Hash,
    /// `IdOrdMap`.
    Ord,
}

/// Returns the kind that the words after the program's name ask for: the ordered map if there are none. It returns
/// `None` if they are wrong.
pub fn kind_of(args: &[String]) -> Option<Kind>
    ensures { result ≡ kind_for (map string_bytes args.now) }
{
    match args {
        [] => Some(Kind::Ord),
        [word] if word.as_str() == "hash" => Some(Kind::Hash),
        [word] if word.as_str() == "ord" => Some(Kind::Ord),
        _ => None,
    }
}

/// Returns the words after a program's name, of those that it is called by.
pub fn after_name(words: &[String]) -> &[String]
    ensures { result.now ≡ drop 1 words.now }
{
    match words {
        [] => words,
        [_, args @ ..] => args,
    }
}
