//! The lines of a text, and what a line asks for.
ghost use Rattle.std.specs.Prelude.{◌≡◌, ◌∷◌, ◌<◌, ◌≤◌, ◌↔◌, length, IfSome, IsTrue};
ghost use Rattle.std.specs.List.{list_all};
ghost use Rattle.idtable_lines.specs.Lines.{HasOneForm, alone, forms, is_name, is_name_byte, lines_of, request_by, request_of, value_of, words_of};
ghost use Rattle.idtable_lines.specs.Parsed.{BeginsWithPair, IsNameIn, ReadsName, ReadsNameAndValue, ReadsValue, request_in, request_if_any, length_behind, words_behind};

/// What a line asks for.
#[derive(Clone, Copy)]
pub enum Line<'a> {
    /// A request of one name, of one value, or of none, which has one reply.
    Request(Request<'a>),
    /// `addall`: many entries, or nothing if the fields do not follow the form.
    AddAll {
        /// The fields in which the pairs stand.
        fields: &'a [u8],
    },
    /// `list`: all entries.
    List,
    /// An entry at an end.
    End(End),
    /// It follows no form.
    Bad,
}

/// A request that has one reply.
#[derive(Clone, Copy)]
pub enum Request<'a> {
    /// `add`: an entry, if there is none of its name.
    Add(NamedValue<'a>),
    /// `put`: an entry, in place of the one of its name too.
    Put(NamedValue<'a>),
    /// `get`: the value of a name.
    Get(&'a str),
    /// `del`: that a name goes.
    Del(&'a str),
    /// `cost`: whether a name is found within the bound.
    Cost(&'a str),
    /// `set`: the value of a name that exists.
    Set(NamedValue<'a>),
    /// `keep`: that the entries of greater value stay.
    Keep(u64),
    /// `reserve`: room for this many more.
    Reserve(u64),
    /// `shrink`: that room is given back.
    Shrink,
    /// `len`: the number of entries.
    Len,
}

/// A name and its value.
#[derive(Clone, Copy)]
pub struct NamedValue<'a> {
    /// The name.
    pub name: &'a str,
    /// The value.
    pub value: u64,
}

/// A request for the entry at an end, by name.
#[derive(Clone, Copy)]
pub enum End {
    /// `first`: the one of the least name.
    First,
    /// `last`: the one of the greatest name.
    Last,
    /// `popfirst`: the one of the least name, which goes.
    PopFirst,
    /// `poplast`: the one of the greatest name, which goes.
    PopLast,
}

/// A name, its value, and what follows them.
#[derive(Clone, Copy)]
pub struct Pair<'a> {
    /// The name.
    pub name: &'a str,
    /// The value.
    pub value: u64,
    /// The fields after a space, if one follows.
    pub rest: Option<&'a [u8]>,
}

/// Returns the first line of a text that is not empty, and the text after it. It looks at each byte up to the line's
/// end once.
pub fn first_line(text: &[u8]) -> (&[u8], &[u8])
    requires { 0 < length text.now }
    ensures lines { lines_of text.now ≡ result.0.now ∷ lines_of result.1.now }
    ensures shorter { length result.1.now < length text.now }
{
    for (i, byte) in text.iter().enumerate() {
        if *byte == b'\n' {
            return (&text[..i], &text[i + 1..]);
        }
    }
    (text, &[])
}

/// Returns what the line asks for. Does not allocate.
pub fn parse(line: &[u8]) -> Line<'_>
    ensures { request_in result ≡ request_of line.now }
{
    let (word, fields) = first_word(line);
    let Some(word) = name_in(word) else {
        return Line::Bad;
    };
    match by_word(word, fields) {
        Some(line) => line,
        None => Line::Bad,
    }
}

// What a word and the fields after it ask for, or `None` if they follow no form.
fn by_word<'a>(word: &str, fields: Option<&'a [u8]>) -> Option<Line<'a>>
    ensures { request_if_any result ≡ request_by forms word.now (words_behind fields.entry) }
{
    match word {
        "add" => Some(Line::Request(Request::Add(name_and_value(fields)?))),
        "addall" => Some(Line::AddAll { fields: fields? }),
        "put" => Some(Line::Request(Request::Put(name_and_value(fields)?))),
        "get" => Some(Line::Request(Request::Get(name_alone(fields)?))),
        "del" => Some(Line::Request(Request::Del(name_alone(fields)?))),
        "set" => Some(Line::Request(Request::Set(name_and_value(fields)?))),
        "keep" => Some(Line::Request(Request::Keep(value_alone(fields)?))),
        "len" => alone(Line::Request(Request::Len), fields),
        "cost" => Some(Line::Request(Request::Cost(name_alone(fields)?))),
        "list" => alone(Line::List, fields),
        "first" => alone(Line::End(End::First), fields),
        "last" => alone(Line::End(End::Last), fields),
        "popfirst" => alone(Line::End(End::PopFirst), fields),
        "poplast" => alone(Line::End(End::PopLast), fields),
        "reserve" => Some(Line::Request(Request::Reserve(value_alone(fields)?))),
        "shrink" => alone(Line::Request(Request::Shrink), fields),
        _ => None,
    }
}

// What a word alone asks for.
fn alone<'a>(line: Line<'a>, fields: Option<&[u8]>) -> Option<Line<'a>>
    ensures { request_if_any result ≡ alone (request_in line.entry) (words_behind fields.entry) }
{
    match fields {
        None => Some(line),
        Some(_) => None,
    }
}

// The name that the fields are.
fn name_alone(fields: Option<&[u8]>) -> Option<&str>
    ensures { ReadsName (words_behind fields.entry) result }
{
    name_in(fields?)
}

// The value that the fields are.
fn value_alone(fields: Option<&[u8]>) -> Option<u64>
    ensures { ReadsValue (words_behind fields.entry) result }
{
    value_in(fields?)
}

// The name and the value that the fields are.
fn name_and_value(fields: Option<&[u8]>) -> Option<NamedValue<'_>>
    ensures { ReadsNameAndValue (words_behind fields.entry) result }
{
    let (name, value) = first_word(fields?);
    let name = name_in(name)?;
    let value = value_in(value?)?;
    Some(NamedValue { name, value })
}

/// Returns the pair that the fields begin with, or `None` if they do not begin with one. Does not allocate.
pub fn first_pair(fields: &[u8]) -> Option<Pair<'_>>
    ensures pairs { BeginsWithPair (words_of fields.now) result }
    ensures shorter { IfSome result (λ pair. length_behind pair.rest ≤ length fields.now) }
{
    let (name, value) = first_word(fields);
    let (value, rest) = first_word(value?);
    let name = name_in(name)?;
    let value = value_in(value)?;
    Some(Pair { name, value, rest })
}

// The first word, and what follows the space after it.
fn first_word(text: &[u8]) -> (&[u8], Option<&[u8]>)
    ensures words { words_of text.now ≡ result.0.now ∷ words_behind result.1 }
    ensures shorter { IfSome result.1 (λ rest. length rest.now < length text.now) }
{
    for (i, byte) in text.iter().enumerate() {
        if *byte == b' ' {
            return (&text[..i], Some(&text[i + 1..]));
        }
    }
    (text, None)
}

// Whether the word is a name: 1 to 32 bytes of `a-z0-9`.
fn is_name_word(word: &[u8]) -> bool
    ensures { result ≡ is_name word.now }
{
    match word.len() {
        1..=32 => are_name_bytes(word),
        _ => false,
    }
}

fn are_name_bytes(word: &[u8]) -> bool
    ensures { result ≡ list_all is_name_byte word.now }
{
    word.iter()
        .all(|byte| byte.is_ascii_lowercase() || byte.is_ascii_digit())
}

// The name that the word is.
fn name_in(word: &[u8]) -> Option<&str>
    ensures { IsNameIn word.now result }
{
    if !is_name_word(word) {
        return None;
    }
    match str::from_utf8(word) {
        Ok(name) => Some(name),
        Err(_) => unreachable!(),
    }
}

// The value that the word is.
fn value_in(word: &[u8]) -> Option<u64>
    ensures { result ≡ value_of word.now }
{
    if !has_one_form(word) {
        return None;
    }
    let Ok(text) = str::from_utf8(word) else {
        return None;
    };
    text.parse().ok()
}

// Whether the word, if it is a number, is that number's only form: without a sign, and without a zero in front.
fn has_one_form(word: &[u8]) -> bool
    ensures { IsTrue result ↔ HasOneForm word.now }
{
    match word.first() {
        None => false,
        Some(first) => *first != b'+' && (*first != b'0' || word.len() == 1),
    }
}
