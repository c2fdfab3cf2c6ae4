//! Reads the command of a line.
ghost use Rattle.std.specs.{Prelude.{◌≡◌, ◌≢◌, ◌^◌, ◌<◌, ℕ, ℤ, IfNone, IfSome, IsTrue, List, codes, false}, Char.is_ascii_digit};
ghost use Rattle.std.specs.List.{list_all};
ghost use Rattle.vecmap_run.specs.declared.command.Command.{Command};
ghost use Rattle.vecmap_run.specs.Grammar.{HasArguments, IsPair, IsPairAt, Says, has_length_up_to, is_key, is_key_byte, name_of, number_of, value_of};

// The greatest length of a key.
const MAX_KEY_BYTES: usize = 64;

// The greatest number of digits of a number, which is then below 10 ^ 18.
const MAX_DIGITS: usize = 18;

/// A command on the map.
#[derive(Clone, Copy, Debug, PartialEq, Eq)]
pub enum Command<'a> {
    /// `insert K V`
    Insert(&'a str, i64),
    /// `insert_at I K V`
    InsertAt(usize, &'a str, i64),
    /// `or_insert K V`
    OrInsert(&'a str, i64),
    /// `get K`
    Get(&'a str),
    /// `index K`
    IndexOf(&'a str),
    /// `remove K`
    Remove(&'a str),
    /// `swap_remove K`
    SwapRemove(&'a str),
    /// `len`
    Len,
    /// `list`
    List,
}

/// Returns the command of a line, if the line is a command.
pub fn parse(line: &[u8]) -> Option<Command<'_>>
    ensures said { IfSome result (λ command. Says command line.now) }
    ensures unsaid { IfNone result ((command : Command) → Says command line.now → ⊥) }
{
    match str::from_utf8(line) {
        Ok(text) => parse_text(text),
        Err(_error) => None,
    }
}

// Like `parse`, for a line that is text.
fn parse_text(line: &str) -> Option<Command<'_>>
    ensures said { IfSome result (λ command. Says command line.now) }
    ensures unsaid { IfNone result ((command : Command) → Says command line.now → ⊥) }
{
    match line.split_once(' ') {
        Some((name, text)) => with_arguments(name, text),
        None => without_arguments(line),
    }
}

// Returns the command of a line that is one word.
fn without_arguments(name: &str) -> Option<Command<'_>>
    ensures said { IfSome result (λ command. Says command name.now) }
    ensures unsaid { IfNone result ((name.now ≢ codes "len") × (name.now ≢ codes "list")) }
{
    match name {
        "len" => Some(Command::Len),
        "list" => Some(Command::List),
        _ => None,
    }
}

// Returns the command of a line that has text after its first word.
fn with_arguments<'a>(name: &str, text: &'a str) -> Option<Command<'a>>
    ensures said { IfSome result (λ command. (name.now ≡ name_of command)
        × HasArguments command text.now) }
    ensures unsaid { IfNone result
        ((command : Command) → name.now ≡ name_of command → HasArguments command text.now → ⊥) }
{
    match name {
        "insert" => {
            let (key, value) = parse_pair(text)?;
            Some(Command::Insert(key, value))
        }
        "insert_at" => {
            let (index, key, value) = parse_pair_at(text)?;
            Some(Command::InsertAt(index, key, value))
        }
        "or_insert" => {
            let (key, value) = parse_pair(text)?;
            Some(Command::OrInsert(key, value))
        }
        "get" => Some(Command::Get(parse_key(text)?)),
        "index" => Some(Command::IndexOf(parse_key(text)?)),
        "remove" => Some(Command::Remove(parse_key(text)?)),
        "swap_remove" => Some(Command::SwapRemove(parse_key(text)?)),
        _ => None,
    }
}

// Parses a key and a value.
fn parse_pair(text: &str) -> Option<(&str, i64)>
    ensures said { IfSome result (λ pair. IsPair pair.0.now pair.1 text.now) }
    ensures unsaid { IfNone result ((key : List ℕ) (value : ℤ) → IsPair key value text.now → ⊥) }
{
    let (word, value_word) = text.split_once(' ')?;
    Some((parse_key(word)?, parse_value(value_word)?))
}

// Parses an index, a key and a value.
fn parse_pair_at(text: &str) -> Option<(usize, &str, i64)>
    ensures said { IfSome result (λ found. IsPairAt found.0 found.1.now found.2 text.now) }
    ensures unsaid { IfNone result
        ((index : ℕ) (key : List ℕ) (value : ℤ) → IsPairAt index key value text.now → ⊥) }
{
    let (word, rest) = text.split_once(' ')?;
    let index = parse_number(word)?;
    let (key, value) = parse_pair(rest)?;
    Some((index, key, value))
}

// Returns the word itself, if it is a key.
fn parse_key(word: &str) -> Option<&str>
    ensures said { IfSome result (λ key. IsTrue (is_key key.now) × (word.now ≡ key.now)) }
    ensures unsaid { IfNone result (is_key word.now ≡ false) }
{
    if has_length_up_to(word, MAX_KEY_BYTES) && are_key_bytes(word) {
        Some(word)
    } else {
        None
    }
}

fn are_key_bytes(word: &str) -> bool
    ensures { result ≡ list_all is_key_byte word.now }
{
    word.bytes().all(is_key_byte)
}

fn is_key_byte(byte: u8) -> bool
    ensures { result ≡ is_key_byte byte }
{
    byte.is_ascii_alphanumeric() || matches!(byte, b'_' | b'-' | b'.')
}

// Parses a number: digits, with an optional `-` before them.
fn parse_value(word: &str) -> Option<i64>
    ensures { result ≡ value_of word.now }
{
    match word.strip_prefix('-') {
        Some(digits) => Some(-(parse_number(digits)? as i64)),
        None => Some(parse_number(word)? as i64),
    }
}

// Parses a number of digits alone.
fn parse_number(word: &str) -> Option<usize>
    ensures value { result ≡ number_of word.now }
    ensures small { IfSome result (λ number. number < 10 ^ 18) }
{
    if has_length_up_to(word, MAX_DIGITS) && are_digits(word) {
        word.parse().ok()
    } else {
        None
    }
}

fn are_digits(word: &str) -> bool
    ensures { result ≡ list_all is_ascii_digit word.now }
{
    word.bytes().all(|byte| byte.is_ascii_digit())
}

fn has_length_up_to(word: &str, most: usize) -> bool
    ensures { result ≡ has_length_up_to most word.now }
{
    !word.is_empty() && word.len() <= most
}
