//! The line that is being read. Its length has a limit, unlike a line of std's `read_line`.
ghost use Rattle.std.specs.Prelude.{◌≡◌, ◌++◌, ◌∷◌, [], List, ℕ, None, Option, Some, ◌==◌, length, if◌then◌else◌, option_copied};
ghost use Rattle.vecmap_run.specs.Lines.{within_limit};

use crate::bytes::Bytes;
use std::marker::Model;

// The greatest number of bytes of a line.
const MAX_LINE_BYTES: usize = 4096;

/// The bytes of a line so far. If a line exceeds the limit, only this fact is kept. A contract sees them as
/// `within_limit` of the whole line.
#[derive(Drop)]
pub struct Line {
    bytes: Bytes<MAX_LINE_BYTES>,
    is_too_long: bool,
}

impl Model for Line {
    ghost Value = { Option (List ℕ) };

    ghost view = { λ l. if l.is_too_long then None else Some l.bytes };
}

impl Line {
    /// Creates an empty line.
    pub fn new() -> Line
        ensures { result ≡ within_limit [] }
    {
        Line {
            bytes: Bytes::new(),
            is_too_long: false,
        }
    }

    /// Returns the bytes of the line, or `None` if it is too long.
    pub fn bytes(&self) -> Option<&[u8]>
        ensures { option_copied result ≡ self.now }
    {
        if self.is_too_long {
            None
        } else {
            Some(self.bytes.as_slice())
        }
    }

    /// Returns `true` if the line is empty. A line that is too long is not empty.
    pub fn is_empty(&self) -> bool
        ensures { (line : List ℕ) → self.now ≡ within_limit line → result ≡ (length line == 0) }
    {
        !self.is_too_long && self.bytes.is_empty()
    }

    /// Appends the next byte of the line.
    pub fn push(&mut self, byte: u8)
        ensures { (line : List ℕ) → self.old ≡ within_limit line
            → self.new ≡ within_limit (line ++ byte ∷ []) }
    {
        if self.bytes.is_full() {
            self.is_too_long = true;
        } else {
            self.bytes.push(byte);
        }
    }

    /// Begins the next line.
    pub fn clear(&mut self)
        ensures { self.new ≡ within_limit [] }
    {
        self.bytes.clear();
        self.is_too_long = false;
    }
}
