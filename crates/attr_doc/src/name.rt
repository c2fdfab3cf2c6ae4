//! Names that ignore the case of ASCII letters.
ghost use Rattle.attr_doc.specs.Documents.{ignoring_case_equiv};
ghost use Rattle.std.specs.{Cmp.partial_equiv_from_equiv, Prelude.{◌≡◌, string_bytes}, Str.str_eq_ignore_ascii_case};

#[cfg(test)]
mod tests;

use crate::ignoring_case::are_equal;
use std::fmt;
use std::marker::Model;

/// A name, as it was written.
///
/// Any text can be a name, also the empty text. In contracts a name is its bytes.
#[derive(Drop)]
pub struct Name {
    text: String,
}

impl Model for Name {
    ghost use Rattle.std.specs.Prelude.{ℕ, List, string_bytes};

    ghost Value = { List ℕ };

    ghost view = { λ n. string_bytes n.text };
}

impl Name {
    /// Creates a name from its text.
    ///
    /// # Complexity
    ///
    /// Does not allocate.
    ///
    /// # Examples
    ///
    /// ```
    /// Name::new("Font".to_string(alloc)?) == Name::new("FONT".to_string(alloc)?) // true
    /// ```
    pub fn new(text: String) -> Name
        ensures { result ≡ string_bytes text }
    {
        Name { text }
    }

    /// Returns the text of the name, as it was passed to [`Name::new`].
    ///
    /// # Examples
    ///
    /// ```
    /// Name::new("Font".to_string(alloc)?).text() // "Font"
    /// ```
    pub fn text(&self) -> &str
        ensures { result.now ≡ self.now }
    {
        self.text.as_str()
    }
}

/// Compares the bytes of two names, with `A` to `Z` read as `a` to `z`.
///
/// No other bytes are folded: `Ä` and `ä` differ, and so do `a` and ` a`.
///
/// # Complexity
///
/// Does not allocate.
impl PartialEq for Name {
    ghost eq = { str_eq_ignore_ascii_case };

    ghost laws = { partial_equiv_from_equiv ignoring_case_equiv };

    fn eq(&self, other: &Name) -> bool {
        are_equal(self.text().as_bytes(), other.text().as_bytes())
    }
}

impl Eq for Name {
    ghost laws = { ignoring_case_equiv };
}

/// Prints the text of the name as it was written, in quotes, as std prints a text.
impl fmt::Debug for Name {
    fn fmt<W: fmt::Write>(&self, f: &mut fmt::Formatter<W>) -> fmt::Result {
        write!(f, "{:?}", self.text())
    }
}
