//! Ids that texts keep: each text gets an id, and an id always means the same text.
//!
//! If `to`, `be`, `to` and `or` are interned in this order, their ids are 0, 1, 0 and 2.
//!
//! ```
//! let mut interner = Interner::new(alloc);
//! let to = interner.intern("to")?;
//! interner.intern("be")? // TextId(1)
//! interner.intern("to")? // TextId(0)
//! interner.intern("or")? // TextId(2)
//! interner.id_of_text("be") // Some(TextId(1))
//! interner.resolve(to) // Some("to")
//! ```
ghost use Rattle.std.specs.Prelude.{◌≡◌, ◌<◌, ℕ, IfOk, IsSome, List, OnErr, OnOk, Some, [], length, map, option_map, string_bytes};
ghost use Rattle.vecmap_callers.specs.Interner.{id_of, text_of, with_text};

use std::alloc::{AllocError, Global};
use std::marker::Model;
use vecmap::VecSet;
use vecmap_laws::sets as laws;

/// The id of an interned text.
#[derive(Clone, Copy, Debug, PartialEq, Eq)]
pub struct TextId(pub usize);

/// Distinct texts. The id of a text is its index. A contract sees the list of texts.
#[derive(Drop)]
pub struct Interner {
    texts: VecSet<String>,
}

impl Model for Interner {
    ghost use Rattle.std.specs.{Prelude.{List, String}, declared.alloc.Global.Global};

    ghost Value = { List (String Global) };

    ghost view = { λ interner. interner.texts.elements };
}

impl Interner {
    /// Creates an interner without texts.
    pub fn new(alloc: Global) -> Interner
        ensures { result ≡ [] }
    {
        Interner {
            texts: VecSet::new(alloc),
        }
    }

    /// Returns the number of texts. Their ids are the numbers below it.
    pub fn len(&self) -> usize
        ensures { result ≡ length self.now }
    {
        self.texts.len()
    }

    /// Returns the id of a text that was interned.
    ///
    /// # Complexity
    ///
    /// At most `len` comparisons. Does not allocate.
    pub fn id_of_text(&self, text: &str) -> Option<TextId>
        ensures { option_map (λ id. id.0) result ≡ id_of self.now text.now }
    {
        match self.texts.get_index_of(text) {
            Some(index) => Some(TextId(index)),
            None => None,
        }
    }

    /// Returns the text with an id, if the id was given.
    ///
    /// # Complexity
    ///
    /// No comparisons. Does not allocate.
    pub fn resolve(&self, id: TextId) -> Option<&str>
        ensures { option_map (λ text. text.now) result ≡ text_of self.now id.0 }
    {
        match self.texts.get_index(id.0) {
            Some(text) => Some(text.as_str()),
            None => None,
        }
    }

    /// Returns the id of a text. A text without an id is first appended.
    ///
    /// Each id keeps its text, and each text keeps its id. A text that was interned before changes nothing.
    ///
    /// # Errors
    ///
    /// [`AllocError`] if allocation fails; the interner is then unchanged.
    ///
    /// # Complexity
    ///
    /// At most `2 * len` comparisons.
    #[tactic(auto, using(crate::proofs::InternerLemmas::found_text))]
    pub fn intern(&mut self, text: &str) -> Result<TextId, AllocError>
        ensures text { IfOk result (λ id. text_of self.new id.0 ≡ Some text.now) }
        ensures id { IfOk result (λ id. id_of self.new text.now ≡ Some id.0) }
        ensures again { IfOk result (λ id. (known : ℕ) → id_of self.old text.now ≡ Some known
            → id.0 ≡ known) }
        ensures earlier { (id : ℕ) → id < length self.old
            → text_of self.new id ≡ text_of self.old id }
        ensures ids { (other : List ℕ) (known : ℕ) → id_of self.old other ≡ Some known
            → id_of self.new other ≡ Some known }
        ensures unchanged { IsSome (id_of self.old text.now) → self.new ≡ self.old }
        ensures texts { OnOk result (map string_bytes self.new ≡ with_text self.old text.now) }
        ensures err { OnErr result (self.new ≡ self.old) }
    {
        laws::additions_move_nothing::<String>();
        laws::queries_find_as_elements::<String>();
        laws::texts_are_queries();
        if let Some(index) = self.texts.get_index_of(text) {
            return Ok(TextId(index));
        }
        let id = TextId(self.texts.len());
        let owned = String::from_str(*self.texts.allocator(), text)?;
        self.texts.insert(owned)?;
        Ok(id)
    }
}
