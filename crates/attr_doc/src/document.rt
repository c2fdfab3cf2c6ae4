//! The type of documents.
ghost use Rattle.attr_doc.specs.Documents.{AreSame, IsDocument, merge_of, text_of, with_text};
ghost use Rattle.std.specs.{Map.keys_of, Map.Iter.deref};
ghost use Rattle.std.specs.Prelude.{◌≡◌, ◌<◌, ◌↔◌, IfErr, IfOk, IsOk, IsSome, IsTrue, OnErr, OnOk, [], length, option_copied, option_map, string_bytes};
ghost use Rattle.vecmap.specs.Iterators.{ShowsAll};

#[cfg(test)]
mod tests;

use crate::Name;
use crate::merge::{make_room, move_all};
use crate::set::set_text;
use std::alloc::{AllocError, Global};
use std::fmt;
use std::marker::Model;
use std::mem::replace;
use vecmap::map::Keys;
use vecmap::{Refused, VecMap};

/// A document: sections of texts, each under a name.
///
/// Sections keep the order in which they were first set, and so do the names in each section. On both levels all names
/// are distinct, and no section is empty. In contracts a document is the list of its sections. Each section is a name
/// with its list of names and texts.
///
/// In the examples `name(alloc, "Font")?` is `Name::new("Font".to_string(alloc)?)`, and `page` begins as the document
/// of the first example.
///
/// # Examples
///
/// ```
/// let mut page = Document::new(alloc);
/// page.set(name(alloc, "Font")?, name(alloc, "Size")?, "12".to_string(alloc)?)?;
/// format!(in alloc; "{page:?}")?.as_str() // r#"{"Font": {"Size": "12"}}"#
/// ```
#[derive(Drop)]
pub struct Document {
    sections: VecMap<Name, VecMap<Name, String>>,
}

impl Model for Document {
    ghost use Rattle.attr_doc.specs.Documents.{IsDocument, Sections, sections_of};

    ghost Value = { Sections };

    ghost view = { λ d. sections_of d.sections.entries };

    ghost invariant = { λ d. IsDocument (sections_of d.sections.entries) };
}

impl Document {
    /// Creates a document without sections.
    ///
    /// # Complexity
    ///
    /// Does not allocate.
    ///
    /// # Examples
    ///
    /// ```
    /// Document::new(alloc).sections().len() // 0
    /// ```
    pub fn new(alloc: Global) -> Document
        ensures sections { result ≡ [] }
        ensures document { IsDocument result }
    {
        Document {
            sections: VecMap::new(alloc),
        }
    }

    /// Sets the text under a section and a name, and returns the previous one.
    ///
    /// An existing section and an existing name stay as they were first written, in their order, and only the text
    /// changes. A new name is appended to its section. A new section, which holds this one text, is appended to the
    /// document.
    ///
    /// # Errors
    ///
    /// [`Refused`] returns the section's name, the name and the text if an allocation fails; the document is then
    /// unchanged.
    ///
    /// # Complexity
    ///
    /// At most one comparison for each section, and for each name in the section. For a new section, at most two for
    /// each section.
    ///
    /// A new section always allocates, for its first text. Otherwise the call allocates only for a new name whose
    /// section has no spare capacity.
    ///
    /// # Examples
    ///
    /// ```
    /// # let mut page = Document::new(alloc);
    /// # page.set(name(alloc, "Font")?, name(alloc, "Size")?, "12".to_string(alloc)?)?;
    /// let old = page.set(name(alloc, "FONT")?, name(alloc, "size")?, "14".to_string(alloc)?)?;
    /// old.as_deref() // Some("12")
    /// format!(in alloc; "{page:?}")?.as_str() // r#"{"Font": {"Size": "14"}}"#
    /// ```
    pub fn set(
        &mut self,
        section: Name,
        name: Name,
        text: String,
    ) -> Result<Option<String>, Refused<(Name, Name, String)>>
        ensures sections { OnOk result (self.new ≡ with_text self.old section name text) }
        ensures document { IsDocument self.new }
        ensures old { IfOk result (λ old. option_map string_bytes old
            ≡ text_of self.old section name) }
        ensures succeeds { IsSome (text_of self.old section name) → IsOk result }
        ensures given { IfErr result (λ refused. refused.given ≡ (section, name, text)) }
        ensures err { OnErr result (self.new ≡ self.old) }
    {
        set_text(&mut self.sections, section, name, text)
    }

    /// Returns the text under a section and a name, if there is one.
    ///
    /// # Complexity
    ///
    /// At most one comparison for each section, and for each name in the section.
    ///
    /// # Examples
    ///
    /// ```
    /// # let mut page = Document::new(alloc);
    /// # page.set(name(alloc, "Font")?, name(alloc, "Size")?, "12".to_string(alloc)?)?;
    /// page.get(&name(alloc, "font")?, &name(alloc, "SIZE")?) // Some("12")
    /// page.get(&name(alloc, "font")?, &name(alloc, "Color")?) // None
    /// ```
    pub fn get(&self, section: &Name, name: &Name) -> Option<&str>
        ensures { option_copied result ≡ text_of self.now section.now name.now }
    {
        let texts = self.sections.get(section)?;
        let text = texts.get(name)?;
        Some(text.as_str())
    }

    /// Sets all texts of `other`, section by section in its order, and leaves `other` empty.
    ///
    /// The call first reserves capacity for all of them, in the document and in each existing section.
    ///
    /// # Errors
    ///
    /// [`AllocError`] if an allocation fails; both documents are then unchanged. If `other` has no sections, the call
    /// always succeeds.
    ///
    /// # Complexity
    ///
    /// Two lookups among the sections for each section of `other`, or three if it is new. One lookup in its section for
    /// each text whose section exists. A new section moves as a whole.
    ///
    /// # Examples
    ///
    /// ```
    /// # let mut page = Document::new(alloc);
    /// # page.set(name(alloc, "Font")?, name(alloc, "Size")?, "12".to_string(alloc)?)?;
    /// let mut changes = Document::new(alloc);
    /// changes.set(name(alloc, "font")?, name(alloc, "Color")?, "red".to_string(alloc)?)?;
    /// page.merge(&mut changes)?;
    /// format!(in alloc; "{page:?} {changes:?}")?.as_str() // r#"{"Font": {"Size": "12", "Color": "red"}} {}"#
    /// ```
    pub fn merge(&mut self, other: &mut Document) -> Result<(), AllocError>
        ensures sections { OnOk result (self.new ≡ merge_of self.old other.old) }
        ensures document { IsDocument self.new }
        ensures emptied { OnOk result (other.new ≡ []) }
        ensures not_empty { OnErr result (0 < length other.old) }
        ensures err { OnErr result (self.new ≡ self.old) }
        ensures other_err { OnErr result (other.new ≡ other.old) }
    {
        make_room(&mut self.sections, &other.sections)?;
        let alloc = *self.sections.allocator();
        let others = replace(&mut other.sections, VecMap::new(alloc)).into_vec();
        move_all(&mut self.sections, others);
        Ok(())
    }

    /// Returns `true` if two documents have the same texts under the same names.
    ///
    /// The order of sections and names makes no difference, and neither does the case of ASCII letters in names.
    ///
    /// # Complexity
    ///
    /// If the numbers of sections differ, nothing is compared. Otherwise the names of sections are compared. If two are
    /// the same, their texts are compared, as `==` of maps does. Does not allocate.
    ///
    /// # Examples
    ///
    /// ```
    /// # let mut page = Document::new(alloc);
    /// # page.set(name(alloc, "Font")?, name(alloc, "Size")?, "12".to_string(alloc)?)?;
    /// let mut other = Document::new(alloc);
    /// other.set(name(alloc, "FONT")?, name(alloc, "SIZE")?, "12".to_string(alloc)?)?;
    /// page.same(&other) // true
    /// ```
    pub fn same(&self, other: &Document) -> bool
        ensures { IsTrue result ↔ AreSame self.now other.now }
    {
        self.sections == other.sections
    }

    /// Returns an iterator over the names of the sections, in their order.
    ///
    /// # Complexity
    ///
    /// Constant time. Does not allocate.
    ///
    /// # Examples
    ///
    /// ```
    /// # let mut page = Document::new(alloc);
    /// # page.set(name(alloc, "Font")?, name(alloc, "Size")?, "12".to_string(alloc)?)?;
    /// page.sections().next().map(Name::text) // Some("Font")
    /// ```
    pub fn sections(&self) -> Keys<'_, Name, VecMap<Name, String>>
        ensures names { ShowsAll deref (keys_of self.now) result }
        ensures document { IsDocument self.now }
    {
        self.sections.keys()
    }
}

/// Prints the document as std prints a map of maps of texts, `{section: {name: text, ..}, ..}`, in order.
impl fmt::Debug for Document {
    fn fmt<W: fmt::Write>(&self, f: &mut fmt::Formatter<W>) -> fmt::Result {
        write!(f, "{:?}", self.sections)
    }
}
