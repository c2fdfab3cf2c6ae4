//! The work of `Document::set` on the map of sections. `set` calls it, because the contract of a map need not say at
//! each step that its sections are a document.
ghost use Rattle.attr_doc.specs.Documents.{sections_of, text_of, with_text};
ghost use Rattle.std.specs.{Prelude.{◌≡◌, IfErr, IfOk, IsOk, IsSome, OnErr, OnOk, option_map, string_bytes}, Str.str_eq_ignore_ascii_case};
ghost use Rattle.vecmap.specs.Pairs.{index_of, lookup, put};

use crate::Name;
use vecmap::{Refused, VecMap};

// Sets the text under a section and a name, and returns the previous one. Reserves capacity for a new section and for
// its text before it inserts either.
pub(crate) fn set_text(
    sections: &mut VecMap<Name, VecMap<Name, String>>,
    section: Name,
    name: Name,
    text: String,
) -> Result<Option<String>, Refused<(Name, Name, String)>>
    ensures sections { OnOk result (sections_of sections.new.entries
        ≡ with_text (sections_of sections.old.entries) section name text) }
    ensures old { IfOk result (λ old. option_map string_bytes old
        ≡ text_of (sections_of sections.old.entries) section name) }
    ensures succeeds { IsSome (text_of (sections_of sections.old.entries) section name)
        → IsOk result }
    ensures given { IfErr result (λ refused. refused.given ≡ (section, name, text)) }
    ensures err { OnErr result (sections_of sections.new.entries
        ≡ sections_of sections.old.entries) }
{
    match sections.get_mut(&section) {
        Some(texts) => set_in(texts, section, name, text),
        None => {
            let alloc = *sections.allocator();
            let mut texts = VecMap::new(alloc);
            if texts.reserve(1).is_err() || sections.reserve(1).is_err() {
                return Err(Refused {
                    given: (section, name, text),
                });
            }
            texts.insert(name, text).unwrap();
            sections.insert(section, texts).unwrap();
            Ok(None)
        }
    }
}

// Sets the text under a name in an existing section.
fn set_in(
    texts: &mut VecMap<Name, String>,
    section: Name,
    name: Name,
    text: String,
) -> Result<Option<String>, Refused<(Name, Name, String)>>
    ensures texts { OnOk result (texts.new.entries
        ≡ put str_eq_ignore_ascii_case texts.old.entries name text) }
    ensures old { IfOk result (λ old. old
        ≡ lookup str_eq_ignore_ascii_case texts.old.entries name) }
    ensures succeeds { IsSome (index_of str_eq_ignore_ascii_case texts.old.entries name)
        → IsOk result }
    ensures given { IfErr result (λ refused. refused.given ≡ (section, name, text)) }
    ensures err { OnErr result (texts.new ≡ texts.old) }
{
    match texts.insert(name, text) {
        Ok(old) => Ok(old),
        Err(refused) => {
            let (name, text) = refused.given;
            Err(Refused {
                given: (section, name, text),
            })
        }
    }
}
