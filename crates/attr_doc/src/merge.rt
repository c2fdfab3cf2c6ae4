//! The work of `Document::merge` on the maps of sections: it reserves capacity for everything, and then moves
//! everything. `merge` calls it, because the contract of a map need not say at each step that its sections are a
//! document.
ghost use Rattle.attr_doc.specs.Documents.{HasRoomAt, IsRoomFor, merge_of, sections_of, with_section};
ghost use Rattle.std.specs.{Prelude.{All, ◌≡◌, ◌+◌, ◌<◌, ◌≤◌, ℕ, List, OnErr, OnOk, false, length}, Str.str_eq_ignore_ascii_case};
ghost use Rattle.vecmap.specs.{Contents.HasRoom, Pairs.{HasDistinctKeys, lookup}};

use crate::Name;
use std::alloc::AllocError;
use vecmap::VecMap;

// Reserves capacity for all sections of another map. The sections stay the same, also if an allocation fails.
pub(crate) fn make_room(
    sections: &mut VecMap<Name, VecMap<Name, String>>,
    others: &VecMap<Name, VecMap<Name, String>>,
) -> Result<(), AllocError>
    ensures sections { sections_of sections.new.entries ≡ sections_of sections.old.entries }
    ensures room { OnOk result (HasRoom sections.new (length others.now.entries)) }
    ensures rooms { OnOk result (All (IsRoomFor sections.new.entries) others.now.entries) }
    ensures not_empty { OnErr result (0 < length others.now.entries) }
{
    sections.reserve(others.len())?;
    for other in others.as_slice() {
        reserve_in(sections, &other.0, other.1.len())?;
    }
    Ok(())
}

// Moves all sections into a map that has spare capacity for them.
pub(crate) fn move_all(
    sections: &mut VecMap<Name, VecMap<Name, String>>,
    others: Vec<(Name, VecMap<Name, String>)>,
)
    requires room { HasRoom sections.old (length others.items) }
    requires rooms { All (IsRoomFor sections.old.entries) others.items }
    requires distinct { HasDistinctKeys str_eq_ignore_ascii_case others.items }
    ensures { sections_of sections.new.entries
        ≡ merge_of (sections_of sections.old.entries) (sections_of others.items) }
{
    for (name, texts) in others {
        move_section(sections, name, texts);
    }
}

// Reserves capacity for `additional` texts in a section, if it exists. The sections stay the same, also if the
// allocation fails.
fn reserve_in(
    sections: &mut VecMap<Name, VecMap<Name, String>>,
    name: &Name,
    additional: usize,
) -> Result<(), AllocError>
    ensures sections { sections_of sections.new.entries ≡ sections_of sections.old.entries }
    ensures capacity { sections.new.capacity ≡ sections.old.capacity }
    ensures rooms_stay { (other : List ℕ) (n : ℕ) → HasRoomAt sections.old.entries other n
        → HasRoomAt sections.new.entries other n }
    ensures room_in { OnOk result (HasRoomAt sections.new.entries name.now additional) }
{
    match sections.get_mut(name) {
        Some(texts) => texts.reserve(additional),
        None => Ok(()),
    }
}

// Moves a section into a map that has spare capacity for it.
fn move_section(
    sections: &mut VecMap<Name, VecMap<Name, String>>,
    name: Name,
    mut texts: VecMap<Name, String>,
)
    requires room { HasRoom sections.old 1 }
    requires room_in { HasRoomAt sections.old.entries name (length texts.entries) }
    ensures sections { sections_of sections.new.entries
        ≡ with_section (sections_of sections.old.entries) name texts.entries }
    ensures capacity { sections.new.capacity ≡ sections.old.capacity }
    ensures len { length sections.new.entries ≤ length sections.old.entries + 1 }
    ensures others { (other : List ℕ) → str_eq_ignore_ascii_case name other ≡ false
        → lookup str_eq_ignore_ascii_case sections.new.entries other
        ≡ lookup str_eq_ignore_ascii_case sections.old.entries other }
{
    match sections.get_mut(&name) {
        Some(existing) => existing.append(&mut texts).unwrap(),
        None => {
            sections.insert(name, texts).unwrap();
        }
    }
}
