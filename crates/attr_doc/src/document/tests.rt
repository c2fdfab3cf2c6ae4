//! Documents, compared as they print, and the capacities that they reserve.
mod refusals;

use super::Document;
use crate::Name;
use std::alloc::{AllocError, Global};
use std::process::Abort;
use std::test::Fail;

/// Sets a text, and returns the previous one.
fn set(
    alloc: Global,
    page: &mut Document,
    section: &str,
    name: &str,
    text: &str,
) -> Result<Option<String>, AllocError> {
    let section = Name::new(section.to_string(alloc)?);
    let name = Name::new(name.to_string(alloc)?);
    let text = text.to_string(alloc)?;
    page.set(section, name, text).map_err(|_refused| AllocError)
}

/// Returns the text under a section and a name.
fn get<'d>(
    alloc: Global,
    page: &'d Document,
    section: &str,
    name: &str,
) -> Result<Option<&'d str>, AllocError> {
    let section = Name::new(section.to_string(alloc)?);
    let name = Name::new(name.to_string(alloc)?);
    Ok(page.get(&section, &name))
}

/// Creates a document by these calls of `set`, in order.
fn document(alloc: Global, rows: &[(&str, &str, &str)]) -> Result<Document, AllocError> {
    let mut page = Document::new(alloc);
    for (section, name, text) in rows {
        set(alloc, &mut page, section, name, text)?;
    }
    Ok(page)
}

/// Returns what two documents print after the second is merged into the first, and the names of the first's sections.
fn merged(
    alloc: Global,
    first: &[(&str, &str, &str)],
    second: &[(&str, &str, &str)],
) -> Result<String, AllocError> {
    let mut page = document(alloc, first)?;
    let mut changes = document(alloc, second)?;
    page.merge(&mut changes)?;
    format!(in alloc; "{page:?} {:?} {changes:?}", page.sections())
}

/// Returns what two calls of `set` and one of `get` return, the document, and its sections, as they print.
fn written_twice(alloc: Global) -> Result<String, AllocError> {
    let mut page = Document::new(alloc);
    let first = set(alloc, &mut page, "Font", "Size", "10")?;
    let second = set(alloc, &mut page, "FONT", "size", "12")?;
    let found = get(alloc, &page, "font", "SIZE")?;
    format!(in alloc;
        "{first:?} {second:?} {found:?} {page:?} {:?}",
        page.sections()
    )
}

#[test]
fn names_stay_as_they_were_first_written(rt: HostRuntime) -> Result<(), Fail> {
    let printed = written_twice(rt.alloc())?;
    let expected = r#"None Some("10") Some("12") {"Font": {"Size": "12"}} ["Font"]"#;
    assert_eq!(rt; printed.as_str(), expected);
    Ok(())
}

#[test]
fn a_name_keeps_its_text(rt: HostRuntime) -> Result<(), Fail> {
    let name = Name::new("Hi \"é\"\n".to_string(rt.alloc())?);
    assert_eq!(rt; name.text(), "Hi \"é\"\n");
    let printed = format!(in rt.alloc(); "{name:?}")?;
    assert_eq!(rt; printed.as_str(), r#""Hi \"é\"\n""#);
    Ok(())
}

const FIRST: &[(&str, &str, &str)] = &[
    ("Font", "Size", "12"),
    ("Page", "Width", "5"),
    ("Page", "Height", "9"),
];

const SECOND: &[(&str, &str, &str)] = &[
    ("page", "WIDTH", "7"),
    ("page", "Margin", "1"),
    ("Link", "Color", "red"),
];

#[test]
fn a_merge_replaces_texts_and_appends_new_sections(rt: HostRuntime) -> Result<(), Fail> {
    let printed = merged(rt.alloc(), FIRST, SECOND)?;
    let expected =
        r#"{"Font": {"Size": "12"}, "Page": {"Width": "7", "Height": "9", "Margin": "1"}, "Link": {"Color": "red"}} ["Font", "Page", "Link"] {}"#;
    assert_eq!(rt; printed.as_str(), expected);
    Ok(())
}

/// Returns what a document of these rows returns for each section and name, as it prints.
fn found_texts(
    alloc: Global,
    rows: &[(&str, &str, &str)],
    asked: &[(&str, &str)],
) -> Result<String, AllocError> {
    let page = document(alloc, rows)?;
    let mut texts = Vec::new(alloc);
    for (section, name) in asked {
        texts.push(get(alloc, &page, section, name)?)?;
    }
    format!(in alloc; "{texts:?}")
}

#[test]
fn get_ignores_case_and_finds_no_absent_name(rt: HostRuntime) -> Result<(), Fail> {
    let asked = [
        ("page", "width"),
        ("Page", "Height"),
        ("FONT", "size"),
        ("Font", "Width"),
        ("Pag", "Width"),
        ("", ""),
    ];
    let printed = found_texts(rt.alloc(), FIRST, &asked)?;
    let expected = r#"[Some("5"), Some("9"), Some("12"), None, None, None]"#;
    assert_eq!(rt; printed.as_str(), expected);
    Ok(())
}

/// Returns for either side `true` if the two documents are the same, compared from that side.
fn are_same(
    alloc: Global,
    first: &[(&str, &str, &str)],
    second: &[(&str, &str, &str)],
) -> Result<(bool, bool), AllocError> {
    let first = document(alloc, first)?;
    let second = document(alloc, second)?;
    Ok((first.same(&second), second.same(&first)))
}

/// Asserts that documents of these rows are the same, or that they are not, compared from both sides.
fn assert_same(
    rt: &impl Abort,
    alloc: Global,
    first: &[(&str, &str, &str)],
    second: &[(&str, &str, &str)],
    expected: bool,
) -> Result<(), AllocError> {
    let found = are_same(alloc, first, second)?;
    assert_eq!(*rt; found, (expected, expected), "{second:?}");
    Ok(())
}

#[test]
fn same_ignores_order_and_case(rt: HostRuntime) -> Result<(), Fail> {
    let reversed = [
        ("PAGE", "height", "9"),
        ("Page", "WIDTH", "5"),
        ("font", "size", "12"),
    ];
    let empty = [("", "", "")];
    assert_same(&rt, rt.alloc(), FIRST, &reversed, true)?;
    assert_same(&rt, rt.alloc(), &empty, &empty, true)?;
    assert_same(&rt, rt.alloc(), &[], &[], true)?;
    Ok(())
}

#[test]
fn same_compares_each_text(rt: HostRuntime) -> Result<(), Fail> {
    let changed = [
        ("PAGE", "height", "9"),
        ("Page", "WIDTH", "6"),
        ("font", "size", "12"),
    ];
    let shorter = [("Page", "Width", "5"), ("Page", "Height", "9")];
    let moved = [
        ("Page", "Size", "12"),
        ("Font", "Width", "5"),
        ("Font", "Height", "9"),
    ];
    assert_same(&rt, rt.alloc(), FIRST, &changed, false)?;
    assert_same(&rt, rt.alloc(), FIRST, &shorter, false)?;
    assert_same(&rt, rt.alloc(), FIRST, &moved, false)?;
    assert_same(&rt, rt.alloc(), &[], &[("", "", "")], false)?;
    assert_same(
        &rt,
        rt.alloc(),
        &[("ß", "É", "a")],
        &[("ß", "é", "a")],
        false,
    )?;
    Ok(())
}

/// Returns the capacity of the document, and then the capacities of its sections.
fn capacities(alloc: Global, page: &Document) -> Result<Vec<usize>, AllocError> {
    let mut capacities = Vec::new(alloc);
    capacities.push(page.sections.capacity())?;
    for section in page.sections.values() {
        capacities.push(section.capacity())?;
    }
    Ok(capacities)
}

/// Four sections and four names in the first of them: no map has spare capacity for more.
const FULL: &[(&str, &str, &str)] = &[
    ("p", "a", "1"),
    ("p", "b", "2"),
    ("p", "c", "3"),
    ("p", "d", "4"),
    ("q", "a", ""),
    ("r", "a", ""),
    ("s", "a", ""),
];

#[test]
fn a_new_text_of_an_existing_name_reserves_nothing(rt: HostRuntime) -> Result<(), Fail> {
    let mut page = document(rt.alloc(), FULL)?;
    let before = capacities(rt.alloc(), &page)?;
    set(rt.alloc(), &mut page, "P", "B", "a longer text than before")?;
    assert_eq!(rt; capacities(rt.alloc(), &page)?, before);
    Ok(())
}

#[test]
fn a_merge_of_nothing_reserves_nothing(rt: HostRuntime) -> Result<(), Fail> {
    let mut page = document(rt.alloc(), FULL)?;
    let before = capacities(rt.alloc(), &page)?;
    page.merge(&mut Document::new(rt.alloc()))?;
    assert_eq!(rt; capacities(rt.alloc(), &page)?, before);
    Ok(())
}

/// Returns the capacity of a document after each of 20 new sections, and then the capacities of these sections.
fn capacities_of_sections(alloc: Global) -> Result<Vec<usize>, AllocError> {
    let mut page = Document::new(alloc);
    let mut capacities = Vec::new(alloc);
    for number in 0..20u32 {
        let section = format!(in alloc; "{number}")?;
        set(alloc, &mut page, section.as_str(), "", "")?;
        capacities.push(page.sections.capacity())?;
    }
    for section in page.sections.values() {
        capacities.push(section.capacity())?;
    }
    Ok(capacities)
}

/// Returns the capacity of a vector after each of 20 numbers, and then 20 times the capacity of a vector of one number.
fn capacities_of_vectors(alloc: Global) -> Result<Vec<usize>, AllocError> {
    let mut numbers = Vec::new(alloc);
    let mut capacities = Vec::new(alloc);
    for number in 0..20u32 {
        numbers.push(number)?;
        capacities.push(numbers.capacity())?;
    }
    let mut one = Vec::new(alloc);
    one.push(0u32)?;
    for _ in 0..20 {
        capacities.push(one.capacity())?;
    }
    Ok(capacities)
}

#[test]
fn sections_and_texts_grow_like_vectors(rt: HostRuntime) -> Result<(), Fail> {
    let found = capacities_of_sections(rt.alloc())?;
    assert_eq!(rt; found.len(), 40);
    assert_eq!(rt; found, capacities_of_vectors(rt.alloc())?);
    Ok(())
}
