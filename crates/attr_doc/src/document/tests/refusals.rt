//! Documents whose allocations fail. `.ci/refuse` lets the first allocation of each test fail, then the second, and so
//! on, as long as a test prints `refused`.
use super::document;
use crate::{Document, Name};
use std::alloc::{AllocError, Global};
use std::process::Abort;
use std::test::Fail;
use vecmap::Refused;

/// The value that a call returns. If memory runs out in the call, this prints `refused`, executes the statements after
/// `=>`, which compare what the call left, and makes the call again. The statements may bind the names that the call
/// uses anew.
macro_rules! retry {
    ($rt:ident; $call:expr, $refused:pat => { $($left:tt)* }) => {
        match $call {
            Ok(value) => value,
            Err($refused) => {
                println!(*$rt; "refused")?;
                $($left)*
                match $call {
                    Ok(value) => value,
                    Err(_) => panic!(*$rt; "refused twice"),
                }
            }
        }
    };
}

/// Creates a document of these rows, also if an allocation fails.
fn retried_document(
    rt: &(impl Abort + Print),
    alloc: Global,
    rows: &[(&str, &str, &str)],
) -> Result<Document, Fail> {
    Ok(retry!(rt; document(alloc, rows), _refused => {}))
}

/// Asserts that a document prints as this text.
fn assert_printed(
    rt: &(impl Abort + Print),
    alloc: Global,
    page: &Document,
    expected: &str,
) -> Result<(), Fail> {
    let text = retry!(rt; format!(in alloc; "{page:?}"), _refused => {});
    assert_eq!(*rt; text.as_str(), expected);
    Ok(())
}

/// Returns a section, a name and a text to pass to `set`.
fn given(alloc: Global) -> Result<(Name, Name, String), AllocError> {
    let section = Name::new("P".to_string(alloc)?);
    let name = Name::new("D".to_string(alloc)?);
    Ok((section, name, "2".to_string(alloc)?))
}

/// Returns what `given` returns, also if an allocation fails.
fn retried_given(rt: &(impl Abort + Print), alloc: Global) -> Result<(Name, Name, String), Fail> {
    Ok(retry!(rt; given(alloc), _refused => {}))
}

/// Sets the text that `given` returns, in a document of these rows. If memory runs out, the document still prints as
/// `before`, and what was passed is returned and set again. Then the document prints as `after`.
fn set_given(
    rt: &(impl Abort + Print),
    alloc: Global,
    rows: &[(&str, &str, &str)],
    before: &str,
    after: &str,
) -> Result<(), Fail> {
    let mut page = retried_document(rt, alloc, rows)?;
    let (section, name, text) = retried_given(rt, alloc)?;
    let old =
        retry!(rt; page.set(section, name, text), Refused { given: (section, name, text) } => {
        assert_printed(rt, alloc, &page, before)?;
        assert_eq!(*rt; (section.text(), name.text(), text.as_str()), ("P", "D", "2"));
    });
    assert_eq!(*rt; old, None);
    assert_printed(rt, alloc, &page, after)
}

/// A document has capacity for four sections before its map grows.
// body: `Document::set` of a new section
#[test]
fn set_of_a_new_section_keeps_its_texts_or_returns_them(rt: HostRuntime) -> Result<(), Fail> {
    let rows = [("", "", ""), ("q", "", ""), ("r", "", ""), ("s", "", "")];
    let before = r#"{"": {"": ""}, "q": {"": ""}, "r": {"": ""}, "s": {"": ""}}"#;
    let after = r#"{"": {"": ""}, "q": {"": ""}, "r": {"": ""}, "s": {"": ""}, "P": {"D": "2"}}"#;
    set_given(&rt, rt.alloc(), &rows, before, after)
}

/// A section has capacity for four names before its map grows.
// body: `Document::set` of a new name
#[test]
fn set_of_a_new_name_keeps_its_texts_or_returns_them(rt: HostRuntime) -> Result<(), Fail> {
    let rows = [
        ("p", "a", ""),
        ("p", "b", ""),
        ("p", "c", ""),
        ("p", "", ""),
    ];
    let before = r#"{"p": {"a": "", "b": "", "c": "", "": ""}}"#;
    let after = r#"{"p": {"a": "", "b": "", "c": "", "": "", "D": "2"}}"#;
    set_given(&rt, rt.alloc(), &rows, before, after)
}

/// Three sections, one of which has three names. With the sections and names of `FROM`, both maps need a fifth slot.
const INTO: &[(&str, &str, &str)] = &[
    ("", "a", "1"),
    ("", "b", ""),
    ("", "", ""),
    ("q", "", ""),
    ("r", "", ""),
];

const FROM: &[(&str, &str, &str)] = &[("t", "", ""), ("", "A", "2"), ("", "d", "")];

/// Asserts that two documents print as these two texts.
fn assert_both_printed(
    rt: &(impl Abort + Print),
    alloc: Global,
    first: (&Document, &str),
    second: (&Document, &str),
) -> Result<(), Fail> {
    assert_printed(rt, alloc, first.0, first.1)?;
    assert_printed(rt, alloc, second.0, second.1)
}

// body: `Document::merge`
#[test]
fn merge_moves_all_or_nothing(rt: HostRuntime) -> Result<(), Fail> {
    let (rt, alloc) = (&rt, rt.alloc());
    let mut into = retried_document(rt, alloc, INTO)?;
    let mut from = retried_document(rt, alloc, FROM)?;
    let before = r#"{"": {"a": "1", "b": "", "": ""}, "q": {"": ""}, "r": {"": ""}}"#;
    let other = r#"{"t": {"": ""}, "": {"A": "2", "d": ""}}"#;
    retry!(rt; into.merge(&mut from), AllocError => {
        assert_both_printed(rt, alloc, (&into, before), (&from, other))?;
    });
    let after =
        r#"{"": {"a": "2", "b": "", "": "", "d": ""}, "q": {"": ""}, "r": {"": ""}, "t": {"": ""}}"#;
    assert_both_printed(rt, alloc, (&into, after), (&from, "{}"))
}
