//! Keys, values and elements of other types than those of a test case: texts, truth values, and values that do not print.
//! And the macros, which a test case calls with three pairs or elements alone.
use crate::checks::assert_prints;
use std::alloc::Global;
use std::cell::Cell;
use std::fmt::Debug;
use std::test::Fail;
use vecmap::{VecMap, VecSet, vecmap, vecset};
use vecmap_base::{find_item_str, find_str};

/// Prints the map of some pairs.
fn print_map<K: Eq + Clone + Debug + Drop, V: Clone + Debug + Drop>(
    alloc: Global,
    pairs: &[(K, V)],
) -> Result<String, Fail> {
    let map = VecMap::from_slice(alloc, pairs)?;
    Ok(format!(in alloc; "{:?}", map.as_slice())?)
}

/// Prints the map of two texts, which are its keys or its values.
fn print_texts(alloc: Global, are_keys: bool) -> Result<String, Fail> {
    let (first, second) = ("foo".to_string(alloc)?, "bar".to_string(alloc)?);
    if are_keys {
        print_map(alloc, &[(first, 1i64), (second, 2)])
    } else {
        print_map(alloc, &[(1i64, first), (2, second)])
    }
}

#[test]
fn from_slice_keeps_distinct_pairs_of_every_kind(rt: HostRuntime) -> Result<(), Fail> {
    let (alloc, values) = (rt.alloc(), r#"[(1, "foo"), (2, "bar")]"#);
    assert_prints(&rt, print_texts(alloc, false), values)?;
    assert_prints(&rt, print_texts(alloc, true), r#"[("foo", 1), ("bar", 2)]"#)?;
    let (keys, values) = ([(true, 1i64), (false, 2)], [(1i64, true), (2, false)]);
    assert_prints(&rt, print_map(alloc, &keys), "[(true, 1), (false, 2)]")?;
    assert_prints(&rt, print_map(alloc, &values), "[(1, true), (2, false)]")
}

/// Writes 9 as the value of a text, if it is present, and returns the value before.
fn replace(map: &mut VecMap<String, usize>, text: &str) -> Option<usize> {
    if !map.contains_key(text) {
        return None;
    }
    let old = map[text];
    map[text] = 9;
    Some(old)
}

/// Prints where a text is in a map and in a set of three texts, one of them empty, its value, and the map with 9 there.
fn print_found(alloc: Global, text: &str) -> Result<String, Fail> {
    let (mut map, mut set) = (VecMap::new(alloc), VecSet::new(alloc));
    for text in ["ab", "", "b"] {
        map.insert(text.to_string(alloc)?, text.len())?;
        set.insert(text.to_string(alloc)?)?;
    }
    let of_map = find_str(map.as_slice(), text);
    let of_set = find_item_str(set.as_slice(), text);
    let old = replace(&mut map, text);
    Ok(format!(in alloc; "({of_map:?}, {of_set:?}) {old:?} {map:?}")?)
}

#[test]
fn texts_are_found_and_written_in_brackets_by_their_bytes(rt: HostRuntime) -> Result<(), Fail> {
    for (text, expected) in [
        (
            "ab",
            r#"(Some(0), Some(0)) Some(2) {"ab": 9, "": 0, "b": 1}"#,
        ),
        ("", r#"(Some(1), Some(1)) Some(0) {"ab": 2, "": 9, "b": 1}"#),
        (
            "b",
            r#"(Some(2), Some(2)) Some(1) {"ab": 2, "": 0, "b": 9}"#,
        ),
        ("a", r#"(None, None) None {"ab": 2, "": 0, "b": 1}"#),
    ] {
        assert_prints(&rt, print_found(rt.alloc(), text), expected)?;
    }
    Ok(())
}

// A value that does not print.
#[derive(Drop)]
struct Silent(u32);

#[test]
fn a_value_that_does_not_print_is_inserted_by_a_question_mark(rt: HostRuntime) -> Result<(), Fail> {
    let mut map = VecMap::new(rt.alloc());
    map.insert(1, Silent(7))?;
    assert_eq!(rt; map.get(&1).map(|value| value.0), Some(7));
    Ok(())
}

fn with_commas_at_the_end(alloc: Global) -> Result<String, Fail> {
    let map = vecmap!(alloc; "a" => 1, "b" => 2, "a" => 3,);
    let set = vecset!(alloc; 2, 1, 2,);
    Ok(format!(in alloc; "{map:?} {set:?}")?)
}

fn capacities_of_nothing(alloc: Global) -> Result<String, Fail> {
    let map: VecMap<u32, char> = vecmap!(alloc;);
    let set: VecSet<char> = vecset!(alloc;);
    Ok(format!(in alloc; "{} {}", map.capacity(), set.capacity())?)
}

/// Each key and each value is the number of calls so far.
fn numbered_calls(alloc: Global) -> Result<String, Fail> {
    let calls = Cell::new(0u32);
    let next = || {
        calls.set(calls.get().wrapping_add(1));
        calls.get()
    };
    let map = vecmap!(alloc; next() => next(), next() => next());
    Ok(format!(in alloc; "{map:?}")?)
}

#[test]
fn macros_insert_in_order_and_evaluate_a_key_before_its_value(rt: HostRuntime) -> Result<(), Fail> {
    let (alloc, expected) = (rt.alloc(), r#"{"a": 3, "b": 2} {2, 1}"#);
    assert_prints(&rt, with_commas_at_the_end(alloc), expected)?;
    assert_prints(&rt, capacities_of_nothing(alloc), "0 0")?;
    assert_prints(&rt, numbered_calls(alloc), "{1: 2, 3: 4}")
}
