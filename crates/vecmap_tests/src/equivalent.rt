//! Queries of each kind of key. The keys of a test case are of one type, and their queries are references to it.
use crate::checks::granted;
use std::borrow::CowStr;
use std::boxed::{BoxedSlice, BoxedStr};
use std::process::Abort;
use std::rc::{Rc, RcSlice, RcStr};
use std::sync::{Arc, ArcSlice, ArcStr};
use vecmap::Equivalent;

// Asserts that the first of some queries matches a key, and no other.
fn assert_first_matches<K: Eq + Drop, Q: Equivalent<K>>(rt: &impl Abort, key: K, queries: &[Q]) {
    for (index, query) in queries.iter().enumerate() {
        assert_eq!(*rt; query.equivalent(&key), index == 0, "by query {index}");
    }
}

#[test]
fn a_text_matches_each_kind_of_text_of_its_bytes(rt: HostRuntime) {
    let (alloc, queries) = (rt.alloc(), ["age", "", "a", "ages", "agé", "Age"]);
    assert_first_matches(&rt, "age", &queries);
    assert_first_matches(&rt, CowStr::Borrowed("age"), &queries);
    let text = granted(&rt, String::from_str(alloc, "age"));
    assert_first_matches(&rt, CowStr::Owned(text), &queries);
    assert_first_matches(&rt, granted(&rt, String::from_str(alloc, "age")), &queries);
    assert_first_matches(
        &rt,
        granted(&rt, BoxedStr::from_str(alloc, "age")),
        &queries,
    );
    assert_first_matches(&rt, granted(&rt, RcStr::from_str(alloc, "age")), &queries);
    assert_first_matches(&rt, granted(&rt, ArcStr::from_str(alloc, "age")), &queries);
    assert_first_matches(&rt, String::new(alloc), &queries[1..]);
}

#[test]
fn a_slice_or_a_reference_matches_each_kind_of_owner(rt: HostRuntime) {
    let (alloc, list) = (rt.alloc(), [1, 2].as_slice());
    let queries = [list, &[], &[1], &[2, 1], &[1, 2, 3]];
    assert_first_matches(&rt, granted(&rt, list.to_vec(alloc)), &queries);
    assert_first_matches(
        &rt,
        granted(&rt, BoxedSlice::from_slice(alloc, list)),
        &queries,
    );
    assert_first_matches(
        &rt,
        granted(&rt, RcSlice::from_slice(alloc, list)),
        &queries,
    );
    assert_first_matches(
        &rt,
        granted(&rt, ArcSlice::from_slice(alloc, list)),
        &queries,
    );
    assert_first_matches(&rt, granted(&rt, Box::new(alloc, 7)), &[&7, &5]);
    assert_first_matches(&rt, granted(&rt, Rc::new(alloc, 7)), &[&7, &5]);
    assert_first_matches(&rt, granted(&rt, Arc::new(alloc, 7)), &[&7, &5]);
}
