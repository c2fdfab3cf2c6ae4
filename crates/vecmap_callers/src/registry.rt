//! Registries: the amounts of articles, each under its number, and the grades of persons, each under two names.
//!
//! ```
//! let mut stock = all_pairs(alloc, vec![in alloc; Ok((1, 2)), Ok((2, 5)), Ok((1, 3))]?)?;
//! drop_listed(&mut stock, &vecmap!(alloc; 2 => true));
//! restock(&mut stock, 1, 7)? // 3
//! raise_in_slice(&mut stock);
//! stock.as_slice() // [(1, 8)]
//! let mut grades = VecMap::new(alloc);
//! set_grade(&mut grades, (String::from_str(alloc, "Ada")?, String::from_str(alloc, "King")?), 1)?;
//! (grade_of(&grades, "Ada", "King"), grade_of(&grades, "Ada", "Lee")) // (Some(1), None)
//! ```
ghost use Rattle.std.specs.Map.{values_of};
ghost use Rattle.std.specs.Prelude.{◌≡◌, ◌+◌, ◌-◌, ◌<◌, ◌^◌, ℕ, IfOk, List, None, Ok, OnErr, OnOk, Some, [], false, filter, if◌then◌else◌, is_some, length, map, min, nat_eq, not, slice_get, slice_index_or, string_bytes, sum, unwrap_or};
ghost use Rattle.vecmap.specs.Pairs.{lookup, lookup_by, put, puts};
ghost use Rattle.vecmap_laws.specs.MapLaws.{both_equal, has_texts};

use std::alloc::{AllocError, Global};
use vecmap::VecMap;
use vecmap::map::MutableKeys;
use vecmap_laws::maps::{
    collecting_one_more_is_extending, filters_keep_lookups, pairs_of_texts_are_queries,
    queries_find_as_keys, sums_follow_changes,
};

/// Collects the pairs into a map, or returns the first error among them.
pub fn all_pairs(
    alloc: Global,
    pairs: Vec<Result<(u32, u32), AllocError>>,
) -> Result<VecMap<u32, u32>, AllocError>
    ensures { IfOk result (λ made. (all : List (ℕ × ℕ)) × (made.entries ≡ puts nat_eq [] all)
        × (length all ≡ length pairs.items)
        × ((k : ℕ) (d : ℕ × ℕ) → k < length pairs.items
        → slice_get pairs.items k ≡ Some (Ok (slice_index_or all k d)))) }
{
    collecting_one_more_is_extending::<u32, u32>();
    pairs.into_iter().try_collect(alloc)
}

/// Removes the pairs whose keys another map has.
pub fn drop_listed(stock: &mut VecMap<u32, u32>, listed: &VecMap<u32, bool>)
    ensures entries { stock.new.entries ≡ filter
        (λ p. not (is_some (lookup nat_eq listed.now.entries p.0))) stock.old.entries }
    ensures lookups { (key : ℕ) → lookup nat_eq stock.new.entries key
        ≡ (if is_some (lookup nat_eq listed.now.entries key) then None
        else lookup nat_eq stock.old.entries key) }
{
    filters_keep_lookups::<u32, u32>();
    stock.retain(|key, _value| !listed.contains_key(key));
}

/// Adds one to each value, by a loop. The greatest value stays.
pub fn raise_in_slice(pairs: &mut VecMap<u32, u32>)
    ensures entries { pairs.new.entries
        ≡ map (λ pair. (pair.0, min (pair.1 + 1) (2 ^ 32 - 1))) pairs.old.entries }
    ensures capacity { pairs.new.capacity ≡ pairs.old.capacity }
{
    let slice = pairs.as_mut_slice();
    for pair in slice.iter_mut() {
        pair.1 = pair.1.saturating_add(1);
    }
}

/// Sets the amount of an article, and returns the amount that it had, or 0.
///
/// # Errors
///
/// [`AllocError`] if allocation fails; the stock is then unchanged.
pub fn restock(stock: &mut VecMap<u32, u32>, article: u32, amount: u32) -> Result<u32, AllocError>
    ensures entries { OnOk result (stock.new.entries ≡ put nat_eq stock.old.entries article amount) }
    ensures old { IfOk result (λ old. old
        ≡ unwrap_or (lookup nat_eq stock.old.entries article) 0) }
    ensures total { IfOk result (λ old. sum (values_of stock.new.entries) + old
        ≡ sum (values_of stock.old.entries) + amount) }
    ensures err { OnErr result (stock.new ≡ stock.old) }
{
    sums_follow_changes::<u32, u32>();
    Ok(stock.insert(article, amount)?.unwrap_or(0))
}

/// Returns the grade of a person, by a first and a last name. No `String` is created.
pub fn grade_of(grades: &VecMap<(String, String), u32>, first: &str, last: &str) -> Option<u32>
    ensures { result ≡ lookup_by (has_texts first.now last.now) grades.now.entries }
{
    grades.get((first, last)).copied()
}

/// Sets the grade of a person. Other names find what they found before.
///
/// # Errors
///
/// [`AllocError`] if allocation fails; the grades are then unchanged.
pub fn set_grade(
    grades: &mut VecMap<(String, String), u32>,
    name: (String, String),
    grade: u32,
) -> Result<(), AllocError>
    ensures entries { OnOk result (grades.new.entries
        ≡ put both_equal grades.old.entries name grade) }
    ensures err { OnErr result (grades.new ≡ grades.old) }
    ensures own { OnOk result (lookup_by
        (has_texts (string_bytes name.0) (string_bytes name.1)) grades.new.entries ≡ Some grade) }
    ensures others { (first last : List ℕ) → has_texts first last name ≡ false
        → lookup_by (has_texts first last) grades.new.entries
        ≡ lookup_by (has_texts first last) grades.old.entries }
{
    pairs_of_texts_are_queries();
    queries_find_as_keys::<(String, String), u32>();
    grades.insert(name, grade)?;
    Ok(())
}
