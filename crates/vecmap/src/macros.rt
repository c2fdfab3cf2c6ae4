//! The macros `vecmap!` and `vecset!`, and the functions that they call.
ghost use Rattle.std.specs.{Prelude.{◌≡◌, IsTrue, OnErr, OnOk}, Set.is_member};
ghost use Rattle.vecmap_base.specs.Insertions.{AddsKey};
ghost use Rattle.vecmap_map.specs.Contents.{KeepsRoom, Refuses};
ghost use Rattle.vecmap_set.specs.{SetContents.{KeepsRoom as SetKeepsRoom, Refuses as SetRefuses}, SetInsertions.AddsItem};

use crate::{VecMap, VecSet};
use std::alloc::AllocError;

/// Creates a map of the given pairs, in order.
///
/// The macro reserves capacity for all pairs, and then inserts each of them. `vecmap!(alloc; "a" => 1, "b" => 2)`
/// creates a map of two pairs, and `vecmap!(alloc;)` an empty one. Use it in the body of a function that returns a
/// `Result`: an error is returned by `?`.
///
/// # Errors
///
/// [`AllocError`] if an allocation fails.
///
/// # Complexity
///
/// One lookup for each pair, so at most n(n-1)/2 comparisons for n pairs, and at most one allocation for the map.
///
/// # Examples
///
/// ```
/// let map = vecmap!(alloc; 'a' => 1, 'b' => 2, 'a' => 3);
/// map.as_slice() // [('a', 3), ('b', 2)]
/// ```
#[macro_export]
macro_rules! vecmap {
    (@one $key:expr) => { 1usize };
    ($alloc:expr; $($key:expr => $value:expr),* $(,)?) => {{
        let mut map = $crate::VecMap::with_capacity($alloc, 0usize $(+ $crate::vecmap!(@one $key))*)?;
        $($crate::macros::put_pair(&mut map, $key, $value)?;)*
        map
    }};
}

/// Creates a set of the given elements, in order.
///
/// The macro reserves capacity for all elements, and then inserts each of them. `vecset!(alloc; 2, 1)` creates a set of
/// two elements, and `vecset!(alloc;)` an empty one. Use it in the body of a function that returns a `Result`: an error
/// is returned by `?`.
///
/// # Errors
///
/// [`AllocError`] if an allocation fails.
///
/// # Complexity
///
/// One lookup for each element, so at most n(n-1)/2 comparisons for n elements, and at most one allocation for the set.
///
/// # Examples
///
/// ```
/// let set = vecset!(alloc; 2, 1, 2);
/// set.as_slice() // [2, 1]
/// ```
#[macro_export]
macro_rules! vecset {
    (@one $item:expr) => { 1usize };
    ($alloc:expr; $($item:expr),* $(,)?) => {{
        let mut set = $crate::VecSet::with_capacity($alloc, 0usize $(+ $crate::vecset!(@one $item))*)?;
        $($crate::macros::add_item(&mut set, $item)?;)*
        set
    }};
}

/// Like [`VecMap::insert`], but drops the previous value.
///
/// # Errors
///
/// [`AllocError`] if the map is full and allocation fails. The pair is then dropped, and the map is unchanged.
///
/// # Examples
///
/// ```
/// let mut map = VecMap::new(alloc);
/// put_pair(&mut map, 'a', 1)?;
/// map.as_slice() // [('a', 1)]
/// ```
pub fn put_pair<K: Eq + Drop, V: Drop>(
    map: &mut VecMap<K, V>,
    key: K,
    value: V,
) -> Result<(), AllocError>
    ensures insertion { OnOk result (AddsKey K.eq map.old.entries key value map.new.entries) }
    ensures capacity { KeepsRoom K.eq map.old key map.new }
    ensures err { OnErr result (Refuses K.eq map.old key map.new) }
{
    map.insert(key, value)?;
    Ok(())
}

/// Like [`VecSet::insert`], but does not return whether the element is new.
///
/// # Errors
///
/// [`AllocError`] if the set is full and allocation fails. The element is then dropped, and the set is unchanged.
///
/// # Examples
///
/// ```
/// let mut set = VecSet::new(alloc);
/// add_item(&mut set, 'a')?;
/// set.as_slice() // ['a']
/// ```
pub fn add_item<T: Eq + Drop>(set: &mut VecSet<T>, item: T) -> Result<(), AllocError>
    ensures insertion { OnOk result (AddsItem T.eq set.old.elements item set.new.elements) }
    ensures capacity { SetKeepsRoom T.eq set.old item set.new }
    ensures unchanged { IsTrue (is_member T.eq set.old.elements item) → set.new ≡ set.old }
    ensures err { OnErr result (SetRefuses T.eq set.old item set.new) }
{
    set.insert(item)?;
    Ok(())
}
