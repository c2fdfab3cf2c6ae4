//! The insertion that `OrInsert` makes: of a pair whose key is new.
ghost use Rattle.std.specs.Prelude.{◌≡◌, IfOk, OnErr, OnOk, is_some, not, unwrap_or};
ghost use Rattle.vecmap_base.specs.Pairs.{index_of, index_or_length, lookup, put};
ghost use Rattle.vecmap_map.specs.{Contents.{KeepsRoom, Refuses}, Entry.entry_index_of};

use vecmap_base::Refused;
use vecmap_map::{Entry, VecMap};

// Appends the pair if its key is new, and returns the index of the key, and `true` if it was new.
pub(crate) fn put_if_new<K: Eq + Clone, V: Eq + Clone>(
    map: &mut VecMap<K, V>,
    key: K,
    value: V,
) -> Result<(usize, bool), Refused<(K, V)>>
    ensures index { IfOk result (λ kept. kept.0 ≡ index_or_length K.eq map.old.entries key) }
    ensures returned { IfOk result (λ kept. kept.1
        ≡ not (is_some (index_of K.eq map.old.entries key))) }
    ensures list { OnOk result (map.new.entries
        ≡ put K.eq map.old.entries key (unwrap_or (lookup K.eq map.old.entries key) value)) }
    ensures capacity { KeepsRoom K.eq map.old key map.new }
    ensures err { OnErr result (Refuses K.eq map.old key map.new) }
{
    let entry = map.entry(key);
    let (index, added) = (entry.index(), is_vacant(&entry));
    entry.or_insert(value)?;
    Ok((index, added))
}

// Returns `true` if the key of the entry is not present.
fn is_vacant<K, V>(entry: &Entry<'_, K, V>) -> bool
    ensures { result ≡ not (is_some (entry_index_of entry.now)) }
{
    match entry {
        Entry::Occupied(_) => false,
        Entry::Vacant(_) => true,
    }
}
