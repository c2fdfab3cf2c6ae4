//! Commands that read, whose replies are clones.
ghost use Rattle.std.specs.{Prelude.{IfOk, OnErr, option_copied, option_map}, Map.Iter.deref_pair};
ghost use Rattle.vecmap.specs.MapRun.{RepliesPair, RepliesPairs, RepliesValue};

use super::MapReply;
use std::alloc::AllocError;
use vecmap_map::VecMap;

pub(crate) fn clone_value<K, V: Clone>(value: Option<&V>) -> MapReply<K, V>
    ensures { RepliesValue V.Clone (option_copied value.entry) result }
{
    match value {
        None => MapReply::Value(None),
        Some(value) => match value.clone() {
            Ok(copy) => MapReply::Value(Some(copy)),
            Err(_refused) => MapReply::NoMemory,
        },
    }
}

pub(crate) fn clone_pair<K: Clone, V: Clone>(pair: Option<(&K, &V)>) -> MapReply<K, V>
    ensures { RepliesPair K.Clone V.Clone (option_map deref_pair pair.entry) result }
{
    match pair {
        None => MapReply::Pair(None),
        Some((key, value)) => match pair_clone(key, value) {
            Ok(copy) => MapReply::Pair(Some(copy)),
            Err(_refused) => MapReply::NoMemory,
        },
    }
}

// Returns a clone of the key and a clone of the value.
fn pair_clone<K: Clone, V: Clone>(key: &K, value: &V) -> Result<(K, V), AllocError>
    ensures clone { IfOk result (λ pair. K.is_clone key.now pair.0 × V.is_clone value.now pair.1) }
    ensures err { OnErr result (¬ (K.is_infallible key.now × V.is_infallible value.now)) }
{
    Ok((key.clone()?, value.clone()?))
}

pub(crate) fn clone_all<K: Clone, V: Clone>(map: &VecMap<K, V>) -> MapReply<K, V>
    ensures { RepliesPairs K.Clone V.Clone map.now.entries result }
{
    match map.to_vec() {
        Ok(copies) => MapReply::Pairs(copies),
        Err(_refused) => MapReply::NoMemory,
    }
}
