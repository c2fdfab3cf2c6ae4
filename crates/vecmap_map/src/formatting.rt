//! The trait `Debug` of a map.
use crate::VecMap;
use std::fmt;

/// Prints the map as std prints maps: `{key: value, ..}`, in the order of the pairs.
///
/// # Examples
///
/// ```
/// let map = vecmap!(alloc; 'a' => 1, 'b' => 2);
/// format!(in alloc; "{map:?}")?.as_str() // "{'a': 1, 'b': 2}"
/// ```
impl<K: fmt::Debug, V: fmt::Debug> fmt::Debug for VecMap<K, V> {
    fn fmt<W: fmt::Write>(&self, f: &mut fmt::Formatter<W>) -> fmt::Result {
        let mut map = f.debug_map();
        for pair in &self.pairs {
            map.entry(&pair.0, &pair.1);
        }
        map.finish()
    }
}
