//! The function that writes each value of a slice of pairs by a closure.
ghost use Rattle.vecmap_base.specs.Updated.{CallableAtValue, CallableOnValues, UpdatesPairs, WritesValueAt};

/// Calls `f` with each key and a mutable reference to its value, in order.
///
/// The keys and their order stay.
///
/// # Preconditions
///
/// `f` can be called for each pair, in the state that the calls before have left.
///
/// # Complexity
///
/// For n pairs, n calls of `f`. Does not allocate.
///
/// # Examples
///
/// ```
/// let mut pairs = [('a', 1u32), ('b', 2)];
/// update_pairs(&mut pairs, |_key, value| *value = value.saturating_add(1));
/// pairs.as_slice() // [('a', 2), ('b', 3)]
/// ```
pub fn update_pairs<K, V, F: FnMut(&K, &mut V) + Drop>(pairs: &mut [(K, V)], mut f: F)
    requires callable { CallableOnValues F.FnMut tt f pairs.old }
    ensures update { UpdatesPairs (WritesValueAt F.FnMut tt) f pairs.old pairs.new }
{
    for pair in pairs.iter_mut() {
        write_value(&mut f, pair);
    }
}

// Calls `f` for a pair. `f` may write the value.
fn write_value<K, V, F: FnMut(&K, &mut V)>(f: &mut F, pair: &mut (K, V))
    requires callable { CallableAtValue F.FnMut f.old pair.old }
    ensures called { WritesValueAt F.FnMut tt f.old pair.old pair.new f.new }
{
    f(&pair.0, &mut pair.1);
}
