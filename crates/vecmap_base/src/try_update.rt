//! The function that writes each value of a slice of pairs by a closure that may fail.
ghost use Rattle.std.specs.Prelude.{IfErr, Ok, OnOk};
ghost use Rattle.vecmap_base.specs.{Indices.KeepsIndices, Updated.{CallableAtValue, CallableOnValues, StoppedAt, UpdatesPairs, WritesValueAt}};

/// Like [`update_pairs`](crate::update_pairs), but stops at the first `Err` that `f` returns, and leaves the values
/// written so far.
///
/// # Errors
///
/// The error that `f` returned. The values before are then written, the value of the failed call is as that call left
/// it, and the later values are unchanged.
///
/// # Preconditions
///
/// `f` can be called for each pair, in the state that the calls before have left, if all of them returned `Ok`.
///
/// # Complexity
///
/// For n pairs, at most n calls of `f`. Does not allocate.
///
/// # Examples
///
/// ```
/// let mut pairs = [('a', 1u8), ('b', 255), ('c', 3)];
/// let result = try_update_pairs(&mut pairs, |key, value| match value.checked_add(1) {
///     Some(more) => {
///         *value = more;
///         Ok(())
///     }
///     None => Err(*key),
/// });
/// result // Err('b')
/// pairs.as_slice() // [('a', 2), ('b', 255), ('c', 3)]
/// ```
pub fn try_update_pairs<K, V, E, F: FnMut(&K, &mut V) -> Result<(), E> + Drop>(
    pairs: &mut [(K, V)],
    mut f: F,
) -> Result<(), E>
    requires callable { CallableOnValues F.FnMut (Ok tt) f pairs.old }
    ensures ok { OnOk result (UpdatesPairs
        (WritesValueAt F.FnMut (Ok tt)) f pairs.old pairs.new) }
    ensures err { IfErr result (λ e. StoppedAt F.FnMut e f pairs.old pairs.new) }
    ensures keys { KeepsIndices pairs.old pairs.new }
{
    for pair in pairs.iter_mut() {
        match try_value(&mut f, pair) {
            Ok(()) => {}
            Err(error) => return Err(error),
        }
    }
    Ok(())
}

// Calls `f` for a pair. `f` may write the value.
fn try_value<K, V, E, F: FnMut(&K, &mut V) -> Result<(), E>>(
    f: &mut F,
    pair: &mut (K, V),
) -> Result<(), E>
    requires callable { CallableAtValue F.FnMut f.old pair.old }
    ensures called { WritesValueAt F.FnMut result f.old pair.old pair.new f.new }
{
    f(&pair.0, &mut pair.1)
}
