//! Calls that write each value.
ghost use Rattle.std.specs.Prelude.{◌≡◌, IfErr, Ok, OnOk};
ghost use Rattle.vecmap_base.specs.{Indices.KeepsIndices, Updated.{CallableOnValues, SetsValues, StoppedAt, UpdatesPairs, WritesValueAt}};

use crate::VecMap;
use vecmap_base::{try_update_pairs, update_pairs};

impl<K, V> VecMap<K, V> {
    /// Sets each value to `value`; the keys stay.
    ///
    /// # Complexity
    ///
    /// No comparisons, and one write for each pair.
    ///
    /// # Examples
    ///
    /// ```
    /// let mut map = vecmap!(alloc; 'a' => 1, 'b' => 2);
    /// map.set_values(0);
    /// map.as_slice() // [('a', 0), ('b', 0)]
    /// ```
    pub fn set_values(&mut self, value: V)
    where
        V: Copy + Drop,
        ensures update { SetsValues value self.old.entries self.new.entries }
        ensures capacity { self.new.capacity ≡ self.old.capacity }
    {
        self.update_values(|_key, old| *old = value);
    }

    /// Calls `f` with each key and a mutable reference to its value, in order.
    ///
    /// The keys, their order and the capacity stay. Unlike after a loop over [`VecMap::iter_mut`], a proof knows what
    /// was written, by the fields of `update`:
    ///
    /// - If `f` writes the same function of each pair, the new pairs are that function of the old ones. Such an `f` may
    ///   only read what it captures (`written`), or also write it, such as a closure that counts its calls
    ///   (`written_in_any_state`).
    /// - If that function depends on the value alone, and `f` only reads what it captures, each lookup returns the
    ///   function of what it returned before (`lookups`).
    /// - For every `f`, each pair is as its call left it, in the state that the calls before have left (`updated`).
    ///
    /// # Preconditions
    ///
    /// `f` can be called for each pair of the map, in the state that the calls before have left.
    ///
    /// # Complexity
    ///
    /// n calls of `f` for n pairs. No comparisons and no moves. Does not allocate.
    ///
    /// # Examples
    ///
    /// ```
    /// let mut map = VecMap::from_array(alloc, [('a', 1u32), ('b', 2)])?;
    /// map.update_values(|_key, value| *value = value.saturating_add(1));
    /// map.as_slice() // [('a', 2), ('b', 3)]
    /// ```
    pub fn update_values<F: FnMut(&K, &mut V)>(&mut self, f: F)
    where
        F: Drop,
        requires callable { CallableOnValues F.FnMut tt f self.old.entries }
        ensures update { UpdatesPairs
            (WritesValueAt F.FnMut tt) f self.old.entries self.new.entries }
        ensures capacity { self.new.capacity ≡ self.old.capacity }
    {
        update_pairs(&mut self.pairs, f);
    }

    /// Like [`VecMap::update_values`], but stops at the first `Err` that `f` returns, and leaves the values written so
    /// far.
    ///
    /// The keys, their order and the capacity stay, on `Err` too. On `Ok` a proof knows what was written, as after
    /// `update_values`.
    ///
    /// # Errors
    ///
    /// The error that `f` returned. The values before are then written, the value of the failed call is as that call
    /// left it, and the later values are unchanged.
    ///
    /// # Preconditions
    ///
    /// `f` can be called for each pair of the map, in the state that the calls before have left, if all of them
    /// returned `Ok`.
    ///
    /// # Complexity
    ///
    /// At most n calls of `f` for n pairs. No comparisons and no moves. Does not allocate.
    ///
    /// # Examples
    ///
    /// ```
    /// let mut map = VecMap::from_array(alloc, [('a', 1u8), ('b', 255), ('c', 3)])?;
    /// let result = map.try_update_values(|key, value| match value.checked_add(1) {
    ///     Some(more) => {
    ///         *value = more;
    ///         Ok(())
    ///     }
    ///     None => Err(*key),
    /// });
    /// result // Err('b')
    /// map.as_slice() // [('a', 2), ('b', 255), ('c', 3)]
    /// ```
    pub fn try_update_values<E, F: FnMut(&K, &mut V) -> Result<(), E>>(
        &mut self,
        f: F,
    ) -> Result<(), E>
    where
        F: Drop,
        requires callable { CallableOnValues F.FnMut (Ok tt) f self.old.entries }
        ensures ok { OnOk result (UpdatesPairs
            (WritesValueAt F.FnMut (Ok tt)) f self.old.entries self.new.entries) }
        ensures err { IfErr result (λ e. StoppedAt F.FnMut e f self.old.entries self.new.entries) }
        ensures capacity { self.new.capacity ≡ self.old.capacity }

        // What follows for lookups, lengths and indices.
        ensures keys { KeepsIndices self.old.entries self.new.entries }
    {
        try_update_pairs(&mut self.pairs, f)
    }
}
