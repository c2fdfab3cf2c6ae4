//! Lookups by query and by index.
//!
//! A lookup by a query compares it with the elements in order, up to the first that matches, and of small elements with
//! at most seven more: at most `len` comparisons in all. A lookup by index makes none.
ghost use Rattle.std.specs.Prelude.{◌≡◌, ◌-◌, ◌<◌, ◌^◌, IfSome, IsTrue, Some, is_some, length, nat_lt, option_copied, option_map, position, slice_get};
ghost use Rattle.std.specs.List.{list_any};
ghost use Rattle.vecmap_base.specs.{Items.stored_first, Pairs.has_text};
ghost use Rattle.vecmap_set.specs.SetIndices.{IsFoundAt};

use crate::VecSet;
use vecmap_base::{Equivalent, contains_equivalent, find_item_equivalent};

impl<T: Eq> VecSet<T> {
    /// Returns `true` if an element matches `query`.
    ///
    /// # Examples
    ///
    /// ```
    /// let set = vecset!(alloc; 1, 2);
    /// set.contains(&1) // true
    /// set.contains(&3) // false
    /// ```
    pub fn contains<Q: Equivalent<T>>(&self, query: Q) -> bool
        ensures { result ≡ list_any (Q.equivalent query) self.now.elements }
    {
        contains_equivalent(&self.items, query)
    }

    /// Returns the first element, or `None` if the set is empty.
    ///
    /// # Examples
    ///
    /// ```
    /// let set = vecset!(alloc; 2, 1);
    /// set.first() // Some(&2)
    /// ```
    #[tactic(auto, using(crate::proofs::SetIndexLemmas::item_by_reference, crate::proofs::SetIndexLemmas::found_by_reference))]
    pub fn first(&self) -> Option<&T>
        ensures item { option_copied result ≡ slice_get self.now.elements 0 }

        // What follows for lookups, lengths and indices.
        ensures found { is_some result ≡ nat_lt 0 (length self.now.elements) }
        ensures at { IfSome result (λ element. IsFoundAt T.eq 0 self.now.elements element.now) }
    {
        self.items.first()
    }

    /// Returns the last element, or `None` if the set is empty.
    ///
    /// # Examples
    ///
    /// ```
    /// let set = vecset!(alloc; 2, 1);
    /// set.last() // Some(&1)
    /// ```
    #[tactic(auto, using(crate::proofs::SetIndexLemmas::item_by_reference, crate::proofs::SetIndexLemmas::last_by_reference))]
    pub fn last(&self) -> Option<&T>
        ensures item { option_copied result
            ≡ slice_get self.now.elements (length self.now.elements - 1) }

        // What follows for lookups, lengths and indices.
        ensures found { is_some result ≡ nat_lt 0 (length self.now.elements) }
        ensures at { IfSome result (λ element. IsFoundAt T.eq (length self.now.elements - 1)
            self.now.elements element.now) }
    {
        self.items.last()
    }

    /// Returns the stored element that matches `query`, or `None` if no element matches.
    ///
    /// # Examples
    ///
    /// ```
    /// let set = vecset!(alloc; 1, 2);
    /// set.get(&2) // Some(&2)
    /// set.get(&3) // None
    /// ```
    #[tactic(auto, using(vecmap_base::proofs::IndexLemmas::list_any_position, crate::proofs::SetIndexLemmas::reference_matches))]
    pub fn get<Q: Equivalent<T>>(&self, query: Q) -> Option<&T>
        ensures returned { option_copied result
            ≡ stored_first (Q.equivalent query) self.now.elements }

        // What follows for lookups, lengths and indices.
        ensures found { (is_some result ≡ list_any (Q.equivalent query) self.now.elements)
            × IfSome result (λ x. IsTrue (Q.equivalent query x.now)) }
    {
        let index = find_item_equivalent(&self.items, query)?;
        Some(&self.items[index])
    }

    /// Returns the element at `index`, or `None` if `index` is out of range.
    ///
    /// # Examples
    ///
    /// ```
    /// let set = vecset!(alloc; 2, 1);
    /// set.get_index(0) // Some(&2)
    /// set.get_index(2) // None
    /// ```
    #[tactic(auto, using(crate::proofs::SetIndexLemmas::item_by_reference, crate::proofs::SetIndexLemmas::found_by_reference))]
    pub fn get_index(&self, index: usize) -> Option<&T>
        ensures item { option_copied result ≡ slice_get self.now.elements index }

        // What follows for lookups, lengths and indices.
        ensures found { is_some result ≡ nat_lt index (length self.now.elements) }
        ensures at { IfSome result (λ element. IsFoundAt T.eq index self.now.elements element.now) }
    {
        self.items.get(index)
    }

    /// Returns the index of the element that matches `query`, and the stored element, or `None` if no element matches.
    ///
    /// # Examples
    ///
    /// ```
    /// let set = vecset!(alloc; 2, 1);
    /// set.get_full(&1) // Some((1, &1))
    /// ```
    #[tactic(auto, using(vecmap_base::proofs::IndexLemmas::list_any_position, std::proofs::lemmas::Option::gets))]
    pub fn get_full<Q: Equivalent<T>>(&self, query: Q) -> Option<(usize, &T)>
        ensures index { option_map (λ found. found.0) result
            ≡ position (Q.equivalent query) self.now.elements }
        ensures within { IfSome result (λ found. found.0 < length self.now.elements) }
        ensures countable { IfSome result (λ found. found.0 < 2 ^ 63) }
        ensures item { option_map (λ found. found.1.now) result
            ≡ stored_first (Q.equivalent query) self.now.elements }

        // What follows for lookups, lengths and indices.
        ensures found { is_some result ≡ list_any (Q.equivalent query) self.now.elements }
        ensures at { IfSome result (λ found.
            (slice_get self.now.elements found.0 ≡ Some found.1.now)
            × IsTrue (Q.equivalent query found.1.now)) }
    {
        let _len = self.len(); // Bounds the index.
        let index = find_item_equivalent(&self.items, query)?;
        Some((index, &self.items[index]))
    }

    /// Returns the index of the element that matches `query`, or `None` if no element matches.
    ///
    /// # Examples
    ///
    /// ```
    /// let set = vecset!(alloc; 2, 1);
    /// set.get_index_of(&1) // Some(1)
    /// set.get_index_of(&3) // None
    /// ```
    #[tactic(auto, using(vecmap_base::proofs::IndexLemmas::list_any_position, crate::proofs::SetIndexLemmas::found_item_at))]
    pub fn get_index_of<Q: Equivalent<T>>(&self, query: Q) -> Option<usize>
        ensures index { result ≡ position (Q.equivalent query) self.now.elements }
        ensures within { IfSome result (λ i. i < length self.now.elements) }
        ensures countable { IfSome result (λ i. i < 2 ^ 63) }

        // What follows for lookups, lengths and indices.
        ensures found { is_some result ≡ list_any (Q.equivalent query) self.now.elements }
        ensures at { IfSome result (λ i. (x : T)
            × (slice_get self.now.elements i ≡ Some x) × IsTrue (Q.equivalent query x)) }
    {
        let _len = self.len(); // Bounds the index.
        find_item_equivalent(&self.items, query)
    }
}

impl VecSet<String> {
    /// Like [`VecSet::contains`], but an element matches if it has the bytes of `text`. Does not allocate.
    ///
    /// # Examples
    ///
    /// ```
    /// let set = vecset!(alloc; String::from_str(alloc, "a")?);
    /// set.contains_str("a") // true
    /// ```
    pub fn contains_str(&self, text: &str) -> bool
        ensures { result ≡ list_any (has_text text.now) self.now.elements }
    {
        self.contains(text)
    }
}
