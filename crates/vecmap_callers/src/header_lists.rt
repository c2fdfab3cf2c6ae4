//! A header list that may hold several values for a name. The case of names is ignored.
//!
//! After `Accept: a`, `Host: b` and `ACCEPT: c` are appended, `accept` has the values `a` and `c`, and `Host` has `b`.
//! After `host` is set to `d`, it has this value alone.
//!
//! ```
//! let mut headers = HeaderList::new(alloc);
//! headers.append(Name::new(String::from_str(alloc, "Accept")?), String::from_str(alloc, "a")?)?;
//! headers.set(Name::new(String::from_str(alloc, "Host")?), String::from_str(alloc, "b")?)?;
//! headers.append(Name::new(String::from_str(alloc, "ACCEPT")?), String::from_str(alloc, "c")?)?;
//! (headers.get("accept"), headers.get_all("accept").len()) // (Some("a"), 2)
//! headers.remove("host").is_some() // true
//! ```
ghost use Rattle.std.specs.Prelude.{◌≡◌, ◌++◌, ◌∷◌, ℕ, List, None, OnErr, OnOk, [], false, option_map, slice_get, string_bytes, unwrap_or};
ghost use Rattle.std.specs.{Cmp.Lexicographic.nat_list_eq_equiv, Map.keys_of, Str.{str_eq_ignore_ascii_case, str_to_ascii_lowercase}};
ghost use Rattle.vecmap.specs.{Items.{add, without_item}, Pairs.{HasDistinctKeys, lookup, without_key}};
ghost use Rattle.vecmap_callers.specs.HeaderLists.{values_of};

pub use attr_doc::Name;
use std::alloc::{AllocError, Global};
use std::marker::Model;
use vecmap::{Equivalent, VecMap};
use vecmap_laws::maps as laws;

/// A query that matches the names that are this text, in any case.
#[derive(Clone, Copy, Debug)]
pub struct NamedAs<'a>(pub &'a str);

impl Equivalent<Name> for NamedAs<'_> {
    ghost equivalent = { λ query. str_eq_ignore_ascii_case query.0.now };

    fn equivalent(&self, name: &Name) -> bool {
        self.0.eq_ignore_ascii_case(name.text())
    }

    ghost respects_eq = { λ query x y. nat_list_eq_equiv.congr (str_to_ascii_lowercase query.0.now) (str_to_ascii_lowercase x) (str_to_ascii_lowercase y) };
}

/// Names with their values. A contract sees the list of the names, each with the vector of its values.
#[derive(Drop)]
pub struct HeaderList {
    fields: VecMap<Name, Vec<String>>,
}

impl Model for HeaderList {
    ghost use Rattle.std.specs.{Prelude.{ℕ, List, String, Vec}, declared.alloc.Global.Global, Str.str_eq_ignore_ascii_case};
    ghost use Rattle.vecmap.specs.Pairs.{HasDistinctKeys};

    ghost Value = { List (List ℕ × Vec (String Global) Global) };

    ghost view = { λ headers. headers.fields.entries };

    ghost invariant = { λ headers. HasDistinctKeys str_eq_ignore_ascii_case headers.fields.entries };
}

impl HeaderList {
    /// Creates a list without fields.
    #[tactic(auto, using(vecmap_laws::proofs::Rules::distinct_keys))]
    pub fn new(alloc: Global) -> HeaderList
        ensures { result ≡ [] }
    {
        HeaderList {
            fields: VecMap::new(alloc),
        }
    }

    /// Returns the names with their values, in the order in which the names were first written.
    pub fn as_slice(&self) -> &[(Name, Vec<String>)]
        ensures fields { result.now ≡ self.now }
        ensures distinct { HasDistinctKeys str_eq_ignore_ascii_case self.now }
    {
        self.fields.as_slice()
    }

    /// Returns all values of a name, in order. A name that is absent has none.
    ///
    /// # Complexity
    ///
    /// At most one comparison for each name. Does not allocate.
    pub fn get_all(&self, name: &str) -> &[String]
        ensures { result.now ≡ values_of self.now name.now }
    {
        match self.fields.get(NamedAs(name)) {
            Some(values) => values.as_slice(),
            None => &[],
        }
    }

    /// Returns the first value of a name.
    ///
    /// # Complexity
    ///
    /// At most one comparison for each name. Does not allocate.
    pub fn get(&self, name: &str) -> Option<&str>
        ensures { option_map (λ value. value.now) result
            ≡ option_map string_bytes (slice_get (values_of self.now name.now) 0) }
    {
        match self.get_all(name).first() {
            Some(value) => Some(value.as_str()),
            None => None,
        }
    }

    /// Appends a value to the values of a name. A new name is appended, with this value.
    ///
    /// # Errors
    ///
    /// [`AllocError`] if allocation fails. Each name then has the values that it had.
    ///
    /// # Complexity
    ///
    /// At most two comparisons for each name.
    pub fn append(&mut self, name: Name, value: String) -> Result<(), AllocError>
        ensures written { OnOk result (values_of self.new name
            ≡ values_of self.old name ++ value ∷ []) }
        ensures others { (other : List ℕ) → str_eq_ignore_ascii_case name other ≡ false
            → values_of self.new other ≡ values_of self.old other }
        ensures names { OnOk result (keys_of self.new
            ≡ add str_eq_ignore_ascii_case (keys_of self.old) name) }
        ensures err { OnErr result (values_of self.new name ≡ values_of self.old name) }
        ensures names_err { OnErr result (keys_of self.new ≡ keys_of self.old) }
    {
        laws::insertions_are_found::<Name, Vec<String>>();
        laws::insertion_keeps_keys_distinct::<Name, Vec<String>>();
        laws::writes_are_insertions::<Name, Vec<String>>();
        let alloc = *self.fields.allocator();
        if let Some(values) = self.fields.get_mut(&name) {
            values.push(value)?;
            return Ok(());
        }
        self.fields.insert(name, vec![in alloc; value]?)?;
        Ok(())
    }

    /// Gives a name one value, which replaces all that it had. A new name is appended.
    ///
    /// # Errors
    ///
    /// [`AllocError`] if allocation fails; the list is then unchanged.
    ///
    /// # Complexity
    ///
    /// At most one comparison for each name.
    pub fn set(&mut self, name: Name, value: String) -> Result<(), AllocError>
        ensures written { OnOk result (values_of self.new name ≡ value ∷ []) }
        ensures others { OnOk result ((other : List ℕ) → str_eq_ignore_ascii_case name other ≡ false
            → values_of self.new other ≡ values_of self.old other) }
        ensures names { OnOk result (keys_of self.new
            ≡ add str_eq_ignore_ascii_case (keys_of self.old) name) }
        ensures err { OnErr result (self.new ≡ self.old) }
    {
        laws::insertions_are_found::<Name, Vec<String>>();
        laws::insertion_keeps_keys_distinct::<Name, Vec<String>>();
        let alloc = *self.fields.allocator();
        let values = vec![in alloc; value]?;
        self.fields.insert(name, values)?;
        Ok(())
    }

    /// Removes a name, and returns its values. The other names keep their order.
    ///
    /// Returns `None` if the name is absent; the list is then unchanged.
    ///
    /// # Complexity
    ///
    /// At most one comparison for each name, and one move for each name behind the removed one.
    pub fn remove(&mut self, name: &str) -> Option<Vec<String>>
        ensures value { result ≡ lookup str_eq_ignore_ascii_case self.old name.now }
        ensures values { unwrap_or (option_map (λ values. values.items) result) []
            ≡ values_of self.old name.now }
        ensures fields { self.new ≡ without_key str_eq_ignore_ascii_case self.old name.now }
        ensures gone { values_of self.new name.now ≡ [] }
        ensures others { (other : List ℕ) → str_eq_ignore_ascii_case name.now other ≡ false
            → values_of self.new other ≡ values_of self.old other }
        ensures names { keys_of self.new
            ≡ without_item str_eq_ignore_ascii_case (keys_of self.old) name.now }
    {
        laws::removals_are_forgotten::<Name, Vec<String>>();
        laws::removal_keeps_keys_distinct::<Name, Vec<String>>();
        self.fields.remove(NamedAs(name))
    }
}
