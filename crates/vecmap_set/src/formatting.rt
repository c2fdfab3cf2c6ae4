//! The trait `Debug` of a set.
use crate::VecSet;
use std::fmt;

/// Prints the set as std prints sets: `{element, ..}`, in the order of the elements.
///
/// # Examples
///
/// ```
/// let set = vecset!(alloc; 2, 1);
/// format!(in alloc; "{set:?}")?.as_str() // "{2, 1}"
/// ```
impl<T: Eq + fmt::Debug> fmt::Debug for VecSet<T> {
    fn fmt<W: fmt::Write>(&self, f: &mut fmt::Formatter<W>) -> fmt::Result {
        let mut set = f.debug_set();
        for item in &self.items {
            set.entry(item);
        }
        set.finish()
    }
}
