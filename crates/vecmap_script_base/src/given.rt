//! The iterators that a call is given: with any lower size hint, and a log that counts the calls of `next`.
ghost use Rattle.std.specs.{Prelude.{◌+◌, length}, Iterator.at_most};

use crate::{Log, Out, again};
use std::alloc::{AllocError, Global};
use std::rc::Rc;

/// An iterator over the items of a vector, in order.
#[derive(Drop)]
pub struct Hinted<'l, T> {
    // In reverse order.
    items: Vec<T>,
    hint: usize,
    log: &'l Rc<Log>,
}

impl<'l, T: Drop> Hinted<'l, T> {
    /// Creates the iterator. Without a hint, the lower size hint is the number of items.
    pub fn new(log: &'l Rc<Log>, mut items: Vec<T>, hint: Option<usize>) -> Hinted<'l, T> {
        items.reverse();
        let hint = hint.unwrap_or(items.len());
        Hinted { items, hint, log }
    }
}

impl<'l, T: Drop> Iterator for Hinted<'l, T> {
    type Item = T;

    ghost remaining = { λ s. at_most (s.hint + length s.items.items) };

    fn next(&mut self) -> Option<T> {
        self.log.note_pulled();
        self.items.pop()
    }

    fn size_hint(&self) -> (usize, Option<usize>) {
        (self.hint, None)
    }
}

impl<'l, 'a, T> Hinted<'l, &'a T> {
    /// Creates an iterator over references to the items of a list.
    pub fn lent(out: &Out<'l>, items: &'a [T], hint: Option<usize>) -> Option<Hinted<'l, &'a T>> {
        Some(Hinted::new(out.log, again!(references(out.alloc, items)), hint))
    }
}

/// Returns references to the items of a list, without spare capacity.
pub fn references<T>(alloc: Global, items: &[T]) -> Result<Vec<&T>, AllocError> {
    let mut references = Vec::with_capacity(alloc, items.len())?;
    for item in items {
        references.push(item)?;
    }
    Ok(references)
}
