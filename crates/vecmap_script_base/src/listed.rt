//! What a collection lists: the pairs of a map, or the elements of a set.
use crate::{Item, Log};
use std::fmt::{Debug, Write};
use std::rc::Rc;

pub type Pair = (Item, Item);

/// A pair or an element.
pub trait Listed: Debug + Drop {
    /// Reads it, as `1a:10` or `1a`.
    fn read(log: &Rc<Log>, word: &str) -> Option<Self>;

    /// Writes it as it is read.
    fn write(&self, text: &mut String);

    /// Writes what a word without a value means: a pair of the item with its number, or an element.
    fn write_alone(text: &mut String, item: &Item);

    /// Returns the key and the value. An element is both.
    fn parts(&self) -> (&Item, &Item);

    /// Returns how many of its items the log has recorded.
    fn logged(&self) -> usize;
}

impl Listed for Item {
    fn read(log: &Rc<Log>, word: &str) -> Option<Item> {
        let (number, mark) = Item::parts_of(word)?;
        Item::logged(log, number, mark)
    }

    fn write(&self, text: &mut String) {
        let _ = write!(text, "{self:?}");
    }

    fn write_alone(text: &mut String, item: &Item) {
        let _ = write!(text, "{item:?} ");
    }

    fn parts(&self) -> (&Item, &Item) {
        (self, self)
    }

    fn logged(&self) -> usize {
        self.is_logged() as usize
    }
}

impl Listed for Pair {
    fn read(log: &Rc<Log>, word: &str) -> Option<Pair> {
        let (key, value) = word.split_once(':')?;
        Some((Item::read(log, key)?, Item::read(log, value)?))
    }

    fn write(&self, text: &mut String) {
        let _ = write!(text, "{:?}:{:?}", self.0, self.1);
    }

    fn write_alone(text: &mut String, item: &Item) {
        let _ = write!(text, "{item:?}:{} ", item.number);
    }

    fn parts(&self) -> (&Item, &Item) {
        (&self.0, &self.1)
    }

    fn logged(&self) -> usize {
        let (key, value) = self;
        (key.is_logged() as usize).saturating_add(value.is_logged() as usize)
    }
}

/// Writes a list in place of a text: `1a:10 2b:20`, or `empty`.
pub fn write_list<T: Listed>(text: &mut String, list: &[T]) {
    text.clear();
    for item in list {
        item.write(text);
        let _ = text.push_str(" ");
    }
    if list.is_empty() {
        let _ = text.push_str("empty");
    }
}

/// Writes a list in place of a text: each word, and for a range as `1..24` or `24..1x` each number, with its mark.
/// `empty` is no word.
pub fn expand<T: Listed>(text: &mut String, words: &str) {
    text.clear();
    for word in words.split_whitespace() {
        match range_of(word) {
            Some((first, mut item)) => {
                let last = item.number;
                for step in 0..=first.abs_diff(last) {
                    let (up, down) = (first.saturating_add(step), first.saturating_sub(step));
                    item.number = if first < last { up } else { down };
                    T::write_alone(text, &item);
                }
            }
            None if word == "empty" => {}
            None => {
                let _ = write!(text, "{word} ");
            }
        }
    }
}

// Returns the first number and the last item of a range. A number alone is a range of one.
fn range_of(word: &str) -> Option<(u32, Item)> {
    let (first, last) = word.split_once("..").unwrap_or((word, word));
    Some((first.parse().ok()?, Item::query(last)?))
}

/// Returns the number of items in two lists that the log has recorded.
pub fn logged_in<T: Listed>(list: &[T], other: &[T]) -> usize {
    let mut count = 0usize;
    for item in list.iter().chain(other) {
        count = count.saturating_add(item.logged());
    }
    count
}
