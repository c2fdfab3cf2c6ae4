//! Functions over slices and vectors, of the items that the row has: `find 2x 1a:10 2b:20`.
use crate::given::references;
use crate::listed::Pair;
use crate::{Call, Item, Out, Outcome, again};
use std::alloc::{AllocError, Global};
use vecmap_base::{
    Steps, contains_item, find, find_item, gather_items, gather_pairs, items_distinct,
    keys_distinct,
};

pub fn gather(out: &mut Out, call: Call) -> Option<Outcome> {
    match call.name {
        "keys_distinct" => out.show(keys_distinct(&out.read_list::<Pair>(call.args)?)),
        "items_distinct" => out.show(items_distinct(&out.read_list::<Item>(call.args)?)),
        "gather_pairs" => {
            let (mut pairs, mut steps) = (out.read_list::<Pair>(call.args)?, Steps::new());
            let kept = gather_pairs(&mut pairs, &mut steps);
            out.add((kept, steps.count()));
            out.show(pairs.as_slice())
        }
        "gather_items" => {
            let (mut items, mut steps) = (out.read_list::<Item>(call.args)?, Steps::new());
            let kept = gather_items(&mut items, &mut steps);
            out.add((kept, steps.count()));
            out.show(items.as_slice())
        }
        _ => None,
    }
}

/// Searches a list for the first word. A reference is as short as a number, and is searched for in another way.
pub fn search(out: &mut Out, call: Call) -> Option<Outcome> {
    let (first, words) = call.split();
    let query = Item::query(first)?;
    if call.name == "find" {
        let pairs: Vec<Pair> = out.read_list(words)?;
        return out.show(find(&pairs, &query));
    }
    let items: Vec<Item> = out.read_list(words)?;
    if call.name == "find_item" {
        return out.show(find_item(&items, &query));
    }
    by_reference(out, call.name, &items, &query)
}

fn by_reference(out: &mut Out, name: &str, items: &[Item], query: &Item) -> Option<Outcome> {
    let references = again!(references(out.alloc, items));
    match name {
        "find_item_by_reference" => out.show(find_item(&references, &query)),
        "contains_by_reference" => out.show(contains_item(&references, &query)),
        "find_by_reference" => {
            let pairs = again!(pairs_of(out.alloc, items));
            out.show(find(&pairs, &query))
        }
        _ => None,
    }
}

// Returns pairs of references to the items.
fn pairs_of(alloc: Global, items: &[Item]) -> Result<Vec<(&Item, ())>, AllocError> {
    let mut pairs = Vec::with_capacity(alloc, items.len())?;
    for item in items {
        pairs.push((item, ()))?;
    }
    Ok(pairs)
}
