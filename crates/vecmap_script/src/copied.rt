//! Calls that copy elements. They are made of a set of elements that can be copied, which has the script's elements and
//! its capacity before the call, and gives both back after it.
ghost use Rattle.std.specs.{Prelude.nat_eq, Cmp.{nat_eq_equiv, partial_equiv_from_equiv}};

use crate::set::Set;
use vecmap_script_base::given::Hinted;
use vecmap_script_base::words::number_after;
use vecmap_script_base::{Call, Item, Out, Outcome, again};
use vecmap_set::VecSet;

/// An element without a log.
#[derive(Clone, Copy)]
struct Plain {
    number: u32,
    mark: Option<char>,
}

impl PartialEq for Plain {
    ghost eq = { λ a b. nat_eq a.number b.number };

    ghost laws = { partial_equiv_from_equiv (record { refl = λ a. nat_eq_equiv.refl a.number; symm = λ a b. nat_eq_equiv.symm a.number b.number; congr = λ a b c. nat_eq_equiv.congr a.number b.number c.number }) };

    fn eq(&self, other: &Plain) -> bool {
        self.number == other.number
    }
}

impl Eq for Plain {
    ghost laws = { record { refl = λ a. nat_eq_equiv.refl a.number; symm = λ a b. nat_eq_equiv.symm a.number b.number; congr = λ a b c. nat_eq_equiv.congr a.number b.number c.number } };
}

/// `extend_copied`, also by the trait: `Extend_copied`. Their iterator has this lower size hint, or else the number of
/// items.
pub fn extend(set: &mut Set, out: &mut Out, call: Call) -> Option<Outcome> {
    let (hint, words) = number_after("hint ", call.args);
    let items: Vec<Item> = out.read_list(words)?;
    let items = plain_items(out, &items)?;
    let mut plain = plain_set(out, set)?;
    let lent = Hinted::lent(out, &items, hint)?;
    let extended = if call.name == "extend_copied" {
        plain.extend_copied(lent)
    } else {
        Extend::extend(&mut plain, lent)
    };
    give_back(set, out, &plain)?;
    out.settle(extended)
}

fn plain_set(out: &Out, set: &Set) -> Option<VecSet<Plain>> {
    let mut plain = VecSet::from(plain_items(out, set.as_slice())?);
    again!(plain.reserve_exact(set.capacity().saturating_sub(set.len())));
    Some(plain)
}

fn give_back(set: &mut Set, out: &Out, plain: &VecSet<Plain>) -> Option<()> {
    *set = again!(VecSet::with_capacity(out.alloc, plain.capacity()));
    for item in plain {
        let item = Item::logged(out.log, item.number, item.mark)?;
        set.insert(item).ok()?;
    }
    Some(())
}

// Returns copies without spare capacity.
fn plain_items(out: &Out, items: &[Item]) -> Option<Vec<Plain>> {
    let mut copies = again!(Vec::with_capacity(out.alloc, items.len()));
    for item in items {
        let (number, mark) = (item.number, item.mark);
        copies.push(Plain { number, mark }).ok()?;
    }
    Some(copies)
}
