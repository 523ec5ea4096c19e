// A list of items and one item, each read by the other: an item that is a group is a list of items, which ends where the group ends.
// A group is read in what stands before its end, so places count from the value's start everywhere.
// An error is the place of the first item at fault.
ghost use Rattle.std.specs.Prelude.{◌≡◌, ◌+◌, ◌≤◌, length};
ghost use Rattle.attr_vendor.specs.Vendor.{rate_of, item_of, group_in, items_from, rates_of};

use crate::{Rates, UNSET};
use attr_walk::{Attribute, Step};

// Item a of v, which is no group: 1 is the down rate, 2 the up rate. Each is set once; held is what was set before.
#[tactic(auto, unfolding(crate::specs::Vendor::rate_of))]
fn rate(v: &[u8], a: Attribute, held: Rates) -> Result<Rates, usize>
    requires { a.at + a.size ≤ length v.now }
    ensures { result ≡ rate_of v.now a held }
{
    if a.size != 6 {
        return Err(a.at);
    }
    let value = octet_numbers::be32(v, a.at + 2);
    match a.kind {
        1 if held.down.is_none() => Ok(Rates {
            down: Some(value),
            ..held
        }),
        2 if held.up.is_none() => Ok(Rates {
            up: Some(value),
            ..held
        }),
        _ => Err(a.at),
    }
}

// Item a of v, where left more groups may be opened: 3 is a group.
#[cycle(item_items)]
#[tactic(auto, using(crate::proofs::Turns::one_item))]
fn item(v: &[u8], a: Attribute, left: usize, held: Rates) -> Result<Rates, usize>
    requires size_in_bounds { a.at + a.size ≤ length v.now }
    requires le_size { 2 ≤ a.size }
    ensures { result ≡ item_of (group_in left v.now) v.now a held }
{
    if a.kind != 3 {
        return rate(v, a, held);
    }
    if left == 0 {
        return Err(a.at);
    }
    let end = a.at + usize::from(a.size);
    items(&v[..end], a.at + 2, left - 1, held)
}

// The items of v from a place on, where left more groups may be opened.
#[cycle(item_items)]
#[tactic(auto, using(crate::proofs::Turns::item_list))]
fn items(v: &[u8], from: usize, left: usize, held: Rates) -> Result<Rates, usize>
    ensures { result ≡ items_from (group_in left v.now) v.now from held }
{
    let mut at = from;
    let mut rates = held;
    // A walk goes by places and not by a count: each step tells the next.
    loop {
        match attr_walk::step_at(v, at) {
            Step::Found(a, next) => {
                rates = item(v, a, left, rates)?;
                at = next;
            }
            Step::End => return Ok(rates),
            Step::Bad => return Err(at),
        }
    }
}

// Groups stand in each other at most so deep.
const DEPTH: usize = 4;

// The rates that the items after the four vendor bytes set.
pub fn rates_in(v: &[u8]) -> Result<Rates, usize>
    ensures { result ≡ rates_of v.now }
{
    items(v, 4, DEPTH, UNSET)
}
