// What the first criterion of a request asks of a slot, worked out once for a walk over many. The area is that of the request's attributes.
ghost use Rattle.std.specs.Prelude.{◌≡◌, true, List, ℕ, ◌+◌, ◌≤◌, length};
ghost use Rattle.table_slots.specs.Slot.{live};
ghost use Rattle.table_criteria.specs.Meets.{inside, meets, matches, listed, first_of};
ghost use Rattle.table_criteria.specs.Passes.{passes};

use crate::{Criterion, Sieve};

// Whether the value asked for lies in the area as a whole, and is no longer than a text can be.
#[tactic(auto, unfolding(crate::specs::Meets::inside))]
fn lies_in(area: &[u8], c: Criterion) -> bool
    ensures { result ≡ inside area.now c }
{
    let v = c.value;
    v.at <= area.len() && v.size <= area.len() - v.at && v.size <= 63
}

// The sieve for the criterion c: of a text its length and both ends, of a number its four bytes. A live slot begins with the byte 0x5A.
// A value that is shorter than its ends has none.
fn sieve_for(area: &[u8], c: Criterion) -> Option<Sieve>
    requires { (c.value.at + c.value.size ≤ length area.now) × (c.value.size ≤ 63) }
    ensures { (s : List ℕ) → length s ≡ 192 → live s ≡ true → meets area.now s c ≡ true → passes result s ≡ true }
{
    let size = c.value.size;
    if size < 4 {
        return None;
    }
    let last = octet_numbers::be32(area, c.value.at + size - 4);
    let first = octet_numbers::be32(area, c.value.at);
    let i = c.field.place();
    if i < 18 {
        return Some(Sieve {
            place: 0,
            byte: 0x5A,
            back: i,
            last,
            front: i,
            first,
        });
    }
    Some(Sieve {
        place: i,
        byte: size,
        back: i + 1 + size - 4,
        last,
        front: i + 1,
        first,
    })
}

// The first of the criteria.
fn first_of(c: &[Option<Criterion>]) -> Option<Criterion>
    ensures { result ≡ first_of c.now }
{
    for asked in c {
        if asked.is_some() {
            return *asked;
        }
    }
    None
}

// The sieve for the first of the criteria: every slot that matches passes it. There is none where the value does not lie in the area.
#[tactic(auto, unfolding(crate::specs::Meets::inside))]
pub fn sieve_of(area: &[u8], c: &[Option<Criterion>]) -> Option<Sieve>
    ensures { (s : List ℕ) → length s ≡ 192 → matches area.now (listed c.now) s ≡ true → passes result s ≡ true }
{
    let one = first_of(c)?;
    if !lies_in(area, one) {
        return None;
    }
    sieve_for(area, one)
}

// Whether the whole slot s passes the sieve; where there is none, all do.
pub fn passes(s: &[u8], sieve: Option<Sieve>) -> bool
    requires { length s.now ≡ 192 }
    ensures { result ≡ passes sieve s.now }
{
    let Some(d) = sieve else {
        return true;
    };
    table_slots::byte(s, d.place) == d.byte
        && octet_numbers::be32(s, d.back) == d.last
        && octet_numbers::be32(s, d.front) == d.first
}
