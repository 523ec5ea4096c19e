// The session table: its slots, what they hold, and which of them are live.
#![tactic(auto)]

ghost use Rattle.std.specs.Prelude.{◌≡◌, ◌&&◌, ◌+◌, ◌*◌, ◌≤◌, eqb, length, get_or};
ghost use Rattle.table_slots.specs.Slot.{slot_count, slot, within, live, text};

// The number of slots; none where the length is not 192 times 1 to 64.
#[tactic(auto, unfolding(crate::specs::Slot::slot_count))]
pub fn slot_count(t: &[u8]) -> usize
    ensures { result ≡ slot_count t.now }
{
    let n = t.len() / 192;
    if t.len() % 192 == 0 && n <= 64 { n } else { 0 }
}

// Slot k of the table, or as much of it as there is.
#[tactic(auto, using(crate::proofs::Reading::slot_past), unfolding(crate::specs::Slot::slot))]
pub fn slot_of(t: &[u8], k: usize) -> &[u8]
    ensures { result.now ≡ slot k t.now }
{
    if t.len() / 192 < k {
        return &t[..0];
    }
    octet_runs::slice(t, k * 192, 192)
}

// The byte at place i, 0 past the end.
pub fn byte(s: &[u8], i: usize) -> usize
    ensures { result ≡ get_or s.now i 0 }
{
    s.get(i).map_or(0, |b| usize::from(*b))
}

// Whether n is from lo to hi.
#[tactic(auto, unfolding(crate::specs::Slot::within))]
pub fn in_range(lo: usize, hi: usize, n: usize) -> bool
    ensures { result ≡ within lo hi n }
{
    (lo..=hi).contains(&n)
}

// Whether the slot s opens with the record's mark.
pub fn has_mark(s: &[u8]) -> bool
    ensures { result ≡ eqb (get_or s.now 0 0) 0x5A && eqb (get_or s.now 1 0) 0x4C }
{
    byte(s, 0) == 0x5A && byte(s, 1) == 0x4C
}

// Whether the slot s holds a session.
#[tactic(auto, unfolding(crate::specs::Slot::live))]
pub fn is_live(s: &[u8]) -> bool
    ensures { result ≡ live s.now }
{
    has_mark(s)
        && in_range(1, 63, byte(s, 18))
        && in_range(1, 32, byte(s, 82))
        && in_range(0, 32, byte(s, 115))
        && in_range(0, 32, byte(s, 148))
}

// Whether slot k holds a session.
pub fn slot_live(t: &[u8], k: usize) -> bool
    ensures { result ≡ live (slot k t.now) }
{
    is_live(slot_of(t, k))
}

// The text whose length stands at place i.
#[tactic(auto, using(octet_numbers::proofs::Part::part_past, crate::proofs::Reading::text_rest), unfolding(crate::specs::Slot::text))]
pub fn text_at(s: &[u8], i: usize) -> &[u8]
    ensures { result.now ≡ text i s.now }
{
    if s.len() <= i {
        return &s[..0];
    }
    octet_runs::slice(&s[i + 1..], 0, byte(s, i))
}

// Slot k, where it lies in the table whole.
pub fn whole_slot(t: &[u8], k: usize) -> &[u8]
    requires { (k + 1) * 192 ≤ length t.now }
    ensures { (result.now ≡ slot k t.now) × (length result.now ≡ 192) }
{
    let a = k * 192;
    &t[a..a + 192]
}
