// Which slots a request names: whether one of them matches, and the marks of all.
#![tactic(auto)]

ghost use Rattle.std.specs.Prelude.{◌≡◌};
ghost use Rattle.table_slots.specs.Slot.{slot_count};
ghost use Rattle.table_slots.specs.Marks.{marks_after};
ghost use Rattle.table_criteria.specs.Meets.{all, listed, meets, matches_at};

use table_criteria::{Criterion, compare, first};

// Whether the slot s meets every criterion.
#[inline(always)]
fn meets_all(area: &[u8], s: &[u8], c: &[Option<Criterion>]) -> bool
    ensures { result ≡ all (meets area.now s.now) (listed c.now) }
{
    for asked in c {
        if let Some(one) = asked
            && !compare::meets_one(area, s, one)
        {
            return false;
        }
    }
    true
}

// Whether slot k is live and meets every criterion. The lengths are looked at last: most slots fail before.
#[tactic(auto, using(table_slots::proofs::Live::unmarked), unfolding(table_criteria::specs::Meets::matches))]
pub fn match_slot(t: &[u8], k: usize, area: &[u8], c: &[Option<Criterion>]) -> bool
    ensures { result ≡ matches_at area.now (listed c.now) t.now k }
{
    let s = table_slots::slot_of(t, k);
    table_slots::has_mark(s) && meets_all(area, s, c) && table_slots::is_live(s)
}

// The marks of all slots: 1 for each that is live and meets every criterion. The sieve, made once, spares most others the comparison.
// Not inlined: the walk keeps to the same few instructions a slot wherever it is called.
#[inline(never)]
pub fn mark_all(t: &[u8], area: &[u8], c: &[Option<Criterion>]) -> [u8; 64]
    ensures { result ≡ marks_after (matches_at area.now (listed c.now) t.now) (slot_count t.now) }
{
    let sieve = first::sieve_of(area, c);
    let mut marks = [0u8; 64];
    for k in 0..table_slots::slot_count(t) {
        let s = table_slots::whole_slot(t, k);
        // The first test that fails leaves for the next slot, always by the block's end: a `continue` among them costs the sieve its registers.
        'slot: {
            if !table_slots::has_mark(s) {
                break 'slot;
            }
            let passed = first::passes(s, sieve);
            if !passed {
                break 'slot;
            }
            for asked in c {
                if let Some(one) = asked
                    && !compare::meets_one(area, s, one)
                {
                    break 'slot;
                }
            }
            if table_slots::is_live(s) {
                marks[k] = 1;
            }
        }
    }
    marks
}
