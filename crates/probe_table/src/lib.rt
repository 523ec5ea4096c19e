// Exports of the session table for tests and benchmarks, apart from the product's C library: what reads it.
#![tactic(auto)]

mod given;
mod writes;

ghost use Rattle.std.specs.Prelude.{◌≡◌, cond};
ghost use Rattle.table_slots.specs.Slot.{slot_count, slot, live};
ghost use Rattle.table_slots.specs.Marks.{marks_after};
ghost use Rattle.table_criteria.specs.Meets.{listed, matches_at};
ghost use Rattle.probe_table.specs.Given.{criteria_of};
ghost use Rattle.probe_table.specs.Answers.{answer, truth, marks_room};

// The number of slots, 0 for a table of another length.
#[unsafe(no_mangle)]
pub extern "C" fn probe_table_count(t: &[u8]) -> u32
    ensures { result ≡ slot_count t.now }
{
    table_slots::slot_count(t) as u32
}

// 1 where slot k is live, else 0.
#[unsafe(no_mangle)]
pub extern "C" fn probe_table_live(t: &[u8], k: usize) -> u32
    ensures { result ≡ truth (live (slot k t.now)) }
{
    u32::from(table_slots::slot_live(t, k))
}

// 1 where slot k is live and meets the criteria, whose values lie in the area, else 0.
#[unsafe(no_mangle)]
pub extern "C" fn probe_table_match(t: &[u8], k: usize, area: &[u8], criteria: &[u8]) -> u32
    ensures { result ≡ truth (matches_at area.now (listed (criteria_of criteria.now)) t.now k) }
{
    u32::from(table_match::match_slot(t, k, area, &given::criteria_of(criteria)))
}

// The marks of all slots; refused where there is not room for 64, and no more.
#[unsafe(no_mangle)]
#[tactic(auto, unfolding(crate::specs::Answers::marks_room))]
pub extern "C" fn probe_table_marks(t: &[u8], area: &[u8], criteria: &[u8], marks: &mut [u8]) -> u32
    ensures value { result ≡ answer (marks_room marks.old) }
    ensures marks_after { marks.new ≡ cond (marks_room marks.old) (marks_after (matches_at area.now (listed (criteria_of criteria.now)) t.now) (slot_count t.now)) marks.old }
{
    if marks.len() != 64 {
        return 1;
    }
    let m = table_match::mark_all(t, area, &given::criteria_of(criteria));
    octet_copies::copy(marks, 0, &m);
    0
}
