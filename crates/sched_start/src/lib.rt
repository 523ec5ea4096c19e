// Session start and end, as calls on the scheduler: each sends the jobs past Check back to slot 0.
// The rows are no struct here, since C lends words and kinds to be read alone.
#![tactic(auto)]

ghost use Rattle.std.specs.Prelude.{◌≡◌};
ghost use Rattle.table_sessions.specs.Session.{insert_table, remove_table};
ghost use Rattle.sched_state.specs.Calls.{start_called, end_called};
ghost use Rattle.sched_rows.specs.Layout.{scheduler_in};
ghost use Rattle.sched_rows.specs.Left.{start_left, end_left};
ghost use Rattle.sched_rows.specs.Lent.{held_with};
ghost use Rattle.c_told.specs.Told.{number_by, place_by};

use sched_rows::Made;
use table_records::Session;

// R1, R8, R9, R10, or a session in the lowest free slot.
pub fn start(
    words: &[[u32; 4]],
    kinds: &[[u32; 2]; 4],
    places: &mut [[usize; 2]; 4],
    marks: &mut [[u8; 64]; 4],
    made: &Made<'_>,
    t: &mut [u8],
    session: &Session,
    slot: &mut u32,
) -> u32
    ensures value { result ≡ number_by (start_called (scheduler_in (held_with words.now kinds.now places.old marks.old made.now)) session.now t.old).outcome }
    ensures marks_after { held_with words.now kinds.now places.new marks.new made.now ≡ start_left (held_with words.now kinds.now places.old marks.old made.now) session.now t.old }
    ensures t_after { t.new ≡ insert_table session.now t.old }
    ensures slot_after { slot.new ≡ place_by (start_called (scheduler_in (held_with words.now kinds.now places.old marks.old made.now)) session.now t.old).outcome slot.old }
{
    match table_sessions::insert(t, session) {
        Ok(k) => {
            sched_rows::writing::restart_all(kinds, places, marks); // a start restarts
            *slot = k as u32;
            0 // started
        }
        Err(r) => u32::from(r), // a refused start restarts nobody
    }
}

// R1, R11, or the session of slot k is gone.
pub fn end(
    words: &[[u32; 4]],
    kinds: &[[u32; 2]; 4],
    places: &mut [[usize; 2]; 4],
    marks: &mut [[u8; 64]; 4],
    made: &Made<'_>,
    t: &mut [u8],
    k: usize,
) -> u32
    ensures value { result ≡ number_by (end_called (scheduler_in (held_with words.now kinds.now places.old marks.old made.now)) k t.old).outcome }
    ensures marks_after { held_with words.now kinds.now places.new marks.new made.now ≡ end_left (held_with words.now kinds.now places.old marks.old made.now) k t.old }
    ensures t_after { t.new ≡ remove_table k t.old }
{
    match table_sessions::remove(t, k) {
        Ok(()) => {
            sched_rows::writing::restart_all(kinds, places, marks); // an end restarts
            0 // ended
        }
        Err(r) => u32::from(r),
    }
}
