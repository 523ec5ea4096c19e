// A step call: R1, R4, R5, R7; the job moved by its part of the store; after an ACK all others restarted.
#![tactic(auto)]

mod moves; // moves.rt: a step that is not refused

ghost use Rattle.std.specs.Prelude.{◌≡◌, ◌≤◌, length};
ghost use Rattle.sched_state.specs.Scheduler.{open_at};
ghost use Rattle.sched_state.specs.Refusals.{step_refusal};
ghost use Rattle.sched_state.specs.Calls.{step_called, step_table, step_reply};
ghost use Rattle.sched_rows.specs.Layout.{scheduler_in};
ghost use Rattle.sched_rows.specs.Left.{step_left};
ghost use Rattle.sched_rows.specs.Lent.{held_by, jobs_of, SameRows};
ghost use Rattle.c_told.specs.Told.{told_by};

use c_numbers::numbers::Told;
use refusals::Refusal;
use sched_rows::{Made, Rows};

// R1, R4, R5, R7, the lowest that applies.
#[tactic(auto, unfolding(sched_state::specs::Refusals::step_refusal, sched_state::specs::Refusals::drop_refusal))]
fn refusal(
    rows: &Rows<'_>,
    size: usize,
    j: usize,
    t: &[u8],
    reply: &[u8],
    store: &[u8],
) -> Option<Refusal>
    requires { size ≤ 64 }
    ensures { result ≡ step_refusal (open_at (jobs_of size rows.now)) (length store.now) j t.now reply.now }
{
    if table_slots::slot_count(t) == 0 {
        return Some(Refusal::TableLength);
    }
    if reply.len() < 4096 {
        return Some(Refusal::OutputRoom);
    }
    if store.len() != 16384 {
        return Some(Refusal::StoreLength);
    }
    if 3 < j || !rows.open_at(size, j) {
        return Some(Refusal::NoSuchJob);
    }
    None
}

// R1, R4, R5, R7, or one step of job j; and what C is told of it, where old was told before.
pub fn step(
    rows: &mut Rows<'_>,
    made: &Made<'_>,
    j: usize,
    t: &mut [u8],
    reply: &mut [u8],
    store: &[u8],
    old: Told,
) -> Told
    requires { (length made.now.secret.now ≡ 64) × (length made.now.nas_id.now ≡ 32) }
    ensures same { SameRows rows.old rows.new }
    ensures value { result ≡ told_by (step_called (scheduler_in (held_by rows.old made.now)) j t.old reply.old store.now).outcome old }
    ensures rows_after { held_by rows.new made.now ≡ step_left (held_by rows.old made.now) j t.old reply.old store.now }
    ensures t_after { t.new ≡ step_table (scheduler_in (held_by rows.old made.now)) j t.old reply.old store.now }
    ensures reply_after { reply.new ≡ step_reply (scheduler_in (held_by rows.old made.now)) j t.old reply.old store.now }
{
    let gate = made.gate();
    match refusal(rows, gate.secret.len(), j, t, reply, store) {
        Some(r) => Told {
            answer: u32::from(r),
            ..old
        },
        None => {
            let ending = moves::stepped(rows, &gate, j, t, reply, store);
            c_told::tell(ending)
        }
    }
}
