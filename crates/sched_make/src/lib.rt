// Making a scheduler: no request in work, and what it is made with copied.
#![tactic(auto)]

ghost use Rattle.std.specs.Prelude.{◌≡◌, ◌≤◌, length, replicate, Some, None, MatchResult};
ghost use Rattle.octet_numbers.specs.Runs.{write};
ghost use Rattle.nas_settings.specs.Settings.{gate_settings};
ghost use Rattle.sched_job.specs.Job.{free_job};
ghost use Rattle.sched_state.specs.Refusals.{make_refusal};
ghost use Rattle.sched_rows.specs.Layout.{held, kind_row, place_row};
ghost use Rattle.sched_rows.specs.Left.{make_left};
ghost use Rattle.sched_rows.specs.Lent.{SameRows};

use nas_settings::Gate;
use refusals::Refusal;
use sched_rows::Rows;

// The rows of four free jobs.
fn free_all(rows: &mut Rows<'_>)
    ensures same { SameRows rows.old rows.new }
    ensures words_after { rows.new.words.now ≡ replicate 4 free_job.words }
    ensures kinds_after { rows.new.kinds.now ≡ replicate 4 (kind_row free_job) }
    ensures places_after { rows.new.places.now ≡ replicate 4 (place_row free_job) }
    ensures marks_after { rows.new.marks.now ≡ replicate 4 free_job.marks }
{
    *rows.words = [[0u32; 4]; 4];
    *rows.kinds = [[0u32; 2]; 4];
    *rows.places = [[0usize; 2]; 4];
    *rows.marks = [[0u8; 64]; 4];
}

// s, and zeros after it.
fn keep(room: &mut [u8], s: &[u8])
    requires { length s.now ≤ length room.old }
    ensures { room.new ≡ write (replicate (length room.old) 0) 0 s.now }
{
    let n = room.len();
    octet_copies::fill(&mut *room, 0, n, 0);
    octet_copies::copy(room, 0, s);
}

// R2, R3, or a scheduler. What is fixed then is written to the five places that C lends.
#[tactic(auto, unfolding(sched_state::specs::Refusals::make_refusal, sched_rows::specs::Left::make_left))]
pub fn make(
    rows: &mut Rows<'_>,
    kept: &mut [u8; 64],
    size: &mut usize,
    nas_ip: &mut u32,
    own: &mut [u8; 32],
    label: &mut usize,
    gate: &Gate,
) -> Result<(), Refusal>
    ensures same { SameRows rows.old rows.new }
    ensures value { MatchResult result (λ done. make_refusal (gate_settings gate.now) ≡ None) (λ r. make_refusal (gate_settings gate.now) ≡ Some r) }
    ensures label_after { held rows.new.words.now rows.new.kinds.now rows.new.places.now rows.new.marks.now kept.new size.new nas_ip.new own.new label.new ≡ make_left (gate_settings gate.now) (held rows.old.words.now rows.old.kinds.now rows.old.places.now rows.old.marks.now kept.old size.old nas_ip.old own.old label.old) }
{
    if nas_settings::bad_secret(gate.secret) {
        return Err(Refusal::SecretLength);
    }
    if nas_settings::bad_nas_id(gate.nas_id) {
        return Err(Refusal::NasIdentifierLength);
    }
    free_all(rows);
    keep(kept, gate.secret);
    keep(own, gate.nas_id);
    *size = gate.secret.len();
    *nas_ip = gate.nas_ip;
    *label = gate.nas_id.len();
    Ok(())
}
