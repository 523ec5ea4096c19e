// A step that is not refused: job j is read from its rows and moved, its rows are written, and after an ACK the jobs past Check go back to slot 0.
ghost use Rattle.std.specs.Prelude.{◌≡◌, ◌≤◌, ◌<◌, length, set};
ghost use Rattle.nas_settings.specs.Settings.{gate_settings};
ghost use Rattle.sched_job.specs.Moves.{moved_table, reply_after};
ghost use Rattle.sched_state.specs.Scheduler.{job_at, part_of};
ghost use Rattle.sched_rows.specs.Layout.{kind_row};
ghost use Rattle.sched_rows.specs.Lent.{jobs_of, SameRows};
ghost use Rattle.sched_step.specs.Moved.{moved_in, ack_by, places_after, marks_after};

use das_answer::Answer;
use nas_settings::Gate;
use sched_job::Moved;
use sched_rows::Rows;

// Whether a step ended in ACK.
fn acked(ending: Option<Answer>) -> bool
    ensures { result ≡ ack_by ending }
{
    matches!(ending, Some(Answer::Ack(..)))
}

// The rows after job j was moved.
fn settled(rows: &mut Rows<'_>, j: usize, m: Moved)
    requires { j < 4 }
    ensures same { SameRows rows.old rows.new }
    ensures words_after { rows.new.words.now ≡ set rows.old.words.now j m.job.words }
    ensures kinds_after { rows.new.kinds.now ≡ set rows.old.kinds.now j (kind_row m.job) }
    ensures places_after { rows.new.places.now ≡ places_after m j rows.old.kinds.now rows.old.places.now }
    ensures marks_after { rows.new.marks.now ≡ marks_after m j rows.old.kinds.now rows.old.marks.now }
{
    let job = m.job;
    let ending = m.ending;
    rows.put(j, job);
    if acked(ending) {
        rows.restart_all();
    }
}

// Job j moved by its part q of the store, the table and what the scheduler was made with.
fn worked(rows: &Rows<'_>, gate: &Gate, j: usize, q: &[u8], t: &mut [u8], reply: &mut [u8]) -> Moved
    requires { (length gate.now.secret.now ≤ 64) × (j < 4) × (length q.now ≡ 4096) × (4096 ≤ length reply.old) }
    ensures value { result ≡ moved_in (gate_settings gate.now) rows.now j q.now t.old }
    ensures t_after { t.new ≡ moved_table (gate_settings gate.now) (job_at (jobs_of (length gate.now.secret.now) rows.now) j) q.now t.old }
    ensures reply_after { reply.new ≡ reply_after gate.now.secret.now q.now reply.old result.ending }
{
    let job = rows.job(gate.secret.len(), j);
    sched_move::step(job, q, gate, t, reply)
}

// One step of job j.
pub(crate) fn stepped(
    rows: &mut Rows<'_>,
    gate: &Gate,
    j: usize,
    t: &mut [u8],
    reply: &mut [u8],
    store: &[u8],
) -> Option<Answer>
    requires { (length gate.now.secret.now ≤ 64) × (j < 4) × (4096 ≤ length reply.old) × (length store.now ≡ 16384) }
    ensures same { SameRows rows.old rows.new }
    ensures value { result ≡ (moved_in (gate_settings gate.now) rows.old j (part_of j store.now) t.old).ending }
    ensures words_after { rows.new.words.now ≡ set rows.old.words.now j (moved_in (gate_settings gate.now) rows.old j (part_of j store.now) t.old).job.words }
    ensures kinds_after { rows.new.kinds.now ≡ set rows.old.kinds.now j (kind_row (moved_in (gate_settings gate.now) rows.old j (part_of j store.now) t.old).job) }
    ensures places_after { rows.new.places.now ≡ places_after (moved_in (gate_settings gate.now) rows.old j (part_of j store.now) t.old) j rows.old.kinds.now rows.old.places.now }
    ensures marks_after { rows.new.marks.now ≡ marks_after (moved_in (gate_settings gate.now) rows.old j (part_of j store.now) t.old) j rows.old.kinds.now rows.old.marks.now }
    ensures t_after { t.new ≡ moved_table (gate_settings gate.now) (job_at (jobs_of (length gate.now.secret.now) rows.old) j) (part_of j store.now) t.old }
    ensures reply_after { reply.new ≡ reply_after gate.now.secret.now (part_of j store.now) reply.old (moved_in (gate_settings gate.now) rows.old j (part_of j store.now) t.old).ending }
{
    let q = octet_runs::slice(store, j * 4096, 4096);
    let m = worked(rows, gate, j, q, t, reply);
    settled(rows, j, m);
    m.ending
}
