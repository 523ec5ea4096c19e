// One step of a job: which of its moves is next.
#![tactic(auto)]

ghost use Rattle.std.specs.Prelude.{◌≡◌, cond, ◌≤◌, ltb, length};
ghost use Rattle.table_slots.specs.Slot.{slot_count};
ghost use Rattle.nas_settings.specs.Settings.{gate_settings};
ghost use Rattle.das_answer.specs.Commit.{commit_table};
ghost use Rattle.sched_job.specs.Job.{JobOurs};
ghost use Rattle.sched_job.specs.Moves.{going, match_job, commit_move, slot_move, slot_table, moved, moved_table, reply_after};

use das_answer::Answer;
use nas_settings::Gate;
use refusals::Discard;
use sched_job::{Job, Moved, Stage};
use sched_reread::Shown;

// Where the place is a slot of the table it is examined; else the job awaits Commit.
fn match_or_commit(
    j: Job,
    k: usize,
    shown: &Shown,
    secret: &[u8],
    t: &mut [u8],
    reply: &mut [u8],
) -> Moved
    requires { 4096 ≤ length reply.old }
    ensures value { result ≡ cond (ltb k (slot_count t.old)) (going (match_job j k shown.now.request.packet.bytes.now t.old)) (commit_move j shown.now.request.packet.bytes.now t.old) }
    ensures t_after { t.new ≡ cond (ltb k (slot_count t.old)) t.old (commit_table shown.now.request.packet.bytes.now j.marks t.old) }
    ensures reply_after { reply.new ≡ reply_after secret.now shown.now.request.packet.bytes.now reply.old result.ending }
{
    if k < table_slots::slot_count(t) {
        return sched_job::going(j.match_slot(k, &shown.request.packet, &shown.request.survey, t));
    }
    j.commit(shown, secret, t, reply)
}

// On the store read again: D1 where it no longer shows the request, else Match or Commit.
fn at_slot(j: Job, k: usize, q: &[u8], gate: &Gate, t: &mut [u8], reply: &mut [u8]) -> Moved
    requires { 4096 ≤ length reply.old }
    ensures value { result ≡ slot_move (gate_settings gate.now) j k q.now t.old }
    ensures t_after { t.new ≡ slot_table (gate_settings gate.now) j k q.now t.old }
    ensures reply_after { reply.new ≡ reply_after gate.now.secret.now q.now reply.old result.ending }
{
    let mut noted = [attr_survey::NONE; 256];
    match sched_reread::passed(j.length, q, gate, &mut noted) {
        None => sched_job::done(Answer::Discarded(Discard::Length)),
        Some(shown) => match_or_commit(j, k, &shown, gate.secret, t, reply),
    }
}

// One step, by the job's part q of the store and the table t.
pub fn step(j: Job, q: &[u8], gate: &Gate, t: &mut [u8], reply: &mut [u8]) -> Moved
    requires { JobOurs (length gate.now.secret.now) j × (length gate.now.secret.now ≤ 64) × (length q.now ≡ 4096) × (4096 ≤ length reply.old) }
    ensures value { result ≡ moved (gate_settings gate.now) j q.now t.old }
    ensures t_after { t.new ≡ moved_table (gate_settings gate.now) j q.now t.old }
    ensures reply_after { reply.new ≡ reply_after gate.now.secret.now q.now reply.old result.ending }
    ensures job_ours { JobOurs (length gate.now.secret.now) result.job }
{
    match j.stage {
        Stage::Free => sched_job::going(j),
        Stage::Hash(k) => sched_job::going(j.hash(k, q, gate.secret)),
        Stage::Check => j.check(q, gate, reply),
        Stage::Match(k) => at_slot(j, k, q, gate, t, reply),
    }
}
