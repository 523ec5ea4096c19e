// Check: D4 by the words as held, D5, D6 and causes 1 to 6.
ghost use Rattle.std.specs.Prelude.{◌≡◌, ◌≤◌, length};
ghost use Rattle.nas_settings.specs.Settings.{gate_settings};
ghost use Rattle.sched_job.specs.Moves.{check_move, reply_after};

use crate::{Job, Moved};
use nas_settings::Gate;

impl Job {
    // Check: D4 to D6 and causes 1 to 6 of the store read again; what passed goes on to slot 0.
    pub fn check(self, q: &[u8], gate: &Gate, reply: &mut [u8]) -> Moved
        requires { 4096 ≤ length reply.old }
        ensures value { result ≡ check_move (gate_settings gate.now) self q.now }
        ensures reply_after { reply.new ≡ reply_after gate.now.secret.now q.now reply.old result.ending }
    {
        match sched_reread::check::check(self.words, q, self.length, gate, self.clock, reply) {
            Err(answer) => crate::done(answer),
            Ok(_) => crate::going(self.at_first_slot()),
        }
    }
}
