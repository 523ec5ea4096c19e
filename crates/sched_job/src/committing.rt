// Commit: 503, or changes and ACK.
ghost use Rattle.std.specs.Prelude.{◌≡◌, ◌≤◌, length};
ghost use Rattle.das_answer.specs.Commit.{commit_table};
ghost use Rattle.sched_job.specs.Moves.{commit_move, reply_after};

use crate::{Job, Moved};
use sched_reread::Shown;

impl Job {
    // Commit: 503, or changes and ACK, by the marks as held and the stamp of the request that the store still shows.
    pub fn commit(self, shown: &Shown, secret: &[u8], t: &mut [u8], reply: &mut [u8]) -> Moved
        requires { 4096 ≤ length reply.old }
        ensures value { result ≡ commit_move self shown.now.request.packet.bytes.now t.old }
        ensures t_after { t.new ≡ commit_table shown.now.request.packet.bytes.now self.marks t.old }
        ensures reply_after { reply.new ≡ reply_after secret.now shown.now.request.packet.bytes.now reply.old result.ending }
    {
        let skew = rule_stamp::skew(shown.stamp, self.clock);
        let marks = self.marks;
        crate::done(das_answer::commit(t, &marks, reply, &shown.request, secret, skew))
    }
}
