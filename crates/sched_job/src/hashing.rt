// Hash: one block of the signed request.
ghost use Rattle.std.specs.Prelude.{◌≡◌, ◌+◌, ◌≤◌, ◌<◌, length};
ghost use Rattle.packet_blocks.specs.Block.{block_count};
ghost use Rattle.sched_job.specs.Moves.{hash_job};

use crate::{Job, Stage};

impl Job {
    // Hash: block k, from the words as held.
    pub fn hash(self, k: usize, q: &[u8], secret: &[u8]) -> Job
        requires { (20 ≤ self.length) × (self.length ≤ length q.now) × (self.length ≤ 4096) × (length secret.now ≤ 64) × (k < block_count (self.length + length secret.now)) }
        ensures { result ≡ hash_job secret.now self k q.now }
    {
        let next = k + 1;
        let words = packet_words::after_block(self.words, q, self.length, secret, k);
        if next < packet_blocks::block_count(self.length + secret.len()) {
            return Job {
                stage: Stage::Hash(next),
                words,
                ..self
            };
        }
        Job {
            stage: Stage::Check,
            words,
            ..self
        }
    }
}
