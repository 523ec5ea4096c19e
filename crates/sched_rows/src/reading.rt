// A job from its rows, whatever they are: one that is none of ours is free.
ghost use Rattle.std.specs.Prelude.{◌≡◌, ◌≤◌, ◌<◌, length};
ghost use Rattle.nas_settings.specs.Settings.{gate_settings};
ghost use Rattle.sched_state.specs.Scheduler.{job_at, open_at, lowest_free};
ghost use Rattle.sched_rows.specs.Layout.{secret_in, nas_id_in, block_in, stage_in};
ghost use Rattle.sched_rows.specs.Lent.{jobs_of, settings_in, below_four};

use crate::{Made, Rows};
use nas_settings::Gate;

// The length of the secret, and that of the NAS-Identifier.
pub fn secret_in(n: usize) -> usize
    ensures { (result ≡ secret_in n) × (result ≤ 64) }
{
    n.clamp(1, 64)
}

pub fn nas_id_in(n: usize) -> usize
    ensures { (result ≡ nas_id_in n) × (result ≤ 32) }
{
    n.clamp(1, 32)
}

// Whether block `place` is one of the message of Length n and the secret.
fn block_in(size: usize, n: usize, place: usize) -> bool
    requires { size ≤ 64 }
    ensures { result ≡ block_in size n place }
{
    if n < 20 {
        return false;
    }
    if 4096 < n {
        return false;
    }
    place < packet_blocks::block_count(n + size)
}

// The stage of a kind and a place.
fn stage_in(size: usize, kind: u32, place: usize, n: usize) -> sched_job::Stage
    requires { size ≤ 64 }
    ensures { result ≡ stage_in size kind place n }
{
    if kind == 1 {
        if block_in(size, n, place) {
            return sched_job::Stage::Hash(place);
        }
        return sched_job::Stage::Free;
    }
    if kind == 2 {
        return sched_job::Stage::Check;
    }
    if kind == 3 {
        return sched_job::Stage::Match(place);
    }
    sched_job::Stage::Free
}

impl<'a> Made<'a> {
    // What the scheduler was made with: of secret and NAS-Identifier the bytes that count.
    pub fn gate(&self) -> Gate<'a>
        requires { (length self.now.secret.now ≡ 64) × (length self.now.nas_id.now ≡ 32) }
        ensures value { gate_settings result ≡ settings_in self.now }
        ensures size { (length result.secret.now ≡ secret_in self.now.secret_size) × (length result.secret.now ≤ 64) }
    {
        let secret = self.secret;
        let nas_id = self.nas_id;
        Gate {
            secret: &secret[..secret_in(self.secret_size)],
            nas_ip: self.nas_ip,
            nas_id: &nas_id[..nas_id_in(self.nas_id_size)],
        }
    }
}

impl Rows<'_> {
    // Job j, under a secret of so many bytes.
    pub fn job(&self, size: usize, j: usize) -> sched_job::Job
        requires { (size ≤ 64) × (j < 4) }
        ensures { result ≡ job_at (jobs_of size self.now) j }
    {
        let words = &*self.words;
        let kinds = &*self.kinds;
        let places = &*self.places;
        let marks = &*self.marks;
        let n = places[j][1];
        sched_job::Job {
            stage: stage_in(size, kinds[j][0], places[j][0], n),
            words: words[j],
            marks: marks[j],
            length: n,
            clock: kinds[j][1],
        }
    }

    // Whether job j is open.
    pub fn open_at(&self, size: usize, j: usize) -> bool
        requires { (size ≤ 64) × (j < 4) }
        ensures { result ≡ open_at (jobs_of size self.now) j }
    {
        let b = self.job(size, j);
        b.is_open()
    }

    // The lowest free job.
    pub fn lowest_free(&self, size: usize) -> Option<usize>
        requires { size ≤ 64 }
        ensures { result ≡ below_four (lowest_free (open_at (jobs_of size self.now))) }
    {
        for j in 0..4 {
            if !self.open_at(size, j) {
                return Some(j);
            }
        }
        None
    }
}
