// A job's rows written.
ghost use Rattle.std.specs.Prelude.{◌≡◌, ◌<◌, set};
ghost use Rattle.sched_rows.specs.Layout.{kind_of, place_of, kind_row, place_row};
ghost use Rattle.sched_rows.specs.Left.{restart_place, restart_mark, restart_places, restart_marks};
ghost use Rattle.sched_rows.specs.Lent.{SameRows};

use crate::Rows;

// The number of a stage.
fn kind_of(s: sched_job::Stage) -> u32
    ensures { result ≡ kind_of s }
{
    match s {
        sched_job::Stage::Free => 0,
        sched_job::Stage::Hash(_) => 1,
        sched_job::Stage::Check => 2,
        sched_job::Stage::Match(_) => 3,
    }
}

// The block or the slot that a stage is at, 0 where it has none.
fn place_of(s: sched_job::Stage) -> usize
    ensures { result ≡ place_of s }
{
    match s {
        sched_job::Stage::Free => 0,
        sched_job::Stage::Hash(k) => k,
        sched_job::Stage::Check => 0,
        sched_job::Stage::Match(k) => k,
    }
}

// Job j back to slot 0, its marks cleared, where it is in Match or awaits Commit.
fn restart(kinds: &[[u32; 2]; 4], places: &mut [[usize; 2]; 4], marks: &mut [[u8; 64]; 4], j: usize)
    requires { j < 4 }
    ensures places_after { places.new ≡ restart_place kinds.now j places.old }
    ensures marks_after { marks.new ≡ restart_mark kinds.now j marks.old }
{
    if kinds[j][0] == 3 {
        let n = places[j][1];
        places[j] = [0, n];
        marks[j] = [0u8; 64];
        return;
    }
}

// All jobs in Match or awaiting Commit. It takes arrays, since C lends the kinds to be read alone at a start and an end.
pub fn restart_all(kinds: &[[u32; 2]; 4], places: &mut [[usize; 2]; 4], marks: &mut [[u8; 64]; 4])
    ensures places_after { places.new ≡ restart_places kinds.now places.old }
    ensures marks_after { marks.new ≡ restart_marks kinds.now marks.old }
{
    for j in 0..4 {
        restart(kinds, &mut *places, &mut *marks, j);
    }
}

impl Rows<'_> {
    // The rows of job j.
    pub fn put(&mut self, j: usize, job: sched_job::Job)
        requires { j < 4 }
        ensures same { SameRows self.old self.new }
        ensures words_after { self.new.words.now ≡ set self.old.words.now j job.words }
        ensures kinds_after { self.new.kinds.now ≡ set self.old.kinds.now j (kind_row job) }
        ensures places_after { self.new.places.now ≡ set self.old.places.now j (place_row job) }
        ensures marks_after { self.new.marks.now ≡ set self.old.marks.now j job.marks }
    {
        let words = job.words;
        let marks = job.marks;
        self.words[j] = words;
        self.kinds[j] = [kind_of(job.stage), job.clock];
        self.places[j] = [place_of(job.stage), job.length];
        self.marks[j] = marks;
    }

    // All jobs in Match or awaiting Commit back to slot 0.
    pub fn restart_all(&mut self)
        ensures same { SameRows self.old self.new }
        ensures words_after { self.new.words.now ≡ self.old.words.now }
        ensures kinds_after { self.new.kinds.now ≡ self.old.kinds.now }
        ensures places_after { self.new.places.now ≡ restart_places self.old.kinds.now self.old.places.now }
        ensures marks_after { self.new.marks.now ≡ restart_marks self.old.kinds.now self.old.marks.now }
    {
        restart_all(self.kinds, self.places, self.marks);
    }
}
