// A request in work, and its moves (document 01's job of the desk).
#![tactic(auto)]

mod checking; // checking.rt: Check
mod committing; // committing.rt: Commit
mod hashing; // hashing.rt: Hash
mod matching; // matching.rt: Match

ghost use Rattle.std.specs.Prelude.{◌≡◌};
ghost use Rattle.sched_job.specs.Job.{free_job, first_job, at_first_slot, is_open};
ghost use Rattle.sched_job.specs.Moves.{going, done};

use das_answer::Answer;

// What a job's next step does.
#[derive(Clone, Copy, Debug, PartialEq, Eq)]
pub enum Stage {
    Free,
    Hash(usize),
    Check,
    Match(usize),
}

// The four chaining words and the 64 slot marks beside the job's place, the Length and the clock of its opening.
#[derive(Clone, Copy)]
pub struct Job {
    pub stage: Stage,
    pub words: [u32; 4],
    pub marks: [u8; 64],
    pub length: usize,
    pub clock: u32,
}

// A job after a step, with the answer where it is finished.
#[derive(Clone, Copy)]
pub struct Moved {
    pub job: Job,
    pub ending: Option<Answer>,
}

// A free job.
#[tactic(auto, unfolding(table_slots::specs::Marks::no_marks))]
pub fn free() -> Job
    ensures { result ≡ free_job }
{
    Job {
        stage: Stage::Free,
        words: [0u32; 4],
        marks: [0u8; 64],
        length: 0,
        clock: 0,
    }
}

// A job just opened, for a packet of this Length.
pub fn first(n: usize, clock: u32) -> Job
    ensures { result ≡ first_job n clock }
{
    Job {
        stage: Stage::Hash(0),
        words: packet_words::words_of(md5_ops::initial()),
        marks: [0u8; 64],
        length: n,
        clock,
    }
}

// What a step gives that did not finish its job.
pub fn going(job: Job) -> Moved
    ensures { result ≡ going job }
{
    Moved { job, ending: None }
}

// What a step gives that finished its job with this answer: the job is free again.
pub fn done(answer: Answer) -> Moved
    ensures { result ≡ done answer }
{
    Moved {
        job: free(),
        ending: Some(answer),
    }
}

impl Job {
    pub fn is_open(self) -> bool
        ensures { result ≡ is_open self.stage }
    {
        !matches!(self.stage, Stage::Free)
    }

    // At slot 0, with no marks.
    #[tactic(auto, unfolding(table_slots::specs::Marks::no_marks))]
    fn at_first_slot(self) -> Job
        ensures { result ≡ at_first_slot self }
    {
        Job {
            stage: Stage::Match(0),
            marks: [0u8; 64],
            ..self
        }
    }
}
