// The scheduler (document 01's desk): four requests in work, each in small steps. These are the words in which its calls are defined (specs/Calls.antt). The calls
// themselves take it as C holds it, in arrays that are lent (crate sched_rows).
#![tactic(auto)]

// Four jobs; the secret and the gate's identity, fixed when it is made: the first secret_size and nas_id_size bytes count.
#[derive(Clone, Copy)]
pub struct Scheduler {
    pub jobs: [sched_job::Job; 4],
    pub secret: [u8; 64],
    pub secret_size: usize,
    pub nas_ip: u32,
    pub nas_id: [u8; 32],
    pub nas_id_size: usize,
}

// What a call answers: why it is refused; at opening why the packet is discarded, or the job; of a step that it goes on or what it came to; of a start the slot.
#[derive(Clone, Copy, Debug, PartialEq, Eq)]
pub enum Outcome {
    Refused(refusals::Refusal),
    Discarded(refusals::Discard),
    Opened(usize),
    Going,
    Done(das_answer::Answer),
    Dropped,
    Started(usize),
    Ended,
}

// The scheduler after a call, and the answer beside it.
#[derive(Clone, Copy)]
pub struct Called {
    pub scheduler: Scheduler,
    pub outcome: Outcome,
}
