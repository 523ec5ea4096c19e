// The scheduler as C holds it: arrays of numbers with a row for each job. One job is read from its rows, and its rows are written.
#![tactic(auto)]

pub mod reading; // reading.rt: a job from its rows
pub mod writing; // writing.rt: a job's rows, and jobs back to slot 0

// The rows of the four jobs, as C lends them: of each job its chaining words, its kind and clock, its place and Length, its marks.
#[derive(Drop)]
pub struct Rows<'a> {
    pub words: &'a mut [[u32; 4]; 4],
    pub kinds: &'a mut [[u32; 2]; 4],
    pub places: &'a mut [[usize; 2]; 4],
    pub marks: &'a mut [[u8; 64]; 4],
}

// What was fixed when the scheduler was made, as in sched_state's Scheduler.
#[derive(Clone, Copy, Debug, PartialEq, Eq)]
pub struct Made<'a> {
    pub secret: &'a [u8],
    pub secret_size: usize,
    pub nas_ip: u32,
    pub nas_id: &'a [u8],
    pub nas_id_size: usize,
}
