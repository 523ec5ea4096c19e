// What tells most slots that do not match from those that may.
ghost use Rattle.std.specs.Prelude.{◌+◌, ◌≤◌};

// A byte and two runs of four bytes, all within a slot, that every slot has which matches.
#[derive(Clone, Copy, Debug, PartialEq, Eq)]
pub struct Sieve {
    pub place: usize, // of the byte
    pub byte: usize,
    pub back: usize, // where the last four bytes of the value stand
    pub last: u32,
    pub front: usize, // and its first four
    pub first: u32,
    pub ghost in_slot: { (back + 4 ≤ 192) × (front + 4 ≤ 192) },
}
