// MD5 (RFC 1321): the words, and the 64 operations on a block.
#![tactic(auto)]

mod words; // words.rt: rotations, and the words of a block
pub mod sums; // sums.rt: the words of a block with their constants
mod steps; // steps.rt: one operation of the 64
pub mod rounds; // rounds.rt: the four rounds

ghost use Rattle.std.specs.Prelude.{◌≡◌};
ghost use Rattle.md5_ops.specs.Md5.{initial};

// The chaining words A, B, C and D.
#[derive(Clone, Copy, Debug, PartialEq, Eq)]
pub struct State {
    pub a: u32,
    pub b: u32,
    pub c: u32,
    pub d: u32,
}

// The words before the first block.
pub fn initial() -> State
    ensures { result ≡ initial }
{
    State {
        a: 0x6745_2301,
        b: 0xefcd_ab89,
        c: 0x98ba_dcfe,
        d: 0x1032_5476,
    }
}
