// The four rounds of RFC 1321, 3.4, on the sums of a block. Numbers stand in every call, so that no test of i is left when compiled.
#![tactic(auto, using(crate::proofs::Chain::in_four, crate::proofs::Chain::in_round, crate::proofs::Chain::in_all))]

ghost use Rattle.std.specs.Prelude.{◌≡◌, ◌+◌, ◌<◌};
ghost use Rattle.md5_ops.specs.Steps.{Shift, steps_from};

use super::State;
use super::steps::step;

// The rotations of a round.
#[derive(Clone, Copy)]
struct Shifts(u32, u32, u32, u32);

// Operations i to i + 3.
fn four(q: State, w: &[u32; 64], i: usize, s: Shifts) -> State
    requires place { i < 61 }
    requires shift { Shift i s.0 × Shift (i + 1) s.1 × Shift (i + 2) s.2 × Shift (i + 3) s.3 }
    ensures { result ≡ steps_from w.now i 4 q }
{
    let r = step(q, w, i, s.0);
    let r = step(r, w, i + 1, s.1);
    let r = step(r, w, i + 2, s.2);
    step(r, w, i + 3, s.3)
}

// Round 1, with F.
fn first(q: State, w: &[u32; 64]) -> State
    ensures { result ≡ steps_from w.now 0 16 q }
{
    let s = Shifts(7, 12, 17, 22);
    let r = four(q, w, 0, s);
    let r = four(r, w, 4, s);
    let r = four(r, w, 8, s);
    four(r, w, 12, s)
}

// Round 2, with G.
fn second(q: State, w: &[u32; 64]) -> State
    ensures { result ≡ steps_from w.now 16 16 q }
{
    let s = Shifts(5, 9, 14, 20);
    let r = four(q, w, 16, s);
    let r = four(r, w, 20, s);
    let r = four(r, w, 24, s);
    four(r, w, 28, s)
}

// Round 3, with H.
fn third(q: State, w: &[u32; 64]) -> State
    ensures { result ≡ steps_from w.now 32 16 q }
{
    let s = Shifts(4, 11, 16, 23);
    let r = four(q, w, 32, s);
    let r = four(r, w, 36, s);
    let r = four(r, w, 40, s);
    four(r, w, 44, s)
}

// Round 4, with I.
fn fourth(q: State, w: &[u32; 64]) -> State
    ensures { result ≡ steps_from w.now 48 16 q }
{
    let s = Shifts(6, 10, 15, 21);
    let r = four(q, w, 48, s);
    let r = four(r, w, 52, s);
    let r = four(r, w, 56, s);
    four(r, w, 60, s)
}

// All 64 operations.
pub fn all(q: State, w: &[u32; 64]) -> State
    ensures { result ≡ steps_from w.now 0 64 q }
{
    let r = first(q, w);
    let r = second(r, w);
    let r = third(r, w);
    fourth(r, w)
}
