// An operation of RFC 1321, 3.4, for all rounds.
ghost use Rattle.std.specs.Prelude.{◌≡◌, ◌<◌};
ghost use Rattle.md5_ops.specs.Md5.{mix, index_in, turn};
ghost use Rattle.md5_ops.specs.Steps.{Shift, place, step_on};

use super::{State, words};

// F, G, H or I, by rounds. F is written with one operation less than in the definition; of G only one operation waits for b.
fn mix(k: usize, b: u32, c: u32, d: u32) -> u32
    ensures { result ≡ mix k b c d }
{
    match k {
        0 => d ^ (b & (c ^ d)),
        1 => (b & d) | (c & !d),
        2 => b ^ (c ^ d),
        _ => c ^ (b | !d),
    }
}

// The word of the block that operation i takes, by rounds.
fn index_in(k: usize, i: usize) -> usize
    requires { i < 64 }
    ensures { (result ≡ index_in k i) × (result < 16) }
{
    match k {
        0 => i % 16,
        1 => (5 * i + 1) % 16,
        2 => (3 * i + 5) % 16,
        _ => 7 * i % 16,
    }
}

// Where the sums have the word and the constant of operation i.
#[tactic(auto, unfolding(crate::specs::Steps::place))]
fn place(i: usize) -> usize
    requires { i < 64 }
    ensures { (result ≡ place i) × (result < 64) }
{
    i / 16 * 16 + index_in(i / 16, i)
}

// b + ((a + f + x) <<< s), and the words move on. f is added last, since it waits for the operation before.
fn turn(q: State, f: u32, x: u32, s: u32) -> State
    requires { (0 < s) × (s < 32) }
    ensures { result ≡ turn q f x 0 s }
{
    let y = q.a.wrapping_add(x).wrapping_add(f);
    State {
        a: q.d,
        b: q.b.wrapping_add(words::rotl(y, s)),
        c: q.b,
        d: q.c,
    }
}

// Operation i, with its rotation.
pub(crate) fn step(q: State, w: &[u32; 64], i: usize, s: u32) -> State
    requires { (i < 64) × Shift i s }
    ensures { result ≡ step_on w.now i q }
{
    let f = mix(i / 16, q.b, q.c, q.d);
    let j = place(i);
    turn(q, f, w[j], s)
}
