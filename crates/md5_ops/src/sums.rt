// The sums of a block's words with the constants of their operations: an operation then adds one number, which does not wait for the one before.
ghost use Rattle.std.specs.Prelude.{◌≡◌, ◌<◌, length};
ghost use Rattle.md5_ops.specs.Steps.{InPlace, Words, Sums, put_at, put_word};

use super::words;

// The constants of RFC 1321, 3.4: in each round by the word of the block that the constant is added to.
pub fn constants() -> [u32; 64]
    ensures { InPlace result }
{
    [
        0xd76aa478, 0xe8c7b756, 0x242070db, 0xc1bdceee, 0xf57c0faf, 0x4787c62a, 0xa8304613,
        0xfd469501, 0x698098d8, 0x8b44f7af, 0xffff5bb1, 0x895cd7be, 0x6b901122, 0xfd987193,
        0xa679438e, 0x49b40821, 0xe9b6c7aa, 0xf61e2562, 0xfcefa3f8, 0xf4d50d87, 0xe7d3fbc8,
        0xd62f105d, 0xc040b340, 0x676f02d9, 0x455a14ed, 0x21e1cde6, 0x02441453, 0x265e5a51,
        0x8d2a4c8a, 0xa9e3e905, 0xc33707d6, 0xd8a1e681, 0xeaa127fa, 0xa4beea44, 0xc4ac5665,
        0xd4ef3085, 0x4bdecfa9, 0xfffa3942, 0x04881d05, 0xf6bb4b60, 0x8771f681, 0xd9d4d039,
        0xbebfbc70, 0x6d9d6122, 0xe6db99e5, 0x289b7ec6, 0xfde5380c, 0x1fa27cf8, 0xf4292244,
        0x85845dd1, 0x2ad7d2bb, 0x8f0ccc92, 0xf7537e82, 0xfc93a039, 0xa3014314, 0x432aff97,
        0x6fa87e4f, 0xeb86d391, 0xffeff47d, 0xbd3af235, 0x655b59c3, 0x4e0811a1, 0xab9423a7,
        0xfe2ce6e0,
    ]
}

// The words of a block. The block is a slice, since it is cut out of a message without a copy.
pub fn words(m: &[u8]) -> [u32; 16]
    requires { length m.now ≡ 64 }
    ensures { Words m.now result }
{
    let mut x = [0u32; 16];
    for j in 0..16 {
        x[j] = words::word_at(m, j);
    }
    x
}

// The sum of x and the number of t at place p.
#[tactic(auto, unfolding(crate::specs::Steps::put_at))]
fn put_at(w: &mut [u32; 64], t: &[u32; 64], x: u32, p: usize)
    requires { p < 64 }
    ensures { w.new ≡ put_at w.old t.now x p }
{
    w[p] = x.wrapping_add(t[p]);
}

// Word j with its constant of each round.
#[tactic(auto, unfolding(crate::specs::Steps::put_word))]
fn put_word(w: &mut [u32; 64], t: &[u32; 64], x: u32, j: usize)
    requires { j < 16 }
    ensures { w.new ≡ put_word w.old t.now x j }
{
    put_at(&mut *w, t, x, j);
    put_at(&mut *w, t, x, j + 16);
    put_at(&mut *w, t, x, j + 32);
    put_at(&mut *w, t, x, j + 48);
}

// Each word with its constant of each round.
#[tactic(auto, using(crate::proofs::Filled::put_more))]
pub fn put(w: &mut [u32; 64], t: &[u32; 64], x: &[u32; 16])
    ensures { Sums x.now t.now w.new }
{
    for j in 0..16 {
        put_word(&mut *w, t, x[j], j);
    }
}
