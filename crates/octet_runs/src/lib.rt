// Runs of bytes: a part of one, comparisons.
#![tactic(auto)]

ghost use Rattle.std.specs.Prelude.{◌≡◌, reverse, ◌+◌, ◌≤◌, length};
ghost use Rattle.octet_numbers.specs.Numbers.{be_bytes};
ghost use Rattle.octet_numbers.specs.Runs.{part, equal_bytes};
ghost use Rattle.octet_runs.specs.Compared.{pairs_from, compared_of};

mod span; // span.rt: a run named by its place in another

pub use span::Span;

// The n bytes of s from place at on, as the part of s that they are; as many as there are where s ends before.
pub fn slice(s: &[u8], at: usize, n: usize) -> &[u8]
    ensures { result.now ≡ part at n s.now }
{
    let rest = s.get(at..).unwrap_or(&[]);
    rest.get(..n).unwrap_or(rest)
}

// What a comparison of two texts finds: whether they are the same, and how many byte pairs it compared.
#[derive(Clone, Copy, Debug, PartialEq, Eq)]
pub struct Compared {
    pub same: bool,
    pub pairs: usize,
}

// The byte pairs compared in two numbers of four bytes, last byte first, through the first unequal.
fn pairs_in(x: u32, y: u32) -> usize
    ensures { (result ≡ pairs_from (reverse (be_bytes 4 x)) (reverse (be_bytes 4 y))) × (result ≤ 4) }
{
    let (p, q) = (x.to_le_bytes(), y.to_le_bytes());
    if p[0] != q[0] {
        return 1;
    }
    if p[1] != q[1] {
        return 2;
    }
    if p[2] != q[2] {
        return 3;
    }
    4
}

// Compares two texts: their lengths, then four bytes at a time from the last on. It returns at the first difference: not for secrets.
// The count costs nothing where it is not used: the compiler drops it.
pub fn compare(a: &[u8], b: &[u8]) -> Compared
    ensures { result ≡ compared_of a.now b.now }
{
    let n = a.len();
    if n != b.len() {
        return Compared {
            same: false,
            pairs: 0,
        };
    }
    // A counted place: it goes down by four, and the loop after this goes on from where this one stops, which no range or iterator hands on.
    let mut i = n;
    while 4 <= i {
        let x = octet_numbers::be32(a, i - 4);
        let y = octet_numbers::be32(b, i - 4);
        if x != y {
            return Compared {
                same: false,
                pairs: n - i + pairs_in(x, y),
            };
        }
        i -= 4;
    }
    for j in (0..i).rev() {
        if a[j] != b[j] {
            return Compared {
                same: false,
                pairs: n - j,
            };
        }
    }
    Compared {
        same: true,
        pairs: n,
    }
}

// Whether a and b are the same bytes.
pub fn equal(a: &[u8], b: &[u8]) -> bool
    ensures { result ≡ equal_bytes a.now b.now }
{
    compare(a, b).same
}

// Whether 16 bytes of a and 16 of b are the same. It looks at all of them, wherever they differ: for authenticators.
pub fn equal16(a: &[u8], at: usize, b: &[u8], place: usize) -> bool
    requires { (at + 16 ≤ length a.now) × (place + 16 ≤ length b.now) }
    ensures { result ≡ equal_bytes (part at 16 a.now) (part place 16 b.now) }
{
    let mut d: u8 = 0;
    for i in 0..16 {
        d |= a[at + i] ^ b[place + i];
    }
    d == 0
}
