// Runs of bytes written: copies of others, and one byte many times. The law in `using` says that what a part then holds was written there.
#![tactic(auto, using(octet_numbers::proofs::Write::copied_over))]

ghost use Rattle.std.specs.Prelude.{◌≡◌, ◌+◌, ◌≤◌, [], ◌∷◌, length, replicate};
ghost use Rattle.octet_numbers.specs.Runs.{part, write};

// Writes four bytes.
fn put4(t: &mut [u8], at: usize, a: u8, b: u8, c: u8, d: u8)
    requires { at + 4 ≤ length t.old }
    ensures { t.new ≡ write t.old at (a ∷ b ∷ c ∷ d ∷ []) }
{
    t[at] = a;
    t[at + 1] = b;
    t[at + 2] = c;
    t[at + 3] = d;
}

// Eight bytes of v from place j on, to place at of t. All are read before the first is written, so that they go as one word.
fn copy_word(t: &mut [u8], at: usize, v: &[u8], j: usize)
    requires { (at + 8 ≤ length t.old) × (j + 8 ≤ length v.now) }
    ensures { t.new ≡ write t.old at (part j 8 v.now) }
{
    // No `copy_from_slice` of the eight: of such words in a loop the compiler makes a call of memcpy, which the archive is not to need.
    let x0 = v[j];
    let x1 = v[j + 1];
    let x2 = v[j + 2];
    let x3 = v[j + 3];
    let x4 = v[j + 4];
    let x5 = v[j + 5];
    let x6 = v[j + 6];
    let x7 = v[j + 7];
    put4(&mut *t, at, x0, x1, x2, x3);
    put4(t, at + 4, x4, x5, x6, x7);
}

// Copies v to place at of t, byte by byte.
fn copy_bytes(t: &mut [u8], at: usize, v: &[u8])
    requires { at + length v.now ≤ length t.old }
    ensures { t.new ≡ write t.old at v.now }
{
    for j in 0..v.len() {
        t[at + j] = v[j];
    }
}

// Copies v to place at of t.
pub fn copy(t: &mut [u8], at: usize, v: &[u8])
    requires { at + length v.now ≤ length t.old }
    ensures { t.new ≡ write t.old at v.now }
{
    // No `copy_from_slice` of all of v: of a run of any length that becomes a call of memmove, which the archive is not to need.
    for k in 0..v.len() / 8 {
        copy_word(&mut *t, at + k * 8, v, k * 8);
    }
    let whole = v.len() / 8 * 8;
    copy_bytes(t, at + whole, &v[whole..]);
}

// Writes n bytes x from place at of t on.
pub fn fill(t: &mut [u8], at: usize, n: usize, x: u8)
    requires { at + n ≤ length t.old }
    ensures { t.new ≡ write t.old at (replicate n x) }
{
    t[at..at + n].fill(x);
}
