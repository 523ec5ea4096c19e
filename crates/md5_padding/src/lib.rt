// What MD5 puts after a message, and the words as bytes.
#![tactic(auto)]

ghost use Rattle.std.specs.Prelude.{◌≡◌, [], ◌∷◌, ◌++◌, ◌+◌, ◌-◌, ◌*◌, ◌<◌, ◌≤◌, length, replicate};
ghost use Rattle.octet_numbers.specs.Runs.{write};
ghost use Rattle.md5_ops.specs.Md5.{le_bytes, output};

use md5_ops::State;

// Writes v in four bytes, the low byte first.
#[tactic(auto, using(octet_numbers::proofs::Write::copied_over))]
fn put_le32(t: &mut [u8], at: usize, v: u32)
    requires { at + 4 ≤ length t.old }
    ensures { t.new ≡ write t.old at (le_bytes 4 v) }
{
    t[at..at + 4].copy_from_slice(&v.to_le_bytes());
}

// The count of n bytes in bits, at the end of the buffer.
fn put_count(buf: &mut [u8; 64], n: usize)
    ensures { buf.new ≡ write buf.old 56 (le_bytes 8 (n * 8)) }
{
    buf[56..64].copy_from_slice(&n.wrapping_mul(8).to_le_bytes());
}

// The sixteen bytes of the words.
pub fn bytes_of(q: State) -> [u8; 16]
    ensures { result ≡ output q }
{
    let mut out = [0u8; 16];
    put_le32(&mut out, 0, q.a);
    put_le32(&mut out, 4, q.b);
    put_le32(&mut out, 8, q.c);
    put_le32(&mut out, 12, q.d);
    out
}

// Zeros from place at on, and the count of n bytes at the end of the buffer.
#[tactic(auto, using(crate::proofs::Written::ended))]
pub fn put_end(buf: &mut [u8; 64], at: usize, n: usize)
    requires { at ≤ 56 }
    ensures { buf.new ≡ write buf.old at (replicate (56 - at) 0 ++ le_bytes 8 (n * 8)) }
{
    octet_copies::fill(&mut *buf, at, 56 - at, 0);
    put_count(buf, n);
}

// The byte after the message.
#[tactic(auto, using(octet_numbers::proofs::Write::write_one))]
pub fn put_first(buf: &mut [u8], at: usize)
    requires { at < length buf.old }
    ensures { buf.new ≡ write buf.old at (0x80 ∷ []) }
{
    buf[at] = 0x80;
}
