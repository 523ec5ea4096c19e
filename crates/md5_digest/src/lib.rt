// MD5 of a message that is handed over in pieces. Whole blocks are hashed where they lie; only what fills no block is copied.
#![tactic(auto)]

ghost use Rattle.std.specs.Prelude.{◌≡◌, List, ◌++◌, ℕ, ◌+◌, ◌%◌, length};
ghost use Rattle.md5_ops.specs.Md5.{md5};
ghost use Rattle.md5_digest.specs.Held.{Held};

use md5_ops::State;

// A piece where no block is begun: its whole blocks as they lie, the rest into the buffer.
fn aligned(buf: &mut [u8; 64], q: State, s: &[u8]) -> State
    ensures { (n : ℕ) (m : List ℕ) → n % 64 ≡ 0 → Held n m q buf.old → Held (n + length s.now) (m ++ s.now) result buf.new }
{
    let r = md5_blocks::blocks(q, s);
    let e = s.len() / 64 * 64;
    octet_copies::copy(buf, 0, &s[e..]);
    r
}

// A piece of any length after the n bytes held.
pub fn update(buf: &mut [u8; 64], q: State, n: usize, s: &[u8]) -> State
    ensures { (m : List ℕ) → Held n m q buf.old → Held (n + length s.now) (m ++ s.now) result buf.new }
{
    let f = n % 64;
    if f == 0 {
        return aligned(buf, q, s);
    }
    let j = 64 - f;
    if s.len() < j {
        octet_copies::copy(buf, f, s);
        return q;
    }
    let (front, rest) = s.split_at(j);
    octet_copies::copy(&mut *buf, f, front);
    let r = md5_blocks::blocks(q, &*buf);
    aligned(buf, r, rest)
}

// The digest of the n bytes held.
pub fn finish(buf: &mut [u8; 64], q: State, n: usize) -> [u8; 16]
    ensures { (m : List ℕ) → Held n m q buf.old → result ≡ md5 m }
{
    let f = n % 64;
    md5_padding::put_first(&mut *buf, f);
    if f < 56 {
        md5_padding::put_end(&mut *buf, f + 1, n);
        return md5_padding::bytes_of(md5_blocks::blocks(q, &*buf));
    }
    octet_copies::fill(&mut *buf, f + 1, 63 - f, 0);
    let r = md5_blocks::blocks(q, &*buf);
    md5_padding::put_end(&mut *buf, 0, n);
    md5_padding::bytes_of(md5_blocks::blocks(r, &*buf))
}

// The digest of a message that lies in one piece.
pub fn of(s: &[u8]) -> [u8; 16]
    ensures { result ≡ md5 s.now }
{
    let mut buf = [0u8; 64];
    let q = update(&mut buf, md5_ops::initial(), 0, s);
    finish(&mut buf, q, s.len())
}
