// MD5 (RFC 1321) by blocks of 64 bytes.
#![tactic(auto)]

ghost use Rattle.std.specs.Prelude.{◌≡◌, ◌/◌, length};
ghost use Rattle.md5_ops.specs.Md5.{initial, add_state, md5_block, after};
ghost use Rattle.md5_ops.specs.Steps.{InPlace};

use md5_ops::State;

// Each word of p plus that of q. Not an impl of `Add`: by `+` a reader would not see that each sum is modulo 2^32.
fn add_state(p: State, q: State) -> State
    ensures { result ≡ add_state p q }
{
    State {
        a: p.a.wrapping_add(q.a),
        b: p.b.wrapping_add(q.b),
        c: p.c.wrapping_add(q.c),
        d: p.d.wrapping_add(q.d),
    }
}

// The words after one block, a slice of the message; t has the constants, w is lent for the sums.
fn block(q: State, w: &mut [u32; 64], t: &[u32; 64], m: &[u8]) -> State
    requires { (length m.now ≡ 64) × InPlace t.now }
    ensures { result ≡ md5_block q m.now }
{
    let x = md5_ops::sums::words(m);
    md5_ops::sums::put(&mut *w, t, &x);
    let r = md5_ops::rounds::all(q, &*w);
    add_state(q, r)
}

// The words after the whole blocks of m; w is lent for the sums of a block. This has two callers, so the compiler keeps it a function of its own and
// the sums in memory, where they are made four at a time before the rounds. Inlined, it would add each constant last, and every operation waits for it.
fn hash(q: State, w: &mut [u32; 64], m: &[u8]) -> State
    ensures { result ≡ after q (length m.now / 64) m.now }
{
    let t = md5_ops::sums::constants();
    let mut r = q;
    for k in 0..m.len() / 64 {
        r = block(r, &mut *w, &t, &m[64 * k..64 * k + 64]);
    }
    r
}

// The words after the whole blocks of m; bytes after the last whole block are not looked at. Where there is no block no memory is set up.
pub fn blocks(q: State, m: &[u8]) -> State
    ensures { result ≡ after q (length m.now / 64) m.now }
{
    if m.len() < 64 {
        return q;
    }
    let mut w = [0u32; 64];
    hash(q, &mut w, m)
}

// The same, from the initial words on.
pub fn first(m: &[u8]) -> State
    ensures { result ≡ after initial (length m.now / 64) m.now }
{
    let mut w = [0u32; 64];
    hash(md5_ops::initial(), &mut w, m)
}
