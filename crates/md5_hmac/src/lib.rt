// HMAC-MD5 (RFC 2104) of a message that is handed over in pieces, for a key of any length.
#![tactic(auto)]

ghost use Rattle.std.specs.Prelude.{◌≡◌, List, ◌++◌, ℕ, ◌≤◌, length};
ghost use Rattle.md5_ops.specs.Md5.{after, initial};
ghost use Rattle.md5_digest.specs.Held.{Held};
ghost use Rattle.md5_hmac.specs.Hmac.{short_key, key_pad, inner_pad, hmac};

use md5_ops::State;

// The key as a block, each byte with the pad byte c.
fn key_block(key: &[u8], c: u8) -> [u8; 64]
    requires { length key.now ≤ 64 }
    ensures { result ≡ key_pad c key.now }
{
    let mut r = [c; 64];
    for (i, x) in key.iter().enumerate() {
        r[i] = *x ^ c;
    }
    r
}

// The words after the block of a key that is not too long.
fn keyed_short(key: &[u8], c: u8) -> State
    requires { length key.now ≤ 64 }
    ensures { result ≡ after initial 1 (key_pad c key.now) }
{
    let b = key_block(key, c);
    md5_blocks::first(&b)
}

// The words after the key's block.
fn keyed(key: &[u8], c: u8) -> State
    ensures { result ≡ after initial 1 (key_pad c (short_key key.now)) }
{
    if 64 < key.len() {
        let k = md5_digest::of(key);
        return keyed_short(&k, c);
    }
    keyed_short(key, c)
}

// Before the first piece. The key's block counts: 64 bytes are held.
pub fn start(key: &[u8]) -> State
    ensures { (buf : List ℕ) → Held 64 (inner_pad key.now) result buf }
{
    keyed(key, 0x36)
}

// After the last piece. n bytes are held, the key's block among them.
pub fn finish(buf: &mut [u8; 64], q: State, n: usize, key: &[u8]) -> [u8; 16]
    ensures { (m : List ℕ) → Held n (inner_pad key.now ++ m) q buf.old → result ≡ hmac key.now m }
{
    let inner = md5_digest::finish(&mut *buf, q, n);
    let r = md5_digest::update(&mut *buf, keyed(key, 0x5c), 64, &inner);
    md5_digest::finish(buf, r, 80)
}

// The HMAC of a message that lies in one piece.
pub fn of(key: &[u8], s: &[u8]) -> [u8; 16]
    ensures { result ≡ hmac key.now s.now }
{
    let mut buf = [0u8; 64];
    let q = md5_digest::update(&mut buf, start(key), 64, s);
    finish(&mut buf, q, 64 + s.len(), key)
}
