// Exports for tests and benchmarks, apart from the product's C library. Each answers 0, or 1 where it refuses and writes nothing.
#![tactic(auto)]

mod bytes;
mod numbers;

ghost use Rattle.std.specs.Prelude.{◌≡◌, ◌≤◌, length};
ghost use Rattle.md5_ops.specs.Md5.{md5};
ghost use Rattle.md5_hmac.specs.Hmac.{hmac};
ghost use Rattle.probe_laws.specs.Probe.{answer, written, digest_room, cut_ok};

// MD5 of a message in one piece.
#[unsafe(no_mangle)]
pub extern "C" fn probe_md5(m: &[u8], out: &mut [u8]) -> u32
    ensures value { result ≡ answer (digest_room out.old) }
    ensures out_after { out.new ≡ written (digest_room out.old) (md5 m.now) out.old }
{
    if out.len() != 16 {
        return 1;
    }
    let d = md5_digest::of(m);
    octet_copies::copy(out, 0, &d);
    0
}

// HMAC-MD5 of a message in one piece.
#[unsafe(no_mangle)]
pub extern "C" fn probe_hmac(key: &[u8], m: &[u8], out: &mut [u8]) -> u32
    ensures value { result ≡ answer (digest_room out.old) }
    ensures out_after { out.new ≡ written (digest_room out.old) (hmac key.now m.now) out.old }
{
    if out.len() != 16 {
        return 1;
    }
    let d = md5_hmac::of(key, m);
    octet_copies::copy(out, 0, &d);
    0
}

// MD5 of a message in three pieces.
fn md5_cut(m: &[u8], a: usize, b: usize) -> [u8; 16]
    requires { (a ≤ b) × (b ≤ length m.now) }
    ensures { result ≡ md5 m.now }
{
    let mut buf = [0u8; 64];
    let q = md5_digest::update(&mut buf, md5_ops::initial(), 0, &m[..a]);
    let q = md5_digest::update(&mut buf, q, a, &m[a..b]);
    let q = md5_digest::update(&mut buf, q, b, &m[b..]);
    md5_digest::finish(&mut buf, q, m.len())
}

// HMAC-MD5 of a message in three pieces.
fn hmac_cut(key: &[u8], m: &[u8], a: usize, b: usize) -> [u8; 16]
    requires { (a ≤ b) × (b ≤ length m.now) }
    ensures { result ≡ hmac key.now m.now }
{
    let held = 64 + m.len();
    let mut buf = [0u8; 64];
    let q = md5_digest::update(&mut buf, md5_hmac::start(key), 64, &m[..a]);
    let q = md5_digest::update(&mut buf, q, 64 + a, &m[a..b]);
    let q = md5_digest::update(&mut buf, q, 64 + b, &m[b..]);
    md5_hmac::finish(&mut buf, q, held, key)
}

// MD5 of a message handed over as m[..a], m[a..b], m[b..].
#[unsafe(no_mangle)]
pub extern "C" fn probe_md5_cut(m: &[u8], a: usize, b: usize, out: &mut [u8]) -> u32
    ensures value { result ≡ answer (cut_ok a b m.now out.old) }
    ensures out_after { out.new ≡ written (cut_ok a b m.now out.old) (md5 m.now) out.old }
{
    if out.len() != 16 {
        return 1;
    }
    if b < a {
        return 1;
    }
    if m.len() < b {
        return 1;
    }
    let d = md5_cut(m, a, b);
    octet_copies::copy(out, 0, &d);
    0
}

// HMAC-MD5 of a message handed over as m[..a], m[a..b], m[b..].
#[unsafe(no_mangle)]
pub extern "C" fn probe_hmac_cut(key: &[u8], m: &[u8], a: usize, b: usize, out: &mut [u8]) -> u32
    ensures value { result ≡ answer (cut_ok a b m.now out.old) }
    ensures out_after { out.new ≡ written (cut_ok a b m.now out.old) (hmac key.now m.now) out.old }
{
    if out.len() != 16 {
        return 1;
    }
    if b < a {
        return 1;
    }
    if m.len() < b {
        return 1;
    }
    let d = hmac_cut(key, m, a, b);
    octet_copies::copy(out, 0, &d);
    0
}
