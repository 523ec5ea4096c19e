// The authenticators of a packet where it lies: p is the packet, n its Length, bytes after Length are not looked at.
#![tactic(auto)]

ghost use Rattle.std.specs.Prelude.{◌≡◌, ◌++◌, ◌≤◌, length, take};
ghost use Rattle.octet_numbers.specs.Runs.{part, write, equal_bytes};
ghost use Rattle.packet_auth.specs.Signing.{zeros, authenticator};

// What comes before the attributes, with auth in the authenticator's place, at the start of a block.
pub fn front(buf: &mut [u8; 64], p: &[u8], auth: &[u8; 16])
    requires { 20 ≤ length p.now }
    ensures { buf.new ≡ write buf.old 0 (take 4 p.now ++ auth.now) }
{
    octet_copies::copy(&mut *buf, 0, &p[..4]);
    octet_copies::copy(buf, 4, auth);
}

// The authenticator of a packet: auth is the request's authenticator for a reply.
pub fn authenticator(p: &[u8], n: usize, auth: &[u8; 16], secret: &[u8]) -> [u8; 16]
    requires { (20 ≤ n) × (n ≤ length p.now) }
    ensures { result ≡ authenticator auth.now p.now n secret.now }
{
    let mut buf = [0u8; 64];
    front(&mut buf, p, auth);
    let q = md5_digest::update(&mut buf, md5_ops::initial(), 20, &p[20..n]);
    let q = md5_digest::update(&mut buf, q, n, secret);
    md5_digest::finish(&mut buf, q, n + secret.len())
}

// The authenticator of a request: zeros stand for it.
#[tactic(auto, unfolding(crate::specs::Signing::zeros))]
pub fn request_authenticator(p: &[u8], n: usize, secret: &[u8]) -> [u8; 16]
    requires { (20 ≤ n) × (n ≤ length p.now) }
    ensures { result ≡ authenticator zeros p.now n secret.now }
{
    let zeros = [0u8; 16];
    authenticator(p, n, &zeros, secret)
}

// Whether a request holds its authenticator (D4).
pub fn request_signed(p: &[u8], n: usize, secret: &[u8]) -> bool
    requires { (20 ≤ n) × (n ≤ length p.now) }
    ensures { result ≡ equal_bytes (part 4 16 p.now) (authenticator zeros p.now n secret.now) }
{
    let d = request_authenticator(p, n, secret);
    octet_runs::equal16(p, 4, &d, 0)
}
