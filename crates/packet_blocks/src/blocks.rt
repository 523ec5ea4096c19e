// A block of the message under a request's authenticator, put together from the parts where they lie.
ghost use Rattle.std.specs.Prelude.{◌≡◌, List, [], ◌++◌, ℕ, ◌+◌, ◌*◌, ◌<◌, ◌≤◌, length};
ghost use Rattle.md5_ops.specs.Md5.{le_bytes, padding};
ghost use Rattle.packet_auth.specs.Signing.{zeros, with_auth};
ghost use Rattle.packet_blocks.specs.Block.{block_count, request_block};
ghost use Rattle.packet_blocks.specs.Window.{window};

// Adds v to a message of which buf shows 64 bytes, those from place s on. The message had at bytes; of v, what falls into the 64 is copied.
fn lay(buf: &mut [u8; 64], s: usize, at: usize, v: &[u8])
    ensures { (m : List ℕ) → length m ≡ at → buf.old ≡ window s m → buf.new ≡ window s (m ++ v.now) }
{
    if at < s {
        octet_copies::copy(buf, 0, octet_runs::slice(v, s - at, 64));
        return;
    }
    let i = at - s;
    if 64 <= i {
        return;
    }
    octet_copies::copy(buf, i, octet_runs::slice(v, 0, 64 - i));
}

// The packet up to Length, with zeros in the authenticator's place.
fn lay_packet(buf: &mut [u8; 64], s: usize, p: &[u8], n: usize)
    requires { (20 ≤ n) × (n ≤ length p.now) }
    ensures { buf.old ≡ window s [] → buf.new ≡ window s (with_auth zeros p.now n) }
{
    let zero = [0u8; 16];
    lay(&mut *buf, s, 0, &p[..4]);
    lay(&mut *buf, s, 4, &zero);
    lay(buf, s, 20, &p[20..n]);
}

// The count of t bytes in bits, the low-order byte first.
fn count(t: usize) -> [u8; 8]
    requires { t < 8192 }
    ensures { result ≡ le_bytes 8 (t * 8) }
{
    (t * 8).to_le_bytes()
}

// The padding after a message of t bytes.
fn lay_padding(buf: &mut [u8; 64], s: usize, t: usize)
    requires { t < 8192 }
    ensures { (m : List ℕ) → length m ≡ t → buf.old ≡ window s m → buf.new ≡ window s (m ++ padding t) }
{
    let mut padding = [0u8; 64];
    padding[0] = 0x80;
    let e = (119 - t % 64) % 64 + 1;
    let bits = count(t);
    lay(&mut *buf, s, t, &padding[..e]);
    lay(buf, s, t + e, &bits);
}

// Block k of the signed request, with its padding.
#[tactic(auto, unfolding(crate::specs::Block::block_count))]
pub fn request_block(p: &[u8], n: usize, secret: &[u8], k: usize) -> [u8; 64]
    requires { (20 ≤ n) × (n ≤ length p.now) × (n ≤ 4096) × (length secret.now ≤ 64) × (k < block_count (n + length secret.now)) }
    ensures { result ≡ request_block k p.now n secret.now }
{
    let s = 64 * k;
    let t = n + secret.len();
    let mut buf = [0u8; 64];
    lay_packet(&mut buf, s, p, n);
    lay(&mut buf, s, n, secret);
    lay_padding(&mut buf, s, t);
    buf
}
