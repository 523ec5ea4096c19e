// Exports for tests and benchmarks of the signatures and of the verdict, apart from the product's C library.
// A refused call answers 1 and writes nothing.
#![tactic(auto)]

mod verdict; // verdict.rt: the verdict on a request, in numbers

ghost use Rattle.std.specs.Prelude.{◌≡◌, ◌≤◌, length};
ghost use Rattle.packet_auth.specs.Signing.{zeros, authenticator, message_authenticator};
ghost use Rattle.probe_laws.specs.Probe.{answer, written};
ghost use Rattle.probe_packets.specs.Refused.{auth_ok, mac_ok, blocks_ok};

// The authenticator of a packet of Length n: auth is zeros for a request.
#[unsafe(no_mangle)]
#[tactic(auto, unfolding(probe_laws::specs::Probe::digest_room))]
pub extern "C" fn probe_authenticator(
    p: &[u8],
    n: usize,
    auth: &[u8],
    secret: &[u8],
    out: &mut [u8],
) -> u32
    ensures value { result ≡ answer (auth_ok n p.now auth.now out.old) }
    ensures out_after { out.new ≡ written (auth_ok n p.now auth.now out.old) (authenticator auth.now p.now n secret.now) out.old }
{
    let Ok(auth) = <[u8; 16]>::try_from(auth) else {
        return 1;
    };
    if out.len() != 16 || n < 20 || p.len() < n {
        return 1;
    }
    let d = packet_auth::authenticator(p, n, &auth, secret);
    out.copy_from_slice(&d);
    0
}

// The Message-Authenticator whose value stands at place at.
#[unsafe(no_mangle)]
#[tactic(auto, unfolding(probe_laws::specs::Probe::digest_room))]
pub extern "C" fn probe_mac(
    p: &[u8],
    n: usize,
    auth: &[u8],
    at: usize,
    secret: &[u8],
    out: &mut [u8],
) -> u32
    ensures value { result ≡ answer (mac_ok n at p.now auth.now out.old) }
    ensures out_after { out.new ≡ written (mac_ok n at p.now auth.now out.old) (message_authenticator auth.now p.now n at secret.now) out.old }
{
    let Ok(auth) = <[u8; 16]>::try_from(auth) else {
        return 1;
    };
    if out.len() != 16 || at < 20 || n < 16 || n - 16 < at || p.len() < n {
        return 1;
    }
    let d = packet_mac::message_authenticator(p, n, &auth, at, secret);
    out.copy_from_slice(&d);
    0
}

// The authenticator of a request from the words after each of its blocks.
#[tactic(auto, using(packet_blocks::proofs::Stepwise::blocks_none))]
fn by_blocks(p: &[u8], n: usize, secret: &[u8]) -> [u8; 16]
    requires { (20 ≤ n) × (n ≤ length p.now) × (n ≤ 4096) × (length secret.now ≤ 64) }
    ensures { result ≡ authenticator zeros p.now n secret.now }
{
    let mut q = md5_ops::initial();
    for k in 0..packet_blocks::block_count(n + secret.len()) {
        q = packet_blocks::hash_block(q, p, n, secret, k);
    }
    md5_padding::bytes_of(q)
}

// The authenticator of a request of Length n, worked out block by block.
#[unsafe(no_mangle)]
#[tactic(auto, unfolding(probe_laws::specs::Probe::digest_room))]
pub extern "C" fn probe_blocks(p: &[u8], n: usize, secret: &[u8], out: &mut [u8]) -> u32
    ensures value { result ≡ answer (blocks_ok n p.now secret.now out.old) }
    ensures out_after { out.new ≡ written (blocks_ok n p.now secret.now out.old) (authenticator zeros p.now n secret.now) out.old }
{
    if out.len() != 16 || !(20..=4096).contains(&n) || p.len() < n || 64 < secret.len() {
        return 1;
    }
    let d = by_blocks(p, n, secret);
    out.copy_from_slice(&d);
    0
}
