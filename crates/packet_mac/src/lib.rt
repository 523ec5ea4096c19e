// The Message-Authenticator of a packet; D5 is that of a request. p is the packet, n its Length, bytes after Length are not looked at.
#![tactic(auto)]

ghost use Rattle.std.specs.Prelude.{◌≡◌, ◌+◌, ◌≤◌, length};
ghost use Rattle.octet_numbers.specs.Runs.{part, equal_bytes};
ghost use Rattle.packet_form.specs.Packet.{area_of};
ghost use Rattle.packet_auth.specs.Signing.{zeros, message_authenticator};
ghost use Rattle.packet_mac.specs.Discards.{bad_mac};

use attr_survey::Survey;
use attr_types::MESSAGE_AUTHENTICATOR;
use packet_form::Packet;

// The Message-Authenticator whose value stands at place at: auth is zeros for a request, the request's authenticator for a reply.
pub fn message_authenticator(
    p: &[u8],
    n: usize,
    auth: &[u8; 16],
    at: usize,
    secret: &[u8],
) -> [u8; 16]
    requires { (20 ≤ at) × (at + 16 ≤ n) × (n ≤ length p.now) }
    ensures { result ≡ message_authenticator auth.now p.now n at secret.now }
{
    let held = n + 64;
    let zero = [0u8; 16];
    let mut buf = [0u8; 64];
    packet_auth::front(&mut buf, p, auth);
    let q = md5_digest::update(&mut buf, md5_hmac::start(secret), 84, &p[20..at]);
    let q = md5_digest::update(&mut buf, q, at + 64, &zero);
    let q = md5_digest::update(&mut buf, q, at + 80, &p[at + 16..n]);
    md5_hmac::finish(&mut buf, q, held, secret)
}

// Whether the value at place at is the packet's Message-Authenticator (D5).
pub fn mac_right(p: &[u8], n: usize, auth: &[u8; 16], at: usize, secret: &[u8]) -> bool
    requires { (20 ≤ at) × (at + 16 ≤ n) × (n ≤ length p.now) }
    ensures { result ≡ equal_bytes (part at 16 p.now) (message_authenticator auth.now p.now n at secret.now) }
{
    let d = message_authenticator(p, n, auth, at, secret);
    octet_runs::equal16(p, at, &d, 0)
}

// Type 80 more than once, not of length 18, or wrong, with auth in the authenticator's place; the survey is that of the packet's attributes.
pub fn bad_mac(packet: &Packet, auth: &[u8; 16], secret: &[u8], survey: &Survey) -> bool
    requires { survey.now.area.now ≡ area_of packet.now.bytes.now }
    ensures { result ≡ bad_mac auth.now secret.now packet.now.bytes.now }
{
    let first = survey.noted[usize::from(MESSAGE_AUTHENTICATOR)];
    if first.number == 0 {
        return false;
    }
    if first.number != 1 {
        return true;
    }
    if first.size != 18 {
        return true;
    }
    let at = usize::from(first.end) + 4;
    !mac_right(packet.bytes, packet.length, auth, at, secret)
}

// D5.
pub fn bad_request_mac(packet: &Packet, secret: &[u8], survey: &Survey) -> bool
    requires { survey.now.area.now ≡ area_of packet.now.bytes.now }
    ensures { result ≡ bad_mac zeros secret.now packet.now.bytes.now }
{
    let zeros = [0u8; 16];
    bad_mac(packet, &zeros, secret, survey)
}
