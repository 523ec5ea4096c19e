// What a packet is made of, and whether it has the form of a request: D1 to D3.
#![tactic(auto)]

mod packet; // packet.rt: a packet where it lies, and its parts

ghost use Rattle.std.specs.Prelude.{◌≡◌, ◌||◌, eqb, Some, None, MatchResult};
ghost use Rattle.packet_form.specs.Discards.{bad_length, form_of};

pub use packet::Packet;
use refusals::Discard;

// Disconnect-Request or CoA-Request.
fn request_code(code: u8) -> bool
    ensures { result ≡ (eqb code 40 || eqb code 43) }
{
    code == 40 || code == 43
}

// D1: fewer than 20 bytes given; Length below 20, above 4,096 or above the bytes given.
pub fn bad_length(p: &[u8]) -> bool
    ensures { result ≡ bad_length p.now }
{
    if p.len() < 20 {
        return true;
    }
    let n = usize::from(octet_numbers::be16(p, 2));
    if n < 20 {
        return true;
    }
    if 4096 < n {
        return true;
    }
    p.len() < n
}

// The packet that the bytes p begin with; or D1, D2 or D3, the first that applies.
pub fn form(p: &[u8]) -> Result<Packet<'_>, Discard>
    ensures { MatchResult result (λ packet. (form_of p.now ≡ None) × (packet.bytes.now ≡ p.now)) (λ d. form_of p.now ≡ Some d) }
{
    if bad_length(p) {
        return Err(Discard::Length);
    }
    let packet = Packet::sized(p);
    if !request_code(p[0]) {
        return Err(Discard::Code);
    }
    if attr_walk::tiles(packet.area()) {
        return Ok(packet);
    }
    Err(Discard::Attributes)
}
