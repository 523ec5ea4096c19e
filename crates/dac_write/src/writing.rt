// A request as it is written: why it is refused, and its bytes.
ghost use Rattle.std.specs.Prelude.{◌≡◌, false, cond, not, ◌||◌, ℕ, ◌+◌, ◌≤◌, eqb, length, Some, None, MatchResult};
ghost use Rattle.octet_numbers.specs.Runs.{write};
ghost use Rattle.attr_walk.specs.Attributes.{attributes, tiled, any, kind_is};
ghost use Rattle.packet_auth.specs.Signing.{zeros, authenticator};
ghost use Rattle.packet_write.specs.Rooms.{mac_room, with_mac};
ghost use Rattle.dac_write.specs.Writer.{draft, bad_given, write_refusal, request_length, request_of};

use refusals::Refusal;

// R12's codes: Disconnect-Request or CoA-Request.
fn request_code(code: u32) -> bool
    ensures { result ≡ eqb code 40 || eqb code 43 }
{
    code == 40 || code == 43
}

// R13's most bytes: type 80 takes 18 of 4,076.
fn most(add: bool) -> usize
    ensures { result ≡ cond «add» 4058 4076 }
{
    if add { 4058 } else { 4076 }
}

// R13's first two parts, in one pass: the attributes do not fill the area, or one is of type 80.
fn unfit(s: &[u8]) -> bool
    ensures { result ≡ not (tiled s.now) || any (kind_is 80) (attributes s.now) }
{
    let mut at = 0;
    // A walk goes by places and not by a count: each step tells the next.
    loop {
        match attr_walk::step_at(s, at) {
            attr_walk::Step::Found(a, next) => {
                if a.kind == attr_types::MESSAGE_AUTHENTICATOR {
                    return true;
                }
                at = next;
            }
            attr_walk::Step::End => return false,
            attr_walk::Step::Bad => return true,
        }
    }
}

// R13. Code and identifier do not matter to it.
#[tactic(auto, unfolding(crate::specs::Writer::bad_given))]
fn bad_given(given: &[u8], add: bool) -> bool
    ensures { (code identifier : ℕ) → result ≡ bad_given (draft code identifier given.now «add») }
{
    most(add) < given.len() || unfit(given)
}

// R2, R4, R12 or R13, the lowest that applies. The identifier does not matter to them.
#[tactic(auto, unfolding(crate::specs::Writer::write_refusal))]
pub fn refusal(code: u32, given: &[u8], add: bool, secret: &[u8], out: &[u8]) -> Result<(), Refusal>
    ensures { (identifier : ℕ) → MatchResult result (λ _. write_refusal secret.now out.now (draft code identifier given.now «add») ≡ None) (λ r. write_refusal secret.now out.now (draft code identifier given.now «add») ≡ Some r) }
{
    if nas_settings::bad_secret(secret) {
        return Err(Refusal::SecretLength);
    }
    if out.len() < 4096 {
        return Err(Refusal::OutputRoom);
    }
    if !request_code(code) {
        return Err(Refusal::RequestCode);
    }
    if bad_given(given, add) {
        return Err(Refusal::GivenAttributes);
    }
    Ok(())
}

// The signatures of a request of Length n, over zeros: the Message-Authenticator first.
fn put_seals(out: &mut [u8], n: usize, add: bool, secret: &[u8])
    requires { (20 + length (mac_room «add») ≤ n) × (n ≤ length out.old) }
    ensures { out.new ≡ write (with_mac «add» zeros out.old n secret.now) 4 (authenticator zeros (with_mac «add» zeros out.old n secret.now) n secret.now) }
{
    let zero = [0u8; 16];
    packet_write::seal::put_seals(out, n, &zero, secret, add);
}

// Writes a request that is not refused, and returns its length.
pub fn put_request(
    code: u8,
    identifier: u8,
    given: &[u8],
    add: bool,
    secret: &[u8],
    out: &mut [u8],
) -> usize
    requires { (bad_given (draft code identifier given.now «add») ≡ false) × (4096 ≤ length out.old) }
    ensures out_after { out.new ≡ write out.old 0 (request_of secret.now (draft code identifier given.now «add»)) }
    ensures value { result ≡ request_length (draft code identifier given.now «add») }
{
    let zero = [0u8; 16];
    octet_copies::copy(&mut *out, 20, given);
    let e = packet_write::put_room(&mut *out, 20 + given.len(), add);
    packet_write::put_front(&mut *out, code, identifier, e, &zero);
    put_seals(out, e, add, secret);
    e
}
