// The check of a reply against its request: V1 to V6, each returned as soon as it is known.
#![tactic(auto)]

ghost use Rattle.std.specs.Prelude.{◌≡◌, false, not, ◌||◌, ◌+◌, eqb, Some, None, MatchResult};
ghost use Rattle.octet_numbers.specs.Runs.{equal_bytes};
ghost use Rattle.packet_auth.specs.Signing.{authenticator};
ghost use Rattle.packet_form.specs.Packet.{length_of, auth_of, area_of};
ghost use Rattle.packet_form.specs.Discards.{form_of};
ghost use Rattle.dac_check.specs.declared.Unfit.TheVariants as U;
ghost use Rattle.dac_check.specs.ReplyCheck.{bad_reply, failure_of, check_answer};

use attr_survey::Survey;
use packet_form::Packet;
use refusals::{Mismatch, Refusal};

// Why a reply is not right.
#[derive(Clone, Copy, Debug, PartialEq, Eq)]
pub enum Unfit {
    // The call is refused: nothing was checked.
    Refused(Refusal),
    // The first check that fails.
    Mismatch(Mismatch),
}

impl From<Refusal> for Unfit {
    ghost from_gives = { λ r u. u ≡ U.Refused r };

    fn from(r: Refusal) -> Unfit {
        Unfit::Refused(r)
    }
}

impl From<Mismatch> for Unfit {
    ghost from_gives = { λ v u. u ≡ U.Mismatch v };

    fn from(v: Mismatch) -> Unfit {
        Unfit::Mismatch(v)
    }
}

// V3: the answer's code is not the request's plus 1 or 2.
fn wrong_code(code: u8, answer: u8) -> bool
    ensures { result ≡ not (eqb answer (code + 1) || eqb answer (code + 2)) }
{
    let asked = u16::from(code);
    let got = u16::from(answer);
    got != asked + 1 && got != asked + 2
}

// V4: the identifiers differ.
fn wrong_identifier(identifier: u8, answer: u8) -> bool
    ensures { result ≡ not (eqb answer identifier) }
{
    answer != identifier
}

// Whether a packet holds its authenticator, worked out over auth. The comparison takes all 16 bytes.
fn authentic(packet: &Packet, auth: &[u8; 16], secret: &[u8]) -> bool
    ensures { result ≡ equal_bytes (auth_of packet.now.bytes.now) (authenticator auth.now packet.now.bytes.now (length_of packet.now.bytes.now) secret.now) }
{
    let d = packet_auth::authenticator(packet.bytes, packet.length, auth, secret);
    octet_runs::equal16(packet.bytes, 4, &d, 0)
}

// V3 to V6: neither V1 nor V2 applies, and one pass told the rest of the reply's attributes.
#[tactic(auto, unfolding(crate::specs::ReplyCheck::failure_of, crate::specs::ReplyCheck::bad_request, crate::specs::ReplyCheck::wrong_code, crate::specs::ReplyCheck::wrong_identifier, crate::specs::ReplyCheck::wrong_authenticator))]
fn mismatch(secret: &[u8], q: &Packet, r: &Packet, survey: &Survey) -> Result<(), Mismatch>
    requires { (form_of q.now.bytes.now ≡ None) × (bad_reply r.now.bytes.now ≡ false) × (survey.now.area.now ≡ area_of r.now.bytes.now) }
    ensures { MatchResult result (λ _. failure_of secret.now q.now.bytes.now r.now.bytes.now ≡ None) (λ v. failure_of secret.now q.now.bytes.now r.now.bytes.now ≡ Some v) }
{
    if wrong_code(q.code(), r.code()) {
        return Err(Mismatch::Code);
    }
    if wrong_identifier(q.identifier(), r.identifier()) {
        return Err(Mismatch::Identifier);
    }
    let auth = q.authenticator();
    if !authentic(r, &auth, secret) {
        return Err(Mismatch::Authenticator);
    }
    if packet_mac::bad_mac(r, &auth, secret, survey) {
        return Err(Mismatch::MessageAuthenticator);
    }
    Ok(())
}

// V1 to V6, the first failure. One pass over the reply's attributes serves V2 and V6.
#[tactic(auto, unfolding(crate::specs::ReplyCheck::failure_of, crate::specs::ReplyCheck::bad_request, crate::specs::ReplyCheck::bad_reply))]
fn failure(secret: &[u8], request: &[u8], reply: &[u8]) -> Result<(), Mismatch>
    ensures { MatchResult result (λ _. failure_of secret.now request.now reply.now ≡ None) (λ v. failure_of secret.now request.now reply.now ≡ Some v) }
{
    let Ok(q) = packet_form::form(request) else {
        return Err(Mismatch::Request);
    };
    if packet_form::bad_length(reply) {
        return Err(Mismatch::Reply);
    }
    let r = Packet::sized(reply);
    let mut noted = [attr_survey::NONE; 256];
    let survey = Survey::of(r.area(), r.code(), &mut noted);
    if !survey.flags.tiled {
        return Err(Mismatch::Reply);
    }
    mismatch(secret, &q, &r, &survey)
}

// Checks a reply against its request: right, or why not.
#[tactic(auto, unfolding(crate::specs::ReplyCheck::check_answer))]
pub fn check_reply(secret: &[u8], request: &[u8], reply: &[u8]) -> Result<(), Unfit>
    ensures { result ≡ check_answer secret.now request.now reply.now }
{
    if nas_settings::bad_secret(secret) {
        return Err(Unfit::from(Refusal::SecretLength));
    }
    failure(secret, request, reply)?;
    Ok(())
}
