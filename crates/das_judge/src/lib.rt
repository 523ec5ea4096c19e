// D4 to D6 and causes 1 to 6 of a request, with the reply where one of the causes applies. It knows no job and no session.
#![tactic(auto)]

ghost use Rattle.std.specs.Prelude.{◌≡◌, ◌≤◌, length, None};
ghost use Rattle.attr_survey.specs.Survey.{Flagged};
ghost use Rattle.nas_settings.specs.Settings.{gate_settings};
ghost use Rattle.packet_form.specs.Packet.{code_of};
ghost use Rattle.packet_form.specs.Discards.{form_of};
ghost use Rattle.rule_verdict.specs.Verdict.{check_verdict};
ghost use Rattle.das_judge.specs.Judged.{judged_as, reply_judged};

use attr_survey::Noted;
use das_answer::Answer;
use nas_settings::Gate;
use packet_form::Packet;
use packet_request::Request;
use rule_verdict::Verdict;

// What the verdict on a request comes to. The reply to a NAK is written: it fits.
fn judged(
    signed: bool,
    request: &Request,
    gate: &Gate,
    clock: u32,
    reply: &mut [u8],
) -> Result<i64, Answer>
    requires code_value { request.now.survey.code ≡ code_of request.now.packet.bytes.now }
    requires flagged { Flagged request.now.survey.area.now request.now.survey.code request.now.survey.flags }
    requires room { 4096 ≤ length reply.old }
    ensures value { result ≡ judged_as request.now.packet.bytes.now (check_verdict (gate_settings gate.now) «signed» request.now.packet.bytes.now clock) }
    ensures reply_after { reply.new ≡ reply_judged gate.now.secret.now request.now.packet.bytes.now reply.old result }
{
    match Verdict::of(signed, &request.packet, &request.survey, gate, clock) {
        Verdict::Discarded(d) => Err(Answer::Discarded(d)),
        Verdict::Stale(skew) => Err(Answer::Stale(skew)),
        Verdict::Nak(cause, skew) => Err(das_answer::nak(
            reply,
            request,
            gate.secret,
            Some(cause),
            skew,
        )),
        Verdict::Passed(skew) => Ok(skew),
    }
}

// Judges a request that meets none of D1 to D3, signed saying that D4 does not apply: its skew where it passed, else its answer; and the request, with
// one pass over its attributes, whose notes stand where the caller lends an array.
#[inline(always)]
pub fn judge<'a>(
    signed: bool,
    packet: Packet<'a>,
    gate: &Gate,
    clock: u32,
    reply: &mut [u8],
    noted: &'a mut [Noted; 256],
) -> (Result<i64, Answer>, Request<'a>)
    requires { (form_of packet.bytes.now ≡ None) × (4096 ≤ length reply.old) }
    ensures value { result.0 ≡ judged_as packet.entry.bytes.now (check_verdict (gate_settings gate.now) «signed» packet.entry.bytes.now clock) }
    ensures reply_after { reply.new ≡ reply_judged gate.now.secret.now packet.entry.bytes.now reply.old result.0 }
    ensures request { result.1.packet ≡ packet.entry }
    ensures code_value { result.1.survey.code ≡ code_of packet.entry.bytes.now }
{
    let request = Request::of(packet, noted);
    let answer = judged(signed, &request, gate, clock, reply);
    (answer, request)
}
