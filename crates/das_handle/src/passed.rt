// A rightly signed request: D5, D6 and the causes, then the sessions.
ghost use Rattle.std.specs.Prelude.{◌≡◌, true, ◌≤◌, length, None};
ghost use Rattle.packet_form.specs.Packet.{area_of};
ghost use Rattle.nas_settings.specs.Settings.{gate_settings};
ghost use Rattle.packet_form.specs.Discards.{form_of};
ghost use Rattle.rule_verdict.specs.Verdict.{check_verdict};
ghost use Rattle.das_effects.specs.Matching.{match_count};
ghost use Rattle.das_answer.specs.Commit.{count_answer};
ghost use Rattle.das_answer.specs.Replies.{reply_as};
ghost use Rattle.das_handle.specs.Handle.{answer_of, table_as};
ghost use Rattle.das_handle.specs.Passed.{Committable};

use das_answer::Answer;
use nas_settings::Gate;
use packet_form::Packet;
use packet_request::Request;

// No cause up to 6 applies: the live sessions that match are changed, or there are none.
fn matched(t: &mut [u8], reply: &mut [u8], request: &Request, secret: &[u8], skew: i64) -> Answer
    requires committable { Committable request.now.packet.bytes.now }
    requires room { 4096 ≤ length reply.old }
    ensures value { result ≡ count_answer request.now.packet.bytes.now (match_count (area_of request.now.packet.bytes.now) t.old) skew }
    ensures t_after { t.new ≡ table_as request.now.packet.bytes.now t.old result }
    ensures reply_after { reply.new ≡ reply_as secret.now request.now.packet.bytes.now reply.old result }
{
    let criteria = das_effects::criteria(request.survey.noted);
    let marks = table_match::mark_all(t, request.survey.area, &criteria);
    das_answer::commit(t, &marks, reply, request, secret, skew)
}

// D5, D6, causes 1 to 7, else ACK.
pub fn signed(t: &mut [u8], gate: &Gate, reply: &mut [u8], packet: Packet, clock: u32) -> Answer
    requires { (form_of packet.bytes.now ≡ None) × (4096 ≤ length reply.old) }
    ensures value { result ≡ answer_of packet.entry.bytes.now t.old (check_verdict (gate_settings gate.now) true packet.entry.bytes.now clock) }
    ensures t_after { t.new ≡ table_as packet.entry.bytes.now t.old result }
    ensures reply_after { reply.new ≡ reply_as gate.now.secret.now packet.entry.bytes.now reply.old result }
{
    let mut noted = [attr_survey::NONE; 256];
    let (judged, request) = das_judge::judge(true, packet, gate, clock, &mut *reply, &mut noted);
    match judged {
        Err(answer) => answer,
        Ok(skew) => matched(t, reply, &request, gate.secret, skew),
    }
}
