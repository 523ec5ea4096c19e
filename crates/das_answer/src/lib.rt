// The answers to a request, and the last move of one that meets no rule before cause 7.
#![tactic(auto)]

ghost use Rattle.std.specs.Prelude.{◌≡◌, false, ◌≤◌, length, Some, None};
ghost use Rattle.octet_numbers.specs.Runs.{write};
ghost use Rattle.attr_walk.specs.Attributes.{attributes, any};
ghost use Rattle.attr_types.specs.Types.{misfitting};
ghost use Rattle.rule_causes.specs.declared.cause.Cause.TheVariants.{SessionNotFound};
ghost use Rattle.packet_form.specs.Packet.{area_of};
ghost use Rattle.das_reply_parts.specs.Reply.{reply_length, reply_of};
ghost use Rattle.das_answer.specs.Replies.{reply_as, nak_as};
ghost use Rattle.das_answer.specs.Commit.{commit_answer, commit_table};

use packet_request::Request;
use refusals::{Discard, Refusal};
use rule_causes::Cause;

// Refused; discarded, with no usable stamp; discarded by D6 for a stale stamp, with its skew; NAK with cause, skew and the reply's length;
// ACK with the number of sessions changed, skew and the reply's length.
#[derive(Clone, Copy, Debug, PartialEq, Eq)]
pub enum Answer {
    Refused(Refusal),
    Discarded(Discard),
    Stale(i64),
    Nak(Cause, i64, usize),
    Ack(usize, i64, usize),
}

// A NAK: its reply is written. Without a cause the reply has no Error-Cause and is an ACK's.
pub fn nak(
    reply: &mut [u8],
    request: &Request,
    secret: &[u8],
    cause: Option<Cause>,
    skew: i64,
) -> Answer
    requires { (reply_length request.now.packet.bytes.now cause ≤ 4096) × (4096 ≤ length reply.old) }
    ensures value { result ≡ nak_as cause skew (reply_length request.now.packet.bytes.now cause) }
    ensures reply_after { reply.new ≡ write reply.old 0 (reply_of secret.now request.now.packet.bytes.now cause) }
{
    let size = das_reply::write_reply(reply, request, secret, cause);
    match cause {
        Some(cause) => Answer::Nak(cause, skew, size),
        None => Answer::Ack(0, skew, size),
    }
}

// Cause 7 where no marked session is live, else all of them changed and an ACK.
pub fn commit(
    t: &mut [u8],
    marks: &[u8; 64],
    reply: &mut [u8],
    request: &Request,
    secret: &[u8],
    skew: i64,
) -> Answer
    requires fits { any misfitting (attributes (area_of request.now.packet.bytes.now)) ≡ false }
    requires short { (reply_length request.now.packet.bytes.now (Some SessionNotFound) ≤ 4096) × (reply_length request.now.packet.bytes.now None ≤ 4096) }
    requires room { 4096 ≤ length reply.old }
    ensures value { result ≡ commit_answer request.now.packet.bytes.now marks.now t.old skew }
    ensures t_after { t.new ≡ commit_table request.now.packet.bytes.now marks.now t.old }
    ensures reply_after { reply.new ≡ reply_as secret.now request.now.packet.bytes.now reply.old (commit_answer request.now.packet.bytes.now marks.now t.old skew) }
{
    let change = das_effects::change(request.packet.code(), &request.survey);
    let changed = table_change::change_marked(t, request.survey.area, marks, change);
    if changed == 0 {
        return nak(reply, request, secret, Some(Cause::SessionNotFound), skew);
    }
    let size = das_reply::write_reply(reply, request, secret, None);
    Answer::Ack(changed, skew, size)
}
