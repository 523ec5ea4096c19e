// The reply to a request, written whole; laws on it: it is never longer than the request, and read back it is what its definition says.
#![tactic(auto)]

ghost use Rattle.std.specs.Prelude.{◌≡◌, ◌≤◌, length};
ghost use Rattle.octet_numbers.specs.Runs.{write};
ghost use Rattle.das_reply_parts.specs.Reply.{reply_length, reply_of};

use attr_types::MESSAGE_AUTHENTICATOR;
use packet_request::Request;
use rule_causes::Cause;

// Writes the reply to a request, and returns its length.
#[tactic(auto, using(crate::proofs::Replying::replying))]
pub fn write_reply(
    reply: &mut [u8],
    request: &Request,
    secret: &[u8],
    cause: Option<Cause>,
) -> usize
    requires { (reply_length request.now.packet.bytes.now cause ≤ 4096) × (4096 ≤ length reply.old) }
    ensures reply_after { reply.new ≡ write reply.old 0 (reply_of secret.now request.now.packet.bytes.now cause) }
    ensures value { result ≡ reply_length request.now.packet.bytes.now cause }
{
    let auth = request.packet.authenticator();
    let present = attr_lookup::has(request.survey.noted, MESSAGE_AUTHENTICATOR);
    let body = das_reply_parts::put_body(&mut *reply, &request.survey, cause);
    let e = packet_write::put_room(&mut *reply, body, present);
    das_reply_parts::put_head(&mut *reply, &request.packet, cause, e, &auth);
    packet_write::seal::put_seals(reply, e, &auth, secret, present);
    e
}
