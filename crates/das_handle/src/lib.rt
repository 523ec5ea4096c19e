// A whole request: refused, discarded, or answered.
#![tactic(auto)]

mod passed; // passed.rt: what follows D1 to D4

ghost use Rattle.std.specs.Prelude.{◌≡◌, ◌≤◌, length};
ghost use Rattle.nas_settings.specs.Settings.{gate_settings};
ghost use Rattle.rule_verdict.specs.Discards.{signed_by};
ghost use Rattle.rule_verdict.specs.Verdict.{verdict_of};
ghost use Rattle.das_answer.specs.Replies.{reply_as};
ghost use Rattle.das_handle.specs.Refusals.{refusal_of};
ghost use Rattle.das_handle.specs.Handle.{answer_of, table_as, handle_answer, handle_table, handle_reply};

use das_answer::Answer;
use nas_settings::Gate;
use refusals::{Discard, Refusal};

// R1 to R4, the lowest that applies.
fn refusal(t: &[u8], gate: &Gate, reply: &[u8]) -> Option<Refusal>
    ensures { result ≡ refusal_of (gate_settings gate.now) t.now reply.now }
{
    if table_slots::slot_count(t) == 0 {
        return Some(Refusal::TableLength);
    }
    if nas_settings::bad_secret(gate.secret) {
        return Some(Refusal::SecretLength);
    }
    if nas_settings::bad_nas_id(gate.nas_id) {
        return Some(Refusal::NasIdentifierLength);
    }
    if reply.len() < 4096 {
        return Some(Refusal::OutputRoom);
    }
    None
}

// D1 to D6 and causes 1 to 7 of a request, else its ACK; no refusal applies.
fn judged(t: &mut [u8], gate: &Gate, reply: &mut [u8], p: &[u8], clock: u32) -> Answer
    requires { 4096 ≤ length reply.old }
    ensures value { result ≡ answer_of p.now t.old (verdict_of (gate_settings gate.now) (signed_by gate.now.secret.now p.now) p.now clock) }
    ensures t_after { t.new ≡ table_as p.now t.old result }
    ensures reply_after { reply.new ≡ reply_as gate.now.secret.now p.now reply.old result }
{
    match packet_form::form(p) {
        Err(d) => Answer::Discarded(d),
        Ok(packet) => {
            if packet_auth::request_signed(packet.bytes, packet.length, gate.secret) {
                return passed::signed(t, gate, reply, packet, clock);
            }
            Answer::Discarded(Discard::Authenticator)
        }
    }
}

// Handles the request p: the answer, the table and the reply buffer after it.
pub fn handle(t: &mut [u8], gate: &Gate, reply: &mut [u8], p: &[u8], clock: u32) -> Answer
    ensures value { result ≡ handle_answer (gate_settings gate.now) t.old reply.old p.now clock }
    ensures t_after { t.new ≡ handle_table (gate_settings gate.now) t.old reply.old p.now clock }
    ensures reply_after { reply.new ≡ handle_reply (gate_settings gate.now) t.old reply.old p.now clock }
{
    if let Some(r) = refusal(t, gate, reply) {
        return Answer::Refused(r);
    }
    judged(t, gate, reply, p, clock)
}
