// The parts of a reply, each written after the one before; the head comes last, since it tells the length.
#![tactic(auto)]

ghost use Rattle.std.specs.Prelude.{◌≡◌, cond, ◌++◌, ◌+◌, ◌≤◌, ◌<◌, length, is_some};
ghost use Rattle.octet_numbers.specs.Runs.{write};
ghost use Rattle.attr_walk.specs.Attributes.{step_at};
ghost use Rattle.attr_walk.specs.declared.Step.TheVariants.{Found};
ghost use Rattle.packet_form.specs.Packet.{code_of};
ghost use Rattle.das_reply_parts.specs.Reply.{as_came, state_part, cause_part, proxy_part, reply_length, head_of};

use attr_survey::Survey;
use attr_types::{ERROR_CAUSE, PROXY_STATE, STATE};
use attr_walk::{Attribute, Step};
use packet_form::Packet;
use packet_write::put;
use rule_causes::Cause;

// An attribute of the area s as it came, its value as the reader hands it back.
#[tactic(auto, using(crate::proofs::Pieces::came))]
fn put_attribute(t: &mut [u8], to: usize, s: &[u8], a: Attribute) -> usize
    requires { (step_at s.now a.at ≡ Found a (a.at + a.size)) × (to + length (as_came s.now a) ≤ length t.old) }
    ensures t_after { t.new ≡ write t.old to (as_came s.now a) }
    ensures value { result ≡ to + length (as_came s.now a) }
{
    put(t, to, a.kind, a.size, attr_reader::value_at(s, a.at))
}

// The first State.
#[tactic(auto, using(crate::proofs::States::first_state))]
fn put_state(t: &mut [u8], to: usize, survey: &Survey) -> usize
    requires { to + length (state_part survey.now.area.now) ≤ length t.old }
    ensures t_after { t.new ≡ write t.old to (state_part survey.now.area.now) }
    ensures value { result ≡ to + length (state_part survey.now.area.now) }
{
    if attr_lookup::has(survey.noted, STATE) {
        let size = survey.noted[usize::from(STATE)].size;
        let at = attr_lookup::start_of(survey.noted, STATE);
        let a = Attribute {
            kind: STATE,
            at,
            size,
        };
        return put_attribute(t, to, survey.area, a);
    }
    to
}

// Error-Cause on NAK.
#[tactic(auto, using(octet_numbers::proofs::Write::write_nil), unfolding(crate::specs::Reply::cause_part, octet_numbers::specs::Numbers::be_bytes))]
fn put_cause(t: &mut [u8], to: usize, cause: Option<Cause>) -> usize
    requires { to + length (cause_part cause) ≤ length t.old }
    ensures t_after { t.new ≡ write t.old to (cause_part cause) }
    ensures value { result ≡ to + length (cause_part cause) }
{
    if let Some(c) = cause {
        let number = u32::from(c);
        return put(t, to, ERROR_CAUSE, 6, &number.to_be_bytes());
    }
    to
}

// Every Proxy-State, in order.
#[tactic(auto, using(crate::proofs::Proxies::copying))]
fn put_proxies(t: &mut [u8], from: usize, s: &[u8]) -> usize
    requires { from + length (proxy_part s.now) ≤ length t.old }
    ensures t_after { t.new ≡ write t.old from (proxy_part s.now) }
    ensures value { result ≡ from + length (proxy_part s.now) }
{
    let mut at: usize = 0;
    let mut to = from;
    // A walk goes by places and not by a count: each step tells the next.
    loop {
        match attr_walk::step_at(s, at) {
            Step::Found(a, next) => {
                if a.kind == PROXY_STATE {
                    to = put_attribute(&mut *t, to, s, a);
                }
                at = next;
            }
            Step::End | Step::Bad => return to,
        }
    }
}

// The attributes but type 80, from what a pass over those of the request told.
#[tactic(auto, using(packet_write::proofs::Writes::write_three))]
pub fn put_body(t: &mut [u8], survey: &Survey, cause: Option<Cause>) -> usize
    requires { 20 + length (state_part survey.now.area.now ++ cause_part cause ++ proxy_part survey.now.area.now) ≤ length t.old }
    ensures t_after { t.new ≡ write t.old 20 (state_part survey.now.area.now ++ cause_part cause ++ proxy_part survey.now.area.now) }
    ensures value { result ≡ 20 + length (state_part survey.now.area.now ++ cause_part cause ++ proxy_part survey.now.area.now) }
{
    let state = put_state(&mut *t, 20, survey);
    let to = put_cause(&mut *t, state, cause);
    put_proxies(t, to, survey.area)
}

// What an ACK or NAK adds to the request's code.
fn added(cause: Option<Cause>) -> u8
    ensures { result ≡ cond (is_some cause) 2 1 }
{
    if cause.is_some() {
        return 2;
    }
    1
}

// Code, identifier and Length n, and the request's authenticator.
#[tactic(auto, using(crate::proofs::Pieces::head_written))]
pub fn put_head(t: &mut [u8], packet: &Packet, cause: Option<Cause>, n: usize, auth: &[u8; 16])
    requires in_bounds { (20 ≤ length t.old) × (code_of packet.now.bytes.now < 64) }
    requires n_value { (n ≡ reply_length packet.now.bytes.now cause) × (n ≤ 4096) }
    ensures { t.new ≡ write t.old 0 (head_of packet.now.bytes.now cause ++ auth.now) }
{
    let code = packet.code() + added(cause);
    packet_write::put_front(t, code, packet.identifier(), n, auth);
}
