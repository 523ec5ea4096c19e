// The verdict on a request before any session is looked at, in numbers.
ghost use Rattle.std.specs.Prelude.{◌≡◌, pos, MatchOption};
ghost use Rattle.nas_settings.specs.Settings.{settings, gate_settings};
ghost use Rattle.probe_packets.specs.Told.{verdict, number_of, skew_of, stamped_of};

use nas_settings::Gate;
use packet_request::Request;
use refusals::Discard;
use rule_verdict::Verdict;

// D1 to D6 and causes 1 to 6 of a packet, as `das_handle::handle` asks for them before any session.
#[tactic(auto, unfolding(crate::specs::Told::verdict, rule_verdict::specs::Verdict::verdict_of, rule_verdict::specs::Verdict::check_verdict, rule_verdict::specs::Discards::signed_by))]
fn judge(p: &[u8], gate: &Gate, clock: u32) -> Verdict
    ensures { result ≡ verdict (gate_settings gate.now) p.now clock }
{
    match packet_form::form(p) {
        Err(d) => Verdict::Discarded(d),
        Ok(packet) => {
            if !packet_auth::request_signed(packet.bytes, packet.length, gate.secret) {
                return Verdict::Discarded(Discard::Authenticator);
            }
            let mut noted = [attr_survey::NONE; 256];
            let request = Request::of(packet, &mut noted);
            Verdict::of(true, &request.packet, &request.survey, gate, clock)
        }
    }
}

// 0 passed, 100 + n discarded by Dn, else the NAK's cause.
#[tactic(auto, unfolding(crate::specs::Told::number_of))]
fn number_of(v: Verdict) -> u32
    ensures { result ≡ number_of v }
{
    match v {
        Verdict::Discarded(d) => 100 + u32::from(d),
        Verdict::Stale(_) => 106,
        Verdict::Nak(cause, _) => u32::from(cause),
        Verdict::Passed(_) => 0,
    }
}

// The skew, where a stamp is usable.
#[tactic(auto, unfolding(crate::specs::Told::skew_of, crate::specs::Told::stamped_of))]
fn skew_of(v: Verdict) -> Option<i64>
    ensures { MatchOption result ((skew_of v ≡ pos 0) × (stamped_of v ≡ 0)) (λ k. (skew_of v ≡ k) × (stamped_of v ≡ 1)) }
{
    match v {
        Verdict::Discarded(_) => None,
        Verdict::Stale(k) | Verdict::Nak(_, k) | Verdict::Passed(k) => Some(k),
    }
}

// The verdict on a packet: its number, its skew, and whether there is one.
#[unsafe(no_mangle)]
pub extern "C" fn probe_verdict(
    p: &[u8],
    secret: &[u8],
    nas_ip: u32,
    nas_id: &[u8],
    clock: u32,
    skew: &mut i64,
    stamped: &mut u32,
) -> u32
    ensures value { result ≡ number_of (verdict (settings secret.now nas_ip nas_id.now) p.now clock) }
    ensures skew_after { skew.new ≡ skew_of (verdict (settings secret.now nas_ip nas_id.now) p.now clock) }
    ensures stamped_after { stamped.new ≡ stamped_of (verdict (settings secret.now nas_ip nas_id.now) p.now clock) }
{
    let gate = Gate {
        secret,
        nas_ip,
        nas_id,
    };
    let v = judge(p, &gate, clock);
    let usable = skew_of(v);
    *skew = usable.unwrap_or(0);
    *stamped = u32::from(usable.is_some());
    number_of(v)
}
