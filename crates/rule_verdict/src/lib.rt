// The verdict on a request before any session is looked at.
#![tactic(auto)]

ghost use Rattle.std.specs.Prelude.{◌≡◌};
ghost use Rattle.attr_survey.specs.Survey.{Flagged};
ghost use Rattle.packet_form.specs.Packet.{code_of, area_of};
ghost use Rattle.nas_settings.specs.Settings.{gate_settings};
ghost use Rattle.rule_verdict.specs.Verdict.{check_verdict};

use attr_survey::Survey;
use nas_settings::Gate;
use packet_form::Packet;
use refusals::Discard;
use rule_causes::Cause;

// Discarded, with no usable stamp; discarded by D6 for a stale stamp; NAK with a cause; passed. The last three tell the skew.
#[derive(Clone, Copy, Debug, PartialEq, Eq)]
pub enum Verdict {
    Discarded(Discard),
    Stale(i64),
    Nak(Cause, i64),
    Passed(i64),
}

impl Verdict {
    // D4 to D6 and causes 1 to 6 of a request that meets none of D1 to D3; signed says that D4 does not apply. The survey is that of its attributes.
    pub fn of(signed: bool, packet: &Packet, survey: &Survey, gate: &Gate, clock: u32) -> Verdict
        requires area_is { (survey.now.area.now ≡ area_of packet.now.bytes.now) × (survey.now.code ≡ code_of packet.now.bytes.now) }
        requires flagged { Flagged survey.now.area.now survey.now.code survey.now.flags }
        ensures { result ≡ check_verdict (gate_settings gate.now) «signed» packet.now.bytes.now clock }
    {
        if !signed {
            return Verdict::Discarded(Discard::Authenticator);
        }
        if packet_mac::bad_request_mac(packet, gate.secret, survey) {
            return Verdict::Discarded(Discard::MessageAuthenticator);
        }
        let Some(stamp) = rule_stamp::stamp_of(survey) else {
            return Verdict::Discarded(Discard::Timestamp);
        };
        let skew = rule_stamp::skew(stamp, clock);
        if rule_stamp::stale(stamp, clock) {
            return Verdict::Stale(skew);
        }
        match rule_causes::first_cause(survey, gate) {
            Some(cause) => Verdict::Nak(cause, skew),
            None => Verdict::Passed(skew),
        }
    }
}
