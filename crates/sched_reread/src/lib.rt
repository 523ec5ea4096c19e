// A job's part of the store, read again before Check, Match and Commit.
#![tactic(auto)]

pub mod check; // check.rt: Check
mod shown; // shown.rt: the request that the store still shows

ghost use Rattle.std.specs.Prelude.{◌≡◌, true, false, not, ◌&&◌, eqb, List, ℕ, is_none, None, MatchOption};
ghost use Rattle.attr_walk.specs.Attributes.{attributes, any};
ghost use Rattle.attr_survey.specs.Survey.{Flagged};
ghost use Rattle.attr_survey.specs.Noted.{noted_at, seen_at};
ghost use Rattle.nas_settings.specs.Settings.{settings};
ghost use Rattle.rule_causes.specs.Causes.{cause_of};
ghost use Rattle.packet_form.specs.Packet.{code_of};
ghost use Rattle.packet_form.specs.Discards.{form_of};
ghost use Rattle.sched_reread.specs.Reread.{holds, odd_mac, holds_passed};

use attr_survey::{Noted, Survey};
use attr_types::MESSAGE_AUTHENTICATOR;
use nas_settings::Gate;
use packet_form::Packet;
use packet_request::Request;
pub use shown::Shown;

// The packet that the store shows, where none of D1 to D3 applies and Length is the kept one.
pub fn held(n: usize, q: &[u8]) -> Option<Packet<'_>>
    ensures { MatchOption result (holds n q.now ≡ false) (λ packet. (packet.bytes.now ≡ q.now) × (form_of q.now ≡ None) × (holds n q.now ≡ true)) }
{
    let Ok(packet) = packet_form::form(q) else {
        return None;
    };
    if packet.length == n {
        return Some(packet);
    }
    None
}

// The first type 80, if any, has length 18.
fn plain_mac(survey: &Survey) -> bool
    ensures { result ≡ not (seen_at survey.now.noted.now 80 && not (eqb (noted_at survey.now.noted.now 80).size 18)) }
{
    // A constant as an index, by a cast: with usize::from the proof did not close.
    let first = survey.noted[MESSAGE_AUTHENTICATOR as usize];
    if first.number != 0 {
        return first.size == 18;
    }
    true
}

// No type 80 has another length than 18, and none of causes 1 to 6 applies. Where none applies type 80 stands at most once.
fn unobjected(survey: &Survey, gate: &Gate) -> bool
    requires { Flagged survey.now.area.now survey.now.code survey.now.flags }
    ensures { result ≡ (not (any odd_mac (attributes survey.now.area.now)) && is_none (cause_of survey.now.code gate.now.nas_ip gate.now.nas_id.now survey.now.area.now)) }
{
    if rule_causes::first_cause(survey, gate).is_some() {
        return false;
    }
    plain_mac(survey)
}

// The store read again for Match and Commit. The secret plays no part in it.
pub fn passed<'a>(
    n: usize,
    q: &'a [u8],
    gate: &Gate,
    noted: &'a mut [Noted; 256],
) -> Option<Shown<'a>>
    ensures { MatchOption result ((secret : List ℕ) → holds_passed (settings secret gate.now.nas_ip gate.now.nas_id.now) n q.now ≡ false) (λ x. (x.request.packet.bytes.now ≡ q.now) × (x.request.survey.code ≡ code_of q.now) × ((secret : List ℕ) → holds_passed (settings secret gate.now.nas_ip gate.now.nas_id.now) n q.now ≡ true)) }
{
    let packet = held(n, q)?;
    let request = Request::of(packet, noted);
    let stamp = rule_stamp::stamp_of(&request.survey)?;
    if unobjected(&request.survey, gate) {
        return Some(Shown { request, stamp });
    }
    None
}
