// The NAK causes 1 to 6, first that applies, from what one pass over the attributes tells.
#![tactic(auto)]

ghost use Rattle.std.specs.Prelude.{◌≡◌, false};
ghost use Rattle.attr_survey.specs.Survey.{Flagged};
ghost use Rattle.rule_causes.specs.Causes.{cause_of};
ghost use Rattle.rule_causes.specs.Later.{later_of};

use attr_lookup::first_of;
use attr_survey::Survey;
use attr_types::{FILTER_ID, NAS_IDENTIFIER};
pub use cause::Cause;
use checks::{missing, other_address, other_value};
use nas_settings::Gate;

mod cause; // cause.rt: the causes and their numbers
mod checks; // checks.rt: 403 and 402

// The causes after 404: no type but 33 is there twice.
fn later_cause(survey: &Survey, gate: &Gate) -> Option<Cause>
    requires { Flagged survey.now.area.now survey.now.code survey.now.flags × (survey.now.flags.repeated ≡ false) }
    ensures { result ≡ later_of survey.now.code gate.now.nas_ip gate.now.nas_id.now survey.now.area.now }
{
    if other_address(survey, gate.nas_ip) {
        return Some(Cause::IdentificationMismatch);
    }
    if other_value(survey, NAS_IDENTIFIER, gate.nas_id) {
        return Some(Cause::IdentificationMismatch);
    }
    if missing(survey) {
        return Some(Cause::MissingAttribute);
    }
    if 34 < first_of(survey.noted, FILTER_ID).size {
        return Some(Cause::ResourcesUnavailable);
    }
    None
}

// The first cause that applies to the surveyed area of a request, at this gate.
pub fn first_cause(survey: &Survey, gate: &Gate) -> Option<Cause>
    requires { Flagged survey.now.area.now survey.now.code survey.now.flags }
    ensures { result ≡ cause_of survey.now.code gate.now.nas_ip gate.now.nas_id.now survey.now.area.now }
{
    let f = survey.flags;
    if f.unsupported {
        return Some(Cause::UnsupportedAttribute);
    }
    if f.service {
        return Some(Cause::UnsupportedService);
    }
    if f.repeated {
        return Some(Cause::InvalidRequest);
    }
    if f.misfit {
        return Some(Cause::InvalidRequest);
    }
    later_cause(survey, gate)
}
