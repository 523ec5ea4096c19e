// What a request does to the sessions: the criteria by which it names them, and the change.
#![tactic(auto)]

mod rates; // rates.rt: the rates of a type 26
mod taken; // taken.rt: where a value lies that the pass met, and the criterion and the number that it is

ghost use Rattle.std.specs.Prelude.{◌≡◌, false};
ghost use Rattle.attr_walk.specs.Attributes.{attributes, any};
ghost use Rattle.table_criteria.specs.Meets.{listed};
ghost use Rattle.attr_types.specs.Types.{misfitting};
ghost use Rattle.das_effects.specs.Taken.{taken_criteria};
ghost use Rattle.das_effects.specs.Changes.{alteration_of, change_of};

use attr_survey::{Noted, Survey};
use attr_types::{
    ACCT_SESSION_ID, CALLING_STATION_ID, FILTER_ID, FRAMED_IP_ADDRESS, IDLE_TIMEOUT, NAS_PORT,
    SESSION_TIMEOUT, USER_NAME,
};
use attr_vendor::Rates;
use table_change::{Alteration, Change};
use table_criteria::{Criteria, Field};
use taken::{criterion, number, value_span};

// The criteria of a request, from what the pass over its attributes kept: one for each of 1, 5, 8, 31, 44 that it has.
#[tactic(auto, unfolding(crate::specs::Taken::taken_criteria))]
pub fn criteria(noted: &[Noted; 256]) -> Criteria
    ensures { listed result ≡ taken_criteria noted.now }
{
    [
        criterion(noted, Field::UserName, USER_NAME),
        criterion(noted, Field::NasPort, NAS_PORT),
        criterion(noted, Field::FramedAddress, FRAMED_IP_ADDRESS),
        criterion(noted, Field::CallingStation, CALLING_STATION_ID),
        criterion(noted, Field::SessionId, ACCT_SESSION_ID),
    ]
}

// What a CoA alters. Its numbers have their length (404 does not apply).
fn alteration(survey: &Survey) -> Alteration
    requires { any misfitting (attributes survey.now.area.now) ≡ false }
    ensures { result ≡ alteration_of survey.now.area.now }
{
    let Rates { down, up } = rates::named(survey);
    Alteration {
        timeout: number(survey, SESSION_TIMEOUT),
        idle: number(survey, IDLE_TIMEOUT),
        filter: value_span(survey.noted, FILTER_ID),
        down,
        up,
    }
}

// What happens to the sessions that a surveyed request of this code names.
#[tactic(auto, unfolding(crate::specs::Changes::change_of))]
pub fn change(code: u8, survey: &Survey) -> Change
    requires { any misfitting (attributes survey.now.area.now) ≡ false }
    ensures { result ≡ change_of code survey.now.area.now }
{
    if code == 40 {
        return Change::End;
    }
    Change::Alter(alteration(survey))
}
