// The first attribute of a type, from what a pass kept of it: where its value lies, and the criterion or the number that it is.
ghost use Rattle.std.specs.Prelude.{◌≡◌, length, ◌+◌, ◌≤◌, Some};
ghost use Rattle.octet_runs.specs.declared.span.Span.{Span};
ghost use Rattle.das_effects.specs.Taken.{taken_value, if_there, taken_number};

use attr_lookup::{has, place_of, size_of};
use attr_survey::{Noted, Survey};
use octet_runs::Span;
use table_criteria::{Criterion, Field};

// Where the value of the first of this type lies.
#[tactic(auto, unfolding(crate::specs::Taken::taken_value))]
pub fn value_span(noted: &[Noted; 256], kind: u8) -> Option<Span>
    ensures { result ≡ taken_value kind noted.now }
{
    if has(noted, kind) {
        return Some(Span {
            at: place_of(noted, kind),
            size: size_of(noted, kind),
        });
    }
    None
}

// That a field must have this value.
pub fn criterion(noted: &[Noted; 256], field: Field, kind: u8) -> Option<Criterion>
    ensures { result ≡ if_there field kind noted.now }
{
    let value = value_span(noted, kind)?;
    Some(Criterion { field, value })
}

// The number that a CoA sets by it.
pub fn number(survey: &Survey, kind: u8) -> Option<u32>
    requires { (v : Span) → taken_value kind survey.now.noted.now ≡ Some v → v.at + 4 ≤ length survey.now.area.now }
    ensures { result ≡ taken_number survey.now.area.now kind survey.now.noted.now }
{
    let value = value_span(survey.noted, kind)?;
    Some(octet_numbers::be32(survey.area, value.at))
}
