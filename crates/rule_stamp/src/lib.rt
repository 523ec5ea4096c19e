// D6: the Event-Timestamp of a request, and its distance from the clock.
#![tactic(auto)]

ghost use Rattle.std.specs.Prelude.{◌≡◌};
ghost use Rattle.rule_stamp.specs.Stamp.{stamp_of, stale, skew_of};

use attr_survey::Survey;
use attr_types::EVENT_TIMESTAMP;

// The stamp of a surveyed area: there is one where type 55 stands once, with length 6.
pub fn stamp_of(survey: &Survey) -> Option<u32>
    ensures { result ≡ stamp_of survey.now.area.now }
{
    // A constant as an index, by a cast: with usize::from or attr_lookup::first_of the proof did not close.
    let first = survey.noted[EVENT_TIMESTAMP as usize];
    if first.number == 1 {
        if first.size == 6 {
            let end = attr_lookup::end_of(survey.noted, EVENT_TIMESTAMP);
            return Some(octet_numbers::be32(survey.area, end - 4));
        }
        return None;
    }
    None
}

// More than 300 seconds from the clock, either way.
#[tactic(auto, unfolding(crate::specs::Stamp::stale))]
pub fn stale(stamp: u32, clock: u32) -> bool
    ensures { result ≡ stale stamp clock }
{
    300 < stamp.abs_diff(clock)
}

// Stamp minus clock, over whole numbers: 64 bits hold every difference of two stamps.
pub fn skew(stamp: u32, clock: u32) -> i64
    ensures { result ≡ skew_of stamp clock }
{
    i64::from(stamp) - i64::from(clock)
}
