// The rates that a request sets, from the first type 26 that the pass over its attributes met.
ghost use Rattle.std.specs.Prelude.{◌≡◌};
ghost use Rattle.das_effects.specs.Changes.{rates_by, rates_named};

use attr_survey::Survey;
use attr_types::VENDOR_SPECIFIC;
use attr_vendor::{Rates, UNSET, Vendor};

// The rates that a type 26 sets.
fn rates_by(x: Vendor) -> Rates
    ensures { result ≡ rates_by x }
{
    match x {
        Vendor::Other | Vendor::Faulty(_) => UNSET,
        Vendor::Sets(rates) => rates,
    }
}

// The rates that a request sets.
pub fn named(survey: &Survey) -> Rates
    ensures { result ≡ rates_named survey.now.area.now }
{
    if attr_lookup::has(survey.noted, VENDOR_SPECIFIC) {
        let value = attr_lookup::value_of(survey.area, survey.noted, VENDOR_SPECIFIC);
        return rates_by(attr_vendor::vendor_of(value));
    }
    UNSET
}
