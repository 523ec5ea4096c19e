// 403 and 402: the gate's own address and name, and what a request must have.
ghost use Rattle.std.specs.Prelude.{◌≡◌};
ghost use Rattle.octet_numbers.specs.Numbers.{be_bytes};
ghost use Rattle.rule_causes.specs.Later.{differs_at, missing_by};

use attr_lookup::{has, value_of};
use attr_survey::Survey;
use attr_types::NAS_IP_ADDRESS;

// 403: the first attribute of this type has another value than our own.
pub fn other_value(survey: &Survey, kind: u8, own: &[u8]) -> bool
    ensures { result ≡ differs_at survey.now.area.now survey.now.noted.now kind own.now }
{
    if has(survey.noted, kind) {
        return !octet_runs::equal(value_of(survey.area, survey.noted, kind), own);
    }
    false
}

// 403: the NAS-IP-Address is not ours.
pub fn other_address(survey: &Survey, nas_ip: u32) -> bool
    ensures { result ≡ differs_at survey.now.area.now survey.now.noted.now 4 (be_bytes 4 nas_ip) }
{
    let mut own = [0u8; 4];
    octet_numbers::put_be32(&mut own, 0, nas_ip);
    other_value(survey, NAS_IP_ADDRESS, &own)
}

// 402: none that names a session, or a CoA-Request with none that changes one.
pub fn missing(survey: &Survey) -> bool
    ensures { result ≡ missing_by survey.now.code survey.now.flags }
{
    if survey.flags.criterion {
        if survey.code == 43 {
            return !survey.flags.change;
        }
        return false;
    }
    true
}
