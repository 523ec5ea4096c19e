// A request written and a reply checked, as numbers.
ghost use Rattle.std.specs.Prelude.{◌≡◌, ◌<◌};
ghost use Rattle.c_numbers.specs.Numbers.{written_number, written_length, checked_number};

use dac_check::Unfit;
use refusals::Refusal;

// The answer of the writer.
#[tactic(auto, unfolding(crate::specs::Numbers::written_number))]
pub fn written_number(w: Result<usize, Refusal>) -> u32
    ensures { result ≡ written_number w }
{
    match w {
        Ok(_) => 0,
        Err(r) => u32::from(r),
    }
}

// The length of the request written.
#[tactic(auto, unfolding(crate::specs::Numbers::written_length))]
pub fn written_length(w: Result<usize, Refusal>, old: u32) -> u32
    requires { written_length w 0 < 4294967296 }
    ensures { result ≡ written_length w old }
{
    match w {
        Ok(n) => n as u32,
        Err(_) => old,
    }
}

// The answer of the reply check.
#[tactic(auto, unfolding(crate::specs::Numbers::checked_number))]
pub fn checked_number(c: Result<(), Unfit>) -> u32
    ensures { result ≡ checked_number c }
{
    match c {
        Ok(()) => 0,
        Err(Unfit::Mismatch(v)) => 200 + u32::from(v),
        Err(Unfit::Refused(r)) => u32::from(r),
    }
}
