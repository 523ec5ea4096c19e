// What the exports take as bytes and numbers, as the values of the table's crates.
ghost use Rattle.std.specs.Prelude.{◌≡◌, ◌<◌};
ghost use Rattle.probe_table.specs.Given.{field_of, criterion_at, criteria_of, number_of, text_of, change_of};

use octet_runs::Span;
use table_change::{Alteration, Change};
use table_criteria::{Criteria, Criterion, Field};

// The field of a number.
#[tactic(auto, unfolding(crate::specs::Given::field_of))]
fn field_of(n: u8) -> Field
    ensures { result ≡ field_of n }
{
    match n {
        0 => Field::UserName,
        1 => Field::NasPort,
        2 => Field::FramedAddress,
        3 => Field::CallingStation,
        _ => Field::SessionId,
    }
}

// The criterion in three bytes at place i, where there are three.
#[tactic(auto, unfolding(crate::specs::Given::criterion_at))]
fn criterion_at(s: &[u8], i: usize) -> Option<Criterion>
    requires { i < 64 }
    ensures { result ≡ criterion_at i s.now }
{
    if s.len() < i + 3 {
        return None;
    }
    let value = Span {
        at: usize::from(s[i + 1]),
        size: usize::from(s[i + 2]),
    };
    Some(Criterion {
        field: field_of(s[i]),
        value,
    })
}

// The criteria in the bytes s.
#[tactic(auto, unfolding(crate::specs::Given::criteria_of))]
pub fn criteria_of(s: &[u8]) -> Criteria
    ensures { result ≡ criteria_of s.now }
{
    [
        criterion_at(s, 0),
        criterion_at(s, 3),
        criterion_at(s, 6),
        criterion_at(s, 9),
        criterion_at(s, 12),
    ]
}

// A number that is set where the flag is not 0.
#[tactic(auto, unfolding(crate::specs::Given::number_of))]
fn number_of(set: u32, v: u32) -> Option<u32>
    ensures { result ≡ number_of set v }
{
    (set != 0).then_some(v)
}

// A text that is set where the flag is not 0.
#[tactic(auto, unfolding(crate::specs::Given::text_of))]
fn text_of(set: u32, at: usize, size: usize) -> Option<Span>
    ensures { result ≡ text_of set at size }
{
    (set != 0).then_some(Span { at, size })
}

// The end of a session where the flag is not 0, else what is set.
#[tactic(auto, unfolding(crate::specs::Given::change_of))]
pub fn change_of(
    end: u32,
    timed: u32,
    timeout: u32,
    idled: u32,
    idle: u32,
    filtered: u32,
    at: usize,
    size: usize,
    downed: u32,
    down: u32,
    upped: u32,
    up: u32,
) -> Change
    ensures { result ≡ change_of end timed timeout idled idle filtered at size downed down upped up }
{
    if end != 0 {
        return Change::End;
    }
    let a = Alteration {
        timeout: number_of(timed, timeout),
        idle: number_of(idled, idle),
        filter: text_of(filtered, at, size),
        down: number_of(downed, down),
        up: number_of(upped, up),
    };
    Change::Alter(a)
}
