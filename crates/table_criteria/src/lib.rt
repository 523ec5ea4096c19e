// What a request asks of a session, compared with a slot.
#![tactic(auto)]

ghost use Rattle.std.specs.Prelude.{◌≡◌, ◌≤◌};
ghost use Rattle.table_criteria.specs.Meets.{field_bytes, place};

use octet_runs::Span;

pub mod compare; // compare.rt: a criterion with the field that it names
pub mod first; // first.rt: what a slot must have to meet the first of them
mod sieve; // sieve.rt: what it must have, as values

pub use sieve::Sieve;

// A field of a slot that a request can name a session by.
#[derive(Clone, Copy, Debug, PartialEq, Eq)]
pub enum Field {
    UserName,
    NasPort,
    FramedAddress,
    CallingStation,
    SessionId,
}

impl Field {
    // Where it begins.
    #[tactic(auto, unfolding(crate::specs::Meets::place))]
    fn place(self) -> usize
        ensures { (result ≡ place self) × (result ≤ 115) }
    {
        match self {
            Field::UserName => 18,
            Field::NasPort => 2,
            Field::FramedAddress => 6,
            Field::CallingStation => 115,
            Field::SessionId => 82,
        }
    }

    // Its bytes in the slot s.
    #[tactic(auto, unfolding(crate::specs::Meets::field_bytes))]
    fn of(self, s: &[u8]) -> &[u8]
        ensures { result.now ≡ field_bytes self s.now }
    {
        match self {
            Field::UserName => table_slots::text_at(s, 18),
            Field::NasPort => octet_runs::slice(s, 2, 4),
            Field::FramedAddress => octet_runs::slice(s, 6, 4),
            Field::CallingStation => table_slots::text_at(s, 115),
            Field::SessionId => table_slots::text_at(s, 82),
        }
    }
}

// A field and the value that it must have, a run of the bytes of the request's attributes.
#[derive(Clone, Copy, Debug, PartialEq, Eq)]
pub struct Criterion {
    pub field: Field,
    pub value: Span,
}

// The criteria of a request, at most one a place. A walk over slots takes them as a slice.
pub type Criteria = [Option<Criterion>; 5];
