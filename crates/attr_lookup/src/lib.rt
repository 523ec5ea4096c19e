// What a pass kept of a type: for the rules that look at one type, and for those who want its value.
#![tactic(auto)]

ghost use Rattle.std.specs.Prelude.{◌≡◌, ◌≤◌};
ghost use Rattle.attr_survey.specs.Noted.{noted_at, seen_at};
ghost use Rattle.attr_lookup.specs.Lookup.{kept_start, kept_place, kept_size, kept_value};

use attr_survey::Noted;

// Whether the pass met an attribute of this type. Of type 33 it kept nothing.
pub fn has(noted: &[Noted; 256], kind: u8) -> bool
    ensures { result ≡ seen_at noted.now kind }
{
    first_of(noted, kind).number != 0
}

// What the pass kept of a type.
pub fn first_of(noted: &[Noted; 256], kind: u8) -> Noted
    ensures { result ≡ noted_at noted.now kind }
{
    noted[usize::from(kind)]
}

// Where the first of this type ends.
pub fn end_of(noted: &[Noted; 256], kind: u8) -> usize
    ensures { (result ≡ (noted_at noted.now kind).end) × (result ≤ 65535) }
{
    usize::from(first_of(noted, kind).end)
}

// Where it starts.
pub fn start_of(noted: &[Noted; 256], kind: u8) -> usize
    ensures { (result ≡ kept_start kind noted.now) × (result ≤ 65535) }
{
    end_of(noted, kind).saturating_sub(usize::from(first_of(noted, kind).size))
}

// Where its value lies.
pub fn place_of(noted: &[Noted; 256], kind: u8) -> usize
    ensures { result ≡ kept_place kind noted.now }
{
    start_of(noted, kind) + 2
}

// How long its value is.
pub fn size_of(noted: &[Noted; 256], kind: u8) -> usize
    ensures { result ≡ kept_size kind noted.now }
{
    usize::from(first_of(noted, kind).size).saturating_sub(2)
}

// Its value; empty where there is none.
pub fn value_of<'a>(s: &'a [u8], noted: &[Noted; 256], kind: u8) -> &'a [u8]
    ensures { result.now ≡ kept_value s.now kind noted.now }
{
    octet_runs::slice(s, place_of(noted, kind), size_of(noted, kind))
}
