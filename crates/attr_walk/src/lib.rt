// Reading the attribute area: one attribute at a place, its value as the part of the area that it is, and whether attributes fill the area.
#![tactic(auto)]

ghost use Rattle.std.specs.Prelude.{◌≡◌};
ghost use Rattle.attr_walk.specs.Attributes.{step_at, standing, value_of, tiled};

// An attribute: its type, where it stands in the area, and its length, which counts type and length too.
#[derive(Clone, Copy, Debug, PartialEq, Eq)]
pub struct Attribute {
    pub kind: u8,
    pub at: usize,
    pub size: u8,
}

// What stands at a place of the area.
#[derive(Clone, Copy, Debug, PartialEq, Eq)]
pub enum Step {
    // An attribute, and the place after it.
    Found(Attribute, usize),
    // The area ends here.
    End,
    // A length below 2, or one that runs past the area.
    Bad,
}

// What stands at place at of the area s.
#[tactic(auto, unfolding(crate::specs::Attributes::step_at))]
pub fn step_at(s: &[u8], at: usize) -> Step
    ensures { result ≡ step_at s.now at }
{
    if s.len() <= at {
        return Step::End;
    }
    let left = s.len() - at;
    if left < 2 {
        return Step::Bad;
    }
    let size = s[at + 1];
    let length = usize::from(size);
    if length < 2 || left < length {
        return Step::Bad;
    }
    let kind = s[at];
    Step::Found(Attribute { kind, at, size }, at + length)
}

// No attribute: it has no bytes.
const NOTHING: Attribute = Attribute {
    kind: 0,
    at: 0,
    size: 0,
};

// The attribute that a step found; one of no bytes where it found none.
pub fn standing(x: Step) -> Attribute
    ensures { result ≡ standing x }
{
    match x {
        Step::Found(a, _) => a,
        Step::End | Step::Bad => NOTHING,
    }
}

// The value of an attribute, as the part of the area that it is: what follows type and length, at most 253 bytes.
#[tactic(auto, using(crate::proofs::Values::value_of_lem))]
pub fn value(s: &[u8], a: Attribute) -> &[u8]
    ensures { result.now ≡ value_of s.now a }
{
    let whole = octet_runs::slice(s, a.at, usize::from(a.size));
    octet_runs::slice(whole, 2, 253)
}

// Whether attributes fill the area exactly.
#[tactic(auto, using(crate::proofs::Walks::tiling))]
pub fn tiles(s: &[u8]) -> bool
    ensures { result ≡ tiled s.now }
{
    let mut at = 0;
    // A walk goes by places and not by a count: each step tells the next.
    loop {
        match step_at(s, at) {
            Step::Found(_, next) => at = next,
            Step::End => return true,
            Step::Bad => return false,
        }
    }
}
