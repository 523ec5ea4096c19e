// A reader over the attribute area keeps the area and its place together. `next` and `value_in` take it apart and call one of `attr_walk`.
#![tactic(auto)]

ghost use Rattle.std.specs.Prelude.{◌≡◌};
ghost use Rattle.attr_walk.specs.Attributes.{step_at, value_of, value_at};
ghost use Rattle.attr_reader.specs.Readers.{opened, moved_to};

use attr_walk::{Attribute, Step};

// An area, and a place in it.
#[derive(Clone, Copy, Debug, PartialEq, Eq)]
pub struct Reader<'a> {
    pub area: &'a [u8],
    pub at: usize,
}

impl<'a> Reader<'a> {
    // A reader at the area's start.
    pub fn new(area: &'a [u8]) -> Reader<'a>
        ensures { result ≡ opened area.entry }
    {
        Reader { area, at: 0 }
    }

    // The reader at another place of its area.
    pub fn moved(self, at: usize) -> Reader<'a>
        ensures { result ≡ moved_to self.entry at }
    {
        Reader { at, ..self }
    }

    // What stands at the reader's place.
    pub fn next(self) -> Step
        ensures { result ≡ step_at self.entry.area.now self.entry.at }
    {
        attr_walk::step_at(self.area, self.at)
    }

    // The value of an attribute, as the part of the reader's area that it is.
    pub fn value_in(self, a: Attribute) -> &'a [u8]
        ensures { result.now ≡ value_of self.entry.area.now a }
    {
        attr_walk::value(self.area, a)
    }
}

// The value of the attribute that stands at place at of the area s; empty where none does.
#[tactic(auto, using(attr_walk::proofs::Values::value_standing))]
pub fn value_at(s: &[u8], at: usize) -> &[u8]
    ensures { result.now ≡ value_at s.now at }
{
    let reader = Reader::new(s).moved(at);
    let a = attr_walk::standing(reader.next());
    reader.value_in(a)
}
