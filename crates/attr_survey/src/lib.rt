// One pass over the attributes of an area: what the rules need to know of them.
#![tactic(auto)]

ghost use Rattle.std.specs.Prelude.{◌≡◌, ◌≤◌, length};
ghost use Rattle.attr_survey.specs.Survey.{Typed, Flagged, Kept};
ghost use Rattle.attr_survey.specs.Noted.{blank};

use attr_types::VENDOR_SPECIFIC;
use counts::note;
pub use counts::{NONE, Noted};
use turns::{joined, no_flags, untiled};

mod counts; // counts.rt: what is kept of each type
mod turns; // turns.rt: the flags, attribute by attribute
mod vendors; // vendors.rt: what the Vendor-Specific attributes add to them

// The flags of a pass.
#[derive(Clone, Copy)]
pub struct Flags {
    // The attributes fill the area.
    pub tiled: bool,
    // One is not supported in this request.
    pub unsupported: bool,
    // One is Service-Type.
    pub service: bool,
    // One has the type of an earlier one, and may not.
    pub repeated: bool,
    // One has a length that its type may not have, or is a type 26 that is not well-formed.
    pub misfit: bool,
    // One names a session.
    pub criterion: bool,
    // One changes a session.
    pub change: bool,
}

// What one pass told of the attributes of an area, in a request of this code.
#[derive(Drop)]
pub struct Survey<'a> {
    pub area: &'a [u8],
    pub code: u8,
    pub flags: Flags,
    // For each type but 33, which may repeat.
    pub noted: &'a [Noted; 256],
    pub ghost kept: { Kept area.now noted.now },
}

// Surveys the area of a request of this code by types and lengths.
fn by_type(s: &[u8], code: u8, noted: &mut [Noted; 256]) -> Flags
    requires { (length s.now ≤ 4096) × (noted.old ≡ blank) }
    ensures typed { Typed s.now code result }
    ensures kept { Kept s.now noted.new }
{
    let table = attr_types::table();
    let mut f = no_flags();
    let mut at: usize = 0;
    // A walk goes by places and not by a count: each step tells the next.
    loop {
        match attr_walk::step_at(s, at) {
            attr_walk::Step::Found(a, next) => {
                let kind = a.kind;
                let size = a.size;
                // It fits, and `try_from` would give an error that cannot come.
                let end = next as u16;
                at = next;
                let class = attr_types::class_in(&table, kind);
                // What may repeat is not counted, and breaks no rule but that on length 2.
                if attr_types::says(64, class) {
                    if size == 2 {
                        f = joined(f, code, class, size, false);
                        continue;
                    }
                    continue;
                }
                let again = note(noted, kind, end, size);
                f = joined(f, code, class, size, again);
            }
            attr_walk::Step::End => return f,
            attr_walk::Step::Bad => return untiled(f),
        }
    }
}

// The flags of the pass, with what the Vendor-Specific attributes say. They are read in a walk of their own, so that a request without one pays nothing for them.
fn with_vendors(s: &[u8], code: u8, noted: &mut [Noted; 256]) -> Flags
    requires { (length s.now ≤ 4096) × (noted.old ≡ blank) }
    ensures flagged { Flagged s.now code result }
    ensures kept { Kept s.now noted.new }
{
    let f = by_type(s, code, &mut *noted);
    // A constant as an index, by a cast: with usize::from the proof did not close.
    if noted[VENDOR_SPECIFIC as usize].number == 0 {
        return f;
    }
    vendors::joined(f, s)
}

impl<'a> Survey<'a> {
    // One pass over the area of a request of this code. It notes where the caller lends an array, so that nothing large is copied where a survey is
    // handed on. Inlined, so that the array is not cleared twice.
    #[inline(always)]
    #[tactic(auto, unfolding(crate::specs::Noted::blank))]
    pub fn of(area: &'a [u8], code: u8, noted: &'a mut [Noted; 256]) -> Survey<'a>
        requires { length area.now ≤ 4096 }
        ensures area_value { result.area.now ≡ area.now }
        ensures code_value { result.code ≡ code }
        ensures flagged { Flagged area.now code result.flags }
    {
        *noted = [NONE; 256];
        let flags = with_vendors(area, code, &mut *noted);
        Survey {
            area,
            code,
            flags,
            noted,
        }
    }
}
