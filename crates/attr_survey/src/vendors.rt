// What the Vendor-Specific attributes of an area add to the flags of the pass.
ghost use Rattle.std.specs.Prelude.{◌≡◌};
ghost use Rattle.attr_walk.specs.Attributes.{attributes};
ghost use Rattle.attr_survey.specs.Vendors.{vendor_joined, vendor_turned, vendors_joined};

use crate::Flags;
use crate::turns::either;
use attr_types::VENDOR_SPECIFIC;
use attr_vendor::{Vendor, is_faulty, is_other, sets_rate, vendor_of};
use attr_walk::{Attribute, Step};

// The flags after one that says x.
fn told(f: Flags, x: Vendor) -> Flags
    ensures { result ≡ vendor_joined x f }
{
    Flags {
        tiled: f.tiled,
        unsupported: either(f.unsupported, is_other(x)),
        service: f.service,
        repeated: f.repeated,
        misfit: either(f.misfit, is_faulty(x)),
        criterion: f.criterion,
        change: either(f.change, sets_rate(x)),
    }
}

// The flags after the attribute a of the area s.
fn turned(f: Flags, s: &[u8], a: Attribute) -> Flags
    ensures { result ≡ vendor_turned s.now a f }
{
    if a.kind == VENDOR_SPECIFIC {
        return told(f, vendor_of(attr_walk::value(s, a)));
    }
    f
}

// The flags after all attributes of the area s.
pub fn joined(f: Flags, s: &[u8]) -> Flags
    ensures { result ≡ vendors_joined s.now (attributes s.now) f }
{
    let mut g = f;
    let mut at: usize = 0;
    // A walk goes by places and not by a count: each step tells the next.
    loop {
        match attr_walk::step_at(s, at) {
            Step::Found(a, next) => {
                g = turned(g, s, a);
                at = next;
            }
            Step::End => return g,
            Step::Bad => return g,
        }
    }
}
