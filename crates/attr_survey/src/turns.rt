// The flags of a pass, attribute by attribute.
ghost use Rattle.std.specs.Prelude.{◌≡◌, ◌||◌, ◌<◌};
ghost use Rattle.attr_types.specs.Classes.{says};
ghost use Rattle.attr_survey.specs.Turns.{no_flags, joined_by, untiled};

use crate::Flags;
use attr_types::{lacks, misfits, says};

// a or b. It is a function of its own, since a branch inside a caller would double what is to be proved there.
pub fn either(a: bool, b: bool) -> bool
    ensures { result ≡ a || b }
{
    if a {
        return true;
    }
    b
}

// A flag, set too where the class gives the answer of this weight.
fn flagged(a: bool, weight: u8, class: u8) -> bool
    requires { 0 < weight }
    ensures { result ≡ a || says weight class }
{
    either(a, says(weight, class))
}

// The flags before the first attribute.
pub fn no_flags() -> Flags
    ensures { result ≡ no_flags }
{
    Flags {
        tiled: true,
        unsupported: false,
        service: false,
        repeated: false,
        misfit: false,
        criterion: false,
        change: false,
    }
}

// The flags after one more attribute of this class and length; again says that its type was there before.
pub fn joined(f: Flags, code: u8, class: u8, size: u8, again: bool) -> Flags
    ensures { result ≡ joined_by code class size again f }
{
    Flags {
        tiled: f.tiled,
        unsupported: either(f.unsupported, lacks(code, class)),
        service: flagged(f.service, 128, class),
        repeated: either(f.repeated, again),
        misfit: either(f.misfit, misfits(class, size)),
        criterion: flagged(f.criterion, 16, class),
        change: flagged(f.change, 32, class),
    }
}

// The flags where no attribute stands before the area's end.
pub fn untiled(f: Flags) -> Flags
    ensures { result ≡ untiled f }
{
    Flags {
        tiled: false,
        unsupported: f.unsupported,
        service: f.service,
        repeated: f.repeated,
        misfit: f.misfit,
        criterion: f.criterion,
        change: f.change,
    }
}
