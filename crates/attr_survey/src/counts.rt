// What is kept of each type: how many there are, and where the first one ends.
ghost use Rattle.std.specs.Prelude.{◌≡◌};
ghost use Rattle.attr_survey.specs.Noted.{noted_at, seen_at, note_at};

// What a pass keeps of the attributes of a type: how many there are, 2 for any more, and end and length of the first.
// Fields lie in this order: with the end first it takes four bytes.
#[derive(Clone, Copy, Debug, PartialEq, Eq)]
pub struct Noted {
    pub end: u16,
    pub number: u8,
    pub size: u8,
}

// Before the first attribute.
pub const NONE: Noted = Noted {
    number: 0,
    end: 0,
    size: 0,
};

// Counts an attribute, and keeps end and length of the first of its type. Says whether one of its type was counted before.
pub fn note(noted: &mut [Noted; 256], kind: u8, end: u16, size: u8) -> bool
    ensures value { result ≡ seen_at noted.old kind }
    ensures noted_after { noted.new ≡ note_at noted.old kind end size }
{
    let k = usize::from(kind);
    let before = noted[k];
    if before.number == 0 {
        noted[k] = Noted {
            number: 1,
            end,
            size,
        };
        return false;
    }
    noted[k] = Noted {
        number: 2,
        end: before.end,
        size: before.size,
    };
    true
}
