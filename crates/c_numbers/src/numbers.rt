// An answer as numbers: what C gets back, and what goes beside it.
ghost use Rattle.std.specs.Prelude.{◌≡◌, ◌<◌};
ghost use Rattle.c_numbers.specs.Numbers.{alone, stamped, answer_told, Small};

use das_answer::Answer;

// What C is told of an answer: its number; the sessions changed, 0 unless ACK; the reply's length, 0 where there is none; the signed skew and 1, or 0 and 0 where no
// stamp is usable.
#[derive(Clone, Copy, Debug, PartialEq, Eq)]
pub struct Told {
    pub answer: u32,
    pub changed: u32,
    pub length: u32,
    pub skew: i64,
    pub stamped: u32,
}

impl Told {
    // An answer alone, all other numbers 0.
    pub fn alone(answer: u32) -> Told
        ensures { result ≡ alone answer }
    {
        Told {
            answer,
            changed: 0,
            length: 0,
            skew: 0,
            stamped: 0,
        }
    }

    // An answer to a request whose stamp is usable.
    fn stamped(answer: u32, changed: usize, length: usize, skew: i64) -> Told
        requires { (changed < 4294967296) × (length < 4294967296) }
        ensures { result ≡ stamped answer changed length skew }
    {
        Told {
            answer,
            changed: changed as u32,
            length: length as u32,
            skew,
            stamped: 1,
        }
    }
}

// The answer's number and the four beside it; a refusal leaves those of old.
#[tactic(auto, unfolding(crate::specs::Numbers::answer_told))]
pub fn tell(a: Answer, old: Told) -> Told
    requires { Small (answer_told a (alone 0)) }
    ensures { result ≡ answer_told a old }
{
    match a {
        Answer::Refused(r) => Told {
            answer: u32::from(r),
            ..old
        },
        Answer::Discarded(d) => Told::alone(100 + u32::from(d)),
        Answer::Stale(skew) => Told::stamped(106, 0, 0, skew),
        Answer::Nak(cause, skew, n) => Told::stamped(u32::from(cause), 0, n, skew),
        Answer::Ack(count, skew, n) => Told::stamped(0, count, n, skew),
    }
}
