// A run of bytes that is named by its place in another.
ghost use Rattle.std.specs.Prelude.{◌≡◌};
ghost use Rattle.octet_numbers.specs.Runs.{part};

// The size bytes from place at on of a run that is not kept here; as many as there are where that run ends before.
#[derive(Clone, Copy, Debug, PartialEq, Eq)]
pub struct Span {
    pub at: usize,
    pub size: usize,
}

impl Span {
    // These bytes of s.
    pub fn of<'a>(self, s: &'a [u8]) -> &'a [u8]
        ensures { result.now ≡ part self.at self.size s.now }
    {
        crate::slice(s, self.at, self.size)
    }
}
