//! The depth of a place, from the braces before it.

ghost use Rattle.std.specs.Prelude.{◌≡◌, ◌+◌, ◌<◌, ◌^◌, ◌==◌};
ghost use Rattle.ris_format.specs.Pieces.{one};

/// How many braces open and close in the bytes seen so far.
#[derive(Clone, Copy)]
pub(crate) struct Braces {
    opened: usize,
    closed: usize,
}

impl Braces {
    /// The braces of no bytes.
    pub fn none() -> Self
        ensures opened { result.opened ≡ 0 }
        ensures closed { result.closed ≡ 0 }
    {
        Braces {
            opened: 0,
            closed: 0,
        }
    }

    /// Whether the place after the bytes seen has depth 0.
    pub fn are_level(self) -> bool
        ensures { result ≡ (self.opened == self.closed) }
    {
        self.opened == self.closed
    }

    /// The braces with one more byte seen.
    pub fn and(self, byte: u8) -> Self
        requires opened { self.opened + 1 < 2 ^ 64 }
        requires closed { self.closed + 1 < 2 ^ 64 }
        ensures opened { result.opened ≡ self.opened + one 123 byte }
        ensures closed { result.closed ≡ self.closed + one 125 byte }
    {
        match byte {
            b'{' => Braces {
                opened: self.opened + 1,
                closed: self.closed,
            },
            b'}' => Braces {
                opened: self.opened,
                closed: self.closed + 1,
            },
            _ => self,
        }
    }
}
