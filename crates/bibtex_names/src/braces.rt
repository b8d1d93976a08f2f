//! The depth of a place, from the braces before it.

ghost use Rattle.bib_spec.specs.Bytes.{open_brace, close_brace};
ghost use Rattle.std.specs.Prelude.{count_by, length, ◌≤◌, ◌≡◌, ◌==◌, ◌+◌, ◌-◌, ◌<◌, ◌^◌, if◌then◌else◌};

/// How many braces open and close in the bytes seen so far.
#[derive(Clone, Copy)]
pub(crate) struct Braces {
    opened: usize,
    closed: usize,
}

impl Braces {
    /// The braces of no bytes.
    pub fn none() -> Self
        ensures opened { result.opened ≡ 0 }
        ensures closed { result.closed ≡ 0 }
    {
        Braces {
            opened: 0,
            closed: 0,
        }
    }

    /// Whether the place after the bytes seen has depth 0.
    pub fn are_level(self) -> bool
        ensures { result ≡ (self.opened == self.closed) }
    {
        self.opened == self.closed
    }

    /// The braces with one more byte seen.
    pub fn and(self, byte: u8) -> Self
        requires opened { self.opened + 1 < 2 ^ 64 }
        requires closed { self.closed + 1 < 2 ^ 64 }
        ensures opened { result.opened ≡ self.opened + (if byte == open_brace then 1 else 0) }
        ensures closed { result.closed ≡ self.closed + (if byte == close_brace then 1 else 0) }
    {
        match byte {
            b'{' => Braces {
                opened: self.opened + 1,
                closed: self.closed,
            },
            b'}' => Braces {
                opened: self.opened,
                closed: self.closed + 1,
            },
            _ => self,
        }
    }

    /// The braces with these bytes seen too.
    pub fn over(self, text: &[u8]) -> Self
        requires opened { self.opened + length text.now < 2 ^ 64 }
        requires closed { self.closed + length text.now < 2 ^ 64 }
        ensures opened { result.opened ≡ self.opened + count_by (λ b. b == open_brace) text.now }
        ensures closed { result.closed ≡ self.closed + count_by (λ b. b == close_brace) text.now }
    {
        Braces {
            opened: self.opened + count(text, b'{'),
            closed: self.closed + count(text, b'}'),
        }
    }

    /// The depth after the bytes seen, if it is `depth` before them.
    pub fn depth_from(self, depth: usize) -> usize
        requires { depth + self.opened < 2 ^ 64 }
        ensures { result ≡ depth + self.opened - self.closed }
    {
        (depth + self.opened).saturating_sub(self.closed)
    }
}

/// How often the text has this byte.
fn count(text: &[u8], byte: u8) -> usize
    ensures count { result ≡ count_by (λ b. b == byte) text.now }
    ensures within { result ≤ length text.now }
{
    text.iter().filter(|b| **b == byte).count()
}
