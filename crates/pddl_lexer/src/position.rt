//! Where the bytes of a text stand.

ghost use Rattle.std.specs.Prelude.{◌≡◌};
ghost use Rattle.pddl_lexer.specs.Positions.{is_not_after, earlier_of};

/// The position of a byte.
#[derive(Clone, Copy, PartialEq, Eq)]
pub struct At {
    /// Its line, from 1.
    pub line: u32,
    /// Its place among the bytes of the line, from 1.
    pub column: u32,
}

impl At {
    /// Whether it stands before the other or is the same.
    pub fn is_not_after(self, other: At) -> bool
        ensures { result ≡ is_not_after self other }
    {
        self.line < other.line || self.line == other.line && self.column <= other.column
    }

    /// The earlier of the two.
    pub fn earlier_of(self, other: At) -> At
        ensures { result ≡ earlier_of self other }
    {
        if self.is_not_after(other) {
            self
        } else {
            other
        }
    }
}
