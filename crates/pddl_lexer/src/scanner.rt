//! What stands at each byte of a text, by the bytes before it.

ghost use Rattle.std.specs.Prelude.{◌≡◌, ◌∷◌, ◌+◌, ◌<◌, ◌^◌, ℕ, List};
ghost use Rattle.pddl_lexer.specs.Text.{is_word_byte, is_blank, mark};
ghost use Rattle.pddl_lexer.specs.Scanner.{StandsAfter};

use crate::position::At;

/// What stands at a byte.
#[derive(Clone, Copy, PartialEq, Eq)]
pub(crate) enum Mark {
    /// A comment, a blank, or a word that began earlier.
    Nothing,
    /// A byte that isn't allowed.
    Bad,
    /// A `(`.
    Opening,
    /// A `)`.
    Closing,
    /// The first byte of a word.
    Beginning,
}

/// A place in a text, and what the bytes before it say about it.
#[derive(Clone, Copy)]
pub(crate) struct Scanner {
    /// Where the place is.
    pub(crate) at: At,
    /// A `;` stands before the place in its line.
    pub(crate) in_comment: bool,
    /// The byte before the place is one of a word.
    pub(crate) in_word: bool,
}

/// Whether the byte can stand in a word: a visible one of ASCII, but for parentheses and `;`.
pub fn is_word_byte(byte: u8) -> bool
    ensures { result ≡ is_word_byte byte }
{
    matches!(byte, 33..=126) && !matches!(byte, b'(' | b')' | b';')
}

fn is_blank(byte: u8) -> bool
    ensures { result ≡ is_blank byte }
{
    matches!(byte, b' ' | b'\t' | b'\r' | b'\n')
}

impl Scanner {
    /// The first place of a text.
    pub(crate) fn new() -> Scanner
        ensures { StandsAfter result List.[] }
    {
        Scanner {
            at: At { line: 1, column: 1 },
            in_comment: false,
            in_word: false,
        }
    }

    /// What stands at the place, where this byte is.
    #[tactic(auto, unfolding(crate::specs::Text::mark))]
    pub(crate) fn mark(&self, byte: u8) -> Mark
        ensures { (behind : List ℕ) → StandsAfter self.now behind → result ≡ mark behind byte }
    {
        if self.in_comment || byte == b';' {
            Mark::Nothing
        } else if byte == b'(' {
            Mark::Opening
        } else if byte == b')' {
            Mark::Closing
        } else if is_word_byte(byte) {
            if byte == b'?' || !self.in_word {
                Mark::Beginning
            } else {
                Mark::Nothing
            }
        } else if is_blank(byte) {
            Mark::Nothing
        } else {
            Mark::Bad
        }
    }

    /// The place after the byte.
    pub(crate) fn after(&self, byte: u8) -> Scanner
        requires line { self.now.at.line + 1 < 2 ^ 32 }
        requires column { self.now.at.column + 1 < 2 ^ 32 }
        ensures { (behind : List ℕ) → StandsAfter self.now behind → StandsAfter result (byte ∷ behind) }
    {
        if byte == b'\n' {
            Scanner {
                at: At {
                    line: self.at.line + 1,
                    column: 1,
                },
                in_comment: false,
                in_word: false,
            }
        } else {
            Scanner {
                at: At {
                    line: self.at.line,
                    column: self.at.column + 1,
                },
                in_comment: self.in_comment || byte == b';',
                in_word: is_word_byte(byte),
            }
        }
    }
}
