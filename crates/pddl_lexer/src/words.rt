//! The words of a text.

ghost use Rattle.std.specs.Prelude.{◌≡◌, ◌<◌, ◌^◌, drop};
ghost use Rattle.std.specs.List.{prefix_len};
ghost use Rattle.pddl_lexer.specs.Tokens.{goes_on, leading_word};

use crate::scanner::is_word_byte;

fn goes_on(byte: u8) -> bool
    ensures { result ≡ goes_on byte }
{
    is_word_byte(byte) && byte != b'?'
}

/// How many bytes of a word the text begins with, after a word's first.
fn more_of_word(text: &[u8]) -> usize
    ensures more { result ≡ prefix_len goes_on text.now }
    ensures fits { result < 2 ^ 63 }
{
    text.iter().take_while(|byte| goes_on(**byte)).count()
}

/// The word with which the text begins.
fn leading_word(text: &[u8]) -> &[u8]
    ensures { result.now ≡ leading_word text.now }
{
    match text {
        [] => text,
        [_, after @ ..] => &text[..=more_of_word(after)],
    }
}

/// The word whose first byte has this place in the text. Behind the end there is none.
pub(crate) fn word_at(text: &[u8], place: usize) -> &[u8]
    ensures { result.now ≡ leading_word (drop place text.now) }
{
    leading_word(text.get(place..).unwrap_or(&[]))
}
