//! A place in a text that is read line by line, and in a line word by word.

ghost use Rattle.std.specs.Prelude.{◌≡◌, ◌==◌, ◌<◌, ◌^◌, [], ◌∷◌, length, MatchOption, IfSome};
ghost use Rattle.std.specs.List.{position};
ghost use Rattle.sas_reader.specs.Answers.{Gives};
ghost use Rattle.sas_reader.specs.Forms as form;
ghost use Rattle.sas_reader.specs.Forms.{pieces_of};
ghost use Rattle.sas_reader.specs.Numbers as numbers;

use crate::fault::{SasFault, SasPlace};
use crate::numbers::{number, number_or_none};
use lists::Stop;
use std::marker::Model;

/// What is still to be read of a text. Contracts see its pieces between line feeds and its words between spaces.
#[derive(Drop)]
pub(crate) struct Reader<'a> {
    place: SasPlace,
    /// How many lines were begun.
    begun: u64,
    /// What is left of the line that was begun last, where it is read word by word.
    words: Option<&'a [u8]>,
    /// The text after that line.
    rest: &'a [u8],
}

impl<'a> Model for Reader<'a> {
    ghost use Rattle.std.specs.Prelude.{◌+◌, ◌<◌, ◌^◌, [], length};
    ghost use Rattle.std.specs.Option.{option_map_or};
    ghost use Rattle.sas_reader.specs.Forms.{Unread, pieces_of};

    ghost Value = { Unread };

    ghost view = { λ reader. record {
      place = reader.place;
      begun = reader.begun;
      words = option_map_or (λ words. pieces_of 32 words.now) reader.words [];
      pieces = pieces_of 10 reader.rest.now;
    } };

    ghost invariant = { λ reader. reader.begun + length reader.rest.now < 2 ^ 32 };
}

/// Where the byte first stands.
fn place_of(byte: u8, bytes: &[u8]) -> Option<usize>
    ensures { result ≡ position (λ b. b == byte) bytes.now }
{
    bytes.iter().position(|other| *other == byte)
}

/// What stands before and after the first such byte, if there is one.
fn cut(bytes: &[u8], byte: u8) -> Option<(&[u8], &[u8])>
    ensures cut { MatchOption result (pieces_of byte bytes.now ≡ bytes.now ∷ [])
        (λ parts. pieces_of byte bytes.now ≡ parts.0.now ∷ pieces_of byte parts.1.now) }
    ensures shorter { IfSome result (λ parts. length parts.1.now < length bytes.now) }
{
    let place = place_of(byte, bytes)?;
    Some((&bytes[..place], &bytes[place + 1..]))
}

impl<'a> Reader<'a> {
    /// At the beginning of a text.
    pub fn new(text: &'a [u8]) -> Reader<'a>
        requires { length text.now < 2 ^ 32 }
        ensures { result ≡ form.unread text.now }
    {
        Reader {
            place: SasPlace::Version,
            begun: 0,
            words: None,
            rest: text,
        }
    }

    /// At the first line of a section.
    pub fn begin(&mut self, place: SasPlace)
        ensures { self.new ≡ form.in_section place self.old }
    {
        self.place = place;
    }

    /// The line that was begun last, where it breaks its rule.
    fn fault(&self) -> SasFault
        ensures { result ≡ form.here self.now }
    {
        SasFault {
            line: self.begun,
            place: self.place,
        }
    }

    /// The line after that one, where it is missing or has no line feed, or is one too many.
    fn next_fault(&self) -> SasFault
        ensures { result ≡ form.next self.now }
    {
        SasFault {
            line: self.begun + 1,
            place: self.place,
        }
    }

    /// The value, where its line meets its rule.
    pub fn passing<T: Drop>(&self, test: bool, value: T) -> Result<T, Stop<SasFault>>
        ensures { Gives (λ x. x) result self.now (form.passing test value self.now) }
    {
        if test {
            Ok(value)
        } else {
            Err(self.fault().into())
        }
    }

    /// The value that a line has by its rule, if it meets it.
    fn met<T: Drop>(&self, value: Option<T>) -> Result<T, Stop<SasFault>>
        ensures { Gives (λ x. x) result self.now (form.met value self.now) }
    {
        match value {
            Some(value) => Ok(value),
            None => Err(self.fault().into()),
        }
    }

    /// The next line, whole.
    pub fn next_line(&mut self) -> Result<&'a [u8], Stop<SasFault>>
        ensures { Gives (λ line. line.now) result self.new (form.next_line self.old) }
    {
        match cut(self.rest, b'\n') {
            Some((line, rest)) => {
                self.rest = rest;
                self.begun += 1;
                Ok(line)
            }
            None => Err(self.next_fault().into()),
        }
    }

    /// Begins the next line, which is read word by word.
    #[tactic(auto, unfolding(crate::specs::Forms::begin_words))]
    pub fn begin_words(&mut self) -> Result<(), Stop<SasFault>>
        ensures { Gives (λ x. x) result self.new (form.begin_words self.old) }
    {
        let line = self.next_line()?;
        self.words = Some(line);
        Ok(())
    }

    /// The next word of the line.
    fn word(&mut self) -> Result<&'a [u8], Stop<SasFault>>
        ensures { Gives (λ word. word.now) result self.new (form.word self.old) }
    {
        let Some(words) = self.words else {
            return Err(self.fault().into());
        };
        match cut(words, b' ') {
            Some((word, rest)) => {
                self.words = Some(rest);
                Ok(word)
            }
            None => {
                self.words = None;
                Ok(words)
            }
        }
    }

    /// Ends the line, which has no word left.
    pub fn end_words(&mut self) -> Result<(), Stop<SasFault>>
        ensures { Gives (λ x. x) result self.new (form.end_words self.old) }
    {
        match self.words {
            None => Ok(()),
            Some(_) => Err(self.fault().into()),
        }
    }

    /// The end of the text.
    pub fn end(&mut self) -> Result<(), Stop<SasFault>>
        ensures { Gives (λ x. x) result self.new (form.end self.old) }
    {
        if self.rest.is_empty() {
            Ok(())
        } else {
            Err(self.next_fault().into())
        }
    }

    /// A line of fixed words.
    #[tactic(auto, unfolding(crate::specs::Forms::fixed))]
    pub fn fixed(&mut self, words: &[u8]) -> Result<(), Stop<SasFault>>
        ensures { Gives (λ x. x) result self.new (form.fixed words.now self.old) }
    {
        let line = self.next_line()?;
        self.passing(line == words, ())
    }

    /// A line with a number.
    #[tactic(auto, unfolding(crate::specs::Numbers::number_line))]
    pub fn number_line(&mut self) -> Result<u64, Stop<SasFault>>
        ensures { Gives (λ x. x) result self.new (numbers.number_line self.old) }
    {
        let line = self.next_line()?;
        self.met(number(line))
    }

    /// A line with a number that isn't too small.
    #[tactic(auto, unfolding(crate::specs::Numbers::at_least))]
    pub fn at_least(&mut self, least: u64) -> Result<u64, Stop<SasFault>>
        ensures { Gives (λ x. x) result self.new (numbers.at_least least self.old) }
    {
        let number = self.number_line()?;
        self.passing(least <= number, number)
    }

    /// A line with a number, or -1 for none.
    #[tactic(auto, unfolding(crate::specs::Numbers::number_or_none_line))]
    pub fn number_or_none_line(&mut self) -> Result<Option<u64>, Stop<SasFault>>
        ensures { Gives (λ x. x) result self.new (numbers.number_or_none_line self.old) }
    {
        let line = self.next_line()?;
        self.met(number_or_none(line))
    }

    /// A word that is a number.
    #[tactic(auto, unfolding(crate::specs::Numbers::number))]
    pub fn number(&mut self) -> Result<u64, Stop<SasFault>>
        ensures { Gives (λ x. x) result self.new (numbers.number self.old) }
    {
        let word = self.word()?;
        self.met(number(word))
    }

    /// A word that is a number, or -1 for none.
    #[tactic(auto, unfolding(crate::specs::Numbers::number_or_none))]
    pub fn number_or_none(&mut self) -> Result<Option<u64>, Stop<SasFault>>
        ensures { Gives (λ x. x) result self.new (numbers.number_or_none self.old) }
    {
        let word = self.word()?;
        self.met(number_or_none(word))
    }
}
