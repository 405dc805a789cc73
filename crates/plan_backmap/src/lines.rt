//! One line of a plan file.

ghost use Rattle.std.specs.Prelude.{◌≡◌, ◌≤◌, ◌||◌, ◌++◌, ◌∷◌, length, map, flat_map, IsTrue, IfOk, OnOk};
ghost use Rattle.std.specs.List.{list_any, list_all, prefix_len, suffix_len};
ghost use Rattle.pddl_lexer.specs.Text.{is_word_byte, lowered};
ghost use Rattle.plan_backmap.specs.FirstLine as cut;
ghost use Rattle.plan_backmap.specs.Lines as spec;

use lists::{List, Name};
use pddl_lexer::is_word_byte;
use std::alloc::{AllocError, Global};

/// How many bytes come before the first line feed, or before the end.
fn line_len(text: &[u8]) -> usize
    ensures len { result ≡ prefix_len cut.is_no_feed text.now }
    ensures within { result ≤ length text.now }
{
    text.iter().take_while(|byte| **byte != b'\n').count()
}

/// The first line of a text.
pub(crate) fn first_line(text: &[u8]) -> &[u8]
    ensures { result.now ≡ cut.first_line text.now }
{
    &text[..line_len(text)]
}

/// What follows the first line of a text and its line feed.
pub(crate) fn after_line(text: &[u8]) -> &[u8]
    ensures { result.now ≡ cut.after_line text.now }
{
    match &text[line_len(text)..] {
        [] => &[],
        [_, after @ ..] => after,
    }
}

fn is_space_or_tab(byte: u8) -> bool
    ensures { result ≡ spec.is_space_or_tab byte }
{
    byte == b' ' || byte == b'\t'
}

fn is_trimmed_byte(byte: u8) -> bool
    ensures { result ≡ spec.is_trimmed_byte byte }
{
    byte == b' ' || byte == b'\t' || byte == b'\r'
}

/// How many spaces, tabs and carriage returns the line begins with.
fn start_len(line: &[u8]) -> usize
    ensures len { result ≡ prefix_len spec.is_trimmed_byte line.now }
    ensures within { result ≤ length line.now }
{
    line.iter()
        .take_while(|byte| is_trimmed_byte(**byte))
        .count()
}

/// How many spaces, tabs and carriage returns the line ends with.
fn end_len(line: &[u8]) -> usize
    ensures len { result ≡ suffix_len spec.is_trimmed_byte line.now }
    ensures within { result ≤ length line.now }
{
    line.iter()
        .rev()
        .take_while(|byte| is_trimmed_byte(**byte))
        .count()
}

fn without_start(line: &[u8]) -> &[u8]
    ensures { result.now ≡ spec.without_start line.now }
{
    &line[start_len(line)..]
}

fn without_end(line: &[u8]) -> &[u8]
    ensures { result.now ≡ spec.without_end line.now }
{
    let blanks = end_len(line);
    &line[..line.len() - blanks]
}

/// The line without the spaces, tabs and carriage returns at both ends.
pub(crate) fn trimmed(line: &[u8]) -> &[u8]
    ensures { result.now ≡ spec.trimmed line.now }
{
    without_end(without_start(line))
}

/// Whether the trimmed line is a comment.
pub(crate) fn is_comment(text: &[u8]) -> bool
    ensures { result ≡ spec.is_comment text.now }
{
    match text {
        [] => true,
        [first, ..] => *first == b';',
    }
}

fn is_enclosed(text: &[u8]) -> bool
    ensures { result ≡ spec.is_enclosed text.now }
{
    !text.is_empty() && text[0] == b'(' && text[text.len() - 1] == b')'
}

/// What stands between the parentheses of a step.
pub(crate) fn inside(text: &[u8]) -> &[u8]
    requires { IsTrue (spec.is_enclosed text.now) }
    ensures { result.now ≡ spec.inside text.now }
{
    &text[1..text.len() - 1]
}

fn has_word(text: &[u8]) -> bool
    ensures { result ≡ list_any is_word_byte text.now }
{
    text.iter().any(|byte| is_word_byte(*byte))
}

fn has_only_words(text: &[u8]) -> bool
    ensures { result ≡ list_all (λ b. is_word_byte b || spec.is_space_or_tab b) text.now }
{
    text.iter()
        .all(|byte| is_word_byte(*byte) || is_space_or_tab(*byte))
}

fn are_words(text: &[u8]) -> bool
    ensures { result ≡ spec.are_words text.now }
{
    has_word(text) && has_only_words(text)
}

/// Whether the trimmed line is a step.
pub(crate) fn is_step(line: &[u8]) -> bool
    ensures step { result ≡ spec.is_step line.now }
    ensures enclosed { IsTrue result → IsTrue (spec.is_enclosed line.now) }
{
    is_enclosed(line) && are_words(inside(line))
}

/// The words between spaces and tabs, as they are written.
fn words_inside(alloc: Global, text: &[u8]) -> Result<Vec<&[u8]>, AllocError>
    ensures { IfOk result (λ words. map (λ word. word.now) words.items ≡ spec.words_inside text.now) }
{
    text.split(|byte| is_space_or_tab(*byte))
        .filter(|word| !word.is_empty())
        .collect(alloc)
}

fn lowered_words(alloc: Global, written: &[&[u8]]) -> Result<List<Name>, AllocError>
    ensures { IfOk result (λ words. words ≡ map (λ word. lowered word.now) written.now) }
{
    let mut words = Vec::new(alloc);
    for word in written {
        words.push(Name::lowered(alloc, *word)?)?;
    }
    Ok(List::from_vec(words))
}

/// The words of a step, lowered.
pub(crate) fn words(alloc: Global, text: &[u8]) -> Result<List<Name>, AllocError>
    ensures { IfOk result (λ words. words ≡ map lowered (spec.words_inside text.now)) }
{
    let written = words_inside(alloc, text)?;
    lowered_words(alloc, written.as_slice())
}

/// The words after the first, each after a space.
fn add_words(name: &mut Vec<u8>, words: &[Name]) -> Result<(), AllocError>
    ensures { OnOk result (name.new.items ≡ name.old.items ++ flat_map (λ word. 32 ∷ word) words.now) }
{
    for word in words {
        name.push(b' ')?;
        name.extend_from_slice(word.as_slice())?;
    }
    Ok(())
}

/// The name that the words make: they are joined by single spaces.
pub(crate) fn name(alloc: Global, words: &[Name]) -> Result<Vec<u8>, AllocError>
    ensures { IfOk result (λ name. name.items ≡ spec.name words.now) }
{
    let mut name = Vec::new(alloc);
    if let [first, more @ ..] = words {
        name.extend_from_slice(first.as_slice())?;
        add_words(&mut name, more)?;
    }
    Ok(name)
}
