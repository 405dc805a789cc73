//! What a run is asked for.

ghost use Rattle.std.specs.Prelude.{◌≡◌, ◌==◌, Some, None, IfOk, IfErr, map, option_map};
ghost use Rattle.std.specs.List.{slice_split};
ghost use Rattle.command_line.specs.Accepted as words_of;
ghost use Rattle.pass_book.specs.Held.{held_kinds};
ghost use Rattle.pass_book.specs.Passes.{first_missing};
ghost use Rattle.translator.specs.Asked as asked;
ghost use Rattle.translator.specs.Requests.{asked_by};
ghost use Rattle.translator.specs.Stages.{IsRefusal};

use command_line::{Accepted, read_words};
use messages::End;
use pass_book::{Book, PassKind};
use std::alloc::{AllocError, Global};

/// What the words ask for, where each pass that they name is in the book: its kinds, in the order of the words.
#[derive(Drop)]
pub(crate) struct Request<'a> {
    pub(crate) accepted: Accepted<'a>,
    pub(crate) passes: Vec<PassKind>,
}

/// What the words ask for.
pub(crate) fn requested<'a>(
    alloc: Global,
    words: &'a Vec<String>,
    book: &Book,
) -> Result<Request<'a>, End<'a>>
    ensures ok { IfOk result (λ request. asked.asked_of book.now words.now.items ≡ Some (asked_by request)) }
    ensures held { IfOk result (λ request. first_missing (held_kinds book.now) request.passes.items ≡ None) }
    ensures err { IfErr result (IsRefusal (asked.asked_of book.now words.now.items)) }
{
    match read_words(alloc, words) {
        Ok(Some(accepted)) => with_passes(alloc, accepted, book),
        Ok(None) => Err(End::Usage),
        Err(_) => Err(End::NoMemory),
    }
}

/// What accepted words ask for, with the passes that they name.
fn with_passes<'a>(
    alloc: Global,
    accepted: Accepted<'a>,
    book: &Book,
) -> Result<Request<'a>, End<'a>>
    ensures ok { IfOk result (λ request. asked.if_held (held_kinds book.now) (Some (words_of.asked_by accepted.entry)) ≡ Some (asked_by request)) }
    ensures held { IfOk result (λ request. first_missing (held_kinds book.now) request.passes.items ≡ None) }
    ensures err { IfErr result (IsRefusal (asked.if_held (held_kinds book.now) (Some (words_of.asked_by accepted.entry)))) }
{
    match kinds_of(alloc, accepted.passes, book) {
        Ok(Some(passes)) => Ok(Request { accepted, passes }),
        Ok(None) => Err(End::Usage),
        Err(_) => Err(End::NoMemory),
    }
}

/// The kinds that a list of passes names, if each name is one of a kind in the book.
fn kinds_of(
    alloc: Global,
    list: Option<&str>,
    book: &Book,
) -> Result<Option<Vec<PassKind>>, AllocError>
    ensures kinds { IfOk result (λ kinds. option_map (λ kinds. kinds.items) kinds ≡ asked.kinds_of (held_kinds book.now) (option_map (λ list. list.now) list.entry)) }
{
    match list {
        Some(list) => kinds_named(alloc, names_in(alloc, list)?.as_slice(), book),
        None => Ok(Some(Vec::new(alloc))),
    }
}

/// The names that have commas between them.
fn names_in<'a>(alloc: Global, list: &'a str) -> Result<Vec<&'a str>, AllocError>
    ensures { IfOk result (λ names. map (λ name. name.now) names.items ≡ slice_split (λ byte. byte == 44) list.now) }
{
    list.split(',').collect(alloc)
}

/// The kinds of these names, if each name is one of a kind in the book.
fn kinds_named(
    alloc: Global,
    names: &[&str],
    book: &Book,
) -> Result<Option<Vec<PassKind>>, AllocError>
    ensures { IfOk result (λ kinds. option_map (λ kinds. kinds.items) kinds ≡ asked.kinds_named (held_kinds book.now) (map (λ name. name.now) names.now)) }
{
    let mut kinds = Vec::new(alloc);
    for name in names {
        let Some(kind) = kind_held(*name, book) else {
            return Ok(None);
        };
        kinds.push(kind)?;
    }
    Ok(Some(kinds))
}

/// The kind of this name, if it is one and the book has it.
fn kind_held(name: &str, book: &Book) -> Option<PassKind>
    ensures { result ≡ asked.kind_held (held_kinds book.now) name.now }
{
    let kind = kind_named(name)?;
    if book.has(kind) { Some(kind) } else { None }
}

/// The kind of the passes of this name.
fn kind_named(name: &str) -> Option<PassKind>
    ensures { result ≡ asked.kind_named name.now }
{
    match name {
        "order" => Some(PassKind::Order),
        "relevance" => Some(PassKind::Relevance),
        "h2" => Some(PassKind::H2),
        _ => None,
    }
}
