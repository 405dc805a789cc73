// What lists without conditions in them say: names, arguments, and names with types.
ghost use Rattle.std.specs.Prelude.{◌≡◌, IfOk};
ghost use Rattle.pddl_syntax.specs.Outcome.{at_each, first, made, Gives};
ghost use Rattle.pddl_syntax.specs.Values as spec;

use crate::checks::{check_atom, check_eithers, check_head, check_typed};
use crate::cursor::Cursor;
use crate::expected::Expected;
use crate::number::number_of;
use crate::types::{Atom, Head, Named, Term, Typed};
use crate::words::{begins_with_question_mark, is_dash};
use lists::{List, Name, Stop};
use pddl_lexer::{At, Fault, Kind, ShapePlace};
use std::alloc::{AllocError, Global};

/// The word here, lowered.
pub fn named(alloc: Global, cursor: &Cursor<'_>) -> Result<Named, AllocError>
    ensures { IfOk result (λ named. named ≡ spec.named cursor.now) }
{
    Ok(Named {
        name: Name::lowered(alloc, cursor.word())?,
        at: cursor.at(),
    })
}

/// The argument here.
pub(crate) fn term(alloc: Global, cursor: &Cursor<'_>) -> Result<Term, AllocError>
    ensures { IfOk result (λ term. term ≡ spec.term cursor.now) }
{
    let named = named(alloc, cursor)?;
    if begins_with_question_mark(cursor.word()) {
        Ok(Term::Variable(named))
    } else {
        Ok(Term::Object(named))
    }
}

/// How many members there are, or the greatest `usize` where there are more.
#[tactic(auto, using(crate::proofs::Rows::fewer))]
fn member_count(members: &Cursor<'_>) -> usize {
    let mut cursor = members.copy();
    let mut count: usize = 0;
    while !cursor.is_empty() {
        count = count.saturating_add(1);
        cursor = cursor.rest();
    }
    count
}

/// The arguments. Their list has room for no more, since a problem may have millions of atoms.
#[tactic(auto, using(crate::proofs::Rows::each_turn, crate::proofs::Rows::each_ended, crate::proofs::Rows::fewer))]
fn terms(alloc: Global, members: &Cursor<'_>) -> Result<List<Term>, AllocError>
    ensures { IfOk result (λ terms. terms ≡ at_each spec.term members.now) }
{
    let mut cursor = members.copy();
    let mut terms = Vec::with_capacity(alloc, member_count(members))?;
    while !cursor.is_empty() {
        terms.push(term(alloc, &cursor)?)?;
        cursor = cursor.rest();
    }
    Ok(List::from_vec(terms))
}

/// A symbol with its arguments. They stand in a list of this place, at this position.
pub fn atom(
    alloc: Global,
    argument: Expected,
    place: ShapePlace,
    at: At,
    members: &Cursor<'_>,
) -> Result<Atom, Stop<Fault>>
    ensures { Gives result (first (spec.atom argument place at members.now)) }
{
    check_atom(argument, place, at, members)?;
    Ok(Atom {
        predicate: named(alloc, members)?,
        terms: terms(alloc, &members.rest())?,
        at,
    })
}

/// The number here.
pub fn number(cursor: &Cursor<'_>) -> Result<u64, Stop<Fault>>
    ensures { Gives result (first (spec.number cursor.now)) }
{
    match number_of(cursor.word()) {
        Some(number) => Ok(number),
        None => Err(Stop::Fault(Fault {
            kind: Kind::NumberTooLarge,
            at: cursor.at(),
        })),
    }
}

/// The names of all members.
#[tactic(auto, using(crate::proofs::Rows::each_turn, crate::proofs::Rows::each_ended, crate::proofs::Rows::fewer))]
fn each_named(alloc: Global, members: &Cursor<'_>) -> Result<List<Named>, AllocError>
    ensures { IfOk result (λ names. names ≡ at_each spec.named members.now) }
{
    let mut cursor = members.copy();
    let mut names = Vec::new(alloc);
    while !cursor.is_empty() {
        names.push(named(alloc, &cursor)?)?;
        cursor = cursor.rest();
    }
    Ok(List::from_vec(names))
}

/// The type here, or the several types of an `either`.
fn listed_types(alloc: Global, cursor: &Cursor<'_>) -> Result<List<Named>, AllocError>
    ensures { IfOk result (λ types. types ≡ spec.listed_types cursor.now) }
{
    if cursor.is_list() {
        return each_named(alloc, &cursor.inside().rest());
    }
    let mut types = Vec::new(alloc);
    types.push(named(alloc, cursor)?)?;
    Ok(List::from_vec(types))
}

/// The types after a group that ends here, if there are any.
fn closing_types(alloc: Global, end: &Cursor<'_>) -> Result<List<Named>, AllocError>
    ensures { IfOk result (λ types. types ≡ spec.closing_types end.now) }
{
    if is_dash(end.word()) {
        listed_types(alloc, &end.rest())
    } else {
        Ok(List::from_vec(Vec::new(alloc)))
    }
}

/// Where the group that stands here ends: at a `-`, or at the end of the list.
#[tactic(auto, using(crate::proofs::Groups::same_end, crate::proofs::Groups::at_end, crate::proofs::Groups::at_dash, crate::proofs::Rows::fewer))]
fn group_end<'a>(members: &Cursor<'a>) -> Cursor<'a>
    ensures { result ≡ spec.group_end members.now }
{
    let mut cursor = members.copy();
    while !cursor.is_empty() && !is_dash(cursor.word()) {
        cursor = cursor.rest();
    }
    cursor
}

/// The name or variable here, with the types of its group, which ends there.
fn typed(alloc: Global, cursor: &Cursor<'_>, end: &Cursor<'_>) -> Result<Typed, AllocError>
    ensures { IfOk result (λ typed. typed ≡ spec.with_types (spec.closing_types end.now) (spec.named cursor.now)) }
{
    Ok(Typed {
        name: named(alloc, cursor)?,
        types: closing_types(alloc, end)?,
    })
}

/// Names or variables, each with the types of its group.
#[tactic(auto, using(crate::proofs::Groups::closed, crate::proofs::Groups::longer, crate::proofs::Groups::ended, crate::proofs::Groups::same_end, crate::proofs::Rows::fewer, crate::proofs::Rows::fewer_after_two))]
pub(crate) fn typed_list(alloc: Global, members: &Cursor<'_>) -> Result<List<Typed>, AllocError>
    ensures { IfOk result (λ typed. typed ≡ spec.typed members.now) }
{
    let mut cursor = members.copy();
    let mut end = group_end(members);
    let mut list = Vec::new(alloc);
    while !cursor.is_empty() {
        if is_dash(cursor.word()) {
            cursor = cursor.rest().rest();
            end = group_end(&cursor);
        } else {
            list.push(typed(alloc, &cursor, &end)?)?;
            cursor = cursor.rest();
        }
    }
    Ok(List::from_vec(list))
}

/// A list of names, the members of a section at this position.
pub fn names(alloc: Global, at: At, members: &Cursor<'_>) -> Result<List<Typed>, Stop<Fault>>
    ensures { Gives result (first (spec.names at members.now)) }
{
    let name = Expected::Name(ShapePlace::NameList);
    check_typed(name, ShapePlace::Section, at, members)?;
    Ok(typed_list(alloc, members)?)
}

/// Variables with their types, of which those that are lists were not looked at.
#[tactic(auto, using(crate::proofs::Eithers::made_of, crate::proofs::Eithers::made_fails))]
fn typed_variables(alloc: Global, members: &Cursor<'_>) -> Result<List<Typed>, Stop<Fault>>
    ensures { Gives result (first (made (λ _. spec.typed members.now) (spec.eithers members.now))) }
{
    check_eithers(members)?;
    Ok(typed_list(alloc, members)?)
}

/// The list of variables here.
pub fn variables(alloc: Global, cursor: &Cursor<'_>) -> Result<List<Typed>, Stop<Fault>>
    ensures { Gives result (first (spec.variables cursor.now)) }
{
    let at = cursor.at();
    let inside = cursor.inside();
    check_typed(Expected::Variable, ShapePlace::VariableList, at, &inside)?;
    typed_variables(alloc, &inside)
}

/// The head here.
#[tactic(auto, unfolding(crate::specs::Values::head), using(crate::proofs::Eithers::made_head))]
pub fn head(alloc: Global, cursor: &Cursor<'_>) -> Result<Head, Stop<Fault>>
    ensures { Gives result (first (spec.head cursor.now)) }
{
    let inside = cursor.inside();
    check_head(cursor.at(), &inside)?;
    let variables = typed_variables(alloc, &inside.rest())?;
    let name = named(alloc, &inside)?;
    Ok(Head { name, variables })
}
