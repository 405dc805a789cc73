// Conditions.
ghost use Rattle.std.specs.Prelude.{◌≡◌, [], ◌∷◌, if◌then◌else◌};
ghost use Rattle.pddl_syntax.specs.Conditions as spec;
ghost use Rattle.pddl_syntax.specs.Outcome.{Reads, both, every, first, made, own, Gives};
ghost use Rattle.pddl_syntax.specs.Shapes.{check_all, check_exact};
ghost use Rattle.pddl_syntax.specs.Values.{atom as atom_of, variables, term as term_of};
ghost use Rattle.pddl_lexer.specs.Members.{rest};
ghost use Rattle.pddl_lexer.specs.declared.fault.ShapePlace.TheVariants as places;
ghost use Rattle.pddl_syntax.specs.declared.expected.Expected.TheVariants as expected;
ghost use Rattle.pddl_syntax.specs.declared.types.Condition.TheVariants as kinds;

use crate::boxes::boxed;
use crate::checks::{check_all, check_exact};
use crate::cursor::Cursor;
use crate::expected::{Expected, malformed, unsupported};
use crate::types::{Condition, Typed};
use crate::values::{atom, term, variables};
use crate::words::spells;
use lists::{Boxed, List, Stop};
use pddl_lexer::{At, Fault, ShapePlace};
use std::alloc::Global;

/// What the first word of a condition says.
#[derive(Clone, Copy)]
pub(crate) enum ConditionHead {
    And,
    Or,
    Not,
    Imply,
    Forall,
    Exists,
    Equal,
    /// A comparison of numbers, or a preference.
    Unsupported,
    Atom,
}

pub(crate) fn condition_head(word: &[u8]) -> ConditionHead
    ensures { result ≡ spec.condition_head word.now }
{
    if spells(word, b"and") {
        ConditionHead::And
    } else if spells(word, b"or") {
        ConditionHead::Or
    } else if spells(word, b"not") {
        ConditionHead::Not
    } else if spells(word, b"imply") {
        ConditionHead::Imply
    } else if spells(word, b"forall") {
        ConditionHead::Forall
    } else if spells(word, b"exists") {
        ConditionHead::Exists
    } else if spells(word, b"=") {
        ConditionHead::Equal
    } else if is_unsupported(word) {
        ConditionHead::Unsupported
    } else {
        ConditionHead::Atom
    }
}

fn is_unsupported(word: &[u8]) -> bool
    ensures { result ≡ spec.is_unsupported word.now }
{
    spells(word, b"<")
        || spells(word, b">")
        || spells(word, b"<=")
        || spells(word, b">=")
        || spells(word, b"preference")
}

pub(crate) const CONDITION: Expected = Expected::List(ShapePlace::Condition);

pub(crate) const VARIABLES: Expected = Expected::List(ShapePlace::VariableList);

/// The variables of a quantifier, which stand before a list that is of this place too: the members of a list at this position.
pub(crate) fn bound(
    alloc: Global,
    place: ShapePlace,
    at: At,
    members: &Cursor<'_>,
) -> Result<List<Typed>, Stop<Fault>>
    ensures { Gives result (first (own (check_exact place at (expected.List places.VariableList ∷ expected.List place ∷ []) members.now) (variables members.now))) }
{
    check_exact(place, at, &[VARIABLES, Expected::List(place)], members)?;
    variables(alloc, members)
}

/// The equation of two members of a list at this position.
fn equation(alloc: Global, at: At, members: &Cursor<'_>) -> Result<Condition, Stop<Fault>>
    ensures { Gives result (first (own (check_exact places.Condition at (expected.Term ∷ expected.Term ∷ []) members.now) (Reads (kinds.Equal (term_of members.now) (term_of (rest members.now)) at)))) }
{
    let terms = [Expected::Term, Expected::Term];
    check_exact(ShapePlace::Condition, at, &terms, members)?;
    let left = term(alloc, members)?;
    let right = term(alloc, &members.rest())?;
    Ok(Condition::Equal(left, right, at))
}

/// The atom of these members of a list at this position.
fn atomic(alloc: Global, at: At, members: &Cursor<'_>) -> Result<Condition, Stop<Fault>>
    ensures { Gives result (first (made kinds.Atom (atom_of expected.Term places.Condition at members.now))) }
{
    let atom = atom(alloc, Expected::Term, ShapePlace::Condition, at, members)?;
    Ok(Condition::Atom(atom))
}

fn quantifier(universal: bool, bound: List<Typed>, inner: Boxed<Condition>, at: At) -> Condition
    ensures { result ≡ if universal then kinds.Forall bound inner at else kinds.Exists bound inner at }
{
    if universal {
        Condition::Forall(bound, inner, at)
    } else {
        Condition::Exists(bound, inner, at)
    }
}

fn junction(conjunctive: bool, members: List<Condition>, at: At) -> Condition
    ensures { result ≡ if conjunctive then kinds.And members at else kinds.Or members at }
{
    if conjunctive {
        Condition::And(members, at)
    } else {
        Condition::Or(members, at)
    }
}

/// The condition here.
#[cycle(condition)]
pub fn condition(alloc: Global, cursor: &Cursor<'_>) -> Result<Condition, Stop<Fault>>
    ensures { Gives result (first (spec.condition cursor.now)) }
{
    let at = cursor.at();
    if !cursor.is_list() {
        return Err(malformed(ShapePlace::Condition, at).into());
    }
    let inside = cursor.inside();
    if inside.is_empty() {
        return Ok(Condition::True(at));
    }
    if inside.is_list() {
        return Err(malformed(ShapePlace::Condition, inside.at()).into());
    }
    let head = condition_head(inside.word());
    by_head(alloc, head, at, &inside, &inside.rest())
}

/// The condition of these members, with a head before the others. It stands at this position.
#[cycle(condition)]
#[tactic(auto, unfolding(crate::specs::Conditions::by_head))]
fn by_head(
    alloc: Global,
    head: ConditionHead,
    at: At,
    members: &Cursor<'_>,
    others: &Cursor<'_>,
) -> Result<Condition, Stop<Fault>>
    ensures { Gives result (first (spec.by_head head at members.now others.now (every spec.condition others.now) (spec.condition others.now) (spec.condition (rest others.now)))) }
{
    match head {
        ConditionHead::And => joined(alloc, true, at, others),
        ConditionHead::Or => joined(alloc, false, at, others),
        ConditionHead::Not => negation(alloc, at, others),
        ConditionHead::Imply => implication(alloc, at, others),
        ConditionHead::Forall => quantified(alloc, true, at, others),
        ConditionHead::Exists => quantified(alloc, false, at, others),
        ConditionHead::Equal => equation(alloc, at, others),
        ConditionHead::Unsupported => Err(unsupported(at).into()),
        ConditionHead::Atom => atomic(alloc, at, members),
    }
}

/// The negation of the only member of a list at this position.
#[cycle(condition)]
#[tactic(auto, using(crate::proofs::Readings::first_own_made))]
fn negation(alloc: Global, at: At, members: &Cursor<'_>) -> Result<Condition, Stop<Fault>>
    ensures { Gives result (first (own (check_exact places.Condition at (expected.List places.Condition ∷ []) members.now) (made (λ condition. kinds.Not condition at) (spec.condition members.now)))) }
{
    check_exact(ShapePlace::Condition, at, &[CONDITION], members)?;
    let negated = boxed(alloc, condition(alloc, members))?;
    Ok(Condition::Not(negated, at))
}

/// The implication of two members of a list at this position.
#[cycle(condition)]
fn implication(alloc: Global, at: At, members: &Cursor<'_>) -> Result<Condition, Stop<Fault>>
    ensures { Gives result (first (own (check_exact places.Condition at (expected.List places.Condition ∷ expected.List places.Condition ∷ []) members.now) (both (λ premise conclusion. kinds.Imply premise conclusion at) (spec.condition members.now) (spec.condition (rest members.now))))) }
{
    check_exact(ShapePlace::Condition, at, &[CONDITION, CONDITION], members)?;
    let premise = boxed(alloc, condition(alloc, members))?;
    let conclusion = boxed(alloc, condition(alloc, &members.rest()))?;
    Ok(Condition::Imply(premise, conclusion, at))
}

/// The quantifier at this position, a universal or an existential one.
#[cycle(condition)]
fn quantified(
    alloc: Global,
    universal: bool,
    at: At,
    members: &Cursor<'_>,
) -> Result<Condition, Stop<Fault>>
    ensures { Gives result (first (own (check_exact places.Condition at (expected.List places.VariableList ∷ expected.List places.Condition ∷ []) members.now) (both (λ bound inner. if universal then kinds.Forall bound inner at else kinds.Exists bound inner at) (variables members.now) (spec.condition (rest members.now))))) }
{
    let bound = bound(alloc, ShapePlace::Condition, at, members)?;
    let inner = boxed(alloc, condition(alloc, &members.rest()))?;
    Ok(quantifier(universal, bound, inner, at))
}

/// The conjunction of all members of a list at this position, or their disjunction.
#[cycle(condition)]
fn joined(
    alloc: Global,
    conjunctive: bool,
    at: At,
    members: &Cursor<'_>,
) -> Result<Condition, Stop<Fault>>
    ensures { Gives result (first (made (λ conditions. if conjunctive then kinds.And conditions at else kinds.Or conditions at) (own (check_all (expected.List places.Condition) members.now) (every spec.condition members.now)))) }
{
    check_all(CONDITION, members)?;
    let mut cursor = members.copy();
    let mut conditions = Vec::new(alloc);
    while !cursor.is_empty() {
        conditions.push(condition(alloc, &cursor)?)?;
        cursor = cursor.rest();
    }
    Ok(junction(conjunctive, List::from_vec(conditions), at))
}
