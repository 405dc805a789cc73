// How a condition is cut into parts.
ghost use Rattle.std.specs.Prelude.{◌≡◌, ◌++◌, ◌+◌, ◌&&◌, ◌||◌, [], ℕ, suc, not, map, length, nat_lt, true, false, IfOk, if◌then◌else◌};
ghost use Rattle.pddl_syntax.specs.declared.types.Domain.{Domain};
ghost use Rattle.pddl_syntax.specs.declared.types.Problem.{Problem};
ghost use Rattle.fault_positions.specs.Sizes.{size_of};
ghost use Rattle.normal_task.specs.declared.task.Literal.TheVariants.{Holds, Equal};
ghost use Rattle.normal_task.specs.declared.task.Place.TheVariants as place;
ghost use Rattle.normal_task.specs.Numbers.{predicate_number, ranges_of};
ghost use Rattle.normal_task.specs.Parts as spec;
ghost use Rattle.normal_rows.specs.MadeThings.{IsMadeOf};
ghost use Rattle.action_schemas.specs.Cuts.{combined, quantified, wanted_of};

use crate::emptiness::has_parts;
use lists::{List, checked_sum};
use normal_rows::{
    Made, Scope, Variable, behind_ranges, free_slots, joined_lists, nothing_made, one_part, paired,
    part_alone, place_of, places_of, renumbered, scope_inside, variables_of, with_fresh,
};
use normal_task::laws::as_many_parts;
use normal_task::{Literal, Part};
use numbering::Numbering;
use pddl_syntax::{Atom, Condition, Term, Typed};
use std::alloc::{AllocError, Global};

/// Where a condition stands: the variables in scope, and how many variables there are around it.
#[derive(Clone, Copy)]
pub struct Here<'s, 'n, 'a> {
    pub numbering: &'n Numbering<'a>,
    pub scope: &'s Scope<'n, 'a>,
    pub around: u64,
}

/// What a quantifier asks of the objects of its variables.
#[derive(Clone, Copy)]
struct Asked {
    /// Whether some are to make the inside true, or none.
    some: bool,
    /// Whether it is the inside itself, or its negation.
    positive: bool,
}

impl Asked {
    /// A `forall` asks that none make the negation of the inside true.
    fn by_forall(positive: bool) -> Asked
        ensures { result ≡ record { some = not positive; positive = false } }
    {
        Asked {
            some: !positive,
            positive: false,
        }
    }

    /// An `exists` asks that some make the inside true.
    fn by_exists(positive: bool) -> Asked
        ensures { result ≡ record { some = positive; positive = true } }
    {
        Asked {
            some: positive,
            positive: true,
        }
    }
}

// ---- conditions

/// How a condition is cut, or its negation where it isn't `positive`.
pub fn cut<'n, 'a>(
    alloc: Global,
    here: &Here<'_, 'n, 'a>,
    condition: &'a Condition,
    positive: bool,
    next: u64,
) -> Result<Made<Part>, AllocError>
    ensures { IfOk result (IsMadeOf (spec.parts here.now.numbering.now.domain here.now.numbering.now.problem condition.now positive here.now.scope.now here.now.around next)) }
{
    let wanted = are_made(condition, positive, true, false);
    cut_wanted(alloc, here, condition, positive, wanted, next)
}

/// Whether parts of the condition are to be made: where they are wanted, and it has some. Where it is known that it has, it isn't
/// looked at.
fn are_made(condition: &Condition, positive: bool, wanted: bool, has_some: bool) -> bool
    ensures exact { result ≡ (wanted && (has_some || nat_lt 0 (size_of condition.now positive).parts)) }
    ensures same { (domain : Domain) (problem : Problem) (scope : spec.Scope) (around next : ℕ) →
        (wanted_of result (spec.parts domain problem condition.now positive scope around next)).items ≡ (wanted_of wanted (spec.parts domain problem condition.now positive scope around next)).items }
{
    as_many_parts();
    wanted && (has_some || has_parts(condition, positive))
}

fn both(one: bool, other: bool) -> bool
    ensures { result ≡ (one && other) }
{
    one && other
}

/// How a condition is cut, or its negation where it isn't `positive`. Where its parts aren't wanted, its new predicates are made
/// alone: a member without parts leaves none to the pairings that it stands in, however many the others have. So a caller looks
/// whether there are any before it wants them.
#[cycle(cut_wanted)]
pub(crate) fn cut_wanted<'n, 'a>(
    alloc: Global,
    here: &Here<'_, 'n, 'a>,
    condition: &'a Condition,
    positive: bool,
    wanted: bool,
    next: u64,
) -> Result<Made<Part>, AllocError>
    ensures { IfOk result (IsMadeOf (wanted_of wanted (spec.parts here.now.numbering.now.domain here.now.numbering.now.problem condition.now positive here.now.scope.now here.now.around next))) }
{
    match condition {
        Condition::True(_) => truth_part(alloc, positive, wanted),
        Condition::Atom(atom) => atom_part(alloc, here, atom, positive, wanted),
        Condition::Equal(left, right, _) => {
            equal_part(alloc, here, left, right, positive, wanted)
        }
        Condition::Not(inside, _) => {
            cut_wanted(alloc, here, inside.get(), !positive, wanted, next)
        }
        Condition::And(members, _) => {
            cut_members(
                alloc,
                here,
                members.as_slice(),
                positive,
                positive,
                wanted,
                next,
            )
        }
        Condition::Or(members, _) => {
            cut_members(
                alloc,
                here,
                members.as_slice(),
                positive,
                !positive,
                wanted,
                next,
            )
        }
        Condition::Imply(premise, conclusion, _) => {
            let premise = premise.get();
            let conclusion = conclusion.get();
            let are_first = are_made(premise, !positive, wanted, !positive);
            let first = cut_wanted(alloc, here, premise, !positive, are_first, next)?;
            let start = checked_sum(next, first.fresh.len() as u64)?;
            let are_second = are_made(conclusion, positive, wanted, !positive);
            let second = cut_wanted(alloc, here, conclusion, positive, are_second, start)?;
            let are_paired = both(wanted, !positive);
            joined_made(alloc, are_paired, here.around, first, second)
        }
        Condition::Forall(variables, inside, _) => {
            let asked = Asked::by_forall(positive);
            cut_quantified(
                alloc,
                here,
                variables.as_slice(),
                inside.get(),
                asked,
                wanted,
                next,
            )
        }
        Condition::Exists(variables, inside, _) => {
            let asked = Asked::by_exists(positive);
            cut_quantified(
                alloc,
                here,
                variables.as_slice(),
                inside.get(),
                asked,
                wanted,
                next,
            )
        }
    }
}

/// Every pairing of the members' parts where `every` says so, or else their parts one after another. Where pairings have some,
/// each member has.
#[cycle(cut_wanted)]
fn cut_members<'n, 'a>(
    alloc: Global,
    here: &Here<'_, 'n, 'a>,
    members: &'a [Condition],
    positive: bool,
    every: bool,
    wanted: bool,
    next: u64,
) -> Result<Made<Part>, AllocError>
    ensures { IfOk result (IsMadeOf (wanted_of wanted (combined every here.now.around (map (λ member. member.cut positive here.now.scope.now here.now.around) (map (spec.known here.now.numbering.now.domain here.now.numbering.now.problem) members.now)) next))) }
{
    let are_paired = both(wanted, every);
    let mut made = neutral(alloc, are_paired)?;
    for member in members {
        let start = checked_sum(next, made.fresh.len() as u64)?;
        let are_more = are_made(member, positive, wanted, every);
        let more = cut_wanted(alloc, here, member, positive, are_more, start)?;
        made = joined_made(alloc, are_paired, here.around, made, more)?;
    }
    Ok(made)
}

/// Some objects of the variables make the inside true, or its negation, or none do: as is asked.
#[cycle(cut_wanted)]
fn cut_quantified<'n, 'a>(
    alloc: Global,
    here: &Here<'_, 'n, 'a>,
    variables: &'a [Typed],
    inside: &'a Condition,
    asked: Asked,
    wanted: bool,
    next: u64,
) -> Result<Made<Part>, AllocError>
    ensures { IfOk result (IsMadeOf (wanted_of wanted (quantified here.now.numbering.now.domain here.now.numbering.now.problem variables.now (spec.known here.now.numbering.now.domain here.now.numbering.now.problem inside.now) asked.some asked.positive here.now.scope.now here.now.around next))) }
{
    if asked.some {
        return cut_some(alloc, here, variables, inside, asked.positive, wanted, next);
    }
    let arguments = free_slots(alloc, here.numbering, variables, inside, here.scope)?;
    let made = cut_denied(
        alloc,
        here.numbering,
        &arguments,
        variables,
        inside,
        asked.positive,
        next,
    )?;
    Ok(if_wanted(alloc, wanted, made))
}

/// Some objects of the variables make the inside true, or its negation where it isn't `positive`.
#[cycle(cut_wanted)]
fn cut_some<'n, 'a>(
    alloc: Global,
    here: &Here<'_, 'n, 'a>,
    variables: &'a [Typed],
    inside: &'a Condition,
    positive: bool,
    wanted: bool,
    next: u64,
) -> Result<Made<Part>, AllocError>
    ensures { IfOk result (IsMadeOf (wanted_of wanted (spec.exists_inside here.now.numbering.now.domain here.now.numbering.now.problem variables.now (spec.known here.now.numbering.now.domain here.now.numbering.now.problem inside.now) positive here.now.scope.now here.now.around next))) }
{
    let around = checked_sum(here.around, variables.len() as u64)?;
    let scope = scope_inside(alloc, here.numbering, variables, here.around, here.scope)?;
    let inner = Here {
        numbering: here.numbering,
        scope: &scope,
        around,
    };
    let made = cut_wanted(alloc, &inner, inside, positive, wanted, next)?;
    behind(alloc, here.numbering, variables, made)
}

/// The parts of a denied condition, for which a new predicate with these arguments stands.
#[cycle(cut_wanted)]
fn cut_denied<'n, 'a>(
    alloc: Global,
    numbering: &'n Numbering<'a>,
    arguments: &[Variable<'n, 'a>],
    variables: &'a [Typed],
    inside: &'a Condition,
    positive: bool,
    next: u64,
) -> Result<Made<Part>, AllocError>
    ensures { IfOk result (IsMadeOf (spec.denied numbering.now.domain numbering.now.problem arguments.now next (spec.exists_inside numbering.now.domain numbering.now.problem variables.now (spec.known numbering.now.domain numbering.now.problem inside.now) positive (spec.renumbered arguments.now 0 []) (length arguments.now) (suc next)))) }
{
    let after = checked_sum(next, 1)?;
    let scope = renumbered(alloc, arguments)?;
    let there = Here {
        numbering,
        scope: &scope,
        around: arguments.len() as u64,
    };
    let wanted = are_made(inside, positive, true, false);
    let body = cut_some(alloc, &there, variables, inside, positive, wanted, after)?;
    denied(alloc, numbering, arguments, next, body)
}

/// The negation of a new derived predicate with these arguments, whose axioms have these parts.
fn denied(
    alloc: Global,
    numbering: &Numbering<'_>,
    arguments: &[Variable<'_, '_>],
    next: u64,
    body: Made<Part>,
) -> Result<Made<Part>, AllocError>
    ensures { IfOk result (IsMadeOf (spec.denied numbering.now.domain numbering.now.problem arguments.now next record { items = body.items; fresh = body.fresh })) }
{
    let fresh = with_fresh(alloc, arguments, body)?;
    let items = denied_atom(alloc, numbering, arguments, next)?;
    Ok(Made { items, fresh })
}

/// The part of the negation of a new derived predicate with these arguments.
fn denied_atom(
    alloc: Global,
    numbering: &Numbering<'_>,
    arguments: &[Variable<'_, '_>],
    next: u64,
) -> Result<List<Part>, AllocError>
    ensures { IfOk result (λ items. items ≡ (spec.only (Holds false (spec.fresh_number numbering.now.domain numbering.now.problem next) (map (λ slot. place.Variable slot.place) arguments.now))).items) }
{
    let predicate = checked_sum(numbering.domain_predicates(), next)?;
    let places = variables_of(alloc, arguments)?;
    one_part(alloc, Literal::Holds(false, predicate, places))
}

/// The parts only where they are wanted, and the new predicates in any case.
fn if_wanted(alloc: Global, wanted: bool, made: Made<Part>) -> Made<Part>
    ensures { (result.items ≡ (if wanted then made.items else [])) × (result.fresh ≡ made.fresh) }
{
    if wanted {
        return made;
    }
    let Made { items: _, fresh } = made;
    let items = List::from_vec(Vec::new(alloc));
    Made { items, fresh }
}

/// The parts behind some variables more.
fn behind(
    alloc: Global,
    numbering: &Numbering<'_>,
    variables: &[Typed],
    made: Made<Part>,
) -> Result<Made<Part>, AllocError>
    ensures { IfOk result (λ all. (all.items ≡ map (spec.with_variables (ranges_of numbering.now.domain numbering.now.problem variables.now)) made.items) × (all.fresh ≡ made.fresh)) }
{
    let Made { items, fresh } = made;
    let items = behind_ranges(alloc, numbering, variables, items)?;
    Ok(Made { items, fresh })
}

// ---- one part, and no part

fn only(alloc: Global, literal: Literal) -> Result<Made<Part>, AllocError>
    ensures { IfOk result (IsMadeOf (spec.only literal)) }
{
    Ok(Made {
        items: one_part(alloc, literal)?,
        fresh: List::from_vec(Vec::new(alloc)),
    })
}

/// What is made of the condition that is always true.
fn truth_part(alloc: Global, positive: bool, wanted: bool) -> Result<Made<Part>, AllocError>
    ensures { IfOk result (IsMadeOf (wanted_of wanted (combined positive 0 [] 0))) }
{
    neutral(alloc, wanted && positive)
}

fn atom_part(
    alloc: Global,
    here: &Here<'_, '_, '_>,
    atom: &Atom,
    positive: bool,
    wanted: bool,
) -> Result<Made<Part>, AllocError>
    ensures { IfOk result (IsMadeOf (wanted_of wanted (spec.only (Holds positive (predicate_number here.now.numbering.now.domain atom.now.predicate.name) (spec.places_of here.now.numbering.now.domain here.now.numbering.now.problem here.now.scope.now atom.now.terms))))) }
{
    if !wanted {
        return Ok(nothing_made(alloc));
    }
    let predicate = here.numbering.predicate(atom.predicate.name.as_slice());
    let places = places_of(alloc, here.numbering, here.scope, atom.terms.as_slice())?;
    only(alloc, Literal::Holds(positive, predicate, places))
}

fn equal_part(
    alloc: Global,
    here: &Here<'_, '_, '_>,
    left: &Term,
    right: &Term,
    positive: bool,
    wanted: bool,
) -> Result<Made<Part>, AllocError>
    ensures { IfOk result (IsMadeOf (wanted_of wanted (spec.only (Equal positive (spec.place_of here.now.numbering.now.domain here.now.numbering.now.problem here.now.scope.now left.now) (spec.place_of here.now.numbering.now.domain here.now.numbering.now.problem here.now.scope.now right.now))))) }
{
    if !wanted {
        return Ok(nothing_made(alloc));
    }
    let left = place_of(here.numbering, here.scope, left);
    let right = place_of(here.numbering, here.scope, right);
    only(alloc, Literal::Equal(positive, left, right))
}

/// What is made of no members: the part of nothing where every member must hold, or else no part.
pub(crate) fn neutral(alloc: Global, every: bool) -> Result<Made<Part>, AllocError>
    ensures { IfOk result (IsMadeOf (combined every 0 [] 0)) }
{
    let items = if every {
        part_alone(alloc, List::from_vec(Vec::new(alloc)))?
    } else {
        List::from_vec(Vec::new(alloc))
    };
    Ok(Made {
        items,
        fresh: List::from_vec(Vec::new(alloc)),
    })
}

// ---- two things that are made

/// Every pairing of a part of the first with one of the second where `every` says so, or else the parts of the first and
/// then those of the second.
fn joined_parts(
    alloc: Global,
    every: bool,
    around: u64,
    first: List<Part>,
    second: List<Part>,
) -> Result<List<Part>, AllocError>
    ensures { IfOk result (λ parts. parts ≡ (if every then spec.paired around first second else first ++ second)) }
{
    if every {
        paired(alloc, around, first, second.as_slice())
    } else {
        joined_lists(first, second)
    }
}

/// The parts of both, joined, and the new predicates of the first and then those of the second.
pub(crate) fn joined_made(
    alloc: Global,
    every: bool,
    around: u64,
    first: Made<Part>,
    second: Made<Part>,
) -> Result<Made<Part>, AllocError>
    ensures { IfOk result (λ made. (made.items ≡ (if every then spec.paired around first.items second.items else first.items ++ second.items)) × (made.fresh ≡ first.fresh ++ second.fresh)) }
{
    let items = joined_parts(alloc, every, around, first.items, second.items)?;
    let fresh = joined_lists(first.fresh, second.fresh)?;
    Ok(Made { items, fresh })
}
