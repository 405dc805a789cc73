// Choices of one literal from each of some conditions, negated.

ghost use Rattle.std.specs.Prelude.{◌≡◌, ℕ, ◌++◌, ◌∷◌, [], not, map, IfOk, OnOk};
ghost use Rattle.std.specs.List.{filter, flat_map};
ghost use Rattle.ground_task.specs.declared.types.Cond.{Cond as Literals};
ghost use Rattle.fdr_effects.specs.Rivals.{conditions};
ghost use Rattle.fdr_effects.specs.Standing.{AreForced, alone, forced_by, is_alone, rules_out, standing, turned};
ghost use Rattle.fdr_effects.specs.Effects as words;

use crate::index::Index;
use crate::literals::{Literal, Marked, can_stand};
use crate::rivals::Rival;
use ground_task::Cond;
use lists::List;
use reached_task::FactNumber;
use std::alloc::{AllocError, Global};

/// The numbers of both slices.
fn numbers_of_both(alloc: Global, front: &[u64], back: &[u64]) -> Result<List<u64>, AllocError>
    ensures { IfOk result (λ all. all ≡ front.now ++ back.now) }
{
    let mut all = Vec::from_slice(alloc, front)?;
    all.extend_from_slice(back)?;
    Ok(List::from_vec(all))
}

/// The literals of both conditions.
pub(crate) fn both(
    alloc: Global,
    front: &Cond<FactNumber>,
    back: &Cond<FactNumber>,
) -> Result<Cond<FactNumber>, AllocError>
    ensures { IfOk result (λ all. all ≡ words.both front.now back.now) }
{
    Ok(Cond {
        positive: numbers_of_both(alloc, front.positive.as_slice(), back.positive.as_slice())?,
        negative: numbers_of_both(alloc, front.negative.as_slice(), back.negative.as_slice())?,
    })
}

/// The negations of the literals that the cause doesn't rule out.
fn negations(
    alloc: Global,
    cause: &Marked,
    literals: &Cond<FactNumber>,
) -> Result<Vec<Literal>, AllocError>
    ensures { IfOk result (λ all. all.items ≡ filter (λ one. not (rules_out cause.now one)) (turned literals.now)) }
{
    let positive = literals.positive.as_slice().iter().map(|fact| Literal {
        fact: *fact,
        truth: false,
    });
    let negative = literals.negative.as_slice().iter().map(|fact| Literal {
        fact: *fact,
        truth: true,
    });
    positive
        .chain(negative)
        .filter(|one| !cause.rules_out(*one))
        .collect(alloc)
}

/// The choice with the literal.
fn choice_with(choice: Cond<FactNumber>, one: Literal) -> Result<Cond<FactNumber>, AllocError>
    ensures { IfOk result (λ all. all ≡ words.both choice (alone one)) }
{
    let mut all = choice;
    if one.truth {
        all.positive.push(one.fact)?;
        return Ok(all);
    }
    all.negative.push(one.fact)?;
    Ok(all)
}

/// A copy of the choice with the literal.
fn copy_with(
    alloc: Global,
    choice: &Cond<FactNumber>,
    one: Literal,
) -> Result<Cond<FactNumber>, AllocError>
    ensures { IfOk result (λ all. all ≡ words.both choice.now (alone one)) }
{
    let copy = Cond {
        positive: List::from_vec(Vec::from_slice(alloc, choice.positive.as_slice())?),
        negative: List::from_vec(Vec::from_slice(alloc, choice.negative.as_slice())?),
    };
    choice_with(copy, one)
}

/// Whether there is one literal.
fn is_alone(literals: &Cond<FactNumber>) -> bool
    ensures { result ≡ is_alone literals.now }
{
    let positive = literals.positive.len();
    let negative = literals.negative.len();
    (positive == 1 && negative == 0) || (positive == 0 && negative == 1)
}

/// The literals with the negation of one that is alone.
fn with_forced(
    all: Cond<FactNumber>,
    literals: &Cond<FactNumber>,
) -> Result<Cond<FactNumber>, AllocError>
    ensures { IfOk result (λ more. more ≡ words.both all (forced_by literals.now)) }
{
    let mut all = all;
    if is_alone(literals) {
        all.positive
            .extend_from_slice(literals.negative.as_slice())?;
        all.negative
            .extend_from_slice(literals.positive.as_slice())?;
    }
    Ok(all)
}

/// The cause with what each choice has: the negation of each rival's condition that is one literal. So a choice that
/// contradicts a later rival is seen where it is begun.
pub(crate) fn forced(
    cause: Cond<FactNumber>,
    rivals: &[Rival],
) -> Result<Cond<FactNumber>, AllocError>
    ensures { IfOk result (AreForced cause (conditions rivals.now)) }
{
    let mut all = cause;
    for rival in rivals {
        all = with_forced(all, rival.condition)?;
    }
    Ok(all)
}

/// Adds the choice, unless it contradicts itself.
fn push_standing(
    alloc: Global,
    index: &Index,
    all: &mut Vec<Cond<FactNumber>>,
    choice: Cond<FactNumber>,
) -> Result<(), AllocError>
    ensures { (cause : Literals ℕ) → OnOk result (standing index.now cause all.new.items ≡ standing index.now cause all.old.items ++ standing index.now cause (choice ∷ [])) }
{
    let can = can_stand(alloc, index, &choice)?;
    if !can {
        return Ok(());
    }
    all.push(choice)?;
    Ok(())
}

fn push_copies(
    alloc: Global,
    index: &Index,
    all: &mut Vec<Cond<FactNumber>>,
    choice: &Cond<FactNumber>,
    ones: &[Literal],
) -> Result<(), AllocError>
    ensures { (cause : Literals ℕ) → OnOk result (standing index.now cause all.new.items ≡ standing index.now cause all.old.items ++ standing index.now cause (map (λ one. words.both choice.now (alone one)) ones.now)) }
{
    for one in ones {
        push_standing(alloc, index, all, copy_with(alloc, choice, *one)?)?;
    }
    Ok(())
}

/// The choice with each of these. One alone copies nothing, and is looked at where there is a choice again.
fn push_both(
    alloc: Global,
    index: &Index,
    all: &mut Vec<Cond<FactNumber>>,
    choice: Cond<FactNumber>,
    ones: &[Literal],
) -> Result<(), AllocError>
    ensures { (cause : Literals ℕ) → OnOk result (standing index.now cause all.new.items ≡ standing index.now cause all.old.items ++ standing index.now cause (map (λ one. words.both choice (alone one)) ones.now)) }
{
    match ones {
        [one] => {
            all.push(choice_with(choice, *one)?)?;
            Ok(())
        }
        _ => push_copies(alloc, index, all, &choice, ones),
    }
}

/// Each choice with the negation of each literal.
fn choices_with_each(
    alloc: Global,
    cause: &Marked,
    choices: Vec<Cond<FactNumber>>,
    literals: &Cond<FactNumber>,
) -> Result<Vec<Cond<FactNumber>>, AllocError>
    ensures { IfOk result (λ all. standing cause.now.cover cause.now.literals all.items ≡ standing cause.now.cover cause.now.literals (flat_map (λ choice. map (λ one. words.both choice one) (words.negations literals.now)) choices.items)) }
{
    let ones = negations(alloc, cause, literals)?;
    let mut all = Vec::with_capacity(alloc, choices.len())?;
    for choice in choices {
        push_both(alloc, cause.index(), &mut all, choice, ones.as_slice())?;
    }
    Ok(all)
}

/// The choices of one literal from each condition of the rivals, negated, with all that can stand beside the cause. A choice
/// that contradicts itself is dropped before the next rival is looked at.
pub(crate) fn negated_choices(
    alloc: Global,
    cause: &Marked,
    rivals: &[Rival],
) -> Result<Vec<Cond<FactNumber>>, AllocError>
    ensures { IfOk result (λ all. standing cause.now.cover cause.now.literals all.items ≡ standing cause.now.cover cause.now.literals (words.negated_choices (conditions rivals.now))) }
{
    let mut all = Vec::new(alloc);
    all.push(Cond {
        positive: List::from_vec(Vec::new(alloc)),
        negative: List::from_vec(Vec::new(alloc)),
    })?;
    for rival in rivals {
        all = choices_with_each(alloc, cause, all, rival.condition)?;
    }
    Ok(all)
}
