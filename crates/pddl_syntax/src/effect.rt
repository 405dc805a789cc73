// Effects.
ghost use Rattle.std.specs.Prelude.{◌≡◌, [], ◌∷◌};
ghost use Rattle.pddl_lexer.specs.Members.{rest};
ghost use Rattle.pddl_lexer.specs.declared.fault.ShapePlace.TheVariants as places;
ghost use Rattle.pddl_syntax.specs.declared.expected.Expected.TheVariants as expected;
ghost use Rattle.pddl_syntax.specs.declared.types.Effect.{Effect as Read};
ghost use Rattle.pddl_syntax.specs.declared.types.Effect.TheVariants as kinds;
ghost use Rattle.pddl_syntax.specs.Conditions.{condition};
ghost use Rattle.pddl_syntax.specs.Effects as spec;
ghost use Rattle.pddl_syntax.specs.Outcome.{Reading, both, every, first, made, own, Gives};
ghost use Rattle.pddl_syntax.specs.Shapes.{check_all, check_exact};
ghost use Rattle.pddl_syntax.specs.Values.{atom as atom_of, variables};

use crate::boxes::boxed;
use crate::checks::{check_all, check_exact};
use crate::condition::{CONDITION, bound, condition};
use crate::cursor::Cursor;
use crate::expected::{Expected, malformed, unsupported};
use crate::types::{Atom, Condition, Cost, Effect};
use crate::values::{atom, number};
use crate::words::spells;
use lists::{Boxed, List, Stop};
use pddl_lexer::{At, Fault, ShapePlace};
use std::alloc::Global;

/// What the first word of an effect says.
#[derive(Clone, Copy)]
pub(crate) enum EffectHead {
    And,
    When,
    Forall,
    Not,
    Increase,
    /// A change of a number that is no increase.
    Unsupported,
    Atom,
}

pub(crate) fn effect_head(word: &[u8]) -> EffectHead
    ensures { result ≡ spec.effect_head word.now }
{
    if spells(word, b"and") {
        EffectHead::And
    } else if spells(word, b"when") {
        EffectHead::When
    } else if spells(word, b"forall") {
        EffectHead::Forall
    } else if spells(word, b"not") {
        EffectHead::Not
    } else if spells(word, b"increase") {
        EffectHead::Increase
    } else if is_unsupported(word) {
        EffectHead::Unsupported
    } else {
        EffectHead::Atom
    }
}

fn is_unsupported(word: &[u8]) -> bool
    ensures { result ≡ spec.is_unsupported word.now }
{
    spells(word, b"decrease")
        || spells(word, b"assign")
        || spells(word, b"scale-up")
        || spells(word, b"scale-down")
}

pub(crate) const EFFECT: Expected = Expected::List(ShapePlace::Effect);

/// The atom here, or the function that is increased.
fn changed_atom(alloc: Global, cursor: &Cursor<'_>) -> Result<Atom, Stop<Fault>>
    ensures { Gives result (first (spec.changed_atom cursor.now)) }
{
    let at = cursor.at();
    let inside = cursor.inside();
    atom(alloc, Expected::Term, ShapePlace::Effect, at, &inside)
}

/// The atom that stands first among the members of a list at this position, of which these are expected.
fn checked_atom(
    alloc: Global,
    at: At,
    expected: &[Expected],
    members: &Cursor<'_>,
) -> Result<Atom, Stop<Fault>>
    ensures { Gives result (first (own (check_exact places.Effect at expected.now members.now) (spec.changed_atom members.now))) }
{
    check_exact(ShapePlace::Effect, at, expected, members)?;
    changed_atom(alloc, members)
}

/// The effect that deletes an atom: the only member of a list at this position.
fn deletion(alloc: Global, at: At, members: &Cursor<'_>) -> Result<Effect, Stop<Fault>>
    ensures { Gives result (first (own (check_exact places.Effect at (expected.List places.Effect ∷ []) members.now) (made kinds.Delete (spec.changed_atom members.now)))) }
{
    let deleted = checked_atom(alloc, at, &[EFFECT], members)?;
    Ok(Effect::Delete(deleted))
}

/// The effect that adds the atom of these members of a list at this position.
fn addition(alloc: Global, at: At, members: &Cursor<'_>) -> Result<Effect, Stop<Fault>>
    ensures { Gives result (first (made kinds.Add (atom_of expected.Term places.Effect at members.now))) }
{
    let added = atom(alloc, Expected::Term, ShapePlace::Effect, at, members)?;
    Ok(Effect::Add(added))
}

/// The condition of a `when` at this position, which stands before an effect.
fn guard(alloc: Global, at: At, members: &Cursor<'_>) -> Result<Condition, Stop<Fault>>
    ensures { Gives result (first (own (check_exact places.Effect at (expected.List places.Condition ∷ expected.List places.Effect ∷ []) members.now) (condition members.now))) }
{
    check_exact(ShapePlace::Effect, at, &[CONDITION, EFFECT], members)?;
    condition(alloc, members)
}

/// The effect of a `when` at this position, if its inner effect was read.
fn conditional(
    condition: Condition,
    inner: Result<Boxed<Effect>, Stop<Fault>>,
    at: At,
) -> Result<Effect, Stop<Fault>>
    ensures { (effect : Reading Read) → Gives inner (first effect) → Gives result (first (made (λ inner. kinds.When condition inner at) effect)) }
{
    match inner {
        Ok(inner) => Ok(Effect::When(condition, inner, at)),
        Err(end) => {
            // A call, so that the proof need not go through all that a condition may hold.
            drop(condition);
            Err(end)
        }
    }
}

/// The cost here.
fn cost(alloc: Global, cursor: &Cursor<'_>) -> Result<Cost, Stop<Fault>>
    ensures { Gives result (first (spec.cost cursor.now)) }
{
    if !cursor.is_list() {
        return Ok(Cost::Number(number(cursor)?));
    }
    let at = cursor.at();
    let inside = cursor.inside();
    let term = atom(alloc, Expected::Term, ShapePlace::Cost, at, &inside)?;
    Ok(Cost::Term(term))
}

/// The increase of a function by a cost: the members of a list at this position.
fn increase(alloc: Global, at: At, members: &Cursor<'_>) -> Result<Effect, Stop<Fault>>
    ensures { Gives result (first (own (check_exact places.Effect at (expected.List places.Effect ∷ expected.Cost ∷ []) members.now) (both (λ increased by. kinds.Increase increased by at) (spec.changed_atom members.now) (spec.cost (rest members.now))))) }
{
    let increased = checked_atom(alloc, at, &[EFFECT, Expected::Cost], members)?;
    let by = cost(alloc, &members.rest())?;
    Ok(Effect::Increase(increased, by, at))
}

/// The effect here.
#[cycle(effect)]
pub fn effect(alloc: Global, cursor: &Cursor<'_>) -> Result<Effect, Stop<Fault>>
    ensures { Gives result (first (spec.effect cursor.now)) }
{
    let at = cursor.at();
    if !cursor.is_list() {
        return Err(malformed(ShapePlace::Effect, at).into());
    }
    let inside = cursor.inside();
    if inside.is_empty() {
        return Ok(Effect::Nothing(at));
    }
    if inside.is_list() {
        return Err(malformed(ShapePlace::Effect, inside.at()).into());
    }
    let head = effect_head(inside.word());
    by_head(alloc, head, at, &inside, &inside.rest())
}

/// The effect of these members, with a head before the others. It stands at this position.
#[cycle(effect)]
#[tactic(auto, unfolding(crate::specs::Effects::by_head))]
fn by_head(
    alloc: Global,
    head: EffectHead,
    at: At,
    members: &Cursor<'_>,
    others: &Cursor<'_>,
) -> Result<Effect, Stop<Fault>>
    ensures { Gives result (first (spec.by_head head at members.now others.now (every spec.effect others.now) (spec.effect (rest others.now)))) }
{
    match head {
        EffectHead::And => conjunction(alloc, at, others),
        EffectHead::When => guarded(alloc, at, others),
        EffectHead::Forall => for_all(alloc, at, others),
        EffectHead::Not => deletion(alloc, at, others),
        EffectHead::Increase => increase(alloc, at, others),
        EffectHead::Unsupported => Err(unsupported(at).into()),
        EffectHead::Atom => addition(alloc, at, members),
    }
}

/// The effect of a `when` at this position, with its condition.
#[cycle(effect)]
fn guarded(alloc: Global, at: At, members: &Cursor<'_>) -> Result<Effect, Stop<Fault>>
    ensures { Gives result (first (own (check_exact places.Effect at (expected.List places.Condition ∷ expected.List places.Effect ∷ []) members.now) (both (λ condition inner. kinds.When condition inner at) (condition members.now) (spec.effect (rest members.now))))) }
{
    let condition = guard(alloc, at, members)?;
    let inner = boxed(alloc, effect(alloc, &members.rest()));
    conditional(condition, inner, at)
}

/// The effect of a `forall` at this position, with its variables.
#[cycle(effect)]
fn for_all(alloc: Global, at: At, members: &Cursor<'_>) -> Result<Effect, Stop<Fault>>
    ensures { Gives result (first (own (check_exact places.Effect at (expected.List places.VariableList ∷ expected.List places.Effect ∷ []) members.now) (both (λ bound inner. kinds.Forall bound inner at) (variables members.now) (spec.effect (rest members.now))))) }
{
    let bound = bound(alloc, ShapePlace::Effect, at, members)?;
    let inner = boxed(alloc, effect(alloc, &members.rest()))?;
    Ok(Effect::Forall(bound, inner, at))
}

/// The conjunction of all members of a list at this position.
#[cycle(effect)]
fn conjunction(alloc: Global, at: At, members: &Cursor<'_>) -> Result<Effect, Stop<Fault>>
    ensures { Gives result (first (made (λ effects. kinds.And effects at) (own (check_all (expected.List places.Effect) members.now) (every spec.effect members.now)))) }
{
    check_all(EFFECT, members)?;
    let mut cursor = members.copy();
    let mut effects = Vec::new(alloc);
    while !cursor.is_empty() {
        effects.push(effect(alloc, &cursor)?)?;
        cursor = cursor.rest();
    }
    Ok(Effect::And(List::from_vec(effects), at))
}
