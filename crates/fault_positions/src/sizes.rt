// Conditions that fall into too many parts.
ghost use Rattle.std.specs.Prelude.{◌≡◌, ◌+◌, ◌*◌, min, map};
ghost use Rattle.std.specs.List.{flat_map};
ghost use Rattle.fault_positions.specs.CappedSizes as capped;
ghost use Rattle.fault_positions.specs.Positions.{earliest};
ghost use Rattle.fault_positions.specs.Sizes as spec;

use crate::files::Files;
use crate::positions::{FirstPositions, earlier, first_of};
use pddl_lexer::At;
use pddl_syntax::{Action, Condition, Domain, Effect};

/// The most parts that a condition may have.
const MOST_PARTS: u64 = 4096;

/// How a condition is cut. No parts are counted beyond the first one that is too many.
#[derive(Clone, Copy)]
pub(crate) struct CappedSize {
    parts: u64,
    /// The first position of a replaced quantifier that is cut into too many parts.
    first_too_large: Option<At>,
}

impl CappedSize {
    /// Nothing in it is replaced.
    fn of_parts(parts: u64) -> CappedSize
        ensures { result ≡ capped.of_parts parts }
    {
        CappedSize {
            parts,
            first_too_large: None,
        }
    }

    /// Every pairing of the parts.
    fn paired_with(self, other: CappedSize) -> CappedSize
        ensures { result ≡ capped.paired_with self other }
    {
        CappedSize {
            parts: capped_product(self.parts, other.parts),
            first_too_large: earlier(self.first_too_large, other.first_too_large),
        }
    }

    /// The parts of both.
    fn listed_with(self, other: CappedSize) -> CappedSize
        ensures { result ≡ capped.listed_with self other }
    {
        CappedSize {
            parts: capped_sum(self.parts, other.parts),
            first_too_large: earlier(self.first_too_large, other.first_too_large),
        }
    }

    /// A quantifier at this position whose replacement has a body of this size.
    fn replaced_at(self, at: At) -> CappedSize
        ensures { result ≡ capped.replaced_at self at }
    {
        CappedSize {
            parts: 1,
            first_too_large: self.first_at(at),
        }
    }

    /// The first position that is too large, where the condition itself is at this one.
    fn first_at(self, at: At) -> Option<At>
        ensures { result ≡ capped.first_at self at }
    {
        if self.parts <= MOST_PARTS {
            self.first_too_large
        } else {
            earlier(Some(at), self.first_too_large)
        }
    }
}

fn capped_product(parts: u64, other: u64) -> u64
    ensures { result ≡ min (parts * other) capped.cap }
{
    parts.saturating_mul(other).min(MOST_PARTS + 1)
}

fn capped_sum(parts: u64, other: u64) -> u64
    ensures { result ≡ min (parts + other) capped.cap }
{
    parts.saturating_add(other).min(MOST_PARTS + 1)
}

/// The first positions of conditions with too many parts.
pub fn first_too_large(files: &Files<'_>) -> FirstPositions
    ensures { result ≡ (earliest (spec.too_large (spec.domain_cuts files.now.domain.now)), earliest (spec.too_large (spec.problem_cuts files.now.problem.now))) }
{
    (
        first_too_large_in_domain(files.domain),
        first_in_condition(&files.problem.goal),
    )
}

/// The first position of a condition with too many parts.
fn first_too_large_in_domain(domain: &Domain) -> Option<At>
    ensures { result ≡ earliest (spec.too_large (spec.domain_cuts domain.now)) }
{
    earlier(
        first_of(domain.actions.as_slice(), first_in_action),
        first_of(
            domain.axioms.as_slice(),
            |axiom| first_in_condition(&axiom.body),
        ),
    )
}

fn first_in_action(action: &Action) -> Option<At>
    ensures { result ≡ earliest (spec.too_large (spec.action_cuts action.now)) }
{
    earlier(
        first_in_condition(&action.precondition),
        first_in_effect(&action.effect, 1),
    )
}

fn first_in_condition(condition: &Condition) -> Option<At>
    ensures { result ≡ earliest (spec.too_large (spec.cuts condition.now)) }
{
    size_of(condition, true).first_at(position_of(condition))
}

/// The conditions of the `when`s around the effect, joined, have so many parts.
#[cycle(effect_cuts)]
fn first_in_effect(effect: &Effect, around: u64) -> Option<At>
    ensures { result ≡ earliest (spec.too_large (spec.effect_cuts effect.now around)) }
{
    match effect {
        Effect::Nothing(_) | Effect::Add(_) | Effect::Delete(_) | Effect::Increase(_, _, _) => None,
        Effect::And(members, _) => first_in_effects(members.as_slice(), around),
        Effect::When(condition, inside, _) => {
            let size = CappedSize::of_parts(around).paired_with(size_of(condition, true));
            let first_inside = first_in_effect(inside.get(), size.parts);
            earlier(size.first_at(position_of(condition)), first_inside)
        }
        Effect::Forall(_, inside, _) => first_in_effect(inside.get(), around),
    }
}

#[cycle(effect_cuts)]
fn first_in_effects(members: &[Effect], around: u64) -> Option<At>
    ensures { result ≡ earliest (spec.too_large (flat_map (λ member. member around) (map spec.effect_cuts members.now))) }
{
    let mut first = None;
    for member in members {
        first = earlier(first, first_in_effect(member, around));
    }
    first
}

/// The size of a condition, or of its negation where it isn't `positive`.
#[cycle(size_of)]
fn size_of(condition: &Condition, positive: bool) -> CappedSize
    ensures { result ≡ capped.capped (spec.size_of condition.now positive) }
{
    match (condition, positive) {
        (Condition::True(_), _) => CappedSize::of_parts(u64::from(positive)),
        (Condition::Atom(_) | Condition::Equal(_, _, _), _) => CappedSize::of_parts(1),
        (Condition::Not(inside, _), _) => size_of(inside.get(), !positive),
        (Condition::And(members, _), true) | (Condition::Or(members, _), false) => {
            size_paired(members.as_slice(), positive)
        }
        (Condition::And(members, _), false) | (Condition::Or(members, _), true) => {
            size_listed(members.as_slice(), positive)
        }
        (Condition::Imply(premise, conclusion, _), true) => {
            let premise = size_of(premise.get(), false);
            premise.listed_with(size_of(conclusion.get(), true))
        }
        (Condition::Imply(premise, conclusion, _), false) => {
            let premise = size_of(premise.get(), true);
            premise.paired_with(size_of(conclusion.get(), false))
        }
        (Condition::Forall(_, inside, at), true) => {
            size_of(inside.get(), false).replaced_at(*at)
        }
        (Condition::Exists(_, inside, at), false) => {
            size_of(inside.get(), true).replaced_at(*at)
        }
        (Condition::Forall(_, inside, _), false) | (Condition::Exists(_, inside, _), true) => {
            size_of(inside.get(), positive)
        }
    }
}

#[cycle(size_of)]
fn size_paired(members: &[Condition], positive: bool) -> CappedSize
    ensures { result ≡ capped.capped (spec.paired (map (λ member. member positive) (map spec.size_of members.now))) }
{
    let mut all = CappedSize::of_parts(1);
    for member in members {
        all = all.paired_with(size_of(member, positive));
    }
    all
}

#[cycle(size_of)]
fn size_listed(members: &[Condition], positive: bool) -> CappedSize
    ensures { result ≡ capped.capped (spec.listed (map (λ member. member positive) (map spec.size_of members.now))) }
{
    let mut all = CappedSize::of_parts(0);
    for member in members {
        all = all.listed_with(size_of(member, positive));
    }
    all
}

fn position_of(condition: &Condition) -> At
    ensures { result ≡ spec.position_of condition.now }
{
    match condition {
        Condition::Atom(atom) => atom.at,
        Condition::True(at)
        | Condition::Equal(_, _, at)
        | Condition::Not(_, at)
        | Condition::And(_, at)
        | Condition::Or(_, at)
        | Condition::Imply(_, _, at)
        | Condition::Forall(_, _, at)
        | Condition::Exists(_, _, at) => *at,
    }
}
