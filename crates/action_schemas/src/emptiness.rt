// Whether conditions have parts. None is made.
ghost use Rattle.std.specs.Prelude.{◌≡◌, map, nat_lt};
ghost use Rattle.fault_positions.specs.Sizes.{listed, paired, size_of};

use pddl_syntax::Condition;

/// Whether the condition, or its negation where it isn't `positive`, has parts.
#[cycle(has_parts)]
pub(crate) fn has_parts(condition: &Condition, positive: bool) -> bool
    ensures { result ≡ nat_lt 0 (size_of condition.now positive).parts }
{
    match (condition, positive) {
        (Condition::True(_), _) => positive,
        (Condition::Atom(_) | Condition::Equal(_, _, _), _) => true,
        (Condition::Not(inside, _), _) => has_parts(inside.get(), !positive),
        (Condition::And(members, _), true) | (Condition::Or(members, _), false) => {
            all_have_parts(members.as_slice(), positive)
        }
        (Condition::And(members, _), false) | (Condition::Or(members, _), true) => {
            one_has_parts(members.as_slice(), positive)
        }
        (Condition::Imply(premise, conclusion, _), true) => {
            has_parts(premise.get(), false) || has_parts(conclusion.get(), true)
        }
        (Condition::Imply(premise, conclusion, _), false) => {
            has_parts(premise.get(), true) && has_parts(conclusion.get(), false)
        }
        (Condition::Forall(_, _, _), true) | (Condition::Exists(_, _, _), false) => true,
        (Condition::Forall(_, inside, _), false) | (Condition::Exists(_, inside, _), true) => {
            has_parts(inside.get(), positive)
        }
    }
}

#[cycle(has_parts)]
fn all_have_parts(members: &[Condition], positive: bool) -> bool
    ensures { result ≡ nat_lt 0 (paired (map (λ member. member positive) (map size_of members.now))).parts }
{
    let mut all = true;
    for member in members {
        all = all && has_parts(member, positive);
    }
    all
}

#[cycle(has_parts)]
fn one_has_parts(members: &[Condition], positive: bool) -> bool
    ensures { result ≡ nat_lt 0 (listed (map (λ member. member positive) (map size_of members.now))).parts }
{
    let mut one = false;
    for member in members {
        one = one || has_parts(member, positive);
    }
    one
}
