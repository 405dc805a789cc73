// Terms, and the classes of equated ones. A class has a leader, to which merges lead.
ghost use Rattle.std.specs.Prelude.{◌≡◌, ◌++◌, ◌∷◌, [], IfOk, OnOk, get_or};
ghost use Rattle.normal_task.specs.declared.task.Place.TheVariants.{Object};
ghost use Rattle.contradictions.specs.Contradictory as spec;
ghost use Rattle.contradictions.specs.Merges.{leader, have_one_leader, merge_of, TellClasses};

use normal_task::Place;
use std::alloc::{AllocError, Global};

/// The two places are equal.
pub fn is_same_place(x: &Place, y: &Place) -> bool
    ensures { result ≡ spec.is_same_place x.now y.now }
{
    match x {
        Place::Variable(number) => match y {
            Place::Variable(other) => *number == *other,
            Place::Object(_) => false,
        },
        Place::Object(object) => match y {
            Place::Variable(_) => false,
            Place::Object(other) => *object == *other,
        },
    }
}

/// A copy of the place.
pub fn copy(place: &Place) -> Place
    ensures { result ≡ place.now }
{
    match place {
        Place::Variable(number) => Place::Variable(*number),
        Place::Object(object) => Place::Object(*object),
    }
}

/// The term at the position.
pub fn term_at(position: u64, terms: &[Place]) -> Place
    ensures { result ≡ get_or terms.now position (Object 0) }
{
    match terms.get(position as usize) {
        Some(term) => copy(term),
        None => Place::Object(0),
    }
}

/// Two terms that are equated, or the leader of a class and the one that now leads it.
#[derive(Drop)]
pub struct TermPair {
    pub left: Place,
    pub right: Place,
}

/// The leader of the term's class.
pub(crate) fn leader_of(merges: &[TermPair], term: &Place) -> Place
    ensures { result ≡ leader merges.now term.now }
{
    let mut leader = copy(term);
    for merge in merges {
        if is_same_place(&leader, &merge.left) {
            leader = copy(&merge.right);
        }
    }
    leader
}

pub(crate) fn is_same(merges: &[TermPair], x: &Place, y: &Place) -> bool
    ensures { result ≡ have_one_leader merges.now x.now y.now }
{
    is_same_place(&leader_of(merges, x), &leader_of(merges, y))
}

/// Leads the class of the one term into that of the other.
fn merge(merges: &mut Vec<TermPair>, pair: &TermPair) -> Result<(), AllocError>
    ensures { OnOk result (merges.new.items ≡ merges.old.items ++ merge_of merges.old.items pair.now ∷ []) }
{
    let left = leader_of(merges.as_slice(), &pair.left);
    let right = leader_of(merges.as_slice(), &pair.right);
    merges.push(TermPair { left, right })?;
    Ok(())
}

/// Merges that lead equated terms, and no others, to one leader.
pub(crate) fn merged(alloc: Global, pairs: &[TermPair]) -> Result<Vec<TermPair>, AllocError>
    ensures { IfOk result (λ merges. TellClasses merges.items pairs.now) }
{
    let mut merges = Vec::new(alloc);
    for pair in pairs {
        merge(&mut merges, pair)?;
    }
    Ok(merges)
}
