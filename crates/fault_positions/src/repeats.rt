// Names that stand a second time in a list.
ghost use Rattle.std.specs.Prelude.{◌≡◌, ◌||◌, ◌∷◌, [], map, IfOk, OnOk, if◌then◌else◌};
ghost use Rattle.std.specs.Borrow.{Bor};
ghost use Rattle.std.specs.Fn.{FnReturnsAt};
ghost use Rattle.std.specs.List.{list_any};
ghost use Rattle.pddl_syntax.specs.declared.types.Named.{Named as Place};
ghost use Rattle.pddl_syntax.specs.Words.{Name, is_same};
ghost use Rattle.fault_positions.specs.Positions.{earliest};
ghost use Rattle.fault_positions.specs.Names as spec;
ghost use Rattle.fault_positions.specs.Seen.{all_seen};

use crate::mentions::Mention;
use crate::positions::{earlier, try_first_of};
use names::Names;
use pddl_lexer::At;
use pddl_syntax::{Action, Head, Named, Typed};
use std::alloc::{AllocError, Global};

/// The names of the list.
pub fn all_names(alloc: Global, list: &[Typed]) -> Result<Names<'_>, AllocError>
    ensures { IfOk result (λ names. (name : Name) → list_any (is_same name) names ≡ list_any (λ typed. is_same name typed.name.name) list.now) }
{
    let mut names = Names::new(alloc);
    for typed in list {
        names.add(typed.name.name.as_slice())?;
    }
    Ok(names)
}

/// The first position of the lists of variables with a variable that stands before in the same list.
pub fn first_repeated_variable(
    alloc: Global,
    mentions: &[Mention<'_>],
) -> Result<Option<At>, AllocError>
    ensures { IfOk result (λ at. at ≡ earliest (spec.repeated_variables (all_seen mentions.now))) }
{
    try_first_of(mentions, |mention| {
        first_repeat_after(Names::new(alloc), mention.listed_variables())
    })
}

/// The first position of the list with a name that is one of these, or stands before in the list.
pub fn first_repeat_after<'a>(names: Names<'a>, list: &'a [Typed]) -> Result<Option<At>, AllocError>
    ensures { IfOk result (λ at. at ≡ earliest (spec.repeats_after names.entry (spec.names_of list.now))) }
{
    first_repeat(names, list, |typed| &typed.name)
}

/// The first position of the predicates or functions with a name that stands before.
pub fn first_repeated_head(alloc: Global, heads: &[Head]) -> Result<Option<At>, AllocError>
    ensures { IfOk result (λ at. at ≡ earliest (spec.repeats (spec.head_names heads.now))) }
{
    first_repeat(Names::new(alloc), heads, |head| &head.name)
}

/// The first position of the actions with a name that stands before.
pub fn first_repeated_action(alloc: Global, actions: &[Action]) -> Result<Option<At>, AllocError>
    ensures { IfOk result (λ at. at ≡ earliest (spec.repeats (map (λ action. action.name) actions.now))) }
{
    first_repeat(Names::new(alloc), actions, |action| &action.name)
}

/// The first position of an item whose name is one of these, or stands before.
fn first_repeat<'a, T, F: Fn(&'a T) -> &'a Named>(
    mut names: Names<'a>,
    items: &'a [T],
    name_of: F,
) -> Result<Option<At>, AllocError>
    requires { F.IsAlwaysCallable name_of }
    ensures { (named : T → Place) → ((item : T) (name : Bor Place) → FnReturnsAt F.Fn name_of item name → name.now ≡ named item) →
        IfOk result (λ at. at ≡ earliest (spec.repeats_after names.entry (map named items.now))) }
{
    let mut first = None;
    for item in items {
        first = earlier(first, repeat(&mut names, name_of(item))?);
    }
    Ok(first)
}

/// Adds the name, and answers its position where it was there before.
fn repeat<'a>(names: &mut Names<'a>, named: &'a Named) -> Result<Option<At>, AllocError>
    ensures at { IfOk result (λ at. at ≡ earliest (if list_any (is_same named.now.name) names.old then named.now.at ∷ [] else [])) }
    ensures added { OnOk result ((other : Name) → list_any (is_same other) names.new ≡ (is_same other named.now.name || list_any (is_same other) names.old)) }
{
    let is_new = names.add(named.name.as_slice())?;
    Ok(if is_new { None } else { Some(named.at) })
}
