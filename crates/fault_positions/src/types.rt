// Types that no entry of `:types` names.
ghost use Rattle.std.specs.Prelude.{◌≡◌, ◌||◌, ◌++◌, not, IfOk, OnOk};
ghost use Rattle.std.specs.List.{list_any, flat_map};
ghost use Rattle.pddl_syntax.specs.Words.{Name, is_same};
ghost use Rattle.fault_positions.specs.Positions.{positions_where, earliest};
ghost use Rattle.fault_positions.specs.Mentioned.{AreMentioned};
ghost use Rattle.fault_positions.specs.Mentions.{listed_variables};
ghost use Rattle.fault_positions.specs.Names as spec;
ghost use Rattle.fault_positions.specs.Seen.{seen, all_seen};

use crate::files::Files;
use crate::mentions::Mention;
use crate::positions::{FirstPositions, earlier, first_of};
use names::Names;
use pddl_lexer::At;
use pddl_syntax::{Domain, Named, Typed};
use std::alloc::{AllocError, Global};

/// The first positions with an unknown type.
pub fn first_unknown_types(alloc: Global, files: &Files<'_>) -> Result<FirstPositions, AllocError>
    requires { AreMentioned files.now }
    ensures { IfOk result (λ first. first ≡ (earliest (spec.unknown_types files.now.domain.now (spec.domain_types files.now.domain.now)), earliest (spec.unknown_types files.now.domain.now (spec.problem_types files.now.problem.now)))) }
{
    let known = known_types(alloc, files.domain)?;
    let constants = files.domain.constants.as_slice();
    let objects = files.problem.objects.as_slice();
    Ok((
        first_unknown_type(&known, constants, files.domain_mentions),
        first_unknown_type(&known, objects, files.problem_mentions),
    ))
}

/// The first position of these objects and of the lists of variables with a type that isn't known.
fn first_unknown_type(known: &Names<'_>, objects: &[Typed], mentions: &[Mention<'_>]) -> Option<At>
    ensures { result ≡ earliest (positions_where (λ type. not (list_any (is_same type.name) known.now)) (spec.types_of objects.now ++ flat_map (λ mention. spec.types_of (listed_variables mention)) (all_seen mentions.now))) }
{
    earlier(
        first_in_list(known, objects),
        first_in_mentions(known, mentions),
    )
}

/// The types of the domain, with `object`.
fn known_types(alloc: Global, domain: &Domain) -> Result<Names<'_>, AllocError>
    ensures { IfOk result (λ known. (name : Name) → list_any (is_same name) known ≡ spec.is_type domain.now name) }
{
    let mut known = Names::new(alloc);
    known.add(b"object".as_slice())?;
    add_entries(&mut known, domain.types.as_slice())?;
    Ok(known)
}

/// Adds the types that the entries of `:types` name.
fn add_entries<'a>(known: &mut Names<'a>, entries: &'a [Typed]) -> Result<(), AllocError>
    ensures { OnOk result ((name : Name) → list_any (is_same name) known.new ≡ (list_any (spec.names_type name) entries.now || list_any (is_same name) known.old)) }
{
    for entry in entries {
        add_entry(known, entry)?;
    }
    Ok(())
}

/// Adds the type that the entry declares, and its supertypes.
fn add_entry<'a>(known: &mut Names<'a>, entry: &'a Typed) -> Result<(), AllocError>
    ensures { OnOk result ((name : Name) → list_any (is_same name) known.new ≡ (spec.names_type name entry.now || list_any (is_same name) known.old)) }
{
    known.add(entry.name.name.as_slice())?;
    add_types(known, entry.types.as_slice())
}

/// Adds the types.
fn add_types<'a>(known: &mut Names<'a>, types: &'a [Named]) -> Result<(), AllocError>
    ensures { OnOk result ((name : Name) → list_any (is_same name) known.new ≡ (list_any (λ type. is_same type.name name) types.now || list_any (is_same name) known.old)) }
{
    for type_name in types {
        known.add(type_name.name.as_slice())?;
    }
    Ok(())
}

/// The first position of the lists of variables with a type that isn't known.
fn first_in_mentions(known: &Names<'_>, mentions: &[Mention<'_>]) -> Option<At>
    ensures { result ≡ earliest (positions_where (λ type. not (list_any (is_same type.name) known.now)) (flat_map (λ mention. spec.types_of (listed_variables (seen mention))) mentions.now)) }
{
    first_of(mentions, |mention| {
        first_in_list(known, mention.listed_variables())
    })
}

/// The first position of the typed list with a type that isn't known.
fn first_in_list(known: &Names<'_>, list: &[Typed]) -> Option<At>
    ensures { result ≡ earliest (positions_where (λ type. not (list_any (is_same type.name) known.now)) (spec.types_of list.now)) }
{
    first_of(list, |typed| first_unknown(known, typed.types.as_slice()))
}

/// The first position of a type that isn't known.
fn first_unknown(known: &Names<'_>, types: &[Named]) -> Option<At>
    ensures { result ≡ earliest (positions_where (λ type. not (list_any (is_same type.name) known.now)) types.now) }
{
    first_of(types, |type_name| {
        (!known.has(type_name.name.as_slice())).then_some(type_name.at)
    })
}
