// Entries of `:init` that contradict others.
ghost use Rattle.std.specs.Prelude.{◌≡◌, List, ◌∷◌, [], ◌++◌, IfOk, OnOk};
ghost use Rattle.std.specs.List.{list_any};
ghost use Rattle.pddl_syntax.specs.declared.types.Init.{Init as Entry};
ghost use Rattle.pddl_syntax.specs.Holds.{object_of, ground};
ghost use Rattle.fault_positions.specs.AtomTables.{names_of, names_in, HasStated, HasValues};
ghost use Rattle.fault_positions.specs.Initial as spec;
ghost use Rattle.fault_positions.specs.Positions.{earliest};

use crate::positions::{earlier, try_first_of};
use indexmap::{IndexMap, IndexSet};
use pddl_lexer::At;
use pddl_syntax::{Atom, Init, Problem, Term};
use std::alloc::{AllocError, Global};

/// A ground atom in tables: the name of its predicate, and then those of its objects.
type Key<'a> = Vec<&'a [u8]>;

/// The first position of an entry of `:init` that denies an atom which an entry states.
pub fn first_denied(alloc: Global, problem: &Problem) -> Result<Option<At>, AllocError>
    ensures { IfOk result (λ at. at ≡ earliest (spec.denied_positions problem.now.init)) }
{
    let init = problem.init.as_slice();
    if some_denies(init) {
        first_denied_of(alloc, init)
    } else {
        Ok(None)
    }
}

/// Whether one of the entries denies an atom.
fn some_denies(init: &[Init]) -> bool
    ensures { result ≡ list_any spec.denies init.now }
{
    init.iter().any(|entry| denies(entry))
}

/// Whether the entry denies an atom.
fn denies(entry: &Init) -> bool
    ensures { result ≡ spec.denies entry.now }
{
    match entry {
        Init::Holds(_) => false,
        Init::HoldsNot(_, _) => true,
        Init::Value(_, _, _) => false,
    }
}

/// The first position of an entry that denies an atom which one of the entries states.
fn first_denied_of(alloc: Global, init: &[Init]) -> Result<Option<At>, AllocError>
    ensures { IfOk result (λ at. at ≡ earliest (spec.denied_positions init.now)) }
{
    let stated = stated_atoms(alloc, init)?;
    try_first_of(init, |entry| denied_position(alloc, &stated, entry))
}

/// The atoms that the entries state.
fn stated_atoms(alloc: Global, init: &[Init]) -> Result<IndexSet<Key<'_>>, AllocError>
    ensures { IfOk result (λ stated. HasStated stated init.now) }
{
    let mut stated = IndexSet::new(alloc);
    for entry in init {
        add_stated(alloc, &mut stated, entry)?;
    }
    Ok(stated)
}

fn add_stated<'a>(
    alloc: Global,
    stated: &mut IndexSet<Key<'a>>,
    entry: &'a Init,
) -> Result<(), AllocError>
    ensures { OnOk result ((before : List Entry) → HasStated stated.old before → HasStated stated.new (before ++ entry.now ∷ [])) }
{
    match entry {
        Init::Holds(atom) => {
            stated.insert(key_of(alloc, atom)?)?;
            Ok(())
        }
        Init::HoldsNot(_, _) => Ok(()),
        Init::Value(_, _, _) => Ok(()),
    }
}

/// The position of the entry, if it denies one of these atoms.
fn denied_position(
    alloc: Global,
    stated: &IndexSet<Key<'_>>,
    entry: &Init,
) -> Result<Option<At>, AllocError>
    ensures { IfOk result (λ at. (init : List Entry) → HasStated stated.now init → at ≡ earliest (spec.denied_position init entry.now)) }
{
    match entry {
        Init::Holds(_) => Ok(None),
        Init::HoldsNot(atom, at) => {
            let key = key_of(alloc, atom)?;
            Ok(stated.contains(&key).then_some(*at))
        }
        Init::Value(_, _, _) => Ok(None),
    }
}

/// The first position of an entry of `:init` that gives its term another value than the first entry with the term.
pub fn first_revalued(alloc: Global, problem: &Problem) -> Result<Option<At>, AllocError>
    ensures { IfOk result (λ at. at ≡ earliest (spec.revalued_positions problem.now.init)) }
{
    let mut values = IndexMap::new(alloc);
    let mut first = None;
    for entry in problem.init.as_slice() {
        first = earlier(first, revalued_position(alloc, &mut values, entry)?);
    }
    Ok(first)
}

/// The position of the entry, if it gives its term another value than the table has. A term that is new takes its value.
fn revalued_position<'a>(
    alloc: Global,
    values: &mut IndexMap<Key<'a>, u64>,
    entry: &'a Init,
) -> Result<Option<At>, AllocError>
    ensures at { IfOk result (λ at. (before : List Entry) → HasValues values.old before → at ≡ earliest (spec.revalued_position before entry.now)) }
    ensures noted { OnOk result ((before : List Entry) → HasValues values.old before → HasValues values.new (before ++ entry.now ∷ [])) }
{
    match entry {
        Init::Holds(_) => Ok(None),
        Init::HoldsNot(_, _) => Ok(None),
        Init::Value(term, value, at) => {
            let key = key_of(alloc, term)?;
            match values.get(&key) {
                Some(known) => Ok((*known != *value).then_some(*at)),
                None => {
                    values.insert(key, *value)?;
                    Ok(None)
                }
            }
        }
    }
}

fn key_of(alloc: Global, atom: &Atom) -> Result<Key<'_>, AllocError>
    ensures { IfOk result (λ key. names_in key ≡ names_of (ground [] atom.now)) }
{
    let mut key = Vec::new(alloc);
    key.push(atom.predicate.name.as_slice())?;
    for term in atom.terms.as_slice() {
        key.push(object_name(term))?;
    }
    Ok(key)
}

/// The name of the object. A variable, which nothing binds here, has the empty name.
fn object_name(term: &Term) -> &[u8]
    ensures { result.now ≡ object_of [] term.now }
{
    match term {
        Term::Variable(_) => &[],
        Term::Object(object) => object.name.as_slice(),
    }
}
