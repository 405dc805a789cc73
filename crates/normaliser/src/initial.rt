// The initial state and the values of a normal task.
ghost use Rattle.std.specs.Prelude.{◌≡◌, ◌++◌, ◌∷◌, [], List as Items, map, codes, IfOk, OnOk, if◌then◌else◌};
ghost use Rattle.std.specs.List.{list_any, flat_map};
ghost use Rattle.pddl_syntax.specs.Holds as pddl;
ghost use Rattle.names.specs.Names.{is_same};
ghost use Rattle.normal_task.specs.declared.task.GroundAtom as atom_type;
ghost use Rattle.normal_task.specs.declared.task.ValueRow as row_type;
ghost use Rattle.normal_task.specs.Keys.{value_key};
ghost use Rattle.normal_task.specs.Meaning.{is_same_atom, is_same_value};
ghost use Rattle.normal_task.specs.Normalised as spec;
ghost use Rattle.normal_task.specs.Numbers.{function_number, object_number};

use atom_objects::Objects;
use lists::List;
use normal_task::{AtomSet, GroundAtom, ValueRow};
use number_lists::{NumberLists, key_of};
use numbering::Numbering;
use pddl_syntax::{Atom, Init, Term};
use std::alloc::{AllocError, Global};

// ---- atoms

/// The number of the object that the term names.
fn stated_object(numbering: &Numbering<'_>, term: &Term) -> u64
    ensures { result ≡ object_number numbering.now.domain numbering.now.problem (pddl.object_of [] term.now) }
{
    match term {
        Term::Variable(_) => numbering.object(&[]),
        Term::Object(object) => numbering.object(object.name.as_slice()),
    }
}

/// The numbers of the objects that the terms name.
fn stated_objects(
    alloc: Global,
    numbering: &Numbering<'_>,
    terms: &[Term],
) -> Result<Objects, AllocError>
    ensures { IfOk result (λ objects. objects ≡ map (object_number numbering.now.domain numbering.now.problem) (map (pddl.object_of []) terms.now)) }
{
    let mut objects = Objects::new(alloc);
    for term in terms {
        objects.push(stated_object(numbering, term))?;
    }
    Ok(objects)
}

fn stated_atom(
    alloc: Global,
    numbering: &Numbering<'_>,
    atom: &Atom,
) -> Result<GroundAtom, AllocError>
    ensures { IfOk result (λ stated. stated ≡ spec.numbered_atom numbering.now.domain numbering.now.problem (pddl.ground [] atom.now)) }
{
    Ok(GroundAtom {
        predicate: numbering.predicate(atom.predicate.name.as_slice()),
        objects: stated_objects(alloc, numbering, atom.terms.as_slice())?,
    })
}

/// Adds the atom that the entry states, if it is a new one.
fn add_stated(
    alloc: Global,
    atoms: &mut AtomSet,
    numbering: &Numbering<'_>,
    entry: &Init,
) -> Result<(), AllocError>
    ensures { (so_far : Items atom_type.GroundAtom) → atoms.old ≡ spec.once_after numbering.now.domain numbering.now.problem is_same_atom [] so_far →
        OnOk result (atoms.new ≡ spec.once_after numbering.now.domain numbering.now.problem is_same_atom [] (so_far ++ spec.stated numbering.now.domain numbering.now.problem entry.now)) }
{
    match entry {
        Init::Holds(atom) => {
            let stated = stated_atom(alloc, numbering, atom)?;
            atoms.insert(stated)
        }
        Init::HoldsNot(_, _) | Init::Value(_, _, _) => Ok(()),
    }
}

/// The atoms that the entries state, each once, where it stands first.
pub(crate) fn stated_atoms(
    alloc: Global,
    numbering: &Numbering<'_>,
    entries: &[Init],
) -> Result<AtomSet, AllocError>
    ensures { IfOk result (λ atoms. atoms ≡ spec.once_after numbering.now.domain numbering.now.problem is_same_atom [] (flat_map (spec.stated numbering.now.domain numbering.now.problem) entries.now)) }
{
    let mut atoms = AtomSet::with_capacity(alloc, entries.len())?;
    for entry in entries {
        add_stated(alloc, &mut atoms, numbering, entry)?;
    }
    Ok(atoms)
}

// ---- values

fn is_total_cost(name: &[u8]) -> bool
    ensures { result ≡ is_same name.now (codes "total-cost") }
{
    name == b"total-cost".as_slice()
}

fn value_row(
    alloc: Global,
    numbering: &Numbering<'_>,
    term: &Atom,
    value: u64,
) -> Result<ValueRow, AllocError>
    ensures { IfOk result (λ row. row ≡ record {
      function = function_number numbering.now.domain term.now.predicate.name;
      objects = map (object_number numbering.now.domain numbering.now.problem) (map (pddl.object_of []) term.now.terms);
      value = value;
    }) }
{
    Ok(ValueRow {
        function: numbering.function(term.predicate.name.as_slice()),
        objects: stated_objects(alloc, numbering, term.terms.as_slice())?,
        value,
    })
}

/// Adds the row, if its key is new.
fn push_new(
    keys: &mut NumberLists,
    rows: &mut Vec<ValueRow>,
    key: Vec<u64>,
    row: ValueRow,
) -> Result<(), AllocError>
    ensures { OnOk result ((keys.new ≡ (if list_any (is_same key.items) keys.old then keys.old else keys.old ++ key.items ∷ [])) × (rows.new.items ≡ (if list_any (is_same key.items) keys.old then rows.old.items else rows.old.items ++ row ∷ []))) }
{
    if keys.insert(key)? {
        rows.push(row)?;
    }
    Ok(())
}

/// Adds the value that the entry gives, if the function has none yet for the objects.
fn push_value(
    keys: &mut NumberLists,
    rows: &mut Vec<ValueRow>,
    numbering: &Numbering<'_>,
    entry: &Init,
) -> Result<(), AllocError>
    ensures { (so_far : Items row_type.ValueRow) → keys.old ≡ map value_key rows.old.items → rows.old.items ≡ spec.once_after numbering.now.domain numbering.now.problem is_same_value [] so_far →
        OnOk result ((keys.new ≡ map value_key rows.new.items) × (rows.new.items ≡ spec.once_after numbering.now.domain numbering.now.problem is_same_value [] (so_far ++ spec.value_row numbering.now.domain numbering.now.problem entry.now))) }
{
    match entry {
        Init::Value(term, value, _) => {
            if is_total_cost(term.predicate.name.as_slice()) {
                return Ok(());
            }
            let alloc = *rows.allocator();
            let row = value_row(alloc, numbering, term, *value)?;
            let key = key_of(alloc, row.function, row.objects.as_slice())?;
            push_new(keys, rows, key, row)
        }
        Init::Holds(_) | Init::HoldsNot(_, _) => Ok(()),
    }
}

/// The values that the entries give, for each function and its objects the first.
pub(crate) fn stated_values(
    alloc: Global,
    numbering: &Numbering<'_>,
    entries: &[Init],
) -> Result<List<ValueRow>, AllocError>
    ensures { IfOk result (λ rows. rows ≡ spec.once_after numbering.now.domain numbering.now.problem is_same_value [] (flat_map (spec.value_row numbering.now.domain numbering.now.problem) entries.now)) }
{
    let mut keys = NumberLists::new(alloc);
    let mut rows = Vec::new(alloc);
    for entry in entries {
        push_value(&mut keys, &mut rows, numbering, entry)?;
    }
    Ok(List::from_vec(rows))
}
