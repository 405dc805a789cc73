// Listed types, and the types below them.
ghost use Rattle.std.specs.Prelude.{◌≡◌, ◌+◌, ◌*◌, ◌||◌, ◌<◌, true, false, if◌then◌else◌, [], ◌∷◌, IfOk, IfSome, MatchOption, OnOk};
ghost use Rattle.std.specs.List.{list_any};
ghost use Rattle.pddl_syntax.specs.declared.types.Domain.{Domain};
ghost use Rattle.pddl_syntax.specs.declared.types.Problem.{Problem};
ghost use Rattle.pddl_syntax.specs.Objects.{root};
ghost use Rattle.pddl_syntax.specs.Words.{Name, is_same};
ghost use Rattle.numbering.specs.Below.{has, is_next, with_next, leads_to, missing, Grows, IsClosed, objects_of_type, range_of_types};
ghost use Rattle.numbering.specs.Below as spec;

use names::Names;
use pddl_syntax::{Named, Typed};
use std::alloc::{AllocError, Global};

/// The entries of `:types`, with a table of those that stand below each type.
#[derive(Drop)]
pub(crate) struct Hierarchy<'a> {
    pub entries: &'a [Typed],
    supertypes: Names<'a>,
    /// For each supertype the positions of the entries below it.
    below: Vec<Vec<usize>>,
}

impl<'a> Hierarchy<'a> {
    /// The entries, each put below its supertypes.
    pub fn new(alloc: Global, entries: &'a [Typed]) -> Result<Hierarchy<'a>, AllocError>
        ensures { IfOk result (λ hierarchy. hierarchy.entries.now ≡ entries.now) }
    {
        let mut supertypes = Names::new(alloc);
        let mut below = Vec::new(alloc);
        for (position, entry) in entries.iter().enumerate() {
            for supertype in entry.types.as_slice() {
                add_below(&mut supertypes, &mut below, supertype, position)?;
            }
        }
        Ok(Hierarchy {
            entries,
            supertypes,
            below,
        })
    }

    /// The types from which a chain of entries leads to a listed one. The time is linear in the number of entries, but
    /// for the look-ups of names.
    pub fn below(&self, alloc: Global, listed: &'a [Named]) -> Result<Names<'a>, AllocError>
        ensures { IfOk result (λ found. (name : Name) → has found name ≡ leads_to self.now.entries.now listed.now name) }
    {
        let mut found = listed_names(alloc, listed)?;
        self.search(alloc, &mut found, listed)?;
        self.close(&mut found)?;
        Ok(found)
    }

    /// Adds what is below the listed types. Each entry is looked at once, so that the rounds after it find no more.
    fn search(
        &self,
        alloc: Global,
        found: &mut Names<'a>,
        listed: &'a [Named],
    ) -> Result<(), AllocError>
        ensures { OnOk result (Grows self.now.entries.now found.old found.new) }
    {
        let mut open = Vec::new(alloc);
        for named in listed {
            open.push(named.name.as_slice())?;
        }
        let turns = listed.len().saturating_add(self.entries.len());
        for _ in 0..turns {
            self.open_next(found, &mut open)?;
        }
        Ok(())
    }

    /// Adds what stands directly below the next open type.
    fn open_next(&self, found: &mut Names<'a>, open: &mut Vec<&'a [u8]>) -> Result<(), AllocError>
        ensures { OnOk result (Grows self.now.entries.now found.old found.new) }
    {
        match open.pop() {
            Some(name) => self.add_all_below(found, open, name),
            None => Ok(()),
        }
    }

    /// Adds what stands directly below the type.
    fn add_all_below(
        &self,
        found: &mut Names<'a>,
        open: &mut Vec<&'a [u8]>,
        name: &[u8],
    ) -> Result<(), AllocError>
        ensures { OnOk result (Grows self.now.entries.now found.old found.new) }
    {
        if let Some(positions) = self.below.get(self.supertypes.position(name)) {
            for position in positions {
                self.add_at(found, open, *position)?;
            }
        }
        Ok(())
    }

    fn add_at(
        &self,
        found: &mut Names<'a>,
        open: &mut Vec<&'a [u8]>,
        position: usize,
    ) -> Result<(), AllocError>
        ensures { OnOk result (Grows self.now.entries.now found.old found.new) }
    {
        if position >= self.entries.len() {
            return Ok(());
        }
        let entry = &self.entries[position];
        if add_next(found, entry)? {
            open.push(entry.name.name.as_slice())?;
        }
        Ok(())
    }

    /// Adds types until none is next.
    fn close(&self, found: &mut Names<'a>) -> Result<(), AllocError>
        ensures grows { OnOk result (Grows self.now.entries.now found.old found.new) }
        ensures closed { OnOk result (IsClosed self.now.entries.now found.new) }
    {
        let mut has_grown = true;
        while has_grown {
            has_grown = add_round(found, self.entries)?;
        }
        Ok(())
    }
}

fn add_below<'a>(
    supertypes: &mut Names<'a>,
    below: &mut Vec<Vec<usize>>,
    supertype: &'a Named,
    position: usize,
) -> Result<(), AllocError> {
    let alloc = *below.allocator();
    let name = supertype.name.as_slice();
    if supertypes.add(name)? {
        below.push(Vec::new(alloc))?;
    }
    if let Some(positions) = below.as_mut_slice().get_mut(supertypes.position(name)) {
        positions.push(position)?;
    }
    Ok(())
}

fn listed_names<'a>(alloc: Global, listed: &'a [Named]) -> Result<Names<'a>, AllocError>
    ensures { IfOk result (λ names. (name : Name) → has names name ≡ list_any (λ type. is_same name type.name) listed.now) }
{
    let mut names = Names::new(alloc);
    for named in listed {
        names.add(named.name.as_slice())?;
    }
    Ok(names)
}

/// Whether one of the types is found.
pub(crate) fn has_some(found: &Names<'_>, types: &[Named]) -> bool
    ensures { result ≡ list_any (λ type. has found.now type.name) types.now }
{
    types.iter().any(|named| found.has(named.name.as_slice()))
}

/// Adds the entry's type if it is next, and answers whether it was.
fn add_next<'a>(found: &mut Names<'a>, entry: &'a Typed) -> Result<bool, AllocError>
    ensures is_next { IfOk result (λ is_new. is_new ≡ is_next found.old entry.now) }
    ensures names { OnOk result (found.new ≡ with_next found.old entry.now) }
{
    let name = entry.name.name.as_slice();
    if found.has(name) || name == b"object".as_slice() || !has_some(found, entry.types.as_slice()) {
        return Ok(false);
    }
    found.add(name)?;
    Ok(true)
}

/// Adds the type of each entry that is next, and answers whether there was one.
fn add_round<'a>(found: &mut Names<'a>, entries: &'a [Typed]) -> Result<bool, AllocError>
    ensures grows { OnOk result (Grows entries.now found.old found.new) }
    ensures closed { IfOk result (λ has_grown. has_grown ≡ false → IsClosed entries.now found.new) }
    ensures fewer { IfOk result (λ has_grown. 2 * missing entries.now found.new + (if has_grown then 1 else 0) < 2 * missing entries.now found.old + 1) }
{
    let mut has_grown = false;
    for entry in entries {
        has_grown = add_next(found, entry)? || has_grown;
    }
    Ok(has_grown)
}

/// The type that is listed alone, where `object` stands for no type at all.
pub(crate) fn one_type(listed: &[Named]) -> Option<&[u8]>
    ensures alone { MatchOption result (spec.one_type listed.now ≡ []) (λ type. spec.one_type listed.now ≡ type.now ∷ []) }
    ensures objects { (domain : Domain) (problem : Problem) → IfSome result (λ type. objects_of_type domain problem type.now ≡ range_of_types domain problem listed.now) }
{
    match listed {
        [] => Some(b"object".as_slice()),
        [named] => Some(named.name.as_slice()),
        _ => None,
    }
}

/// Whether no type is listed, or `object` is.
pub(crate) fn is_any(listed: &[Named]) -> bool
    ensures { result ≡ spec.is_any listed.now }
{
    match listed {
        [] => true,
        _ => has_root(listed),
    }
}

/// Whether one of the types is `object`.
fn has_root(listed: &[Named]) -> bool
    ensures { result ≡ list_any (λ type. is_same type.name root) listed.now }
{
    listed
        .iter()
        .any(|named| named.name.as_slice() == b"object".as_slice())
}
