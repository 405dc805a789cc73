// Tables of the declared predicates and functions.
ghost use Rattle.std.specs.Prelude.{◌≡◌, length, IfOk};
ghost use Rattle.std.specs.List.{list_any};
ghost use Rattle.fault_positions.specs.Arguments.{AreThose};
ghost use Rattle.fault_positions.specs.Heads.{Key, is_same_key, takes};
ghost use Rattle.fault_positions.specs.Names.{is_declared};

use indexmap::IndexSet;
use names::Names;
use pddl_syntax::{Domain, Head};
use std::alloc::{AllocError, Global};
use std::marker::Model;

/// Declared predicates, or functions. A look-up goes through a table. Contracts see the heads.
struct Heads<'a> {
    heads: &'a [Head],
    names: Names<'a>,
    /// The names with their numbers of variables.
    keys: IndexSet<(&'a [u8], u64)>,
}

impl Drop for Heads<'_> {
    fn drop(self) {
        let Heads {
            heads: _,
            names: _,
            keys: _,
        } = self;
    }
}

impl<'a> Model for Heads<'a> {
    ghost use Rattle.std.specs.Prelude.{List};
    ghost use Rattle.pddl_syntax.specs.declared.types.Head.{Head};
    ghost use Rattle.fault_positions.specs.Heads.{Know};

    ghost Value = { List Head };

    ghost view = { λ table. table.heads.now };

    ghost invariant = { λ table. Know table.heads.now table.names table.keys.keys };
}

impl<'a> Heads<'a> {
    /// The table of these heads.
    fn of(alloc: Global, heads: &'a [Head]) -> Result<Heads<'a>, AllocError>
        ensures { IfOk result (λ table. table ≡ heads.now) }
    {
        let names = names_of(alloc, heads)?;
        let keys = keys_of(alloc, heads)?;
        Ok(Heads { heads, names, keys })
    }

    /// Whether the name is declared, with any number of variables.
    fn declares(&self, name: &[u8]) -> bool
        ensures { result ≡ is_declared self.now name.now }
    {
        self.names.has(name)
    }

    /// Whether the name is declared with so many variables.
    fn has(&self, name: &[u8], arity: u64) -> bool
        ensures { result ≡ takes self.now name.now arity }
    {
        self.keys.contains(&(name, arity))
    }
}

/// The names of the heads.
fn names_of<'a>(alloc: Global, heads: &'a [Head]) -> Result<Names<'a>, AllocError>
    ensures { IfOk result (λ names. AreThose (is_declared heads.now) names) }
{
    let mut names = Names::new(alloc);
    for head in heads {
        names.add(head.name.name.as_slice())?;
    }
    Ok(names)
}

/// The names of the heads with their numbers of variables.
fn keys_of<'a>(alloc: Global, heads: &'a [Head]) -> Result<IndexSet<(&'a [u8], u64)>, AllocError>
    ensures { IfOk result (λ keys. (key : Key) → list_any (is_same_key key) keys.keys ≡ takes heads.now key.0.now key.1) }
{
    let mut keys = IndexSet::new(alloc);
    for head in heads {
        keys.insert(key_of(head))?;
    }
    Ok(keys)
}

fn key_of(head: &Head) -> (&[u8], u64)
    ensures name { result.0.now ≡ head.now.name.name }
    ensures arity { result.1 ≡ length head.now.variables }
{
    (head.name.name.as_slice(), head.variables.len() as u64)
}

/// The declared predicates and functions of a domain. Contracts see the domain.
pub struct Signature<'a> {
    domain: &'a Domain,
    predicates: Heads<'a>,
    functions: Heads<'a>,
}

impl Drop for Signature<'_> {
    fn drop(self) {
        let Signature {
            domain: _,
            predicates: _,
            functions: _,
        } = self;
    }
}

impl<'a> Model for Signature<'a> {
    ghost use Rattle.std.specs.Prelude.{◌≡◌};
    ghost use Rattle.pddl_syntax.specs.contracts.types.Domain as domains;
    ghost use Rattle.pddl_syntax.specs.declared.types.Domain.{Domain};

    ghost Value = { Domain };

    ghost coded = { domains.the_row.coded };

    ghost view = { λ signature. signature.domain.now };

    ghost invariant = { λ signature. (signature.predicates ≡ signature.domain.now.predicates) × (signature.functions ≡ signature.domain.now.functions) };
}

impl<'a> Signature<'a> {
    /// The signature of the domain.
    pub fn of(alloc: Global, domain: &'a Domain) -> Result<Signature<'a>, AllocError>
        ensures { IfOk result (λ signature. signature ≡ domain.now) }
    {
        let predicates = Heads::of(alloc, domain.predicates.as_slice())?;
        let functions = Heads::of(alloc, domain.functions.as_slice())?;
        Ok(Signature {
            domain,
            predicates,
            functions,
        })
    }

    /// Whether a predicate has the name.
    pub(crate) fn has_predicate(&self, name: &[u8]) -> bool
        ensures { result ≡ is_declared self.now.predicates name.now }
    {
        self.predicates.declares(name)
    }

    /// Whether a predicate has the name and so many variables.
    pub(crate) fn predicate_takes(&self, name: &[u8], arity: u64) -> bool
        ensures { result ≡ takes self.now.predicates name.now arity }
    {
        self.predicates.has(name, arity)
    }

    /// Whether a function has the name.
    pub(crate) fn has_function(&self, name: &[u8]) -> bool
        ensures { result ≡ is_declared self.now.functions name.now }
    {
        self.functions.declares(name)
    }

    /// Whether a function has the name and so many variables.
    pub(crate) fn function_takes(&self, name: &[u8], arity: u64) -> bool
        ensures { result ≡ takes self.now.functions name.now arity }
    {
        self.functions.has(name, arity)
    }
}
