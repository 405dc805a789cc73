// Arguments that name no object, and derived predicates that an effect or `:init` writes.
ghost use Rattle.std.specs.Prelude.{◌≡◌, ◌||◌, IfOk, OnOk};
ghost use Rattle.std.specs.List.{flat_map, list_any};
ghost use Rattle.pddl_syntax.specs.Holds.{is_derived};
ghost use Rattle.pddl_syntax.specs.Objects.{objects};
ghost use Rattle.pddl_syntax.specs.Words.{Name, is_same};
ghost use Rattle.fault_positions.specs.Arguments.{is_listed};
ghost use Rattle.fault_positions.specs.Positions.{earliest, positions_where};
ghost use Rattle.fault_positions.specs.Mentioned.{AreMentioned};
ghost use Rattle.fault_positions.specs.Mentions.{in_domain, in_problem, arguments, written_predicates};
ghost use Rattle.fault_positions.specs.Names.{unknown_object, unknown_objects, written_derived};
ghost use Rattle.fault_positions.specs.Seen.{seen, all_seen};

use crate::files::Files;
use crate::mentions::Mention;
use crate::positions::{FirstPositions, earlier, first_of};
use names::Names;
use pddl_lexer::At;
use pddl_syntax::{Domain, Problem, Term, Typed};
use std::alloc::{AllocError, Global};
use std::marker::Model;

// ---- objects

/// The names of the objects of a domain and a problem. A look-up goes through a table. Contracts see the two files.
#[derive(Drop)]
struct Objects<'a> {
    domain: &'a Domain,
    problem: &'a Problem,
    names: Names<'a>,
}

impl<'a> Model for Objects<'a> {
    ghost use Rattle.std.specs.Coded.{coded×};
    ghost use Rattle.pddl_syntax.specs.contracts.types.Domain as domains;
    ghost use Rattle.pddl_syntax.specs.contracts.types.Problem as problems;
    ghost use Rattle.pddl_syntax.specs.declared.types.Domain.{Domain};
    ghost use Rattle.pddl_syntax.specs.declared.types.Problem.{Problem};
    ghost use Rattle.pddl_syntax.specs.Objects.{objects};
    ghost use Rattle.fault_positions.specs.Arguments.{is_listed, AreThose};

    ghost Value = { Domain × Problem };

    ghost coded = { coded× domains.the_row.coded problems.the_row.coded };

    ghost view = { λ table. (table.domain.now, table.problem.now) };

    ghost invariant = { λ table. AreThose (is_listed (objects table.domain.now table.problem.now)) table.names };
}

impl<'a> Objects<'a> {
    /// The table of the constants of the domain and the objects of the problem.
    fn of(
        alloc: Global,
        domain: &'a Domain,
        problem: &'a Problem,
    ) -> Result<Objects<'a>, AllocError>
        ensures { IfOk result (λ table. table ≡ (domain.now, problem.now)) }
    {
        let mut names = Names::new(alloc);
        add_names(&mut names, domain.constants.as_slice())?;
        add_names(&mut names, problem.objects.as_slice())?;
        Ok(Objects {
            domain,
            problem,
            names,
        })
    }

    fn has(&self, name: &[u8]) -> bool
        ensures { result ≡ is_listed (objects self.now.0 self.now.1) name.now }
    {
        self.names.has(name)
    }
}

fn add_names<'a>(names: &mut Names<'a>, list: &'a [Typed]) -> Result<(), AllocError>
    ensures { OnOk result ((other : Name) → list_any (is_same other) names.new ≡ (list_any (is_same other) names.old || is_listed list.now other)) }
{
    for typed in list {
        names.add(typed.name.name.as_slice())?;
    }
    Ok(())
}

/// The first arguments in the domain and in the problem that name no object.
pub fn first_unknown_objects(alloc: Global, files: &Files<'_>) -> Result<FirstPositions, AllocError>
    requires { AreMentioned files.now }
    ensures { IfOk result (λ first. first ≡ (earliest (unknown_objects files.now.domain.now files.now.problem.now (in_domain files.now.domain.now)), earliest (unknown_objects files.now.domain.now files.now.problem.now (in_problem files.now.problem.now)))) }
{
    let objects = Objects::of(alloc, files.domain, files.problem)?;
    Ok((
        first_unknown_object(&objects, files.domain_mentions),
        first_unknown_object(&objects, files.problem_mentions),
    ))
}

/// The first argument that names no object.
fn first_unknown_object(objects: &Objects<'_>, mentions: &[Mention<'_>]) -> Option<At>
    ensures { result ≡ earliest (unknown_objects objects.now.0 objects.now.1 (all_seen mentions.now)) }
{
    first_of(mentions, |mention| unknown_in_mention(objects, mention))
}

fn unknown_in_mention(objects: &Objects<'_>, mention: &Mention<'_>) -> Option<At>
    ensures { result ≡ earliest (flat_map (unknown_object objects.now.0 objects.now.1) (arguments (seen mention.now))) }
{
    match *mention {
        Mention::Asked(atom) | Mention::Written(atom) | Mention::Function(atom) => {
            unknown_in_terms(objects, atom.terms.as_slice())
        }
        Mention::Compared(left, right) => {
            earlier(
                unknown_object(objects, left),
                unknown_object(objects, right),
            )
        }
        Mention::Variables(_) | Mention::Derives(_) => None,
    }
}

fn unknown_in_terms(objects: &Objects<'_>, terms: &[Term]) -> Option<At>
    ensures { result ≡ earliest (flat_map (unknown_object objects.now.0 objects.now.1) terms.now) }
{
    first_of(terms, |term| unknown_object(objects, term))
}

/// The position of a term that names no object.
fn unknown_object(objects: &Objects<'_>, term: &Term) -> Option<At>
    ensures { result ≡ earliest (unknown_object objects.now.0 objects.now.1 term.now) }
{
    match term {
        Term::Object(object) if !objects.has(object.name.as_slice()) => Some(object.at),
        Term::Object(_) | Term::Variable(_) => None,
    }
}

// ---- derived predicates

/// The names of the derived predicates of a domain. A look-up goes through a table. Contracts see the domain.
#[derive(Drop)]
struct DerivedNames<'a> {
    domain: &'a Domain,
    names: Names<'a>,
}

impl<'a> Model for DerivedNames<'a> {
    ghost use Rattle.pddl_syntax.specs.contracts.types.Domain as domains;
    ghost use Rattle.pddl_syntax.specs.declared.types.Domain.{Domain};
    ghost use Rattle.pddl_syntax.specs.Holds.{is_derived};
    ghost use Rattle.fault_positions.specs.Arguments.{AreThose};

    ghost Value = { Domain };

    ghost coded = { domains.the_row.coded };

    ghost view = { λ table. table.domain.now };

    ghost invariant = { λ table. AreThose (is_derived table.domain.now) table.names };
}

impl<'a> DerivedNames<'a> {
    /// The table of the predicates that have axioms.
    fn of(alloc: Global, domain: &'a Domain) -> Result<DerivedNames<'a>, AllocError>
        ensures { IfOk result (λ table. table ≡ domain.now) }
    {
        let mut names = Names::new(alloc);
        for axiom in domain.axioms.as_slice() {
            names.add(axiom.head.name.name.as_slice())?;
        }
        Ok(DerivedNames { domain, names })
    }

    fn has(&self, name: &[u8]) -> bool
        ensures { result ≡ is_derived self.now name.now }
    {
        self.names.has(name)
    }
}

/// The first derived predicates in the domain and in the problem that are added or denied.
pub fn first_written_derived(alloc: Global, files: &Files<'_>) -> Result<FirstPositions, AllocError>
    requires { AreMentioned files.now }
    ensures { IfOk result (λ first. first ≡ (earliest (written_derived files.now.domain.now (in_domain files.now.domain.now)), earliest (written_derived files.now.domain.now (in_problem files.now.problem.now)))) }
{
    let derived = DerivedNames::of(alloc, files.domain)?;
    Ok((
        first_written(&derived, files.domain_mentions),
        first_written(&derived, files.problem_mentions),
    ))
}

/// The first derived predicate that is added or denied.
fn first_written(derived: &DerivedNames<'_>, mentions: &[Mention<'_>]) -> Option<At>
    ensures { result ≡ earliest (written_derived derived.now (all_seen mentions.now)) }
{
    first_of(mentions, |mention| derived_written(derived, mention))
}

fn derived_written(derived: &DerivedNames<'_>, mention: &Mention<'_>) -> Option<At>
    ensures { result ≡ earliest (positions_where (λ name. is_derived derived.now name.name) (written_predicates (seen mention.now))) }
{
    match *mention {
        Mention::Written(atom) if derived.has(atom.predicate.name.as_slice()) => {
            Some(atom.predicate.at)
        }
        _ => None,
    }
}
