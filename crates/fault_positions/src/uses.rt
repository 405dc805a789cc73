// Predicates and functions that are used without a declaration, or with another number of arguments.
ghost use Rattle.std.specs.Prelude.{◌≡◌, ◌∷◌, []};
ghost use Rattle.std.specs.List.{flat_map};
ghost use Rattle.pddl_syntax.specs.Words.{is_same};
ghost use Rattle.fault_positions.specs.Increases.{total_cost};
ghost use Rattle.fault_positions.specs.Positions.{earliest};
ghost use Rattle.fault_positions.specs.Mentioned.{AreMentioned};
ghost use Rattle.fault_positions.specs.Mentions.{in_domain, in_problem, predicate_uses, function_uses, use_of, head_use};
ghost use Rattle.fault_positions.specs.Names.{unknown_predicates, unknown_functions, is_well_used, wrong_uses, total_cost_heads};
ghost use Rattle.fault_positions.specs.Seen.{seen, all_seen};
ghost use Rattle.fault_positions.specs.Uses.{shown, listed, undeclared_predicates, undeclared_functions, wrong_predicates, wrong_functions, overfull_totals};

use crate::files::Files;
use crate::heads::Signature;
use crate::mentions::Mention;
use crate::positions::{FirstPositions, earlier, first_of};
use pddl_lexer::At;
use pddl_syntax::{Atom, Domain, Head, Named};

/// A predicate or a function with so many arguments.
#[derive(Clone, Copy)]
struct Usage<'a> {
    name: &'a Named,
    arity: u64,
}

impl<'a> Usage<'a> {
    fn of_atom(atom: &'a Atom) -> Usage<'a>
        ensures { shown result ≡ use_of atom.now }
    {
        Usage {
            name: &atom.predicate,
            arity: atom.terms.len() as u64,
        }
    }

    fn of_head(head: &'a Head) -> Usage<'a>
        ensures { shown result ≡ head_use head.now }
    {
        Usage {
            name: &head.name,
            arity: head.variables.len() as u64,
        }
    }

    fn is_total_cost(&self) -> bool
        ensures { result ≡ is_same (shown self.now).name.name total_cost }
    {
        self.name.name.as_slice() == total_cost()
    }
}

fn total_cost() -> &'static [u8]
    ensures { result.now ≡ total_cost }
{
    b"total-cost".as_slice()
}

/// The predicate that is mentioned.
fn predicate_use<'a>(mention: &Mention<'a>) -> Option<Usage<'a>>
    ensures { listed result ≡ predicate_uses (seen mention.now) }
{
    match *mention {
        Mention::Derives(head) => Some(Usage::of_head(head)),
        Mention::Asked(atom) | Mention::Written(atom) => Some(Usage::of_atom(atom)),
        Mention::Variables(_) | Mention::Function(_) | Mention::Compared(_, _) => None,
    }
}

/// The function that is mentioned.
fn function_use<'a>(mention: &Mention<'a>) -> Option<Usage<'a>>
    ensures { listed result ≡ function_uses (seen mention.now) }
{
    match *mention {
        Mention::Function(term) => Some(Usage::of_atom(term)),
        Mention::Variables(_)
        | Mention::Derives(_)
        | Mention::Asked(_)
        | Mention::Written(_)
        | Mention::Compared(_, _) => None,
    }
}

// ---- names without a declaration

/// The first uses of predicates that aren't declared.
pub fn first_unknown_predicates(files: &Files<'_>) -> FirstPositions
    requires { AreMentioned files.now }
    ensures { result ≡ (earliest (unknown_predicates files.now.domain.now (in_domain files.now.domain.now)), earliest (unknown_predicates files.now.domain.now (in_problem files.now.problem.now))) }
{
    (
        first_unknown_predicate(files.signature, files.domain_mentions),
        first_unknown_predicate(files.signature, files.problem_mentions),
    )
}

/// The first use of a predicate that isn't declared.
fn first_unknown_predicate(signature: &Signature<'_>, mentions: &[Mention<'_>]) -> Option<At>
    ensures { result ≡ earliest (unknown_predicates signature.now (all_seen mentions.now)) }
{
    first_of(mentions, |mention| unknown_predicate(signature, mention))
}

fn unknown_predicate(signature: &Signature<'_>, mention: &Mention<'_>) -> Option<At>
    ensures { result ≡ earliest (undeclared_predicates signature.now (predicate_uses (seen mention.now))) }
{
    let usage = predicate_use(mention)?;
    if signature.has_predicate(usage.name.name.as_slice()) {
        None
    } else {
        Some(usage.name.at)
    }
}

/// The first uses of functions that aren't declared.
pub fn first_unknown_functions(files: &Files<'_>) -> FirstPositions
    requires { AreMentioned files.now }
    ensures { result ≡ (earliest (unknown_functions files.now.domain.now (in_domain files.now.domain.now)), earliest (unknown_functions files.now.domain.now (in_problem files.now.problem.now))) }
{
    (
        first_unknown_function(files.signature, files.domain_mentions),
        first_unknown_function(files.signature, files.problem_mentions),
    )
}

/// The first use of a function that isn't declared. `total-cost` needs no declaration.
fn first_unknown_function(signature: &Signature<'_>, mentions: &[Mention<'_>]) -> Option<At>
    ensures { result ≡ earliest (unknown_functions signature.now (all_seen mentions.now)) }
{
    first_of(mentions, |mention| unknown_function(signature, mention))
}

fn unknown_function(signature: &Signature<'_>, mention: &Mention<'_>) -> Option<At>
    ensures { result ≡ earliest (undeclared_functions signature.now (function_uses (seen mention.now))) }
{
    let usage = function_use(mention)?;
    if signature.has_function(usage.name.name.as_slice()) || usage.is_total_cost() {
        None
    } else {
        Some(usage.name.at)
    }
}

// ---- other numbers of arguments

/// The first use with another number of arguments than any declaration has.
pub fn first_wrong_use(signature: &Signature<'_>, mentions: &[Mention<'_>]) -> Option<At>
    ensures { result ≡ earliest (wrong_uses signature.now (all_seen mentions.now)) }
{
    earlier(
        first_wrong_predicate(signature, mentions),
        first_wrong_function(signature, mentions),
    )
}

fn first_wrong_predicate(signature: &Signature<'_>, mentions: &[Mention<'_>]) -> Option<At>
    ensures { result ≡ earliest (wrong_predicates signature.now (flat_map predicate_uses (all_seen mentions.now))) }
{
    first_of(mentions, |mention| wrong_predicate(signature, mention))
}

fn wrong_predicate(signature: &Signature<'_>, mention: &Mention<'_>) -> Option<At>
    ensures { result ≡ earliest (wrong_predicates signature.now (predicate_uses (seen mention.now))) }
{
    let usage = predicate_use(mention)?;
    if signature.predicate_takes(usage.name.name.as_slice(), usage.arity) {
        None
    } else {
        Some(usage.name.at)
    }
}

fn first_wrong_function(signature: &Signature<'_>, mentions: &[Mention<'_>]) -> Option<At>
    ensures { result ≡ earliest (wrong_functions signature.now (flat_map function_uses (all_seen mentions.now))) }
{
    first_of(mentions, |mention| wrong_function(signature, mention))
}

fn wrong_function(signature: &Signature<'_>, mention: &Mention<'_>) -> Option<At>
    ensures { result ≡ earliest (wrong_functions signature.now (function_uses (seen mention.now))) }
{
    let usage = function_use(mention)?;
    if is_well_used(signature, &usage) {
        None
    } else {
        Some(usage.name.at)
    }
}

/// Whether a function has as many arguments as some declaration. `total-cost` has none, and needs no declaration.
fn is_well_used(signature: &Signature<'_>, usage: &Usage<'_>) -> bool
    ensures { result ≡ is_well_used signature.now (shown usage.now) }
{
    let is_declared_so = signature.function_takes(usage.name.name.as_slice(), usage.arity);
    if usage.is_total_cost() {
        usage.arity == 0 && (is_declared_so || !signature.has_function(total_cost()))
    } else {
        is_declared_so
    }
}

/// The first declaration of `total-cost` with arguments.
pub fn first_total_cost_head(domain: &Domain) -> Option<At>
    ensures { result ≡ earliest (total_cost_heads domain.now) }
{
    first_of(domain.functions.as_slice(), total_cost_head)
}

fn total_cost_head(head: &Head) -> Option<At>
    ensures { result ≡ earliest (overfull_totals (head_use head.now ∷ [])) }
{
    let usage = Usage::of_head(head);
    if usage.is_total_cost() && usage.arity != 0 {
        Some(usage.name.at)
    } else {
        None
    }
}
