//! Pairs, and lists of them.

ghost use Rattle.std.specs.Prelude.{◌≡◌, List, []};
ghost use Rattle.sas_reader.specs.Answers.{Gives};
ghost use Rattle.sas_reader.specs.Forms.{listed, line};
ghost use Rattle.sas_reader.specs.Contexts.{so_far};
ghost use Rattle.sas_reader.specs.Pairs as parts;

use crate::fault::SasFault;
use crate::reader::Reader;
use crate::values::{is_next_condition, is_next_fact, is_value};
use lists::Stop;
use sas_task::{List, Pair, Value, Var, Variable};
use std::alloc::Global;

/// A word that is a value of the variable.
#[tactic(auto, unfolding(crate::specs::Pairs::value))]
pub(crate) fn value(
    reader: &mut Reader<'_>,
    variables: &[Variable],
    var: Var,
) -> Result<Value, Stop<SasFault>>
    ensures { Gives (λ x. x) result reader.new (parts.value (so_far variables.now []) var reader.old) }
{
    let val = reader.number()?;
    reader.passing(is_value(variables, var, val), val)
}

/// Two words: a variable, and a value of it.
#[tactic(auto, unfolding(crate::specs::Pairs::pair))]
fn pair(reader: &mut Reader<'_>, variables: &[Variable]) -> Result<Pair, Stop<SasFault>>
    ensures { Gives (λ x. x) result reader.new (parts.pair (so_far variables.now []) reader.old) }
{
    let var = reader.number()?;
    let val = value(reader, variables, var)?;
    Ok(Pair { var, val })
}

/// The pair of a condition, after these.
#[tactic(auto, unfolding(crate::specs::Pairs::condition))]
fn condition(
    reader: &mut Reader<'_>,
    variables: &[Variable],
    before: &[Pair],
) -> Result<Pair, Stop<SasFault>>
    ensures { Gives (λ x. x) result reader.new (parts.condition (so_far variables.now []) before.now reader.old) }
{
    let pair = pair(reader, variables)?;
    reader.passing(is_next_condition(before, pair), pair)
}

#[tactic(auto, unfolding(crate::specs::Forms::line))]
fn condition_line(
    reader: &mut Reader<'_>,
    variables: &[Variable],
    before: &[Pair],
) -> Result<Pair, Stop<SasFault>>
    ensures { Gives (λ x. x) result reader.new (line (parts.condition (so_far variables.now []) before.now) reader.old) }
{
    reader.begin_words()?;
    let pair = condition(reader, variables, before)?;
    reader.end_words()?;
    Ok(pair)
}

/// The line of a fact of a mutex group, after these.
#[tactic(auto, unfolding(crate::specs::Forms::line, crate::specs::Pairs::fact))]
fn fact_line(
    reader: &mut Reader<'_>,
    variables: &[Variable],
    before: &[Pair],
) -> Result<Pair, Stop<SasFault>>
    ensures { Gives (λ x. x) result reader.new (line (parts.fact (so_far variables.now []) before.now) reader.old) }
{
    reader.begin_words()?;
    let pair = pair(reader, variables)?;
    let pair = reader.passing(is_next_fact(before, pair), pair)?;
    reader.end_words()?;
    Ok(pair)
}

/// So many conditions, in words of one line.
fn condition_words(
    alloc: Global,
    reader: &mut Reader<'_>,
    variables: &[Variable],
    count: u64,
) -> Result<List<Pair>, Stop<SasFault>>
    ensures { Gives (λ x. x) result reader.new (listed (parts.condition (so_far variables.now [])) count [] reader.old) }
{
    let mut pairs = Vec::new(alloc);
    for _ in 0..count {
        pairs.push(condition(reader, variables, pairs.as_slice())?)?;
    }
    Ok(List::from_vec(pairs))
}

/// So many conditions, a line for each.
fn condition_lines(
    alloc: Global,
    reader: &mut Reader<'_>,
    variables: &[Variable],
    count: u64,
) -> Result<List<Pair>, Stop<SasFault>>
    ensures { Gives (λ x. x) result reader.new (listed (λ before. line (parts.condition (so_far variables.now []) before)) count [] reader.old) }
{
    let mut pairs = Vec::new(alloc);
    for _ in 0..count {
        pairs.push(condition_line(reader, variables, pairs.as_slice())?)?;
    }
    Ok(List::from_vec(pairs))
}

/// So many facts of a mutex group, a line for each.
pub(crate) fn fact_lines(
    alloc: Global,
    reader: &mut Reader<'_>,
    variables: &[Variable],
    count: u64,
) -> Result<List<Pair>, Stop<SasFault>>
    ensures { Gives (λ x. x) result reader.new (listed (λ before. line (parts.fact (so_far variables.now []) before)) count [] reader.old) }
{
    let mut pairs = Vec::new(alloc);
    for _ in 0..count {
        pairs.push(fact_line(reader, variables, pairs.as_slice())?)?;
    }
    Ok(List::from_vec(pairs))
}

/// The conditions of an effect: their number and then their words.
#[tactic(auto, unfolding(crate::specs::Pairs::effect_conditions))]
pub(crate) fn effect_conditions(
    alloc: Global,
    reader: &mut Reader<'_>,
    variables: &[Variable],
) -> Result<List<Pair>, Stop<SasFault>>
    ensures { Gives (λ x. x) result reader.new (parts.effect_conditions (so_far variables.now []) reader.old) }
{
    let count = reader.number()?;
    condition_words(alloc, reader, variables, count)
}

/// Conditions: their number and then their lines.
#[tactic(auto, unfolding(crate::specs::Pairs::conditions))]
pub(crate) fn conditions(
    alloc: Global,
    reader: &mut Reader<'_>,
    variables: &[Variable],
) -> Result<List<Pair>, Stop<SasFault>>
    ensures { Gives (λ x. x) result reader.new (parts.conditions (so_far variables.now []) reader.old) }
{
    let count = reader.number_line()?;
    condition_lines(alloc, reader, variables, count)
}
