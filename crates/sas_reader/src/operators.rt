//! The section of the operators.

ghost use Rattle.std.specs.Prelude.{◌≡◌, List, [], IfOk};
ghost use Rattle.sas_reader.specs.Answers.{Gives};
ghost use Rattle.sas_reader.specs.Forms.{listed, line};
ghost use Rattle.sas_reader.specs.Contexts.{so_far};
ghost use Rattle.sas_reader.specs.Operators as operators;
ghost use Rattle.sas_reader.specs.Tables as steps;

use crate::fault::SasFault;
use crate::numbers::{is_name, less_space};
use crate::parts::{conditions, effect_conditions, value};
use crate::reader::Reader;
use crate::requirements::Requirements;
use crate::values::{is_value, layer_of};
use lists::Stop;
use sas_task::{Effect, List, Operator, Pair, Text, Value, Var, Variable};
use std::alloc::Global;

/// The line of an operator's name, which may have one space more at its end.
#[tactic(auto, unfolding(crate::specs::Operators::name))]
fn name<'a>(reader: &mut Reader<'a>) -> Result<&'a [u8], Stop<SasFault>>
    ensures { Gives (λ name. name.now) result reader.new (operators.name reader.old) }
{
    let name = less_space(reader.next_line()?);
    reader.passing(is_name(name), name)
}

/// A word that is a value of the variable, or -1.
#[tactic(auto, unfolding(crate::specs::Operators::required_value))]
fn required_value(
    reader: &mut Reader<'_>,
    variables: &[Variable],
    var: Var,
) -> Result<Option<Value>, Stop<SasFault>>
    ensures { Gives (λ x. x) result reader.new (operators.required_value (so_far variables.now []) var reader.old) }
{
    let required = reader.number_or_none()?;
    let is_lawful = match required {
        Some(val) => is_value(variables, var, val),
        None => true,
    };
    reader.passing(is_lawful, required)
}

/// The words of an effect line, after what was read: the effect, and the value that the operator requires of its
/// variable.
#[tactic(auto, unfolding(crate::specs::Operators::effect))]
fn effect_words(
    alloc: Global,
    reader: &mut Reader<'_>,
    variables: &[Variable],
    required: &Requirements,
) -> Result<(Effect, Option<Value>), Stop<SasFault>>
    ensures { Gives (λ x. x) result reader.new (operators.effect (so_far variables.now []) required.now.0 required.now.1 reader.old) }
{
    let conditions = effect_conditions(alloc, reader, variables)?;
    let var = reader.number()?;
    let value_before = required_value(reader, variables, var)?;
    let after = value(reader, variables, var)?;
    let is_lawful = layer_of(variables, var).is_none() && required.may_change(var, value_before);
    let effect = Effect {
        conditions,
        var,
        after,
    };
    reader.passing(is_lawful, (effect, value_before))
}

#[tactic(auto, unfolding(crate::specs::Forms::line))]
fn effect_line(
    alloc: Global,
    reader: &mut Reader<'_>,
    variables: &[Variable],
    required: &Requirements,
) -> Result<(Effect, Option<Value>), Stop<SasFault>>
    ensures { Gives (λ x. x) result reader.new (line (operators.effect (so_far variables.now []) required.now.0 required.now.1) reader.old) }
{
    reader.begin_words()?;
    let told = effect_words(alloc, reader, variables, required)?;
    reader.end_words()?;
    Ok(told)
}

/// So many effect lines, after the prevail conditions.
fn effect_lines(
    alloc: Global,
    reader: &mut Reader<'_>,
    variables: &[Variable],
    prevail: List<Pair>,
    count: u64,
) -> Result<Requirements, Stop<SasFault>>
    ensures read { Gives (λ r. r.1) result reader.new (listed (λ earlier. line (operators.effect (so_far variables.now []) prevail earlier)) count [] reader.old) }
    ensures prevail { IfOk result (λ r. r.0 ≡ prevail) }
{
    let mut required = Requirements::new(alloc, prevail)?;
    for _ in 0..count {
        let (effect, value_before) = effect_line(alloc, reader, variables, &required)?;
        required = required.with(effect, value_before)?;
    }
    Ok(required)
}

/// The line of an operator's cost.
#[tactic(auto, unfolding(crate::specs::Operators::cost))]
fn cost(reader: &mut Reader<'_>, metric: bool) -> Result<u64, Stop<SasFault>>
    ensures { Gives (λ x. x) result reader.new (operators.cost metric reader.old) }
{
    let cost = reader.number_line()?;
    reader.passing(cost <= 2_147_483_647 && (metric || cost == 1), cost)
}

/// The lines of an operator after its name.
#[tactic(auto, unfolding(crate::specs::Tables::after_name))]
fn after_name(
    alloc: Global,
    reader: &mut Reader<'_>,
    metric: bool,
    variables: &[Variable],
    name: &[u8],
) -> Result<Operator, Stop<SasFault>>
    ensures { Gives (λ x. x) result reader.new (steps.after_name metric (so_far variables.now []) name.now reader.old) }
{
    let prevail = conditions(alloc, reader, variables)?;
    let count = reader.number_line()?;
    let required = effect_lines(alloc, reader, variables, prevail, count)?;
    let cost = cost(reader, metric)?;
    reader.fixed(b"end_operator")?;
    let name = Text::from_slice(alloc, name)?;
    let (conditions, effects) = required.into_parts(alloc)?;
    Ok(Operator {
        name,
        conditions,
        effects,
        cost,
    })
}

/// The lines of an operator.
#[tactic(auto, unfolding(crate::specs::Operators::operator))]
fn operator(
    alloc: Global,
    reader: &mut Reader<'_>,
    metric: bool,
    variables: &[Variable],
) -> Result<Operator, Stop<SasFault>>
    ensures { Gives (λ x. x) result reader.new (operators.operator metric (so_far variables.now []) reader.old) }
{
    reader.fixed(b"begin_operator")?;
    let name = name(reader)?;
    after_name(alloc, reader, metric, variables, name)
}

/// So many operators.
fn operators(
    alloc: Global,
    reader: &mut Reader<'_>,
    metric: bool,
    variables: &[Variable],
    count: u64,
) -> Result<List<Operator>, Stop<SasFault>>
    ensures { Gives (λ x. x) result reader.new (listed (λ _. operators.operator metric (so_far variables.now [])) count [] reader.old) }
{
    let mut operators = Vec::new(alloc);
    for _ in 0..count {
        operators.push(operator(alloc, reader, metric, variables)?)?;
    }
    Ok(List::from_vec(operators))
}

/// The section of the operators: their number and then the lines of each.
#[tactic(auto, unfolding(crate::specs::Operators::operators))]
pub(crate) fn operator_section(
    alloc: Global,
    reader: &mut Reader<'_>,
    metric: bool,
    variables: &[Variable],
) -> Result<List<Operator>, Stop<SasFault>>
    ensures { Gives (λ x. x) result reader.new (operators.operators metric (so_far variables.now []) reader.old) }
{
    let count = reader.number_line()?;
    operators(alloc, reader, metric, variables, count)
}
