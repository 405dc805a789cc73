//! The sections of the version, the metric, the variables, the mutex groups, the state and the goal.

ghost use Rattle.std.specs.Prelude.{◌≡◌, ◌++◌, List, [], codes, length};
ghost use Rattle.sas_task.specs.Output.{numeral};
ghost use Rattle.sas_reader.specs.Answers.{Gives};
ghost use Rattle.sas_reader.specs.Forms.{listed};
ghost use Rattle.sas_reader.specs.Contexts.{so_far};
ghost use Rattle.sas_reader.specs.Words.{is_same};
ghost use Rattle.sas_reader.specs.Sections as sections;

use crate::fault::SasFault;
use crate::numbers::{is_name, number};
use crate::parts::{conditions, fact_lines};
use crate::reader::Reader;
use crate::values::is_value;
use lists::Stop;
use sas_task::{Group, List, Pair, Text, Value, Var, Variable};
use std::alloc::Global;

/// The section of the version.
#[tactic(auto, unfolding(crate::specs::Sections::version))]
pub(crate) fn version(reader: &mut Reader<'_>) -> Result<(), Stop<SasFault>>
    ensures { Gives (λ x. x) result reader.new (sections.version reader.old) }
{
    reader.fixed(b"begin_version")?;
    reader.fixed(b"3")?;
    reader.fixed(b"end_version")
}

/// The section of the metric.
#[tactic(auto, unfolding(crate::specs::Sections::metric))]
pub(crate) fn metric(reader: &mut Reader<'_>) -> Result<bool, Stop<SasFault>>
    ensures { Gives (λ x. x) result reader.new (sections.metric reader.old) }
{
    reader.fixed(b"begin_metric")?;
    let line = reader.next_line()?;
    let metric = line == b"1".as_slice();
    let metric = reader.passing(metric || line == b"0".as_slice(), metric)?;
    reader.fixed(b"end_metric")?;
    Ok(metric)
}

/// Whether the line is the name of the variable with this number: `var` and the number.
fn is_variable_name(line: &[u8], own_number: u64) -> bool
    ensures { result ≡ is_same line.now (codes "var" ++ numeral own_number) }
{
    match line.strip_prefix(b"var".as_slice()) {
        Some(digits) => number(digits) == Some(own_number),
        None => false,
    }
}

/// The line of a variable's name.
#[tactic(auto, unfolding(crate::specs::Sections::variable_name, crate::specs::Forms::fixed))]
fn variable_name(reader: &mut Reader<'_>, own_number: u64) -> Result<(), Stop<SasFault>>
    ensures { Gives (λ x. x) result reader.new (sections.variable_name own_number reader.old) }
{
    let line = reader.next_line()?;
    reader.passing(is_variable_name(line, own_number), ())
}

/// The line of a fact's name.
#[tactic(auto, unfolding(crate::specs::Sections::fact_name))]
fn fact_name(alloc: Global, reader: &mut Reader<'_>) -> Result<Text, Stop<SasFault>>
    ensures { Gives (λ x. x) result reader.new (sections.fact_name reader.old) }
{
    let name = reader.next_line()?;
    reader.passing(is_name(name), ())?;
    Ok(Text::from_slice(alloc, name)?)
}

/// So many names of facts.
fn fact_names(
    alloc: Global,
    reader: &mut Reader<'_>,
    count: u64,
) -> Result<List<Text>, Stop<SasFault>>
    ensures { Gives (λ x. x) result reader.new (listed (λ _. sections.fact_name) count [] reader.old) }
{
    let mut names = Vec::new(alloc);
    for _ in 0..count {
        names.push(fact_name(alloc, reader)?)?;
    }
    Ok(List::from_vec(names))
}

/// The lines of the variable with this number.
#[tactic(auto, unfolding(crate::specs::Sections::variable))]
fn variable(
    alloc: Global,
    reader: &mut Reader<'_>,
    own_number: u64,
) -> Result<Variable, Stop<SasFault>>
    ensures { Gives (λ x. x) result reader.new (sections.variable own_number reader.old) }
{
    reader.fixed(b"begin_variable")?;
    variable_name(reader, own_number)?;
    let layer = reader.number_or_none_line()?;
    let range = reader.at_least(1)?;
    let facts = fact_names(alloc, reader, range)?;
    reader.fixed(b"end_variable")?;
    Ok(Variable { layer, facts })
}

/// So many variables.
fn variables(
    alloc: Global,
    reader: &mut Reader<'_>,
    count: u64,
) -> Result<List<Variable>, Stop<SasFault>>
    ensures { Gives (λ x. x) result reader.new (listed (λ before. sections.variable (length before)) count [] reader.old) }
{
    let mut variables = Vec::new(alloc);
    for number in 0..count {
        variables.push(variable(alloc, reader, number)?)?;
    }
    Ok(List::from_vec(variables))
}

/// The section of the variables: their number and then the lines of each.
#[tactic(auto, unfolding(crate::specs::Sections::variables))]
pub(crate) fn variable_section(
    alloc: Global,
    reader: &mut Reader<'_>,
) -> Result<List<Variable>, Stop<SasFault>>
    ensures { Gives (λ x. x) result reader.new (sections.variables reader.old) }
{
    let count = reader.number_line()?;
    variables(alloc, reader, count)
}

/// The lines of a mutex group.
#[tactic(auto, unfolding(crate::specs::Sections::group))]
fn group(
    alloc: Global,
    reader: &mut Reader<'_>,
    variables: &[Variable],
) -> Result<Group, Stop<SasFault>>
    ensures { Gives (λ x. x) result reader.new (sections.group (so_far variables.now []) reader.old) }
{
    reader.fixed(b"begin_mutex_group")?;
    let count = reader.at_least(2)?;
    let facts = fact_lines(alloc, reader, variables, count)?;
    reader.fixed(b"end_mutex_group")?;
    Ok(Group { facts })
}

/// So many mutex groups.
fn groups(
    alloc: Global,
    reader: &mut Reader<'_>,
    variables: &[Variable],
    count: u64,
) -> Result<List<Group>, Stop<SasFault>>
    ensures { Gives (λ x. x) result reader.new (listed (λ _. sections.group (so_far variables.now [])) count [] reader.old) }
{
    let mut groups = Vec::new(alloc);
    for _ in 0..count {
        groups.push(group(alloc, reader, variables)?)?;
    }
    Ok(List::from_vec(groups))
}

/// The section of the mutex groups: their number and then the lines of each.
#[tactic(auto, unfolding(crate::specs::Sections::groups))]
pub(crate) fn group_section(
    alloc: Global,
    reader: &mut Reader<'_>,
    variables: &[Variable],
) -> Result<List<Group>, Stop<SasFault>>
    ensures { Gives (λ x. x) result reader.new (sections.groups (so_far variables.now []) reader.old) }
{
    let count = reader.number_line()?;
    groups(alloc, reader, variables, count)
}

/// The line of a variable's value in the written state.
#[tactic(auto, unfolding(crate::specs::Sections::state_value))]
fn state_value(
    reader: &mut Reader<'_>,
    variables: &[Variable],
    var: Var,
) -> Result<Value, Stop<SasFault>>
    ensures { Gives (λ x. x) result reader.new (sections.state_value (so_far variables.now []) var reader.old) }
{
    let val = reader.number_line()?;
    reader.passing(is_value(variables, var, val), val)
}

/// The value of each variable.
fn state_values(
    alloc: Global,
    reader: &mut Reader<'_>,
    variables: &[Variable],
) -> Result<List<Value>, Stop<SasFault>>
    ensures { Gives (λ x. x) result reader.new (listed (λ before. sections.state_value (so_far variables.now []) (length before)) (length variables.now) [] reader.old) }
{
    let mut values = Vec::new(alloc);
    for var in 0..variables.len() as u64 {
        values.push(state_value(reader, variables, var)?)?;
    }
    Ok(List::from_vec(values))
}

/// The section of the state.
#[tactic(auto, unfolding(crate::specs::Sections::state))]
pub(crate) fn state_section(
    alloc: Global,
    reader: &mut Reader<'_>,
    variables: &[Variable],
) -> Result<List<Value>, Stop<SasFault>>
    ensures { Gives (λ x. x) result reader.new (sections.state (so_far variables.now []) reader.old) }
{
    reader.fixed(b"begin_state")?;
    let values = state_values(alloc, reader, variables)?;
    reader.fixed(b"end_state")?;
    Ok(values)
}

/// The section of the goal.
#[tactic(auto, unfolding(crate::specs::Sections::goal))]
pub(crate) fn goal_section(
    alloc: Global,
    reader: &mut Reader<'_>,
    variables: &[Variable],
) -> Result<List<Pair>, Stop<SasFault>>
    ensures { Gives (λ x. x) result reader.new (sections.goal (so_far variables.now []) reader.old) }
{
    reader.fixed(b"begin_goal")?;
    let goal = conditions(alloc, reader, variables)?;
    reader.fixed(b"end_goal")?;
    Ok(goal)
}
