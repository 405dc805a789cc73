//! The section of the rules.

ghost use Rattle.std.specs.Prelude.{◌≡◌, ◌==◌, ◌<◌, List, [], ◌∷◌, ◌++◌, true, length, slice_index, IfOk};
ghost use Rattle.std.specs.List.{find, list_all};
ghost use Rattle.std.specs.Option.{option_map_or};
ghost use Rattle.sas_reader.specs.Answers.{Gives};
ghost use Rattle.sas_reader.specs.Forms.{listed};
ghost use Rattle.sas_reader.specs.Contexts.{so_far, is_below};
ghost use Rattle.sas_reader.specs.Rules as rules;

use crate::fault::SasFault;
use crate::parts::{conditions, value};
use crate::reader::Reader;
use crate::tables::note;
use crate::values::{is_below, layer_of};
use lists::Stop;
use sas_task::{List, Pair, Rule, Value, Var, Variable};
use std::alloc::{AllocError, Global};
use std::collections::BTreeMap;
use std::marker::Model;

/// The rules that were read so far. Contracts see them as a list.
struct RulesSoFar {
    rules: Vec<Rule>,
    /// The new value of each variable that they set.
    afters: BTreeMap<Var, Value>,
}

impl Drop for RulesSoFar {
    fn drop(self) {
        let RulesSoFar {
            rules: _,
            afters: _,
        } = self;
    }
}

impl Model for RulesSoFar {
    ghost use Rattle.std.specs.Prelude.{List as Items};
    ghost use Rattle.sas_task.specs.declared.parts.Rule.{Rule};
    ghost use Rattle.sas_reader.specs.Tables.{AreAfters};

    ghost Value = { Items Rule };

    ghost view = { λ r. r.rules.items };

    ghost invariant = { λ r. AreAfters r.afters r.rules.items };
}

impl RulesSoFar {
    /// No rules.
    fn new(alloc: Global) -> RulesSoFar
        ensures { result ≡ [] }
    {
        RulesSoFar {
            rules: Vec::new(alloc),
            afters: BTreeMap::new(alloc),
        }
    }

    /// Whether the new value is that of the earlier rules for the variable.
    fn is_same_after(&self, var: Var, after: Value) -> bool
        ensures { result ≡ option_map_or (λ same. same.after == after) (find (λ same. same.var == var) self.now) true }
    {
        match self.afters.get(&var) {
            None => true,
            Some(earlier) => *earlier == after,
        }
    }

    /// With one more.
    fn with(self, rule: Rule) -> Result<RulesSoFar, AllocError>
        ensures { IfOk result (λ longer. longer ≡ self ++ rule ∷ []) }
    {
        let RulesSoFar {
            mut rules,
            mut afters,
        } = self;
        note(&mut afters, rule.var, rule.after)?;
        rules.push(rule)?;
        Ok(RulesSoFar { rules, afters })
    }

    fn into_list(self) -> List<Rule>
        ensures { result ≡ self }
    {
        let RulesSoFar { rules, afters: _ } = self;
        List::from_vec(rules)
    }
}

/// Whether the conditions are on basic variables and on variables of lower layers than this one's.
fn are_below(variables: &[Variable], var: Var, conditions: &[Pair]) -> bool
    ensures { result ≡ list_all (is_below (so_far variables.now []) var) conditions.now }
{
    conditions.iter().all(|pair| is_below(variables, var, pair))
}

/// Whether the number is the value of the variable in the state.
fn is_default(state: &[Value], var: Var, value: Value) -> bool
    ensures { var < length state.now → result ≡ (value == slice_index state.now var) }
{
    state.get(var as usize).copied() == Some(value)
}

/// Whether the rule may stand after these. Its new value is one of the variable.
fn may_set(variables: &[Variable], state: &[Value], earlier: &RulesSoFar, rule: &Rule) -> bool
    requires { length state.now ≡ length variables.now }
    ensures { result ≡ rules.may_set (so_far variables.now state.now) earlier.now rule.now }
{
    layer_of(variables, rule.var).is_some()
        && are_below(variables, rule.var, rule.conditions.as_slice())
        && is_default(state, rule.var, rule.before)
        && rule.before != rule.after
        && earlier.is_same_after(rule.var, rule.after)
}

/// The words of the line that says what a rule changes.
#[tactic(auto, unfolding(crate::specs::Rules::change))]
fn change_words(
    reader: &mut Reader<'_>,
    variables: &[Variable],
    state: &[Value],
    earlier: &RulesSoFar,
    conditions: List<Pair>,
) -> Result<Rule, Stop<SasFault>>
    requires { length state.now ≡ length variables.now }
    ensures { Gives (λ x. x) result reader.new (rules.change variables.now state.now earlier.now conditions reader.old) }
{
    let var = reader.number()?;
    let before = reader.number()?;
    let after = value(reader, variables, var)?;
    let rule = Rule {
        conditions,
        var,
        before,
        after,
    };
    reader.passing(may_set(variables, state, earlier, &rule), rule)
}

/// The lines of a rule.
#[tactic(auto, unfolding(crate::specs::Rules::rule, crate::specs::Forms::line))]
fn rule(
    alloc: Global,
    reader: &mut Reader<'_>,
    variables: &[Variable],
    state: &[Value],
    earlier: &RulesSoFar,
) -> Result<Rule, Stop<SasFault>>
    requires { length state.now ≡ length variables.now }
    ensures { Gives (λ x. x) result reader.new (rules.rule variables.now state.now earlier.now reader.old) }
{
    reader.fixed(b"begin_rule")?;
    let conditions = conditions(alloc, reader, variables)?;
    reader.begin_words()?;
    let rule = change_words(reader, variables, state, earlier, conditions)?;
    reader.end_words()?;
    reader.fixed(b"end_rule")?;
    Ok(rule)
}

/// So many rules.
fn rules(
    alloc: Global,
    reader: &mut Reader<'_>,
    variables: &[Variable],
    state: &[Value],
    count: u64,
) -> Result<List<Rule>, Stop<SasFault>>
    requires { length state.now ≡ length variables.now }
    ensures { Gives (λ x. x) result reader.new (listed (rules.rule variables.now state.now) count [] reader.old) }
{
    let mut rules = RulesSoFar::new(alloc);
    for _ in 0..count {
        let rule = rule(alloc, reader, variables, state, &rules)?;
        rules = rules.with(rule)?;
    }
    Ok(rules.into_list())
}

/// The section of the rules: their number and then the lines of each.
#[tactic(auto, unfolding(crate::specs::Rules::rules))]
pub(crate) fn rule_section(
    alloc: Global,
    reader: &mut Reader<'_>,
    variables: &[Variable],
    state: &[Value],
) -> Result<List<Rule>, Stop<SasFault>>
    requires { length state.now ≡ length variables.now }
    ensures { Gives (λ x. x) result reader.new (rules.rules variables.now state.now reader.old) }
{
    let count = reader.number_line()?;
    rules(alloc, reader, variables, state, count)
}
