//! The section of the rules.

ghost use Rattle.std.specs.Prelude.{◌≡◌, ◌++◌, [], ◌∷◌, OnOk};
ghost use Rattle.sas_task.specs.Output.{bytes_of, counted, rule_line, rule_lines};

use crate::lines::{push_line, push_next_number, push_number, push_number_line, push_pairs};
use sas_task::{Rule, SasTask};
use std::alloc::AllocError;

/// The line of what a rule changes.
fn push_rule_line(out: &mut Vec<u8>, rule: &Rule) -> Result<(), AllocError>
    ensures { OnOk result (out.new.items ≡ out.old.items ++ bytes_of (rule_line rule.now ∷ [])) }
{
    push_number(out, rule.var)?;
    push_next_number(out, rule.before)?;
    push_next_number(out, rule.after)?;
    out.push(b'\n')?;
    Ok(())
}

fn push_rule(out: &mut Vec<u8>, rule: &Rule) -> Result<(), AllocError>
    ensures { OnOk result (out.new.items ≡ out.old.items ++ bytes_of (rule_lines rule.now)) }
{
    push_line(out, b"begin_rule")?;
    push_pairs(out, rule.conditions.as_slice())?;
    push_rule_line(out, rule)?;
    push_line(out, b"end_rule")
}

/// The number of rules, and then the lines of each.
pub fn push_rules(out: &mut Vec<u8>, task: &SasTask) -> Result<(), AllocError>
    ensures { OnOk result (out.new.items ≡ out.old.items ++ bytes_of (counted rule_lines task.now.rules)) }
{
    let count = task.rules();
    push_number_line(out, count)?;
    for i in 0..count {
        push_rule(out, task.rule(i))?;
    }
    Ok(())
}
