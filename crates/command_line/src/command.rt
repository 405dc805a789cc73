//! The command's options and positions.

ghost use Rattle.std.specs.Prelude.{◌≡◌, IfOk, false};
ghost use Rattle.clap.specs.Words.{app_of, rule_of};
ghost use Rattle.command_line.specs.Command as spec;

use clap::{Arg, ArgAction, Command};
use std::alloc::{AllocError, Global};

/// The command, as `clap` is asked to read it.
pub(crate) fn command<'a>(alloc: Global) -> Result<Command<'a>, AllocError>
    ensures { IfOk result (λ c. app_of c ≡ spec.command) }
{
    let args = vec![in alloc;
        Arg::new(alloc, "domain"),
        Arg::new(alloc, "problem"),
        option(alloc, "sas-file"),
        option(alloc, "invariant-generation-max-candidates"),
        option(alloc, "map-plan"),
        option(alloc, "make"),
        option(alloc, "from-sas"),
        option(alloc, "pass"),
        flag(alloc, "keep-unimportant-variables"),
        flag(alloc, "skip-variable-reordering"),
        flag(alloc, "full-encoding"),
    ]?;
    Command::new(alloc, "translate").args(args)
}

/// An option with its long name alone, which takes one value.
fn option<'a>(alloc: Global, name: &'a str) -> Arg<'a>
    ensures rule { rule_of result ≡ spec.option name.entry.now }
    ensures own { result.global ≡ false }
{
    Arg::new(alloc, name).long(name)
}

/// A flag with its long name alone, which takes no value.
fn flag<'a>(alloc: Global, name: &'a str) -> Arg<'a>
    ensures rule { rule_of result ≡ spec.flag name.entry.now }
    ensures own { result.global ≡ false }
{
    option(alloc, name).action(ArgAction::SetTrue)
}
