//! What the words ask for.

ghost use Rattle.std.specs.Prelude.{◌≡◌, IfOk, map, option_map, string_bytes};
ghost use Rattle.std.specs.List.{list_all};
ghost use Rattle.std.specs.Char.{is_ascii_digit};
ghost use Rattle.clap.specs.Words.{found_of, rows_of};
ghost use Rattle.command_line.specs.Accepted.{accepted, asked_by, asked_of, is_set, number_within, source_by, source_of};

use crate::command::command;
use clap::ArgMatches;
use clap::error::ErrorKind;
use std::alloc::{AllocError, Global};

/// Where a task comes from.
#[derive(Clone, Copy, PartialEq, Eq)]
pub enum Source<'a> {
    /// The files of these names.
    Files { domain: &'a str, problem: &'a str },
    /// The made texts with this number of balls, 1 to 200.
    Made { balls: u32 },
    /// The file of this name, in which the task is written.
    WrittenTask { file: &'a str },
}

/// How a task is made.
#[derive(Clone, Copy, PartialEq, Eq)]
pub struct Settings {
    /// The greatest number of candidates for invariants that are tried.
    pub max_candidates: u32,
    /// Whether the mutex groups that are chosen for variables are kept whole.
    pub full_encoding: bool,
}

/// What the words ask for, where they are accepted.
#[derive(Clone, Copy, PartialEq, Eq)]
pub struct Accepted<'a> {
    pub source: Source<'a>,
    pub settings: Settings,
    /// The name of the output file.
    pub output: &'a str,
    /// The name of the plan file that is mapped back.
    pub plan: Option<&'a str>,
    /// The names of the passes, with commas between them.
    pub passes: Option<&'a str>,
}

/// Reads the words of a command line, the program's name first: `None` where they are refused.
pub fn read_words<'a>(
    alloc: Global,
    words: &'a Vec<String>,
) -> Result<Option<Accepted<'a>>, AllocError>
    ensures { IfOk result (λ read. option_map asked_by read ≡ accepted (map string_bytes words.now.items)) }
{
    let command = command(alloc)?;
    match command.try_get_matches_from(words.as_slice()) {
        Ok(matches) => Ok(asked(&matches)),
        Err(error) if error.kind() == ErrorKind::OutOfMemory => Err(AllocError),
        Err(_) => Ok(None),
    }
}

/// What the matches ask for.
#[tactic(auto, using(crate::proofs::Reading::given))]
fn asked<'a>(matches: &ArgMatches<'a>) -> Option<Accepted<'a>>
    ensures { option_map asked_by result ≡ asked_of (rows_of (found_of matches.now)) }
{
    let source = chosen_source(
        matches.get_str("domain"),
        matches.get_str("problem"),
        matches.get_str("make"),
        matches.get_str("from-sas"),
    )?;
    let max_candidates = match matches.get_str("invariant-generation-max-candidates") {
        Some(digits) => number_within(0, 2_147_483_647, digits)?,
        None => 100_000,
    };
    Some(Accepted {
        source,
        settings: Settings {
            max_candidates,
            full_encoding: is_set(matches.get_str("full-encoding")),
        },
        output: matches.get_str("sas-file").unwrap_or("output.sas"),
        plan: matches.get_str("map-plan"),
        passes: matches.get_str("pass"),
    })
}

/// Whether a flag is given, by its value.
fn is_set(value: Option<&str>) -> bool
    ensures { result ≡ is_set (option_map (λ text. text.now) value.entry) }
{
    match value {
        Some(text) => text == "true",
        None => false,
    }
}

/// Where the task comes from, by the names of a domain and a problem, the number of balls and the name of a written task.
fn chosen_source<'a>(
    domain: Option<&'a str>,
    problem: Option<&'a str>,
    balls: Option<&'a str>,
    file: Option<&'a str>,
) -> Option<Source<'a>>
    ensures { option_map source_by result ≡ source_of (option_map (λ name. name.now) domain.entry) (option_map (λ name. name.now) problem.entry) (option_map (λ digits. digits.now) balls.entry) (option_map (λ name. name.now) file.entry) }
{
    match (domain, problem, balls, file) {
        (Some(domain), Some(problem), None, None) => Some(Source::Files { domain, problem }),
        (None, None, Some(digits), None) => Some(Source::Made {
            balls: number_within(1, 200, digits)?,
        }),
        (None, None, None, Some(file)) => Some(Source::WrittenTask { file }),
        _ => None,
    }
}

/// The number that the text writes in decimal digits only, where it is one from `least` to `most`.
fn number_within(least: u32, most: u32, text: &str) -> Option<u32>
    ensures { result ≡ number_within least most text.now }
{
    if !is_digits(text) {
        return None;
    }
    match text.parse::<u32>() {
        Ok(number) => if least <= number && number <= most {
            Some(number)
        } else {
            None
        },
        Err(_) => None,
    }
}

/// Whether the text has no other character than decimal digits.
fn is_digits(text: &str) -> bool
    ensures { result ≡ list_all is_ascii_digit text.now }
{
    text.as_bytes().iter().all(|byte| byte.is_ascii_digit())
}
