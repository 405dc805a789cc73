//! The words of many command lines. Each line is cut at blanks, and `''` in it is the empty word.

use command_line::{Accepted, Settings, Source, read_words};
use std::alloc::{AllocError, Global};
use std::process::Abort;

/// What the files `d` and `p` ask for, and nothing else.
const PLAIN: Accepted<'static> = Accepted {
    source: Source::Files {
        domain: "d",
        problem: "p",
    },
    settings: Settings {
        max_candidates: 100_000,
        full_encoding: false,
    },
    output: "output.sas",
    plan: None,
    passes: None,
};

/// What two files with whole groups ask for.
const WHOLE: Accepted<'static> = Accepted {
    settings: Settings {
        max_candidates: 100_000,
        full_encoding: true,
    },
    ..PLAIN
};

/// What the written task `t` asks for, and nothing else.
const WRITTEN: Accepted<'static> = Accepted {
    source: Source::WrittenTask { file: "t" },
    ..PLAIN
};

/// Lines that are refused.
static REFUSED: &[&str] = &[
    // No word at all.
    "",
    "translate",
    "translate d",
    "translate d p x",
    "translate d p ''",
    "translate -- d p x",
    "translate d p -- --",
    "translate d p -- --sas-file o",
    // An option takes the next word, which must be there and be none of the command's own.
    "translate --sas-file d p",
    "translate d p --sas-file",
    "translate --sas-file -- d p",
    "translate --sas-file --skip-variable-reordering d p",
    // What is given twice.
    "translate d p --sas-file o --sas-file q",
    "translate d p --sas-file=o --sas-file=o",
    "translate d p --skip-variable-reordering --skip-variable-reordering",
    // A flag takes no value.
    "translate d p --keep-unimportant-variables=true",
    "translate d p --keep-unimportant-variables=",
    // What the command doesn't have.
    "translate d p --sas o",
    "translate d p --keep",
    "translate d p --SAS-FILE o",
    "translate d p --unknown",
    "translate d p -x",
    // A word that begins with a hyphen is no position and no value.
    "translate -d p",
    "translate -1 p",
    "translate d p --sas-file -o",
    "translate --- d p",
    // Requests for help, and for the version.
    "translate --help",
    "translate d p --help",
    "translate -h d p",
    "translate d p --help=x",
    "translate help",
    "translate --version",
    "translate d p -V",
    "''",
    // An empty number.
    "translate d p --invariant-generation-max-candidates ''",
    "translate d p --invariant-generation-max-candidates=",
    // Both names or a number of balls, and not both.
    "translate --make 4 d p",
    "translate d p --make 4",
    "translate --make 4 d",
    "translate d --make=4 p",
    "translate --map-plan f",
    "translate --sas-file o",
    // A number of balls is one from 1 to 200, in decimal digits only.
    "translate --make",
    "translate --make ''",
    "translate --make=",
    "translate --make 4 --make 4",
    "translate --make 4 --make 5",
    "translate --make 4 --invariant-generation-max-candidates 2147483648",
    // A plan file has a name, and is one.
    "translate d p --map-plan",
    "translate d p --map-plan f --map-plan f",
    "translate d p --map-plan -f",
    "translate --make 4 --map-plan",
    // A list of passes is given once, and is one.
    "translate d p --pass",
    "translate d p --pass order --pass order",
    "translate d p --map f",
    // The flag for whole groups.
    "translate d p --full-encoding=x",
    "translate d p --full-encoding=",
    "translate d p --full-encoding --full-encoding",
    "translate d p --full",
    // The file of a written task is named once, and nothing else that a task comes from is.
    "translate --from-sas",
    "translate --from-sas t --from-sas t",
    "translate --from-sas -t",
    "translate --from-sas t d",
    "translate --from-sas t d p",
    "translate d p --from-sas t",
    "translate d --from-sas=t",
    "translate --from-sas t --make 4",
    "translate --make=4 --from-sas= d p",
    "translate --from-sas t --invariant-generation-max-candidates +5",
    "translate --from t",
];

/// Two lines for each number: one in which it is a word of its own, and one in which it ends the word of its option.
macro_rules! refused_numbers {
    (candidates $($number:literal)* balls $($balls:literal)*) => {
        &[
            $(concat!("translate d p --invariant-generation-max-candidates ", $number),)*
            $(concat!("translate d p --invariant-generation-max-candidates=", $number),)*
            $(concat!("translate --make ", $balls),)*
            $(concat!("translate --make=", $balls),)*
        ]
    };
}

/// Lines with numbers that are refused.
static REFUSED_NUMBERS: &[&str] = refused_numbers! {
    candidates "2147483648" "4294967296" "18446744073709551616" "-1" "+5" "0x5" "1_000"
    balls "0" "00" "201" "4x" "-1" "+4" "4.0" "4294967297" "18446744073709551617"
};

/// A line that is accepted, and what it asks for.
type Row = (&'static str, Accepted<'static>);

/// Lines with numbers that are accepted, and what they ask for.
macro_rules! accepted_numbers {
    (candidates $(($number:literal, $max_candidates:literal))* balls $(($digits:literal, $balls:literal))*) => {
        &[
            $((concat!("translate d p --invariant-generation-max-candidates ", $number), Accepted { settings: Settings { max_candidates: $max_candidates, full_encoding: false }, ..PLAIN }),)*
            $((concat!("translate d p --invariant-generation-max-candidates=", $number), Accepted { settings: Settings { max_candidates: $max_candidates, full_encoding: false }, ..PLAIN }),)*
            $((concat!("translate --make ", $digits), Accepted { source: Source::Made { balls: $balls }, ..PLAIN }),)*
            $((concat!("translate --make=", $digits), Accepted { source: Source::Made { balls: $balls }, ..PLAIN }),)*
        ]
    };
}

static ACCEPTED_NUMBERS: &[Row] = accepted_numbers! {
    candidates ("0", 0) ("007", 7) ("2147483647", 2_147_483_647) ("00000000000000000000009", 9)
    balls ("1", 1) ("4", 4) ("0004", 4) ("200", 200)
};

/// Lines with the names of the domain, the problem and the output that they ask for.
macro_rules! accepted_files {
    ($(($line:literal, $domain:literal, $problem:literal, $output:literal),)*) => {
        &[$(($line, Accepted { source: Source::Files { domain: $domain, problem: $problem }, output: $output, ..PLAIN }),)*]
    };
}

static ACCEPTED: &[Row] = accepted_files! {
    ("translate d p", "d", "p", "output.sas"),
    ("'' d p", "d", "p", "output.sas"),
    ("--help d p", "d", "p", "output.sas"),
    ("translate '' ''", "", "", "output.sas"),
    ("translate - p", "-", "p", "output.sas"),
    ("translate help p", "help", "p", "output.sas"),
    ("translate -- -d --sas-file", "-d", "--sas-file", "output.sas"),
    ("translate -- -- p", "--", "p", "output.sas"),
    ("translate d p --", "d", "p", "output.sas"),
    ("translate d p --sas-file o", "d", "p", "o"),
    ("translate --sas-file o d p", "d", "p", "o"),
    ("translate d --sas-file=o p", "d", "p", "o"),
    ("translate --sas-file o -- d p", "d", "p", "o"),
    ("translate d p --sas-file=a=b", "d", "p", "a=b"),
    ("translate d p --sas-file=", "d", "p", ""),
    ("translate d p --sas-file ''", "d", "p", ""),
    ("translate d p --sas-file -", "d", "p", "-"),
    ("translate d p --sas-file=-o", "d", "p", "-o"),
    // Flags that change nothing.
    ("translate d p --keep-unimportant-variables", "d", "p", "output.sas"),
    ("translate --skip-variable-reordering d p", "d", "p", "output.sas"),
};

/// Lines with what they ask for: what a name stands for, but for the parts that are said.
macro_rules! accepted {
    ($(($line:literal, $asked:ident $(, $part:ident: $value:expr)*),)*) => {
        &[$(($line, Accepted { $($part: $value,)* ..$asked }),)*]
    };
}

/// Lines with a plan file or a list of passes, with the name of the file and the list as it is written.
static ACCEPTED_NAMED: &[Row] = accepted! {
    ("translate d p --map-plan f", PLAIN, plan: Some("f")),
    ("translate --map-plan f d p", PLAIN, plan: Some("f")),
    ("translate d --map-plan=f p", PLAIN, plan: Some("f")),
    ("translate d p --map-plan=", PLAIN, plan: Some("")),
    ("translate d p --map-plan -", PLAIN, plan: Some("-")),
    ("translate d p --map-plan=-f", PLAIN, plan: Some("-f")),
    ("translate d p --pass order", PLAIN, passes: Some("order")),
    ("translate --pass order,order d p", PLAIN, passes: Some("order,order")),
    ("translate d --pass=order, p", PLAIN, passes: Some("order,")),
    ("translate d p --pass=", PLAIN, passes: Some("")),
    ("translate d p --pass ,ORDER", PLAIN, passes: Some(",ORDER")),
    ("translate d p --pass none", PLAIN, passes: Some("none")),
};

/// Lines that ask for whole groups, one with a number of balls and a plan file, and lines with a written task.
static ACCEPTED_WHOLE_OR_WRITTEN: &[Row] = accepted! {
    ("translate d p --full-encoding", WHOLE),
    ("translate --full-encoding d p", WHOLE),
    ("translate --full-encoding -- d p", WHOLE),
    ("translate --make 4 --full-encoding", WHOLE, source: Source::Made { balls: 4 }),
    ("translate --map-plan f --make 4", PLAIN, source: Source::Made { balls: 4 }, plan: Some("f")),
    ("translate --from-sas t", WRITTEN),
    ("translate --from-sas=t", WRITTEN),
    ("translate --from-sas -", PLAIN, source: Source::WrittenTask { file: "-" }),
    ("translate --from-sas=", PLAIN, source: Source::WrittenTask { file: "" }),
    ("translate --from-sas t --", WRITTEN),
    ("translate --sas-file t --from-sas t", WRITTEN, output: "t"),
    ("translate --from-sas t --map-plan f", WRITTEN, plan: Some("f")),
    ("translate --pass order --from-sas t", WRITTEN, passes: Some("order")),
    ("translate --from-sas t --invariant-generation-max-candidates 7", WRITTEN, settings: Settings { max_candidates: 7, full_encoding: false }),
    ("translate --from-sas t --full-encoding", WHOLE, source: Source::WrittenTask { file: "t" }),
};

#[test]
fn refuses(rt: HostRuntime) {
    assert_refused(&rt, rt.alloc(), REFUSED);
    assert_refused(&rt, rt.alloc(), REFUSED_NUMBERS);
}

#[test]
fn accepts(rt: HostRuntime) {
    assert_accepted(&rt, rt.alloc(), ACCEPTED);
    assert_accepted(&rt, rt.alloc(), ACCEPTED_NUMBERS);
    assert_accepted(&rt, rt.alloc(), ACCEPTED_NAMED);
    assert_accepted(&rt, rt.alloc(), ACCEPTED_WHOLE_OR_WRITTEN);
}

fn assert_refused(rt: &impl Abort, alloc: Global, lines: &[&str]) {
    for line in lines {
        assert!(rt; is_read(alloc, line, None), "{line}");
    }
}

fn assert_accepted(rt: &impl Abort, alloc: Global, rows: &[Row]) {
    for row in rows {
        assert!(rt; is_read(alloc, row.0, Some(row.1)), "{}", row.0);
    }
}

/// Whether the words of the line are read as this.
fn is_read(alloc: Global, line: &str, wanted: Option<Accepted<'_>>) -> bool {
    matches!(words_of(alloc, line), Ok(words) if are_read(alloc, &words, wanted))
}

fn are_read(alloc: Global, words: &Vec<String>, wanted: Option<Accepted<'_>>) -> bool {
    matches!(read_words(alloc, words), Ok(read) if read == wanted)
}

/// The words of a line.
fn words_of(alloc: Global, line: &str) -> Result<Vec<String>, AllocError> {
    let mut words = Vec::new(alloc);
    for word in line.split_whitespace() {
        words.push(word_of(alloc, word)?)?;
    }
    Ok(words)
}

fn word_of(alloc: Global, word: &str) -> Result<String, AllocError> {
    String::from_str(alloc, if word == "''" { "" } else { word })
}
