//! Worked calls of `translate`: each is performed on files and a console in memory, and has to end as it was worked by hand,
//! from the rules of what is read, written and printed. A line is printed for each file of calls, and one for each call that
//! ends otherwise, with what differs.
//!
//! The files in `data` hold the calls. A file is paragraphs with an empty line between two. In a paragraph a line that
//! begins with `#` is a comment, and the others are items, each with a word before it. An item that has a text goes on with
//! the lines behind it that begin with a bar: what stands behind `| ` is a line of the text.
//!
//! ```text
//! text NAME              what the name stands for in the paragraphs behind it: the lines behind the bars
//! call NAME              a call:
//! translate WORD WORD    its words; further ones, that have a blank or no letter, stand behind bars
//! file NAME TEXT         a file that stands before
//! status NUMBER          the exit status of the call
//! printed TEXT           all that is printed
//! may be cut             or else the console fails: the status is 30, and a front of that is printed, which has not all of it
//! written NAME TEXT      a file that is written, which has room
//! absent NAME            no file has the name afterwards
//! twice                  performed a second time, the call writes the same again
//! takes NUMBER           a call on the files or the console takes so many bytes at most
//! room NAME NUMBER       there is room for so many bytes in the file, or in all that is printed, where the name is `console`
//! fails KIND NUMBER      so many calls of the kind are made, and this one fails: `open`, `read`, `create`, `write` or `print`
//! book PASSES            the book of passes is `empty`, or has one pass, the order, `wanting memory` each time
//! changed                behind it, a row behind each bar
//! example NAME           a pair, `domain.pddl` and `problem.pddl`, with what is printed and written of it: three calls
//! ```
//!
//! Where nothing stands in the place of TEXT, it is the lines behind the bars. `of NAME` is the named text, then those lines,
//! and `first NUMBER of NAME` so many of its bytes. `is ..` is a text of one line, without a line feed at its end. There `\n`,
//! `\t`, `\r` and `\x7f` stand for these bytes, and `{4096 (off)}` for `(off)`, 4,096 times. Where a part so repeated has a
//! `#`, that stands for the number of the part, from 0 on, and `[1 by 2]` for the odd numbers, from 1 on. `anything` is any
//! text, and in a text that is printed or written a line of three points stands for any lines.
//!
//! Where nothing else is said, `output.sas` has room, the book has each pass, and a call takes all that it is given. Afterwards
//! each file that stood before and isn't written holds what it held, and `output.sas` is there only where it is written or
//! stood before.
//!
//! A row is a call of its own, which is as the one above it but for what the row says: `ENDING | CHANGE | ..`. A change is an
//! item, which counts in the place of one above, or `NAME FROM => TO`, where TO stands in the place of the first FROM in the
//! file's text. The ending is `the same`; `usage`, where the words are refused; `cannot read NAME` or `cannot write NAME`; or
//! what is said of a text that is refused. In all but the first no file is written but for those of the row's items. A range
//! makes a row a call for each of its numbers: `[1 to 17]`. Further ranges count on with it: `[0 by 16]` is 0, then 16, then 32.
//!
//! An example is translated, done and printed as it says; what is written of it is read back and written again, where no
//! candidate is tried; and all passes may follow one another. Each folder in `data/examples` is one too, with its words in a
//! file beside the pair. Its other files are texts that calls name: `switch/output.sas`.
//!
//! So a new call is one edit in `data`, a paragraph or a row, and a new example is one folder. What is printed stays as it is:
//! of each file it doesn't say how many calls end as they stand, but that there are as many as `FILES` asks for. A call that
//! is gone, or isn't understood, doesn't count, so that a file that loses calls is seen. Whoever adds many raises the number,
//! here and in `stdout`, so that those aren't lost unseen either.
//!
//! Behind the files' calls the switch task is written to a real file, with what that prints before the line on it. At last the
//! translator runs on this process's own words, of which one is no UTF-8, and the process ends as that run does.
#![tactic(auto)]

use std::{fs, io};
use texts::Texts;
use translator::{Ended, run};

mod call;
mod examples;
mod line;
mod outside;
mod perform;
mod ranges;
mod read;
mod read_back;
mod real;
mod report;
mod row;
mod texts;

/// The files of worked calls, in the order in which they are read, each with the least number of its calls.
static FILES: &[(&str, u64)] = &[
    ("words", 44),
    ("plans", 22),
    ("written_tasks", 15),
    ("faults", 215),
    ("tasks", 114),
    ("passes", 16),
    ("made_and_whole", 6),
    ("devices", 9),
    ("failures", 817),
    ("limits", 31),
];

/// The least number of calls of the examples, of which each has three.
const OF_EXAMPLES: u64 = 21;

/// Says how each call of the text ended that ended otherwise, and answers how many ended as they stand.
fn tell_text(
    rt: &HostRuntime,
    texts: &mut Texts,
    name: &str,
    text: io::Result<String>,
) -> io::Result<u64> {
    match text {
        Ok(text) => report::tell_all(rt, texts, &text),
        Err(_) => {
            println!(rt; "{name}: cannot be read")?;
            Ok(0)
        }
    }
}

fn tell_count(rt: &HostRuntime, name: &str, calls: u64, least: u64) -> io::Result<()> {
    if calls < least {
        return println!(rt; "{name}: {calls} calls end as they stand, and not {least}");
    }
    println!(rt; "{name}: at least {least} calls end as they stand")
}

fn tell_examples(rt: &HostRuntime, texts: &mut Texts) -> io::Result<()> {
    let mut calls = 0u64;
    for name in &examples::names(rt)? {
        let paragraph = examples::paragraph(rt, texts, name);
        calls = calls.saturating_add(tell_text(rt, texts, name, paragraph)?);
    }
    tell_count(rt, examples::FOLDER, calls, OF_EXAMPLES)
}

fn tell_all(rt: &HostRuntime, texts: &mut Texts) -> io::Result<()> {
    tell_examples(rt, texts)?;
    for (name, least) in FILES {
        let calls = tell_text(rt, texts, name, fs::read_to_string(rt, name))?;
        tell_count(rt, name, calls, *least)?;
    }
    real::tell(rt, texts)
}

fn main(rt: HostRuntime) -> Ended {
    let mut texts = Texts::new(rt.alloc());
    // A line that can't be printed is missing from the stored output.
    let _told = tell_all(&rt, &mut texts);
    drop(texts);
    run(&rt)
}
