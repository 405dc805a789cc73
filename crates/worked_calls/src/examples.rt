//! The examples, which users read too: each is a folder with a pair of files, the words of a call on them, what that prints
//! and what it writes.

use crate::texts::Texts;
use std::{fs, io};

/// The folder that has a folder for each example.
pub const FOLDER: &str = "examples";

/// The files of an example that are texts with names.
static FILES: &[&str] = &["domain.pddl", "problem.pddl", "printed", "output.sas"];

/// The names of all examples, in order.
pub fn names(rt: &HostRuntime) -> io::Result<Vec<String>> {
    let mut names = Vec::new(rt.alloc());
    for entry in fs::read_dir(rt, FOLDER)? {
        names.push(String::from_str(rt.alloc(), entry?.file_name())?)?;
    }
    names.sort()?;
    Ok(names)
}

fn read(rt: &HostRuntime, name: &str) -> io::Result<String> {
    fs::read_to_string(rt, format!(in rt.alloc(); "{FOLDER}/{name}")?.as_str())
}

/// Names the texts of the example, and answers its paragraph.
pub fn paragraph(rt: &HostRuntime, texts: &mut Texts, name: &str) -> io::Result<String> {
    for file in FILES {
        let text_name = format!(in rt.alloc(); "{name}/{file}")?;
        let text = read(rt, &text_name)?;
        texts.add(text_name, text)?;
    }
    let words = read(rt, &format!(in rt.alloc(); "{name}/words")?)?;
    Ok(format!(in rt.alloc();
        "example {name}
{words}file domain.pddl of {name}/domain.pddl
file problem.pddl of {name}/problem.pddl
printed of {name}/printed
written output.sas of {name}/output.sas"
    )?)
}
