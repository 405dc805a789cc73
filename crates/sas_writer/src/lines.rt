//! The lines that every section is made of. Each function appends what its clause says.

ghost use Rattle.std.specs.Prelude.{◌≡◌, ◌++◌, [], ◌∷◌, Option, OnOk};
ghost use Rattle.std.specs.List.{flat_map};
ghost use Rattle.sas_task.specs.Output.{bytes_of, counted, pair_lines, pair_words, number_or_none, numeral};

use itoa::Buffer;
use sas_task::Pair;
use std::alloc::AllocError;

/// A line, without and then with its line feed.
pub(crate) fn push_line(out: &mut Vec<u8>, line: &[u8]) -> Result<(), AllocError>
    ensures { OnOk result (out.new.items ≡ out.old.items ++ bytes_of (line.now ∷ [])) }
{
    out.extend_from_slice(line)?;
    out.push(b'\n')?;
    Ok(())
}

/// A number in decimal, with no line feed.
#[tactic(auto, using(crate::proofs::Pieces::printed))]
pub(crate) fn push_number(out: &mut Vec<u8>, number: u64) -> Result<(), AllocError>
    ensures { OnOk result (out.new.items ≡ out.old.items ++ numeral number) }
{
    let mut buffer = Buffer::new();
    out.extend_from_slice(buffer.format(number).as_bytes())
}

/// A line with a number.
pub(crate) fn push_number_line(out: &mut Vec<u8>, number: u64) -> Result<(), AllocError>
    ensures { OnOk result (out.new.items ≡ out.old.items ++ bytes_of (numeral number ∷ [])) }
{
    push_number(out, number)?;
    out.push(b'\n')?;
    Ok(())
}

/// A number, or -1 where there is none.
pub(crate) fn push_number_or_none(out: &mut Vec<u8>, number: Option<u64>) -> Result<(), AllocError>
    ensures { OnOk result (out.new.items ≡ out.old.items ++ number_or_none number) }
{
    match number {
        Some(number) => push_number(out, number),
        None => out.extend_from_slice(b"-1"),
    }
}

/// A line with a number, or -1 where there is none.
pub(crate) fn push_number_or_none_line(
    out: &mut Vec<u8>,
    number: Option<u64>,
) -> Result<(), AllocError>
    ensures { OnOk result (out.new.items ≡ out.old.items ++ bytes_of (number_or_none number ∷ [])) }
{
    push_number_or_none(out, number)?;
    out.push(b'\n')?;
    Ok(())
}

/// A space, and a number or -1.
pub(crate) fn push_next_number_or_none(
    out: &mut Vec<u8>,
    number: Option<u64>,
) -> Result<(), AllocError>
    ensures { OnOk result (out.new.items ≡ out.old.items ++ 32 ∷ number_or_none number) }
{
    out.push(b' ')?;
    push_number_or_none(out, number)
}

/// A space and a number.
pub(crate) fn push_next_number(out: &mut Vec<u8>, number: u64) -> Result<(), AllocError>
    ensures { OnOk result (out.new.items ≡ out.old.items ++ 32 ∷ numeral number) }
{
    out.push(b' ')?;
    push_number(out, number)
}

/// The variable and the value of each pair, with a space before each of them.
pub(crate) fn push_next_pairs(out: &mut Vec<u8>, pairs: &[Pair]) -> Result<(), AllocError>
    ensures { OnOk result (out.new.items ≡ out.old.items ++ flat_map (λ word. 32 ∷ word) (flat_map pair_words pairs.now)) }
{
    for pair in pairs {
        push_next_number(out, pair.var)?;
        push_next_number(out, pair.val)?;
    }
    Ok(())
}

/// A line with a variable and a value.
pub(crate) fn push_pair_line(out: &mut Vec<u8>, pair: &Pair) -> Result<(), AllocError>
    ensures { OnOk result (out.new.items ≡ out.old.items ++ bytes_of (pair_lines pair.now)) }
{
    push_number(out, pair.var)?;
    push_next_number(out, pair.val)?;
    out.push(b'\n')?;
    Ok(())
}

/// The number of pairs, and then a line for each.
pub(crate) fn push_pairs(out: &mut Vec<u8>, pairs: &[Pair]) -> Result<(), AllocError>
    ensures { OnOk result (out.new.items ≡ out.old.items ++ bytes_of (counted pair_lines pairs.now)) }
{
    push_number_line(out, pairs.len() as u64)?;
    for pair in pairs {
        push_pair_line(out, pair)?;
    }
    Ok(())
}
