// A list's own faults, of which the first counts.
ghost use Rattle.std.specs.Prelude.{◌≡◌};
ghost use Rattle.pddl_syntax.specs.Outcome.{first};
ghost use Rattle.pddl_syntax.specs.Shapes as spec;
ghost use Rattle.pddl_syntax.specs.Values.{eithers};

use crate::cursor::Cursor;
use crate::expected::{Expected, check_member, check_type, malformed};
use crate::words::is_dash;
use lists::Stop;
use pddl_lexer::{At, Fault, ShapePlace};

/// Each member is as expected.
#[tactic(auto, using(crate::proofs::Rows::fewer))]
pub fn check_all(expected: Expected, members: &Cursor<'_>) -> Result<(), Fault>
    ensures { result ≡ spec.check_all expected members.now }
{
    let mut cursor = members.copy();
    while !cursor.is_empty() {
        check_member(expected, &cursor)?;
        cursor = cursor.rest();
    }
    Ok(())
}

/// The members are as expected, in turn, and there is none beyond. They stand in a list of this place, at this position.
#[tactic(auto, using(crate::proofs::OwnFaults::exact_missing), unfolding(crate::specs::Shapes::check_exact))]
pub fn check_exact(
    place: ShapePlace,
    at: At,
    expected: &[Expected],
    members: &Cursor<'_>,
) -> Result<(), Fault>
    ensures { result ≡ spec.check_exact place at expected.now members.now }
{
    match expected {
        [] if members.is_empty() => Ok(()),
        [] => Err(malformed(place, members.at())),
        [_, ..] if members.is_empty() => Err(malformed(place, at)),
        [first, more @ ..] => {
            check_member(*first, members)?;
            check_exact(place, at, more, &members.rest())
        }
    }
}

/// A symbol with its arguments. They stand in a list of this place, at this position.
pub(crate) fn check_atom(
    argument: Expected,
    place: ShapePlace,
    at: At,
    members: &Cursor<'_>,
) -> Result<(), Fault>
    ensures { result ≡ spec.check_atom argument place at members.now }
{
    if members.is_empty() {
        return Err(malformed(place, at));
    }
    check_member(Expected::Symbol(place), members)?;
    check_all(argument, &members.rest())
}

/// Names or variables in groups, a group followed by `-` and its type. They stand in a list of this place, at this position.
pub(crate) fn check_typed(
    item: Expected,
    place: ShapePlace,
    at: At,
    members: &Cursor<'_>,
) -> Result<(), Fault>
    ensures { result ≡ spec.check_typed item place at members.now }
{
    let mut cursor = members.copy();
    while !cursor.is_empty() {
        if is_dash(cursor.word()) {
            cursor = cursor.rest();
            if cursor.is_empty() {
                return Err(malformed(place, at));
            }
            check_type(item, &cursor)?;
        } else {
            check_member(item, &cursor)?;
        }
        cursor = cursor.rest();
    }
    Ok(())
}

/// A list of types at this position, `(either NAME NAME*)`.
fn check_either(at: At, members: &Cursor<'_>) -> Result<(), Fault>
    ensures { result ≡ spec.check_either at members.now }
{
    if !members.is_word(b"either") || members.rest().is_empty() {
        return Err(malformed(ShapePlace::TypeName, at));
    }
    check_all(Expected::Name(ShapePlace::TypeName), &members.rest())
}

/// The lists in a list of variables are lists of types.
#[tactic(auto, using(crate::proofs::Eithers::of_none, crate::proofs::Eithers::of_word, crate::proofs::Eithers::of_list, crate::proofs::Eithers::at_fault, crate::proofs::Rows::fewer))]
pub(crate) fn check_eithers(members: &Cursor<'_>) -> Result<(), Stop<Fault>>
    ensures { result ≡ first (eithers members.now) }
{
    let mut cursor = members.copy();
    while !cursor.is_empty() {
        if cursor.is_list() {
            check_either(cursor.at(), &cursor.inside())?;
        }
        cursor = cursor.rest();
    }
    Ok(())
}

/// A symbol with its variables. They stand in a list at this position.
pub(crate) fn check_head(at: At, members: &Cursor<'_>) -> Result<(), Fault>
    ensures { result ≡ spec.check_head at members.now }
{
    if members.is_empty() {
        return Err(malformed(ShapePlace::Head, at));
    }
    check_member(Expected::Symbol(ShapePlace::Head), members)?;
    check_typed(Expected::Variable, ShapePlace::Head, at, &members.rest())
}
