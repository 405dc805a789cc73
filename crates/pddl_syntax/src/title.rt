// What domain files and problem files have in common.
ghost use Rattle.std.specs.Prelude.{◌≡◌, map};
ghost use Rattle.pddl_lexer.specs.Members.{position, inside};
ghost use Rattle.pddl_syntax.specs.Reading as spec;

use crate::checks::{check_all, check_exact};
use crate::cursor::Cursor;
use crate::expected::{Expected, check_member, malformed};
use crate::words::{is_among, spells};
use pddl_lexer::{At, Fault, ShapePlace};

/// A file has `define`, a list with its title, and sections. It begins at this position.
pub fn check_file(at: At, members: &Cursor<'_>) -> Result<(), Fault>
    ensures { result ≡ spec.check_file at members.now }
{
    if members.is_empty() {
        return Err(malformed(ShapePlace::File, at));
    }
    if !members.is_word(b"define") {
        return Err(malformed(ShapePlace::File, members.at()));
    }
    let title = members.rest();
    if title.is_empty() {
        return Err(malformed(ShapePlace::File, at));
    }
    check_member(Expected::List(ShapePlace::File), &title)?;
    check_all(Expected::List(ShapePlace::Section), &title.rest())
}

/// The list here has the keyword and a name.
pub fn check_title(keyword: &[u8], cursor: &Cursor<'_>) -> Result<(), Fault>
    ensures { result ≡ spec.check_title keyword.now (position cursor.now) (inside cursor.now) }
{
    let inside = cursor.inside();
    if inside.is_empty() {
        return Err(malformed(ShapePlace::File, cursor.at()));
    }
    if !inside.is_word(keyword) {
        return Err(malformed(ShapePlace::File, inside.at()));
    }
    let name = [Expected::Name(ShapePlace::File)];
    check_exact(ShapePlace::File, cursor.at(), &name, &inside.rest())
}

/// Whether a section with this keyword is repeated after sections with these.
// Actions and axioms are told apart first: there may be many.
pub fn is_repeated(earlier: &[&[u8]], keyword: &[u8]) -> bool
    ensures { result ≡ spec.is_repeated (map (λ word. word.now) earlier.now) keyword.now }
{
    !spells(keyword, b":action") && !spells(keyword, b":derived") && is_among(earlier, keyword)
}
