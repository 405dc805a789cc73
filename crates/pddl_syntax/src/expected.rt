// What is expected of a member of a list.
ghost use Rattle.std.specs.Prelude.{◌≡◌};
ghost use Rattle.pddl_syntax.specs.Shapes as spec;

use crate::cursor::Cursor;
use crate::number::number_of;
use crate::words::{
    begins_with_question_mark, is_accepted, is_name, is_reserved, is_variable, is_whole,
};
use pddl_lexer::{At, Fault, Kind, ShapePlace};

/// What is expected of a member of a list. Where a place is given, a member of the wrong sort is malformed there.
#[derive(Clone, Copy)]
pub enum Expected {
    /// A list. Its own shape isn't looked at here.
    List(ShapePlace),
    Name(ShapePlace),
    /// The name of a predicate or of a function.
    Symbol(ShapePlace),
    Variable,
    /// A variable or a name.
    Term,
    /// A whole number.
    Number(ShapePlace),
    /// A whole number, or a list.
    Cost,
    /// A requirement that is accepted.
    Requirement,
}

fn name_fault(word: &[u8]) -> Option<Kind>
    ensures { result ≡ spec.name_fault word.now }
{
    if is_name(word) {
        None
    } else {
        Some(Kind::BadName)
    }
}

fn number_fault(word: &[u8]) -> Option<Kind>
    ensures { result ≡ spec.number_fault word.now }
{
    if !is_whole(word) {
        return Some(Kind::NotWhole);
    }
    match number_of(word) {
        Some(_) => None,
        None => Some(Kind::NumberTooLarge),
    }
}

fn variable_fault(word: &[u8]) -> Option<Kind>
    ensures { result ≡ spec.variable_fault word.now }
{
    if is_variable(word) {
        None
    } else if begins_with_question_mark(word) {
        Some(Kind::BadName)
    } else {
        Some(Kind::Shape(ShapePlace::VariableList))
    }
}

impl Expected {
    /// What is wrong with a word.
    fn word_fault(self, word: &[u8]) -> Option<Kind>
        ensures { result ≡ spec.word_fault self word.now }
    {
        match self {
            Expected::List(place) => Some(Kind::Shape(place)),
            Expected::Name(_) => name_fault(word),
            Expected::Symbol(_) if is_reserved(word) => Some(Kind::ReservedWord),
            Expected::Symbol(_) => name_fault(word),
            Expected::Variable => variable_fault(word),
            Expected::Term if is_variable(word) => None,
            Expected::Term => name_fault(word),
            Expected::Number(_) | Expected::Cost => number_fault(word),
            Expected::Requirement if is_accepted(word) => None,
            Expected::Requirement => Some(Kind::UnsupportedRequirement),
        }
    }

    /// What is wrong with a list.
    fn list_fault(self) -> Option<Kind>
        ensures { result ≡ spec.list_fault self }
    {
        match self {
            Expected::List(_) | Expected::Cost => None,
            Expected::Name(place) | Expected::Symbol(place) | Expected::Number(place) => {
                Some(Kind::Shape(place))
            }
            Expected::Variable => Some(Kind::Shape(ShapePlace::VariableList)),
            Expected::Term => Some(Kind::Shape(ShapePlace::Term)),
            Expected::Requirement => Some(Kind::Shape(ShapePlace::Section)),
        }
    }
}

/// The fault of what has not the shape that is asked for at this place of the grammar.
pub fn malformed(place: ShapePlace, at: At) -> Fault
    ensures { result ≡ spec.malformed place at }
{
    let kind = Kind::Shape(place);
    Fault { kind, at }
}

/// The fault of what stands outside the accepted language.
pub fn unsupported(at: At) -> Fault
    ensures { result ≡ spec.unsupported at }
{
    let kind = Kind::UnsupportedSection;
    Fault { kind, at }
}

/// The fault of a section that may stand once and stands again.
pub fn repeated(at: At) -> Fault
    ensures { result ≡ spec.repeated at }
{
    let kind = Kind::RepeatedSection;
    Fault { kind, at }
}

fn at_position(at: At, kind: Option<Kind>) -> Result<(), Fault>
    ensures { result ≡ spec.at_position at kind }
{
    match kind {
        Some(kind) => Err(Fault { kind, at }),
        None => Ok(()),
    }
}

/// The member here is as expected.
pub fn check_member(expected: Expected, cursor: &Cursor<'_>) -> Result<(), Fault>
    ensures { result ≡ spec.check_member expected cursor.now }
{
    let kind = if cursor.is_list() {
        expected.list_fault()
    } else {
        expected.word_fault(cursor.word())
    };
    at_position(cursor.at(), kind)
}

/// What is wrong with a list that stands where the type of such an item must.
fn type_list_fault(item: Expected, inside: &Cursor<'_>) -> Option<Kind>
    ensures { result ≡ spec.type_list_fault item inside.now }
{
    if matches!(item, Expected::Variable) {
        None
    } else if inside.is_word(b"either") {
        Some(Kind::UnsupportedSection)
    } else {
        Some(Kind::Shape(ShapePlace::TypeName))
    }
}

/// The type here, behind such an item, is a name, or a list behind a variable.
pub(crate) fn check_type(item: Expected, cursor: &Cursor<'_>) -> Result<(), Fault>
    ensures { result ≡ spec.check_type item cursor.now }
{
    let kind = if cursor.is_list() {
        type_list_fault(item, &cursor.inside())
    } else {
        name_fault(cursor.word())
    };
    at_position(cursor.at(), kind)
}
