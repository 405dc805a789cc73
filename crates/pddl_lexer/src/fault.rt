//! What can be wrong with the files of a task.

ghost use Rattle.std.specs.Prelude.{◌≡◌};
ghost use Rattle.pddl_lexer.specs.Kinds.{number, text, place_text};
ghost use Rattle.lists.specs.declared.stop.Stop.TheVariants as stops;

use crate::position::At;
use lists::Stop;

/// What a fault is about. The kinds stand in the order of their numbers.
#[derive(Clone, Copy, PartialEq, Eq)]
pub enum Kind {
    /// The file has too many bytes.
    TooLong,
    /// A byte outside comments isn't allowed.
    BadByte,
    /// A `)` closes nothing.
    StrayClose,
    /// The text ends inside the list.
    MissingClose,
    /// A `(` would be the 101st open one.
    TooDeep,
    /// A word or a `(` stands after the list's end.
    TextAfterEnd,
    /// The text has no list.
    NoList,
    /// A word or a list has another shape than its place wants.
    Shape(ShapePlace),
    /// A word that is no name stands where a name must, or one that is no variable where a variable must.
    BadName,
    /// A reserved word names a predicate or function.
    ReservedWord,
    /// A word that isn't all digits stands where a whole number must.
    NotWhole,
    /// A whole number is over 2,147,483,647.
    NumberTooLarge,
    /// A requirement isn't in the accepted list.
    UnsupportedRequirement,
    /// A section, or a part of one, isn't supported.
    UnsupportedSection,
    /// A section or key stands twice.
    RepeatedSection,
    /// A section of the problem is missing.
    MissingSection,
    /// A type isn't declared.
    UnknownType,
    /// A type is below itself.
    TypeCycle,
    /// A name is declared twice.
    DuplicateName,
    /// A predicate isn't declared.
    UnknownPredicate,
    /// A function isn't declared.
    UnknownFunction,
    /// An atom has another number of arguments than its declaration.
    WrongArity,
    /// An object isn't declared.
    UnknownObject,
    /// A variable isn't bound.
    UnboundVariable,
    /// A derived predicate stands in an effect or in `:init`.
    DerivedWritten,
    /// A derived predicate leads back to itself.
    RecursiveDerived,
    /// An initial atom is both true and false.
    InitConflict,
    /// A function term has two values in `:init`.
    ValueConflict,
    /// A cost has a form that isn't supported.
    CostForm,
    /// A condition has too many parts.
    TooManyParts,
}

/// What must stand at a node of the tree. A node that has no place of its own has that of the list around it.
#[derive(Clone, Copy, PartialEq, Eq)]
pub enum ShapePlace {
    /// The whole list.
    File,
    /// A section of a domain or a problem.
    Section,
    /// A name in a list of names.
    NameList,
    /// A variable in a list of variables, or a list that has only such a list in it.
    VariableList,
    /// A type after `-`.
    TypeName,
    /// A predicate or function with its variables, where it is declared.
    Head,
    /// An action with its keys.
    Action,
    /// A condition.
    Condition,
    /// A variable or a name as argument.
    Term,
    /// An effect.
    Effect,
    /// A whole number or a function term, where a cost must stand.
    Cost,
    /// An entry of `:init`.
    InitEntry,
}

impl Kind {
    /// Its number, from 1 to 30.
    pub fn number(self) -> u8
        ensures { result ≡ number self }
    {
        match self {
            Kind::TooLong => 1,
            Kind::BadByte => 2,
            Kind::StrayClose => 3,
            Kind::MissingClose => 4,
            Kind::TooDeep => 5,
            Kind::TextAfterEnd => 6,
            Kind::NoList => 7,
            Kind::Shape(_) => 8,
            Kind::BadName => 9,
            Kind::ReservedWord => 10,
            Kind::NotWhole => 11,
            Kind::NumberTooLarge => 12,
            Kind::UnsupportedRequirement => 13,
            Kind::UnsupportedSection => 14,
            Kind::RepeatedSection => 15,
            Kind::MissingSection => 16,
            Kind::UnknownType => 17,
            Kind::TypeCycle => 18,
            Kind::DuplicateName => 19,
            Kind::UnknownPredicate => 20,
            Kind::UnknownFunction => 21,
            Kind::WrongArity => 22,
            Kind::UnknownObject => 23,
            Kind::UnboundVariable => 24,
            Kind::DerivedWritten => 25,
            Kind::RecursiveDerived => 26,
            Kind::InitConflict => 27,
            Kind::ValueConflict => 28,
            Kind::CostForm => 29,
            Kind::TooManyParts => 30,
        }
    }

    /// What is printed for it.
    pub fn text(self) -> &'static str
        ensures { result.now ≡ text self }
    {
        match self {
            Kind::TooLong => "file too long",
            Kind::BadByte => "byte not allowed",
            Kind::StrayClose => "closing parenthesis without opening",
            Kind::MissingClose => "closing parenthesis missing",
            Kind::TooDeep => "nested too deeply",
            Kind::TextAfterEnd => "text after the end",
            Kind::NoList => "no list",
            Kind::Shape(place) => place.text(),
            Kind::BadName => "not a name",
            Kind::ReservedWord => "reserved word",
            Kind::NotWhole => "not a whole number",
            Kind::NumberTooLarge => "number too large",
            Kind::UnsupportedRequirement => "requirement not supported",
            Kind::UnsupportedSection => "not supported",
            Kind::RepeatedSection => "repeated section",
            Kind::MissingSection => "missing section",
            Kind::UnknownType => "unknown type",
            Kind::TypeCycle => "type cycle",
            Kind::DuplicateName => "duplicate name",
            Kind::UnknownPredicate => "unknown predicate",
            Kind::UnknownFunction => "unknown function",
            Kind::WrongArity => "wrong number of arguments",
            Kind::UnknownObject => "unknown object",
            Kind::UnboundVariable => "unbound variable",
            Kind::DerivedWritten => "derived predicate written",
            Kind::RecursiveDerived => "recursive derived predicate",
            Kind::InitConflict => "initial atom both true and false",
            Kind::ValueConflict => "two values for one term",
            Kind::CostForm => "cost form not supported",
            Kind::TooManyParts => "condition too large",
        }
    }
}

impl ShapePlace {
    fn text(self) -> &'static str
        ensures { result.now ≡ place_text self }
    {
        match self {
            ShapePlace::File => "malformed file",
            ShapePlace::Section => "malformed section",
            ShapePlace::NameList => "malformed name list",
            ShapePlace::VariableList => "malformed variable list",
            ShapePlace::TypeName => "malformed type",
            ShapePlace::Head => "malformed head",
            ShapePlace::Action => "malformed action",
            ShapePlace::Condition => "malformed condition",
            ShapePlace::Term => "malformed term",
            ShapePlace::Effect => "malformed effect",
            ShapePlace::Cost => "malformed cost",
            ShapePlace::InitEntry => "malformed init entry",
        }
    }
}

/// A fault of a text, and where it stands.
#[derive(Clone, Copy, PartialEq, Eq)]
pub struct Fault {
    pub kind: Kind,
    pub at: At,
}

impl From<Fault> for Stop<Fault> {
    ghost from_gives = { λ fault stop. stop ≡ stops.Fault fault };

    fn from(fault: Fault) -> Stop<Fault> {
        Stop::Fault(fault)
    }
}
