//! The nested list of a text, its first fault, and the number and the text of each kind of fault.

use lists::Stop;
use pddl_lexer::{At, Kind, ShapePlace, Tree, read_tree};
use std::alloc::Global;
use std::process::Abort;
use std::test::*;

/// Whether this is the first fault of the text.
fn has_fault(alloc: Global, text: &[u8], kind: Kind, line: u32, column: u32) -> bool {
    match read_tree(alloc, text) {
        Err(Stop::Fault(fault)) => fault.kind == kind && fault.at == At { line, column },
        _ => false,
    }
}

static FIRST_FAULTS: &[(&[u8], Kind, u32, u32)] = &[
    (b"(a\n\x7f)", Kind::BadByte, 2, 1),
    (b"(\t\r\n\x01)", Kind::BadByte, 2, 1),
    (b"(a\nb\xc3\xa9)", Kind::BadByte, 2, 2),
    (b"\x01)", Kind::BadByte, 1, 1),
    (b"(a) ; (\n\n \xc3", Kind::BadByte, 3, 2),
    (b")", Kind::StrayClose, 1, 1),
    (b"(a))", Kind::StrayClose, 1, 4),
    (b"(a)\n\n )(", Kind::StrayClose, 3, 2),
    (b"(a ;)\n))", Kind::StrayClose, 2, 2),
    (b"(a\n(b)\n", Kind::MissingClose, 3, 1),
    (
        b"(define (problem p)\n(:domain s)\n(:init (of",
        Kind::MissingClose,
        3,
        11,
    ),
    (b"(a ;)", Kind::MissingClose, 1, 6),
    (b"(a\nb)\n\nx", Kind::TextAfterEnd, 4, 1),
    (b"(a) ; b\n(", Kind::TextAfterEnd, 2, 1),
    (b"()()", Kind::TextAfterEnd, 1, 3),
    (b"()?", Kind::TextAfterEnd, 1, 3),
    (b"", Kind::NoList, 1, 1),
    (b"\n", Kind::NoList, 2, 1),
    (b"; (a)\n", Kind::NoList, 2, 1),
    (b"x", Kind::NoList, 1, 1),
    (b"\n x\n(a)", Kind::NoList, 2, 2),
    (b"; a\n;\xff\n- (a)", Kind::NoList, 3, 1),
];

#[test]
fn first_faults_with_their_positions(rt: HostRuntime) {
    for row in FIRST_FAULTS {
        let (text, kind, line, column) = *row;
        assert!(rt; has_fault(rt.alloc(), text, kind, line, column), "{text:?}");
    }
}

#[test]
fn a_hundred_lists_may_be_open(rt: HostRuntime) {
    let mut deepest = [b'('; 200];
    for i in 100..200 {
        deepest[i] = b')';
    }
    assert!(rt; read_tree(rt.alloc(), &deepest).is_ok());
    let mut too_deep = [b'('; 102];
    too_deep[50] = b'\n';
    assert!(rt; has_fault(rt.alloc(), &too_deep, Kind::TooDeep, 2, 51));
}

/// A node: whether it is a list, its line and column, its bytes, its first member, the next member.
type Node = (bool, u32, u32, &'static str, Option<u64>, Option<u64>);

static NODES: &[Node] = &[
    (true, 2, 1, "", Some(1), None),
    (false, 2, 2, "define", None, Some(2)),
    (true, 3, 1, "", Some(3), Some(6)),
    (false, 3, 2, "Domain", None, Some(4)),
    (false, 3, 9, "a", None, Some(5)),
    (false, 3, 10, "?b", None, None),
    (true, 3, 14, "", None, Some(7)),
    (false, 3, 17, "SWITCH-2", None, None),
];

/// Whether this is the node of the tree.
fn is_node(tree: &Tree<'_>, node: u64, row: &Node) -> bool {
    let (list, line, column, word, first, next) = *row;
    node < tree.len()
        && tree.is_list(node) == list
        && tree.at(node) == At { line, column }
        && tree.word(node) == word.as_bytes()
        && tree.first(node) == first
        && tree.next(node) == next
}

/// Asserts that the tree has these nodes.
fn assert_nodes(rt: &impl Abort, tree: &Tree<'_>) {
    assert!(rt; tree.len() == NODES.len() as u64);
    for (place, row) in NODES.iter().enumerate() {
        assert!(rt; is_node(tree, place as u64, row), "{place}");
    }
}

#[test]
fn nodes_of_a_tree(rt: HostRuntime) {
    let text = b"; \xc3\xa9 (\n(define ; (\n(Domain a?b) ()\tSWITCH-2;)\n)\n; end";
    match read_tree(rt.alloc(), text.as_slice()) {
        Ok(tree) => assert_nodes(&rt, &tree),
        Err(_) => panic!(rt; "no tree"),
    }
}

static NUMBERS_AND_TEXTS: &[(Kind, u8, &str)] = &[
    (Kind::TooLong, 1, "file too long"),
    (Kind::BadByte, 2, "byte not allowed"),
    (Kind::StrayClose, 3, "closing parenthesis without opening"),
    (Kind::MissingClose, 4, "closing parenthesis missing"),
    (Kind::TooDeep, 5, "nested too deeply"),
    (Kind::TextAfterEnd, 6, "text after the end"),
    (Kind::NoList, 7, "no list"),
    (Kind::Shape(ShapePlace::File), 8, "malformed file"),
    (Kind::Shape(ShapePlace::Section), 8, "malformed section"),
    (Kind::Shape(ShapePlace::NameList), 8, "malformed name list"),
    (
        Kind::Shape(ShapePlace::VariableList),
        8,
        "malformed variable list",
    ),
    (Kind::Shape(ShapePlace::TypeName), 8, "malformed type"),
    (Kind::Shape(ShapePlace::Head), 8, "malformed head"),
    (Kind::Shape(ShapePlace::Action), 8, "malformed action"),
    (Kind::Shape(ShapePlace::Condition), 8, "malformed condition"),
    (Kind::Shape(ShapePlace::Term), 8, "malformed term"),
    (Kind::Shape(ShapePlace::Effect), 8, "malformed effect"),
    (Kind::Shape(ShapePlace::Cost), 8, "malformed cost"),
    (
        Kind::Shape(ShapePlace::InitEntry),
        8,
        "malformed init entry",
    ),
    (Kind::BadName, 9, "not a name"),
    (Kind::ReservedWord, 10, "reserved word"),
    (Kind::NotWhole, 11, "not a whole number"),
    (Kind::NumberTooLarge, 12, "number too large"),
    (
        Kind::UnsupportedRequirement,
        13,
        "requirement not supported",
    ),
    (Kind::UnsupportedSection, 14, "not supported"),
    (Kind::RepeatedSection, 15, "repeated section"),
    (Kind::MissingSection, 16, "missing section"),
    (Kind::UnknownType, 17, "unknown type"),
    (Kind::TypeCycle, 18, "type cycle"),
    (Kind::DuplicateName, 19, "duplicate name"),
    (Kind::UnknownPredicate, 20, "unknown predicate"),
    (Kind::UnknownFunction, 21, "unknown function"),
    (Kind::WrongArity, 22, "wrong number of arguments"),
    (Kind::UnknownObject, 23, "unknown object"),
    (Kind::UnboundVariable, 24, "unbound variable"),
    (Kind::DerivedWritten, 25, "derived predicate written"),
    (Kind::RecursiveDerived, 26, "recursive derived predicate"),
    (Kind::InitConflict, 27, "initial atom both true and false"),
    (Kind::ValueConflict, 28, "two values for one term"),
    (Kind::CostForm, 29, "cost form not supported"),
    (Kind::TooManyParts, 30, "condition too large"),
];

#[test]
fn numbers_and_texts_of_all_kinds(rt: HostRuntime) {
    for row in NUMBERS_AND_TEXTS {
        let (kind, number, text) = *row;
        assert!(rt; kind.number() == number && kind.text() == text, "{text}");
    }
}
