// Words: names, variables, whole numbers and fixed words.
ghost use Rattle.std.specs.Prelude.{◌≡◌, map};
ghost use Rattle.std.specs.List.{list_all};
ghost use Rattle.lists.specs.Members.{is_among};
ghost use Rattle.pddl_syntax.specs.Shapes.{are_alike};
ghost use Rattle.pddl_syntax.specs.Words as spec;

/// Whether the word, lowered, is `fixed`.
pub fn spells(word: &[u8], fixed: &[u8]) -> bool
    ensures { result ≡ spec.spells fixed.now word.now }
{
    match (word, fixed) {
        ([], []) => true,
        ([byte, word @ ..], [wanted, fixed @ ..]) => {
            byte.to_ascii_lowercase() == *wanted && spells(word, fixed)
        }
        _ => false,
    }
}

/// Whether the two words, lowered, are the same.
fn is_same(word: &[u8], other: &[u8]) -> bool
    ensures { result ≡ spec.is_same (spec.lowered word.now) (spec.lowered other.now) }
{
    match (word, other) {
        ([], []) => true,
        ([byte, word @ ..], [wanted, other @ ..]) => {
            byte.to_ascii_lowercase() == wanted.to_ascii_lowercase() && is_same(word, other)
        }
        _ => false,
    }
}

/// Whether one of the words is this one.
pub fn is_among(words: &[&[u8]], wanted: &[u8]) -> bool
    ensures { result ≡ is_among are_alike (map (λ word. word.now) words.now) wanted.now }
{
    match words {
        [] => false,
        [word, words @ ..] => is_same(word, wanted) || is_among(words, wanted),
    }
}

fn is_name_byte(byte: u8) -> bool
    ensures { result ≡ spec.is_name_byte byte }
{
    byte >= 33
        && byte <= 126
        && byte != b'('
        && byte != b')'
        && byte != b';'
        && byte != b'?'
        && byte != b'@'
        && byte != b','
}

fn has_name_bytes(word: &[u8]) -> bool
    ensures { result ≡ list_all spec.is_name_byte word.now }
{
    word.iter().all(|byte| is_name_byte(*byte))
}

/// Whether the word begins with a colon, as keywords do.
pub fn begins_with_colon(word: &[u8]) -> bool
    ensures { result ≡ spec.begins_with_colon word.now }
{
    match word {
        [] => false,
        [first, ..] => *first == b':',
    }
}

pub(crate) fn is_name(word: &[u8]) -> bool
    ensures { result ≡ spec.is_name word.now }
{
    has_name_bytes(word)
        && !begins_with_colon(word)
        && word != b"".as_slice()
        && word != b"-".as_slice()
        && word != b"=".as_slice()
}

pub(crate) fn begins_with_question_mark(word: &[u8]) -> bool
    ensures { result ≡ spec.begins_with_question_mark word.now }
{
    match word {
        [] => false,
        [first, ..] => *first == b'?',
    }
}

pub(crate) fn is_variable(word: &[u8]) -> bool
    ensures { result ≡ spec.is_variable word.now }
{
    match word {
        [] => false,
        [first, name @ ..] => *first == b'?' && is_name(name),
    }
}

/// Whether the word, lowered, is one of these.
fn is_one_of(word: &[u8], fixed: &[&[u8]]) -> bool
    ensures { result ≡ spec.is_one_of (map (λ fixed. fixed.now) fixed.now) word.now }
{
    match fixed {
        [] => false,
        [first, more @ ..] => spells(word, first) || is_one_of(word, more),
    }
}

/// Whether the word may not name a predicate or a function.
pub(crate) fn is_reserved(word: &[u8]) -> bool
    ensures { result ≡ spec.is_one_of spec.reserved word.now }
{
    is_one_of(
        word,
        &[
            b"and",
            b"or",
            b"not",
            b"imply",
            b"forall",
            b"exists",
            b"when",
            b"increase",
            b"decrease",
            b"assign",
            b"scale-up",
            b"scale-down",
            b"preference",
            b"either",
            b"<",
            b">",
            b"<=",
            b">=",
        ],
    )
}

/// Whether the word is a requirement that is accepted.
pub(crate) fn is_accepted(word: &[u8]) -> bool
    ensures { result ≡ spec.is_one_of spec.accepted word.now }
{
    is_one_of(
        word,
        &[
            b":strips",
            b":adl",
            b":typing",
            b":negation",
            b":equality",
            b":negative-preconditions",
            b":disjunctive-preconditions",
            b":existential-preconditions",
            b":universal-preconditions",
            b":quantified-preconditions",
            b":conditional-effects",
            b":derived-predicates",
            b":action-costs",
        ],
    )
}

pub(crate) fn is_whole(word: &[u8]) -> bool
    ensures { result ≡ spec.is_whole word.now }
{
    word.iter().all(|byte| b'0' <= *byte && *byte <= b'9')
}

/// Whether the word is the `-` that stands before a type.
pub fn is_dash(word: &[u8]) -> bool
    ensures { result ≡ spec.is_dash word.now }
{
    word == b"-".as_slice()
}
