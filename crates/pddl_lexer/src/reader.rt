//! The one pass over a text.

ghost use Rattle.std.specs.Prelude.{◌≡◌, List, [], ◌∷◌, IsOk, IfOk, OnOk, Err};
ghost use Rattle.lists.specs.Stops.{IfFault, UnlessNoMemory, IsFirst};
ghost use Rattle.pddl_lexer.specs.Members.{lowered_members};
ghost use Rattle.pddl_lexer.specs.Nested.{tree};
ghost use Rattle.pddl_lexer.specs.Tokens.{spelled, written, IsTreeOf};
ghost use Rattle.pddl_lexer.specs.Faults.{tree_faults};
ghost use Rattle.pddl_lexer.specs.declared.fault.Fault.{Fault};

use crate::builder::Builder;
use crate::fault::Fault;
use crate::scanner::Scanner;
use crate::tree::Tree;
use lists::Stop;
use std::alloc::Global;

/// A text of so many bytes is too long: places, lines and columns are counted in 32 bits, since each word has them.
const BYTE_LIMIT: usize = 4_294_967_295;

/// Reads the one nested list of a text, in one pass. Its words are slices of the text, as they are written there.
///
/// Outside comments the bytes 33 to 126, space, tab, carriage return and line feed are allowed. A `;` begins a comment
/// that ends before the next line feed, and any byte may stand in it. A word is a longest run of bytes 33 to 126
/// without `(`, `)` and `;`, and a `?` begins a new word. Lists may be nested 100 deep. Lines are counted from 1,
/// and so are the bytes of each line. A text of 4 GiB or more ends as where memory runs out.
pub fn read_tree<'a>(alloc: Global, bytes: &'a [u8]) -> Result<Tree<'a>, Stop<Fault>>
    // What is read is the tree of the text, once its words are lowered.
    ensures tree { IfOk result (λ tree. IsTreeOf bytes.now (lowered_members tree)) }
    // Each word is a slice of the text at its place, as written.
    ensures words { IfOk result (λ tree. written tree ≡ spelled bytes.now) }
    // So it is the nested list that these words and the parentheses spell.
    ensures nested { IfOk result (λ found. tree bytes.now ≡ found) }

    // Only a text without faults gives a tree.
    ensures faultless { OnOk result (tree_faults bytes.now ≡ []) }
    // A fault that comes is the first of the text.
    ensures first { IfFault result (λ fault. IsFirst (tree_faults bytes.now) fault) }

    // Unless memory runs out, a text without faults gives a tree, and one with faults gives the first.
    ensures ok { tree_faults bytes.now ≡ [] → UnlessNoMemory result (IsOk result) }
    ensures fault { (fault : Fault) → IsFirst (tree_faults bytes.now) fault
        → UnlessNoMemory result (result ≡ Err (Stop.Fault fault)) }
{
    if bytes.len() >= BYTE_LIMIT {
        return Err(Stop::NoMemory);
    }
    let mut scanner = Scanner::new();
    let mut builder = Builder::new(alloc);
    let mut text = bytes;
    while let [byte, after @ ..] = text {
        let mark = scanner.mark(*byte);
        if let Some(kind) = builder.kind_at(mark) {
            return Err(Stop::Fault(Fault {
                kind,
                at: scanner.at,
            }));
        }
        let begins = (bytes.len() - text.len()) as u32;
        builder.add(mark, scanner.at, begins)?;
        scanner = scanner.after(*byte);
        text = after;
    }
    match builder.kind_at_end() {
        Some(kind) => Err(Stop::Fault(Fault {
            kind,
            at: scanner.at,
        })),
        None => Ok(Tree::of_nodes(bytes, builder.nodes)),
    }
}
