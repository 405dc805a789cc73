//! Laws on the tokens, the tree faults and the tree of a text.

ghost use Rattle.std.specs.Prelude.{◌≡◌, ◌<◌, ℕ, List, [], false, length, map};
ghost use Rattle.pddl_lexer.specs.Text.{lowered};
ghost use Rattle.pddl_lexer.specs.Members.{Members, is_empty, nodes, from, lowered_members};
ghost use Rattle.pddl_lexer.specs.Tokens.{spelled, written, lowered_token, IsTreeOf, HasOneTree};
ghost use Rattle.pddl_lexer.specs.Nested.{tree};
ghost use Rattle.pddl_lexer.specs.Faults.{tree_faults};
ghost use Rattle.pddl_lexer.specs.Examples.{FaultExamples, TokenExamples};

/// A text has one tree at most.
pub fn one_tree()
    ensures { (text : List ℕ) → HasOneTree text }
{}

/// The nested list of a text without tree faults spells its tokens, and is its tree once its words are lowered.
pub fn has_tree()
    ensures spells { (text : List ℕ) → tree_faults text ≡ [] → written (tree text) ≡ spelled text }
    ensures tree { (text : List ℕ) → tree_faults text ≡ [] → IsTreeOf text (lowered_members (tree text)) }
{}

/// Lowering the words of a tree lowers its tokens, and lowering once is enough.
pub fn lowering()
    ensures tokens { (tree : Members) → written (lowered_members tree) ≡ map lowered_token (written tree) }
    ensures words { (bytes : List ℕ) → lowered (lowered bytes) ≡ lowered bytes }
    ensures members { (tree : Members) → lowered_members (lowered_members tree) ≡ lowered_members tree }
{}

/// Every node of a tree is a word or a list.
pub fn some_member()
    ensures { (tree : Members) → (i : ℕ) → i < length (nodes tree) → is_empty (from tree i) ≡ false }
{}

/// The definitions at small texts, worked by hand.
pub fn worked_examples()
    ensures tokens { TokenExamples }
    ensures faults { FaultExamples }
{}
