//! A nested list of words, kept as its nodes in pre-order.

ghost use Rattle.std.specs.Prelude.{◌≡◌, ◌<◌, ◌≤◌, ◌+◌, ◌^◌, ◌↔◌, ℕ, List as Bytes, None, IsNone, length};
ghost use Rattle.pddl_lexer.specs.Members.{Members, NoMore, IsOneList, nodes, from, is_list, position, word, inside, rest, count, members_at, IsPlace, beginning};
ghost use Rattle.pddl_lexer.specs.Nodes.{entry, content_depth, content_below, Shows, IsAtDepth, AreNodesOf};

use crate::position::At;
use crate::words::word_at;
use std::marker::Model;

/// What a node is, and how many lists it stands in: 100 at most.
///
/// A node has 16 bytes, since a file may have millions. So the depth is a `u8` in both variants, and no field of `Node`:
/// beside the tag it takes none. And a word is known by where it begins; its bytes are in the text.
#[derive(Clone, Copy)]
pub(crate) enum Content {
    /// A word, with how many bytes stand before it in the text.
    Word { depth: u8, begins: u32 },
    /// A list, with how many words and lists stand in it, at every depth.
    List { depth: u8, below: u32 },
}

/// A word or a list of the tree.
#[derive(Clone, Copy)]
pub(crate) struct Node {
    pub(crate) at: At,
    pub(crate) content: Content,
}

impl Content {
    /// How many lists the node stands in.
    pub(crate) fn depth(&self) -> u8
        ensures { result ≡ content_depth self.now }
    {
        match self {
            Content::Word { depth, .. } => *depth,
            Content::List { depth, .. } => *depth,
        }
    }

    /// How many words and lists stand in it, at every depth.
    fn below(&self) -> u64
        ensures { result ≡ content_below self.now }
    {
        match self {
            Content::Word { .. } => 0,
            Content::List { below, .. } => *below as u64,
        }
    }
}

/// The one nested list of a text, which it borrows. Its words are slices of the text.
///
/// The words and lists in it are its nodes. They are numbered from 0 in pre-order: node 0 is the whole list, and
/// the members of a list come after it, each with what stands in it.
pub struct Tree<'a> {
    text: &'a [u8],
    nodes: Vec<Node>,
}

impl Drop for Tree<'_> {
    fn drop(self) {
        let Tree { text: _, nodes: _ } = self;
    }
}

impl<'a> Model for Tree<'a> {
    ghost use Rattle.pddl_lexer.specs.Members.{Members};
    ghost use Rattle.pddl_lexer.specs.Kept.{members_code};

    ghost Value = { Members };

    ghost coded = { members_code };

    ghost use Rattle.pddl_lexer.specs.Nodes.{kept, AreNodesOf};

    ghost view = { λ a. kept a.text.now a.nodes.items };

    ghost invariant = { λ a. AreNodesOf a.text.now (kept a.text.now a.nodes.items) a.nodes.items };
}

impl<'a> Tree<'a> {
    /// The tree that has these nodes of the text.
    pub(crate) fn of_nodes(text: &'a [u8], nodes: Vec<Node>) -> Tree<'a>
        requires { (tree : Members) × AreNodesOf text.now tree nodes.items }
        ensures { (tree : Members) → AreNodesOf text.now tree nodes.items → result ≡ tree }
    {
        Tree { text, nodes }
    }

    fn node(&self, i: u64) -> Node
        requires { i < length (nodes self.now) }
        ensures shows { (text : Bytes ℕ) × Shows (entry text result) (from self.now i) }
        ensures in_range { i + 1 + content_below result.content ≤ length (nodes self.now) }
        ensures depth { IsAtDepth self.now i (content_depth result.content) }
        ensures fits { length (nodes self.now) < 2 ^ 64 }
    {
        let _len = self.nodes.len();
        self.nodes[i as usize]
    }

    /// How many nodes the tree has.
    pub fn len(&self) -> u64
        ensures nodes { result ≡ length (nodes self.now) }
        // Node 0 is there. It is the whole list, and nothing stands after it.
        ensures some { 0 < result }
        ensures whole { from self.now 0 ≡ self.now }
        ensures one_list { IsOneList self.now }
    {
        self.nodes.len() as u64
    }

    /// Whether the node is a list, and no word.
    pub fn is_list(&self, i: u64) -> bool
        requires { i < length (nodes self.now) }
        ensures { result ≡ is_list (from self.now i) }
    {
        matches!(self.node(i).content, Content::List { .. })
    }

    /// Where the first byte of a word stands, or the `(` of a list.
    pub fn at(&self, i: u64) -> At
        requires { i < length (nodes self.now) }
        ensures { result ≡ position (from self.now i) }
    {
        self.node(i).at
    }

    /// The bytes of a word, as written. A list has none.
    pub fn word(&self, i: u64) -> &'a [u8]
        requires { i < length (nodes self.now) }
        ensures { result.now ≡ word (from self.now i) }
    {
        let _len = self.nodes.len();
        match self.nodes[i as usize].content {
            Content::Word { begins, .. } => word_at(self.text, begins as usize),
            Content::List { .. } => &[],
        }
    }

    /// The first member of a list. A word has none.
    pub fn first(&self, i: u64) -> Option<u64>
        requires { i < length (nodes self.now) }
        ensures begins { members_at self.now result ≡ inside (from self.now i) }
        ensures is_place { IsPlace self.now result }
        ensures exact { result ≡ beginning (inside (from self.now i)) (i + 1) }
        // There is no first member exactly where the list is empty.
        ensures none { IsNone result ↔ (inside (from self.now i) ≡ NoMore) }
    {
        if self.node(i).content.below() == 0 {
            None
        } else {
            Some(i + 1)
        }
    }

    /// The member after this one in its list. Node 0 is in no list.
    pub fn next(&self, i: u64) -> Option<u64>
        requires { i < length (nodes self.now) }
        ensures begins { members_at self.now result ≡ rest (from self.now i) }
        ensures is_place { IsPlace self.now result }
        ensures exact { result ≡ beginning (rest (from self.now i)) (i + 1 + count (inside (from self.now i))) }
        // There is no next member exactly after the last one.
        ensures none { IsNone result ↔ (rest (from self.now i) ≡ NoMore) }
        ensures whole { i ≡ 0 → IsNone result }
    {
        let node = self.node(i);
        let after = i + 1 + node.content.below();
        if after < self.len() && self.node(after).content.depth() == node.content.depth() {
            Some(after)
        } else {
            None
        }
    }
}
