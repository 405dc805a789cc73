// A place among the members of a list.
ghost use Rattle.std.specs.Prelude.{◌≡◌};
ghost use Rattle.pddl_lexer.specs.Members.{is_empty, is_list, position, word, inside, rest};
ghost use Rattle.pddl_syntax.specs.Words.{is_word};

use crate::words::spells;
use pddl_lexer::{At, Tree};
use std::marker::Model;

/// A place among the members of a list. Contracts see the members from there on.
#[derive(Drop)]
pub struct Cursor<'a> {
    tree: &'a Tree<'a>,
    /// The node at the place, or none at the end of the list.
    node: Option<u64>,
}

impl<'a> Model for Cursor<'a> {
    ghost use Rattle.pddl_lexer.specs.Members.{Members, members_at, IsPlace};
    ghost use Rattle.pddl_lexer.specs.Kept.{members_code};

    ghost Value = { Members };

    ghost coded = { members_code };

    ghost view = { λ cursor. members_at cursor.tree.now cursor.node };

    ghost invariant = { λ cursor. IsPlace cursor.tree.now cursor.node };
}

impl<'a> Cursor<'a> {
    /// At the whole list.
    #[tactic(auto, using(crate::proofs::Places::whole, crate::proofs::Places::nothing))]
    pub fn at_root(tree: &'a Tree<'a>) -> Cursor<'a>
        ensures { result ≡ tree.now }
    {
        let node = if tree.len() == 0 { None } else { Some(0) };
        Cursor { tree, node }
    }

    /// A cursor at the same place.
    pub fn copy(&self) -> Cursor<'a>
        ensures { result ≡ self.now }
    {
        Cursor {
            tree: self.tree,
            node: self.node,
        }
    }

    /// Whether the list has no member here or after.
    #[tactic(auto, using(crate::proofs::Places::some_member))]
    pub fn is_empty(&self) -> bool
        ensures { result ≡ is_empty self.now }
    {
        self.node.is_none()
    }

    /// Whether the member here is a list.
    pub fn is_list(&self) -> bool
        ensures { result ≡ is_list self.now }
    {
        match self.node {
            Some(node) => self.tree.is_list(node),
            None => false,
        }
    }

    /// Where the member here stands; line and column 0 at the end.
    pub fn at(&self) -> At
        ensures { result ≡ position self.now }
    {
        match self.node {
            Some(node) => self.tree.at(node),
            None => At { line: 0, column: 0 },
        }
    }

    /// The bytes of the word here, as written; none where there is no word.
    pub fn word(&self) -> &'a [u8]
        ensures { result.now ≡ word self.now }
    {
        match self.node {
            Some(node) => self.tree.word(node),
            None => &[],
        }
    }

    /// Whether the word here, lowered, is `fixed`.
    pub fn is_word(&self, fixed: &[u8]) -> bool
        ensures { result ≡ is_word fixed.now self.now }
    {
        spells(self.word(), fixed)
    }

    /// At the first member of the list here; at an end where there is no list.
    pub fn inside(&self) -> Cursor<'a>
        ensures { result ≡ inside self.now }
    {
        let node = match self.node {
            Some(node) => self.tree.first(node),
            None => None,
        };
        let tree = self.tree;
        Cursor { tree, node }
    }

    /// At the next member.
    pub fn rest(&self) -> Cursor<'a>
        ensures { result ≡ rest self.now }
    {
        let node = match self.node {
            Some(node) => self.tree.next(node),
            None => None,
        };
        let tree = self.tree;
        Cursor { tree, node }
    }
}
