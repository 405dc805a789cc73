//! A nested list while it is read.

ghost use Rattle.std.specs.Prelude.{◌≡◌, ◌<◌, ◌^◌, ℕ, List, drop, OnOk};
ghost use Rattle.pddl_lexer.specs.Members.{WordThen, NoMore};
ghost use Rattle.pddl_lexer.specs.Tokens.{leading_word};
ghost use Rattle.pddl_lexer.specs.Faults.{after_end, kind_at, kind_at_end};
ghost use Rattle.pddl_lexer.specs.Builder.{Partial, Outside, Within, with_member, with_end, with_mark, Represents, IsBuilding, HasFewNodes, IsShallow, Counts};

use crate::fault::Kind;
use crate::position::At;
use crate::scanner::Mark;
use crate::tree::{Content, Node};
use std::alloc::{AllocError, Global};

/// How many lists may be open.
const DEPTH_LIMIT: usize = 100;

/// The nodes so far, and where the open lists stand among them.
#[derive(Drop)]
pub(crate) struct Builder {
    pub(crate) nodes: Vec<Node>,
    pub(crate) open: Vec<usize>,
}

impl Builder {
    /// Nothing is read yet.
    #[tactic(auto, unfolding(crate::specs::Faults::opened, crate::specs::Faults::closed, crate::specs::Faults::begun))]
    pub(crate) fn new(alloc: Global) -> Builder
        ensures represents { (text : List ℕ) → Represents text result (Outside NoMore) }
        ensures counts { Counts result List.[] }
    {
        Builder {
            nodes: Vec::new(alloc),
            open: Vec::new(alloc),
        }
    }

    /// Whether the list has ended.
    fn is_ended(&self) -> bool
        ensures { (behind : List ℕ) → Counts self.now behind → result ≡ after_end behind }
    {
        self.open.is_empty() && !self.nodes.is_empty()
    }

    /// The fault of what stands at a place.
    #[tactic(auto, unfolding(crate::specs::Faults::kind_at))]
    pub(crate) fn kind_at(&self, mark: Mark) -> Option<Kind>
        ensures { (behind : List ℕ) → Counts self.now behind → result ≡ kind_at mark behind }
    {
        match mark {
            Mark::Bad => Some(Kind::BadByte),
            Mark::Opening if self.open.len() >= DEPTH_LIMIT => Some(Kind::TooDeep),
            Mark::Opening if self.is_ended() => Some(Kind::TextAfterEnd),
            Mark::Closing if self.open.is_empty() => Some(Kind::StrayClose),
            Mark::Beginning if self.nodes.is_empty() => Some(Kind::NoList),
            Mark::Beginning if self.is_ended() => Some(Kind::TextAfterEnd),
            _ => None,
        }
    }

    /// The fault where the text ends.
    #[tactic(auto, unfolding(crate::specs::Faults::kind_at_end))]
    pub(crate) fn kind_at_end(&self) -> Option<Kind>
        ensures { (behind : List ℕ) → Counts self.now behind → result ≡ kind_at_end behind }
    {
        if !self.open.is_empty() {
            Some(Kind::MissingClose)
        } else if self.nodes.is_empty() {
            Some(Kind::NoList)
        } else {
            None
        }
    }

    fn add_word(&mut self, at: At, begins: u32) -> Result<(), AllocError>
        requires { IsShallow self.old }
        ensures { OnOk result ((text : List ℕ) (partial : Partial) → Represents text self.old partial
            → Represents text self.new (with_member partial (WordThen at (leading_word (drop begins text)) NoMore))) }
    {
        let depth = self.open.len() as u8;
        self.nodes.push(Node {
            at,
            content: Content::Word { depth, begins },
        })?;
        Ok(())
    }

    fn begin_list(&mut self, at: At) -> Result<(), AllocError>
        requires { IsShallow self.old }
        ensures { OnOk result ((text : List ℕ) (partial : Partial) → Represents text self.old partial
            → Represents text self.new (Within partial at NoMore)) }
    {
        let depth = self.open.len() as u8;
        self.open.push(self.nodes.len())?;
        self.nodes.push(Node {
            at,
            content: Content::List { depth, below: 0 },
        })?;
        Ok(())
    }

    fn end_list(&mut self)
        requires building { IsBuilding self.old }
        requires few { HasFewNodes self.old }
        ensures { (text : List ℕ) (partial : Partial) → Represents text self.old partial → Represents text self.new (with_end partial) }
    {
        if let Some(list) = self.open.pop() {
            let below = (self.nodes.len() - list - 1) as u32;
            let node = &mut self.nodes[list];
            let depth = node.content.depth();
            node.content = Content::List { depth, below };
        }
    }

    /// Takes what stands at a position of the text, after so many bytes.
    pub(crate) fn add(&mut self, mark: Mark, at: At, begins: u32) -> Result<(), AllocError>
        requires building { IsBuilding self.old }
        requires few { HasFewNodes self.old }
        requires shallow { IsShallow self.old }
        ensures { OnOk result ((text : List ℕ) (partial : Partial) → Represents text self.old partial
            → Represents text self.new (with_mark mark at (leading_word (drop begins text)) partial)) }
    {
        match mark {
            Mark::Nothing | Mark::Bad => Ok(()),
            Mark::Opening => self.begin_list(at),
            Mark::Closing => {
                self.end_list();
                Ok(())
            }
            Mark::Beginning => self.add_word(at, begins),
        }
    }
}
