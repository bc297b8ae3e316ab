//! The blocks behind a full head.
ghost use Rattle.std.specs.Prelude.{◌≡◌, ◌<◌, [], ◌∷◌, ◌++◌, length};
ghost use Rattle.std.specs.Option.{option_copied, option_to_list};
ghost use Rattle.link_descent.specs.Divide.{ends_with};

use dc_node::Block;
use std::marker::Model;

/// The blocks behind a full head, from left to right, as far as they are looked at: at most two, and
/// all of them where the group has three blocks at most. They are lent, and nothing of them changes.
#[derive(Drop)]
pub struct Tail<'a> {
    first: Option<&'a Block>,
    second: Option<&'a Block>,
}

impl<'a> Model for Tail<'a> {
    ghost use Rattle.std.specs.Prelude.{◌≡◌, ◌++◌, List, None, IfNone};
    ghost use Rattle.std.specs.Option.{option_copied, option_to_list};
    ghost use Rattle.dc_node.specs.declared.block.Block.{Block};

    ghost Value = { List Block };

    ghost view = { λ t. option_to_list (option_copied t.first) ++ option_to_list (option_copied t.second) };

    ghost invariant = { λ t. IfNone t.first (t.second ≡ None) };
}

impl<'a> Tail<'a> {
    /// No block.
    pub fn none() -> Tail<'a>
        ensures { result ≡ [] }
    {
        Tail {
            first: None,
            second: None,
        }
    }

    /// One block.
    pub fn of(block: &'a Block) -> Tail<'a>
        ensures { result ≡ block.now ∷ [] }
    {
        Tail {
            first: Some(block),
            second: None,
        }
    }

    /// A further block, to the right of those that are there.
    pub fn add(&mut self, block: &'a Block)
        requires room { length self.old < 2 }
        ensures { self.new ≡ self.old ++ block.now ∷ [] }
    {
        match self.first {
            Some(_) => self.second = Some(block),
            None => self.first = Some(block),
        }
    }

    /// The first block, and the second one.
    pub(crate) fn blocks(&self) -> (Option<&'a Block>, Option<&'a Block>)
        ensures { option_to_list (option_copied result.0) ++ option_to_list (option_copied result.1) ≡ self.now }
    {
        (self.first, self.second)
    }

    /// Whether the last block has the stamp that is expected of the group's last one.
    pub(crate) fn ends_with(&self, expected: u64) -> bool
        ensures { result ≡ ends_with expected self.now }
    {
        match self.second {
            Some(last) => last.stamp == expected,
            None => self.first.is_some_and(|last| last.stamp == expected),
        }
    }
}
