//! A tree of names by their hashes: each node has one name, and a place for each digit that may follow.
ghost use Rattle.std.specs.Prelude.{◌≡◌};
ghost use Rattle.dim_hierarchy.specs.NameNodes.{hash_of, stop_of, IsStop};

use crate::concept::ConceptId;
use std::hash::{FoldHasher, Hash, Hasher};

/// How many digits of its hash lead to a name at most. A digit has three bits.
const DIGITS: usize = 21;

/// A name with its concept, and the nodes behind this one.
#[derive(Drop)]
pub(crate) struct NameNode {
    pub(crate) hash: u64,
    pub(crate) name: Vec<u8>,
    pub(crate) id: ConceptId,
    /// For each digit the place of the node behind this one, and 0 where there is none.
    pub(crate) next: [u32; 8],
}

impl NameNode {
    ghost use Rattle.dim_hierarchy.specs.NameNodes.{new_node};

    /// The node of a name, with none behind it.
    pub(crate) fn new(hash: u64, name: Vec<u8>, id: ConceptId) -> NameNode
        ensures { result ≡ new_node hash name id }
    {
        NameNode {
            hash,
            name,
            id,
            next: [0; 8],
        }
    }
}

/// Where the way of a name ends.
#[derive(Clone, Copy)]
pub(crate) enum Stop {
    /// At the node of the name.
    Here(usize),
    /// At a node with nothing behind it at this digit.
    Free(usize, usize),
    /// Where another name has the hash, or the digits end.
    Full,
}

/// The hash of a name.
pub(crate) fn hash_of(name: &[u8]) -> u64
    ensures { result ≡ hash_of name.now }
{
    let mut hasher = FoldHasher::default();
    name.hash(&mut hasher);
    hasher.finish()
}

/// Where the way of a name with this hash ends.
pub(crate) fn stop_of(nodes: &[NameNode], name: &[u8], hash: u64) -> Stop
    ensures value { result ≡ stop_of nodes.now name.now hash }
    ensures within { IsStop nodes.now result }
{
    let mut at = 0;
    let mut digits = hash;
    let mut left = DIGITS;
    while let Some(node) = nodes.get(at) {
        if node.hash == hash {
            return if node.name.as_slice() == name {
                Stop::Here(at)
            } else {
                Stop::Full
            };
        }
        if left == 0 {
            return Stop::Full;
        }
        let digit = (digits % 8) as usize;
        let next = node.next[digit] as usize;
        if next == 0 {
            return Stop::Free(at, digit);
        }
        at = next;
        digits /= 8;
        left -= 1;
    }
    Stop::Full
}
