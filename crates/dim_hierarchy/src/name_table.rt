//! The concepts of a dimension by name.
ghost use Rattle.std.specs.Prelude.{◌≡◌, ◌≢◌, ◌↔◌, IsTrue, List, ℕ, Some, IfNone, IfSome, OnOk, OnErr};
ghost use Rattle.std.specs.FinMap as map;

use crate::concept::ConceptId;
use crate::items::Name;
use crate::name_nodes::{NameNode, Stop, hash_of, stop_of};
use std::alloc::{AllocError, Global};
use std::collections::BTreeMap;
use std::marker::Model;

/// The most nodes, so that the place of one has 32 bits.
const MOST_NODES: usize = 1 << 32;

/// The concepts of a dimension by name. Contracts see a finite map from names to concepts.
///
/// A name is found by its hash, in as many steps as digits of the hash tell it from those that came
/// before. Whoever picks the names can make hashes alike; so names whose hash another has, or whose
/// digits end, are kept in order of the bytes, and no choice of names makes a look-up long.
#[derive(Drop)]
pub struct NameTable {
    nodes: Vec<NameNode>,
    others: BTreeMap<Vec<u8>, ConceptId>,
}

impl Model for NameTable {
    ghost use Rattle.std.specs.FinMap as map;
    ghost use Rattle.std.specs.Ordering.{nat_cmp};
    ghost use Rattle.std.specs.Cmp.Lexicographic.{slice_cmp};
    ghost use Rattle.std.specs.Prelude.{ℕ};
    ghost use Rattle.std.specs.Coded.{coded_ℕ, coded_list};
    ghost use Rattle.dim_hierarchy.specs.NameNodes.{name_map, HaveDigits};

    ghost Value = { map.FinMap (slice_cmp nat_cmp) ℕ };

    ghost coded = { map.code (coded_list coded_ℕ) coded_ℕ };

    ghost view = { λ n. name_map n.nodes.items n.others.entries };

    ghost invariant = { λ n. HaveDigits n.nodes.items };
}

impl NameTable {
    /// No name. Takes no memory.
    pub fn new(alloc: Global) -> NameTable
        ensures { result ≡ map.empty }
    {
        NameTable {
            nodes: Vec::new(alloc),
            others: BTreeMap::new(alloc),
        }
    }

    /// The concept with a name.
    pub fn find(&self, name: &[u8]) -> Option<ConceptId>
        ensures { result ≡ map.get self.now name.now }
    {
        match stop_of(&self.nodes, name, hash_of(name)) {
            Stop::Here(at) => Some(self.nodes[at].id),
            Stop::Free(_, _) | Stop::Full => self.others.get(name).copied(),
        }
    }

    /// A name of a concept. It reads the names one after another, and looks up each that may be it.
    pub fn name_of(&self, id: ConceptId) -> Option<&[u8]>
        ensures some { IfSome result (λ name. map.get self.now name.now ≡ Some id) }
        ensures none { IfNone result ((name : List ℕ) → map.get self.now name ≢ Some id) }
    {
        for node in self.nodes.iter() {
            if self.is_name_of(node.name.as_slice(), id) {
                return Some(node.name.as_slice());
            }
        }
        for (name, _) in self.others.iter() {
            if self.is_name_of(name.as_slice(), id) {
                return Some(name.as_slice());
            }
        }
        None
    }

    /// Whether a name is that of a concept.
    fn is_name_of(&self, name: &[u8], id: ConceptId) -> bool
        ensures { IsTrue result ↔ (map.get self.now name.now ≡ Some id) }
    {
        match self.find(name) {
            Some(named) => named == id,
            None => false,
        }
    }

    /// Gives a concept a name, in place of the concept that had it.
    pub fn add(&mut self, name: Name, id: ConceptId) -> Result<(), AllocError>
        ensures ok { OnOk result (self.new ≡ map.insert self.old name id) }
        ensures err { OnErr result (self.new ≡ self.old) }
    {
        let hash = hash_of(name.as_slice());
        let stop = stop_of(&self.nodes, name.as_slice(), hash);
        let place = self.nodes.len();
        match stop {
            Stop::Here(at) => self.nodes[at].id = id,
            Stop::Free(at, digit) if place < MOST_NODES => {
                self.nodes.push(NameNode::new(hash, name.into_vec(), id))?;
                self.nodes[at].next[digit] = place as u32;
            }
            Stop::Full if place == 0 => {
                self.nodes.push(NameNode::new(hash, name.into_vec(), id))?;
            }
            _ => {
                self.others.insert(name.into_vec(), id)?;
            }
        }
        Ok(())
    }
}
