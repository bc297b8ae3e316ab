//! One dimension: its concepts as a tree, and by their names.
ghost use Rattle.std.specs.Prelude.{◌≡◌, ◌≢◌, ◌+◌, ◌≤◌, ◌<◌, ◌^◌, List, ℕ, length, Some, is_some, IsSome, IfNone, IfOk, IfSome, OnOk, OnErr};
ghost use Rattle.std.specs.List.{list_any, slice_index_or};
ghost use Rattle.std.specs.FinMap as map;
ghost use Rattle.dim_hierarchy.specs.Concept.{level_of};
ghost use Rattle.dim_hierarchy.specs.Tree.{IsConcept, IsTree, is_concept, is_under, leaf_level, next_under, parents_at, up};
ghost use Rattle.dim_hierarchy.specs.Row.{leaf_named};
ghost use Rattle.dim_hierarchy.specs.Filter.{is_picked, pick_named, ids_named};

use crate::concept::ConceptId;
use crate::filter::{IdList, NamePick, Pick};
use crate::items::Name;
use crate::lineage::{LevelLineages, Lineage, Lineages, copied, lineage_of, none};
use crate::name_table::NameTable;
use std::alloc::{AllocError, Global};
use std::marker::Model;
use std::sync::Arc;

/// The concepts of one level: their parents by number.
#[derive(Drop)]
struct Level {
    parents: Vec<ConceptId>,
}

impl Model for Level {
    ghost Value = { List ℕ };

    ghost view = { λ l. l.parents.items };
}

/// A dimension. Contracts see its name, its tree of concepts, and the concepts in order of addition
/// and by name.
///
/// The tree is the parents in `levels`. The lineages have them too, but read off there a tree would
/// be a map over lineages in each contract; so both are kept, and any ancestor is one read. A compiled
/// filter may have the lineages too, so they are never changed while it has them.
#[derive(Drop)]
pub struct DimensionTable {
    name: Name,
    levels: Vec<Level>,
    lineages: Arc<Lineages>,
    order: Vec<ConceptId>,
    names: NameTable,
}

impl Model for DimensionTable {
    ghost use Rattle.dim_hierarchy.specs.Dimension.{Dimension};
    ghost use Rattle.dim_hierarchy.specs.Stored.{dimension_code};
    ghost use Rattle.dim_hierarchy.specs.Lineage.{AreLineagesOf};
    ghost use Rattle.std.specs.Arc.{arc_value};

    ghost Value = { Dimension };

    ghost coded = { dimension_code };

    ghost view = { λ d. record { name = d.name; tree = d.levels.items; order = d.order.items; names = d.names } };

    ghost invariant = { λ d. AreLineagesOf d.levels.items (arc_value d.lineages) };
}

impl DimensionTable {
    ghost use Rattle.std.specs.Arc.{arc_value};
    ghost use Rattle.dim_hierarchy.specs.Dimension.{new_dimension, with_concept};
    ghost use Rattle.dim_hierarchy.specs.Lineage.{AreLineagesOf};

    /// A dimension with so many levels below `ALL`, and no concept on them.
    pub fn new(alloc: Global, name: &Name, levels: u8) -> Result<DimensionTable, AllocError>
        ensures { IfOk result (λ d. d ≡ new_dimension name.now levels) }
    {
        let mut all = Vec::new(alloc);
        all.push(Level {
            parents: vec![in alloc; ConceptId::ALL]?,
        })?;
        for _ in 0..levels {
            all.push(Level {
                parents: Vec::new(alloc),
            })?;
        }
        let mut lineages = none(alloc);
        lineages[0] = LevelLineages {
            all: vec![in alloc; [ConceptId::ALL; 9]]?,
        };
        Ok(DimensionTable {
            name: Name::from_bytes(alloc, name.as_slice())?,
            levels: all,
            lineages: Arc::new(alloc, lineages)?,
            order: Vec::new(alloc),
            names: NameTable::new(alloc),
        })
    }

    /// Adds a concept of this name below its parent.
    pub fn add(
        &mut self,
        alloc: Global,
        name: &Name,
        parent: ConceptId,
    ) -> Result<ConceptId, AllocError>
        requires tree { IsTree self.old.tree }
        requires concept { IsConcept self.old.tree parent }
        requires level { level_of parent + 1 < length self.old.tree }
        requires room { length (parents_at self.old.tree (level_of parent + 1)) < 2 ^ 28 }
        ensures id { IfOk result (λ id. id ≡ next_under self.old.tree parent) }
        ensures ok { OnOk result (self.new ≡ with_concept self.old name.now parent) }
        ensures err { OnErr result (self.new ≡ self.old) }
    {
        // What can fail comes first: the key, room for the parent, the lineage and the id, and
        // the name.
        let key = Name::from_bytes(alloc, name.as_slice())?;
        self.own_lineages(alloc)?;
        let below = parent.level() + 1;
        let mut own = self.lineage(parent);
        let level = &mut self.levels[usize::from(below)];
        let id = ConceptId::new(below, level.parents.len() as u32);
        own[usize::from(below)] = id;
        let Some(table) = Arc::get_mut(&mut self.lineages) else {
            return Err(AllocError);
        };
        let lineages = &mut table[usize::from(below)];
        level.parents.reserve(1)?;
        lineages.all.reserve(1)?;
        self.order.reserve(1)?;
        self.names.add(key, id)?;
        level.parents.push(parent)?;
        lineages.all.push(own)?;
        self.order.push(id)?;
        Ok(id)
    }

    /// Has the lineages to itself: it makes a copy where a compiled filter has them too.
    fn own_lineages(&mut self, alloc: Global) -> Result<(), AllocError>
        ensures { self.new ≡ self.old }
    {
        if Arc::strong_count(&self.lineages) > 1 {
            self.lineages = Arc::new(alloc, copied(alloc, &self.lineages)?)?;
        }
        Ok(())
    }

    /// The lineages of the concepts, shared.
    pub(crate) fn shared_lineages(&self) -> Result<Arc<Lineages>, AllocError>
        ensures { IfOk result (λ shared. AreLineagesOf self.now.tree (arc_value shared)) }
    {
        Arc::try_clone(&self.lineages)
    }

    /// The dimension's name.
    pub fn name(&self) -> &[u8]
        ensures { result.now ≡ self.now.name }
    {
        self.name.as_slice()
    }

    /// The level of the leaves.
    pub fn leaf_level(&self) -> u8
        requires { IsTree self.now.tree }
        ensures { result ≡ leaf_level self.now.tree }
    {
        (self.levels.len() - 1) as u8
    }

    /// How many concepts there are, without `ALL`.
    pub(crate) fn concepts(&self) -> usize
        ensures { result ≡ length self.now.order }
    {
        self.order.len()
    }

    /// How many concepts a level has.
    pub fn level_len(&self, level: u8) -> usize
        requires { level < length self.now.tree }
        ensures { result ≡ length (parents_at self.now.tree level) }
    {
        let level = &self.levels[usize::from(level)];
        level.parents.len()
    }

    /// The parents of the concepts of a level, by number.
    pub fn parents(&self, level: u8) -> &[ConceptId]
        requires { level < length self.now.tree }
        ensures { result.now ≡ parents_at self.now.tree level }
    {
        let level = &self.levels[usize::from(level)];
        &level.parents
    }

    /// The concept with a name.
    pub fn find(&self, name: &[u8]) -> Option<ConceptId>
        ensures { result ≡ map.get self.now.names name.now }
    {
        self.names.find(name)
    }

    /// A name of a concept.
    pub fn name_of(&self, id: ConceptId) -> Option<&[u8]>
        ensures some { IfSome result (λ name. map.get self.now.names name.now ≡ Some id) }
        ensures none { IfNone result ((name : List ℕ) → map.get self.now.names name ≢ Some id) }
    {
        self.names.name_of(id)
    }

    /// Whether the id is a concept of the dimension.
    pub fn has(&self, id: ConceptId) -> bool
        ensures { result ≡ is_concept self.now.tree id }
    {
        let at = usize::from(id.level());
        if at >= self.levels.len() {
            return false;
        }
        let level = &self.levels[at];
        (id.number() as usize) < level.parents.len()
    }

    /// The lineage of a concept.
    pub(crate) fn lineage(&self, id: ConceptId) -> Lineage
        requires { IsConcept self.now.tree id }
        ensures long { length result ≡ 9 }
        ensures ancestors { (level : ℕ) → level ≤ level_of id
            → slice_index_or result level 0 ≡ up self.now.tree id level }
    {
        *lineage_of(&self.lineages, id)
    }

    /// The ancestor of a concept at a level that is not below its own.
    pub fn up(&self, id: ConceptId, level: u8) -> ConceptId
        requires tree { IsTree self.now.tree }
        requires concept { IsConcept self.now.tree id }
        requires level { level ≤ level_of id }
        ensures { result ≡ up self.now.tree id level }
    {
        lineage_of(&self.lineages, id)[usize::from(level)]
    }

    /// Whether the first concept is the second or is reached from it by parents.
    pub fn is_under(&self, id: ConceptId, top: ConceptId) -> bool
        requires tree { IsTree self.now.tree }
        requires concept { IsConcept self.now.tree id }
        ensures { result ≡ is_under self.now.tree id top }
    {
        top.level() <= id.level() && self.up(id, top.level()) == top
    }

    /// Whether the pick is `All` or lists a concept that this one is under.
    pub fn is_picked(&self, pick: &Pick, id: ConceptId) -> bool
        requires tree { IsTree self.now.tree }
        requires concept { IsConcept self.now.tree id }
        ensures { result ≡ is_picked self.now.tree pick.now id }
    {
        match pick {
            Pick::All => true,
            Pick::Ids(ids) => self.is_under_any(id, ids.as_slice()),
        }
    }

    /// Whether the concept is under one of these.
    fn is_under_any(&self, id: ConceptId, tops: &[ConceptId]) -> bool
        requires tree { IsTree self.now.tree }
        requires concept { IsConcept self.now.tree id }
        ensures { result ≡ list_any (is_under self.now.tree id) tops.now }
    {
        tops.iter().any(|top| self.is_under(id, *top))
    }

    /// The leaf concept with a name.
    pub fn find_leaf(&self, name: &[u8]) -> Option<ConceptId>
        requires { IsTree self.now.tree }
        ensures { result ≡ leaf_named self.now name.now }
    {
        let id = self.find(name)?;
        if id.level() == self.leaf_level() {
            Some(id)
        } else {
            None
        }
    }

    /// Whether each name of the pick is that of a concept.
    pub fn knows(&self, pick: &NamePick) -> bool
        ensures { result ≡ is_some (pick_named self.now pick.now) }
    {
        match pick {
            NamePick::All => true,
            NamePick::Any(names) => self.knows_all(names.as_slice()),
        }
    }

    /// Whether each of these names is that of a concept.
    fn knows_all(&self, names: &[Name]) -> bool
        ensures { result ≡ is_some (ids_named self.now names.now) }
    {
        for name in names {
            if self.find(name.as_slice()).is_none() {
                return false;
            }
        }
        true
    }

    /// The pick of a pick by names that are all known.
    pub fn pick(&self, alloc: Global, pick: &NamePick) -> Result<Pick, AllocError>
        requires { IsSome (pick_named self.now pick.now) }
        ensures { IfOk result (λ ids. pick_named self.now pick.now ≡ Some ids) }
    {
        match pick {
            NamePick::All => Ok(Pick::All),
            NamePick::Any(names) => Ok(Pick::Ids(self.ids(alloc, names.as_slice())?)),
        }
    }

    /// The concepts of names that are all known.
    fn ids(&self, alloc: Global, names: &[Name]) -> Result<IdList, AllocError>
        requires { IsSome (ids_named self.now names.now) }
        ensures { IfOk result (λ ids. ids_named self.now names.now ≡ Some ids) }
    {
        let mut ids = IdList::new(alloc);
        for name in names {
            let id = self.find(name.as_slice()).unwrap();
            ids.push(id)?;
        }
        Ok(ids)
    }
}
