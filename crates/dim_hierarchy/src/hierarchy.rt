//! The dimensions together, and what rows and filters say over them.
ghost use Rattle.std.specs.Prelude.{◌≡◌, ◌+◌, ◌<◌, ◌≤◌, ◌↔◌, List, [], ℕ, ◌∷◌, ◌++◌, length, unwrap_or, position, is_none, All, Any, IsTrue, IsOk, IsSome, IfOk, IfSome, IfNone, OnErr, IsOkUnless};
ghost use Rattle.dim_hierarchy.specs.Concept.{level_of};
ghost use Rattle.dim_hierarchy.specs.Tree.{IsConcept, is_concept, IsLeaf, leaf_level, up, is_under, next_under};
ghost use Rattle.dim_hierarchy.specs.Meaning.{IsUnder, IsPicked, Matches};
ghost use Rattle.dim_hierarchy.specs.Row.{IsCoordOf, IsCoordNamed, leaves};
ghost use Rattle.dim_hierarchy.specs.Filter.{IsFilterOf, IsFilterNamed, matches, picks};
ghost use Rattle.dim_hierarchy.specs.Names.{IsNamePick};

use crate::concept::ConceptId;
use crate::dimension::DimensionTable;
use crate::filter::{Filter, NameFilter, Pick};
use crate::items::Name;
use crate::row::Coord;
use crate::row_names::RowNames;
use std::alloc::{AllocError, Global};
use std::marker::Model;

/// How many concepts a hierarchy has at most, so that a number of 28 bits is enough on each level.
const MOST_CONCEPTS: u32 = 0x1000_0000;

/// Why a dimension was not added.
#[derive(Clone, Copy, Debug, PartialEq, Eq)]
pub enum DimFault {
    /// There are 8 dimensions already.
    Full,
    /// A dimension has the name already.
    Twice,
    /// There are not 1 to 8 levels.
    BadLevels,
    /// No memory was found.
    NoMemory,
}

/// Why a concept was not added.
#[derive(Clone, Copy, Debug, PartialEq, Eq)]
pub enum ConceptFault {
    /// There is no such dimension.
    NoDim,
    /// The parent is no concept of the dimension.
    NoParent,
    /// A concept of the dimension has the name already.
    Twice,
    /// The parent is on the leaf level.
    TooDeep,
    /// No memory was found, or there are 2^28 concepts already.
    NoMemory,
}

/// Why names are no filter.
#[derive(Clone, Copy, Debug, PartialEq, Eq)]
pub enum FilterFault {
    /// A name of this dimension, the first such one, is that of no concept.
    Unknown { dim: u8 },
    /// No memory was found.
    NoMemory,
}

impl From<AllocError> for FilterFault {
    ghost use Rattle.std.specs.Prelude.{◌≡◌};
    ghost use Rattle.dim_hierarchy.specs.declared.hierarchy.FilterFault.TheVariants.{NoMemory};

    ghost from_gives = { λ _ e. e ≡ NoMemory };

    fn from(_: AllocError) -> Self {
        FilterFault::NoMemory
    }
}

/// The dimensions and their concepts. Contracts see the list of dimensions, each with its name, its
/// tree of concepts, and the concepts in order of addition and by name.
#[derive(Drop)]
pub struct Hierarchy {
    dims: Vec<DimensionTable>,
    concepts: u32,
    alloc: Global,
}

impl Model for Hierarchy {
    ghost use Rattle.std.specs.Prelude.{List};
    ghost use Rattle.dim_hierarchy.specs.Dimension.{Dimension};
    ghost use Rattle.dim_hierarchy.specs.Counted.{IsCounted};
    ghost use Rattle.dim_hierarchy.specs.Stored.{dimension_code};
    ghost use Rattle.std.specs.Coded.{coded_list};

    ghost Value = { List Dimension };

    ghost coded = { coded_list dimension_code };

    ghost view = { λ h. h.dims.items };

    ghost invariant = { λ h. IsCounted h.dims.items h.concepts };
}

impl Hierarchy {
    ghost use Rattle.std.specs.Prelude.{slice_index_or, slice_set};
    ghost use Rattle.dim_hierarchy.specs.Dimension.{IsHierarchy, IsDimension, dimension, tree, find, find_dim, dim_fault, new_dimension, concept_fault, with_concept};
    ghost use Rattle.dim_hierarchy.specs.Names.{IsNameOf};
    ghost use Rattle.dim_hierarchy.specs.Counted.{concept_count};

    /// No dimension. Takes no memory.
    pub fn new(alloc: Global) -> Hierarchy
        ensures { result ≡ [] }
    {
        Hierarchy {
            dims: Vec::new(alloc),
            concepts: 0,
            alloc,
        }
    }

    /// How many dimensions there are, at most 8.
    pub fn dims(&self) -> u8
        ensures value { result ≡ length self.now }
        ensures valid { IsHierarchy self.now }
    {
        self.dims.len() as u8
    }

    /// The dimension with a number.
    pub(crate) fn table(&self, dim: u8) -> &DimensionTable
        requires { dim < length self.now }
        ensures value { result.now ≡ dimension self.now dim }
        ensures valid { IsDimension result.now }
    {
        &self.dims[usize::from(dim)]
    }

    /// How many levels a dimension has below `ALL`, 1 to 8.
    pub fn levels(&self, dim: u8) -> u8
        requires { dim < length self.now }
        ensures { result ≡ leaf_level (tree self.now dim) }
    {
        self.table(dim).leaf_level()
    }

    /// How many concepts there are below `ALL`, in all dimensions.
    pub fn concepts(&self) -> u32
        ensures { result ≡ concept_count self.now }
    {
        self.concepts
    }

    /// Adds a dimension with no concept but `ALL`, and gives its number.
    ///
    /// The first fault in this order counts, and changes nothing: `Full` where there are 8
    /// dimensions, `Twice` where one has the name, `BadLevels` where `levels` is not 1 to 8.
    pub fn add_dim(&mut self, name: &Name, levels: u8) -> Result<u8, DimFault>
        ensures fault { IfSome (dim_fault self.old name.now levels) (λ fault. result ≡ Err fault) }
        ensures no_fault { IfNone (dim_fault self.old name.now levels)
            (IsOkUnless result DimFault.NoMemory) }
        ensures ok { IfOk result (λ dim.
            (dim ≡ length self.old)
            × (self.new ≡ self.old ++ new_dimension name.now levels ∷ [])) }
        ensures err { OnErr result (self.new ≡ self.old) }
    {
        if let Some(fault) = self.dim_fault(name, levels) {
            return Err(fault);
        }
        let dim = self.dims();
        let Ok(table) = DimensionTable::new(self.alloc, name, levels) else {
            return Err(DimFault::NoMemory);
        };
        match self.dims.push(table) {
            Ok(()) => Ok(dim),
            Err(_) => Err(DimFault::NoMemory),
        }
    }

    /// What stands against a new dimension.
    fn dim_fault(&self, name: &Name, levels: u8) -> Option<DimFault>
        ensures { result ≡ dim_fault self.now name.now levels }
    {
        if self.dims() >= 8 {
            return Some(DimFault::Full);
        }
        if self.find_dim(name.as_slice()).is_some() {
            return Some(DimFault::Twice);
        }
        if levels < 1 || levels > 8 {
            return Some(DimFault::BadLevels);
        }
        None
    }

    /// Adds a concept under its parent, or under `ALL` where none is given.
    ///
    /// The first fault in this order counts, and changes nothing: `NoDim` where there is no such
    /// dimension, `NoParent` where the parent is no concept of it, `Twice` where one of its
    /// concepts has the name, `TooDeep` where the parent is on the leaf level. Want of memory is
    /// told as well where there are 2^28 concepts.
    pub fn add_concept(
        &mut self,
        dim: u8,
        name: &Name,
        parent: Option<ConceptId>,
    ) -> Result<ConceptId, ConceptFault>
        ensures fault { IfSome (concept_fault self.old dim name.now (unwrap_or parent 0))
            (λ fault. result ≡ Err fault) }
        ensures no_fault { IfNone (concept_fault self.old dim name.now (unwrap_or parent 0))
            (IsOkUnless result ConceptFault.NoMemory) }
        ensures ok { IfOk result (λ id.
            (id ≡ next_under (tree self.old dim) (unwrap_or parent 0))
            × (self.new
            ≡ slice_set self.old dim
            (with_concept (dimension self.old dim) name.now (unwrap_or parent 0)))) }
        ensures err { OnErr result (self.new ≡ self.old) }
    {
        let parent = parent.unwrap_or(ConceptId::ALL);
        if let Some(fault) = self.concept_fault(dim, name, parent) {
            return Err(fault);
        }
        if self.concepts >= MOST_CONCEPTS {
            return Err(ConceptFault::NoMemory);
        }
        match self.dims[usize::from(dim)].add(self.alloc, name, parent) {
            Ok(id) => {
                self.concepts += 1;
                Ok(id)
            }
            Err(_) => Err(ConceptFault::NoMemory),
        }
    }

    /// What stands against a new concept.
    fn concept_fault(&self, dim: u8, name: &Name, parent: ConceptId) -> Option<ConceptFault>
        ensures { result ≡ concept_fault self.now dim name.now parent }
    {
        if dim >= self.dims() {
            return Some(ConceptFault::NoDim);
        }
        if !self.has(dim, parent) {
            return Some(ConceptFault::NoParent);
        }
        if self.find(dim, name).is_some() {
            return Some(ConceptFault::Twice);
        }
        if parent.level() == self.levels(dim) {
            return Some(ConceptFault::TooDeep);
        }
        None
    }

    /// The dimension with a name.
    pub fn find_dim(&self, name: &[u8]) -> Option<u8>
        ensures { result ≡ find_dim self.now name.now }
    {
        for dim in 0..self.dims() {
            if self.table(dim).name() == name {
                return Some(dim);
            }
        }
        None
    }

    /// The concept with a name in a dimension, never `ALL`; none where there is no such dimension.
    pub fn find(&self, dim: u8, name: &Name) -> Option<ConceptId>
        ensures { result ≡ find self.now dim name.now }
    {
        self.find_bytes(dim, name.as_slice())
    }

    /// As `find`, by the name's bytes.
    pub fn find_bytes(&self, dim: u8, name: &[u8]) -> Option<ConceptId>
        ensures { result ≡ find self.now dim name.now }
    {
        if dim >= self.dims() {
            return None;
        }
        self.table(dim).find(name)
    }

    /// The name that a concept was added with, lent; none for `ALL`, for what is no concept of the
    /// dimension, and where there is no such dimension. It takes no memory, and reads the names of
    /// the dimension one after another.
    pub fn name_of(&self, dim: u8, id: ConceptId) -> Option<&[u8]>
        ensures name { IfSome result (λ name. IsNameOf self.now dim id name.now) }
        ensures some { IsConcept (tree self.now dim) id → 0 < level_of id → IsSome result }
    {
        if dim >= self.dims() {
            return None;
        }
        self.table(dim).name_of(id)
    }

    /// Whether the id is a concept of the dimension, `ALL` among them.
    pub fn has(&self, dim: u8, id: ConceptId) -> bool
        ensures test { result ≡ is_concept (tree self.now dim) id }
        ensures meaning { IsTrue result ↔ IsConcept (tree self.now dim) id }
    {
        dim < self.dims() && self.table(dim).has(id)
    }

    /// Whether the id is a concept of the dimension's last level; never where there is no such
    /// dimension.
    pub fn is_leaf(&self, dim: u8, id: ConceptId) -> bool
        ensures { IsTrue result ↔ IsLeaf (tree self.now dim) id }
    {
        self.has(dim, id) && id.level() == self.levels(dim)
    }

    /// The ancestor of a concept at a level that is not below its own.
    pub fn up(&self, dim: u8, id: ConceptId, level: u8) -> ConceptId
        requires dim { dim < length self.now }
        requires concept { IsConcept (tree self.now dim) id }
        requires level { level ≤ level_of id }
        ensures { result ≡ up (tree self.now dim) id level }
    {
        self.table(dim).up(id, level)
    }

    /// Whether the first concept is the second or is reached from it by parents.
    pub fn is_under(&self, dim: u8, id: ConceptId, top: ConceptId) -> bool
        requires dim { dim < length self.now }
        requires concept { IsConcept (tree self.now dim) id }
        requires top { IsConcept (tree self.now dim) top }
        ensures test { result ≡ is_under (tree self.now dim) id top }
        ensures meaning { IsTrue result ↔ IsUnder (tree self.now dim) id top }
    {
        self.table(dim).is_under(id, top)
    }

    /// The coordinate of these names, one for each dimension; else the first dimension whose name
    /// is not that of a leaf concept. Takes no memory.
    pub fn coord(&self, names: &RowNames) -> Result<Coord, u8>
        requires { length names.now ≡ length self.now }
        ensures unknown { IfSome (position is_none (leaves self.now names.now))
            (λ dim. result ≡ Err dim) }
        ensures known { IfNone (position is_none (leaves self.now names.now)) (IsOk result) }
        ensures ok { IfOk result (IsCoordNamed self.now names.now) }
    {
        let mut at = [ConceptId::ALL; 8];
        for dim in 0..self.dims() {
            let Some(id) = self.leaf(names, dim) else {
                return Err(dim);
            };
            at[usize::from(dim)] = id;
        }
        Ok(Coord { at })
    }

    /// The leaf concept of a dimension's name among these.
    fn leaf(&self, names: &RowNames, dim: u8) -> Option<ConceptId>
        requires count { length names.now ≡ length self.now }
        requires dim { dim < length self.now }
        ensures { result ≡ slice_index_or (leaves self.now names.now) dim None }
    {
        let name = names.get(usize::from(dim));
        self.table(dim).find_leaf(name)
    }

    /// The filter of these picks by name, one for each dimension; else the first dimension with a
    /// name that is not that of a concept, or want of memory.
    pub fn filter(&self, alloc: Global, names: &NameFilter) -> Result<Filter, FilterFault>
        requires count { length names.now ≡ length self.now }
        requires some { All IsNamePick names.now }
        ensures unknown { IfSome (position is_none (picks self.now names.now))
            (λ dim. result ≡ Err (FilterFault.Unknown dim)) }
        ensures known { IfNone (position is_none (picks self.now names.now))
            (IsOkUnless result FilterFault.NoMemory) }
        ensures ok { IfOk result (IsFilterNamed self.now names.now) }
    {
        if let Some(dim) = self.first_unknown(names) {
            return Err(FilterFault::Unknown { dim });
        }
        Ok(self.picks(alloc, names)?)
    }

    /// The first dimension with a name that is not that of a concept. Takes no memory.
    pub fn first_unknown(&self, names: &NameFilter) -> Option<u8>
        requires { length names.now ≡ length self.now }
        ensures { result ≡ position is_none (picks self.now names.now) }
    {
        for dim in 0..self.dims() {
            let pick = &names.as_slice()[usize::from(dim)];
            if !self.table(dim).knows(pick) {
                return Some(dim);
            }
        }
        None
    }

    /// The filter of picks by names that are all known.
    fn picks(&self, alloc: Global, names: &NameFilter) -> Result<Filter, AllocError>
        requires count { length names.now ≡ length self.now }
        requires some { All IsNamePick names.now }
        requires known { position is_none (picks self.now names.now) ≡ None }
        ensures { IfOk result (IsFilterNamed self.now names.now) }
    {
        let mut filter = Filter::new(alloc);
        for dim in 0..self.dims() {
            let pick = &names.as_slice()[usize::from(dim)];
            filter.push(self.table(dim).pick(alloc, pick)?)?;
        }
        Ok(filter)
    }

    /// Whether in each dimension the filter picks all, or a concept that the coordinate's is under.
    pub fn matches(&self, filter: &Filter, at: &Coord) -> bool
        requires filter { IsFilterOf self.now filter.now }
        requires at { IsCoordOf self.now at.now }
        ensures test { result ≡ matches self.now filter.now at.now }
        ensures meaning { IsTrue result ↔ Matches self.now filter.now at.now }
    {
        let picks = filter.as_slice();
        let dims = self.dims();
        for dim in 0..dims {
            if !self
                .table(dim)
                .is_picked(&picks[usize::from(dim)], at.concept(dim))
            {
                return false;
            }
        }
        true
    }

    /// Laws of ancestors, with no code.
    pub fn ancestor_laws(&self, dim: u8)
        requires { dim < length self.now }
        ensures own_level { (id : ℕ) → up (tree self.now dim) id (level_of id) ≡ id }
        ensures up_twice { (id high low : ℕ)
            → IsConcept (tree self.now dim) id → low ≤ high → high ≤ level_of id
            → up (tree self.now dim) (up (tree self.now dim) id high) low
            ≡ up (tree self.now dim) id low }
        ensures under_itself { (id : ℕ) → IsUnder (tree self.now dim) id id }
        ensures under_under { (id middle top : ℕ)
            → IsUnder (tree self.now dim) id middle → IsUnder (tree self.now dim) middle top
            → IsUnder (tree self.now dim) id top }
    {
        let _ = self.dims();
    }

    /// Laws of filters, with no code: the tests say what the facts say, and a pick is the same with
    /// more concepts in its list that are listed already or under a listed one.
    pub fn filter_laws(&self)
        ensures meaning { (filter : List Pick) (at : Coord)
            → IsFilterOf self.now filter → IsCoordOf self.now at
            → IsTrue (matches self.now filter at) ↔ Matches self.now filter at }
        ensures nested { (dim id : ℕ) (ids more : List ℕ)
            → All (λ m. Any (IsUnder (tree self.now dim) m) ids) more
            → IsPicked (tree self.now dim) (Pick.Ids (ids ++ more)) id
            ↔ IsPicked (tree self.now dim) (Pick.Ids ids) id }
    {}
}
