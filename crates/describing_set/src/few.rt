//! At most six concepts, where they stand.
ghost use Rattle.std.specs.Prelude.{◌≡◌, ◌≢◌, ◌==◌, ◌↔◌, ◌<◌, ◌≤◌, ◌+◌, [], ◌∷◌, ◌++◌, length, IsTrue, Contains};
ghost use Rattle.std.specs.List.{list_any, insert};
ghost use Rattle.std.specs.Bool.{OnTrue, OnFalse};
ghost use Rattle.describing_set.specs.Ascending.{with_id, most_of_set};
ghost use Rattle.describing_set.specs.Sorted.{Ascends};
ghost use Rattle.describing_set.specs.Places.{no_concept};

use dim_hierarchy::ConceptId;
use std::marker::Model;

/// How many concepts a describing set has in a dimension at most.
pub const MOST_OF_SET: usize = 6;

/// What an unused place holds: no hierarchy has a concept of level 15.
const NO_CONCEPT: ConceptId = ConceptId(0xffff_ffff);

/// At most six concepts. Contracts see the list.
///
/// An unused place holds no concept, so a test for a concept looks at all six, with no count and
/// no branch.
#[derive(Clone, Copy, Debug, Drop, PartialEq)]
pub struct FewConcepts {
    places: [ConceptId; MOST_OF_SET],
    count: u8,
}

impl Model for FewConcepts {
    ghost use Rattle.std.specs.Prelude.{ℕ, ◌≡◌, ◌≤◌, ◌++◌, ◌-◌, take, length, replicate};
    ghost use Rattle.arrayvec.specs.ArrayVec.{ArrayVec as Items};
    ghost use Rattle.describing_set.specs.Ascending.{most_of_set};
    ghost use Rattle.describing_set.specs.Places.{no_concept, AreFew};

    ghost Value = { Items ℕ };

    ghost view = { λ s. record { items = take s.count s.places } };

    ghost invariant = { λ s. AreFew s.count s.places };

    ghost inverse = { λ v. record {
      places = v.items ++ replicate (most_of_set - length v.items) no_concept;
      count = length v.items;
    } };

    ghost inverse_ok = { λ s h i. record { places = h.unused i; count = h.used i } };
}

impl FewConcepts {
    /// None.
    pub fn new() -> FewConcepts
        ensures { result.items ≡ [] }
    {
        FewConcepts {
            places: [NO_CONCEPT; MOST_OF_SET],
            count: 0,
        }
    }

    /// How many there are.
    pub fn len(&self) -> usize
        ensures value { result ≡ length self.now.items }
        ensures few { result ≤ most_of_set }
    {
        usize::from(self.count)
    }

    /// Whether there is none.
    pub fn is_empty(&self) -> bool
        ensures { IsTrue result ↔ (length self.now.items ≡ 0) }
    {
        self.count == 0
    }

    /// The concepts.
    pub fn as_slice(&self) -> &[ConceptId]
        ensures value { result.now ≡ self.now.items }
        ensures few { length result.now ≤ most_of_set }
    {
        &self.places[..usize::from(self.count)]
    }

    /// Whether it has the concept.
    pub fn has(&self, id: ConceptId) -> bool
        requires { id ≢ no_concept }
        ensures test { result ≡ list_any (λ x. x == id) self.now.items }
        ensures meaning { IsTrue result ↔ Contains self.now.items id }
    {
        let p = &self.places;
        (p[0] == id)
            | ((p[1] == id) | ((p[2] == id) | ((p[3] == id) | ((p[4] == id) | (p[5] == id)))))
    }

    /// Adds a concept at the end.
    pub(crate) fn push(&mut self, id: ConceptId)
        requires { length self.old.items < most_of_set }
        ensures { self.new.items ≡ self.old.items ++ id ∷ [] }
    {
        self.places[usize::from(self.count)] = id;
        self.count += 1;
    }

    /// Adds concepts at the end.
    fn extend(&mut self, ids: &[ConceptId])
        requires { length self.old.items + length ids.now ≤ most_of_set }
        ensures { self.new.items ≡ self.old.items ++ ids.now }
    {
        for id in ids {
            self.push(*id);
        }
    }

    /// Puts a concept before the one at a place.
    fn insert(&mut self, at: usize, id: ConceptId)
        requires within { at ≤ length self.old.items }
        requires room { length self.old.items < most_of_set }
        ensures { self.new.items ≡ insert self.old.items at id }
    {
        let ids = self.as_slice();
        let mut more = FewConcepts::new();
        more.extend(&ids[..at]);
        more.push(id);
        more.extend(&ids[at..]);
        *self = more;
    }

    /// Adds a concept to ascending ones; false, with nothing changed, where it would be the seventh.
    pub fn put(&mut self, id: ConceptId) -> bool
        ensures added { OnTrue result (self.new.items ≡ with_id id self.old.items) }
        ensures seventh { OnFalse result (most_of_set < length (with_id id self.old.items)) }
        ensures full { OnFalse result (self.new ≡ self.old) }
        ensures few { length self.new.items ≤ most_of_set }
    {
        let mut at = 0;
        while at < self.len() && self.as_slice()[at] < id {
            at += 1;
        }
        if at < self.len() && self.as_slice()[at] == id {
            return true;
        }
        if self.len() == MOST_OF_SET {
            return false;
        }
        self.insert(at, id);
        true
    }

    /// As `put`, faster where the concept is there already.
    pub(crate) fn add(&mut self, id: ConceptId) -> bool
        requires ascends { Ascends self.old.items }
        requires concept { id ≢ no_concept }
        ensures added { OnTrue result (self.new.items ≡ with_id id self.old.items) }
        ensures seventh { OnFalse result (most_of_set < length (with_id id self.old.items)) }
        ensures full { OnFalse result (self.new ≡ self.old) }
        ensures few { length self.new.items ≤ most_of_set }
    {
        // This use of a field says that there are at most six.
        let _ = &self.count;
        if self.has(id) {
            return true;
        }
        self.put(id)
    }
}

impl Default for FewConcepts {
    ghost is_default = { λ s. s.items ≡ [] };

    fn default() -> FewConcepts {
        FewConcepts::new()
    }
}
