//! What a step is over the cells that it holds.

use core_shard::volap_cell::{Actor, Cell};
use dim_hierarchy::Hierarchy;
use std::alloc::{AllocError, Global};

/// The numbers of the cells that a step holds, in their order: of one cell, of two, or of two and up to five
/// others. A place of these has none where the step holds no cell there.
pub enum Places {
    One(u32),
    Two(u32, u32),
    Many(u32, u32, [Option<u32>; 5]),
}

/// The cells that a step holds behind its first two.
#[derive(Drop)]
pub struct Others {
    pub third: Option<Cell>,
    pub fourth: Option<Cell>,
    pub fifth: Option<Cell>,
    pub sixth: Option<Cell>,
    pub seventh: Option<Cell>,
}

impl Others {
    ghost use Rattle.std.specs.Prelude.{◌≡◌};
    ghost use Rattle.core_steps.specs.Places.{no_others};

    /// No cells.
    pub fn none() -> Others
        ensures { result ≡ no_others }
    {
        Others {
            third: None,
            fourth: None,
            fifth: None,
            sixth: None,
            seventh: None,
        }
    }
}

/// A step that is due, with all that it takes: where its cells are, and what it makes of them.
pub trait CellStep: Sized {
    ghost use Rattle.std.specs.Prelude.{ℕ, ◌≡◌, Bool, false, List, Option, IsOk, OnErr, OnOk};
    ghost use Rattle.core_steps.specs.Places.{Fill, held, row_of, things, values};
    ghost use Rattle.core_steps.specs.Steps.{Went};
    ghost use Rattle.dim_hierarchy.specs.Dimension.{Dimension};
    ghost use Rattle.core_shard.specs.volap_cell.specs.Cells.{CellValue};
    ghost use Rattle.core_shard.specs.volap_cell.specs.Setting.{Setting};
    ghost use Rattle.core_shard.specs.volap_cell.specs.State.{still};
    ghost use Rattle.core_shard.specs.volap_cell.specs.Steps.{IsHere};
    ghost use Rattle.core_shard.specs.volap_cell.specs.Values.{ActorValue, actor_of};
    ghost use Rattle.core_shard.specs.volap_cell.specs.World.{World};
    ghost use Rattle.core_shard.specs.volap_cell.specs.declared.actor.Actor.{Actor};
    ghost use Rattle.core_shard.specs.volap_cell.specs.declared.kind.Kind.{Kind};

    /// Its kind.
    ghost kind: { Self → Kind };

    /// Where its cells are.
    ghost places: { Self → List (Option ℕ) };

    /// What it asks of them and of its actor.
    ghost asks: { Self → List Dimension → List (Option CellValue) → ActorValue → Type 0 };

    /// What it asks of the state that they don't show.
    ghost sees: { Self → Setting → World → ℕ → Type 0 };

    /// What it tells of them besides.
    ghost tells: { Self → ActorValue → (was now : List (Option CellValue)) → Type 0 };

    /// Whether it may find no memory.
    ghost may_fail: { Self → Bool };

    /// Whether it finds its memory in the rooms of its actor.
    ghost has_room: { Self → Actor → Type 0 };

    /// Where its cells are.
    fn places(&self) -> Places
        ensures { row_of result ≡ places self.now };

    /// Makes the step. Where memory is wanting, it changes nothing.
    fn run(
        self,
        alloc: Global,
        h: &Hierarchy,
        first: &mut Option<Cell>,
        second: &mut Option<Cell>,
        others: &mut Others,
        actor: &mut Actor,
    ) -> Result<(), AllocError>
        requires fill { Fill (places self) (held first.old second.old others.old) }
        requires here { IsHere h.now (still (things (places self) (held first.old second.old others.old))) (actor_of actor.old) }
        requires asked { asks self h.now (values (held first.old second.old others.old)) (actor_of actor.old) }
        ensures fill { Fill (places self) (held first.new second.new others.new) }
        ensures went { OnOk result (Went h.now (kind self) (sees self) (places self) (held first.old second.old others.old) (held first.new second.new others.new) (actor_of actor.old) (actor_of actor.new)) }
        ensures told { OnOk result (tells self (actor_of actor.old) (values (held first.old second.old others.old)) (values (held first.new second.new others.new))) }
        ensures sure { may_fail self ≡ false → IsOk result }
        ensures room { has_room self actor.old → IsOk result }
        ensures refused { OnErr result (((held first.new second.new others.new) ≡ (held first.old second.old others.old)) × (actor_of actor.new ≡ actor_of actor.old)) };
}
