//! Turns over piles of things, beside what another program draws by the same formulas.
ghost use Rattle.std.specs.Prelude.{⊤, ◌≡◌, ◌<◌, ◌^◌, ◌++◌, [], ◌∷◌, length, nat_lt, sum_by};
ghost use Rattle.std.specs.List.{slice_index_or};

use crate::{Machine, Schedule, run};
use std::alloc::{AllocError, Global};
use std::marker::Brand;
use std::sync::ledger::Blank;
use std::test::Fail;

/// Piles, one for each actor, who takes one thing of it in a step. Who took something is told, the
/// first one first.
#[derive(Drop)]
struct Piles {
    piles: Vec<u32>,
    takers: Vec<u32>,
}

impl Machine for Piles {
    type Kind = ();

    type Survey = ();

    ghost actors = { λ p. length p.piles.items };

    ghost can = { λ p i. nat_lt 0 (slice_index_or p.piles.items i 0) };

    ghost IsDue = { λ p i k. 0 < slice_index_or p.piles.items i 0 };

    ghost Tells = { λ p survey. ⊤ };

    ghost Holds = { λ p. length p.piles.items < 2 ^ 32 };

    ghost makes = { λ p i q. q.takers.items ≡ p.takers.items ++ i ∷ [] };

    ghost stays = { λ p q. (q.piles ≡ p.piles) × (q.takers.items ≡ p.takers.items) };

    ghost Left = { λ p n. n ≡ sum_by (λ x. x) p.piles.items };

    fn actors(&self) -> u32 {
        self.piles.len() as u32
    }

    fn due(&self, actor: u32) -> Option<()> {
        if self.piles[actor as usize] > 0 {
            Some(())
        } else {
            None
        }
    }

    fn survey(&self) {}

    fn due_by(&self, _survey: &(), actor: u32) -> Option<()> {
        self.due(actor)
    }

    fn step(&mut self, _alloc: Global, actor: u32, _kind: ()) -> Result<(), AllocError> {
        self.takers.push(actor)?;
        self.piles[actor as usize] -= 1;
        Ok(())
    }
}

/// Who takes something of piles of two, three and one, in turn.
fn takers(alloc: Global, schedule: &mut Schedule) -> Result<Vec<u32>, AllocError> {
    let mut piles = Piles {
        piles: vec![in alloc; 2, 3, 1]?,
        takers: Vec::new(alloc),
    };
    run::<_, Brand>(&mut piles, alloc, schedule, Blank::new(1))?;
    Ok(piles.takers)
}

#[test]
fn in_order_the_lowest_takes_until_it_has_nothing(rt: HostRuntime) -> Result<(), Fail> {
    let all = takers(rt.alloc(), &mut Schedule::Order)?;
    assert_eq!(rt; all.as_slice(), &[0, 0, 1, 1, 1, 2][..]);
    Ok(())
}

/// By seed, who takes in turn: as PCG's formulas draw it, evaluated by another program.
const DRAWN: [(u64, [u32; 6]); 5] = [
    (0, [1, 2, 1, 0, 1, 0]),
    (1, [0, 2, 1, 0, 1, 1]),
    (7, [2, 0, 1, 0, 1, 1]),
    (42, [1, 1, 1, 0, 0, 2]),
    (18446744073709551615, [1, 1, 1, 2, 0, 0]),
];

#[test]
fn a_seed_draws_one_of_those_that_can_step(rt: HostRuntime) -> Result<(), Fail> {
    for (seed, drawn) in DRAWN {
        let all = takers(rt.alloc(), &mut Schedule::seeded(seed))?;
        assert_eq!(rt; all.as_slice(), &drawn[..]);
    }
    Ok(())
}

#[test]
fn the_next_run_draws_on(rt: HostRuntime) -> Result<(), Fail> {
    let mut schedule = Schedule::seeded(42);
    let first = takers(rt.alloc(), &mut schedule)?;
    let second = takers(rt.alloc(), &mut schedule)?;
    assert_eq!(rt; first.as_slice(), &[1, 1, 1, 0, 0, 2][..]);
    assert_eq!(rt; second.as_slice(), &[1, 0, 0, 2, 1, 1][..]);
    Ok(())
}
