//! The steps by which a purse is filled, and given back.
ghost use Rattle.std.specs.Prelude.{◌≡◌, ◌+◌, ◌*◌, ◌^◌, ◌<◌, [], ◌∷◌, OnErr, OnOk};
ghost use Rattle.cell_stock.specs.Stock.{AreOut};
ghost use Rattle.core_tree.specs.DueAtGates.{CanGiveBack, CanRefill, IsRefilled};
ghost use Rattle.volap_cell.specs.Cells.{cell_of};
ghost use Rattle.volap_cell.specs.Steps.{IsHere, Makes};
ghost use Rattle.volap_cell.specs.Values.{actor_of};
ghost use Rattle.volap_cell.specs.World.{change, held};
ghost use Rattle.volap_cell.specs.declared.kind.Kind.TheVariants.{Refill};

use cell_stock::{Purse, Stock};
use dim_hierarchy::Hierarchy;
use std::alloc::{AllocError, Global};
use volap_cell::{Actor, Boxes, Cell, Way, go_on, row_in, stock_in};

/// So many stamps there are.
const STAMPS: u64 = 1 << 63;

/// Beside a spare for each level a row may need one for a new root, and one for the block beside the
/// old root.
const BESIDE_LEVELS: u64 = 2;

/// Gives the actor's spares back to the stock, and takes as many as a row may need in a tree of the
/// height that was looked up; where fewer cells are free, none. The boxes for their blocks are made
/// before that. Where memory is wanting for these, or no stamps are left, it changes nothing.
pub fn refill(
    alloc: Global,
    h: &Hierarchy,
    stock_at: u32,
    stock: &mut Cell,
    actor: &mut Actor,
) -> Result<(), AllocError>
    requires here { IsHere h.now (held stock_at (cell_of stock.old) ∷ []) (actor_of actor.old) }
    requires due { CanRefill (cell_of stock.old) (actor_of actor.old) }
    ensures made { OnOk result (Makes h.now Refill (change stock_at (cell_of stock.old) (cell_of stock.new) ∷ []) (actor_of actor.old) (actor_of actor.new)) }
    ensures refused { OnErr result ((stock.new ≡ stock.old) × (actor_of actor.new ≡ actor_of actor.old)) }
{
    let _ = alloc;
    let _ = h;
    let going = row_in(&actor.errand);
    let Way::Before { height: noted, .. } = going.way else {
        unreachable!()
    };
    let height = noted.unwrap();
    let stock = stock_in(stock);
    let spares = u64::from(height) + BESIDE_LEVELS;
    exchange(stock, spares, &mut actor.purse, &mut actor.boxes)?;
    go_on(
        &mut actor.errand,
        Way::Before {
            height: Some(height),
            filled: true,
        },
    );
    Ok(())
}

/// Gives the spares that are left in the actor's purse back to the stock. Takes no memory.
pub fn give_back(h: &Hierarchy, stock_at: u32, stock: &mut Cell, actor: &mut Actor)
    requires here { IsHere h.now (held stock_at (cell_of stock.old) ∷ []) (actor_of actor.old) }
    requires due { CanGiveBack (cell_of stock.old) (actor_of actor.old) }
    ensures made { Makes h.now Refill (change stock_at (cell_of stock.old) (cell_of stock.new) ∷ []) (actor_of actor.old) (actor_of actor.new) }
{
    let _ = h;
    stock_in(stock).give(&mut actor.purse);
}

/// Empties the purse into the stock, and takes `n` spares where so many cells are free. The room and the
/// boxes for them are made before that.
fn exchange(
    stock: &mut Stock,
    n: u64,
    purse: &mut Purse,
    boxes: &mut Boxes,
) -> Result<(), AllocError>
    requires few { n < 2 ^ 33 }
    requires out { AreOut stock.old purse.old.spares }
    ensures ok { OnOk result (IsRefilled n stock.old stock.new purse.old purse.new boxes.new) }
    ensures err { OnErr result ((stock.new ≡ stock.old) × (purse.new.spares ≡ purse.old.spares) × (boxes.new ≡ boxes.old)) }
{
    if STAMPS - n <= stock.stamps() {
        return Err(AllocError);
    }
    purse.reserve(n)?;
    boxes.refill(boxes_for(n))?;
    stock.give(purse);
    let _taken = stock.take(n, purse);
    Ok(())
}

/// For how many blocks there have to be boxes where there are `n` spares: a division takes one spare and at
/// most the boxes of two blocks, and the row's leaf may take one.
fn boxes_for(n: u64) -> u64
    requires few { n < 2 ^ 33 }
    ensures { result ≡ 2 * n + 1 }
{
    2 * n + 1
}
