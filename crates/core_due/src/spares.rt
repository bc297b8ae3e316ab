//! The last spares of a purse.
ghost use Rattle.std.specs.Prelude.{◌≡◌};
ghost use Rattle.core_due.specs.Spares.{last_spare, spare_before};

use cell_stock::Purse;

/// The cell of a purse's last spare.
pub fn last_spare(purse: &Purse) -> Option<u32>
    ensures { result ≡ last_spare purse.now.spares }
{
    match purse.last() {
        Some(spare) => Some(spare.cell),
        None => None,
    }
}

/// The cells of a purse's last spare, and of the one before it. The last one is taken out for a look at the
/// other, and put back. Takes no memory.
pub fn last_two(purse: &mut Purse) -> (Option<u32>, Option<u32>)
    ensures last { result.0 ≡ last_spare purse.old.spares }
    ensures before { result.1 ≡ spare_before purse.old.spares }
    ensures unchanged { purse.new ≡ purse.old }
{
    if purse.len() == 0 {
        return (None, None);
    }
    let last = purse.next();
    let before = last_spare(purse);
    purse.put(last);
    (Some(last.cell), before)
}
