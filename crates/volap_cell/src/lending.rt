//! What is there, of something that is known to be there.
ghost use Rattle.std.specs.Borrow.{sem};
ghost use Rattle.std.specs.Option.Follows.{option_follows_value};
ghost use Rattle.std.specs.Prelude.{◌≡◌, true, is_some, option_map, Some};
ghost use Rattle.volap_cell.specs.Errands.{has_row};
ghost use Rattle.volap_cell.specs.Values.{errand_of};
ghost use Rattle.volap_cell.specs.declared.errand.Errand.{Errand};
ghost use Rattle.volap_cell.specs.declared.errand.Task.TheVariants.{Row as OfARow};

use crate::errand::{Errand, RowErrand, Task};

/// What is there, to be changed.
#[inline(always)]
pub fn lent<T>(place: &mut Option<T>) -> &mut T
    requires { is_some place.old ≡ true }
    ensures* writes_back { sem 𝓛 (option_follows_value T.row place.entry result) }
    ensures value { place.old ≡ Some result.now }
{
    match place {
        Some(x) => x,
        None => unreachable!(),
    }
}

/// What is there, to be read.
#[inline(always)]
pub fn there<T>(place: &Option<T>) -> &T
    requires { is_some place.now ≡ true }
    ensures { place.now ≡ Some result.now }
{
    match place {
        Some(x) => x,
        None => unreachable!(),
    }
}

/// The row on its way of an errand that has one.
#[inline(always)]
pub fn row_in(errand: &Option<Errand>) -> &RowErrand
    requires { has_row (option_map errand_of errand.now) ≡ true }
    ensures { (e : Errand) × (errand.now ≡ Some e) × (e.task ≡ OfARow result.now) }
{
    let errand = there(errand);
    let Task::Row(going) = &errand.task else {
        unreachable!()
    };
    going
}
