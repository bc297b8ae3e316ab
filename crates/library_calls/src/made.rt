//! A hierarchy made from names.
ghost use Rattle.std.specs.Prelude.{◌≡◌, [], ◌∷◌, Err, IfNone, IfOk, IfSome, IsOkUnless};
ghost use Rattle.dim_hierarchy.specs.Dimension.{dim_fault, new_dimension};

use dim_hierarchy::{DimFault, Hierarchy, Name};
use std::alloc::Global;

/// The hierarchy of one dimension with no concept yet but the one of all, or why there is none.
pub fn of_one_dimension(alloc: Global, name: &Name, levels: u8) -> Result<Hierarchy, DimFault>
    ensures fault { IfSome (dim_fault [] name.now levels) (λ fault. result ≡ Err fault) }
    ensures no_fault { IfNone (dim_fault [] name.now levels) (IsOkUnless result DimFault.NoMemory) }
    ensures made { IfOk result (λ h. h ≡ new_dimension name.now levels ∷ []) }
{
    let mut h = Hierarchy::new(alloc);
    h.add_dim(name, levels)?;
    Ok(h)
}
