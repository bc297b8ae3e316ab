//! What is tested of `mapping_table`.
use describing_set::{FewConcepts, Plane};
use dim_hierarchy::ConceptId;
use mapping_table::{MapTable, Where};
use std::test::Fail;

/// A plane in the first dimension with one concept on the left.
fn plane() -> Plane {
    let mut left = FewConcepts::new();
    left.put(ConceptId(0x1000_0000));
    Plane {
        dim: 0,
        level: 1,
        left,
    }
}

/// A shard that was split by this plane.
fn split() -> Where {
    Where::Split {
        plane: plane(),
        left: 2,
        right: 3,
    }
}

#[test]
fn an_id_leads_where_it_was_last_set(rt: HostRuntime) -> Result<(), Fail> {
    let mut table = MapTable::new(rt.alloc());
    assert_eq!(rt; table.look(0), None);
    table.set(0, Where::Moved(1))?;
    assert_eq!(rt; table.look(0), Some(&Where::Moved(1)));

    table.set(0, split())?;
    table.set(2, Where::Gate(17))?;
    let found = [table.look(0), table.look(1), table.look(2)];
    assert_eq!(rt; found, [Some(&split()), None, Some(&Where::Gate(17))]);
    Ok(())
}
