//! Transfer texts, written.
ghost use Rattle.std.specs.Prelude.{◌≡◌, ◌≤◌, ◌++◌, OnOk, IfOk};
ghost use Rattle.shard_codec.specs.Wire.{head_wire, id_wire, ids_wire, row_wire, wire};

use dim_hierarchy::{ConceptId, Row};
use std::alloc::{AllocError, Global};

/// What a transfer text begins with.
const MARK: &[u8; 8] = b"VOLAPTR1";

/// The transfer text of rows over so many dimensions.
pub fn encode(alloc: Global, dims: u8, rows: &[Row]) -> Result<Vec<u8>, AllocError>
    requires { dims ≤ 8 }
    ensures { IfOk result (λ bytes. bytes.items ≡ wire dims rows.now) }
{
    let mut bytes = Vec::new(alloc);
    push_head(&mut bytes, dims, rows.len() as u64)?;
    for row in rows {
        push_row(&mut bytes, dims, row)?;
    }
    Ok(bytes)
}

/// Adds the mark, the number of dimensions and the number of rows.
#[tactic(auto, unfolding(crate::specs::Wire::head_wire))]
fn push_head(bytes: &mut Vec<u8>, dims: u8, count: u64) -> Result<(), AllocError>
    ensures { OnOk result (bytes.new.items ≡ bytes.old.items ++ head_wire dims count) }
{
    bytes.extend_from_slice(MARK)?;
    bytes.push(dims)?;
    bytes.extend_from_slice(&count.to_be_bytes())?;
    Ok(())
}

/// Adds a row.
#[tactic(auto, unfolding(crate::specs::Wire::row_wire))]
fn push_row(bytes: &mut Vec<u8>, dims: u8, row: &Row) -> Result<(), AllocError>
    requires { dims ≤ 8 }
    ensures { OnOk result (bytes.new.items ≡ bytes.old.items ++ row_wire dims row.now) }
{
    bytes.extend_from_slice(&row.no.to_be_bytes())?;
    push_ids(bytes, &row.at.at[..usize::from(dims)])?;
    bytes.extend_from_slice(&row.measures.cast_unsigned().to_be_bytes())?;
    Ok(())
}

/// Adds the ids of concepts.
fn push_ids(bytes: &mut Vec<u8>, ids: &[ConceptId]) -> Result<(), AllocError>
    ensures { OnOk result (bytes.new.items ≡ bytes.old.items ++ ids_wire ids.now) }
{
    for id in ids {
        push_id(bytes, id.0)?;
    }
    Ok(())
}

/// Adds an id.
#[tactic(auto, unfolding(crate::specs::Wire::id_wire))]
fn push_id(bytes: &mut Vec<u8>, id: u32) -> Result<(), AllocError>
    ensures { OnOk result (bytes.new.items ≡ bytes.old.items ++ id_wire id) }
{
    bytes.extend_from_slice(&id.to_be_bytes())
}
