//! Transfer texts, read.
ghost use Rattle.std.specs.Prelude.{◌≡◌, List, [], length, Ok, All, IfOk};
ghost use Rattle.shard_codec.specs.Spelled.{AreSpelled};
ghost use Rattle.shard_codec.specs.Wire.{wire};
ghost use Rattle.dim_hierarchy.specs.Dimension.{IsHierarchy};
ghost use Rattle.dim_hierarchy.specs.Rows.{IsRowOf};
ghost use Rattle.dim_hierarchy.specs.declared.row.Row.{Row};
ghost use Rattle.shard_codec.specs.Reading.{Gives, GivesUnlessFull, coord_at, head_at, row_at, rows_at, decoded, all_at_top};

use crate::fault::CodecFault;
use crate::field::{byte_at, leaf_at, mark_at, u64_at};
use dim_hierarchy::{ConceptId, Coord, Hierarchy, Row};
use std::alloc::Global;

/// The rows whose transfer text the bytes are, each a row of the hierarchy; where they are no such
/// text, the first fault from the left.
///
/// It takes memory row by row, as the rows are read, and none for rows that are only told of.
pub fn decode(alloc: Global, bytes: &[u8], h: &Hierarchy) -> Result<Vec<Row>, CodecFault>
    // It gives rows only where the bytes are their text and they are rows of the hierarchy,
    ensures text { IfOk result (λ rows. bytes.now ≡ wire (length h.now) rows.items) }
    ensures rows { IfOk result (λ rows. All (IsRowOf h.now) rows.items) }
    // and wherever the bytes are the text of such rows, it gives these, unless memory runs out.
    ensures again { (rows : List Row) → AreSpelled h.now rows → bytes.now ≡ wire (length h.now) rows
        → GivesUnlessFull (λ rows. rows.items) result (Ok rows) }
    // Which fault it is.
    ensures exact { GivesUnlessFull (λ rows. rows.items) result (decoded h.now bytes.now) }
{
    all_rows(alloc, bytes, h)
}

/// The rows of the whole text, or its first fault.
#[tactic(auto, unfolding(crate::specs::Reading::decoded))]
fn all_rows(alloc: Global, bytes: &[u8], h: &Hierarchy) -> Result<Vec<Row>, CodecFault>
    ensures exact { GivesUnlessFull (λ rows. rows.items) result (decoded h.now bytes.now) }
    ensures valid { IsHierarchy h.now }
{
    let len = bytes.len() as u64;
    let (count, rest) = head_at(h.dims(), len, bytes)?;
    match rows_at(alloc, h, len, count, rest) {
        Ok((rows, [])) => Ok(rows),
        Ok((_, rest)) => Err(CodecFault::Trailing {
            at: len.saturating_sub(rest.len() as u64),
        }),
        Err(fault) => Err(fault),
    }
}

/// The number of rows, behind the mark and the number of dimensions.
#[tactic(auto, unfolding(crate::specs::Reading::head_at))]
fn head_at(dims: u8, len: u64, bytes: &[u8]) -> Result<(u64, &[u8]), CodecFault>
    ensures { Gives (λ x. (x.0, x.1.now)) result (head_at dims len bytes.now) }
{
    let rest = mark_at(len, bytes)?;
    let (told, rest) = byte_at(len, rest)?;
    if told != dims {
        return Err(CodecFault::BadCount { told, dims });
    }
    u64_at(len, rest)
}

/// The next `count` rows, and what is left.
fn rows_at<'a>(
    alloc: Global,
    h: &Hierarchy,
    len: u64,
    count: u64,
    bytes: &'a [u8],
) -> Result<(Vec<Row>, &'a [u8]), CodecFault>
    ensures { GivesUnlessFull (λ x. (x.0.items, x.1.now)) result (rows_at h.now len count [] bytes.now) }
{
    let mut rows = Vec::new(alloc);
    let mut rest = bytes;
    for _row in 0..count {
        match row_at(h, len, rest) {
            Ok((row, after)) => {
                rows.push(row)?;
                rest = after;
            }
            Err(fault) => return Err(fault),
        }
    }
    Ok((rows, rest))
}

/// A row, and what is left.
#[tactic(auto, unfolding(crate::specs::Reading::row_at))]
fn row_at<'a>(h: &Hierarchy, len: u64, bytes: &'a [u8]) -> Result<(Row, &'a [u8]), CodecFault>
    ensures { Gives (λ x. (x.0, x.1.now)) result (row_at h.now len bytes.now) }
{
    let (no, rest) = u64_at(len, bytes)?;
    match coord_at(h, len, rest) {
        Ok((at, rest)) => {
            let (measures, rest) = u64_at(len, rest)?;
            let measures = measures.cast_signed();
            Ok((Row { no, at, measures }, rest))
        }
        Err(fault) => Err(fault),
    }
}

/// A leaf concept for each dimension, and what is left.
fn coord_at<'a>(h: &Hierarchy, len: u64, bytes: &'a [u8]) -> Result<(Coord, &'a [u8]), CodecFault>
    ensures { Gives (λ x. (x.0.at, x.1.now)) result (coord_at h.now len (length h.now) 0 all_at_top bytes.now) }
{
    let mut at = [ConceptId::ALL; 8];
    let mut rest = bytes;
    for dim in 0..h.dims() {
        let (id, after) = leaf_at(h, len, dim, rest)?;
        at[usize::from(dim)] = ConceptId(id);
        rest = after;
    }
    Ok((Coord { at }, rest))
}
