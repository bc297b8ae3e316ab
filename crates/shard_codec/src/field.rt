//! The fields of a transfer text, each read from the front of what is left of it. `len` is the length
//! of the whole text. None of these calls takes memory.
ghost use Rattle.std.specs.Prelude.{◌≡◌, ◌<◌, length};
ghost use Rattle.std.specs.Int.{w32, w64};
ghost use Rattle.shard_codec.specs.Reading.{Gives, mark_at, byte_at, number_at, is_leaf_concept, leaf_at};

use crate::fault::CodecFault;
use dim_hierarchy::{ConceptId, Hierarchy};

/// What a transfer text begins with.
const MARK: &[u8; 8] = b"VOLAPTR1";

/// What is left behind the mark.
#[tactic(auto, unfolding(crate::specs::Reading::mark_at))]
pub fn mark_at(len: u64, bytes: &[u8]) -> Result<&[u8], CodecFault>
    ensures { Gives (λ rest. rest.now) result (mark_at len bytes.now) }
{
    if bytes.len() < 8 {
        return Err(CodecFault::Short { len });
    }
    let (mark, rest) = bytes.split_at(8);
    if mark != MARK.as_slice() {
        return Err(CodecFault::BadMark);
    }
    Ok(rest)
}

/// A byte, and what is left.
#[tactic(auto, unfolding(crate::specs::Reading::byte_at))]
pub fn byte_at(len: u64, bytes: &[u8]) -> Result<(u8, &[u8]), CodecFault>
    ensures { Gives (λ x. (x.0, x.1.now)) result (byte_at len bytes.now) }
{
    match bytes {
        [] => Err(CodecFault::Short { len }),
        [first, rest @ ..] => Ok((*first, rest)),
    }
}

/// A number of four bytes, and what is left.
#[tactic(auto, unfolding(crate::specs::Reading::number_at))]
pub fn u32_at(len: u64, bytes: &[u8]) -> Result<(u32, &[u8]), CodecFault>
    ensures { Gives (λ x. (x.0, x.1.now)) result (number_at w32 len bytes.now) }
{
    if bytes.len() < 4 {
        return Err(CodecFault::Short { len });
    }
    let (front, rest) = bytes.split_at(4);
    let number = u32::from_be_bytes([front[0], front[1], front[2], front[3]]);
    Ok((number, rest))
}

/// A number of eight bytes, and what is left.
#[tactic(auto, unfolding(crate::specs::Reading::number_at))]
pub fn u64_at(len: u64, bytes: &[u8]) -> Result<(u64, &[u8]), CodecFault>
    ensures { Gives (λ x. (x.0, x.1.now)) result (number_at w64 len bytes.now) }
{
    if bytes.len() < 8 {
        return Err(CodecFault::Short { len });
    }
    let (front, rest) = bytes.split_at(8);
    let number = u64::from_be_bytes([
        front[0], front[1], front[2], front[3], front[4], front[5], front[6], front[7],
    ]);
    Ok((number, rest))
}

/// The id of a leaf concept of a dimension, and what is left.
#[tactic(auto, unfolding(crate::specs::Reading::leaf_at))]
pub fn leaf_at<'a>(
    h: &Hierarchy,
    len: u64,
    dim: u8,
    bytes: &'a [u8],
) -> Result<(u32, &'a [u8]), CodecFault>
    requires { dim < length h.now }
    ensures { Gives (λ x. (x.0, x.1.now)) result (leaf_at h.now len dim bytes.now) }
{
    let at = len.saturating_sub(bytes.len() as u64);
    let (id, rest) = u32_at(len, bytes)?;
    if !is_leaf_concept(h, dim, ConceptId(id)) {
        return Err(CodecFault::BadConcept { at, id });
    }
    Ok((id, rest))
}

/// Whether an id is a leaf concept of the dimension.
fn is_leaf_concept(h: &Hierarchy, dim: u8, id: ConceptId) -> bool
    requires { dim < length h.now }
    ensures { result ≡ is_leaf_concept h.now dim id }
{
    id.level() == h.levels(dim) && h.has(dim, id)
}
