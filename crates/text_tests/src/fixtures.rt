//! Texts of scripts.
use std::alloc::{AllocError, Global};

/// A text of a beginning, and then these lines.
pub fn text_of(alloc: Global, head: &[u8], lines: &[u8]) -> Result<Vec<u8>, AllocError> {
    let mut text = head.to_vec(alloc)?;
    text.extend_from_slice(lines)?;
    Ok(text)
}
