//! How many items are divided at most, as specs/Limits.antt has it, and their concepts.

/// Items of a full block.
pub const MOST_ITEMS: usize = 32;

/// Concepts of that many items in a dimension.
pub const MOST_OF_ITEMS: usize = 192;
