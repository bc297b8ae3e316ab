//! Points at which the threads of a run may meet.
use std::sync::Wait;

/// What a run passes by at numbered points, always at a moment when it holds no turn.
pub trait Meet: Sync {
    /// May hold up the caller. It promises nothing.
    fn pass<R: Wait + Sync>(&self, rt: &R, point: u32);
}

/// Holds up nobody.
#[derive(Clone, Copy, Debug, PartialEq, Eq)]
pub struct Quiet;

impl Meet for Quiet {
    fn pass<R: Wait + Sync>(&self, _rt: &R, _point: u32) {}
}
