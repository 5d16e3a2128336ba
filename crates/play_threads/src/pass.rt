//! What comes before each call at a gate.
use std::sync::Wait;

/// What is called before each call at a gate, with the caller's number and the node's, from 1. It
/// may wait, so that a test can make calls overlap.
pub trait Pass {
    /// Returns once the call may come to the gate.
    fn pass<R: Wait>(&self, rt: &R, caller: u32, node: usize);
}

/// It lets each call pass at once.
#[derive(Clone, Copy, Drop)]
pub struct FreePass;

impl Pass for FreePass {
    fn pass<R: Wait>(&self, _rt: &R, _caller: u32, _node: usize) {}
}
