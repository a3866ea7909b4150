//! What functions and Maps are computed with.
use crate::spare::Spare;
use sk_vm::Frame;

/// A frame, which serves all functions and instances in turns, and a spare buffer for the results of Maps.
#[derive(Drop)]
pub struct Workspace {
    pub frame: Frame,
    pub spare: Spare,
}
