//! A compiled program that is ready to run.
use sk_isa::Object;
use sk_vm::Rooms;

/// A compiled program, with what a frame needs that is to serve its functions.
#[derive(Drop)]
pub struct Loaded<'a> {
    pub object: &'a Object,
    pub rooms: &'a Rooms,
}
