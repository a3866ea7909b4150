use crate::frame::Frame;
use crate::instance::Instance;
use crate::rooms::Rooms;
use sk_base::{Cell, Trap};
use sk_isa::Object;
use sk_kernel::{At, Data, Kernel, RunTrap};
use std::alloc::{AllocError, Global};
use std::marker::Model;

/// An instance of a compiled program as a kernel, over a frame that it shares with other kernels, one at a time. It is made for
/// a call of the instance.
#[derive(Debug, Drop)]
pub struct Sharing<'a> {
    instance: Instance<'a>,
    straight: bool,
    frame: &'a mut Frame,
}

impl<'a> Model for Sharing<'a> {
    ghost use Rattle.sk_vm.specs.Instantiated.{Instantiated, Serves};

    ghost Value = { Instantiated };

    ghost view = { λ c. c.instance };

    ghost invariant = { λ c. Serves c.instance c.frame.now };
}

impl<'a> Sharing<'a> {
    ghost use Rattle.std.specs.Prelude.{◌≡◌, ◌<◌, length, IfOk, IsOk};
    ghost use Rattle.sk_vm.specs.Frames.{Holds};
    ghost use Rattle.sk_vm.specs.Instantiated.{IsOf};
    ghost use Rattle.sk_vm.specs.Rooms.{AreRooms};

    /// An instance by its number, over a frame. It takes memory only where the frame has less room than some function of the
    /// program needs.
    pub fn new(
        alloc: Global,
        object: &'a Object,
        rooms: &Rooms,
        instance: u32,
        frame: &'a mut Frame,
    ) -> Result<Sharing<'a>, AllocError>
        requires rooms { AreRooms object.now rooms.now }
        requires there { instance < length object.now.instances }
        ensures made { IfOk result (IsOf object.now instance) }
        ensures ready { Holds rooms.now frame.old → IsOk result }
    {
        let instance = Instance::of(object, instance);
        frame.make_ready(alloc, rooms)?;
        let straight = frame.is_straight(rooms, instance.first());
        Ok(Sharing {
            instance,
            straight,
            frame,
        })
    }
}

impl<'a> Kernel for Sharing<'a> {
    ghost use Rattle.sk_vm.specs.Instantiated.{meaning_of};

    ghost means = { meaning_of };

    fn apply<D: Data>(&mut self, source: &D, at: At) -> Result<Cell, Trap> {
        self.instance.apply(self.frame, source, at)
    }

    fn apply_each<D: Data>(&mut self, source: &D, at: At, out: &mut [Cell]) -> Result<(), RunTrap> {
        self.instance
            .apply_each(self.frame, self.straight, source, at, out)
    }

    fn combine(&mut self, a: Cell, b: Cell) -> Result<Cell, Trap> {
        self.instance.combine(self.frame, a, b)
    }

    fn safe(&self) -> bool {
        self.instance.safe()
    }

    ghost never_traps = { λ kernel. kernel.lawful.never_traps };

    ghost never_traps_joining = { λ kernel. kernel.lawful.never_traps_joining };

    ghost depends_on_reads = { λ kernel. kernel.lawful.depends };
}
