use crate::frame::Frame;
use crate::instance::Instance;
use sk_base::{Cell, Trap};
use sk_isa::Object;
use sk_kernel::{At, Data, Kernel, RunTrap};
use std::alloc::{AllocError, Global};
use std::marker::Model;

/// An instance of a compiled program as a kernel, with a frame of its own.
#[derive(Debug, Drop)]
pub struct Coded<'a> {
    instance: Instance<'a>,
    straight: bool,
    frame: Frame,
}

impl<'a> Model for Coded<'a> {
    ghost use Rattle.sk_vm.specs.Instantiated.{Instantiated, Serves};

    ghost Value = { Instantiated };

    ghost view = { λ c. c.instance };

    ghost invariant = { λ c. Serves c.instance c.frame };
}

impl<'a> Coded<'a> {
    ghost use Rattle.std.specs.Prelude.{◌≡◌, ◌<◌, length, IfOk};
    ghost use Rattle.sk_isa.specs.SoundObjects.{HasSoundFunctions};
    ghost use Rattle.sk_vm.specs.Instantiated.{IsOf};
    ghost use Rattle.sk_vm.specs.Places.{TakesPlaces};

    /// An instance by its number, with room for all its calls.
    pub fn new(alloc: Global, object: &'a Object, instance: u32) -> Result<Coded<'a>, AllocError>
        requires sound { HasSoundFunctions object.now }
        requires parameters { TakesPlaces object.now }
        requires there { instance < length object.now.instances }
        ensures { IfOk result (IsOf object.now instance) }
    {
        let instance = Instance::of(object, instance);
        let height = instance.height();
        let frame = instance.frame(alloc, height)?;
        Ok(Coded {
            instance,
            straight: height > 0,
            frame,
        })
    }
}

impl<'a> Kernel for Coded<'a> {
    ghost use Rattle.sk_vm.specs.Instantiated.{meaning_of};

    ghost means = { meaning_of };

    fn apply<D: Data>(&mut self, source: &D, at: At) -> Result<Cell, Trap> {
        self.instance.apply(&mut self.frame, source, at)
    }

    fn apply_each<D: Data>(&mut self, source: &D, at: At, out: &mut [Cell]) -> Result<(), RunTrap> {
        self.instance
            .apply_each(&mut self.frame, self.straight, source, at, out)
    }

    fn combine(&mut self, a: Cell, b: Cell) -> Result<Cell, Trap> {
        self.instance.combine(&mut self.frame, a, b)
    }

    fn safe(&self) -> bool {
        self.instance.safe()
    }

    ghost never_traps = { λ kernel. kernel.lawful.never_traps };

    ghost never_traps_joining = { λ kernel. kernel.lawful.never_traps_joining };

    ghost depends_on_reads = { λ kernel. kernel.lawful.depends };
}
