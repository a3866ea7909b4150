ghost use Rattle.std.specs.Prelude.{◌≡◌, ◌<◌, length};
ghost use Rattle.sk_isa.specs.Objects.{signature_at};
ghost use Rattle.sk_vm.specs.Entries.{Entered, MayEnter};
ghost use Rattle.sk_vm.specs.Rooms.{instrs_at, slots_at};

use sk_isa::{Instr, Object};
use sk_tree::ParamKind;
use std::marker::Model;

/// A function of a sound program whose parameters stand in order.
#[derive(Drop)]
pub struct Entry<'a> {
    pub object: &'a Object,
    pub function: u32,
}

impl<'a> Model for Entry<'a> {
    ghost Value = { Entered };

    ghost view = { λ e. record { object = e.object.now; function = e.function } };

    ghost invariant = { λ e. MayEnter (record { object = e.object.now; function = e.function }) };
}

impl<'a> Entry<'a> {
    /// Another function of the same program.
    #[inline]
    pub fn of(&self, function: u32) -> Entry<'a>
        requires { function < length self.now.object.functions }
        ensures { result ≡ record { object = self.now.object; function = function } }
    {
        Entry {
            object: self.object,
            function,
        }
    }

    /// Its instructions.
    #[inline]
    pub fn instrs(&self) -> &'a [Instr]
        ensures instrs { result.now ≡ instrs_at self.now.object.functions self.now.function }
        ensures entered { MayEnter self.now }
    {
        let object = self.object;
        object.functions.as_slice()[self.function as usize]
            .instrs
            .as_slice()
    }

    /// How many slots it has.
    #[inline]
    pub fn slot_count(&self) -> usize
        ensures count { result ≡ slots_at self.now.object.functions self.now.function }
        ensures entered { MayEnter self.now }
    {
        self.object.functions.as_slice()[self.function as usize].slots as usize
    }

    /// How many parameters it has.
    #[inline]
    pub fn param_count(&self) -> usize
        ensures { result ≡ length (signature_at self.now.object self.now.function).params }
    {
        self.object.signatures.as_slice()[self.function as usize]
            .params
            .len()
    }

    /// Its parameters.
    #[inline]
    pub fn params(&self) -> &'a [ParamKind]
        ensures params { result.now ≡ (signature_at self.now.object self.now.function).params }
        ensures entered { MayEnter self.now }
    {
        let object = self.object;
        object.signatures.as_slice()[self.function as usize]
            .params
            .as_slice()
    }
}
