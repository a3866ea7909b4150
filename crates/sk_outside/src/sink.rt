//! A stream that takes bytes piece by piece.
ghost use Rattle.std.specs.Prelude.{◌≡◌, ◌≤◌, ◌⊎◌, OnOk, OnErr, IsErrOf};
ghost use Rattle.std.specs.Io.KnownBytes.{Appends};
ghost use Rattle.sk_outside.specs.Faults.{Rose};
ghost use Rattle.sk_outside.specs.Holding.{SinkHolding, AppendsPrefix};

use crate::WriteAnswer;
use std::alloc::Global;

/// A stream that takes bytes piece by piece.
///
/// It may tell the bytes that it has taken. It counts its faults: the count never falls, and only a call that
/// answers `Failed` raises it.
pub trait Sink {
    ghost holds: { Self → SinkHolding };

    /// Takes a piece, or a prefix of it where it gives up.
    fn put(&mut self, alloc: Global, bytes: &[u8]) -> Result<(), WriteAnswer>
        ensures appends { OnOk result (Appends (holds self.old).taken (holds self.new).taken bytes.now) }
        ensures prefix { OnErr result (AppendsPrefix (holds self.old).taken (holds self.new).taken bytes.now) }

        ensures rose { IsErrOf result WriteAnswer.Failed → Rose (holds self.old).faults (holds self.new).faults }
        ensures steady { IsErrOf result WriteAnswer.Failed ⊎ ((holds self.new).faults ≡ (holds self.old).faults) }
        ensures later { (holds self.old).faults ≤ (holds self.new).faults };
}
