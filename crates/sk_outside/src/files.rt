//! Files by name, read and written whole.
ghost use Rattle.std.specs.Prelude.{◌≡◌, ◌≤◌, ◌⊎◌, IfOk, OnOk, IsErrOf, Some, vec_len};
ghost use Rattle.sk_outside.specs.Faults.{Rose};
ghost use Rattle.sk_outside.specs.Holding.{FilesHolding, Tells, TellsLonger, TellsAbsent, KeepsOthers};

use crate::{FileAnswer, WriteAnswer};
use std::alloc::Global;

/// Files that are read and written whole, by name.
///
/// An object may tell what each name holds. It counts the faults of its reads and of its writes, and keeps beside
/// each count the name that the last failed call was given. The counts never fall, and only a call that answers
/// `Failed` raises one: so a caller can show of each fault that it answers where it came from.
pub trait Files {
    ghost holds: { Self → FilesHolding };

    /// The whole contents of the named file, of at most `limit` bytes.
    fn read_all(&mut self, alloc: Global, name: &str, limit: usize) -> Result<Vec<u8>, FileAnswer>
        ensures within { IfOk result (λ bytes. vec_len bytes ≤ limit) }
        ensures whole { IfOk result (λ bytes. Tells (holds self.old).contents name.now bytes.items) }
        ensures long { IsErrOf result FileAnswer.Long → TellsLonger (holds self.old).contents name.now limit }
        ensures absent { TellsAbsent (holds self.old).contents name.now →
            IsErrOf result FileAnswer.Failed ⊎ IsErrOf result FileAnswer.Memory }
        ensures contents { (holds self.new).contents ≡ (holds self.old).contents }

        ensures rose { IsErrOf result FileAnswer.Failed →
            Rose (holds self.old).reads.count (holds self.new).reads.count }
        ensures named { IsErrOf result FileAnswer.Failed → (holds self.new).reads.name ≡ Some name.now }
        ensures steady { IsErrOf result FileAnswer.Failed ⊎ ((holds self.new).reads ≡ (holds self.old).reads) }
        ensures later { (holds self.old).reads.count ≤ (holds self.new).reads.count }
        ensures writes { (holds self.new).writes ≡ (holds self.old).writes };

    /// Gives the named file these contents, and makes it where it is absent.
    fn write_all(&mut self, alloc: Global, name: &str, bytes: &[u8]) -> Result<(), WriteAnswer>
        ensures written { OnOk result (Tells (holds self.new).contents name.now bytes.now) }
        ensures others { KeepsOthers name.now (holds self.old).contents (holds self.new).contents }

        ensures rose { IsErrOf result WriteAnswer.Failed →
            Rose (holds self.old).writes.count (holds self.new).writes.count }
        ensures named { IsErrOf result WriteAnswer.Failed → (holds self.new).writes.name ≡ Some name.now }
        ensures steady { IsErrOf result WriteAnswer.Failed ⊎ ((holds self.new).writes ≡ (holds self.old).writes) }
        ensures later { (holds self.old).writes.count ≤ (holds self.new).writes.count }
        ensures reads { (holds self.new).reads ≡ (holds self.old).reads };
}
