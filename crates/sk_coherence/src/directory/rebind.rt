//! Cells that are written anew.
ghost use Rattle.std.specs.Prelude.{◌≡◌, ◌≢◌, ℕ, ◌+◌, ◌<◌, IfSome, IsSome};
ghost use Rattle.sk_copy_states.specs.Stores.{changes_in, len_in};
ghost use Rattle.sk_coherence_laws.specs.Directory.{store_at};
ghost use Rattle.sk_coherence_laws.specs.Rebinds.{Rebinds};
ghost use Rattle.sk_coherence_laws.specs.Traced.{TracesStep};

use crate::directory::{Directory, note_ready};
use sk_base::Range;
use sk_copies::StoreId;
use sk_copy_states::copies::stale_all;
use sk_copy_states::stores::rebind;
use sk_spaces::{Journal, Step};

impl<J: Journal> Directory<J> {
    /// All cells of a store are to be written anew: every copy of it is stale, messages over it are spoilt, and its host block is
    /// the whole store from then on. A copy of the store was acquired for writing, which made room for this; it takes no memory.
    /// It costs a change of each copy's states, and a look at the messages as a write does.
    pub fn rebind(&mut self, store: StoreId)
        requires there { IsSome (store_at self.old store.id) }
        requires acquired { 0 < changes_in (store_at self.old store.id) }
        requires owed { 0 < self.old.owed }
        ensures rebound { Rebinds self.old self.new store.id }
        ensures traced { TracesStep self.old self.new (Step.Stale store.id 0 (len_in (store_at self.old store.id))) }
    {
        let Some(listed) = self.stores.get(&store.id) else {
            return;
        };
        let whole = Range {
            lo: 0,
            hi: listed.shape().cells(),
        };
        stale_all(&mut self.copies, listed.copies(), store.id, whole);
        self.messages.spoil(store.id, whole);
        rebind(&mut self.stores, store.id);
        self.owed -= 1;
        self.ready -= 1;
        let step = Step::Stale {
            store: store.id,
            lo: whole.lo,
            hi: whole.hi,
        };
        note_ready(&mut self.spaces, self.alloc, step);
    }
}
