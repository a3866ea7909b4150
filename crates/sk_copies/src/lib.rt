//! Names of stores and of their copies, and one move of cells between two copies.
#![tactic(auto)]

use sk_base::Range;

/// A store: one list of cells. The number is the store's own, and no other store ever gets it.
#[derive(Clone, Copy, PartialEq, Eq, Debug)]
pub struct StoreId {
    pub id: u64,
}

/// A copy: one block of a store, kept in one memory space. The number is the copy's own, and no other copy ever gets it.
#[derive(Clone, Copy, PartialEq, Eq, Debug)]
pub struct CopyId {
    pub id: u64,
}

/// Cells to be moved from one copy to another copy of the same store: those at the store's indices in the range.
#[derive(Clone, Copy, PartialEq, Eq, Debug)]
pub struct Transfer {
    pub from: CopyId,
    pub to: CopyId,
    pub range: Range,
}
