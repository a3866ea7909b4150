use crate::shared::{Cells, Numbers};
use sk_base::{Cell, EdgeMode, Shape, Ty, Variant};

/// What a kernel of a skeleton call computes.
#[derive(Clone, Copy, PartialEq, Eq, Debug)]
pub enum KernelKind {
    /// The results of a part's units.
    Element,
    /// The fold of a part.
    Fold,
    /// The total of two parts.
    Join,
    /// The prefix folds of a part.
    Scan,
    /// The value of a Call.
    Value,
}

/// How a Reduce or a MapPairsReduce goes over a matrix, or a Scan counts its elements.
#[derive(Clone, Copy, PartialEq, Eq, Debug)]
pub enum CallMode {
    /// The skeleton has no mode.
    Absent,
    /// Along rows.
    Row,
    /// Along columns.
    Col,
    /// With the element itself.
    Incl,
    /// Without the element itself.
    Excl,
}

/// The settings of a skeleton call.
#[derive(Clone, Copy, PartialEq, Eq, Debug)]
pub struct CallSettings {
    pub mode: CallMode,
    /// How far a stencil reads, along rows and along columns.
    pub overlap: (u32, u32),
    pub edge: EdgeMode,
    pub pad: Cell,
    pub start: Option<Cell>,
}

/// One step of a trace. Stores, copies, messages and calls are named by numbers; a range of indices of a store goes from
/// `lo` up to but not including `hi`.
#[derive(PartialEq, Eq, Debug, Drop)]
pub enum Step {
    /// The memories of a run: so many ranks, with so many cells each, and the sizes of its tiles and of its lineage.
    Memory {
        ranks: u32,
        capacity: u32,
        tile: u32,
        lineage: u32,
    },
    /// A new store, without copies.
    Store {
        store: u64,
        ty: Ty,
        shape: Shape,
    },
    /// A new copy of a range of a store, all stale.
    Alloc {
        copy: u64,
        store: u64,
        space: u32,
        lo: u32,
        hi: u32,
    },
    /// A copy goes.
    Free {
        copy: u64,
    },
    /// Every copy of a store becomes stale at a range.
    Stale {
        store: u64,
        lo: u32,
        hi: u32,
    },
    /// A copy is filled from another one.
    Copy {
        from: u64,
        to: u64,
        lo: u32,
        hi: u32,
    },
    /// An owner's cells go to another copy, which becomes owner.
    Back {
        from: u64,
        to: u64,
        lo: u32,
        hi: u32,
    },
    /// A message with the cells of a copy goes on its way to a copy in another space.
    Send {
        message: u64,
        from: u64,
        to: u64,
        lo: u32,
        hi: u32,
    },
    /// A message comes to its copy.
    Deliver {
        message: u64,
    },
    /// A copy in the host's space gets one cell all over a range.
    Fill {
        copy: u64,
        lo: u32,
        hi: u32,
        cell: Cell,
    },
    /// A copy in the host's space gets these cells from `lo` on.
    Write {
        copy: u64,
        lo: u32,
        cells: Cells,
    },
    /// A copy in the host's space gets one cell.
    Poke {
        copy: u64,
        index: u32,
        cell: Cell,
    },
    /// A copy of a store gets the cells of a copy of another store, both in the host's space.
    Clone {
        from: u64,
        to: u64,
        lo: u32,
        hi: u32,
    },
    /// A skeleton call, by the line and the number of its instance, and how it is run.
    Call {
        call: u64,
        line: u32,
        instance: u32,
        variant: Variant,
        parts: u32,
        recorded: bool,
        result: Option<u64>,
        operands: Numbers,
        uniforms: Cells,
        settings: CallSettings,
    },
    /// A kernel of a call, which writes a copy or traps.
    Kernel {
        call: u64,
        kind: KernelKind,
        part: u32,
        lo: u32,
        hi: u32,
        out: u64,
        trapped: Option<u32>,
        inputs: Numbers,
    },
    /// The host reads a range of a copy in its space.
    Read {
        copy: u64,
        lo: u32,
        hi: u32,
    },
    /// A container of the text has this store from now on.
    Bind {
        container: u32,
        store: u64,
    },
    /// A container of the text has no store any more.
    Unbind {
        container: u32,
    },
    /// Every recorded call that is still wanted is computed.
    Flush,
}
