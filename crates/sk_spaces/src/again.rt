//! A step once more.
ghost use Rattle.std.specs.Prelude.{◌≡◌, IfOk};

use crate::memory::Memory;
use crate::step::Step;

impl Step {
    /// An equal step, which shares its lists. It takes no memory, and fails only where a list has as many owners as can be
    /// counted.
    pub fn again(&self) -> Result<Step, Memory>
        ensures { IfOk result (λ step. step ≡ self.now) }
    {
        Ok(match *self {
            Step::Memory {
                ranks,
                capacity,
                tile,
                lineage,
            } => Step::Memory {
                ranks,
                capacity,
                tile,
                lineage,
            },
            Step::Store {
                store,
                ty,
                ref shape,
            } => Step::Store {
                store,
                ty,
                shape: shape.again(),
            },
            Step::Alloc {
                copy,
                store,
                space,
                lo,
                hi,
            } => Step::Alloc {
                copy,
                store,
                space,
                lo,
                hi,
            },
            Step::Free { copy } => Step::Free { copy },
            Step::Stale { store, lo, hi } => Step::Stale { store, lo, hi },
            Step::Copy { from, to, lo, hi } => Step::Copy { from, to, lo, hi },
            Step::Back { from, to, lo, hi } => Step::Back { from, to, lo, hi },
            Step::Send {
                message,
                from,
                to,
                lo,
                hi,
            } => Step::Send {
                message,
                from,
                to,
                lo,
                hi,
            },
            Step::Deliver { message } => Step::Deliver { message },
            Step::Fill { copy, lo, hi, cell } => Step::Fill { copy, lo, hi, cell },
            Step::Write {
                copy,
                lo,
                ref cells,
            } => Step::Write {
                copy,
                lo,
                cells: cells.again()?,
            },
            Step::Poke { copy, index, cell } => Step::Poke { copy, index, cell },
            Step::Clone { from, to, lo, hi } => Step::Clone { from, to, lo, hi },
            Step::Call {
                call,
                line,
                instance,
                variant,
                parts,
                recorded,
                result,
                ref operands,
                ref uniforms,
                settings,
            } => Step::Call {
                call,
                line,
                instance,
                variant,
                parts,
                recorded,
                result,
                operands: operands.again()?,
                uniforms: uniforms.again()?,
                settings,
            },
            Step::Kernel {
                call,
                kind,
                part,
                lo,
                hi,
                out,
                trapped,
                ref inputs,
            } => Step::Kernel {
                call,
                kind,
                part,
                lo,
                hi,
                out,
                trapped,
                inputs: inputs.again()?,
            },
            Step::Read { copy, lo, hi } => Step::Read { copy, lo, hi },
            Step::Bind { container, store } => Step::Bind { container, store },
            Step::Unbind { container } => Step::Unbind { container },
            Step::Flush => Step::Flush,
        })
    }
}
