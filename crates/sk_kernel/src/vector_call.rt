ghost use Rattle.sk_kernel.specs.VectorLaws.{vector-holds-inside};
ghost use Rattle.sk_kernel.specs.Vectors.{vector_source};

use crate::kernel::Data;
use sk_base::{Cell, Shape};

/// A whole vector as the one operand of a call, with its shape, which is the result's too, and the uniform arguments.
#[derive(Drop)]
pub struct VectorCall<'a> {
    pub cells: &'a [Cell],
    pub shape: &'a Shape,
    pub uniforms: &'a [Cell],
}

impl<'a> Data for VectorCall<'a> {
    ghost means = { λ call. vector_source call.cells.now call.shape.now call.uniforms.now };

    fn cell(&self, _operand: u32, index: u32) -> Cell {
        self.cells[index as usize]
    }

    fn column(&self, _operand: u32, from: u32, count: u32) -> &[Cell] {
        let from = from as usize;
        &self.cells[from..from + count as usize]
    }

    fn shape(&self, _operand: u32) -> &Shape {
        self.shape
    }

    fn uniform(&self, k: u32) -> Cell {
        self.uniforms[k as usize]
    }

    fn over(&self) -> &Shape {
        self.shape
    }

    ghost holds_inside = { λ call. vector-holds-inside call.cells.now call.shape.now call.uniforms.now };
}
