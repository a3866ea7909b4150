//! What calls are given: uniform arguments alone, or live containers beside them.
ghost use Rattle.std.specs.Prelude.{◌≡◌, ℕ, ◌<◌, ◌≤◌, ◌+◌, length, slice_get, Some, IsSome};
ghost use Rattle.std.specs.Option.{option_copied};
ghost use Rattle.sk_host.specs.Passed.{map_source, passed_source, sizes_held};
ghost use Rattle.sk_host.specs.PassedLaws.{passed-holds-inside};
ghost use Rattle.sk_host.specs.Stores.{kept_at};
ghost use Rattle.sk_meaning.specs.Evaluation.{kind_type};

use crate::held::Held;
use sk_base::{Cell, Shape, Ty, convert};
use sk_kernel::Data;
use sk_tree::ParamKind;

/// The container with a number, if it is there.
#[inline]
pub fn find(store: &[Option<Held>], number: u32) -> Option<&Held>
    ensures { option_copied result ≡ kept_at store.now number }
{
    match store.get(number as usize) {
        Some(Some(held)) => Some(held),
        _ => None,
    }
}

/// The shape of the container with a number, or another where it is not there.
#[inline]
pub fn shape_or<'a>(store: &'a [Option<Held>], other: &'a Shape, number: u32) -> &'a Shape
    ensures { result.now ≡ sizes_held other.now (kept_at store.now number) }
{
    match find(store, number) {
        Some(held) => held.shape(),
        None => other,
    }
}

/// A parameter.
#[inline]
fn kind_at(kinds: &[ParamKind], k: usize) -> &ParamKind
    requires { k < length kinds.now }
    ensures { slice_get kinds.now k ≡ Some result.now }
{
    &kinds[k]
}

/// The type of a scalar parameter.
#[inline]
fn kind_type(kind: &ParamKind) -> Ty
    ensures { result ≡ kind_type kind.now }
{
    match kind {
        ParamKind::Scalar(ty) | ParamKind::Proxy(_, ty) | ParamKind::Region(_, ty) => *ty,
        ParamKind::Index(_) => Ty::Int,
    }
}

/// What a Map is given: the operands by number, the uniform arguments with the parameters that they are for, and the shape
/// of the result. A uniform argument is converted to its parameter's type where it is read.
#[derive(Drop)]
pub struct MapCall<'a> {
    pub store: &'a [Option<Held>],
    pub operands: &'a [u32],
    pub kinds: &'a [ParamKind],
    pub uniforms: &'a [Cell],
    pub over: &'a Shape,
}

impl<'a> MapCall<'a> {
    /// A cell of an operand by its row-major index.
    fn cell(&self, operand: u32, index: u32) -> Cell
        requires held { IsSome ((map_source self.now).held operand index) }
        ensures { (map_source self.now).held operand index ≡ Some result }
    {
        match find(self.store, self.operands[operand as usize]) {
            Some(held) => held.cells()[index as usize],
            None => unreachable!(),
        }
    }

    /// The cells of an operand from one on.
    fn column(&self, operand: u32, from: u32, count: u32) -> &[Cell]
        requires some { 0 < count }
        requires held { (index : ℕ) → from ≤ index → index < from + count → IsSome ((map_source self.now).held operand index) }
        ensures some { 0 < length result.now }
        ensures most { length result.now ≤ count }
        ensures cells { (k : ℕ) → k < length result.now → (map_source self.now).held operand (from + k) ≡ slice_get result.now k }
    {
        match find(self.store, self.operands[operand as usize]) {
            Some(held) => {
                let from = from as usize;
                &held.cells()[from..from + count as usize]
            }
            None => unreachable!(),
        }
    }

    /// The sizes of an operand.
    fn shape(&self, operand: u32) -> &Shape
        requires there { operand < length (map_source self.now).shapes }
        ensures { slice_get (map_source self.now).shapes operand ≡ Some result.now }
    {
        shape_or(self.store, self.over, self.operands[operand as usize])
    }

    /// A uniform argument, of its parameter's type.
    fn uniform(&self, k: u32) -> Cell
        requires there { k < length (map_source self.now).uniforms }
        ensures { slice_get (map_source self.now).uniforms k ≡ Some result }
    {
        let k = k as usize;
        convert(kind_type(kind_at(self.kinds, k)), self.uniforms[k])
    }
}

/// What a call is given: the arguments of a function in an expression, or what a Map is given.
#[derive(Drop)]
pub enum Passed<'a> {
    Function(&'a [Cell]),
    Map(&'a MapCall<'a>),
}

impl<'a> Data for Passed<'a> {
    ghost means = { passed_source };

    fn cell(&self, operand: u32, index: u32) -> Cell {
        match self {
            Passed::Function(_) => unreachable!(),
            Passed::Map(call) => call.cell(operand, index),
        }
    }

    fn column(&self, operand: u32, from: u32, count: u32) -> &[Cell] {
        match self {
            Passed::Function(_) => unreachable!(),
            Passed::Map(call) => call.column(operand, from, count),
        }
    }

    fn shape(&self, operand: u32) -> &Shape {
        match self {
            Passed::Function(_) => unreachable!(),
            Passed::Map(call) => call.shape(operand),
        }
    }

    fn uniform(&self, k: u32) -> Cell {
        match self {
            Passed::Function(arguments) => arguments[k as usize],
            Passed::Map(call) => call.uniform(k),
        }
    }

    fn over(&self) -> &Shape {
        match self {
            Passed::Function(_) => unreachable!(),
            Passed::Map(call) => call.over,
        }
    }

    ghost holds_inside = { passed-holds-inside };
}
