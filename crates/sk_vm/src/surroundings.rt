ghost use Rattle.std.specs.Prelude.{◌≡◌, ℕ, ℤ, ◌-◌, ◌≤◌, true, List, length, option_map};
ghost use Rattle.sk_arguments.specs.Arguments.{whole_of};
ghost use Rattle.sk_tree.specs.Parameters.{is_proxy_field};
ghost use Rattle.sk_meaning.specs.Evaluation.{Argument, Whole, element_at, field_of};
ghost use Rattle.sk_vm.specs.Places.{FieldIn, IsWhole, matrix_side, side_of, tensor_side};
ghost use Rattle.sk_vm.specs.Surroundings.{IsThere, IsThereIn, held_by, other_in};

use crate::place::coordinate;
use sk_base::{Cell, Shape, Trap, flat};
use sk_kernel::Data;

/// What a function is given for its parameters that are no scalars.
pub trait Surroundings {
    /// What stands for a parameter, by its slot.
    ghost other: { Self → (slot : ℕ) → Argument };

    /// The container that stands for a parameter may be read.
    ghost readable: { Self → (slot : ℕ) → Type 0 };

    /// A field of a parameter.
    fn field(&self, slot: u32, name: &[u8]) -> Cell
        requires there { FieldIn (other self.now slot) name.now }
        requires readable { IsWhole (other self.now slot) → readable self.now slot }
        ensures { result ≡ field_of (other self.now slot) name.now };

    /// An element of a container.
    fn item(&self, slot: u32, place: &[Cell]) -> Result<Cell, Trap>
        requires whole { IsWhole (other self.now slot) }
        requires readable { readable self.now slot }
        ensures { result ≡ element_at (other self.now slot) place.now };
}

/// The place that an index is given, and operands of data as containers. There may be no data.
#[derive(Drop)]
pub struct Given<'a, D> {
    pub source: Option<&'a D>,
    /// The coordinates of the place.
    pub place: &'a [u32],
    /// How many of the parameters are an index, which stands first.
    pub indices: u32,
    /// How many slots stand before the operand of a container but for operands.
    pub skipped: u32,
}

impl<'a, D: Data> Surroundings for Given<'a, D> {
    ghost other = { λ given. other_in (option_map (λ source. D.means source.now) given.source) given.place.now given.indices given.skipped };

    ghost readable = { λ given slot. (given.indices ≤ slot) × (given.skipped ≤ slot) × IsThereIn (option_map (λ source. D.means source.now) given.source) (slot - given.skipped) };

    fn field(&self, slot: u32, name: &[u8]) -> Cell {
        match self.source {
            Some(source) if slot >= self.indices => size(source.shape(slot - self.skipped), name),
            _ => coordinate(self.place, name),
        }
    }

    fn item(&self, slot: u32, place: &[Cell]) -> Result<Cell, Trap> {
        match self.source {
            Some(source) => element(source, slot - self.skipped, place),
            None => unreachable!(),
        }
    }
}

/// A cell of an operand at a place, or the trap outside of it.
#[inline]
fn element<D: Data>(source: &D, operand: u32, place: &[Cell]) -> Result<Cell, Trap>
    requires { IsThere (D.means source.now) operand }
    ensures { result ≡ element_at (whole_of (held_by (D.means source.now)) operand) place.now }
{
    match flat(source.shape(operand), place) {
        Some(index) => Ok(source.cell(operand, index)),
        None => Err(Trap::Index),
    }
}

/// How many cells a container has, or one of its sizes, by its name.
#[inline]
fn size(shape: &Shape, name: &[u8]) -> Cell
    requires { (1 ≤ length shape.now) × (length shape.now ≤ 4) × (is_proxy_field (length shape.now) name.now ≡ true) }
    ensures { (cells : List ℤ) → result ≡ field_of (Whole shape.now cells) name.now }
{
    match side_of(name) {
        Some(side) => Cell::from(shape.sizes()[side]),
        None => Cell::from(shape.cells()),
    }
}

/// Which of a container's sizes has a name, if the name is not that of all of them.
#[inline]
fn side_of(name: &[u8]) -> Option<usize>
    ensures { result ≡ side_of name.now }
{
    match name.get(5) {
        Some(letter) => Some(tensor_side(*letter)),
        None => match name.first() {
            Some(letter) => matrix_side(*letter),
            None => None,
        },
    }
}

/// The side of a tensor: `i`, `j`, `k` or `l`.
#[inline]
fn tensor_side(letter: u8) -> usize
    ensures { result ≡ tensor_side letter }
{
    match letter {
        b'i' => 0,
        b'j' => 1,
        b'k' => 2,
        _ => 3,
    }
}

/// The side of a matrix: `rows` or `cols`.
#[inline]
fn matrix_side(letter: u8) -> Option<usize>
    ensures { result ≡ matrix_side letter }
{
    match letter {
        b'r' => Some(0),
        b'c' => Some(1),
        _ => None,
    }
}
