//! Sizes of containers by the names of their methods.
ghost use Rattle.std.specs.Prelude.{◌≡◌, ◌≤◌, [], ◌∷◌, length, codes};
ghost use Rattle.sk_base.specs.Shape.{cells_of};
ghost use Rattle.sk_meaning.specs.Evaluation.{named};
ghost use Rattle.sk_names.specs.Bytes.{same_bytes};
ghost use Rattle.sk_world.specs.World.{size_methods};

use sk_base::Shape;

/// The size of a shape that a method gives; 0 where no method has the name.
pub fn size(shape: &Shape, method: &[u8]) -> u32
    ensures { result ≡ named (codes "size" ∷ size_methods shape.now) (cells_of shape.now ∷ shape.now) method.now }
{
    if is(b"size", method) {
        return shape.cells();
    }
    match shape.sizes() {
        [_] => 0,
        [rows, columns] => of_matrix(*rows, *columns, method),
        [i, j, k] => of_tensor(*i, *j, *k, method),
        [i, j, k, l] => of_four(*i, *j, *k, *l, method),
        _ => unreachable!(),
    }
}

/// Whether a name is this word.
#[inline]
fn is(word: &[u8], name: &[u8]) -> bool
    ensures { result ≡ same_bytes word.now name.now }
{
    word == name
}

fn of_matrix(rows: u32, columns: u32, method: &[u8]) -> u32
    ensures { result ≡ named (codes "total_rows" ∷ codes "total_cols" ∷ []) (rows ∷ columns ∷ []) method.now }
{
    if is(b"total_rows", method) {
        rows
    } else if is(b"total_cols", method) {
        columns
    } else {
        0
    }
}

fn of_tensor(i: u32, j: u32, k: u32, method: &[u8]) -> u32
    ensures { result ≡ named (codes "size_i" ∷ codes "size_j" ∷ codes "size_k" ∷ codes "size_l" ∷ []) (i ∷ j ∷ k ∷ []) method.now }
{
    if is(b"size_i", method) {
        i
    } else if is(b"size_j", method) {
        j
    } else if is(b"size_k", method) {
        k
    } else {
        0
    }
}

fn of_four(i: u32, j: u32, k: u32, l: u32, method: &[u8]) -> u32
    ensures { result ≡ named (codes "size_i" ∷ codes "size_j" ∷ codes "size_k" ∷ codes "size_l" ∷ []) (i ∷ j ∷ k ∷ l ∷ []) method.now }
{
    if is(b"size_i", method) {
        i
    } else if is(b"size_j", method) {
        j
    } else if is(b"size_k", method) {
        k
    } else if is(b"size_l", method) {
        l
    } else {
        0
    }
}
