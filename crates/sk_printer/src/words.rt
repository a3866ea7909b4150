ghost use Rattle.std.specs.Prelude.{◌≡◌, ◌++◌, OnOk, codes};
ghost use Rattle.std.specs.Fmt.{signed_decimal};
ghost use Rattle.sk_names.specs.Words.{type_word};
ghost use Rattle.sk_printed.specs.WordText.{operator_text, prefix_text, number_text, suffix_text, index_text, proxy_text, region_text, kind_text, skeleton_text, edge_text};
ghost use Rattle.sk_words.specs.Escapes.{escaped, quoted};
ghost use Rattle.sk_words.specs.Kinds.{kind_word};

use sk_base::{Cell, EdgeMode, Op, Ty};
use sk_tree::{ParamKind, Skeleton, Un};
use sk_words::{put_signed, type_name};
use std::alloc::AllocError;

/// The sign of an operator.
pub fn operator(op: Op) -> &'static [u8]
    ensures { result.now ≡ operator_text op }
{
    match op {
        Op::Add => b"+",
        Op::Sub => b"-",
        Op::Mul => b"*",
        Op::Div => b"/",
        Op::Rem => b"%",
        Op::Shl => b"<<",
        Op::Shr => b">>",
        Op::Lt => b"<",
        Op::Le => b"<=",
        Op::Gt => b">",
        Op::Ge => b">=",
        Op::Eq => b"==",
        Op::Ne => b"!=",
        Op::And => b"&",
        Op::Or => b"|",
        Op::Xor => b"^",
    }
}

/// The sign of a prefix operator.
pub fn prefix(op: Un) -> &'static [u8]
    ensures { result.now ≡ prefix_text op }
{
    match op {
        Un::Neg => b"-",
        Un::Inv => b"~",
        Un::Not => b"!",
    }
}

/// The name of an index of so many places.
fn index(sizes: u8) -> &'static [u8]
    ensures { result.now ≡ index_text sizes }
{
    match sizes {
        1 => b"Index1D",
        2 => b"Index2D",
        3 => b"Index3D",
        _ => b"Index4D",
    }
}

/// The name of a whole container of so many sizes, as a parameter.
fn proxy(sizes: u8) -> &'static [u8]
    ensures { result.now ≡ proxy_text sizes }
{
    match sizes {
        1 => b"Vec",
        2 => b"Mat",
        3 => b"Ten3",
        _ => b"Ten4",
    }
}

/// The name of the elements round a place, in one or two directions.
fn region(sizes: u8) -> &'static [u8]
    ensures { result.now ≡ region_text sizes }
{
    match sizes {
        1 => b"Region1D",
        _ => b"Region2D",
    }
}

/// The name of a skeleton.
pub fn skeleton(skeleton: Skeleton) -> &'static [u8]
    ensures { result.now ≡ skeleton_text skeleton }
{
    match skeleton {
        Skeleton::Map => b"Map",
        Skeleton::Reduce => b"Reduce",
        Skeleton::Scan => b"Scan",
        Skeleton::MapReduce => b"MapReduce",
        Skeleton::MapOverlap => b"MapOverlap",
        Skeleton::MapPairs => b"MapPairs",
        Skeleton::MapPairsReduce => b"MapPairsReduce",
        Skeleton::Call => b"Call",
    }
}

/// The name of what stands beyond an edge.
pub fn edge(mode: EdgeMode) -> &'static [u8]
    ensures { result.now ≡ edge_text mode }
{
    match mode {
        EdgeMode::Duplicate => b"Duplicate",
        EdgeMode::Cyclic => b"Cyclic",
        EdgeMode::Pad => b"Pad",
    }
}

/// Appends the type of a parameter.
pub fn put_kind(out: &mut Vec<u8>, kind: ParamKind) -> Result<(), AllocError>
    ensures { OnOk result (out.new.items ≡ out.old.items ++ kind_text kind) }
{
    match kind {
        ParamKind::Scalar(ty) => out.extend_from_slice(type_name(ty)),
        ParamKind::Index(sizes) => {
            out.extend_from_slice(b"skepu::")?;
            out.extend_from_slice(index(sizes))
        }
        ParamKind::Proxy(sizes, ty) => put_view(out, proxy(sizes), ty),
        ParamKind::Region(sizes, ty) => put_view(out, region(sizes), ty),
    }
}

/// Appends the type of a parameter that sees elements.
fn put_view(out: &mut Vec<u8>, view: &[u8], ty: Ty) -> Result<(), AllocError>
    ensures { OnOk result (out.new.items ≡ out.old.items ++ (codes "skepu::" ++ view.now ++ codes "<" ++ type_word ty ++ codes ">")) }
{
    out.extend_from_slice(b"skepu::")?;
    out.extend_from_slice(view)?;
    out.extend_from_slice(b"<")?;
    out.extend_from_slice(type_name(ty))?;
    out.extend_from_slice(b">")
}

/// Appends a number of this type.
pub fn put_number(out: &mut Vec<u8>, ty: Ty, value: Cell) -> Result<(), AllocError>
    ensures { OnOk result (out.new.items ≡ out.old.items ++ number_text ty value) }
{
    put_signed(out, value)?;
    out.extend_from_slice(suffix(ty, value))
}

/// The suffix of a number.
fn suffix(ty: Ty, value: Cell) -> &'static [u8]
    ensures { result.now ≡ suffix_text ty value }
{
    match ty {
        Ty::Long if value <= 2_147_483_647 => b"L",
        _ => b"",
    }
}
