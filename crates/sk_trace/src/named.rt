//! What words name. A word that names nothing of the kind is taken for one that does: the step's own line tells.
ghost use Rattle.std.specs.Prelude.{◌≡◌};
ghost use Rattle.sk_names.specs.Bytes.{same_bytes};
ghost use Rattle.sk_trace.specs.Candidates.{type_in, variant_in, kernel_in, mode_in, edge_in, flag_in};

use sk_base::{EdgeMode, Ty, Variant};
use sk_spaces::{CallMode, KernelKind};

/// Whether a word is this one.
pub fn is(word: &[u8], other: &[u8]) -> bool
    ensures { result ≡ same_bytes word.now other.now }
{
    word == other
}

/// The type that a word names.
pub fn type_named(word: &[u8]) -> Ty
    ensures { result ≡ type_in word.now }
{
    if is(word, b"long") { Ty::Long } else { Ty::Int }
}

/// The variant that a word names.
pub fn variant_named(word: &[u8]) -> Variant
    ensures { result ≡ variant_in word.now }
{
    if is(word, b"chunked") {
        Variant::Chunked
    } else if is(word, b"cluster") {
        Variant::Cluster
    } else if is(word, b"lanes") {
        Variant::Lanes
    } else {
        Variant::Sequential
    }
}

/// The kind of kernel that a word names.
pub fn kernel_named(word: &[u8]) -> KernelKind
    ensures { result ≡ kernel_in word.now }
{
    if is(word, b"fold") {
        KernelKind::Fold
    } else if is(word, b"join") {
        KernelKind::Join
    } else if is(word, b"scan") {
        KernelKind::Scan
    } else if is(word, b"value") {
        KernelKind::Value
    } else {
        KernelKind::Element
    }
}

/// The mode that a word names.
pub fn mode_named(word: &[u8]) -> CallMode
    ensures { result ≡ mode_in word.now }
{
    if is(word, b"row") {
        CallMode::Row
    } else if is(word, b"col") {
        CallMode::Col
    } else if is(word, b"incl") {
        CallMode::Incl
    } else if is(word, b"excl") {
        CallMode::Excl
    } else {
        CallMode::Absent
    }
}

/// The edge mode that a word names.
pub fn edge_named(word: &[u8]) -> EdgeMode
    ensures { result ≡ edge_in word.now }
{
    if is(word, b"cyclic") {
        EdgeMode::Cyclic
    } else if is(word, b"pad") {
        EdgeMode::Pad
    } else {
        EdgeMode::Duplicate
    }
}

/// Whether a word says that it is so.
pub fn flag_named(word: &[u8]) -> bool
    ensures { result ≡ flag_in word.now }
{
    is(word, b"1")
}
