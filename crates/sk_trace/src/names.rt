ghost use Rattle.std.specs.Prelude.{◌≡◌};
ghost use Rattle.sk_trace.specs.Lines.{variant_word, kernel_word, mode_word, edge_word, flag_word};

use sk_base::{EdgeMode, Variant};
use sk_spaces::{CallMode, KernelKind};

/// The word for a variant.
pub fn variant_name(variant: Variant) -> &'static [u8]
    ensures { result.now ≡ variant_word variant }
{
    match variant {
        Variant::Sequential => b"sequential",
        Variant::Chunked => b"chunked",
        Variant::Cluster => b"cluster",
        Variant::Lanes => b"lanes",
    }
}

/// The word for a kind of kernel.
pub fn kernel_name(kind: KernelKind) -> &'static [u8]
    ensures { result.now ≡ kernel_word kind }
{
    match kind {
        KernelKind::Element => b"element",
        KernelKind::Fold => b"fold",
        KernelKind::Join => b"join",
        KernelKind::Scan => b"scan",
        KernelKind::Value => b"value",
    }
}

/// The word for a mode.
pub fn mode_name(mode: CallMode) -> &'static [u8]
    ensures { result.now ≡ mode_word mode }
{
    match mode {
        CallMode::Absent => b"-",
        CallMode::Row => b"row",
        CallMode::Col => b"col",
        CallMode::Incl => b"incl",
        CallMode::Excl => b"excl",
    }
}

/// The word for an edge mode.
pub fn edge_name(edge: EdgeMode) -> &'static [u8]
    ensures { result.now ≡ edge_word edge }
{
    match edge {
        EdgeMode::Duplicate => b"duplicate",
        EdgeMode::Cyclic => b"cyclic",
        EdgeMode::Pad => b"pad",
    }
}

/// 1 where it is so, else 0.
pub fn flag_name(flag: bool) -> &'static [u8]
    ensures { result.now ≡ flag_word flag }
{
    if flag { b"1" } else { b"0" }
}
