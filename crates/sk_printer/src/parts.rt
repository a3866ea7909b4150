ghost use Rattle.std.specs.Prelude.{◌≡◌, ◌++◌, OnOk, map, codes, if◌then◌else◌};
ghost use Rattle.std.specs.Fmt.{signed_decimal};
ghost use Rattle.std.specs.List.{flat_map};
ghost use Rattle.sk_printed.specs.WordText.{skeleton_text};
ghost use Rattle.sk_printed.specs.ExpressionText.{text_of};
ghost use Rattle.sk_printed.specs.StatementText.{item_text, setting_text, numbers_text, instance_text, container_type_text};
ghost use Rattle.sk_names.specs.Words.{type_word};

use crate::expressions::{put, put_applied, put_placed};
use crate::words::{edge, skeleton};
use sk_base::{Cell, Ty};
use sk_names::Name;
use sk_tree::{Expr, Instance, Item, Setting, Skeleton};
use sk_words::{kind_name, put_names, put_quoted, put_signed_list, type_name};
use std::alloc::AllocError;

/// Appends what a declaration of a container begins with.
pub fn put_container_type(out: &mut Vec<u8>, sizes: u8, element: Ty) -> Result<(), AllocError>
    ensures { OnOk result (out.new.items ≡ out.old.items ++ container_type_text sizes (type_word element)) }
{
    out.extend_from_slice(b"skepu::")?;
    out.extend_from_slice(kind_name(sizes))?;
    out.extend_from_slice(b"<")?;
    out.extend_from_slice(type_name(element))?;
    out.extend_from_slice(b"> ")
}

/// Appends the numbers of an instance, which are none or stand between `<` and `>`.
fn put_numbers(out: &mut Vec<u8>, numbers: &[Cell]) -> Result<(), AllocError>
    ensures { OnOk result (out.new.items ≡ out.old.items ++ numbers_text numbers.now) }
{
    if numbers.is_empty() {
        return Ok(());
    }
    out.extend_from_slice(b"<")?;
    put_signed_list(out, numbers)?;
    out.extend_from_slice(b">")
}

/// Appends what the declaration of an instance begins with.
fn put_head(out: &mut Vec<u8>, name: &Name, kind: Skeleton) -> Result<(), AllocError>
    ensures { OnOk result (out.new.items ≡ out.old.items ++ (codes "auto " ++ name.now ++ codes " = skepu::" ++ skeleton_text kind)) }
{
    out.extend_from_slice(b"auto ")?;
    out.extend_from_slice(name.as_bytes())?;
    out.extend_from_slice(b" = skepu::")?;
    out.extend_from_slice(skeleton(kind))
}

/// Appends the declaration of an instance.
pub fn put_instance(out: &mut Vec<u8>, instance: &Instance) -> Result<(), AllocError>
    ensures { OnOk result (out.new.items ≡ out.old.items ++ instance_text instance.now) }
{
    put_head(out, &instance.name, instance.skeleton)?;
    put_numbers(out, instance.numbers.as_slice())?;
    out.extend_from_slice(b"(")?;
    put_names(out, instance.functions.as_slice())?;
    out.extend_from_slice(b")")
}

/// The mode that a scan is set to: whether a place has its own element in its sum.
fn scan_mode(exclusive: bool) -> &'static [u8]
    ensures { result.now ≡ (if exclusive then codes "Exclusive" else codes "Inclusive") }
{
    if exclusive {
        b"Exclusive"
    } else {
        b"Inclusive"
    }
}

/// The mode that a reduction of a matrix is set to: along columns or rows.
fn reduce_mode(columns: bool) -> &'static [u8]
    ensures { result.now ≡ (if columns then codes "ColWise" else codes "RowWise") }
{
    if columns { b"ColWise" } else { b"RowWise" }
}

/// Appends a setting that takes the word of a mode.
fn put_mode(out: &mut Vec<u8>, before: &[u8], mode: &[u8]) -> Result<(), AllocError>
    ensures { OnOk result (out.new.items ≡ out.old.items ++ (before.now ++ mode.now ++ codes ")")) }
{
    out.extend_from_slice(before)?;
    out.extend_from_slice(mode)?;
    out.extend_from_slice(b")")
}

/// Appends a setting that takes a value.
fn put_valued(out: &mut Vec<u8>, before: &[u8], value: &Expr) -> Result<(), AllocError>
    ensures { OnOk result (out.new.items ≡ out.old.items ++ (before.now ++ text_of value.now ++ codes ")")) }
{
    out.extend_from_slice(before)?;
    put(out, value)?;
    out.extend_from_slice(b")")
}

/// Appends a setting with its value.
pub fn put_setting(out: &mut Vec<u8>, setting: &Setting) -> Result<(), AllocError>
    ensures { OnOk result (out.new.items ≡ out.old.items ++ setting_text setting.now) }
{
    match setting {
        Setting::Start(value) => put_valued(out, b"setStartValue(", value),
        Setting::Scan(exclusive) => put_mode(
            out,
            b"setScanMode(skepu::ScanMode::",
            scan_mode(*exclusive),
        ),
        Setting::Lines(columns) => put_mode(
            out,
            b"setReduceMode(skepu::ReduceMode::",
            reduce_mode(*columns),
        ),
        Setting::Overlap(values) => put_applied(out, b"setOverlap", values.as_slice()),
        Setting::Edge(mode) => put_mode(out, b"setEdgeMode(skepu::Edge::", edge(*mode)),
        Setting::Pad(value) => put_valued(out, b"setPad(", value),
    }
}

/// Appends one printed item.
fn put_item(out: &mut Vec<u8>, item: &Item) -> Result<(), AllocError>
    ensures { OnOk result (out.new.items ≡ out.old.items ++ item_text item.now) }
{
    match item {
        Item::Value(value) => put_placed(out, 9, value),
        Item::Text(text) => put_quoted(out, text.as_bytes()),
        Item::End => out.extend_from_slice(b"std::endl"),
    }
}

/// Appends printed items, each behind `<<`.
pub fn put_items(out: &mut Vec<u8>, items: &[Item]) -> Result<(), AllocError>
    ensures { OnOk result (out.new.items ≡ out.old.items ++ flat_map (λ item. codes " << " ++ item_text item) items.now) }
{
    for item in items {
        out.extend_from_slice(b" << ")?;
        put_item(out, item)?;
    }
    Ok(())
}
