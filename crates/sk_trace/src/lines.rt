ghost use Rattle.std.specs.Prelude.{◌≡◌, [], ◌∷◌, ◌++◌, OnOk, map};
ghost use Rattle.std.specs.Fmt.{decimal, signed_decimal};
ghost use Rattle.sk_names.specs.Words.{type_word};
ghost use Rattle.sk_words.specs.Strung.{spaced};
ghost use Rattle.sk_trace.specs.Words.{comma_list, or_absent};
ghost use Rattle.sk_trace.specs.Lines.{shape_word, variant_word, flag_word, kernel_word, settings_word, fields_of, line_of};

use crate::keyword::Keyword;
use crate::names::{edge_name, flag_name, kernel_name, mode_name, variant_name};
use crate::words::{put_list, put_optional, put_spaced, put_strung};
use sk_base::{Cell, Shape, Ty, Variant};
use sk_spaces::{CallSettings, Numbers, Step};
use sk_words::{put_word, type_name};
use std::alloc::AllocError;

/// A number of 32 bits as one of 64, as all numbers of a line are put.
fn wide(number: u32) -> u64
    ensures { result ≡ number }
{
    u64::from(number)
}

/// Appends numbers behind blanks, and then cells.
fn put_with_cells(out: &mut Vec<u8>, numbers: &[u64], cells: &[Cell]) -> Result<(), AllocError>
    ensures { OnOk result (out.new.items ≡ out.old.items ++ spaced (map decimal numbers.now ++ map signed_decimal cells.now)) }
{
    put_spaced(out, numbers)?;
    put_spaced(out, cells)?;
    Ok(())
}

/// Appends a store, its type and its shape.
fn put_store(out: &mut Vec<u8>, store: u64, ty: Ty, shape: &Shape) -> Result<(), AllocError>
    ensures { OnOk result (out.new.items ≡
        out.old.items ++ spaced (decimal store ∷ type_word ty ∷ shape_word shape.now ∷ [])) }
{
    put_spaced(out, &[store])?;
    put_word(out, type_name(ty))?;
    put_strung(out, b"x", b" ", shape.sizes())?;
    Ok(())
}

/// Appends the settings of a call, with colons between.
fn put_settings(out: &mut Vec<u8>, settings: &CallSettings) -> Result<(), AllocError>
    ensures { OnOk result (out.new.items ≡ out.old.items ++ spaced (settings_word settings.now ∷ [])) }
{
    put_word(out, mode_name(settings.mode))?;
    put_strung(out, b":", b":", &[settings.overlap.0, settings.overlap.1])?;
    out.push(b':')?;
    out.extend_from_slice(edge_name(settings.edge))?;
    put_strung(out, b":", b":", &[settings.pad])?;
    put_optional(out, b":", &settings.start)?;
    Ok(())
}

/// Appends how a call is run: its variant, its parts, and 1 where it is recorded.
fn put_way(
    out: &mut Vec<u8>,
    variant: Variant,
    parts: u32,
    recorded: bool,
) -> Result<(), AllocError>
    ensures { OnOk result (out.new.items ≡
        out.old.items ++ spaced (variant_word variant ∷ decimal parts ∷ flag_word recorded ∷ [])) }
{
    put_word(out, variant_name(variant))?;
    put_spaced(out, &[parts])?;
    put_word(out, flag_name(recorded))?;
    Ok(())
}

/// Appends the store of a call's result, if it has one, and the stores of its operands.
fn put_stores(
    out: &mut Vec<u8>,
    written: &Option<u64>,
    operands: &Numbers,
) -> Result<(), AllocError>
    ensures { OnOk result (out.new.items ≡
        out.old.items ++ spaced (or_absent decimal written.now ∷ comma_list (map decimal operands.now) ∷ [])) }
{
    put_optional(out, b" ", written)?;
    put_list(out, operands.as_slice())?;
    Ok(())
}

/// Appends the words behind a step's first, each behind a blank.
fn put_fields(out: &mut Vec<u8>, step: &Step) -> Result<(), AllocError>
    ensures { OnOk result (out.new.items ≡ out.old.items ++ spaced (fields_of step.now)) }
{
    match step {
        Step::Memory {
            ranks,
            capacity,
            tile,
            lineage,
        } => {
            put_spaced(
                out,
                &[wide(*ranks), wide(*capacity), wide(*tile), wide(*lineage)],
            )
        }
        Step::Store { store, ty, shape } => put_store(out, *store, *ty, shape),
        Step::Alloc {
            copy,
            store,
            space,
            lo,
            hi,
        } => { put_spaced(out, &[*copy, *store, wide(*space), wide(*lo), wide(*hi)]) }
        Step::Stale { store, lo, hi } => put_spaced(out, &[*store, wide(*lo), wide(*hi)]),
        Step::Copy { from, to, lo, hi } => put_spaced(out, &[*from, *to, wide(*lo), wide(*hi)]),
        Step::Back { from, to, lo, hi } => put_spaced(out, &[*from, *to, wide(*lo), wide(*hi)]),
        Step::Clone { from, to, lo, hi } => put_spaced(out, &[*from, *to, wide(*lo), wide(*hi)]),
        Step::Send {
            message,
            from,
            to,
            lo,
            hi,
        } => { put_spaced(out, &[*message, *from, *to, wide(*lo), wide(*hi)]) }
        Step::Fill { copy, lo, hi, cell } => put_with_cells(
            out,
            &[*copy, wide(*lo), wide(*hi)],
            &[*cell],
        ),
        Step::Write { copy, lo, cells } => put_with_cells(
            out,
            &[*copy, wide(*lo)],
            cells.as_slice(),
        ),
        Step::Poke { copy, index, cell } => put_with_cells(out, &[*copy, wide(*index)], &[*cell]),
        Step::Read { copy, lo, hi } => put_spaced(out, &[*copy, wide(*lo), wide(*hi)]),
        Step::Bind { container, store } => put_spaced(out, &[wide(*container), *store]),
        Step::Unbind { container } => put_spaced(out, &[wide(*container)]),
        Step::Free { copy } => put_spaced(out, &[*copy]),
        Step::Deliver { message } => put_spaced(out, &[*message]),
        Step::Flush => Ok(()),
        Step::Call {
            call,
            line,
            instance,
            variant,
            parts,
            recorded,
            result,
            operands,
            uniforms,
            settings,
        } => {
            put_spaced(out, &[*call, wide(*line), wide(*instance)])?;
            put_way(out, *variant, *parts, *recorded)?;
            put_stores(out, result, operands)?;
            put_list(out, uniforms.as_slice())?;
            put_settings(out, settings)
        }
        Step::Kernel {
            call,
            kind,
            part,
            lo,
            hi,
            out: written,
            trapped,
            inputs,
        } => {
            put_spaced(out, &[*call])?;
            put_word(out, kernel_name(*kind))?;
            put_spaced(out, &[wide(*part), wide(*lo), wide(*hi), *written])?;
            put_optional(out, b" ", trapped)?;
            put_list(out, inputs.as_slice())
        }
    }
}

/// Appends the line of a step, without its line feed.
pub fn put_line(out: &mut Vec<u8>, step: &Step) -> Result<(), AllocError>
    ensures { OnOk result (out.new.items ≡ out.old.items ++ line_of step.now) }
{
    out.extend_from_slice(Keyword::of(step).word())?;
    put_fields(out, step)
}
