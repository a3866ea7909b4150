ghost use Rattle.std.specs.Prelude.{◌≡◌, ◌++◌, length, map, max, Option, OnOk, IfOk};
ghost use Rattle.std.specs.Option.{option_map};
ghost use Rattle.sk_main_emitter.specs.Names.{named_of, made_in};
ghost use Rattle.sk_main_emitter.specs.Statements.{set_named};
ghost use Rattle.sk_main_scheme.specs.MainScheme as scheme;
ghost use Rattle.sk_main_scheme.specs.MainScheme.{main_piece};
ghost use Rattle.sk_scheme.specs.Pieces as pieces;

use crate::instances::region_type;
use crate::named::{Made, Named};
use crate::names::InMain;
use crate::values::places;
use sk_base::{EdgeMode, Ty};
use sk_emitter::{address, put, wanted};
use sk_isa::Instr;
use sk_names::Name;
use sk_tree::{Expr, Setting, Skeleton};
use std::alloc::{AllocError, Global};
use std::cmp::max;

/// The word of an edge mode.
fn edge_word(mode: EdgeMode) -> &'static [u8]
    ensures { result.now ≡ scheme.edge_word mode }
{
    match mode {
        EdgeMode::Duplicate => b"Edge::Duplicate",
        EdgeMode::Cyclic => b"Edge::Cyclic",
        EdgeMode::Pad => b"Edge::Pad",
    }
}

/// The word of a setting, or of a mode.
fn setting_word(setting: &Setting) -> &'static [u8]
    ensures { result.now ≡ scheme.setting_word setting.now }
{
    match setting {
        Setting::Start(_) => b"setStartValue",
        Setting::Pad(_) => b"setPad",
        Setting::Overlap(_) => b"setOverlap",
        Setting::Scan(true) => b"ScanMode::Exclusive",
        Setting::Scan(false) => b"ScanMode::Inclusive",
        Setting::Lines(true) => b"ReduceMode::ColWise",
        Setting::Lines(false) => b"ReduceMode::RowWise",
        Setting::Edge(mode) => edge_word(*mode),
    }
}

/// How many values a setting has.
fn count(setting: &Setting) -> usize
    ensures { result ≡ length (scheme.setting_values setting.now) }
{
    match setting {
        Setting::Start(_) | Setting::Pad(_) => 1,
        Setting::Overlap(values) => values.len(),
        Setting::Scan(_) | Setting::Lines(_) | Setting::Edge(_) => 0,
    }
}

/// Appends the one value of a setting, as a value of a type: its depth.
fn one(
    alloc: Global,
    code: &mut Vec<Instr>,
    names: &InMain<'_>,
    ty: Ty,
    value: &Expr,
) -> Result<usize, AllocError>
    ensures code { OnOk result (code.new.items ≡ code.old.items ++ pieces.wanted_code ty (main_piece value.now) names.now (length code.old.items)) }
    ensures depth { IfOk result (λ depth. depth ≡ max ((main_piece value.now).depth names.now) 1) }
{
    let depth = wanted(alloc, code, names, ty, value)?;
    Ok(max(depth, 1))
}

/// Appends the values of a setting of an instance: their depth.
fn values(
    alloc: Global,
    code: &mut Vec<Instr>,
    names: &InMain<'_>,
    made: Made<'_>,
    setting: &Setting,
) -> Result<usize, AllocError>
    ensures code { OnOk result (code.new.items ≡ code.old.items ++ scheme.setting_code (made_in made.entry) setting.now names.now (length code.old.items)) }
    ensures depth { IfOk result (λ depth. depth ≡ pieces.parts_depth (map main_piece (scheme.setting_values setting.now)) names.now) }
{
    match setting {
        Setting::Start(value) => one(alloc, code, names, made.ret, value),
        Setting::Pad(value) => {
            let ty = region_type(made.params, made.ret);
            one(alloc, code, names, ty, value)
        }
        Setting::Overlap(values) => places(alloc, code, names, values.as_slice()),
        Setting::Scan(_) => Ok(0),
        Setting::Lines(_) => Ok(0),
        Setting::Edge(_) => Ok(0),
    }
}

/// Appends a setting of an instance: its depth.
fn set_made(
    alloc: Global,
    code: &mut Vec<Instr>,
    names: &InMain<'_>,
    made: Made<'_>,
    setting: &Setting,
) -> Result<usize, AllocError>
    ensures code { OnOk result (code.new.items ≡ code.old.items ++ set_named (Option.Some (scheme.Called (made_in made.entry))) setting.now names.now (length code.old.items)) }
    ensures depth { IfOk result (λ depth. depth ≡ pieces.parts_depth (map main_piece (scheme.setting_values setting.now)) names.now) }
{
    let depth = values(alloc, code, names, made, setting)?;
    let word = Name::from_slice(alloc, setting_word(setting))?;
    put(
        code,
        Instr::Set(made.number, word, address(count(setting))?),
    )?;
    Ok(depth)
}

/// The depth of a setting of what is no instance, which is not compiled.
fn unset(
    alloc: Global,
    code: &mut Vec<Instr>,
    names: &InMain<'_>,
    setting: &Setting,
) -> Result<usize, AllocError>
    ensures code { OnOk result (code.new.items ≡ code.old.items) }
    ensures depth { IfOk result (λ depth. depth ≡ pieces.parts_depth (map main_piece (scheme.setting_values setting.now)) names.now) }
{
    let start = code.len();
    let made = Made {
        number: 0,
        skeleton: Skeleton::Map,
        elements: 0,
        params: &[],
        ret: Ty::Int,
    };
    let depth = values(alloc, code, names, made, setting)?;
    code.truncate(start);
    Ok(depth)
}

/// Appends a setting of what a name stands for: its depth.
pub(crate) fn set(
    alloc: Global,
    code: &mut Vec<Instr>,
    names: &InMain<'_>,
    named: Option<Named<'_>>,
    setting: &Setting,
) -> Result<usize, AllocError>
    ensures code { OnOk result (code.new.items ≡ code.old.items ++ set_named (option_map named_of named.entry) setting.now names.now (length code.old.items)) }
    ensures depth { IfOk result (λ depth. depth ≡ pieces.parts_depth (map main_piece (scheme.setting_values setting.now)) names.now) }
{
    match named {
        Some(Named::Called(made)) => set_made(alloc, code, names, made, setting),
        Some(Named::Number(_, _)) => unset(alloc, code, names, setting),
        Some(Named::Whole(_, _)) => unset(alloc, code, names, setting),
        None => unset(alloc, code, names, setting),
    }
}
