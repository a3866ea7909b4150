ghost use Rattle.std.specs.Prelude.{◌≡◌, map, IfOk};
ghost use Rattle.sk_typing.specs.TypingInstances as instances;
ghost use Rattle.sk_typing.specs.TypingNames as names;

use crate::kinds::region_of;
use crate::places::numbers;
use sk_tree::{Function, Param, Setting, Skeleton};
use sk_typing::{FaultKind, Made, Use};
use std::alloc::{AllocError, Global};

/// Whether a skeleton has a start value.
fn has_start(skeleton: Skeleton) -> bool
    ensures { result ≡ instances.has_start skeleton }
{
    matches!(
        skeleton,
        Skeleton::Reduce | Skeleton::Scan | Skeleton::MapReduce | Skeleton::MapPairsReduce
    )
}

/// Whether a skeleton may go by lines.
fn has_lines(skeleton: Skeleton) -> bool
    ensures { result ≡ instances.has_lines skeleton }
{
    matches!(skeleton, Skeleton::Reduce | Skeleton::MapPairsReduce)
}

/// Whether a skeleton is Scan.
fn is_scan(skeleton: Skeleton) -> bool
    ensures { result ≡ instances.is_scan skeleton }
{
    matches!(skeleton, Skeleton::Scan)
}

/// Whether a skeleton is MapOverlap.
fn is_overlap(skeleton: Skeleton) -> bool
    ensures { result ≡ instances.is_overlap skeleton }
{
    matches!(skeleton, Skeleton::MapOverlap)
}

/// How many values an overlap takes: two where the region has two dimensions and two are given, and otherwise one.
fn overlap_count(params: &[Param], count: usize) -> usize
    ensures { result ≡ instances.overlap_count (map (λ param. param.kind) params.now) count }
{
    match region_of(params) {
        Some((dimension, _)) => { if dimension == 2 && count == 2 { 2 } else { 1 } }
        None => 1,
    }
}

/// So many values, where the skeleton has the setting.
fn takes_if(alloc: Global, fits: bool, count: usize) -> Result<Use, AllocError>
    ensures { IfOk result (λ used. used ≡ instances.takes_if fits (names.numbers count)) }
{
    if fits {
        let places = numbers(alloc, count)?;
        Ok(Use::Takes(places))
    } else {
        Ok(Use::Wrong(FaultKind::Mismatch))
    }
}

/// What an instance takes in a setting.
pub(crate) fn setting_use(
    alloc: Global,
    made: Made,
    function: &Function,
    setting: &Setting,
) -> Result<Use, AllocError>
    ensures { IfOk result (λ used. used ≡ instances.setting_use made function.now setting.now) }
{
    match setting {
        Setting::Start(_) => takes_if(alloc, has_start(made.skeleton), 1),
        Setting::Scan(_) => takes_if(alloc, is_scan(made.skeleton), 0),
        Setting::Lines(_) => takes_if(alloc, has_lines(made.skeleton), 0),
        Setting::Overlap(values) => {
            let count = overlap_count(function.params.as_slice(), values.len());
            takes_if(alloc, is_overlap(made.skeleton), count)
        }
        Setting::Edge(_) => takes_if(alloc, is_overlap(made.skeleton), 0),
        Setting::Pad(_) => takes_if(alloc, is_overlap(made.skeleton), 1),
    }
}
