ghost use Rattle.std.specs.Prelude.{◌≡◌, map, codes};
ghost use Rattle.sk_grammar.specs.Signs.{container_words, skeleton_words};
ghost use Rattle.sk_reader.specs.ParsesAs.{ParsesAs};
ghost use Rattle.sk_reading.specs.Reading.{word_in};
ghost use Rattle.sk_reading.specs.ReadingForms as spec;

use crate::cursor::Cursor;
use crate::stop::Stop;
use sk_base::EdgeMode;
use sk_reading::{Keyword, SettingWord};
use sk_tokens::Sign;
use sk_tree::Skeleton;

static CONTAINERS: [(&[u8], u8); 4] = [
    (b"Vector", 1),
    (b"Matrix", 2),
    (b"Tensor3", 3),
    (b"Tensor4", 4),
];

static SKELETONS: [(&[u8], Skeleton); 8] = [
    (b"Map", Skeleton::Map),
    (b"Reduce", Skeleton::Reduce),
    (b"Scan", Skeleton::Scan),
    (b"MapReduce", Skeleton::MapReduce),
    (b"MapOverlap", Skeleton::MapOverlap),
    (b"MapPairs", Skeleton::MapPairs),
    (b"MapPairsReduce", Skeleton::MapPairsReduce),
    (b"Call", Skeleton::Call),
];

static SETTINGS: [(&[u8], SettingWord); 6] = [
    (b"setStartValue", SettingWord::Start),
    (b"setPad", SettingWord::Pad),
    (b"setOverlap", SettingWord::Overlap),
    (b"setScanMode", SettingWord::Scan),
    (b"setReduceMode", SettingWord::Lines),
    (b"setEdgeMode", SettingWord::Edge),
];

static SCAN_FAMILY: [(&[u8], ()); 1] = [(b"ScanMode", ())];

static REDUCE_FAMILY: [(&[u8], ()); 1] = [(b"ReduceMode", ())];

static EDGE_FAMILY: [(&[u8], ()); 1] = [(b"Edge", ())];

static COUT: [(&[u8], ()); 1] = [(b"cout", ())];

static ENDL: [(&[u8], ()); 1] = [(b"endl", ())];

static SCANS: [(&[u8], bool); 2] = [(b"Inclusive", false), (b"Exclusive", true)];

static LINES: [(&[u8], bool); 2] = [(b"RowWise", false), (b"ColWise", true)];

static EDGES: [(&[u8], EdgeMode); 3] = [
    (b"Duplicate", EdgeMode::Duplicate),
    (b"Cyclic", EdgeMode::Cyclic),
    (b"Pad", EdgeMode::Pad),
];

/// `"Vector" | "Matrix" | "Tensor3" | "Tensor4"`: how many sizes it has.
pub fn container(cursor: &mut Cursor<'_>) -> Result<u8, Stop>
    ensures { ParsesAs (word_in container_words cursor.old) result cursor.new }
{
    cursor.word_in(&CONTAINERS)
}

/// The name of a skeleton.
pub fn skeleton(cursor: &mut Cursor<'_>) -> Result<Skeleton, Stop>
    ensures { ParsesAs (word_in skeleton_words cursor.old) result cursor.new }
{
    cursor.word_in(&SKELETONS)
}

/// `"setStartValue" | "setPad" | "setOverlap" | "setScanMode" | "setReduceMode" | "setEdgeMode"`
pub fn setting_word(cursor: &mut Cursor<'_>) -> Result<SettingWord, Stop>
    ensures { ParsesAs (word_in spec.setting_words cursor.old) result cursor.new }
{
    cursor.word_in(&SETTINGS)
}

/// `"skepu" "::" FAMILY "::" MODE`
#[tactic(auto, unfolding(sk_reading::specs::ReadingForms::mode))]
fn mode<T: Copy>(
    cursor: &mut Cursor<'_>,
    family: &[(&[u8], ())],
    modes: &[(&[u8], T)],
) -> Result<T, Stop>
    ensures { ParsesAs (spec.mode (map (λ entry. (entry.0.now, entry.1)) family.now)
        (map (λ entry. (entry.0.now, entry.1)) modes.now) cursor.old) result cursor.new }
{
    cursor.expect_keyword(Keyword::Skepu)?;
    cursor.expect(Sign::Path)?;
    cursor.word_in(family)?;
    cursor.expect(Sign::Path)?;
    cursor.word_in(modes)
}

/// `"skepu" "::" "ScanMode" "::" ("Inclusive"|"Exclusive")`: whether it is exclusive.
pub fn scan_mode(cursor: &mut Cursor<'_>) -> Result<bool, Stop>
    ensures { ParsesAs (spec.mode (spec.one_word (codes "ScanMode")) spec.scan_words cursor.old) result cursor.new }
{
    mode(cursor, &SCAN_FAMILY, &SCANS)
}

/// `"skepu" "::" "ReduceMode" "::" ("RowWise"|"ColWise")`: whether it goes by columns.
pub fn reduce_mode(cursor: &mut Cursor<'_>) -> Result<bool, Stop>
    ensures { ParsesAs (spec.mode (spec.one_word (codes "ReduceMode")) spec.line_words cursor.old) result cursor.new }
{
    mode(cursor, &REDUCE_FAMILY, &LINES)
}

/// `"skepu" "::" "Edge" "::" ("Duplicate"|"Cyclic"|"Pad")`
pub fn edge_mode(cursor: &mut Cursor<'_>) -> Result<EdgeMode, Stop>
    ensures { ParsesAs (spec.mode (spec.one_word (codes "Edge")) spec.edge_words cursor.old) result cursor.new }
{
    mode(cursor, &EDGE_FAMILY, &EDGES)
}

/// The word `cout`.
pub fn cout(cursor: &mut Cursor<'_>) -> Result<(), Stop>
    ensures { ParsesAs (word_in (spec.one_word (codes "cout")) cursor.old) result cursor.new }
{
    cursor.word_in(&COUT)
}

/// The word `endl`.
pub fn endl(cursor: &mut Cursor<'_>) -> Result<(), Stop>
    ensures { ParsesAs (word_in (spec.one_word (codes "endl")) cursor.old) result cursor.new }
{
    cursor.word_in(&ENDL)
}
