use sk_base::Variant;
use sk_tree::Skeleton;
use sqlite_items::Items;
use std::alloc::Global;

/// The most cells of a rank, and as many as there are where a table does not say.
pub(crate) const MOST_CELLS: u32 = 1 << 26;

/// What a table holds where it does not say.
pub(crate) const DEFAULT_RANKS: u32 = 1;

pub(crate) const DEFAULT_TILE: u32 = 1024;

pub(crate) const DEFAULT_LINEAGE: u32 = 1024;

/// Calls of a skeleton on at most `upto` elements are run by this variant, cut into this many parts.
#[derive(Clone, Copy, PartialEq, Eq, Debug)]
pub struct Rule {
    pub skeleton: Skeleton,
    pub upto: u64,
    pub variant: Variant,
    /// 1 to 256, and at most the table's ranks where the variant is cluster.
    pub parts: u32,
}

/// What a tuning table says (SkePU's back-end specification and its tuned plans).
#[derive(Debug, Drop)]
pub struct Tuning {
    /// Workers with a memory of their own: 1 to 16.
    pub ranks: u32,
    /// Cells that the memory of one rank holds: 1 to 2^26.
    pub capacity: u32,
    /// Cells that are computed together: 1 to 65,536.
    pub tile: u32,
    /// Recorded calls that are kept: 1 to 65,536.
    pub lineage: u32,
    /// At most 1,024; of those that fit a call the first one counts.
    pub rules: Items<Rule>,
}

impl Tuning {
    ghost use Rattle.std.specs.Prelude.{◌≡◌, Ok};
    ghost use Rattle.serde_json.specs.Data.{object, no_members};
    ghost use Rattle.sk_select.specs.Table.{table_of};

    /// What holds without a table: what an object without fields says.
    #[tactic(auto, unfolding(crate::specs::Table::table_of, crate::specs::Table::rules_in, crate::specs::Fields::number_in, crate::specs::Fields::fields_checked))]
    pub fn new(alloc: Global) -> Tuning
        ensures { table_of (object no_members) ≡ Ok result }
    {
        Tuning {
            ranks: DEFAULT_RANKS,
            capacity: MOST_CELLS,
            tile: DEFAULT_TILE,
            lineage: DEFAULT_LINEAGE,
            rules: Items::new(alloc),
        }
    }
}
