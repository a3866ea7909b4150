ghost use Rattle.std.specs.Prelude.{◌≡◌};
ghost use Rattle.sk_select.specs.Fields.{field_word};
ghost use Rattle.sk_select.specs.declared.fault.TableFault.TheVariants.{Memory};

use std::alloc::{AllocError, AllocFailed};
use thiserror::Error;

/// Where in a table a fault lies: the table as a whole, a field that none has, or a field of the table or of a rule.
#[derive(Clone, Copy, PartialEq, Eq, Debug)]
pub enum FieldName {
    Table,
    Unknown,
    Ranks,
    Capacity,
    Tile,
    Lineage,
    Rules,
    Skeleton,
    Upto,
    Variant,
    Parts,
}

impl FieldName {
    /// The key of the field in a table, and its name in messages.
    pub fn word(self) -> &'static str
        ensures { result.now ≡ field_word self }
    {
        match self {
            FieldName::Table => "table",
            FieldName::Unknown => "unknown",
            FieldName::Ranks => "ranks",
            FieldName::Capacity => "capacity",
            FieldName::Tile => "tile",
            FieldName::Lineage => "lineage",
            FieldName::Rules => "rules",
            FieldName::Skeleton => "skeleton",
            FieldName::Upto => "upto",
            FieldName::Variant => "variant",
            FieldName::Parts => "parts",
        }
    }
}

/// Why a table is refused.
#[derive(Clone, Copy, PartialEq, Eq, Debug, Error)]
pub enum TableFault {
    /// The bytes are no JSON.
    #[error("the table is no JSON")]
    Json,
    /// A value of another kind, a missing field, or a word that stands for nothing.
    #[error("a fault in a field of the table")]
    Field { name: FieldName },
    /// A number outside its limits, or the number of rules where there are too many.
    #[error("{value} is outside a limit of the table")]
    Limit { name: FieldName, value: u64 },
    #[error("out of memory")]
    Memory,
}

impl From<AllocError> for TableFault {
    ghost from_gives = { λ _ fault. fault ≡ Memory };

    fn from(_error: AllocError) -> TableFault {
        TableFault::Memory
    }
}

impl<T: Drop> From<AllocFailed<T>> for TableFault {
    ghost from_gives = { λ _ fault. fault ≡ Memory };

    fn from(_error: AllocFailed<T>) -> TableFault {
        TableFault::Memory
    }
}
