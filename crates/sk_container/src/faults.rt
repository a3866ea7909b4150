//! Why a container is not made, or an element is not reached.
ghost use Rattle.std.specs.Prelude.{◌≡◌};
ghost use Rattle.sk_container.specs.declared.faults.ContainerFault.TheVariants as container;
ghost use Rattle.sk_container.specs.declared.faults.PlaceFault.TheVariants as place;

use sk_spaces::Memory;
use thiserror::Error;

/// Why a container is not made.
#[derive(Clone, Copy, PartialEq, Eq, Debug, Error)]
pub enum ContainerFault {
    /// There is no shape with these sizes.
    #[error("no shape")]
    Shape,
    /// Want of memory.
    #[error("out of memory")]
    Memory,
}

impl From<Memory> for ContainerFault {
    ghost from_gives = { λ _ answer. answer ≡ container.Memory };

    fn from(_: Memory) -> ContainerFault {
        ContainerFault::Memory
    }
}

/// Why an element is not reached.
#[derive(Clone, Copy, PartialEq, Eq, Debug, Error)]
pub enum PlaceFault {
    /// The place is outside the container.
    #[error("outside")]
    Index,
    /// Want of memory.
    #[error("out of memory")]
    Memory,
}

impl From<Memory> for PlaceFault {
    ghost from_gives = { λ _ answer. answer ≡ place.Memory };

    fn from(_: Memory) -> PlaceFault {
        PlaceFault::Memory
    }
}
