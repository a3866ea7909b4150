ghost use Rattle.std.specs.Prelude.{◌≡◌, ◌++◌, IfOk, OnOk};
ghost use Rattle.sk_data.specs.ReadsBack.{ReadsBack};
ghost use Rattle.sk_data.specs.Records.{dumped_record, dumped_text};

use crate::fault::Memory;
use crate::given::Dumped;
use crate::joined::{put_behind, put_joined};
use std::alloc::{AllocError, Global};

/// One record for each container: its name, its shape and its cells in row-major order. Read as input where the inputs
/// are declared as the containers are, it gives them again. Takes time and memory in proportion to the text.
pub fn dump(alloc: Global, containers: &[Dumped]) -> Result<Vec<u8>, Memory>
    ensures text { IfOk result (λ text. text.items ≡ dumped_text containers.now) }
    ensures reads_back { IfOk result (λ text. ReadsBack containers.now text.items) }
{
    text_of(alloc, containers)
}

fn text_of(alloc: Global, containers: &[Dumped]) -> Result<Vec<u8>, Memory>
    ensures { IfOk result (λ text. text.items ≡ dumped_text containers.now) }
{
    let mut out = Vec::new(alloc);
    'containers: for container in containers {
        put_container(&mut out, container)?;
    }
    Ok(out)
}

fn put_container(out: &mut Vec<u8>, container: &Dumped) -> Result<(), AllocError>
    ensures { OnOk result (out.new.items ≡ out.old.items ++ dumped_record container.now) }
{
    out.extend_from_slice(container.name.as_bytes())?;
    out.push(b',')?;
    put_joined(out, b'x', container.shape.sizes())?;
    put_behind(out, b',', container.cells.as_slice())?;
    out.push(b'\n')?;
    Ok(())
}
