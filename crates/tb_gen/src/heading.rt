// The beginning of a file.

ghost use Rattle.std.specs.Prelude.{◌≡◌, IfOk};

use std::alloc::Global;
use tb_base::Memory;

/// A file that has its header alone, with room for so many bytes in all.
pub(crate) fn headed(alloc: Global, header: &[u8], room: usize) -> Result<Vec<u8>, Memory>
    ensures { IfOk result (λ file. file.items ≡ header.now) }
{
    let mut file = Vec::with_capacity(alloc, room)?;
    file.extend_from_slice(header)?;
    Ok(file)
}
