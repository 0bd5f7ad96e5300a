//! Bytes to work with.
ghost use Rattle.std.specs.Prelude.{◌≡◌, IfOk, vec_len};

use fx_base::Memory;
use std::alloc::Global;

/// So many bytes, for a kernel to work with.
pub fn blank_bytes(alloc: Global, count: usize) -> Result<Vec<u8>, Memory>
    ensures { IfOk result (λ bytes. vec_len bytes ≡ count) }
{
    let mut bytes = Vec::new(alloc);
    bytes.resize(count, 0)?;
    Ok(bytes)
}
