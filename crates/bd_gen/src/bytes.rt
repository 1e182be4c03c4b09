//! The same byte in a row.
ghost use Rattle.std.specs.Prelude.{◌≡◌, IfOk};
ghost use Rattle.bd_gen.specs.Bytes.{repeated};

use bd_base::{Bytes, List, OutOfMemory};
use std::alloc::Global;

/// So many times this byte.
pub(crate) fn repeated(alloc: Global, count: usize, byte: u8) -> Result<Bytes, OutOfMemory>
    ensures { IfOk result (λ bytes. bytes ≡ repeated count byte) }
{
    Ok(List::from_vec(vec![in alloc; byte; count]?))
}
