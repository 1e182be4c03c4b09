//! Numbers and zeros at the end of an image that is being written. Numbers are little-endian.
ghost use Rattle.std.specs.Prelude.{◌≡◌, ◌≤◌, ◌++◌, replicate, OnOk};
ghost use Rattle.bd_base.specs.declared.limits.TheConstants.{BLOCK_SIZE};
ghost use Rattle.byteorder.specs.Endian.{little_bytes};

use bd_base::OutOfMemory;
use byteorder::{ByteOrder, LittleEndian};

/// Appends a number of two bytes.
pub(crate) fn push_u16(out: &mut Vec<u8>, n: u16) -> Result<(), OutOfMemory>
    ensures { OnOk result (out.new.items ≡ out.old.items ++ little_bytes 2 n) }
{
    let mut field = [0; 2];
    LittleEndian::write_u16(&mut field, n);
    out.extend_from_slice(&field)?;
    Ok(())
}

/// Appends a number of four bytes.
pub(crate) fn push_u32(out: &mut Vec<u8>, n: u32) -> Result<(), OutOfMemory>
    ensures { OnOk result (out.new.items ≡ out.old.items ++ little_bytes 4 n) }
{
    let mut field = [0; 4];
    LittleEndian::write_u32(&mut field, n);
    out.extend_from_slice(&field)?;
    Ok(())
}

/// Appends a number of eight bytes.
pub(crate) fn push_u64(out: &mut Vec<u8>, n: u64) -> Result<(), OutOfMemory>
    ensures { OnOk result (out.new.items ≡ out.old.items ++ little_bytes 8 n) }
{
    let mut field = [0; 8];
    LittleEndian::write_u64(&mut field, n);
    out.extend_from_slice(&field)?;
    Ok(())
}

/// Appends zeros.
pub(crate) fn push_zeros(out: &mut Vec<u8>, count: usize) -> Result<(), OutOfMemory>
    requires { count ≤ BLOCK_SIZE }
    ensures { OnOk result (out.new.items ≡ out.old.items ++ replicate count 0) }
{
    out.resize(out.len() + count, 0)?;
    Ok(())
}
