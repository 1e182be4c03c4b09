//! Which bytes are a file's name.
ghost use Rattle.std.specs.Prelude.{◌↔◌, IsTrue};
ghost use Rattle.bd_base.specs.Names.{IsName, IsNameByte};

use crate::limits::NAME_SIZE;

/// Whether the byte may stand in a name: `a` to `z`, `0` to `9`, `.`, `_` or `-`.
pub fn is_name_byte(byte: u8) -> bool
    ensures { IsTrue result ↔ IsNameByte byte }
{
    matches!(byte, b'a'..=b'z' | b'0'..=b'9' | b'.' | b'_' | b'-')
}

/// Whether these bytes are a name: 1 to [`NAME_SIZE`] of those that may stand in one.
pub fn is_name(bytes: &[u8]) -> bool
    ensures { IsTrue result ↔ IsName bytes.now }
{
    if bytes.is_empty() || bytes.len() > NAME_SIZE as usize {
        return false;
    }
    bytes.iter().all(|b| is_name_byte(*b))
}
