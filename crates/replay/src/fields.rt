// The fields of a case: each a u32 length and as many bytes.
ghost use Rattle.std.specs.Prelude.{◌≤◌, IfOk, IfSome, length};

use filling::fill;
use std::io;
use std::io::Read;

// The longest field.
pub const LONGEST_FIELD: usize = 65536;

// Reads a field's length and its bytes into the front of buf, and answers the length, or none where the field is damaged or too long.
pub fn read_field(cases: &mut impl Read, buf: &mut [u8]) -> io::Result<Option<usize>>
    ensures { IfOk result (λ field. IfSome field (λ len. len ≤ length buf.new)) }
{
    let mut prefix = [0u8; 4];
    if fill(cases, &mut prefix)? != 4 {
        return Ok(None);
    }
    let n = u32::from_le_bytes(prefix) as usize;
    if buf.len() < n {
        return Ok(None);
    }
    let got = fill(cases, &mut buf[..n])?;
    Ok(if got == n { Some(n) } else { None })
}

// Reads a field of exactly four bytes, that hold one u32.
pub fn read_number(cases: &mut impl Read) -> io::Result<Option<u32>> {
    let mut bytes = [0u8; 4];
    Ok(match read_field(cases, &mut bytes)? {
        Some(4) => Some(u32::from_le_bytes(bytes)),
        _ => None,
    })
}
