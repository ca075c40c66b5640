//! Small series files, spelled by hand.

use outside::NoMemory;
use std::alloc::Global;

/// Four series of four values each.
pub const VALUES: [i16; 16] = [0, 0, 0, 0, 10, 10, 10, 10, -10, -10, -10, -10, 0, 0, 10, 10];

/// A file of version 1 with these values.
pub fn spelled(
    alloc: Global,
    length: u16,
    count: u32,
    values: &[i16],
) -> Result<Vec<u8>, NoMemory> {
    let mut bytes = b"ISER\x01\0".to_vec(alloc)?;
    bytes.extend_from_slice(&length.to_le_bytes())?;
    bytes.extend_from_slice(&count.to_le_bytes())?;
    bytes.extend_from_slice(&[0u8; 4])?;
    for value in values {
        bytes.extend_from_slice(&value.to_le_bytes())?;
    }
    Ok(bytes)
}
