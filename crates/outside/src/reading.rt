//! Reading the rest of the open file whole, up to a limit.
ghost use Rattle.std.specs.Prelude.{◌≡◌, ◌≢◌, ◌+◌, ◌<◌, ◌≤◌, length, drop, IfOk, IfSome, IsErrOf};
ghost use Rattle.std.specs.Io.KnownBytes.{IsAtEnd};
ghost use Rattle.outside.specs.Count.{Rose};
ghost use Rattle.outside.specs.Files.{Blames, TakesAtMost};

use crate::{AllError, Files};
use std::alloc::{AllocError, Global};

/// How many bytes are asked for at once.
const PIECE: usize = 65536;

/// All that is left of the open file, if that is at most `limit` bytes. It never reads more than `limit + 1`.
pub fn read_all<F: Files>(alloc: Global, files: &mut F, limit: u64) -> Result<Vec<u8>, AllError>
    ensures whole { IfOk result (λ bytes. (length bytes.items ≤ limit)
        × IfSome (F.left files.old) (λ rest. bytes.items ≡ rest) × IsAtEnd (F.left files.new)) }
    ensures longer { IsErrOf result AllError.Longer → IfSome (F.left files.old) (λ rest.
        (limit < length rest) × (F.left files.new ≡ Some (drop (limit + 1) rest))) }
    ensures fault { IsErrOf result AllError.ReadFault
        → Rose (F.faults files.old) (F.faults files.new) × Blames (F.at files.old) (F.blamed files.new) }
    ensures memory { IsErrOf result AllError.NoMemory → TakesAtMost (limit + 1) (F.left files.old) (F.left files.new) }
    ensures stays_open { (result ≢ Err AllError.ReadFault)
        → (F.at files.new ≡ F.at files.old) × (F.blamed files.new ≡ F.blamed files.old) }
    ensures kept { F.held files.new ≡ F.held files.old }
    ensures counts { (F.faults files.old ≤ F.faults files.new) × (F.misses files.old ≤ F.misses files.new) }
    ensures reliable { F.reliable files.old → (result ≢ Err AllError.ReadFault)
        × (F.faults files.new ≡ F.faults files.old) × F.reliable files.new }
{
    let mut buffer = zeros(alloc, PIECE)?;
    let piece = buffer.as_mut_slice();
    let mut bytes = Vec::new(alloc);
    loop {
        let within = limit - bytes.len() as u64;
        let want = one_more(within, piece.len());
        let Ok(count) = files.read(&mut piece[..want]) else {
            return Err(AllError::ReadFault);
        };
        if count == 0 {
            return Ok(bytes);
        }
        if count as u64 > within {
            return Err(AllError::Longer);
        }
        bytes.extend_from_slice(&piece[..count])?;
    }
}

/// `count` zeros.
fn zeros(alloc: Global, count: usize) -> Result<Vec<u8>, AllocError>
    ensures { IfOk result (λ bytes. length bytes.items ≡ count) }
{
    vec![in alloc; 0u8; count]
}

/// One byte more than may come, and at most a piece.
fn one_more(within: u64, piece: usize) -> usize
    requires { 0 < piece }
    ensures some { 0 < result }
    ensures piece { result ≤ piece }
    ensures more { result ≤ within + 1 }
{
    if within < piece as u64 {
        within as usize + 1
    } else {
        piece
    }
}
