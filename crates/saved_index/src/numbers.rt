//! Numbers of four bytes, the lowest first, and those of a leaf, each put down as a member.
ghost use Rattle.std.specs.Prelude.{◌≡◌, ◌+◌, ◌*◌, ◌<◌, ◌≤◌, ◌⊎◌, length, drop, Some, None, IfOk, IfErr, IfSome, IfNone, IsErrOf};
ghost use Rattle.byteorder.specs.Endian.{little_number};
ghost use Rattle.saved_index.specs.Parsed.{AreNumbersRead};
ghost use Rattle.saved_index.specs.Reading.{numbers_in};
ghost use Rattle.saved_index.specs.declared.error.IndexFault.TheVariants.{NotIndex, NoMemory};

use crate::error::IndexFault;
use byteorder::{ByteOrder, LittleEndian};
use isax_word::{Full, Member};

/// The number in the four bytes from a place on; None where there are fewer.
pub(crate) fn number_at(bytes: &[u8], at: usize) -> Option<u32>
    requires { at ≤ length bytes.now }
    ensures some { IfSome result (λ n. (4 ≤ length (drop at bytes.now)) × (n ≡ little_number 4 (drop at bytes.now))) }
    ensures none { IfNone result (length (drop at bytes.now) < 4) }
{
    if bytes.len() - at < 4 {
        return None;
    }
    Some(LittleEndian::read_u32(&bytes[at..]))
}

/// `many` numbers from place `from` on, strictly ascending and below `count`, each put behind the members as one with this word; and the place
/// behind them. After an error some of them may stand there.
pub(crate) fn read_numbers(
    bytes: &[u8],
    from: usize,
    many: u32,
    count: u32,
    word: Full,
    members: &mut Vec<Member>,
) -> Result<usize, IndexFault>
    requires { from ≤ length bytes.now }
    ensures read { IfOk result (λ to. AreNumbersRead bytes.now many to (numbers_in many 0 count (drop from bytes.now)) members.old.items members.new.items) }
    ensures within { IfOk result (λ to. (from + 4 * many ≤ to) × (to ≤ length bytes.now)) }
    ensures kept { length members.old.items ≤ length members.new.items }
    ensures refused { IsErrOf result NotIndex → numbers_in many 0 count (drop from bytes.now) ≡ None }
    ensures errors { IfErr result (λ e. (e ≡ NotIndex) ⊎ (e ≡ NoMemory)) }
{
    let mut at = from;
    let mut least = 0;
    for _i in 0..many {
        let Some(number) = number_at(bytes, at) else {
            return Err(IndexFault::NotIndex);
        };
        if number < least || number >= count {
            return Err(IndexFault::NotIndex);
        }
        members.push(Member { number, full: word })?;
        least = number + 1;
        at += 4;
    }
    Ok(at)
}
