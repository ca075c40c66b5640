//! The lines of a text, appended to it. Fields are parted by one space, and each line ends with a line feed.

ghost use Rattle.std.specs.Prelude.{◌≡◌, ◌++◌, OnOk, decimal};
ghost use Rattle.run_traffic.specs.Lines.{line_of};

use itoa::Buffer;
use outside::NoMemory;

/// Appends a number in decimals.
pub fn push_number(text: &mut Vec<u8>, n: u64) -> Result<(), NoMemory>
    ensures { OnOk result (text.new.items ≡ text.old.items ++ decimal n) }
{
    let mut buffer = Buffer::new();
    text.extend_from_slice(buffer.format(n).as_bytes())?;
    Ok(())
}

/// Appends the line of a number and others behind it.
pub fn push_line(text: &mut Vec<u8>, first: u64, others: &[u64]) -> Result<(), NoMemory>
    ensures { OnOk result (text.new.items ≡ text.old.items ++ line_of first others.now) }
{
    push_number(text, first)?;
    for n in others {
        text.push(b' ')?;
        push_number(text, *n)?;
    }
    text.push(b'\n')?;
    Ok(())
}
