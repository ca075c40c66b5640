//! The lines of a script, read without their line feeds. Reading a line takes no memory.

ghost use Rattle.std.specs.Prelude.{◌≡◌, ◌≢◌, ℕ, true, List, Some, IfSome, IfNone, MatchOption};
ghost use Rattle.live_script.specs.Lines.{lacks, IsName, IsCount, IsAsked, IsCut, Says, IsNoLine, asked_text};

use itoa::Buffer;
use memchr::memchr;
use series_core::MAX_BEST;

/// What a line says.
#[derive(Clone, Copy)]
pub enum Line<'a> {
    /// Append the batch of this file.
    Append(&'a str),
    /// Ask the queries of this file for this number of series.
    Ask(&'a str, u32),
}

/// What the line says, where it is in the grammar.
pub fn read_line(line: &[u8]) -> Option<Line<'_>>
    requires one_line { lacks 10 line.now ≡ true }
    ensures { MatchOption result (IsNoLine line.now) (Says line.now) }
{
    if let Some(batch) = line.strip_prefix(b"append ") {
        let name = read_name(batch)?;
        return Some(Line::Append(name));
    }
    let asked = line.strip_prefix(b"ask ")?;
    let (name, k) = read_asked(asked)?;
    Some(Line::Ask(name, k))
}

// The name and the number that stand in the text, parted by a space.
fn read_asked(text: &[u8]) -> Option<(&str, u32)>
    requires one_line { lacks 10 text.now ≡ true }
    ensures found { IfSome result (λ x. IsAsked x.0.now x.1 × (text.now ≡ asked_text x.0.now x.1)) }
    ensures none { IfNone result ((name : List ℕ) (k : ℕ) → IsAsked name k → text.now ≢ asked_text name k) }
{
    let (front, behind) = cut(text, b' ')?;
    let name = read_name(front)?;
    let k = read_count(behind)?;
    Some((name, k))
}

// The name of a file, where these bytes of a line are one.
fn read_name(bytes: &[u8]) -> Option<&str>
    requires one_line { lacks 10 bytes.now ≡ true }
    ensures { MatchOption result (IsName bytes.now → ⊥) (λ name. IsName bytes.now × (name.now ≡ bytes.now)) }
{
    let Ok(name) = str::from_utf8(bytes) else {
        return None;
    };
    if name.is_empty() || memchr(b' ', bytes).is_some() {
        return None;
    }
    Some(name)
}

// The number of 1 to 1024 that these bytes spell, where they spell one as it is printed.
fn read_count(bytes: &[u8]) -> Option<u32>
    ensures found { IfSome result (IsCount bytes.now) }
    ensures only { (k : ℕ) → IsCount bytes.now k → result ≡ Some k }
{
    let Ok(text) = str::from_utf8(bytes) else {
        return None;
    };
    let Ok(k) = text.parse::<u32>() else {
        return None;
    };
    let mut buffer = Buffer::new();
    let is_printed = buffer.format(k).as_bytes() == bytes;
    if 1 <= k && k <= MAX_BEST && is_printed {
        Some(k)
    } else {
        None
    }
}

/// What stands in front of the first such byte of a text, and what stands behind it.
pub fn cut(text: &[u8], byte: u8) -> Option<(&[u8], &[u8])>
    ensures { MatchOption result (lacks byte text.now ≡ true) (λ x. IsCut byte text.now x.0.now x.1.now) }
{
    let at = memchr(byte, text)?;
    Some((&text[..at], &text[at + 1..]))
}
