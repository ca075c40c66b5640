//! Numbers as a command line spells them. One function reads them all.
ghost use Rattle.std.specs.Prelude.{◌≡◌};
ghost use Rattle.std.specs.Char.{is_ascii_digit};
ghost use Rattle.std.specs.List.{list_all};
ghost use Rattle.command_words.specs.Number.{is_well_spelled, number_within};

/// Whether each byte is a digit.
fn has_only_digits(text: &[u8]) -> bool
    ensures { result ≡ list_all is_ascii_digit text.now }
{
    text.iter().all(|byte| byte.is_ascii_digit())
}

/// Whether the text is `0`, or a digit 1 to 9 followed by digits.
fn is_well_spelled(text: &[u8]) -> bool
    ensures { result ≡ is_well_spelled text.now }
{
    match text.first() {
        None => false,
        Some(b'0') => text.len() == 1,
        Some(_) => has_only_digits(text),
    }
}

/// The number that the text spells, where it is well spelled and lies from `least` to `most`.
pub fn number_within(text: &str, least: u64, most: u64) -> Option<u64>
    ensures { result ≡ number_within least most text.now }
{
    if !is_well_spelled(text.as_bytes()) {
        return None;
    }
    match text.parse::<u64>() {
        Ok(n) if least <= n && n <= most => Some(n),
        _ => None,
    }
}
