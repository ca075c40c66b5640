//! The script that the words name: its name, its bytes, and what it says.

ghost use Rattle.std.specs.Prelude.{◌≡◌, ℕ, ◌≤◌, List, IfOk, IfErr, length, map, string_bytes};
ghost use Rattle.live_run.specs.Ends.{Names, can_name};
ghost use Rattle.live_run.specs.Loads.{HoldsScript, RefusesScript, most_bytes};
ghost use Rattle.run_traffic.specs.Named.{HoldsBytes};
ghost use Rattle.run_traffic.specs.Traffic.{read_from};
ghost use Rattle.live_run.specs.declared.status.LiveStatus.TheVariants.{Usage};

use crate::file::open;
use crate::status::LiveStatus;
use live_script::{Script, ScriptError, read_script};
use outside::{AllError, Files, read_all};
use std::alloc::Global;

/// The most bytes that a script may have.
pub const MOST_BYTES: u64 = 1048576;

/// The name of the script that the words name.
pub fn script_name(words: &[String]) -> Result<&str, LiveStatus>
    ensures named { IfOk result (λ name. Names (map string_bytes words.now) name.now) }
    ensures usage { IfErr result (λ status. (status ≡ Usage)
        × ((name : List ℕ) → Names (map string_bytes words.now) name → ⊥)) }
{
    match words {
        [word] if can_name(word.as_str()) => Ok(word.as_str()),
        _ => Err(LiveStatus::Usage),
    }
}

// Whether a word can name a script.
fn can_name(word: &str) -> bool
    ensures { result ≡ can_name word.now }
{
    match word.as_bytes().first() {
        Some(first) => *first != b'-',
        None => false,
    }
}

/// Reads the script of this name.
pub fn load_script<F: Files>(alloc: Global, files: &mut F, name: &str) -> Result<Script, LiveStatus>
    ensures holds { IfOk result (HoldsScript (F.held files.old) name.now) }
    ensures refused { IfErr result (RefusesScript
        (read_from F.Files files.old files.new) name.now) }
    ensures kept { F.held files.new ≡ F.held files.old }
    ensures counts { (F.faults files.old ≤ F.faults files.new) × (F.misses files.old ≤ F.misses files.new) }
{
    let bytes = read_bytes(alloc, files, name)?;
    match read_script(alloc, &bytes) {
        Ok(script) => Ok(script),
        Err(ScriptError::Line(at)) => Err(LiveStatus::Script(at)),
        Err(ScriptError::NoMemory) => Err(LiveStatus::Memory),
    }
}

// All bytes of the script of this name.
fn read_bytes<F: Files>(alloc: Global, files: &mut F, name: &str) -> Result<Vec<u8>, LiveStatus>
    ensures short { IfOk result (λ bytes. length bytes.items ≤ most_bytes) }
    ensures holds { IfOk result (λ bytes. HoldsBytes (F.held files.old) name.now (λ b. b ≡ bytes.items)) }
    ensures refused { IfErr result (RefusesScript
        (read_from F.Files files.old files.new) name.now) }
    ensures kept { F.held files.new ≡ F.held files.old }
    ensures counts { (F.faults files.old ≤ F.faults files.new) × (F.misses files.old ≤ F.misses files.new) }
{
    open(files, name, 0)?;
    match read_all(alloc, files, MOST_BYTES) {
        Ok(bytes) => Ok(bytes),
        Err(AllError::Longer) => Err(LiveStatus::Script(0)),
        Err(AllError::ReadFault) => Err(LiveStatus::ReadFault(0)),
        Err(AllError::NoMemory) => Err(LiveStatus::Memory),
    }
}
