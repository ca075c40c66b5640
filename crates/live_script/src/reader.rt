//! Reading a script: its text is cut into lines, and each line is put behind those before it.

ghost use Rattle.std.specs.Prelude.{ℕ, ◌≡◌, ◌<◌, ◌^◌, true, List, [], length, IfOk, IfErr, MatchBool};
ghost use Rattle.live_script.specs.declared.script.Group.{Group};
ghost use Rattle.live_script.specs.Lines.{lacks, IsName, IsAsked, append_line, ask_line};
ghost use Rattle.live_script.specs.Grammar.{IsScript, IsFault, AddsLine, NoneFollows};
ghost use Rattle.live_script.specs.Answers.{ReadsAs, RefusesAt, IsRightError};

use crate::error::ScriptError;
use crate::line::{Line, cut, read_line};
use crate::script::{Asking, AskingList, Group, NamedFile, Script};
use command_words::Text;
use std::alloc::{AllocError, Global};

/// Reads a script of less than 4 GiB. `Line(at)`: line `at`, counted from 1, is the first that is not in the grammar;
/// a last piece without a line feed is such a line, and so is a first line that appends nothing.
/// An empty script has no groups.
pub fn read_script(alloc: Global, bytes: &[u8]) -> Result<Script, ScriptError>
    requires short { length bytes.now < 2 ^ 32 }
    // What is read is what the bytes are the text of.
    ensures found { IfOk result (λ script. IsScript bytes.now script) }
    // What the bytes are the text of is read, unless memory runs out.
    ensures only { (script : List Group) → IsScript bytes.now script → ReadsAs result script }
    // A line is reported only where it is the first that is not in the grammar.
    ensures error { IfErr result (IsRightError bytes.now) }
    // The first line that is not in the grammar is reported, unless memory runs out.
    ensures refused { (at : ℕ) → IsFault bytes.now at → RefusesAt result at }
{
    let _length = bytes.len();
    let mut script = Script {
        groups: Vec::new(alloc),
    };
    let mut rest = bytes;
    let mut at = 0u32;
    while !rest.is_empty() {
        at += 1;
        let Some((line, behind)) = cut(rest, b'\n') else {
            return Err(ScriptError::Line(at));
        };
        let Ok(taken) = script.take(alloc, at, line) else {
            return Err(ScriptError::NoMemory);
        };
        if !taken {
            return Err(ScriptError::Line(at));
        }
        rest = behind;
    }
    Ok(script)
}

impl Script {
    // Puts line `at` behind the others, and answers whether it may stand there.
    fn take(&mut self, alloc: Global, at: u32, line: &[u8]) -> Result<bool, AllocError>
        requires one_line { lacks 10 line.now ≡ true }
        ensures { IfOk result (λ taken. MatchBool taken (AddsLine at line.now self.old self.new) (NoneFollows line.now self.old)) }
    {
        match read_line(line) {
            None => Ok(false),
            Some(Line::Append(name)) => {
                self.append(alloc, at, name)?;
                Ok(true)
            }
            Some(Line::Ask(name, k)) => self.ask(alloc, at, name, k),
        }
    }

    // Begins a group with the batch of line `at`.
    fn append(&mut self, alloc: Global, at: u32, name: &str) -> Result<(), AllocError>
        requires name { IsName name.now }
        ensures { IfOk result (λ _. AddsLine at (append_line name.now) self.old self.new) }
    {
        let batch = named_file(alloc, at, name)?;
        let askings = AskingList {
            items: Vec::new(alloc),
        };
        self.groups.push(Group { batch, askings })?;
        Ok(())
    }

    // Asks by line `at` in the last group, and answers whether there is one.
    fn ask(&mut self, alloc: Global, at: u32, name: &str, k: u32) -> Result<bool, AllocError>
        requires asked { IsAsked name.now k }
        ensures { IfOk result (λ asked. MatchBool asked (AddsLine at (ask_line name.now k) self.old self.new) (self.old ≡ [])) }
    {
        let Some(group) = self.groups.last_mut() else {
            return Ok(false);
        };
        let queries = named_file(alloc, at, name)?;
        group.askings.items.push(Asking { queries, k })?;
        Ok(true)
    }
}

// The file that line `at` names.
fn named_file(alloc: Global, at: u32, name: &str) -> Result<NamedFile, AllocError>
    ensures { IfOk result (λ file. (file.line ≡ at) × (file.name ≡ name.now)) }
{
    let text = String::from_str(alloc, name)?;
    Ok(NamedFile {
        line: at,
        name: Text { text },
    })
}
