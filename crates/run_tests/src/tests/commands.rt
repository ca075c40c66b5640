//! A command that runs without its words.

use crate::claims::assert_same;
use crate::tests::fixture::{Outside, files_of, words_of};
use outside::{MemSink, NoGate};
use search_run::{Command, Status, parse_words, run_free};
use std::test::Fail;

#[test]
fn a_command_runs_without_its_words(rt: HostRuntime) -> Result<(), Fail> {
    let alloc = rt.alloc();
    let line = "range A Q 164";
    let mut files = files_of(alloc, line, b"", Outside::sound(16))?;
    let mut out = MemSink::new(alloc, 2000, 16, Vec::new(alloc))?;
    let mut err = MemSink::new(alloc, 2000, 16, Vec::new(alloc))?;
    let words = words_of(alloc, line)?;
    let command = parse_words(alloc, &words);
    assert_same!(rt; matches!(&command, Ok(Command::Range { .. })), true, "the words are a range");
    if let Ok(command) = &command
        && let Command::Range { .. } = command
    {
        let ended = run_free(&rt, alloc, command, &mut files, &mut out, &mut err, &NoGate);
        assert_same!(rt; ended, Status::Done);
    }
    assert_same!(rt; out.written(), b"query 0\n1 0 4\n2 3 164\n".as_slice());
    assert!(rt; err.written().is_empty());
    Ok(())
}
