//! Tests: a table of scripts, and one script cut at every byte and changed at every byte to every value.
//! What each line of the table says was found by hand; the cut and the changed scripts are read by a plain slow grammar too.

use crate::claims::assert_same;
use live_script::{Script, ScriptError, read_script};
use std::alloc::{AllocError, Global};
use std::process::Abort;
use std::test::Fail;

// Scripts, and what each says: its lines by number, or the first line that is not in the grammar.
const SCRIPTS: [(&[u8], &str); 24] = [
    (b"", ""),
    (b"append A\n", "1 A;"),
    (b"append A\nask Q 1\n", "1 A; 2 Q 1;"),
    (
        b"append A\nappend E\nask Q 1024\nask R 10\nappend B\nask Q 2\n",
        "1 A; 2 E; 3 Q 1024; 4 R 10; 5 B; 6 Q 2;",
    ),
    (b"append \xc3\xa4/b.iser\n", "1 \u{e4}/b.iser;"),
    (b"append append\nask ask 7\n", "1 append; 2 ask 7;"),
    (b"append A\r\n", "1 A\r;"),
    (b"append A", "line 1"),
    (b"append A\nask Q 1", "line 2"),
    (b"\n", "line 1"),
    (b"ask Q 1\n", "line 1"),
    (b"append \n", "line 1"),
    (b"append A B\n", "line 1"),
    (b"append  A\n", "line 1"),
    (b"append \xff\n", "line 1"),
    (b"Append A\n", "line 1"),
    (b"append A\n\nappend B\n", "line 2"),
    (b"append A\nask Q 0\n", "line 2"),
    (b"append A\nask Q 1025\n", "line 2"),
    (b"append A\nask Q 4294967297\n", "line 2"),
    (b"append A\nask Q 01\n", "line 2"),
    (b"append A\nask Q +1\n", "line 2"),
    (b"append A\nask Q 1\nask Q 1 \nask Q\n", "line 3"),
    (b"append A\nask Q 1\nask  1\n", "line 3"),
];

// The lines of a script by number.
fn lines_of(alloc: Global, script: &Script) -> Result<String, AllocError> {
    let mut said = String::new(alloc);
    for group in script.groups.iter() {
        let batch = &group.batch;
        let line = batch.line;
        write!(said, " {line} {};", batch.name.text)?;
        for asking in group.askings.items.iter() {
            let queries = &asking.queries;
            let line = queries.line;
            let k = asking.k;
            write!(said, " {line} {} {k};", queries.name.text)?;
        }
    }
    Ok(said)
}

// What the reader finds in a short text: the script, or the first line that is not in the grammar.
fn read(rt: &impl Abort, alloc: Global, bytes: &[u8]) -> Result<Script, u32> {
    assert!(rt; bytes.len() < 100, "a short text");
    match read_script(alloc, bytes) {
        Ok(script) => Ok(script),
        Err(ScriptError::Line(at)) => Err(at),
        Err(ScriptError::NoMemory) => panic!(rt; "out of memory"),
    }
}

#[test]
fn reads_what_each_line_says(rt: HostRuntime) -> Result<(), Fail> {
    for (bytes, expected) in SCRIPTS {
        let said = match read(&rt, rt.alloc(), bytes) {
            Ok(script) => lines_of(rt.alloc(), &script)?,
            Err(at) => format!(in rt.alloc(); " line {at}")?,
        };
        assert_same!(rt; said.as_str().trim(), expected, "{bytes:?}");
    }
    Ok(())
}

// Whether a line, without its line feed, is in the grammar, by its words.
fn is_plain_line(line: &str, at: u32) -> bool {
    let mut words = line.split(' ');
    let verb = words.next();
    let name = words.next();
    let count = words.next();
    if words.next().is_some() || name.is_none_or(|name| name.is_empty()) {
        return false;
    }
    match (verb, count) {
        (Some("append"), None) => true,
        (Some("ask"), Some(count)) => at > 1 && is_plain_count(count),
        _ => false,
    }
}

// Whether the digits spell one of 1 to 1024.
fn is_plain_count(count: &str) -> bool {
    let has_digits = count.bytes().all(|byte| byte.is_ascii_digit());
    let is_near = count.parse::<u64>().is_ok_and(|k| 1 <= k && k <= 1024);
    has_digits && is_near && !count.starts_with('0')
}

// The first line of a text that is not in the grammar, by a plain slow grammar.
fn plain_fault(bytes: &[u8]) -> Option<u32> {
    let mut at = 0u32;
    for line in bytes.split_inclusive(|byte| *byte == b'\n') {
        at = at.saturating_add(1);
        let Ok(text) = str::from_utf8(line) else {
            return Some(at);
        };
        let Some(words) = text.strip_suffix('\n') else {
            return Some(at);
        };
        if !is_plain_line(words, at) {
            return Some(at);
        }
    }
    None
}

#[test]
fn agrees_with_a_plain_grammar(rt: HostRuntime) -> Result<(), Fail> {
    let whole = b"append A\nask Q 10\nappend \xc3\xa4\n";
    for end in 0..whole.len() {
        let cut = &whole[..end];
        assert_same!(rt;
            read(&rt, rt.alloc(), cut).err(),
            plain_fault(cut),
            "cut at {end}"
        );
    }
    for place in 0..whole.len() {
        for value in 0..=u8::MAX {
            let mut changed = *whole;
            changed[place] = value;
            assert_same!(rt;
                read(&rt, rt.alloc(), &changed).err(),
                plain_fault(&changed),
                "{value} at {place}"
            );
        }
    }
    Ok(())
}
