//! Whole command lines, as they come to the program: what one holds, and which are refused.
use crate::claims::assert_same;
use breakpoints::Table;
use command_words::{Command, WordsError, parse_words};
use std::alloc::{AllocError, Global};
use std::test::Fail;

/// The words of a line.
fn words_of(alloc: Global, line: &[&str]) -> Result<Vec<String>, AllocError> {
    let mut words = Vec::new(alloc);
    for word in line {
        words.push(String::from_str(alloc, word)?)?;
    }
    Ok(words)
}

#[test]
fn holds_what_a_line_says(rt: HostRuntime) -> Result<(), Fail> {
    let line = ["nearest", "--k=3", "A", "--breaks", "bent", "Q", "--sealed"];
    let words = words_of(rt.alloc(), line.as_slice())?;
    let command = parse_words(rt.alloc(), words.as_slice())?;
    let Command::Nearest {
        series,
        queries,
        options,
    } = &command
    else {
        return Ok(assert_same!(rt; false, true, "nearest is read as another command"));
    };
    assert_same!(rt; series.text.as_str(), "A", "the first name");
    assert_same!(rt; queries.text.as_str(), "Q", "the second name");
    assert_same!(rt;
        (options.k, options.leaf, options.workers),
        (3, 1000, 4),
        "numbers"
    );
    assert_same!(rt; options.table, Table::Bent, "the table");
    assert_same!(rt;
        (options.sealed, options.certificate),
        (true, false),
        "flags"
    );
    Ok(())
}

/// Whether the line is a command, or usage; running out of memory is an error of the test.
fn is_command(alloc: Global, line: &[&str]) -> Result<bool, WordsError> {
    let words = words_of(alloc, line)?;
    match parse_words(alloc, words.as_slice()) {
        Ok(_) => Ok(true),
        Err(WordsError::Usage) => Ok(false),
        Err(WordsError::NoMemory) => Err(WordsError::NoMemory),
    }
}

#[test]
fn reads_every_command_and_no_other(rt: HostRuntime) -> Result<(), Fail> {
    let table: [(&[&str], bool); 12] = [
        (&["range", "A", "Q", "281474976710656"], true),
        (&["range", "A", "Q", "281474976710657"], false),
        (&["verify", "A", "Q", "C", "--k", "2"], true),
        (&["trial", "1", "16777216", "8", "1000"], true),
        (&["trial", "1", "16777216", "9", "1000"], false),
        (&["convert", "--", "-A"], true),
        (&["save", "é", "--raw=3"], true),
        (
            &["windows", "S", "Q", "1", "--k", "342", "--apart", "2"],
            true,
        ),
        (
            &["windows", "S", "Q", "1", "--k", "343", "--apart", "2"],
            false,
        ),
        (&["discord", "A"], true),
        (&["neerest", "A", "Q"], false),
        (&[], false),
    ];
    for (line, want) in table {
        let command = line.first().copied().unwrap_or("none");
        assert_same!(rt; is_command(rt.alloc(), line)?, want, "a line of {command}");
    }
    Ok(())
}
