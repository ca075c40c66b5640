//! Worked certificates by one worker and by many, over one queue and over many, with locks and without: of these searches the text is the
//! same but for a line a queue.

use crate::claims::assert_same;
use crate::tests::fixture::{Outside, lines_of, run_line};
use outside::NoGate;
use search_run::Status;
use std::alloc::{AllocError, Global};
use std::test::Fail;

// Words; the lines before those of the queues; what stands in the line of queue 0; and the lines behind those of the queues. A `/` stands
// for a line feed.
const CERTIFIED: [(&str, &str, &str, &str); 6] = [
    (
        "nearest A Q --segments 2",
        "query 0/1 0 4/start 1 4/",
        "",
        "leaf 0 word 0:1,0:1 bound 10/leaf 1 word 1:1,1:1 scanned/",
    ),
    (
        "nearest A Q --segments 2 --k 3",
        "query 0/1 0 4/2 3 164/3 1 324/start 1 324/",
        " 10:0",
        "leaf 0 word 0:1,0:1 scanned/leaf 1 word 1:1,1:1 scanned/",
    ),
    (
        "nearest A Q --segments 2 --k 9",
        "query 0/1 0 4/2 3 164/3 1 324/4 2 484/start 1 none/",
        " 10:0",
        "leaf 0 word 0:1,0:1 scanned/leaf 1 word 1:1,1:1 scanned/",
    ),
    (
        "nearest zeros nought --segments 2 --leaf 1 --k 2",
        "query 0/1 0 0/2 1 0/start 0 0/",
        "",
        "leaf 0 word 128:8,128:8 scanned/",
    ),
    (
        "nearest five ends --segments 2",
        "query 0/1 1 0/start 0 0/",
        "",
        "leaf 0 word 0:1,0:1 scanned/leaf 1 word 1:1,1:1 bound 2/",
    ),
    (
        "nearest apart corner --segments 2 --leaf 1",
        "query 0/1 0 0/start 0 0/",
        "",
        "leaf 0 word 128:8,32:6 scanned/leaf 1 word 129:8,32:6 bound 65536/leaf 2 word 1:1,3:2 bound 268435456/",
    ),
];

// How many workers there are, and whether they wait for nobody.
const TEAMS: [(u32, &str); 6] = [
    (1, ""),
    (3, ""),
    (64, ""),
    (1, " --sealed"),
    (3, " --sealed"),
    (64, " --sealed"),
];

// The text of a row with so many queues.
fn text_of(
    alloc: Global,
    row: (&str, &str, &str, &str),
    queues: u32,
) -> Result<String, AllocError> {
    let (_, front, taken, back) = row;
    let mut lines = lines_of(alloc, front)?;
    for queue in 0..queues {
        let entries = if queue == 0 { taken } else { "" };
        lines.push_str(format!(in alloc; "queue {queue}{entries}\n")?.as_str())?;
    }
    lines.push_str(lines_of(alloc, back)?.as_str())?;
    Ok(lines)
}

#[test]
fn each_team_certifies_the_same(rt: HostRuntime) -> Result<(), Fail> {
    let alloc = rt.alloc();
    for row in CERTIFIED {
        let (words, ..) = row;
        for queues in [1, 2, 64] {
            let text = text_of(alloc, row, queues)?;
            for (workers, form) in TEAMS {
                let line = format!(in alloc;
                    "{words} --certificate --queues {queues} --workers {workers}{form}"
                )?;
                let outside = Outside::sound(4000);
                let ended = run_line(&rt, alloc, &line, b"", outside, &NoGate)?;
                assert_same!(rt; ended.status, Status::Done, "{line}");
                assert_same!(rt; ended.out.written(), text.as_bytes(), "{line}");
            }
        }
    }
    Ok(())
}
