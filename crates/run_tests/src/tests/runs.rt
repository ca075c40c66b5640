//! Whole runs of the commands as one table: words, and the text that they end with. Two workers meet at a gate as they build, and
//! as they search together for a certificate.

use crate::claims::assert_same;
use crate::tests::fixture::{Meeting, Outside, lines_of, run_line, tells};
use search_run::Status;
use std::test::Fail;

// Words, and behind a `|` the text of their run, which tells no line; a `/` stands for a line feed. One text is proved in a
// fourth of the time of a list of pairs.
const RUNS: &str = "nearest A Q|query 0/1 0 4/
nearest points zero|query 0/1 0 1/
nearest low high|query 0/1 0 17591649177600/
nearest none Q|query 0/
nearest A none|
nearest A2 Q --k 2|query 0/1 0 4 100/2 3 164 18446744073709551615/
nearest raw raw --raw 4|query 0/1 0 0/
nearest A Q --k 9|query 0/1 0 4/2 3 164/3 1 324/4 2 484/
nearest raw raw --raw 2|query 0/1 0 0/query 1/1 0 0/
nearest empty raw --raw 2|query 0/query 1/
nearest lowest highest --raw 65536|query 0/1 0 281466386841600/
nearest A Q --k=3|query 0/1 0 4/2 3 164/3 1 324/
nearest --k 2 A Q|query 0/1 0 4/2 3 164/
nearest A --k 1024 Q|query 0/1 0 4/2 3 164/3 1 324/4 2 484/
nearest A Q --segments 2|query 0/1 0 4/
nearest A Q --segments 2 --k 3|query 0/1 0 4/2 3 164/3 1 324/
nearest A Q --segments 2 --k 9|query 0/1 0 4/2 3 164/3 1 324/4 2 484/
nearest A Q --segments 4 --breaks bent --leaf 65535 --workers 64 --queues 64 --k 1024|query 0/1 0 4/2 3 164/3 1 324/4 2 484/
nearest A Q --leaf 1 --queues 3 --k 4 --workers 1|query 0/1 0 4/2 3 164/3 1 324/4 2 484/
nearest points zero --leaf 1 --queues 1 --k 2|query 0/1 0 1/2 1 1/
nearest zeros nought --segments 2 --leaf 1 --k 2|query 0/1 0 0/2 1 0/
nearest five ends --segments 2|query 0/1 1 0/
nearest apart corner --segments 2 --leaf 1|query 0/1 0 0/
nearest apart corner --segments 2 --leaf 1 --k 3|query 0/1 0 0/2 2 90000/3 1 400000000/
nearest none Q --segments 3|query 0/
nearest A Q --certificate|query 0/1 0 4/start 1 4/queue 0/queue 1/leaf 0 word 0:1,0:1,0:1,0:1 bound 16/leaf 1 word 1:1,1:1,1:1,1:1 scanned/
nearest A Q --sealed|query 0/1 0 4/
nearest A Q --index I|query 0/1 0 4/
range A Q 164|query 0/1 0 4/2 3 164/
range A Q 163|query 0/1 0 4/
range A Q 0|query 0/
range A Q 281474976710656|query 0/1 0 4/2 3 164/3 1 324/4 2 484/
range A Q 324 --segments 2 --leaf 1 --workers 5 --breaks bent|query 0/1 0 4/2 3 164/3 1 324/
range A Q 324 --segments 1 --workers 1|query 0/1 0 4/2 3 164/3 1 324/
range A2 Q 164|query 0/1 0 4 100/2 3 164 18446744073709551615/
range points zero 1|query 0/1 0 1/2 1 1/
range points zero 0|query 0/
range none Q 5|query 0/
range A none 5|
range raw raw 0 --raw 4|query 0/1 0 0/
trial 1234567 1 2 1|series 1 length 2 queries 1 k 1/answers 1/total 4113/numbers 0/
trial 7 0 3 2|series 0 length 3 queries 2 k 1/answers 0/total 0/numbers 0/
trial 7 4 3 0|series 4 length 3 queries 0 k 1/answers 0/total 0/numbers 0/
trial 0 5 3 4 --k 2|series 5 length 3 queries 4 k 2/answers 8/total 129496/numbers 14/
trial 18446744073709551615 40 7 3 --k 9|series 40 length 7 queries 3 k 9/answers 27/total 884875/numbers 688/
trial 18446744073709551615 40 7 3 --k 9 --segments 7 --leaf 2 --workers 8 --queues 4 --breaks bent|series 40 length 7 queries 3 k 9/answers 27/total 884875/numbers 688/
trial 42 30 1000 2 --k 40|series 30 length 1000 queries 2 k 40/answers 60/total 167624551602/numbers 870/
trial 9 300 16 5|series 300 length 16 queries 5 k 1/answers 5/total 322227/numbers 627/
trial 9 300 16 5 --workers 1 --queues 1|series 300 length 16 queries 5 k 1/answers 5/total 322227/numbers 627/
trial 3 1 65536 1 --k 3|series 1 length 65536 queries 1 k 3/answers 1/total 19666878009355/numbers 0/
windows long ones 1 --k 3|query 0/1 0 2/2 1 82/3 3 82/
windows long ones 1 --k 2 --apart 2|query 0/1 0 2/2 3 82/
windows long ones 1 --k 3 --apart 2 --workers 5 --sealed|query 0/1 0 2/2 3 82/
windows long ones 2 --k 9 --leaf 1 --breaks bent --workers 1 --queues 5|query 0/1 0 2/2 1 162/
windows long Q 1 --k 2 --segments 4|query 0/1 0 164/2 1 164/
windows long ends 1|query 0/1 0 202/
windows long wide 1|query 0/
windows long none 1|
windows empty ones 7 --k 2|query 0/
windows long raw 1 --raw 2 --k 1|query 0/1 0 2/query 1/1 0 2/
discord A --k 2|1 2 400 0/2 0 200 3/
discord A2|1 2 400 0/
discord steps --raw 1 --workers 1|1 0 25 1/
discord steps --raw 1 --workers 3|1 0 25 1/
discord three|
discord none --k 1024|
discord raw --raw 2 --k 5 --segments 2 --leaf 1 --breaks bent|1 0 0 1/2 1 0 0/";

#[test]
fn runs_end_as_they_should(rt: HostRuntime) -> Result<(), Fail> {
    for piece in [1, 2, 7, 16, 4096] {
        for row in RUNS.split('\n') {
            let (line, text) = row.split_once('|').ok_or("a row has two fields")?;
            let text = lines_of(rt.alloc(), text)?;
            let wanted = (Status::Done, text.as_str(), "");
            tells(&rt, rt.alloc(), line, b"", piece, wanted)?;
        }
    }
    Ok(())
}

// Words for two workers, how often each comes to a first turn, and the text.
const MEETINGS: [(&str, u64, &str); 5] = [
    ("nearest A Q --workers 2", 1, "query 0\n1 0 4\n"),
    (
        "nearest A Q --workers 2 --segments 2 --certificate",
        2,
        CERTIFIED,
    ),
    (
        "nearest A Q --workers 2 --segments 2 --certificate --sealed",
        2,
        CERTIFIED,
    ),
    ("range A Q 164 --workers 2", 2, "query 0\n1 0 4\n2 3 164\n"),
    ("discord A --k 2 --workers 2", 2, "1 2 400 0\n2 0 200 3\n"),
];

const CERTIFIED: &str = "query 0\n1 0 4\nstart 1 4\nqueue 0\nqueue 1\n\
    leaf 0 word 0:1,0:1 bound 10\nleaf 1 word 1:1,1:1 scanned\n";

#[test]
fn two_workers_meet_as_they_build_and_as_they_search(rt: HostRuntime) -> Result<(), Fail> {
    for (line, times, text) in MEETINGS {
        let gate = Meeting::new();
        let ended = run_line(&rt, rt.alloc(), line, b"", Outside::sound(16), &gate)?;
        assert_same!(rt; ended.status, Status::Done, "{line}");
        assert_same!(rt; ended.out.written(), text.as_bytes(), "{line}");
        let counts = (times, times, 0);
        assert_same!(rt; gate.counts(), counts, "{line}: nobody waits in vain");
    }
    Ok(())
}
