//! Words that are no command: each ends with its own status and line, and with nothing written.
//! Words that are one are in the table of the runs.

use crate::claims::assert_same;
use crate::tests::fixture::{NO_COMMAND, tells};
use search_run::Status;
use std::test::Fail;

// Lines of words that are no command: one with no words, and two with an empty one.
const EMPTY: [&str; 3] = ["", " nearest A Q", "nearest A Q "];

// Further lines of words that are no command.
const REFUSED: &str = "nearest
nearest A
range A Q
verify A Q
trial 7 1 4
nearest A Q Q
neerest A Q
help
--help
-h
--version
nearest --help
nearest A Q --help
nearest A Q -h
nearest A Q --version
nearest A Q -V
nearest A Q --frobnicate
nearest A Q --k 0
nearest A Q --k 1025
nearest A Q --k 03
nearest A Q --k +3
nearest A Q --k -3
nearest A Q --k 3.
nearest A Q --k
nearest A Q --k 2 --k 2
nearest A Q --k 18446744073709551617
nearest A Q --certificate=yes
nearest A Q --sealed=yes
nearest A Q --certificate --certificate
nearest A Q --sealed --sealed
nearest A Q --breaks round
nearest A Q --segments 0
nearest A Q --segments 17
nearest A Q --leaf 0
nearest A Q --leaf 65536
nearest A Q --workers 0
nearest A Q --workers 65
nearest A Q --queues 0
nearest A Q --queues 65
nearest A Q --raw 0
nearest A Q --raw 65537
range A Q 281474976710657
range A Q -1
range A Q 5 --k 2
range A Q 5 --queues 2
verify A Q C --leaf 5
verify A Q C --workers 2
trial 7 1 0 1
trial 7 16777217 1 1
trial 7 16777216 9 1
trial 7 1 65537 1
trial 7 1 4 1001
trial 18446744073709551616 1 4 1
trial 7 1 4 1 --raw 4
trial 7 1 4 1 --certificate
nearest A Q --index I --segments 2
nearest A Q --index I --leaf 1000
nearest A Q --index I --breaks flat
nearest A Q --index I --certificate
range A Q 4 --index I
save A Q
save A --k 2
save A --queues 2
save A --index I
discord A Q
discord A --queues 2
discord A --k 0
discord A --sealed
discord
windows long ones 1 --k 1024 --apart 2
convert
convert A Q
convert A --k 1
convert A --segments 2
save";

#[test]
fn words_that_are_no_command(rt: HostRuntime) -> Result<(), Fail> {
    assert_same!(rt;
        Status::Usage.code(),
        2,
        "the number of words that are no command"
    );
    let wanted = (Status::Usage, "", NO_COMMAND);
    for line in EMPTY {
        tells(&rt, rt.alloc(), line, b"", 7, wanted)?;
    }
    for line in REFUSED.split('\n') {
        tells(&rt, rt.alloc(), line, b"", 7, wanted)?;
    }
    Ok(())
}
