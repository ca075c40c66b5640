//! Certificates that are checked, as tables: words, the text of a certificate, and the status and the line of the run.
//! What each change of a certificate gives was found by hand.

use crate::claims::assert_same;
use crate::tests::fixture::{fields_of, lines_of, tells};
use certificate::Reject;
use search_run::{CertFault, Status, Which};
use std::test::Fail;

// Words that write a certificate, words that check it, and the certificate, with a `/` for each line feed, parted by `|`; it is
// written by none where there are no words.
const HOLDING: [&str; 12] = [
    "nearest A Q --segments 2 --certificate|verify A Q C --segments 2|query 0/1 0 4/start 1 4/queue 0/queue 1/\
        leaf 0 word 0:1,0:1 bound 10/leaf 1 word 1:1,1:1 scanned/",
    "nearest A Q --segments 2 --k 3 --certificate|verify A Q C --segments 2 --k 3|query 0/1 0 4/2 3 164/3 1 324/\
        start 1 324/queue 0 10:0/queue 1/leaf 0 word 0:1,0:1 scanned/leaf 1 word 1:1,1:1 scanned/",
    "nearest A Q --segments 2 --k 9 --certificate|verify A Q C --segments 2 --k 9|query 0/1 0 4/2 3 164/3 1 324/\
        4 2 484/start 1 none/queue 0 10:0/queue 1/leaf 0 word 0:1,0:1 scanned/leaf 1 word 1:1,1:1 scanned/",
    "nearest points zero --certificate|verify points zero C|query 0/1 0 1/start 1 1/queue 0 1:0/queue 1/\
        leaf 0 word 0:1 scanned/leaf 1 word 1:1 scanned/",
    "nearest zeros nought --segments 2 --leaf 1 --k 2 --certificate|verify zeros nought C --segments 2 --k 2|\
        query 0/1 0 0/2 1 0/start 0 0/queue 0/queue 1/leaf 0 word 128:8,128:8 scanned/",
    "nearest five ends --segments 2 --certificate|verify five ends C --segments 2|query 0/1 1 0/start 0 0/\
        queue 0/queue 1/leaf 0 word 0:1,0:1 scanned/leaf 1 word 1:1,1:1 bound 2/",
    "nearest apart corner --segments 2 --leaf 1 --certificate|verify apart corner C --segments 2|query 0/1 0 0/\
        start 0 0/queue 0/queue 1/leaf 0 word 128:8,32:6 scanned/leaf 1 word 129:8,32:6 bound 65536/\
        leaf 2 word 1:1,3:2 bound 268435456/",
    "|verify A Q C --segments 2|query 0/1 0 4/start 1 4/queue 0/queue 1/",
    "nearest A2 Q --k 2 --segments 2 --certificate|verify A2 Q C --k 2 --segments 2|query 0/1 0 4 100/\
        2 3 164 18446744073709551615/start 1 164/queue 0 10:0/queue 1/leaf 0 word 0:1,0:1 scanned/\
        leaf 1 word 1:1,1:1 scanned/",
    "nearest A2 Q --k 2 --certificate|verify A2 Q C --k 2|query 0/1 0 4 100/2 3 164 18446744073709551615/\
        start 1 164/queue 0 16:0/queue 1/leaf 0 word 0:1,0:1,0:1,0:1 scanned/leaf 1 word 1:1,1:1,1:1,1:1 scanned/",
    "nearest A none --certificate|verify A none C|",
    "nearest none Q --certificate|verify none Q C|query 0/start none/queue 0/queue 1/",
];

// Why a certificate does not hold; and the words that check it, the certificate, and the line that tells it, in the same form.
const FAULTY: [(CertFault, &str); 14] = [
    (
        CertFault::Rejected(Reject::Bound(0, 0, 11, 10)),
        "verify A Q C --segments 2|query 0/1 0 4/start 1 4/queue 0/queue 1/leaf 0 word 0:1,0:1 bound 11/\
        leaf 1 word 1:1,1:1 scanned/|isearch: certificate: query 0 leaf 0 bound 11 is 10/",
    ),
    (
        CertFault::Rejected(Reject::Answers(0, 1)),
        "verify A Q C --segments 2|query 0/1 3 4/start 1 4/queue 0/queue 1/leaf 0 word 0:1,0:1 bound 10/\
        leaf 1 word 1:1,1:1 scanned/|isearch: certificate: query 0 answer 1/",
    ),
    (
        CertFault::Rejected(Reject::Low(0, 0, 10, 164)),
        "verify A Q C --segments 2|query 0/1 3 164/start 1 4/queue 0/queue 1/leaf 0 word 0:1,0:1 bound 10/\
        leaf 1 word 1:1,1:1 scanned/|isearch: certificate: query 0 leaf 0 bound 10 is not above 164/",
    ),
    (
        CertFault::Rejected(Reject::Low(0, 0, 10, u64::MAX)),
        "verify A Q C --segments 2 --k 9|query 0/1 0 4/2 3 164/3 1 324/4 2 484/start 1 none/queue 0 10:0/queue 1/\
        leaf 0 word 0:1,0:1 bound 10/leaf 1 word 1:1,1:1 scanned/|\
        isearch: certificate: query 0 leaf 0 bound 10 is not above none/",
    ),
    (
        CertFault::Rejected(Reject::Missed(0, 0)),
        "verify A Q C --segments 2|query 0/1 3 164/start 1 4/queue 0/queue 1/leaf 0 word 0:1,0:1 scanned/\
        leaf 1 word 1:1,1:1 scanned/|isearch: certificate: query 0 misses 0/",
    ),
    (
        CertFault::Rejected(Reject::Blocks(0, 1)),
        "verify A Q C --segments 2||isearch: certificate: 0 blocks for 1 queries/",
    ),
    (
        CertFault::Line(2),
        "verify A Q C --segments 2|query 0/|isearch: certificate: line 2/",
    ),
    (
        CertFault::Line(1),
        "verify A Q C --segments 2|query 1/1 0 4/start 1 4/queue 0/queue 1/leaf 0 word 0:1,0:1 bound 10/\
        leaf 1 word 1:1,1:1 scanned/|isearch: certificate: line 1/",
    ),
    (
        CertFault::Line(7),
        "verify A Q C --segments 2|query 0/1 0 4/start 1 4/queue 0/queue 1/leaf 0 word 0:1,0:1 bound 10/\
        leaf 1 word 1:1,1:1 scanned|isearch: certificate: line 7/",
    ),
    (
        CertFault::Line(6),
        "verify A Q C --segments 2|query 0/1 0 4/start 1 4/queue 0/queue 1/leaf 0 word 2:1,0:1 bound 10/\
        leaf 1 word 1:1,1:1 scanned/|isearch: certificate: line 6/",
    ),
    (
        CertFault::Rejected(Reject::Answers(0, 1)),
        "verify A Q C --segments 2|query 0/start 1 4/queue 0/queue 1/leaf 0 word 0:1,0:1 bound 10/\
        leaf 1 word 1:1,1:1 scanned/|isearch: certificate: query 0 answer 1/",
    ),
    (
        CertFault::Line(4),
        "verify A Q C --segments 2|query 0/1 0 4/start 1 4/leaf 0 word 0:1,0:1 bound 10/leaf 1 word 1:1,1:1 scanned/|\
        isearch: certificate: line 4/",
    ),
    (
        CertFault::Rejected(Reject::Answers(0, 1)),
        "verify A2 Q C --k 2 --segments 2|query 0/1 0 4 101/2 3 164 18446744073709551615/start 1 164/queue 0 10:0/\
        queue 1/leaf 0 word 0:1,0:1 scanned/leaf 1 word 1:1,1:1 scanned/|isearch: certificate: query 0 answer 1/",
    ),
    (
        CertFault::Line(2),
        "verify A2 Q C --k 2 --segments 2|query 0/1 0 4/2 3 164 18446744073709551615/start 1 164/queue 0 10:0/\
        queue 1/leaf 0 word 0:1,0:1 scanned/leaf 1 word 1:1,1:1 scanned/|isearch: certificate: line 2/",
    ),
];

#[test]
fn certificates_that_are_written_and_hold(rt: HostRuntime) -> Result<(), Fail> {
    for row in HOLDING {
        let (written_by, line, text) = fields_of(row).ok_or("a row has three fields")?;
        let text = lines_of(rt.alloc(), text)?;
        if !written_by.is_empty() {
            tells(
                &rt,
                rt.alloc(),
                written_by,
                b"",
                16,
                (Status::Done, text.as_str(), ""),
            )?;
        }
        let wanted = (Status::Done, "valid\n", "");
        tells(&rt, rt.alloc(), line, text.as_bytes(), 16, wanted)?;
    }
    Ok(())
}

#[test]
fn certificates_that_do_not_hold(rt: HostRuntime) -> Result<(), Fail> {
    for (fault, row) in FAULTY {
        let (line, text, told) = fields_of(row).ok_or("a row has three fields")?;
        let text = lines_of(rt.alloc(), text)?;
        let told = lines_of(rt.alloc(), told)?;
        let status = Status::Invalid(fault);
        assert_same!(rt; status.code(), 10, "{line}: {text}");
        tells(
            &rt,
            rt.alloc(),
            line,
            text.as_bytes(),
            16,
            (status, "", told.as_str()),
        )?;
    }
    Ok(())
}
