//! The line that tells how a run ended. It takes no memory, and a fault of its sink changes nothing of the status.

ghost use Rattle.std.specs.Prelude.{◌≡◌, ◌+◌, ◌≤◌, ◌++◌, length, codes, decimal};
ghost use Rattle.run_traffic.specs.Traffic.{Tells};
ghost use Rattle.certificate.specs.Spelling.{limit_text};
ghost use Rattle.search_run.specs.Status.{fault_line, cause_of, file_cause, file_word};
ghost use Rattle.search_run.specs.Status.{bound_part, certificate_cause, differing, index_cause, query_part, reject_cause};

use crate::status::{CertFault, Status, Which};
use arrayvec::ArrayString;
use certificate::Reject;
use itoa::Buffer;
use outside::{Sink, write_whole};
use saved_index::IndexFault;
use series_core::NONE;
use series_file::FileError;

// The greatest number of bytes that a line has.
const LINE_ROOM: usize = 200;

// The text of a line in place: it takes no memory of its own.
type Line = ArrayString<LINE_ROOM>;

// What the file is called.
fn word_of(which: Which) -> &'static str
    ensures word { result.now ≡ file_word which }
    ensures short { length result.now ≤ 11 }
{
    match which {
        Which::Series => "data",
        Which::Queries => "queries",
        Which::Certificate => "certificate",
        Which::Index => "index",
    }
}

// Appends what is wrong with a series file.
fn push_file_cause(line: &mut Line, cause: FileError)
    requires { length line.old.bytes ≤ 40 }
    ensures text { line.new.bytes ≡ line.old.bytes ++ file_cause cause }
    ensures limit { length line.new.bytes ≤ 120 }
{
    match cause {
        FileError::ShortHeader(a) => push_counted(line, "header ends at byte ", a),
        FileError::Magic => line.push_str("not a series file"),
        FileError::Version(v) => push_counted(line, "version ", u64::from(v)),
        FileError::Length(n) => push_counted(line, "length ", u64::from(n)),
        FileError::Count(c) => push_counted(line, "count ", u64::from(c)),
        FileError::Reserved(r) => push_counted(line, "reserved ", u64::from(r)),
        FileError::TooLarge(t) => push_counted(line, "too large ", t),
        FileError::Truncated { at, want } => {
            push_counted(line, "ends at byte ", at);
            push_counted(line, " of ", want);
        }
        FileError::Trailing(b) => push_counted(line, "bytes after ", b),
        FileError::Uneven(b) => {
            push_number(line, b);
            line.push_str(" bytes are no whole number of series");
        }
        FileError::ReadFault => line.push_str("read failed"),
        FileError::NoMemory => line.push_str("out of memory"),
    }
}

// Appends a number in decimals.
fn push_number(line: &mut Line, n: u64)
    requires { length line.old.bytes + 20 ≤ LINE_ROOM }
    ensures text { line.new.bytes ≡ line.old.bytes ++ decimal n }
    ensures limit { length line.new.bytes ≤ length line.old.bytes + 20 }
{
    let mut buffer = Buffer::new();
    line.push_str(buffer.format(n));
}

// Appends text and a number behind it.
fn push_counted(line: &mut Line, text: &str, n: u64)
    requires { length line.old.bytes + length text.now + 20 ≤ LINE_ROOM }
    ensures text { line.new.bytes ≡ line.old.bytes ++ (text.now ++ decimal n) }
    ensures limit { length line.new.bytes ≤ length line.old.bytes + length text.now + 20 }
{
    line.push_str(text);
    push_number(line, n);
}

// Appends a query and a number of it, each behind its word.
fn push_query_part(line: &mut Line, query: u32, word: &str, n: u32)
    requires { length line.old.bytes + length word.now ≤ 40 }
    ensures text { line.new.bytes ≡ line.old.bytes ++ query_part query word.now n }
    ensures limit { length line.new.bytes ≤ length line.old.bytes + length word.now + 46 }
{
    push_counted(line, "query ", u64::from(query));
    push_counted(line, word, u64::from(n));
}

// Appends the bound that is said of a leaf.
fn push_bound_part(line: &mut Line, query: u32, leaf: u32, bound: u64)
    requires { length line.old.bytes ≤ 22 }
    ensures text { line.new.bytes ≡ line.old.bytes ++ bound_part query leaf bound }
    ensures limit { length line.new.bytes ≤ 110 }
{
    push_query_part(line, query, " leaf ", leaf);
    push_counted(line, " bound ", bound);
}

// Appends a last distance, or that there is no last answer.
fn push_last(line: &mut Line, last: u64)
    requires { length line.old.bytes ≤ 170 }
    ensures text { line.new.bytes ≡ line.old.bytes ++ limit_text last }
    ensures limit { length line.new.bytes ≤ length line.old.bytes + 20 }
{
    if last == NONE {
        line.push_str("none");
    } else {
        push_number(line, last);
    }
}

// Appends which test a certificate fails.
fn push_reject(line: &mut Line, reject: Reject)
    requires { length line.old.bytes ≤ 22 }
    ensures text { line.new.bytes ≡ line.old.bytes ++ reject_cause reject }
    ensures limit { length line.new.bytes ≤ 160 }
{
    match reject {
        Reject::Blocks(have, want) => {
            push_number(line, have);
            push_counted(line, " blocks for ", want);
            line.push_str(" queries");
        }
        Reject::Answers(query, rank) => push_query_part(line, query, " answer ", rank),
        Reject::Bound(query, leaf, said, real) => {
            push_bound_part(line, query, leaf, said);
            push_counted(line, " is ", real);
        }
        Reject::Low(query, leaf, bound, last) => {
            push_bound_part(line, query, leaf, bound);
            line.push_str(" is not above ");
            push_last(line, last);
        }
        Reject::Missed(query, number) => push_query_part(line, query, " misses ", number),
        Reject::NoMemory => line.push_str("out of memory"),
    }
}

// Appends that a certificate does not hold, and why.
fn push_certificate_cause(line: &mut Line, fault: CertFault)
    requires { length line.old.bytes ≤ 9 }
    ensures text { line.new.bytes ≡ line.old.bytes ++ (codes "certificate: " ++ certificate_cause fault) }
    ensures limit { length line.new.bytes ≤ 160 }
{
    line.push_str("certificate: ");
    match fault {
        CertFault::Line(at) => push_counted(line, "line ", at),
        CertFault::TooLong => line.push_str("longer than 1073741824 bytes"),
        CertFault::Rejected(reject) => push_reject(line, reject),
    }
}

// Appends two numbers of the same kind that differ, behind its word.
fn push_differing(line: &mut Line, word: &str, have: u32, want: u32)
    requires { length line.old.bytes + length word.now ≤ 40 }
    ensures text { line.new.bytes ≡ line.old.bytes ++ differing word.now have want }
    ensures limit { length line.new.bytes ≤ length line.old.bytes + length word.now + 48 }
{
    push_counted(line, word, u64::from(have));
    push_counted(line, " is not ", u64::from(want));
}

// Appends what a saved index has against it over the series.
fn push_index_cause(line: &mut Line, fault: IndexFault)
    requires { length line.old.bytes ≤ 22 }
    ensures text { line.new.bytes ≡ line.old.bytes ++ index_cause fault }
    ensures limit { length line.new.bytes ≤ 160 }
{
    match fault {
        IndexFault::NotIndex => line.push_str("not an index"),
        IndexFault::Length(have, want) => push_differing(line, "length ", have, want),
        IndexFault::Count(have, want) => push_differing(line, "count ", have, want),
        IndexFault::Unfit(s) => {
            push_counted(line, "series ", u64::from(s));
            line.push_str(" does not fit");
        }
        IndexFault::TooLong => line.push_str("longer than 1073741824 bytes"),
        IndexFault::ReadFault => line.push_str("read failed"),
        IndexFault::NoMemory => line.push_str("out of memory"),
    }
}

// Appends why the run ended so.
fn push_cause(line: &mut Line, status: &Status)
    requires { length line.old.bytes ≤ 9 }
    ensures text { line.new.bytes ≡ line.old.bytes ++ cause_of status.now }
    ensures limit { length line.new.bytes ≤ 199 }
{
    match status {
        Status::Done => {}
        Status::Usage => line.push_str("the words are not a command"),
        Status::Missing(which) => {
            line.push_str(word_of(*which));
            line.push_str(": no such file");
        }
        Status::ReadFault(which) => {
            line.push_str(word_of(*which));
            line.push_str(": read failed");
        }
        Status::Format(which, cause) => {
            line.push_str(word_of(*which));
            line.push_str(": ");
            push_file_cause(line, *cause);
        }
        Status::Mismatch(a, b) => {
            push_counted(line, "lengths differ: ", u64::from(*a));
            push_counted(line, " and ", u64::from(*b));
        }
        Status::Settings(w, n) => {
            push_number(line, u64::from(*w));
            push_counted(line, " segments are more than length ", u64::from(*n));
        }
        Status::WriteFault => line.push_str("write failed"),
        Status::Memory => line.push_str("out of memory"),
        Status::Invalid(fault) => push_certificate_cause(line, *fault),
        Status::Index(fault) => {
            line.push_str("index: ");
            push_index_cause(line, *fault);
        }
    }
}

// The line of a status, empty where the whole text was written.
fn line_of(status: &Status) -> Line
    ensures { result.bytes ≡ fault_line status.now }
{
    let mut line = Line::new();
    if *status == Status::Done {
        return line;
    }
    line.push_str("isearch: ");
    push_cause(&mut line, status);
    line.push_str("\n");
    line
}

/// Writes the line of a status, and nothing where the whole text was written.
/// Where the sink fails a prefix of the line stands there.
pub fn tell<E: Sink>(err: &mut E, status: &Status)
    ensures { Tells (fault_line status.now) (E.written err.old) (E.written err.new) (E.faults err.old) (E.faults err.new) }
{
    let line = line_of(status);
    let _ = write_whole(err, line.as_str().as_bytes());
}
