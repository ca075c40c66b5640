//! Reading a series file: its header, its labels, its values and its end, in this order.
//! The first test that fails is the error; nothing is read past one byte behind the end that the file should have.

ghost use Rattle.std.specs.Prelude.{◌≡◌, ◌<◌, ◌≤◌, IfOk, IfErr};
ghost use Rattle.series_file.specs.Format.{HasText};
ghost use Rattle.series_file.specs.Reading.{ReadsWhole, reach, Leaves, ReadsBack, Reads};
ghost use Rattle.series_file.specs.Stages.{IsForm, HeaderCame, Explains};
ghost use Rattle.series_file.specs.Header.{IsHeader};
ghost use Rattle.series_file.specs.Faults.{raw_limit};
ghost use Rattle.series_file.specs.declared.error.Form.TheVariants.{Headed, Raw};

use crate::body::{is_at_end, read_labels, read_values};
use crate::error::{FileError, Form, Loaded};
use crate::fill::fill;
use crate::header::{HEADER_BYTES, Header, parse};
use crate::items::{Arrived, read_items};
use outside::Files;
use series_core::{Flat, MAX_COUNT, MAX_LENGTH, MAX_VALUES};
use std::alloc::Global;

/// Reads the open file to its end, and gives the collection that it spells. After `ReadFault` no file is open.
pub fn read_series<F: Files>(alloc: Global, files: &mut F, form: Form) -> Result<Loaded, FileError>
    requires { IsForm form }
    ensures found { IfOk result (ReadsWhole form (F.left files.old) (F.left files.new)) }
    ensures fits { IfOk result (λ loaded. HasText form loaded.rows loaded.labels) }
    ensures refused { IfErr result (Explains form (F.left files.old)) }
    ensures back { ReadsBack form (F.left files.old) result }
    ensures left { IfErr result (Leaves (reach form) (F.left files.old) (F.left files.new)) }
    ensures files { Reads F.held F.left F.at F.blamed F.faults F.misses F.reliable result files.old files.new }
{
    match form {
        Form::Headed => read_headed(alloc, files),
        Form::Raw(length) => read_raw(alloc, files, length),
    }
}

// Reads a file with a header.
fn read_headed<F: Files>(alloc: Global, files: &mut F) -> Result<Loaded, FileError>
    ensures found { IfOk result (ReadsWhole Headed (F.left files.old) (F.left files.new)) }
    ensures fits { IfOk result (λ loaded. HasText Headed loaded.rows loaded.labels) }
    ensures refused { IfErr result (Explains Headed (F.left files.old)) }
    ensures left { IfErr result (Leaves (reach Headed) (F.left files.old) (F.left files.new)) }
    ensures files { Reads F.held F.left F.at F.blamed F.faults F.misses F.reliable result files.old files.new }
{
    let header = match read_header(files) {
        Ok(header) => header,
        Err(e) => return Err(e),
    };
    let labels = match read_labels(alloc, files, header) {
        Ok(labels) => labels,
        Err(e) => return Err(e),
    };
    read_values(alloc, files, header, labels)
}

// Reads the header, and tests it.
fn read_header<F: Files>(files: &mut F) -> Result<Header, FileError>
    ensures came { IfOk result (HeaderCame (F.left files.old) (F.left files.new)) }
    ensures sound { IfOk result IsHeader }
    ensures refused { IfErr result (Explains Headed (F.left files.old)) }
    ensures left { IfErr result (Leaves (reach Headed) (F.left files.old) (F.left files.new)) }
    ensures files { Reads F.held F.left F.at F.blamed F.faults F.misses F.reliable result files.old files.new }
{
    let mut bytes = [0u8; HEADER_BYTES];
    let count = match fill(files, &mut bytes) {
        Ok(count) => count,
        Err(e) => return Err(e),
    };
    if count < HEADER_BYTES {
        return Err(FileError::ShortHeader(count as u64));
    }
    parse(&bytes)
}

// Reads a file of values alone, of series of this length.
fn read_raw<F: Files>(alloc: Global, files: &mut F, length: u32) -> Result<Loaded, FileError>
    requires some_point { 0 < length }
    requires limit { length ≤ MAX_LENGTH }
    ensures found { IfOk result (ReadsWhole (Raw length) (F.left files.old) (F.left files.new)) }
    ensures fits { IfOk result (λ loaded. HasText (Raw length) loaded.rows loaded.labels) }
    ensures refused { IfErr result (Explains (Raw length) (F.left files.old)) }
    ensures left { IfErr result (Leaves (reach (Raw length)) (F.left files.old) (F.left files.new)) }
    ensures files { Reads F.held F.left F.at F.blamed F.faults F.misses F.reliable result files.old files.new }
{
    let limit = raw_limit(length);
    let arrived: Arrived<i16> = match read_items(alloc, files, limit) {
        Ok(arrived) => arrived,
        Err(e) => return Err(e),
    };
    match is_at_end(files) {
        Ok(true) => {}
        Ok(false) => return Err(FileError::TooLarge(limit + 1)),
        Err(e) => return Err(e),
    }
    if arrived.bytes % (2 * u64::from(length)) != 0 {
        return Err(FileError::Uneven(arrived.bytes));
    }
    let rows = Flat::from_values(length, arrived.items);
    Ok(Loaded { rows, labels: None })
}

// The most bytes that a raw file of series of this length may have.
fn raw_limit(length: u32) -> u64
    ensures { result ≡ raw_limit length }
{
    2 * (u64::from(MAX_COUNT) * u64::from(length)).min(u64::from(MAX_VALUES))
}
