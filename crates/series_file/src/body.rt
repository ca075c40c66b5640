//! What follows the header of a series file: the labels, the values and the end, in this order.
//! Each part is read whole or refused, and nothing is read past one byte behind the end.

ghost use Rattle.std.specs.Prelude.{◌≡◌, ◌+◌, IfOk, IfErr};
ghost use Rattle.series_file.specs.Stages.{Ends};
ghost use Rattle.series_file.specs.Reading.{Leaves, Reads};
ghost use Rattle.series_file.specs.Header.{IsHeader};
ghost use Rattle.series_file.specs.Body.{LabelsCame, ValuesCame, ExplainsSize, label_bytes, value_bytes};
ghost use Rattle.series_file.specs.declared.error.FileError.TheVariants.{ReadFault};

use crate::error::{FileError, Loaded};
use crate::fill::fill;
use crate::header::Header;
use crate::items::{Arrived, read_items};
use outside::Files;
use series_core::{Flat, LabelList};
use std::alloc::Global;

/// Reads the labels, where the file has them.
pub fn read_labels<F: Files>(
    alloc: Global,
    files: &mut F,
    header: Header,
) -> Result<Option<LabelList>, FileError>
    requires { IsHeader header }
    ensures came { IfOk result (LabelsCame header (F.left files.old) (F.left files.new)) }
    ensures refused { IfErr result (ExplainsSize header 16 (F.left files.old)) }
    ensures left { IfErr result (Leaves (λ _. label_bytes header + (value_bytes header + 1)) (F.left files.old) (F.left files.new)) }
    ensures files { Reads F.held F.left F.at F.blamed F.faults F.misses F.reliable result files.old files.new }
{
    if !header.labelled {
        return Ok(None);
    }
    let want = header.label_bytes();
    let arrived: Arrived<u64> = match read_items(alloc, files, want) {
        Ok(arrived) => arrived,
        Err(e) => return Err(e),
    };
    if arrived.bytes < want {
        return Err(header.ends_at(arrived.bytes));
    }
    Ok(Some(LabelList {
        items: arrived.items,
    }))
}

/// Reads the values and the end of the file.
pub fn read_values<F: Files>(
    alloc: Global,
    files: &mut F,
    header: Header,
    labels: Option<LabelList>,
) -> Result<Loaded, FileError>
    requires { IsHeader header }
    ensures came { IfOk result (ValuesCame header (F.left files.old) (F.left files.new) labels) }
    ensures refused { IfErr result (ExplainsSize header (16 + label_bytes header) (F.left files.old)) }
    ensures left { IfErr result (Leaves (λ _. value_bytes header + 1) (F.left files.old) (F.left files.new)) }
    ensures files { Reads F.held F.left F.at F.blamed F.faults F.misses F.reliable result files.old files.new }
{
    let want = header.value_bytes();
    let arrived: Arrived<i16> = match read_items(alloc, files, want) {
        Ok(arrived) => arrived,
        Err(e) => return Err(e),
    };
    if arrived.bytes < want {
        return Err(header.ends_at(header.label_bytes() + arrived.bytes));
    }
    match is_at_end(files) {
        Ok(true) => {}
        Ok(false) => return Err(FileError::Trailing(header.file_bytes())),
        Err(e) => return Err(e),
    }
    let rows = Flat::from_values(header.length, arrived.items);
    Ok(Loaded { rows, labels })
}

/// Whether the file is at its end. Else one more byte is read.
pub fn is_at_end<F: Files>(files: &mut F) -> Result<bool, FileError>
    ensures ends { IfOk result (λ ends. Ends ends (F.left files.old) (F.left files.new)) }
    ensures errors { IfErr result (λ e. e ≡ ReadFault) }
    ensures files { Reads F.held F.left F.at F.blamed F.faults F.misses F.reliable result files.old files.new }
{
    let mut byte = [0u8; 1];
    match fill(files, &mut byte) {
        Ok(count) => Ok(count == 0),
        Err(e) => Err(e),
    }
}
