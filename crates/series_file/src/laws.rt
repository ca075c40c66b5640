//! Laws of series files, for the crates above to cite. Each is a function that does nothing: its clause is the law.

ghost use Rattle.series_file.specs.Laws.{StandForOne, FilesPass, PassingStand};

/// The text of a collection is the text of no other, in the same form.
pub fn one_collection_law()
    ensures { StandForOne }
{}

/// A file that stands for a collection passes all tests.
pub fn no_fault_law()
    ensures { FilesPass }
{}

/// Bytes that fail no test are a file, and stand for a collection.
pub fn collection_law()
    ensures { PassingStand }
{}
