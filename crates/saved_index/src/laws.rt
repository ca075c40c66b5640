//! Laws of the texts of indexes. Each is a function that does nothing: its clause is the law.
ghost use Rattle.saved_index.specs.Laws.{ReadsTexts, TextHasNoFault, TextTellsIndex, TextsAreOne, TextsLoadBack, TreesCanBeSaved};

/// A text is that of one header and one tree alone.
pub fn one_text_law()
    ensures { TextsAreOne }
{}

/// What bytes are read as, where anything, is what they are the text of.
pub fn reading_law()
    ensures { ReadsTexts }
{}

/// A text tells the settings and the index over a collection.
pub fn text_tells_index_law()
    ensures { TextTellsIndex }
{}

/// The text of an index that fits a collection is not refused over it.
pub fn no_fault_law()
    ensures { TextHasNoFault }
{}

/// What is saved of an index over a collection is loaded over it as the same index under the same settings, unless a read fails or
/// memory runs out.
pub fn loads_back_law()
    ensures { TextsLoadBack }
{}

/// The tree of a collection can be saved.
pub fn tree_law()
    ensures { TreesCanBeSaved }
{}
