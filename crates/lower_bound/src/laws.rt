//! The laws of lower bounds that a search rests on.
ghost use Rattle.std.specs.Prelude.{◌≡◌, ◌<◌, ◌≤◌, true, length};
ghost use Rattle.isax_word.specs.FullWord.{full_word};
ghost use Rattle.isax_word.specs.Word.{part_at, word_contains, child_word};
ghost use Rattle.series_core.specs.Distance.{squared_distance};
ghost use Rattle.lower_bound.specs.Bound.{view_of, word_bound, eight_bit_word};

use crate::view::QueryView;
use isax_word::{Layout, Word};

/// The law that a word's bound is at most the distance of the query to every series whose full word it contains.
pub fn bound_is_below_distance(layout: &Layout, query: &[i16], word: &Word, series: &[i16])
    requires query_length { length query.now ≡ layout.now.cuts.row_length }
    requires series_length { length series.now ≡ layout.now.cuts.row_length }
    requires segments { length word.now ≡ layout.now.cuts.segments }
    requires contained { word_contains word.now (full_word layout.now series.now) ≡ true }
    ensures { word_bound (view_of layout.now query.now) word.now ≤ squared_distance series.now query.now }
{
    let _segments = layout.cuts.segments();
    let _parts = word.segments();
}

/// The law that the bound of a series' own full word is at most its distance.
pub fn full_bound_is_below_distance(layout: &Layout, query: &[i16], series: &[i16])
    requires query_length { length query.now ≡ layout.now.cuts.row_length }
    requires series_length { length series.now ≡ layout.now.cuts.row_length }
    ensures { let full = eight_bit_word (full_word layout.now series.now) in
        word_bound (view_of layout.now query.now) full ≤ squared_distance series.now query.now }
{
    let _segments = layout.cuts.segments();
}

/// The law that the bound of a word's child is at least the word's.
pub fn child_bound_is_no_less(view: &QueryView, word: &Word, segment: u32, high: bool)
    requires used { segment < length word.now }
    requires divisible { (part_at word.now segment).bits < 8 }
    ensures { word_bound view.now word.now ≤ word_bound view.now (child_word word.now segment high) }
{
    let _segments = view.segments();
    let _parts = word.segments();
}
