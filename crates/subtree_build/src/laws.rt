//! Laws of trees that searches rest on. Each is proved of the definitions alone.
ghost use Rattle.std.specs.Prelude.{◌≡◌, ◌<◌, ◌≤◌, length, All};
ghost use Rattle.lower_bound.specs.Bound.{view_of, word_bound};
ghost use Rattle.subtree_build.specs.Fits.{BareTreesFit, Fits, IsNoNearerThan};
ghost use Rattle.subtree_build.specs.Index.{StandsUnder, leaf_at};
ghost use Rattle.subtree_build.specs.Outline.{outline, leaf_numbers};

use crate::index::Index;
use crate::node::Node;
use isax_word::{Layout, Word};
use lower_bound::QueryView;
use series_core::Rows;

/// The law that the bound of each leaf below a node is at least the node's.
pub fn leaf_bound_is_no_less(view: &QueryView, index: &Index, word: &Word, node: &Node)
    requires { StandsUnder index.now.leaves word.now (outline node.now) }
    ensures { All (λ l. word_bound view.now word.now ≤ word_bound view.now (leaf_at index.now.leaves l).word)
        (leaf_numbers node.now) }
{
    let _segments = view.segments();
    let _parts = word.segments();
}

/// The law that the bound of a leaf is at most the distance of each of its members.
pub fn leaf_bound_is_below_distances<R: Rows>(
    rows: &R,
    layout: &Layout,
    query: &[i16],
    index: &Index,
    l: u32,
)
    requires fits { Fits (R.collection rows.now) layout.now index.now }
    requires series_length { (R.collection rows.now).points ≡ layout.now.cuts.row_length }
    requires query_length { length query.now ≡ layout.now.cuts.row_length }
    requires leaf { l < length index.now.leaves }
    ensures { let bound = word_bound (view_of layout.now query.now) (leaf_at index.now.leaves l).word in
        All (IsNoNearerThan bound (R.collection rows.now) query.now) (leaf_at index.now.leaves l).members }
{
    let _count = rows.count();
    let _segments = layout.cuts.segments();
    let _parts = index.leaf_word(l).segments();
}

/// The law that an index with nothing beside its tree fits a collection exactly where its tree does.
pub fn bare_tree_fits()
    ensures { BareTreesFit }
{}
