//! The leaf with which a search for the answer alone begins. Any leaf serves: from one that is near comes a close first limit.
ghost use Rattle.std.specs.Prelude.{◌≡◌, ◌<◌, ◌≤◌, ◌^◌, IfSome, length};

use lower_bound::QueryView;
use search_task::Search;
use series_core::Rows;
use subtree_build::Index;

/// A leaf that is near as a rule: of those below the root child in which the query itself would lie, the one of least bound; where there
/// is no such root child, the leaf that a descent finds, which looks at all of them. None where there is no leaf.
pub(crate) fn first_leaf<R: Rows>(search: &Search<'_, R>) -> Option<u32>
    ensures { IfSome result (λ l. l < length search.now.index.leaves) }
{
    // for the fact that the index can be searched for the question
    let _k = search.k();
    let number = own_number(search.view());
    match root_with(search.index(), number) {
        Some(root) => {
            let (first, end) = search.index().root_leaves(root);
            nearest_of(search, first, end)
        }
        None => search.start_leaf(),
    }
}

// The root number in which the query itself would lie: of each bit the one of lesser bound.
fn own_number(view: &QueryView) -> u32 {
    let (mut number, mut bit) = (0, 1);
    for _segment in 0..view.segments() {
        let other = number + bit;
        if view.bound_root(other) < view.bound_root(number) {
            number = other;
        }
        bit *= 2;
    }
    number
}

// The place of the root child of a number, where there is one.
fn root_with(index: &Index, number: u32) -> Option<u32>
    ensures { IfSome result (λ i. i < length index.now.roots) }
{
    let (mut first, mut end) = (0, index.root_count());
    while first < end {
        let middle = first + (end - first) / 2;
        let found = index.root_number(middle);
        if found == number {
            return Some(middle);
        }
        if found < number {
            first = middle + 1;
        } else {
            end = middle;
        }
    }
    None
}

// The leaf of least bound from one up to but not including another. None where there are none.
fn nearest_of<R: Rows>(search: &Search<'_, R>, first: u32, end: u32) -> Option<u32>
    requires { end ≤ length search.now.index.leaves }
    ensures { IfSome result (λ l. l < length search.now.index.leaves) }
{
    let mut nearest = None;
    let mut least = u64::MAX;
    for leaf in first..end {
        let bound = search.leaf_bound(leaf);
        if bound < least {
            nearest = Some(leaf);
            least = bound;
        }
    }
    nearest
}
