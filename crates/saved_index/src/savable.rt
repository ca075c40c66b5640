//! Whether an index can be saved: the test beside `save`.
ghost use Rattle.std.specs.Prelude.{◌≡◌, ◌≤◌, ◌<◌, ◌↔◌, IsTrue, length};
ghost use Rattle.std.specs.List.{All};
ghost use Rattle.saved_index.specs.IndexText.{AreSaved, CanSave, HasSaved};

use isax_word::Member;
use series_core::MAX_COUNT;
use subtree_build::{Index, Settings};

/// Whether these members of a leaf can be saved.
fn are_saved(members: &[Member], count: u32) -> bool
    ensures { IsTrue result ↔ AreSaved count members.now }
{
    for i in 0..members.len() {
        if members[i].number >= count {
            return false;
        }
        if i > 0 && members[i - 1].number >= members[i].number {
            return false;
        }
    }
    !members.is_empty()
}

/// Whether the members of each leaf can be saved.
fn all_saved(index: &Index, count: u32) -> bool
    ensures { IsTrue result ↔ All (HasSaved count) index.now.leaves }
{
    for l in 0..index.leaf_count() {
        if !are_saved(index.leaf_members(l), count) {
            return false;
        }
    }
    true
}

/// Whether an index can be saved as that of `count` series under these settings.
pub fn can_save(settings: &Settings, count: u32, index: &Index) -> bool
    ensures { IsTrue result ↔ CanSave settings.now count index.now }
{
    index.segments() == settings.layout.cuts.segments()
        && count <= MAX_COUNT
        && 1 <= settings.leaf_size
        && settings.leaf_size <= 65535
        && all_saved(index, count)
}
