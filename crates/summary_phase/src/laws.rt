//! What the buffers of all workers hold together.
ghost use Rattle.std.specs.Prelude.{◌≡◌, ◌<◌, ◌^◌, true, All, length, map};
ghost use Rattle.std.specs.List.Sorted.{IsPermutation};
ghost use Rattle.claim_word.specs.Passes.{EachDrawnOnce};
ghost use Rattle.summary_phase.specs.Members.{members_of};
ghost use Rattle.summary_phase.specs.Chunks.{chunk_count};
ghost use Rattle.summary_phase.specs.Roots.{of_root, buffers_of, root_of_all};

use crate::buffers::Buffers;
use claim_word::ClaimPass;
use isax_word::Layout;
use series_core::Rows;

/// The law that where passes drew all chunks of a collection, each once, and these are their buffers, the buffers
/// together hold for each root the members that the collection has under it, each once.
pub fn root_law<R: Rows>(
    rows: &R,
    layout: &Layout,
    passes: &[ClaimPass],
    buffers: &[Buffers],
    root: u32,
)
    requires root { root < 2 ^ layout.now.cuts.segments }
    requires some { 0 < length passes.now }
    requires ended { All (λ p. p.ended ≡ true) passes.now }
    requires drawn { EachDrawnOnce (chunk_count (length (R.collection rows.now).series)) passes.now }
    requires filled { buffers.now ≡ map (λ p. buffers_of layout.now (R.collection rows.now) p.draws) passes.now }
    ensures { let members = members_of layout.now (R.collection rows.now) in
        IsPermutation (of_root members root) (root_of_all buffers.now root) }
{}
