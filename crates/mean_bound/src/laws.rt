//! The laws of bounds by means that searches rest on.
ghost use Rattle.std.specs.Prelude.{◌≡◌, ◌≤◌, ◌<◌, [], length, slice_index_or};
ghost use Rattle.series_core.specs.Distance.{squared_distance};
ghost use Rattle.mean_bound.specs.MeanBound.{mean_bound, mean_view_of};
ghost use Rattle.mean_bound.specs.Boxes.{box_bound, box_of, box_of_boxes};
ghost use Rattle.mean_bound.specs.Means.{row_means};

use crate::mean_box::MeanBox;
use crate::means::Means;
use crate::view::MeanView;
use segment_sums::Cuts;
use series_core::values_fit;

/// The law that the bound of a series by its means is at most its distance.
#[tactic(auto, using(crate::proofs::BelowDistances::mean_bound_below))]
pub fn mean_bound_is_below_distance(cuts: &Cuts, query: &[i16], series: &[i16])
    requires query_length { length query.now ≡ cuts.now.row_length }
    requires series_length { length series.now ≡ cuts.now.row_length }
    ensures { mean_bound (mean_view_of cuts.now query.now) (row_means cuts.now series.now)
        ≤ squared_distance series.now query.now }
{
    let _segments = cuts.segments();
    values_fit(query);
    values_fit(series);
}

/// The law that the bound of a box of means is at most that of each of them.
pub fn box_bound_is_no_greater(view: &MeanView, means: &[Means], i: usize)
    requires { i < length means.now }
    ensures { box_bound view.now (box_of means.now) ≤ mean_bound view.now (slice_index_or means.now i []) }
{}

/// The law that the bound of a box of boxes is at most that of each of them.
pub fn wider_box_bound_is_no_greater(view: &MeanView, boxes: &[MeanBox], i: usize)
    requires { i < length boxes.now }
    ensures { box_bound view.now (box_of_boxes boxes.now) ≤ box_bound view.now (slice_index_or boxes.now i (box_of [])) }
{}
