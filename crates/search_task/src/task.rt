//! The task of a search: which rows are searched, for what query, and how many pairs are wanted.
ghost use Rattle.std.specs.Prelude.{◌≡◌, ◌<◌, ◌≤◌, length};
ghost use Rattle.mean_bound.specs.MeanBound.{mean_view_of};
ghost use Rattle.row_codes.specs.Rows.{block_count};
ghost use Rattle.subtree_build.specs.Means.{coded_points};
ghost use Rattle.search_task.specs.Questions.{IsQuestion, coded_query, view_in, last_of};

use best_word::Floor;
use isax_word::Layout;
use lower_bound::QueryView;
use mean_bound::MeanView;
use row_codes::{CodeView, block_count};
use series_core::{MAX_BEST, Rows, values_fit};
use std::marker::Model;
use subtree_build::coded_length;

/// A query over rows: the k nearest of them are wanted. It is seen as the question that it asks.
#[derive(Drop)]
pub struct Task<'a, R: Rows> {
    pub(crate) rows: &'a R,
    pub(crate) query: &'a [i16],
    k: u32,
    view: QueryView,
    means: MeanView,
    codes: CodeView<'a>,
}

impl<'a, R: Rows> Model for Task<'a, R> {
    ghost use Rattle.std.specs.Prelude.{◌≡◌};
    ghost use Rattle.search_task.specs.Questions.{Question, IsQuestion, coded_query};
    ghost use Rattle.lower_bound.specs.Bound.{view_of};
    ghost use Rattle.mean_bound.specs.MeanBound.{mean_view_of};

    ghost Value = { Question };

    ghost view = { λ t. record {
      collection = R.collection t.rows.now;
      query = t.query.now;
      k = t.k;
      layout = t.view.layout;
    } };

    ghost invariant = { λ t. IsQuestion (record {
      collection = R.collection t.rows.now;
      query = t.query.now;
      k = t.k;
      layout = t.view.layout;
    }) × (t.view ≡ view_of t.view.layout t.query.now) × (t.means ≡ mean_view_of t.view.layout.cuts t.query.now)
        × (t.codes ≡ coded_query (R.collection t.rows.now) t.query.now) };
}

/// The distance of the last pair of the answer, or `NONE` where there are fewer than k series: no limit falls below it.
impl<'a, R: Rows> Floor for Task<'a, R> {
    ghost floor = { last_of };
}

impl<'a, R: Rows> Task<'a, R> {
    /// The task of finding the `k` nearest rows to a query, from 1 to 1024, by words of this layout.
    pub fn new(rows: &'a R, query: &'a [i16], k: u32, layout: &Layout) -> Task<'a, R>
        requires some { 0 < k }
        requires limit { k ≤ MAX_BEST }
        requires rows { (R.collection rows.now).points ≡ layout.now.cuts.row_length }
        requires query { length query.now ≡ layout.now.cuts.row_length }
        ensures { result ≡ record {
          collection = R.collection rows.now;
          query = query.now;
          k = k;
          layout = layout.now;
        } }
    {
        // for the facts that the rows are a collection, and that the cuts divide a row
        let _count = rows.count();
        let _segments = layout.cuts.segments();
        values_fit(query);
        Task {
            rows,
            query,
            k,
            view: QueryView::new(layout, query),
            means: MeanView::new(&layout.cuts, query),
            codes: code_view_of(rows, query),
        }
    }

    /// How many pairs are wanted.
    pub fn k(&self) -> u32
        ensures k { result ≡ self.now.k }
        ensures question { IsQuestion self.now }
    {
        self.k
    }

    /// How many rows are searched.
    pub fn count(&self) -> u32
        ensures count { result ≡ length self.now.collection.series }
        ensures question { IsQuestion self.now }
    {
        self.rows.count()
    }

    /// How many values each row has.
    pub fn row_length(&self) -> usize
        ensures { result ≡ length self.now.query }
    {
        self.query.len()
    }

    /// The query as bounds by means see it.
    pub fn means(&self) -> &MeanView
        ensures means { result.now ≡ mean_view_of self.now.layout.cuts self.now.query }
        ensures question { IsQuestion self.now }
    {
        &self.means
    }

    /// The query as bounds by codes see it.
    pub fn codes(&self) -> &CodeView<'a>
        ensures codes { result.now ≡ coded_query self.now.collection self.now.query }
        ensures question { IsQuestion self.now }
    {
        &self.codes
    }

    /// How many blocks of codes stand for a row.
    pub fn code_blocks(&self) -> usize
        ensures count { result ≡ block_count (coded_points self.now.collection) }
        ensures question { IsQuestion self.now }
    {
        // for the fact that the task is a question
        let _k = self.k();
        block_count(coded_length(self.rows)) as usize
    }

    /// The query as bounds see it.
    pub fn view(&self) -> &QueryView
        ensures view { result.now ≡ view_in self.now }
        ensures question { IsQuestion self.now }
    {
        &self.view
    }
}

// A query to rows as bounds by their codes see it.
fn code_view_of<'a, R: Rows>(rows: &R, query: &'a [i16]) -> CodeView<'a>
    requires { length query.now ≡ (R.collection rows.now).points }
    ensures { result ≡ coded_query (R.collection rows.now) query.now }
{
    // for the fact that the rows are a collection
    let _count = rows.count();
    CodeView::new(&query[..coded_length(rows) as usize])
}
