//! One query of a collection of queries.

ghost use Rattle.std.specs.Prelude.{◌≡◌, ◌<◌, ◌≤◌, length, [], get_or};
ghost use Rattle.series_core.specs.declared.rows.TheConstants.{MAX_LENGTH};

use series_core::Rows;

/// Series i, which is as long as the collection says.
pub fn row_of<R: Rows>(rows: &R, i: u32) -> &[i16]
    requires below { i < length (R.collection rows.now).series }
    ensures row { result.now ≡ get_or (R.collection rows.now).series i [] }
    ensures length { length result.now ≡ (R.collection rows.now).points }
    ensures limit { length result.now ≤ MAX_LENGTH }
{
    let _ = rows.length();
    rows.row(i)
}
