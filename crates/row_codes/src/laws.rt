//! The laws of bounds by codes that searches rest on.
ghost use Rattle.std.specs.Prelude.{◌≡◌, ◌≤◌, length};
ghost use Rattle.series_core.specs.Distance.{squared_distance};
ghost use Rattle.row_codes.specs.Rows.{row_codes};
ghost use Rattle.row_codes.specs.Bound.{AreCodesFor, code_bound};

use series_core::values_fit;

/// The law that the bound of a row by its codes is at most its distance.
pub fn code_bound_is_below_distance(query: &[i16], row: &[i16])
    requires { length row.now ≡ length query.now }
    ensures { code_bound query.now (row_codes row.now) ≤ squared_distance row.now query.now }
{}

/// The law that the codes of a row are codes for every query of its length.
pub fn codes_have_squares(row: &[i16])
    ensures { AreCodesFor (length row.now) (row_codes row.now) }
{
    values_fit(row);
}
