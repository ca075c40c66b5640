//! Laws of windows and of choices, for the crates above to cite. Each is a function that does
//! nothing: its clause is the law.

ghost use Rattle.window_rows.specs.Windows.{EachPlaceHasItsWindow, NoOtherWindow};
ghost use Rattle.window_rows.specs.Choice.{FirstAreEnough, NearestAreEnough};

/// There is a window at each place where the series has all its values, and no other.
pub fn windows_law()
    ensures each { EachPlaceHasItsWindow }
    ensures no_other { NoOtherWindow }
{}

/// The `(k - 1) * (2 * apart - 1) + 1` first pairs are enough to choose k from.
pub fn enough_law()
    ensures pairs { FirstAreEnough }
    ensures nearest { NearestAreEnough }
{}
