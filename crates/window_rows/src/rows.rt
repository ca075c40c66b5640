//! The windows of one long series: rows that are lent slices of its values.

ghost use Rattle.std.specs.Prelude.{◌≡◌, ◌<◌, ◌≤◌};
ghost use Rattle.window_rows.specs.Windows.{collection_of, HasFewValues};

use series_core::{MAX_COUNT, MAX_LENGTH, Rows, values_fit};
use std::marker::Model;

/// All windows of one length over lent values: entry i holds the values from place `i * step` on.
#[derive(Drop)]
pub struct Windows<'a> {
    values: &'a [i16],
    length: u32,
    step: u32,
}

impl<'a> Model for Windows<'a> {
    ghost use Rattle.series_core.specs.Collection.{Collection};
    ghost use Rattle.window_rows.specs.Windows.{collection_of, IsLong};

    ghost Value = { Collection };

    ghost view = { λ w. collection_of w.values.now w.length w.step };

    ghost invariant = { λ w. IsLong w.values.now w.length w.step };
}

impl<'a> Windows<'a> {
    /// The windows of `length` values each, from every place that is a whole number of steps.
    /// It copies nothing.
    pub fn new(values: &'a [i16], length: u32, step: u32) -> Windows<'a>
        requires some_point { 0 < length }
        requires length_limit { length ≤ MAX_LENGTH }
        requires some_step { 0 < step }
        requires values_limit { HasFewValues values.now }
        ensures { result ≡ collection_of values.entry.now length step }
    {
        values_fit(values);
        Windows {
            values,
            length,
            step,
        }
    }
}

impl<'a> Rows for Windows<'a> {
    ghost collection = { λ c. c };

    fn count(&self) -> u32 {
        let size = self.values.len() as u32;
        if size < self.length {
            return 0;
        }
        (size - self.length) / self.step + 1
    }

    fn length(&self) -> u32 {
        self.length
    }

    fn row(&self, i: u32) -> &[i16] {
        let start = i as usize * self.step as usize;
        &self.values[start..start + self.length as usize]
    }
}
