//! A collection in one flat vector, whose rows are lent slices.
//! Its values are those of series 0, then of series 1, and so on.

ghost use Rattle.std.specs.Prelude.{◌≡◌, ◌+◌, ◌*◌, ◌/◌, ◌<◌, ◌≤◌, length, vec_len, Some, slice_get};
ghost use Rattle.series_core.specs.Collection.{IsCollection};
ghost use Rattle.series_core.specs.Flat.{rows_of, joined};

use crate::ranges::values_fit;
use crate::rows::{MAX_COUNT, MAX_LENGTH, MAX_VALUES, Rows};
use std::marker::Model;

/// A collection in one flat vector: at most `MAX_VALUES` values, series after series.
#[derive(Drop)]
pub struct Flat {
    length: u32,
    count: u32,
    values: Vec<i16>,
}

impl Model for Flat {
    ghost use Rattle.series_core.specs.Collection.{Collection};
    ghost use Rattle.series_core.specs.Flat.{rows_of, IsFlat};

    ghost Value = { Collection };

    ghost view = { λ f. record { points = f.length; series = rows_of f.length f.count f.values.items } };

    ghost invariant = { λ f. IsFlat f.length f.count f.values.items };
}

impl Flat {
    /// The collection of series of `length` values each that `values` holds one after another.
    pub fn from_values(length: u32, values: Vec<i16>) -> Flat
        requires some_point { 0 < length }
        requires length_limit { length ≤ MAX_LENGTH }
        requires whole { (vec_len values / length) * length ≡ vec_len values }
        requires count_limit { vec_len values / length ≤ MAX_COUNT }
        requires values_limit { vec_len values ≤ MAX_VALUES }
        ensures points { result.points ≡ length }
        ensures series { result.series ≡ rows_of length (vec_len values / length) values.items }
        ensures sound { IsCollection result }
    {
        values_fit(&values);
        let count = (values.len() / length as usize) as u32;
        Flat {
            length,
            count,
            values,
        }
    }

    /// All values in order: those of series 0, then of series 1, and so on.
    pub fn values(&self) -> &[i16]
        ensures { result.now ≡ joined self.now.series }
    {
        &self.values
    }
}

impl Rows for Flat {
    ghost collection = { λ c. c };

    fn count(&self) -> u32 {
        self.count
    }

    fn length(&self) -> u32 {
        self.length
    }

    fn row(&self, i: u32) -> &[i16] {
        let length = self.length as usize;
        let start = i as usize * length;
        let values = self.values.as_slice();
        &values[start..start + length]
    }
}
