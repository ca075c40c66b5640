//! Collections of series of one length, however they are held.
//! A type that is `Rows` is seen as the collection that it lends, row by row.

ghost use Rattle.std.specs.Prelude.{◌≡◌, ◌<◌, length, Some, slice_get};
ghost use Rattle.series_core.specs.Collection.{Collection, IsCollection};

/// The greatest length of a series.
pub const MAX_LENGTH: u32 = 65536;

/// The greatest number of series in a collection.
pub const MAX_COUNT: u32 = 16777216;

/// The greatest number of values that a `Flat` or a series file holds: 256 MiB of them.
pub const MAX_VALUES: u32 = 134217728;

/// A collection of series of one length, each a row of 16-bit values.
pub trait Rows {
    ghost collection: { Self → Collection };

    /// The number of series.
    fn count(&self) -> u32
        ensures count { result ≡ length (collection self.now).series }
        ensures sound { IsCollection (collection self.now) };

    /// The length of each series, also where there is none.
    fn length(&self) -> u32
        ensures length { result ≡ (collection self.now).points }
        ensures sound { IsCollection (collection self.now) };

    /// Lends the series with number `i`, copying nothing.
    fn row(&self, i: u32) -> &[i16]
        requires { i < length (collection self.now).series }
        ensures { slice_get (collection self.now).series i ≡ Some result.now };
}
