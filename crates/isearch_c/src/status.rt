//! How a call ended, and the number by which C knows it. The header has the same names and numbers.
ghost use Rattle.std.specs.Prelude.{◌≡◌};
ghost use Rattle.isearch_c.specs.Statuses.{code};

/// How a call ended.
#[derive(Clone, Copy, Debug, PartialEq, Eq)]
pub enum Status {
    /// It did what was asked: 0.
    Done,
    /// The handle has no index: it was never given one, or was freed: 1.
    NoIndex,
    /// The handle that is to be given an index has one: 2.
    HasIndex,
    /// There are no rows, they have no values or more than 65536, the values are no whole number of rows, or there are more than 16777216
    /// rows or 134217728 values: 3. Of windows: the series has more than 16777216 values, or a window none or more than 65536.
    WrongRows,
    /// There are no segments, more than 16, or more than a row has values, or the leaf size is 0 or above 65535: 4.
    WrongSettings,
    /// The values of the queries are no whole number of rows: 5.
    WrongQueries,
    /// k is 0 or above 1024, or windows are to lie 0 or more than 512 apart, or more than 1024 would have to be found to choose from: 6.
    WrongCount,
    /// There are not as many places for distances and for numbers as are wanted: 7.
    WrongPlaces,
    /// The bytes are not the text of an index that fits the rows: 8.
    WrongText,
    /// Memory ran out: 9.
    NoMemory,
}

impl Status {
    /// The number of the status.
    pub fn code(self) -> i32
        ensures { result ≡ code self }
    {
        match self {
            Status::Done => 0,
            Status::NoIndex => 1,
            Status::HasIndex => 2,
            Status::WrongRows => 3,
            Status::WrongSettings => 4,
            Status::WrongQueries => 5,
            Status::WrongCount => 6,
            Status::WrongPlaces => 7,
            Status::WrongText => 8,
            Status::NoMemory => 9,
        }
    }
}
