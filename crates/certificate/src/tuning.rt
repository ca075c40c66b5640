//! The numbers by which checking is tuned. Each changes how long a check takes, and never what it says.

/// How many series are compared with all queries before the next ones are: few enough to stay near the processor.
pub(crate) const SERIES_OF_GROUP: u32 = 128;
