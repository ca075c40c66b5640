//! The series that were near others last, which are tried first. None is believed: each is measured again.
use crate::tuning::RECENT_SERIES;
use mean_bound::Means;

/// A number that no series has.
const NO_SERIES: u32 = u32::MAX;

/// A series that was near another, with its means, so that one that is far is seen by a bound.
#[derive(Clone, Copy)]
pub(crate) struct Known {
    pub number: u32,
    pub means: Means,
}

impl Known {
    /// No series.
    pub fn none() -> Known {
        Known {
            number: NO_SERIES,
            means: Means::zeros(),
        }
    }
}

/// The series that were near others last, the latest first.
#[derive(Drop)]
pub(crate) struct Recent {
    series: [Known; RECENT_SERIES],
}

impl Recent {
    /// Nothing is remembered yet.
    pub fn new() -> Recent {
        Recent {
            series: [Known::none(); RECENT_SERIES],
        }
    }

    /// The series at a place, below `RECENT_SERIES`; none where nothing is remembered there.
    pub fn at(&self, place: usize) -> Known {
        self.series.get(place).copied().unwrap_or(Known::none())
    }

    /// Puts a series first; those before this place, below `RECENT_SERIES`, move back by one.
    pub fn put_first(&mut self, place: usize, known: Known) {
        for to in (1..RECENT_SERIES).rev() {
            if to <= place {
                self.series[to] = self.series[to - 1];
            }
        }
        self.series[0] = known;
    }
}
