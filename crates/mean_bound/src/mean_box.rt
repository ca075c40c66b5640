//! Boxes of means: where the means of some series lie. A box that is above a limit for a query has none that is not.
ghost use Rattle.std.specs.Prelude.{◌≡◌, [], length, min, max};
ghost use Rattle.std.specs.Simd.Lanes.{zip2};
ghost use Rattle.mean_bound.specs.Boxes.{box_of, box_of_boxes};

use crate::gaps::{greater, lesser};
use crate::means::Means;
use std::marker::Model;
use std::simd::prelude::*;

/// The least and the greatest of each of the means of some series.
#[derive(Clone, Copy)]
pub struct MeanBox {
    pub(crate) lows: [u16; 16],
    pub(crate) highs: [u16; 16],
}

impl Model for MeanBox {
    ghost use Rattle.mean_bound.specs.Boxes.{Box};

    ghost Value = { Box };

    ghost view = { λ b. record { lows = b.lows; highs = b.highs } };

    ghost inverse = { λ b. record { lows = b.lows; highs = b.highs } };
}

impl MeanBox {
    /// The box of the means of some series.
    pub fn around(means: &[Means]) -> MeanBox
        ensures { result ≡ box_of means.now }
    {
        let mut around = MeanBox::of_none();
        for i in 0..means.len() {
            around = around.joined(&MeanBox::of_one(&means[means.len() - 1 - i]));
        }
        around
    }

    /// The box of some boxes, which holds all that one of them holds.
    pub fn around_boxes(boxes: &[MeanBox]) -> MeanBox
        ensures { result ≡ box_of_boxes boxes.now }
    {
        let mut around = MeanBox::of_none();
        for i in 0..boxes.len() {
            around = around.joined(&boxes[boxes.len() - 1 - i]);
        }
        around
    }

    // The box that holds nothing.
    fn of_none() -> MeanBox
        ensures { result ≡ box_of [] }
    {
        MeanBox {
            lows: [u16::MAX; 16],
            highs: [0; 16],
        }
    }

    // The box that holds these means alone.
    fn of_one(means: &Means) -> MeanBox
        ensures { result ≡ record { lows = means.now; highs = means.now } }
    {
        MeanBox {
            lows: means.raised,
            highs: means.raised,
        }
    }

    // The box that holds what either of two holds.
    fn joined(&self, other: &MeanBox) -> MeanBox
        ensures { result ≡ record {
          lows = zip2 min self.now.lows other.now.lows;
          highs = zip2 max self.now.highs other.now.highs;
        } }
    {
        let lows = lesser(
            u16x16::from_array(self.lows),
            u16x16::from_array(other.lows),
        );
        let highs = greater(
            u16x16::from_array(self.highs),
            u16x16::from_array(other.highs),
        );
        MeanBox {
            lows: lows.to_array(),
            highs: highs.to_array(),
        }
    }
}
