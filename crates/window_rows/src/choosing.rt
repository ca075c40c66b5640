//! Choosing pairs whose numbers lie apart, in one pass over a list.

ghost use Rattle.std.specs.Prelude.{◌≡◌, ◌<◌, ◌++◌, ◌&&◌, IfOk, OnOk, nat_lt, if◌then◌else◌};
ghost use Rattle.window_rows.specs.Choice.{is_apart, is_apart_from, chosen_apart, added};

use outside::NoMemory;
use series_core::{Pair, PairList};
use std::alloc::{AllocError, Global};

/// At most k pairs: each is the first of the list whose number differs by at least `apart` from
/// those before it.
pub fn choose(alloc: Global, pairs: &[Pair], apart: u32, k: u32) -> Result<PairList, NoMemory>
    requires { 0 < apart }
    ensures { IfOk result (λ chosen. chosen ≡ chosen_apart apart pairs.now k) }
{
    let mut items = Vec::new(alloc);
    for pair in pairs {
        take_if_apart(&mut items, pair, apart, k)?;
    }
    Ok(PairList { items })
}

// Takes the pair for the next rank, where there is one of the k and the pair lies apart from those
// of the others.
fn take_if_apart(chosen: &mut Vec<Pair>, pair: &Pair, apart: u32, k: u32) -> Result<(), AllocError>
    ensures { OnOk result (chosen.new.items ≡ added apart k chosen.old.items pair.now) }
{
    if chosen.len() < k as usize && is_apart_from(chosen, pair, apart) {
        chosen.push(*pair)?;
    }
    Ok(())
}

// Whether the pair's number lies apart from those of all these pairs.
fn is_apart_from(chosen: &[Pair], pair: &Pair, apart: u32) -> bool
    ensures { result ≡ is_apart_from apart chosen.now pair.now }
{
    chosen
        .iter()
        .all(|other| pair.number.abs_diff(other.number) >= apart)
}
