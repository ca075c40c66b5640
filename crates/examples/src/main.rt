//! Uses of the libraries, each a function of its own, and a program that prints what they find in four small series.
#![tactic(auto)]

ghost use Rattle.std.specs.Prelude.{◌≡◌, IfOk};

mod certified;
mod nearest;
mod radius;
mod windows;

use breakpoints::Table;
use isax_word::Layout;
use outside::NoMemory;
use segment_sums::Cuts;
use series_core::{Flat, Pair};
use std::alloc::Global;
use subtree_build::Settings;

/// Four series of four values: (0, 0, 0, 0), (10, 10, 10, 10), (-10, -10, -10, -10) and (0, 0, 10, 10).
fn four_series(alloc: Global) -> Result<Flat, NoMemory>
    ensures { IfOk result (λ rows. rows.points ≡ 4) }
{
    let values = [
        0i16, 0, 0, 0, 10, 10, 10, 10, -10, -10, -10, -10, 0, 0, 10, 10,
    ];
    Ok(Flat::from_values(4, values.to_vec(alloc)?))
}

/// One series of four values.
fn one_series(alloc: Global, series: &[i16; 4]) -> Result<Flat, NoMemory>
    ensures { IfOk result (λ rows. rows.points ≡ 4) }
{
    let values = series.to_vec(alloc)?;
    Ok(Flat::from_values(4, values))
}

/// Prints a line for each pair: its number and its squared distance.
fn print_pairs(rt: &HostRuntime, title: &str, pairs: &[Pair]) -> anyhow::Result<()> {
    println!(rt; "{title}")?;
    for pair in pairs {
        println!(rt; "number {} at distance {}", pair.number, pair.distance)?;
    }
    Ok(())
}

fn main(rt: HostRuntime) -> anyhow::Result<()> {
    let rows = four_series(rt.alloc())?;
    let query = [1i16; 4];
    let nearest = nearest::nearest(&rt, rt.alloc(), &rows, &query, 2)?;
    print_pairs(&rt, "the two nearest", &nearest.items)?;
    let near = radius::within(&rt, rt.alloc(), &rows, &query, 324)?;
    print_pairs(&rt, "within the squared distance 324", &near)?;
    let long = [0i16, 0, 1, 1, 1, 1, 0, 0, 2, 2, 2, 2, 0, 0];
    let windows = windows::apart(&rt, rt.alloc(), &long, &query, 2, 4)?;
    print_pairs(
        &rt,
        "the two nearest windows that lie four values apart",
        &windows.items,
    )?;
    let queries = one_series(rt.alloc(), &query)?;
    let settings = Settings {
        layout: Layout {
            cuts: Cuts::new(4, 2),
            table: Table::Flat,
        },
        leaf_size: 1000,
    };
    let text = certified::written(&rt, rt.alloc(), &rows, &query, 2, &settings)?;
    let blocks = certified::checked(rt.alloc(), &rows, &queries, 2, &settings.layout, &text)?;
    println!(rt;
        "a certificate of {} bytes holds for {} query",
        text.len(),
        blocks.len()
    )?;
    Ok(())
}
