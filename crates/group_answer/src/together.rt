//! Queries that are swept together, and their answers. Queries that make no whole four are left out.
ghost use Rattle.std.specs.Prelude.{◌-◌, ◌*◌, ◌+◌, ◌≤◌, All, IfOk, length};
ghost use Rattle.group_answer.specs.Asking.{AreAnswers, IsAnswer, IsAsked};
ghost use Rattle.group_answer.specs.Sweeping.{AreSwept, IsChosen, IsSwept, members_of};

use crate::asked::{Answered, Asked};
use crate::chosen::{Chosen, choose};
use crate::four::Four;
use crate::sweep::sweep;
use crate::swept::Swept;
use outside::NoMemory;
use series_core::{PairList, Rows};
use std::alloc::Global;

/// The answers to some of the queries from `first` up to but not including `end`, the last first: to those that a sample chooses to be swept,
/// as far as they make fours. There are none where it does not choose the first.
pub fn swept_together<R: Rows>(
    alloc: Global,
    asked: &Asked<'_, R>,
    first: u32,
    end: u32,
) -> Result<Vec<Answered>, NoMemory>
    requires asked { IsAsked R.collection asked.now }
    requires end { end ≤ length asked.now.queries.now.series }
    requires order { first ≤ end }
    ensures few { IfOk result (λ found. length found.items ≤ end - first) }
    ensures right { IfOk result (λ found. AreAnswers R.collection asked.now found.items) }
{
    let chosen = choose(alloc, asked, first, end)?;
    let mut fours = fours_of(alloc, asked, chosen.as_slice())?;
    sweep(asked, fours.as_mut_slice());
    answers_of(alloc, asked, fours)
}

// The fours that some chosen queries make, which have met no row yet.
fn fours_of<'a, R: Rows>(
    alloc: Global,
    asked: &Asked<'_, R>,
    chosen: &'a [Chosen<'a, R>],
) -> Result<Vec<Four<'a, R>>, NoMemory>
    requires chosen { All (IsChosen R.collection asked.now) chosen.now }
    ensures few { IfOk result (λ fours. 4 * length fours.items ≤ length chosen.now) }
    ensures swept { IfOk result (λ fours. All (AreSwept R.collection asked.now 0) fours.items) }
{
    let mut fours = Vec::new(alloc);
    for i in 0..chosen.len() / 4 {
        fours.push(Four::begin(alloc, asked, chosen, 4 * i)?)?;
    }
    Ok(fours)
}

// The answers of fours that have met all members, the last first.
fn answers_of<R: Rows>(
    alloc: Global,
    asked: &Asked<'_, R>,
    mut fours: Vec<Four<'_, R>>,
) -> Result<Vec<Answered>, NoMemory>
    requires swept { All (AreSwept R.collection asked.now (length (members_of asked.now.index.now))) fours.items }
    ensures few { IfOk result (λ found. length found.items ≤ 4 * length fours.entry.items) }
    ensures right { IfOk result (λ found. AreAnswers R.collection asked.now found.items) }
{
    let mut found = Vec::new(alloc);
    while let Some(four) = fours.pop() {
        push_four(alloc, asked, &four, &mut found)?;
    }
    Ok(found)
}

// Puts the answers of a four that has met all members behind those that were found, the last first.
fn push_four<R: Rows>(
    alloc: Global,
    asked: &Asked<'_, R>,
    four: &Four<'_, R>,
    found: &mut Vec<Answered>,
) -> Result<(), NoMemory>
    requires swept { AreSwept R.collection asked.now (length (members_of asked.now.index.now)) four.now }
    requires right { AreAnswers R.collection asked.now found.old.items }
    ensures few { IfOk result (λ _. length found.new.items ≤ length found.old.items + 4) }
    ensures right { IfOk result (λ _. AreAnswers R.collection asked.now found.new.items) }
{
    let a = answer_of(alloc, asked, &four.a)?;
    let b = answer_of(alloc, asked, &four.b)?;
    let c = answer_of(alloc, asked, &four.c)?;
    let d = answer_of(alloc, asked, &four.d)?;
    found.push(d)?;
    found.push(c)?;
    found.push(b)?;
    found.push(a)?;
    Ok(())
}

// The answer to a query that has met all members.
fn answer_of<R: Rows>(
    alloc: Global,
    asked: &Asked<'_, R>,
    swept: &Swept<'_, R>,
) -> Result<Answered, NoMemory>
    requires swept { IsSwept R.collection asked.now (length (members_of asked.now.index.now)) swept.now }
    ensures { IfOk result (IsAnswer R.collection asked.now) }
{
    let _ = asked;
    let items = swept.list.pairs().to_vec(alloc)?;
    Ok(Answered {
        number: swept.chosen.number,
        pairs: PairList { items },
    })
}
