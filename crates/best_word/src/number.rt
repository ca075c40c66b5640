//! The shared number. Its one rule: it is loaded or made the less of itself and an offer, and never else changed.
ghost use Rattle.std.specs.Prelude.{◌≡◌, ℕ, ◌-◌, ◌≤◌, ◌<◌, [], ◌∷◌, ◌++◌, All, AllPairs};
ghost use Rattle.std.specs.Prelude.{IfOk, replicate, vec_len, vec_capacity};
ghost use Rattle.best_word.specs.Traces.{AtMost, Crosses, IsLegal, IsMet, least, reply};
ghost use Rattle.best_word.specs.Passes.{fresh_pass, pass_of, together};
ghost use Rattle.best_word.specs.Rule.{Kept, fresh};
ghost use Rattle.best_word.specs.declared.rule.Event.TheVariants.{Read, Offer};

use crate::floor::{Floor, Told};
use crate::pass::WordPass;
use crate::rule::{Divide, Falling, Gather, Load, Min, Opening, Terms, View};
use atomic_table::{Seat, Table};
use outside::NoMemory;
use search_limits::MOST_WORKERS;
use std::alloc::Global;
use std::marker::{Brand, Model};
use table_passes::close;

type Number = Table<u8, View, Terms, Falling, Global>;

/// A shared number that only falls. It is seen as its place, what it started at and the number of its passes.
#[derive(Drop)]
pub struct BestWord {
    table: Table<u8, View, Terms, Falling, Global>,
    start: u64,
    callers: u64,
}

impl Model for BestWord {
    ghost use Rattle.std.specs.Prelude.{◌≡◌, ◌<◌};
    ghost use Rattle.best_word.specs.Passes.{Best, best_code, best_of, IsBest};

    ghost Value = { Best };

    ghost coded = { best_code };

    ghost view = { λ b. best_of b.table.shared.table_id b.start b.callers };

    ghost invariant = { λ b. IsBest b.table.shared.table_id b.table.shared.key b.start b.callers };
}

/// Deals the passes out of the first seat, each with the task's floor, which K gives to the opening load.
fn deal<K: Told, T: Floor>(
    task: &T,
    table: &Table<u8, View, Terms, Falling, Global>,
    mut root: Seat<u8, View>,
    callers: u64,
    passes: &mut Vec<WordPass>,
)
    requires told { K.told ≡ T.floor task.now }
    requires floor { T.floor task.now ≤ table.now.shared.key.start }
    requires counts { (table.now.shared.table_id.words ≡ 1) × (callers ≡ table.now.shared.key.callers) }
    requires own { root.table_id ≡ table.now.shared.table_id }
    requires first { root.me ≡ (fresh table.now.shared.key 0 callers, []) }
    requires room { (passes.old.items ≡ []) × (callers ≤ vec_capacity passes.old) }
    ensures { passes.new.items ≡ replicate callers (pass_of table.now.shared.table_id (fresh table.now.shared.key (T.floor task.now) 1)) }
{
    table.shared.load::<Opening<K>>(&mut root, 0);
    for made in 0..callers {
        let seat = table.shared.split_seat::<Divide>(&mut root);
        passes.push_reserved(WordPass::of(seat));
    }
}

impl BestWord {
    /// A number that starts at `start`, at least the task's floor, with one fresh pass for each of the 1 to 64
    /// callers.
    pub fn begin<T: Floor>(
        alloc: Global,
        task: &T,
        start: u64,
        callers: u32,
    ) -> Result<(BestWord, Vec<WordPass>), NoMemory>
        requires callers { (1 ≤ callers) × (callers ≤ MOST_WORKERS) }
        requires floor { T.floor task.now ≤ start }
        ensures start { IfOk result (λ r. r.0.start ≡ start) }
        ensures callers { IfOk result (λ r. r.0.callers ≡ callers) }
        ensures passes { IfOk result (λ r. r.1.items ≡ replicate callers (fresh_pass r.0 (T.floor task.now))) }
    {
        let mut passes = Vec::with_capacity(alloc, callers as usize)?;
        let callers = u64::from(callers);
        let terms = Terms { start, callers };
        let (table, root) = Number::of_words(alloc, &[start], &terms)?;
        deal::<Brand, T>(task, &table, root, callers, &mut passes);
        let best = BestWord {
            table,
            start,
            callers,
        };
        Ok((best, passes))
    }

    /// The number as it is, by one load. It is at least the floor, at most `start`, and at most all that the pass has
    /// found or offered. It takes no memory and waits for nobody.
    pub fn read(&self, pass: &mut WordPass) -> u64
        requires { pass.old.best ≡ self.now }
        ensures range { (pass.old.floor ≤ result) × (result ≤ self.now.start) }
        ensures falls { All (AtMost result) pass.old.trace }
        ensures trace { pass.new ≡ record pass.old { trace = pass.old.trace ++ Read result ∷ [] } }
        ensures legal { IsLegal self.now.start pass.new.floor pass.new.trace }
    {
        let found = self.table.shared.load::<Load>(&mut pass.seat, 0);
        found
    }

    /// Makes the number the less of itself and `value`, at least the floor, by one min, and answers what it was. It
    /// takes no memory and waits for nobody.
    pub fn offer(&self, pass: &mut WordPass, value: u64) -> u64
        requires own { pass.old.best ≡ self.now }
        requires floor { pass.old.floor ≤ value }
        ensures range { (pass.old.floor ≤ result) × (result ≤ self.now.start) }
        ensures falls { All (AtMost result) pass.old.trace }
        ensures trace { pass.new ≡ record pass.old { trace = pass.old.trace ++ Offer value result ∷ [] } }
        ensures legal { IsLegal self.now.start pass.new.floor pass.new.trace }
    {
        let found = self.table.shared.fetch_min::<Min>(&mut pass.seat, 0, value);
        found
    }

    /// Ends it, with all passes back, and answers the least of `start` and all offers. It takes no memory and waits
    /// for nobody.
    pub fn close(self, passes: Vec<WordPass>) -> u64
        requires all { vec_len passes ≡ self.callers }
        requires own { All (λ p. p.best ≡ self) passes.items }
        ensures least { result ≡ least self.start (together passes.items) }
        // each reply is the start, or what some pass offered
        ensures replies { All (λ e. IsMet self.start (together passes.items) (reply e)) (together passes.items) }
        // of any two offers one was answered at most the other's value
        ensures crossed { AllPairs Crosses (together passes.items) }
    {
        let BestWord {
            table,
            start: _,
            callers: _,
        } = self;
        close::<View, Terms, Falling, Gather, WordPass>(table, passes)
    }
}
