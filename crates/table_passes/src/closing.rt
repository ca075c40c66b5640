//! Closing a table of one word. Its one rule: one seat takes in all others, from the last pass on down to the first.
ghost use Rattle.std.specs.Prelude.{◌≡◌, ℕ, ◌<◌, All, vec_len};
ghost use Rattle.atomic_table.specs.Table.{Joins};
ghost use Rattle.table_passes.specs.AllBack.{AllBack};

use crate::pass::TablePass;
use atomic_table::{Join, Table, TableRule};
use std::alloc::Global;

/// Ends a table of one word and no slot, with all its passes back, and answers the word: the rule holds of a last state in
/// which one record was joined from those of all passes. It takes no memory and waits for nobody.
pub fn close<V, K, R: TableRule<u8, V, K>, J: Join<V>, P: TablePass<V> + Drop>(
    table: Table<u8, V, K, R, Global>,
    mut passes: Vec<P>,
) -> u64
    requires counts { (table.shared.table_id.words ≡ 1) × (table.shared.table_id.slots ≡ 0) }
    requires some { 0 < vec_len passes }
    requires table { All (λ p. P.table p ≡ table.shared.table_id) passes.items }
    requires joins { (id : ℕ) (v : V) (other : ℕ) (w : V) → P.own w
        → Joins (R.holds table.shared.key) id v other w (J.both v w) J.spent }
    ensures { AllBack (R.holds table.shared.key) (P.seen table.shared.table_id) P.own J.both passes.items result }
{
    let Some(last) = passes.pop() else {
        unreachable!()
    };
    let mut seat = last.into_seat();
    while let Some(pass) = passes.pop() {
        table.shared.join_seat::<J>(&mut seat, pass.into_seat());
    }
    let closed = table.close_with(seat);
    let word = closed.word(0);
    closed.free();
    word
}
