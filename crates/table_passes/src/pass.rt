//! The right of one caller to a table. Its one rule: it is a seat that holds no slot, seen as what its record shows.
ghost use Rattle.std.specs.Prelude.{◌≡◌, []};
ghost use Rattle.atomic_table.specs.Seated.{TableId};

use atomic_table::Seat;

/// The right of one caller to a table whose seats have records V.
pub trait TablePass<V> {
    /// Whose pass it is.
    ghost table: { Self → TableId };

    /// What a seat of this table with this record is seen as.
    ghost seen: { TableId → V → Self };

    /// A record is that of one pass.
    ghost own: { V → Type 0 };

    /// The seat behind the pass.
    fn into_seat(self) -> Seat<u8, V>
        ensures table { result.table_id ≡ table self }
        ensures seen { seen result.table_id result.me.0 ≡ self }
        ensures own { own result.me.0 }
        ensures slots { result.me.1 ≡ [] };
}
