//! Rows of members, copied side by side. Members stand in another order than rows, so each row is waited for; no copy waits for
//! another one, so that the rows of a block are fetched in the time of one.
ghost use Rattle.std.specs.Prelude.{◌≡◌, ◌*◌, ◌<◌, All, length};
ghost use Rattle.subtree_build.specs.Means.{all_values};

use isax_word::Member;
use series_core::Rows;

/// How many values a block has: so many stay near at hand.
pub(crate) const FETCHED: usize = 16384;

/// Copies the rows of members, one behind another.
pub(crate) fn fetch<R: Rows>(rows: &R, members: &[Member], into: &mut [i16])
    requires series { All (λ m. m.number < length (R.collection rows.now).series) members.now }
    requires places { length into.old ≡ length members.now * (R.collection rows.now).points }
    ensures { into.new ≡ all_values (R.collection rows.now) members.now }
{
    put_first_values(rows, members, into);
    let length = rows.length() as usize;
    for i in 0..members.len() {
        let start = i * length;
        into[start..start + length].copy_from_slice(rows.row(members[i].number));
    }
}

/// Puts the first value of each row where the row is to stand. A processor looks ahead over few whole rows, but over all first values of
/// a block: so it finds the pages of rows side by side, and no copy of a row waits for its page.
fn put_first_values<R: Rows>(rows: &R, members: &[Member], into: &mut [i16])
    requires series { All (λ m. m.number < length (R.collection rows.now).series) members.now }
    requires places { length into.old ≡ length members.now * (R.collection rows.now).points }
    ensures { length into.new ≡ length into.old }
{
    let length = rows.length() as usize;
    for i in 0..members.len() {
        into[i * length] = rows.row(members[i].number)[0];
    }
}
