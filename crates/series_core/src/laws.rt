//! Laws of pairs and answers, for the crates above to cite. Each is a function that does nothing: its clause is the law.

ghost use Rattle.std.specs.Prelude.{◌≡◌, ℕ, ◌+◌, ◌<◌, ◌≤◌, ◌*◌, ◌++◌, ℤ, List, Some, length, slice_get, take, FitsSigned, nat_le};
ghost use Rattle.std.specs.List.{All, filter};
ghost use mir.Syntax.{w16};
ghost use Rattle.series_core.specs.declared.pair.Pair.{Pair};
ghost use Rattle.series_core.specs.declared.distance.TheConstants.{NONE};
ghost use Rattle.series_core.specs.Collection.{Collection};
ghost use Rattle.series_core.specs.Distance.{squared_distance};
ghost use Rattle.series_core.specs.Pairs.{rank_of, ascending, smallest};
ghost use Rattle.list_totals.specs.Standing.{In};
ghost use Rattle.series_core.specs.Order.{Among, Ascending, AllNear, distance_at};
ghost use Rattle.series_core.specs.Answer.{pairs_of, answer, within};

/// The k smallest pairs of two lists together are the k smallest of their own k smallest.
pub fn joined_law()
    ensures { (k : ℕ) (ps qs : List Pair) → smallest k (smallest k ps ++ smallest k qs) ≡ smallest k (ps ++ qs) }
{}

/// The answer is the k smallest of the pairs of all series, and the pairs within a radius are all that pass, ascending.
pub fn answer_law()
    ensures nearest { (c : Collection) (q : List ℤ) (k : ℕ) → answer c q k ≡ smallest k (pairs_of c q) }
    ensures near { (c : Collection) (q : List ℤ) (r : ℕ)
        → within c q r ≡ ascending (filter (λ p. nat_le p.distance r) (pairs_of c q)) }
{}

/// The place of a pair in the answer is the number of smaller pairs among the pairs of all series.
pub fn rank_law()
    ensures { (c : Collection) (q : List ℤ) (k n : ℕ) (p : Pair) → slice_get (answer c q k) n ≡ Some p
        → (n < k) × (rank_of (pairs_of c q) p ≡ n) × In p (pairs_of c q) }
{}

/// What is among the k smallest of a list is among the k smallest of each part of it that has the pair.
/// A part that has the k smallest of the list has the same k smallest.
pub fn part_law()
    ensures kept { (k : ℕ) (part whole : List Pair) → Ascending part → Ascending whole → Among part whole
        → (p : Pair) → In p (take k whole) → In p part → In p (take k part) }
    ensures same { (k : ℕ) (part whole : List Pair) → Ascending part → Ascending whole → Among part whole
        → Among (take k whole) part → take k part ≡ take k whole }
{}

/// The distance at a place of an ascending list is at most that at the same place of a part of it,
/// and no pair up to that place is farther.
pub fn last_law()
    ensures part { (n : ℕ) (part whole : List Pair) → Ascending part → Ascending whole → AllNear whole
        → Among part whole → distance_at n whole ≤ distance_at n part }
    ensures farthest { (n : ℕ) (whole : List Pair) → Ascending whole → AllNear whole
        → (p : Pair) → In p (take (n + 1) whole) → p.distance ≤ distance_at n whole }
{}

/// Two series of 16-bit values are at most so far apart: with 65536 values, at most 281466386841600.
pub fn distance_law()
    ensures { (xs ys : List ℤ) → All (FitsSigned w16) xs → All (FitsSigned w16) ys
        → squared_distance xs ys ≤ length xs * 4294836225 }
{}
