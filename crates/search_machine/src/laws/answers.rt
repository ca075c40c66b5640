//! Laws of the answer and of scans. Each is a function that does nothing: its clause is the law.

ghost use Rattle.std.specs.Prelude.{◌≡◌, ℕ, ◌<◌, ◌≤◌, ℤ, List, [], ◌∷◌, ◌++◌, Some, min, length, slice_get};
ghost use Rattle.series_core.specs.declared.pair.Pair.{Pair};
ghost use Rattle.series_core.specs.declared.distance.TheConstants.{NONE};
ghost use Rattle.series_core.specs.Collection.{Collection};
ghost use Rattle.series_core.specs.Pairs.{smallest};
ghost use Rattle.series_core.specs.Order.{Ascending, Among};
ghost use Rattle.series_core.specs.Answer.{answer as collection_answer, last as collection_last};
ghost use Rattle.search_machine.specs.Ground.{Ground, Fits, HasRank, ShortList, answer, last, plain, worst, scan, scan_one};
ghost use Rattle.search_machine.specs.Measures.{Measures};

/// Where a search measures the series of a collection, its answer and its last distance are the
/// collection's.
pub fn answer_law()
    ensures pairs { (g : Ground) (c : Collection) (q : List ℤ) → Measures g c q
        → answer g ≡ collection_answer c q g.k }
    ensures last { (g : Ground) (c : Collection) (q : List ℤ) → 0 < g.k → Measures g c q
        → last g ≡ collection_last c q g.k }
{}

/// The answer has the lesser of k and the number of series as its length, and each pair at its
/// place by rank.
pub fn rank_law()
    ensures size { (g : Ground) → length (answer g) ≡ min g.k g.count }
    ensures rank { (g : Ground) (n : ℕ) (p : Pair) → slice_get (answer g) n ≡ Some p
        → HasRank g n p }
{}

/// A scan may go member by member: it begins with the list, and each member within the limit is
/// added.
pub fn scan_law()
    ensures none { (g : Ground) (v : ℕ) (ps : List Pair) → ShortList g ps → scan g v [] ps ≡ ps }
    ensures one { (g : Ground) (v s : ℕ) (ss : List ℕ) (ps : List Pair)
        → scan g v (ss ++ s ∷ []) ps ≡ scan_one g v s (scan g v ss ps) }
{}

/// A pair farther than the k-th pair of a list may be passed over: the list stays as it is.
pub fn pass_over_law()
    ensures { (g : Ground) (p : Pair) (ps : List Pair) → 0 < g.k → ShortList g ps
        → p.distance ≤ NONE → worst g ps < p.distance → smallest g.k (p ∷ ps) ≡ ps }
{}

/// What a worker offers is at least the last distance: the k-th pair of a part of the plain list is
/// no nearer.
pub fn offer_law()
    ensures { (g : Ground) → Fits g → (ps : List Pair) → Ascending ps → Among ps (plain g)
        → last g ≤ worst g ps }
{}
