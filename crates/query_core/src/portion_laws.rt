//! The laws that limits of portions stand on, and a small search with its portions. They do nothing: their clauses are what they say.
ghost use Rattle.std.specs.Prelude.{◌≡◌, ℕ, ◌-◌, ◌<◌, ◌≤◌, Bool, List, [], ◌∷◌, map};
ghost use Rattle.series_core.specs.Order.{distance_at};
ghost use Rattle.series_core.specs.declared.distance.TheConstants.{NONE};
ghost use Rattle.series_core.specs.declared.pair.Pair.{Pair};
ghost use Rattle.search_machine.specs.Ground.{Fits, Ground, last};
ghost use Rattle.query_core.specs.Portions.{StayAt, nearest_of_six, portion_last, portion_pairs, portion_rank};
ghost use Rattle.query_core.specs.Working.{IsFound};

/// What is no less than the last distances of all portions is no less than that of the search; and where all leaves with marks are of one
/// portion, the pair at the portions' rank of what was found there is no nearer than the portion's last distance.
pub fn portions_law()
    ensures all { (g : Ground) (v : ℕ) → Fits g → ((c : ℕ) → c < g.queues → portion_last g c ≤ v) → last g ≤ v }
    ensures found { (g : Ground) (c : ℕ) (marks : List Bool) (ps : List Pair) → Fits g → StayAt g c marks → IsFound g marks ps
        → portion_last g c ≤ distance_at (portion_rank g - 1) ps }
{}

/// Six series with the distances 9, 6, 6, 5, 7 and 12, each in a leaf of its number, over two queues: those of the even numbers, and of the
/// odd ones.
pub fn portions_example()
    ensures even { map (λ p. p.number) (portion_pairs (nearest_of_six 3) 0) ≡ 2 ∷ 4 ∷ 0 ∷ [] }
    ensures odd { map (λ p. p.number) (portion_pairs (nearest_of_six 3) 1) ≡ 3 ∷ 1 ∷ 5 ∷ [] }
    ensures nearest { (portion_last (nearest_of_six 1) 0 ≡ 6) × (portion_last (nearest_of_six 1) 1 ≡ 5) × (last (nearest_of_six 1) ≡ 5) }
    ensures three { (portion_last (nearest_of_six 3) 0 ≡ 7) × (portion_last (nearest_of_six 3) 1 ≡ 6) × (last (nearest_of_six 3) ≡ 6) }
    ensures seven { (portion_last (nearest_of_six 7) 0 ≡ NONE) × (last (nearest_of_six 7) ≡ NONE) }
{}
