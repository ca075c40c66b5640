//! The laws. Each is a function that does nothing: its clauses are the law.

ghost use Rattle.std.specs.Prelude.{◌≡◌, ℕ, ◌++◌};
ghost use Rattle.list_totals.specs.Totals.{total};
ghost use Rattle.list_totals.specs.Below.{sum_below};
ghost use Rattle.turn_lock.specs.History.{IsLegal, calls_by, state_after};
ghost use Rattle.leaf_queues.specs.declared.calls.Call.{Call};
ghost use Rattle.leaf_queues.specs.PlainQueue.{PlainQueue, empty_queue, next};
ghost use Rattle.search_machine.specs.Ground.{Ground};
ghost use Rattle.search_machine.specs.Basics.{Ordered};
ghost use Rattle.search_machine.specs.Closes.{QueueCloses};
ghost use Rattle.search_machine.specs.OwnRecord.{RecordedWorker};
ghost use Rattle.queue_histories.specs.Histories.{ArePops, ArePuts, History, Leads, Past, Stepped, answers};
ghost use Rattle.queue_histories.specs.Closings.{NoneRefusedAt, TeamAgrees};
ghost use Rattle.queue_histories.specs.Callers.{CalledBelow, Count, EachAccounts, Team};
ghost use Rattle.queue_histories.specs.Rooms.{AllPlaced, ArePutsInto, HasRoom, IsOpenFor, MadeWithinRoom, PutsDiffer, PutsPlaced, opened_for};

/// What one call makes of a queue: counts, order, and what shut it.
pub fn call_law()
    ensures { (q : PlainQueue) (call : Call) → Stepped q (next q call).0 call (next q call).1 }
{}

/// What any legal history makes of a queue: counts, order, what shut it, and what waits in it once it is shut.
pub fn history_law()
    ensures { (q : PlainQueue) (log : History) → IsLegal answers q log
        → Past q (state_after answers q log) log }
{}

/// A sum over a history is the sum over its callers, each by its own calls. Where each of a team's members accounts for
/// the calls of its own number, it is the sum over the team.
pub fn callers_law()
    ensures callers { (f : Count) (n : ℕ) (log : History) → CalledBelow n log
        → total f log ≡ sum_below n (λ i. total f (calls_by i log)) }
    ensures team { (f : Count) (count : RecordedWorker → ℕ) (team : Team) (log : History)
        → EachAccounts f count team log → total f log ≡ total count team }
{}

/// No put is refused where an open queue has room for as many puts as there are calls; nor where the puts name different
/// leaves of the queue, which has room for all its leaves; nor where by its records a team put no more than that room.
pub fn never_refused_law()
    ensures counted { (q : PlainQueue) (log : History) → ArePuts log → HasRoom q log
        → IsLegal answers q log → AllPlaced log }
    ensures different { (g : Ground) (m : ℕ) (q : PlainQueue) (log : History) → IsOpenFor g m q
        → ArePutsInto g m log → PutsDiffer q log → IsLegal answers q log → AllPlaced log }
    ensures team { (g : Ground) (m : ℕ) (team : Team) (log : History)
        → MadeWithinRoom g m team log → IsLegal answers (opened_for g m) log → AllPlaced log }
{}

/// Two histories in a row, as of a lock that was closed and begun again, are one history, in which each caller's calls
/// follow those that it made first.
pub fn joined_law()
    ensures leads { (q r s : PlainQueue) (first second : History) → Leads q first r → Leads r second s
        → Leads q (first ++ second) s }
    ensures callers { (i : ℕ) (first second : History)
        → calls_by i (first ++ second) ≡ calls_by i first ++ calls_by i second }
{}

/// What pops alone take from a queue that puts alone filled ascends by bound and leaf.
pub fn order_law()
    ensures { (n : ℕ) (q r : PlainQueue) (fill drain : History) → ArePuts fill → ArePops drain
        → Leads (empty_queue n) fill q → Leads q drain r → Ordered r.taken }
{}

/// A queue that opened empty, with room for its leaves, says all that a closed queue should, where the records of the
/// team that made its calls agree with its history. No put of the records was refused where the history's were placed.
pub fn closing_queue_law()
    ensures closes { (g : Ground) (team : Team) (m : ℕ) (q : PlainQueue) (log : History)
        → Leads (opened_for g m) log q → TeamAgrees m team log → QueueCloses g team m q }
    ensures placed { (m : ℕ) (team : Team) (log : History) → TeamAgrees m team log
        → PutsPlaced log → NoneRefusedAt m team }
{}
