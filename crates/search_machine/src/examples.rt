//! Small searches, from their opening to their outcomes. Each is a function that does nothing: its clauses are what comes.

ghost use Rattle.std.specs.Prelude.{◌≡◌, [], ◌∷◌, replicate};
ghost use Rattle.search_machine.specs.declared.phase.Phase.TheVariants.{Pop, Done};
ghost use Rattle.search_machine.specs.Ground.{Fits};
ghost use Rattle.search_machine.specs.Machine.{opened, played};
ghost use Rattle.search_machine.specs.Outcome.{outcome};
ghost use Rattle.search_machine.specs.Schedules.{phases, phases_along, scanned_leaves, waiting_entries};
ghost use Rattle.search_machine.specs.Closes.{Closes, final};
ghost use Rattle.search_machine.specs.Replies.{after_all};
ghost use Rattle.search_machine.specs.Examples.{two_series, eleven_phases, eleven_outcome, late_schedule, late_outcome};
ghost use Rattle.search_machine.specs.Examples.{eleven_member, eleven_opening, eleven_queue, eleven_replies};
ghost use Rattle.search_machine.specs.Examples.{three_series, shut_schedule, shut_outcome, six_series, six_schedule, six_outcome, six_waiting, six_scanned};

/// One worker and one queue: it is done after eleven turns and not after ten.
pub fn one_worker_example()
    ensures fits { Fits (two_series 1) }
    ensures turns { phases_along (two_series 1) (replicate 11 0) (opened (two_series 1))
        ≡ eleven_phases }
    ensures ten { phases (played (two_series 1) (replicate 10 0)) ≡ Pop 0 1 ∷ [] }
    ensures eleven { outcome (two_series 1) (played (two_series 1) (replicate 11 0))
        ≡ eleven_outcome }
{}

/// The same search by its worker's own record: what the eleven replies make of the worker and its record closes with the
/// queue, and the state that they make has the same outcome. So what closes say can be met.
pub fn closing_example()
    ensures replies { after_all (two_series 1) 0 eleven_opening eleven_replies ≡ eleven_member }
    ensures closes { Closes (two_series 1) (eleven_member ∷ []) (eleven_queue ∷ []) }
    ensures ends { outcome (two_series 1)
        (final (two_series 1) (eleven_member ∷ []) (eleven_queue ∷ [])) ≡ eleven_outcome }
{}

/// Two workers and one queue: the queue is shut before the put, and the leaf is scanned late.
pub fn late_example()
    ensures fits { Fits (two_series 2) }
    ensures done { phases (played (two_series 2) late_schedule) ≡ Done ∷ Done ∷ [] }
    ensures ends { outcome (two_series 2) (played (two_series 2) late_schedule) ≡ late_outcome }
{}

/// Three workers and two queues: both queues are shut before the first put, with no limit.
pub fn shut_example()
    ensures fits { Fits three_series }
    ensures done { phases (played three_series shut_schedule) ≡ Done ∷ Done ∷ Done ∷ [] }
    ensures ends { outcome three_series (played three_series shut_schedule) ≡ shut_outcome }
{}

/// One worker and two queues: one leaf is cut, one is left in a shut queue, and the others are
/// taken in order.
pub fn straight_example()
    ensures fits { Fits six_series }
    ensures done { phases (played six_series six_schedule) ≡ Done ∷ [] }
    ensures ends { outcome six_series (played six_series six_schedule) ≡ six_outcome }
    ensures left { waiting_entries (played six_series six_schedule) ≡ six_waiting }
    ensures scanned { scanned_leaves (played six_series six_schedule) ≡ six_scanned }
{}
