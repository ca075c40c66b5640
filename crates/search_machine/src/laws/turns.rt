//! Laws of the machine, whatever the order of the turns. Each is a function that does nothing: its
//! clause is the law.

ghost use Rattle.std.specs.Prelude.{◌≡◌, ℕ, ◌<◌, List, Some, slice_get};
ghost use Rattle.search_machine.specs.declared.outcome.Outcome.{Outcome};
ghost use Rattle.search_machine.specs.declared.outcome.Fate.TheVariants.{Start as StartFate, Queue as QueueFate};
ghost use Rattle.search_machine.specs.Ground.{Ground, Fits, enough_turns};
ghost use Rattle.search_machine.specs.Machine.{State, turn, opened, played};
ghost use Rattle.search_machine.specs.Sound.{Sound};
ghost use Rattle.search_machine.specs.Outcome.{AllDone, outcome};
ghost use Rattle.search_machine.specs.Legal.{Legal, InLine, IsStraight};
ghost use Rattle.search_machine.specs.Schedules.{NamesEach, PutsHaveRoom};

/// The opening state is sound.
pub fn opening_law()
    ensures { (g : Ground) → Fits g → Sound g (opened g) }
{}

/// A turn of any worker takes a sound state to a sound state.
pub fn turn_law()
    ensures { (g : Ground) → Fits g → (i : ℕ) (s : State) → Sound g s → Sound g (turn g i s) }
{}

/// A sound state in which all workers are done has a legal outcome.
pub fn ending_law()
    ensures { (g : Ground) → Fits g → (s : State) → Sound g s → AllDone s → Legal g (outcome g s) }
{}

/// Whatever the schedule, where it leaves all workers done the outcome is legal.
pub fn schedule_law()
    ensures { (g : Ground) → Fits g → (schedule : List ℕ) → AllDone (played g schedule)
        → Legal g (outcome g (played g schedule)) }
{}

/// A schedule that names each worker `8 * leaves + workers + 2 * workers * queues` times leaves all
/// workers done.
pub fn enough_law()
    ensures { (g : Ground) → Fits g → (schedule : List ℕ) → NamesEach g (enough_turns g) schedule
        → AllDone (played g schedule) }
{}

/// No put is answered Filled, in any sound state and so after any schedule.
pub fn room_law()
    ensures sound { (g : Ground) → Fits g → (s : State) → Sound g s → PutsHaveRoom g s }
    ensures schedule { (g : Ground) → Fits g → (schedule : List ℕ)
        → PutsHaveRoom g (played g schedule) }
{}

/// With one worker the outcome is straight, whatever the number of queues.
pub fn straight_law()
    ensures { (g : Ground) → Fits g → g.workers ≡ 1 → (schedule : List ℕ)
        → AllDone (played g schedule) → IsStraight (outcome g (played g schedule)) }
{}

/// In a legal outcome the start leaf has the fate Start, and a leaf that stands in line m has the
/// fate Queue(m).
pub fn fate_law()
    ensures start { (g : Ground) (o : Outcome) → Legal g o → (l : ℕ) → l < g.leaves
        → g.start ≡ Some l → slice_get o.fates l ≡ Some StartFate }
    ensures queue { (g : Ground) (o : Outcome) → Legal g o → (m l : ℕ) → l < g.leaves
        → InLine o m l → slice_get o.fates l ≡ Some (QueueFate m) }
{}
