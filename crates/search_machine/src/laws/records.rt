//! Laws of workers' own records, with no order between the calls of different workers: what running
//! threads can know.
//! Each is a function that does nothing: its clause is the law.

ghost use Rattle.std.specs.Prelude.{◌≡◌, ℕ, ◌<◌, ◌≤◌, List, false};
ghost use Rattle.list_totals.specs.Totals.{total};
ghost use Rattle.leaf_queues.specs.PlainQueue.{PlainQueue};
ghost use Rattle.search_machine.specs.Ground.{Ground, Fits, with_workers};
ghost use Rattle.search_machine.specs.Workers.{fills, leader, idle};
ghost use Rattle.search_machine.specs.Machine.{capacity_of};
ghost use Rattle.search_machine.specs.Outcome.{outcome};
ghost use Rattle.search_machine.specs.Legal.{Legal, IsStraight};
ghost use Rattle.search_machine.specs.OwnRecord.{RecordedWorker, nothing_yet};
ghost use Rattle.search_machine.specs.Stands.{Stands, StandsFor};
ghost use Rattle.search_machine.specs.declared.calls.Reply.{Reply};
ghost use Rattle.search_machine.specs.Replies.{ReplyFits, after};
ghost use Rattle.search_machine.specs.Closes.{AllStand, ClaimedOnce, Closes, ClosesStraight, final, puts_by, puts_into};

/// As they open, worker 0 and the other workers stand for the empty record.
pub fn empty_record_law()
    ensures leader { (g : Ground) → Fits g → Stands g 0 (leader g) nothing_yet }
    ensures others { (g : Ground) (i : ℕ) → 0 < i → Stands g i idle nothing_yet }
{}

/// Whatever a hand may answer, a worker that stands for its record stands for the longer record.
pub fn reply_law()
    ensures { (g : Ground) → Fits g → (i : ℕ) (x : RecordedWorker) (reply : Reply) → ReplyFits g reply
        → StandsFor g i x → StandsFor g i (after g i x reply) }
{}

/// What closed objects and the workers' records say together is enough for a legal outcome.
pub fn closing_law()
    ensures { (g : Ground) → Fits g → (team : List RecordedWorker) (queues : List PlainQueue)
        → Closes g team queues → Legal g (outcome g (final g team queues)) }
{}

/// Where no put was refused and what was taken from each queue ascends, the closed objects and the workers' records are
/// enough for a straight outcome.
pub fn straight_closing_law()
    ensures { (g : Ground) → Fits g → (team : List RecordedWorker) (queues : List PlainQueue)
        → ClosesStraight g team queues → IsStraight (outcome g (final g team queues)) }
{}

/// Members that stand for their records, where no number was claimed twice, put no leaf twice, and make no more puts into a
/// queue than leaves belong to it: a queue with that room is never full when a put comes.
pub fn puts_law()
    ensures once { (g : Ground) → Fits g → (team : List RecordedWorker) → AllStand g team
        → ClaimedOnce team → (l : ℕ) → total (puts_by l) team ≤ 1 }
    ensures room { (g : Ground) → Fits g → (team : List RecordedWorker) → AllStand g team
        → ClaimedOnce team → (m : ℕ) → total (puts_into m) team ≤ capacity_of g m g.leaves }
{}

/// A worker that stands for its record does so whatever the number of workers.
pub fn workers_law()
    ensures { (g : Ground) (i n : ℕ) (x : RecordedWorker) → StandsFor g i x
        → StandsFor (with_workers n g) i x }
{}

/// From its first aim on a worker neither claims nor puts, whatever a hand answers.
pub fn draining_law()
    ensures ended { (g : Ground) (i : ℕ) (x : RecordedWorker) (reply : Reply)
        → fills x.worker.phase ≡ false → fills (after g i x reply).worker.phase ≡ false }
    ensures claims { (g : Ground) (i : ℕ) (x : RecordedWorker) (reply : Reply)
        → fills x.worker.phase ≡ false → (after g i x reply).own.claims ≡ x.own.claims }
    ensures puts { (g : Ground) (i : ℕ) (x : RecordedWorker) (reply : Reply)
        → fills x.worker.phase ≡ false → (after g i x reply).own.puts ≡ x.own.puts }
{}
