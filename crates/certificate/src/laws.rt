//! The law that what certifies answers is a certificate that holds. It does nothing: its clauses are the law.

ghost use Rattle.std.specs.Prelude.{◌≡◌, ◌≤◌, ℕ, List, None, is_some};
ghost use Rattle.certificate.specs.declared.block.Block.{Block};
ghost use Rattle.certificate.specs.Certified.{Asked, CertifyQueries, IsAsked};
ghost use Rattle.certificate.specs.Grammar.{AreBlocks};
ghost use Rattle.certificate.specs.Verdict.{verdict};

use search_limits::MOST_QUEUES;

/// Blocks that certify the answers to all queries, by searches over 1 to 64 queues, may be spelled, and fail no test of
/// `check`.
pub fn certificates_hold()
    ensures spelled { (x : Asked) (leaf_size queues : ℕ) (blocks : List Block) → IsAsked x → 1 ≤ queues → queues ≤ MOST_QUEUES
        → CertifyQueries x leaf_size queues x.queries.series blocks
        → AreBlocks x.layout.cuts.segments (is_some x.labels) blocks }
    ensures passes { (x : Asked) (leaf_size queues : ℕ) (blocks : List Block) → IsAsked x
        → CertifyQueries x leaf_size queues x.queries.series blocks
        → verdict x.rows x.labels x.queries x.k x.layout blocks ≡ None }
{}
