//! Four queries against the codes of a row at once: what the words hold is taken out once for all of them, so each costs less than alone.
ghost use Rattle.std.specs.Prelude.{◌≡◌, ◌+◌, ◌-◌, ◌*◌, ◌<◌, ◌≤◌, ◌&&◌, ◌∷◌, [], drop, length, leb, take};
ghost use Rattle.row_codes.specs.Codes.{codes_of, pictured, value_squares};
ghost use Rattle.row_codes.specs.Bound.{AreCodesFor, block_distance, bound_at, each_within};
ghost use Rattle.row_codes.specs.Lanes.{IsBlockDot};
ghost use Rattle.row_codes.specs.Kept.{filled, values_at};

use crate::block::CodeBlock;
use crate::lanes::dots_of_four;
use crate::limit::CodeLimit;
use crate::view::CodeView;

/// How one query stands up to some block: how far it lies from what the codes stand for, squared, and whether the row may be near.
#[derive(Clone, Copy)]
struct Standing {
    squared: u64,
    within: bool,
}

/// For each of four queries of one length, each with a limit of its own, whether the lower bound of a row by its codes is at most that
/// limit. The test stops behind the first block up to whose end the row is too far for all of them.
pub fn four_within(
    a: &CodeView,
    b: &CodeView,
    c: &CodeView,
    d: &CodeView,
    codes: &[CodeBlock],
    limits: &[CodeLimit; 4],
) -> [bool; 4]
    requires a { AreCodesFor (length a.now) codes.now }
    requires b { AreCodesFor (length b.now) codes.now }
    requires c { AreCodesFor (length c.now) codes.now }
    requires d { AreCodesFor (length d.now) codes.now }
    ensures { result ≡ each_within codes.now limits.now (a.now ∷ b.now ∷ c.now ∷ d.now ∷ []) }
{
    if let [code] = codes {
        return four_within_only(a, b, c, d, code, limits);
    }
    four_within_all(a, b, c, d, codes, limits)
}

/// The same for a row of one block: nothing of a query is carried on, so the four tests need no branch.
#[inline(always)]
fn four_within_only(
    a: &CodeView,
    b: &CodeView,
    c: &CodeView,
    d: &CodeView,
    code: &CodeBlock,
    limits: &[CodeLimit; 4],
) -> [bool; 4]
    requires a { AreCodesFor (length a.now) (code.now ∷ []) }
    requires b { AreCodesFor (length b.now) (code.now ∷ []) }
    requires c { AreCodesFor (length c.now) (code.now ∷ []) }
    requires d { AreCodesFor (length d.now) (code.now ∷ []) }
    ensures { result ≡ each_within (code.now ∷ []) limits.now (a.now ∷ b.now ∷ c.now ∷ d.now ∷ []) }
{
    let (dot_a, dot_b, dot_c, dot_d) = dots_of_four(
        &code.words,
        a.only_values(),
        b.only_values(),
        c.only_values(),
        d.only_values(),
    );
    [
        a.only_is_allowed(code, dot_a, &limits[0]),
        b.only_is_allowed(code, dot_b, &limits[1]),
        c.only_is_allowed(code, dot_c, &limits[2]),
        d.only_is_allowed(code, dot_d, &limits[3]),
    ]
}

/// The same, block by block.
fn four_within_all(
    a: &CodeView,
    b: &CodeView,
    c: &CodeView,
    d: &CodeView,
    codes: &[CodeBlock],
    limits: &[CodeLimit; 4],
) -> [bool; 4]
    requires a { AreCodesFor (length a.now) codes.now }
    requires b { AreCodesFor (length b.now) codes.now }
    requires c { AreCodesFor (length c.now) codes.now }
    requires d { AreCodesFor (length d.now) codes.now }
    ensures { result ≡ each_within codes.now limits.now (a.now ∷ b.now ∷ c.now ∷ d.now ∷ []) }
{
    let begin = Standing {
        squared: 0,
        within: true,
    };
    let (mut to_a, mut to_b, mut to_c, mut to_d) = (begin, begin, begin, begin);
    for k in 0..codes.len() {
        let code = &codes[k];
        let (dot_a, dot_b, dot_c, dot_d) = dots_of_four(
            &code.words,
            a.values(k),
            b.values(k),
            c.values(k),
            d.values(k),
        );
        to_a = behind(a, &limits[0], k, code, dot_a, to_a);
        to_b = behind(b, &limits[1], k, code, dot_b, to_b);
        to_c = behind(c, &limits[2], k, code, dot_c, to_c);
        to_d = behind(d, &limits[3], k, code, dot_d, to_d);
        if !to_a.within && !to_b.within && !to_c.within && !to_d.within {
            break;
        }
    }
    [to_a.within, to_b.within, to_c.within, to_d.within]
}

/// How a query stands behind block `k`, of which the sum of products is known.
#[inline(always)]
fn behind(
    view: &CodeView,
    limit: &CodeLimit,
    k: usize,
    code: &CodeBlock,
    dot: i32,
    before: Standing,
) -> Standing
    requires inside { 256 * k < length view.now }
    requires squares { code.now.squares
        ≡ value_squares (pictured code.now.low code.now.step (take (length view.now - 256 * k) (codes_of code.now.words))) }
    requires dot { IsBlockDot code.now.words (filled (values_at view.now k)) dot }
    requires small { before.squared ≤ 8000000000000 * k }
    ensures squared { result.squared ≡ before.squared + block_distance (drop (256 * k) view.now) code.now }
    ensures small { result.squared ≤ 8000000000000 * (k + 1) }
    ensures within { result.within ≡ (before.within && leb (bound_at result.squared code.now.rest) limit.now) }
{
    let squared = before.squared + view.far_from(k, code, dot);
    let within = before.within && limit.allows(squared, code.rest);
    Standing { squared, within }
}
