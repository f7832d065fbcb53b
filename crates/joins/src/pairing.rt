// Which share of the right side is just enough with a share of the left: `is_just_enough` of
// crates/sums/specs/Plans.antt. Levels ascend, so it is the lowest that is enough, or there is none.
ghost use Rattle.std.specs.Prelude.{◌≡◌, ◌∷◌, ◌≤◌, length, get_or, IfSome};
ghost use Rattle.weights.specs.Weights.{most_weight};
ghost use Rattle.totalizer.specs.Lists.{SumsUpTo, below};
ghost use Rattle.joins.specs.Joining.{Partner};

use totalizer::levels;

// The level of share i; share 0 has level 0.
fn share_level(ts: &[usize], i: usize) -> usize
    ensures { result ≡ get_or (0 ∷ ts.now) i 0 }
{
    if i == 0 {
        return 0;
    }
    levels::sum_at(ts, i - 1, 0)
}

// How many shares stand before the first whose level is at least `need`.
fn shares_below(ts: &[usize], need: usize) -> usize
    ensures { result ≡ below need (0 ∷ ts.now) }
{
    if need == 0 {
        return 0;
    }
    levels::below_of(ts, need) + 1
}

// The share of the right side that is just enough with share i of the left, where there is one.
pub fn partner_of(left: &[usize], i: usize, right: &[usize], level: usize) -> Option<usize>
    requires levels { SumsUpTo most_weight (0 ∷ left.now) × SumsUpTo most_weight (0 ∷ right.now) }
    requires there { i ≤ length left.now }
    ensures within { IfSome result (λ j. j ≤ length right.now) }
    ensures partner { Partner level left.now right.now i result }
{
    let need = level.saturating_sub(share_level(left, i));
    let j = shares_below(right, need);
    if right.len() < j {
        return None;
    }
    if i == 0 {
        return Some(j);
    }
    if share_level(left, i - 1) + share_level(right, j) < level {
        Some(j)
    } else {
        None
    }
}
