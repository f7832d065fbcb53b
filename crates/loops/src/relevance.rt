// Which literals of the rules' weight bodies stand in some plain body, by rule and pair.
ghost use Rattle.std.specs.Prelude.{◌≡◌, true, ◌*◌, ◌≤◌, length};
ghost use Rattle.words.specs.Lists.{◌∈◌};
ghost use Rattle.words.specs.Literals.{variable, rising};
ghost use Rattle.weights.specs.Weights.{sum, literals, paired, most_weighted, most_sum};
ghost use Rattle.loops.specs.Relevance.{is_relevant, RelevantPairs, RelevantRule, Relevant, has_sum, others};
ghost use Rattle.aspif.specs.Rules.{weights};
ghost use Rattle.aspif.specs.Tables.{rule_at, rules_at, sound_rules};

use aspif::tables;
use aspif::tables::Rule;
use weights::MOST_WEIGHTED;

// Some of the pairs but that of the literal x add up to `low` or more and to less than `high`; `left` is what they all add up to.
fn has_sum(pairs: &[i32], x: i32, low: usize, high: usize, left: usize) -> bool
    requires { left ≡ sum (others x (paired pairs.now)) }
    ensures { result ≡ has_sum low high (others x (paired pairs.now)) }
{
    if low == 0 {
        return 0 < high;
    }
    if left < low {
        return false;
    }
    let rest = &pairs[2..];
    if words::is_same(x, pairs[0]) {
        return has_sum(rest, x, low, high, left);
    }
    let w = words::variable_of(pairs[1]);
    if has_sum(
        rest,
        x,
        low.saturating_sub(w),
        high.saturating_sub(w),
        left - w,
    ) {
        return true;
    }
    has_sum(rest, x, low, high, left - w)
}

// The literal, which with its weight is one of the pairs, stands in some body: some of the others reach the bound with it and not
// without it.
fn is_relevant(pairs: &[i32], bound: usize, literal: i32, weight: i32) -> bool
    requires { (rising (literals (paired pairs.now)) ≡ true) × (sum (paired pairs.now) ≤ most_sum)
        × (record { literal = literal; weight = variable weight } ∈ paired pairs.now) }
    ensures { result ≡ is_relevant bound (paired pairs.now) literal }
{
    let w = words::variable_of(weight);
    let left = weights::sum_of(pairs) - w;
    has_sum(pairs, literal, bound.saturating_sub(w), bound, left)
}

// The entries of the pairs of a weight body.
fn fill_pairs(pairs: &[i32], bound: usize, entries: &mut [u8])
    requires { (rising (literals (paired pairs.now)) ≡ true) × (sum (paired pairs.now) ≤ most_sum)
        × (length (paired pairs.now) ≤ length entries.old) }
    ensures { RelevantPairs entries.new (weights bound (paired pairs.now)) }
{
    for n in 0..pairs.len() / 2 {
        entries[n] = u8::from(is_relevant(pairs, bound, pairs[2 * n], pairs[2 * n + 1]));
    }
}

// The entries of the rule; they matter where it has heads and a weight body.
fn fill_rule(rule: &Rule, entries: &mut [u8])
    requires { most_weighted ≤ length entries.old }
    ensures { RelevantRule entries.new (rule_at rule.now.words.now) }
{
    if rule.is_weighted() {
        let heads = rule.heads();
        if 0 < heads.len() {
            fill_pairs(rule.body(), rule.bound(), entries);
        }
    }
}

// The entries of all rules, twelve to a rule. To be found once for a program: a rule may cost some 12 times 4,096 calls of `has_sum`.
pub fn fill(table: &[i32], rules: usize, relevant: &mut [u8])
    requires { (sound_rules rules table.now ≡ true) × (most_weighted * rules ≤ length relevant.old) }
    ensures { Relevant relevant.new (rules_at rules table.now) }
{
    let mut at = 0;
    for rule in tables::rules_in(table, rules) {
        fill_rule(&rule, &mut relevant[at..]);
        at += MOST_WEIGHTED;
    }
}
