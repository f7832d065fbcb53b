// The program's table with one rule more.
ghost use Rattle.std.specs.Prelude.{◌≡◌, true, ◌++◌, ℕ, ◌+◌, ◌≤◌, pos, length, replicate};
ghost use Rattle.aspif.specs.Rules.{program_words};
ghost use Rattle.aspif.specs.Tables.{rules_at, sound_rules};
ghost use Rattle.splits.specs.Halves.{most_words, demand_words};

use aspif::tables;

// The rules in a wider table that is 0 throughout, and behind them a constraint with just the literal in its body.
pub fn append_demand(table: &[i32], rules: usize, literal: i32, wide: &mut [i32])
    requires rules { sound_rules rules table.now ≡ true }
    requires short { length (program_words (rules_at rules table.now)) + 5 ≤ most_words }
    requires wide { (most_words ≤ length wide.old) × (wide.old ≡ replicate (length wide.old) (pos 0)) }
    ensures { (k : ℕ) × (wide.new
        ≡ (program_words (rules_at rules table.now) ++ demand_words literal) ++ replicate k (pos 0)) }
{
    let constraint = [0, 0, 0, 1, literal];
    tables::append_rule(table, rules, &constraint, wide);
}
