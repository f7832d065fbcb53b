// The program with the restriction behind it, and the check of a proof for it.
ghost use Rattle.std.specs.Prelude.{◌≡◌, true, List, ◌++◌, ℕ, ◌+◌, ◌*◌, ◌≤◌, pos, length, drop, replicate};
ghost use Rattle.words.specs.Limits.{longest, most_rules};
ghost use Rattle.words.specs.Literals.{ascending};
ghost use Rattle.weights.specs.Weights.{literals, paired, most_weight, most_weighted};
ghost use Rattle.aspif.specs.Rules.{InputRule, rule_words, program_words};
ghost use Rattle.aspif.specs.Reading.{all_weights};
ghost use Rattle.aspif.specs.Tables.{rules_at};
ghost use Rattle.steps.specs.Held.{Program};
ghost use Rattle.costs.specs.Costs.{Cost, restriction};
ghost use Rattle.cheapest.specs.Private.{Restricts, ProofChecked};

use aspif::{rules, tables};
use checker::judging;
use weights::MOST_WEIGHTED;
use words::LONGEST;

// The words of the restriction: two kinds, two counts, the bound, and a pair for each cost.
pub const RULE: usize = 5 + 2 * MOST_WEIGHTED;

// The words of a program, and of the restriction behind it.
const WIDE: usize = LONGEST + RULE;

// The words of the restriction at the front of the row: the pairs' literals stand sorted beside them.
pub fn write_restriction(row: &mut [i32], pairs: &[i32], sorted: &[i32], bound: usize)
    requires pairs { (all_weights pairs.now ≡ true) × (bound ≤ most_weight) }
    requires sorted { (sorted.now ≡ ascending (literals (paired pairs.now))) × (length sorted.now ≤ most_weighted) }
    requires row { 5 + 2 * length sorted.now ≤ length row.old }
    ensures { row.new ≡ rule_words (restriction (paired pairs.now) bound)
        ++ drop (5 + 2 * length sorted.now) row.old }
{
    let counts = [0, 0, 1, sorted.len() as i32, bound as i32];
    words::copy(row, &counts);
    rules::write_pairs(&mut row[5..], pairs, sorted);
}

// The proof is accepted for the program with the restriction, whose words are lent. The wider table stands in a frame
// of its own. The store is 0 throughout, and is then as the check leaves it.
pub fn accepts(
    rule: &[i32],
    proof: &[u8],
    table: &[i32],
    rules: usize,
    atoms: usize,
    store: &mut [i32],
) -> bool
    requires program { ((ws : List InputRule) × Program table.now rules atoms ws) × (rules ≤ most_rules) }
    requires short { length (program_words (rules_at rules table.now)) ≤ longest }
    requires rule { (ks : List Cost) × (C : ℕ) × Restricts atoms ks C rule.now }
    requires empty { store.old ≡ replicate (length store.old) (pos 0) }
    ensures { (ws : List InputRule) → Program table.now rules atoms ws
        → (ks : List Cost) (C : ℕ) → Restricts atoms ks C rule.now
        → ProofChecked (length store.old) ws ks C proof.now store.new result }
{
    let mut wide = [0i32; WIDE];
    tables::append_rule(table, rules, rule, &mut wide);
    let verdict = judging::check_proof(proof, &mut wide, atoms, rules + 1, store);
    judging::is_inconsistent(verdict)
}
