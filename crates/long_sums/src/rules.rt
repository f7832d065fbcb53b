// The rules of a table whose sums have up to 64 literals, where those of `tables::Rule` have at most 12.
ghost use Rattle.std.specs.Prelude.{◌≡◌};
ghost use Rattle.std.proofs.Props.{props};
ghost use Rattle.std.specs.Iterator.{YieldsFirstBy, item_count};
ghost use Rattle.aspif.specs.Tables.{rule_at, starts_at};
ghost use Rattle.long_sums.specs.Program.{RuleHeld, RulesHeld, is_long};
ghost use Rattle.long_sums.specs.Props.{weighing-prop};

use aspif::tables;
use weights::MOST_WEIGHTED;

// A rule of the table, as the words from its first on.
#[derive(Clone, Copy)]
pub struct WideRule<'a> {
    pub words: &'a [i32],
    ghost held: { RuleHeld words.now } by { Prim.hlevel (props, weighing-prop) },
}

// The rules of the table that are left, one after another.
#[derive(Drop)]
pub struct WideRules<'a> {
    words: &'a [i32],
    left: usize,
    ghost held: { RulesHeld left words.now } by { Prim.hlevel (props, weighing-prop) },
}

impl<'a> WideRule<'a> {
    // It has a sum of more than 12 literals.
    pub fn is_long(&self) -> bool
        ensures { result ≡ is_long (rule_at self.now.words.now).body }
    {
        let words = self.words;
        tables::is_weighted(words) & (MOST_WEIGHTED < words::variable_of(words[3]))
    }
}

// The rules of a table.
pub fn rules_in<'a>(table: &'a [i32], rules: usize) -> WideRules<'a>
    requires { RulesHeld rules table.now }
    ensures start { (result.words ≡ table.entry) × (result.left ≡ rules) }
{
    WideRules {
        words: table,
        left: rules,
    }
}

impl<'a> Iterator for WideRules<'a> {
    type Item = WideRule<'a>;

    ghost next_gives = { YieldsFirstBy (λ rule. rule.words.now) (λ s. starts_at s.left s.words.now) };

    ghost remaining = { item_count (λ s. starts_at s.left s.words.now) };

    fn next(&mut self) -> Option<WideRule<'a>> {
        if self.left == 0 {
            return None;
        }
        let words = self.words;
        self.words = &words[tables::rule_size(words)..];
        self.left -= 1;
        Some(WideRule { words })
    }
}
