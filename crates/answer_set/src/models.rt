// The least model of a reduct, as marks. The set M is lent as marks too: `inside` holds 1 at each number of M.
ghost use Rattle.std.specs.Prelude.{◌≡◌, true, cond, ◌≤◌};
ghost use Rattle.words.specs.Lists.{all};
ghost use Rattle.words.specs.Literals.{variable};
ghost use Rattle.weights.specs.Weights.{sum, paired, most_sum};
ghost use Rattle.aspif.specs.Tables.{body_at, rule_at, rules_at, sound_rules};
ghost use Rattle.marks.specs.Marks.{marked, Marking};
ghost use Rattle.answer_set.specs.SetTest.{literal_holds, held_sum, body_holds, gives, give_head, give_heads, give_rule, round, rounds};

use aspif::Kind;
use aspif::tables::{self, Rule};

// A positive literal's atom is marked; a negated one's is outside M.
pub fn literal_holds(word: i32, inside: &[u8], marks: &[u8]) -> bool
    ensures { result ≡ literal_holds (marked inside.now) (marked marks.now) word }
{
    let v = words::variable_of(word);
    if word < 0 {
        return !marks::is_marked(inside, v);
    }
    marks::is_marked(marks, v)
}

// Every literal holds.
fn all_hold(body: &[i32], inside: &[u8], marks: &[u8]) -> bool
    ensures { result ≡ all (literal_holds (marked inside.now) (marked marks.now)) body.now }
{
    body.iter().all(|x| literal_holds(*x, inside, marks))
}

// The weight of a literal that holds, and 0 else.
fn weight_held(literal: i32, weight: i32, inside: &[u8], marks: &[u8]) -> usize
    ensures { result ≡ cond (literal_holds (marked inside.now) (marked marks.now) literal) (variable weight) 0 }
{
    if literal_holds(literal, inside, marks) {
        return words::variable_of(weight);
    }
    0
}

// What the weights of the literals that hold add up to.
pub fn sum_held(pairs: &[i32], inside: &[u8], marks: &[u8]) -> usize
    requires { sum (paired pairs.now) ≤ most_sum }
    ensures { result ≡ held_sum (marked inside.now) (marked marks.now) (paired pairs.now) }
{
    let mut total = 0;
    for pair in pairs.chunks_exact(2) {
        total += weight_held(pair[0], pair[1], inside, marks);
    }
    total
}

// The rule's body holds.
pub fn body_holds(rule: &Rule, inside: &[u8], marks: &[u8]) -> bool
    ensures { result ≡ body_holds (marked inside.now) (marked marks.now) (body_at rule.now.words.now) }
{
    if rule.is_weighted() {
        return rule.bound() <= sum_held(rule.body(), inside, marks);
    }
    all_hold(rule.body(), inside, marks)
}

// A choice rule gives a head only where it is in M.
fn gives_head(kind: Kind, inside: &[u8], v: usize) -> bool
    ensures { result ≡ gives (marked inside.now) kind v }
{
    match kind {
        Kind::Normal => true,
        Kind::Choice => marks::is_marked(inside, v),
    }
}

// A head that its rule gives is marked; whether it was not.
#[tactic(auto, unfolding(crate::specs::SetTest::give_head))]
fn give_head(head: i32, kind: Kind, inside: &[u8], marks: &mut [u8]) -> bool
    ensures { Marking (give_head (marked inside.now) kind head marks.old) marks.old
        marks.new result }
{
    let v = words::variable_of(head);
    if gives_head(kind, inside, v) {
        return marks::mark(marks, v);
    }
    false
}

// Every head that the rule gives is marked; whether a mark is new.
fn give_heads(heads: &[i32], kind: Kind, inside: &[u8], marks: &mut [u8]) -> bool
    ensures { Marking (give_heads (marked inside.now) kind heads.now marks.old)
        marks.old marks.new result }
{
    let mut new = false;
    for head in heads {
        new = give_head(*head, kind, inside, marks) | new;
    }
    new
}

// The rule marks what it gives; whether a mark is new.
#[tactic(auto, unfolding(crate::specs::SetTest::give_rule))]
pub fn give_rule(rule: &Rule, inside: &[u8], marks: &mut [u8]) -> bool
    ensures { Marking (give_rule (marked inside.now) (rule_at rule.now.words.now) marks.old)
        marks.old marks.new result }
{
    if body_holds(rule, inside, marks) {
        return give_heads(rule.heads(), rule.kind(), inside, marks);
    }
    false
}

// One round over the rules; whether a mark is new.
#[tactic(auto, using(crate::proofs::Marking::rules_from_starts))]
fn give_all(table: &[i32], rules: usize, inside: &[u8], marks: &mut [u8]) -> bool
    requires { sound_rules rules table.now ≡ true }
    ensures { Marking (round (marked inside.now) (rules_at rules table.now) marks.old)
        marks.old marks.new result }
{
    let mut new = false;
    for rule in tables::rules_in(table, rules) {
        new = give_rule(&rule, inside, marks) | new;
    }
    new
}

// Rounds until no mark is new, and at most so many.
pub fn close(table: &[i32], rules: usize, most: usize, inside: &[u8], marks: &mut [u8])
    requires { sound_rules rules table.now ≡ true }
    ensures { marks.new ≡ rounds (marked inside.now) most (rules_at rules table.now)
        marks.old }
{
    for _ in 0..most {
        if !give_all(table, rules, inside, marks) {
            return;
        }
    }
}
