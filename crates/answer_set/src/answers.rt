// The answer on a set, once the least model is marked.
ghost use Rattle.std.specs.Prelude.{◌≡◌, true, ◌+◌, ◌≤◌};
ghost use Rattle.words.specs.Limits.{largest, entries};
ghost use Rattle.aspif.specs.Tables.{rule_at, rules_at, sound_table};
ghost use Rattle.marks.specs.Marks.{marked};
ghost use Rattle.answer_set.specs.SetTest.{is_constraint, is_broken, lowest_from, just_one, shown, broken_from, differs_at, said_of};
ghost use Rattle.answer_set.specs.Private.{searched};

use crate::{SetAnswer, models};
use aspif::Kind;
use aspif::tables::{self, Rule};

// One of the two holds.
fn just_one(a: bool, b: bool) -> bool
    ensures { result ≡ just_one a b }
{
    a != b
}

// The lowest number below n that lies in just one of M and the least model, if there is one.
fn differing(inside: &[u8], marks: &[u8], n: usize) -> Option<u16>
    requires { n ≤ entries }
    ensures { result ≡ searched (lowest_from (differs_at (marked inside.now) marks.now) n 0) }
{
    (0..n)
        .find(|i| just_one(marks::is_marked(inside, *i), marks::is_marked(marks, *i)))
        .map(|i| i as u16)
}

// The rule is a constraint.
fn is_constraint(rule: &Rule) -> bool
    ensures { result ≡ is_constraint (rule_at rule.now.words.now) }
{
    rule.kind() == Kind::Normal && rule.heads().is_empty()
}

// The rule is a constraint that M breaks.
fn is_broken(rule: &Rule, inside: &[u8]) -> bool
    ensures { result ≡ is_broken (marked inside.now) (rule_at rule.now.words.now) }
{
    is_constraint(rule) && models::body_holds(rule, inside, inside)
}

// The lowest broken constraint, or yes.
fn first_broken(table: &[i32], rules: usize, inside: &[u8]) -> SetAnswer
    requires { sound_table table.now rules ≡ true }
    ensures { result ≡ said_of (broken_from (marked inside.now) 1 (rules_at rules table.now)) }
{
    match tables::rules_in(table, rules).position(|rule| is_broken(&rule, inside)) {
        Some(i) => SetAnswer::Broken(i + 1),
        None => SetAnswer::Yes,
    }
}

// The answer for a set M and the marks of the least model, with atoms from 1 to the number given.
pub fn judge(table: &[i32], rules: usize, atoms: usize, inside: &[u8], marks: &[u8]) -> SetAnswer
    requires program { (sound_table table.now rules ≡ true) × (atoms ≤ largest) }
    ensures { let M = marked inside.now in
        result ≡ said_of (shown (lowest_from (differs_at M marks.now) (atoms + 1) 0)
        (broken_from M 1 (rules_at rules table.now))) }
{
    match differing(inside, marks, atoms + 1) {
        Some(v) => SetAnswer::Differs(v),
        None => first_broken(table, rules, inside),
    }
}
