// Question 41, the parts of the rule at the front of some words of the table, and a table with one rule more.
ghost use Rattle.std.specs.Prelude.{◌≡◌, true, ◌++◌, map, ℕ, ◌+◌, ◌≤◌, pos, length, drop, get_or, replicate};
ghost use Rattle.words.specs.Limits.{largest};
ghost use Rattle.words.specs.Lists.{all, ascends};
ghost use Rattle.words.specs.Literals.{variable, same, top};
ghost use Rattle.weights.specs.Weights.{literals, paired};
ghost use Rattle.aspif.specs.Rules.{literals_of, all_plain, suits, is_count, is_weight, rule_top, atoms, program_words};
ghost use Rattle.aspif.specs.Reading.{all_weights};
ghost use Rattle.std.specs.Iterator.{YieldsFirstBy, item_count};
ghost use Rattle.aspif.specs.Tables.{starts_at, kind_of, is_kind, is_weighted, head_start, body_length, is_headed, size_at, heads_at, body_words_at};
ghost use Rattle.aspif.specs.Tables.{bound_at, body_at, rule_at, shape_sound, weights_sound, body_sound, sound_at, rules_at, sound_rules, sound_table};

use crate::Kind;
use words::MOST_LITERALS;

// The words of the longest rule: four before its heads and its body. One with a weight body has fewer.
pub const LONGEST_RULE: usize = 4 + MOST_LITERALS + MOST_LITERALS;

// The number that word i holds, its sign aside.
fn size_at(words: &[i32], i: usize) -> usize
    ensures { result ≡ variable (get_or words.now i (pos 0)) }
{
    words::variable_of(words::word_at(words, i))
}

// Word i is 0 to 64.
pub fn is_count(words: &[i32], i: usize) -> bool
    ensures { result ≡ is_count (get_or words.now i (pos 0)) }
{
    let word = words::word_at(words, i);
    0 <= word && words::variable_of(word) <= words::MOST_LITERALS
}

// Question 7: the head count suits the kind.
pub fn suits_kind(kind: Kind, heads: usize) -> bool
    ensures { result ≡ suits kind heads }
{
    match kind {
        Kind::Normal => heads <= 1,
        Kind::Choice => 1 <= heads,
    }
}

// The word is a head kind.
fn is_kind(word: i32) -> bool
    ensures { result ≡ is_kind word }
{
    words::is_same(word, 0) | words::is_same(word, 1)
}

// The kind of the rule at the front.
pub fn kind_of(words: &[i32]) -> Kind
    ensures { result ≡ kind_of (get_or words.now 0 (pos 0)) }
{
    if words::is_same(words::word_at(words, 0), 1) {
        return Kind::Choice;
    }
    Kind::Normal
}

// A head kind stands at the front, and the head count suits it.
fn is_headed(words: &[i32]) -> bool
    ensures { result ≡ is_headed words.now }
{
    if is_kind(words::word_at(words, 0)) {
        return suits_kind(kind_of(words), size_at(words, 1));
    }
    false
}

// The rule at the front has a weight body.
pub fn is_weighted(words: &[i32]) -> bool
    ensures { result ≡ is_weighted words.now }
{
    words::is_same(words::word_at(words, 2), 1)
}

// Where the heads of the rule at the front begin.
fn head_start(words: &[i32]) -> usize
    requires { 4 ≤ length words.now }
    ensures { result ≡ head_start words.now }
{
    if words::is_same(words[2], 1) {
        return 5;
    }
    4
}

// How many words the body of the rule at the front takes.
fn body_length(words: &[i32]) -> usize
    requires { (4 ≤ length words.now) × (is_count (get_or words.now 3 (pos 0)) ≡ true) }
    ensures { result ≡ body_length words.now }
{
    let count = words::variable_of(words[3]);
    if words::is_same(words[2], 1) {
        return 2 * count;
    }
    count
}

// A rule's counts and its kinds stand at the front, with as many words after them.
fn is_shaped(words: &[i32]) -> bool
    ensures { result ≡ shape_sound words.now }
{
    if words.len() < 4 {
        return false;
    }
    if !is_count(words, 1) {
        return false;
    }
    if !is_kind(words::word_at(words, 2)) {
        return false;
    }
    if !is_count(words, 3) {
        return false;
    }
    if !is_headed(words) {
        return false;
    }
    head_start(words) + words::variable_of(words[1]) + body_length(words) <= words.len()
}

// How many words the rule at the front takes.
pub fn rule_size(words: &[i32]) -> usize
    requires { shape_sound words.now ≡ true }
    ensures size { (result ≡ size_at words.now) × (result ≤ length words.now) }
{
    head_start(words) + words::variable_of(words[1]) + body_length(words)
}

// A rule of a table, as the words from its first on.
#[derive(Clone, Copy)]
pub struct Rule<'a> {
    pub words: &'a [i32],
    ghost sound: { sound_at words.now ≡ true },
}

// The rules of a table that are left, one after another.
#[derive(Drop)]
pub struct Rules<'a> {
    pub words: &'a [i32],
    pub left: usize,
    ghost sound: { sound_rules left words.now ≡ true },
}

impl<'a> Rule<'a> {
    // The largest atom that the rule names.
    #[tactic(auto, using(crate::proofs::Cursors::shape_of))]
    pub fn top(&self) -> usize
        ensures { result ≡ rule_top (rule_at self.now.words.now) }
    {
        rule_top(self.words)
    }

    // How many words the rule takes.
    #[tactic(auto, using(crate::proofs::Cursors::shape_of))]
    pub fn size(&self) -> usize
        ensures size { (result ≡ size_at self.now.words.now) × (result ≤ length self.now.words.now) }
    {
        rule_size(self.words)
    }

    pub fn is_weighted(&self) -> bool
        ensures { result ≡ is_weighted self.now.words.now }
    {
        is_weighted(self.words)
    }

    pub fn kind(&self) -> Kind
        ensures { result ≡ kind_of (get_or self.now.words.now 0 (pos 0)) }
    {
        kind_of(self.words)
    }

    #[tactic(auto, using(crate::proofs::Cursors::shape_of))]
    pub fn heads(&self) -> &'a [i32]
        ensures { result.now ≡ heads_at self.now.words.now }
    {
        heads_of(self.words)
    }

    // The words of the body: its literals, with a weight body each with its weight behind it.
    #[tactic(auto, using(crate::proofs::Cursors::shape_of))]
    pub fn body(&self) -> &'a [i32]
        ensures { result.now ≡ body_words_at self.now.words.now }
    {
        body_of(self.words)
    }

    // The bound, where it has a weight body.
    pub fn bound(&self) -> usize
        ensures { result ≡ bound_at self.now.words.now }
    {
        bound_of(self.words)
    }
}

// The rules of a table.
pub fn rules_in<'a>(table: &'a [i32], rules: usize) -> Rules<'a>
    requires { sound_rules rules table.now ≡ true }
    ensures start { (result.words ≡ table.entry) × (result.left ≡ rules) }
{
    Rules {
        words: table,
        left: rules,
    }
}

impl<'a> Iterator for Rules<'a> {
    type Item = Rule<'a>;

    ghost next_gives = { YieldsFirstBy (λ rule. rule.words.now) (λ s. starts_at s.left s.words.now) };

    ghost remaining = { item_count (λ s. starts_at s.left s.words.now) };

    fn next(&mut self) -> Option<Rule<'a>> {
        if self.left == 0 {
            return None;
        }
        let words = self.words;
        self.words = &words[rule_size(words)..];
        self.left -= 1;
        Some(Rule { words })
    }
}

// Where the rule after the one at i begins: how a loop over the table goes on.
pub fn next_rule(table: &[i32], i: usize) -> usize
    requires here { (i ≤ length table.now) × (shape_sound (drop i table.now) ≡ true) }
    ensures next { (result ≡ i + size_at (drop i table.now)) × (result ≤ length table.now) }
{
    i + rule_size(&table[i..])
}

// The heads of the rule at the front.
pub fn heads_of(words: &[i32]) -> &[i32]
    requires { shape_sound words.now ≡ true }
    ensures { result.now ≡ heads_at words.now }
{
    let start = head_start(words);
    let end = start + words::variable_of(words[1]);
    &words[start..end]
}

// The words of the body of the rule at the front: its literals, with a weight body each with its weight behind it.
pub fn body_of(words: &[i32]) -> &[i32]
    requires { shape_sound words.now ≡ true }
    ensures { result.now ≡ body_words_at words.now }
{
    let start = head_start(words) + words::variable_of(words[1]);
    let end = rule_size(words);
    &words[start..end]
}

// The bound of the rule at the front, where it has a weight body.
pub fn bound_of(words: &[i32]) -> usize
    ensures { result ≡ bound_at words.now }
{
    size_at(words, 4)
}

// The word is a weight or a bound: 0 to 4,095.
pub fn is_weight(word: i32) -> bool
    ensures { result ≡ is_weight word }
{
    if 0 <= word {
        words::variable_of(word) <= weights::MOST_WEIGHT
    } else {
        false
    }
}

// The second of each two words is a weight.
pub fn all_weights(pairs: &[i32]) -> bool
    ensures { result ≡ all_weights pairs.now }
{
    let mut rest = pairs;
    while let [_, weight, more @ ..] = rest {
        if !is_weight(*weight) {
            return false;
        }
        rest = more;
    }
    rest.is_empty()
}

// The words ascend by variable, from 1 to the largest.
fn ascends_by_variable(words: &[i32]) -> bool
    ensures { result ≡ ascends 0 largest (map variable words.now) }
{
    let mut low = 0;
    for word in words {
        let v = words::variable_of(*word);
        if v <= low || words::LARGEST < v {
            return false;
        }
        low = v;
    }
    true
}

// The literals of the pairs ascend by variable, from 1 to the largest.
fn pairs_ascend(pairs: &[i32]) -> bool
    ensures { result ≡ ascends 0 largest (map variable (literals (paired pairs.now))) }
{
    let mut low = 0;
    let mut rest = pairs;
    while let [literal, _, more @ ..] = rest {
        let v = words::variable_of(*literal);
        if v <= low || words::LARGEST < v {
            return false;
        }
        low = v;
        rest = more;
    }
    true
}

// Every word is 0.
fn all_zero(words: &[i32]) -> bool
    ensures { result ≡ all (same (pos 0)) words.now }
{
    words.iter().all(|word| words::is_same(0, *word))
}

// The weight body at the front is one that the reader leaves: at most 12 pairs, bound and weights 0 to 4,095, literals ascending.
fn weights_sound(words: &[i32]) -> bool
    requires { shape_sound words.now ≡ true }
    ensures { result ≡ weights_sound words.now }
{
    if weights::MOST_WEIGHTED < size_at(words, 3) {
        return false;
    }
    if !is_weight(words::word_at(words, 4)) {
        return false;
    }
    let pairs = body_of(words);
    if all_weights(pairs) {
        return pairs_ascend(pairs);
    }
    false
}

// The body at the front is one that the reader leaves.
fn body_sound(words: &[i32]) -> bool
    requires { shape_sound words.now ≡ true }
    ensures { result ≡ body_sound words.now }
{
    if is_weighted(words) {
        return weights_sound(words);
    }
    ascends_by_variable(body_of(words))
}

// A rule stands at the front.
pub fn is_sound(words: &[i32]) -> bool
    ensures { result ≡ sound_at words.now }
{
    if is_shaped(words) {
        let heads = heads_of(words);
        if words::all_positive(heads) {
            if ascends_by_variable(heads) {
                return body_sound(words);
            }
        }
    }
    false
}

// Question 41: so many rules, at most 1,024, and zeros.
pub fn is_readable(table: &[i32], rules: usize) -> bool
    ensures { result ≡ sound_table table.now rules }
{
    if words::MOST_RULES < rules {
        return false;
    }
    let mut rest = table;
    for _ in 0..rules {
        if !is_sound(rest) {
            return false;
        }
        rest = &rest[rule_size(rest)..];
    }
    all_zero(rest)
}

// The largest variable of the literals of some pairs.
fn pairs_top(pairs: &[i32]) -> usize
    ensures { result ≡ top (literals (paired pairs.now)) }
{
    let mut most = 0;
    let mut rest = pairs;
    while let [literal, _, more @ ..] = rest {
        most = most.max(words::variable_of(*literal));
        rest = more;
    }
    most
}

// The largest atom that the body of the rule at the front names.
fn body_top(words: &[i32]) -> usize
    requires { shape_sound words.now ≡ true }
    ensures { result ≡ top (literals_of (body_at words.now)) }
{
    if is_weighted(words) {
        return pairs_top(body_of(words));
    }
    words::largest_variable(body_of(words))
}

// The largest atom that the rule at the front names.
pub fn rule_top(words: &[i32]) -> usize
    requires { shape_sound words.now ≡ true }
    ensures { result ≡ rule_top (rule_at words.now) }
{
    let heads = words::largest_variable(heads_of(words));
    heads.max(body_top(words))
}

// N: the largest atom named, 0 if none.
#[tactic(auto, using(crate::proofs::Cursors::rules_from_starts))]
pub fn largest_atom(table: &[i32], rules: usize) -> usize
    requires { sound_rules rules table.now ≡ true }
    ensures { result ≡ atoms (rules_at rules table.now) }
{
    let mut most = 0;
    for rule in rules_in(table, rules) {
        most = most.max(rule.top());
    }
    most
}

// No rule of the table has a weight body.
#[tactic(auto, using(crate::proofs::Cursors::rules_from_starts, crate::proofs::Cursors::plain_at))]
pub fn all_plain(table: &[i32], rules: usize) -> bool
    requires { sound_rules rules table.now ≡ true }
    ensures { result ≡ all_plain (rules_at rules table.now) }
{
    for rule in rules_in(table, rules) {
        if rule.is_weighted() {
            return false;
        }
    }
    true
}

// How many words of the table the rules take.
#[tactic(auto, using(crate::proofs::Cursors::rules_from_starts))]
pub fn words_used(table: &[i32], rules: usize) -> usize
    requires { sound_rules rules table.now ≡ true }
    ensures used { (result ≡ length (program_words (rules_at rules table.now))) × (result ≤ length table.now) }
{
    let mut used = 0;
    for rule in rules_in(table, rules) {
        used += rule.size();
    }
    used
}

// The rules in a wider table that is 0 throughout, and behind them the words of one rule more.
pub fn append_rule(table: &[i32], rules: usize, rule: &[i32], wide: &mut [i32])
    requires rules { sound_rules rules table.now ≡ true }
    requires short { length (program_words (rules_at rules table.now)) + length rule.now ≤ length wide.old }
    requires wide { wide.old ≡ replicate (length wide.old) (pos 0) }
    ensures { (k : ℕ) × (wide.new
        ≡ (program_words (rules_at rules table.now) ++ rule.now) ++ replicate k (pos 0)) }
{
    let used = words_used(table, rules);
    words::copy(wide, &table[..used]);
    words::copy(&mut wide[used..], rule);
}
