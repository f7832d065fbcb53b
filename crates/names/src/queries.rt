// Which rules a step is about, and the names of their bodies: by rule for plain bodies, 0 for none, and by name for the bodies of
// weight rules.
ghost use Rattle.std.specs.Prelude.{◌≡◌, true, cond, ◌&&◌, List, map, ℕ, ◌≤◌, eqb, ℤ, length, replicate, take};
ghost use Rattle.words.specs.Limits.{largest, entries};
ghost use Rattle.words.specs.Lists.{any};
ghost use Rattle.words.specs.Literals.{same_list, top};
ghost use Rattle.aspif.specs.Rules.{InputRule, bodies_of, expand_rule, expand, is_normal};
ghost use Rattle.aspif.specs.Tables.{is_weighted, heads_at, body_at, rule_at};
ghost use Rattle.weights.specs.Weights.{most_weighted};
ghost use Rattle.names.specs.ByName.{Called, Told};
ghost use Rattle.names.specs.Minimal.{AlsoMarks};
ghost use Rattle.names.specs.Queries.{HoldsRules, entry, Kept, is_inside, asks_heads, asked_names, MarksNames, completing, constraining};

use crate::{by_name, minimal};
use aspif::tables::Rule;
use aspif::{Kind, tables};
use weights::MOST_WEIGHTED;
use words::ENTRIES;

// The plain rules that a step is about, by their heads: those with a head; those with a head in a set of atoms. Of both, those whose
// bodies have a positive atom in the set are left out.
#[derive(Clone, Copy)]
pub enum Query {
    Head(i32),
    External,
}

// The literal is positive, and its atom is in the set.
pub fn is_inside(word: i32, inside: &[u8]) -> bool
    ensures { result ≡ is_inside inside.now word }
{
    if words::is_positive(word) {
        return marks::is_marked(inside, words::variable_of(word));
    }
    false
}

// Some literal is positive with its atom in the set.
pub fn any_inside(literals: &[i32], inside: &[u8]) -> bool
    ensures { result ≡ any (is_inside inside.now) literals.now }
{
    literals.iter().any(|literal| is_inside(*literal, inside))
}

fn is_normal(rule: &Rule) -> bool
    ensures { result ≡ is_normal (rule_at rule.now.words.now).kind }
{
    match rule.kind() {
        Kind::Normal => true,
        Kind::Choice => false,
    }
}

// The rule is normal, with just these heads.
pub fn is_normal_with(rule: &Rule, heads: &[i32]) -> bool
    ensures { let at = rule_at rule.now.words.now in
        result ≡ (is_normal at.kind && same_list at.heads heads.now) }
{
    if is_normal(rule) {
        return words::is_same_list(rule.heads(), heads);
    }
    false
}

// The query asks for rules with the heads of the rule.
fn asks_heads(rule: &Rule, query: Query, inside: &[u8]) -> bool
    ensures { result ≡ asks_heads query inside.now (heads_at rule.now.words.now) }
{
    match query {
        Query::Head(h) => words::contains(rule.heads(), h),
        Query::External => any_inside(rule.heads(), inside),
    }
}

// Marks the names of those bodies of the rule that the query asks for; `name` is what is kept by rule.
fn mark_asked(rule: &Rule, query: Query, inside: &[u8], name: u16, bodies: &[i16], found: &mut [u8])
    requires found { length found.old ≡ entries }
    ensures { (called : List ℤ → ℕ) → (is_weighted rule.now.words.now ≡ true → Called bodies.now called)
        → name ≡ entry called (body_at rule.now.words.now)
        → AlsoMarks found.old found.new
        (asked_names query inside.now called (expand_rule (rule_at rule.now.words.now))) }
{
    if !asks_heads(rule, query, inside) {
        return;
    }
    if rule.is_weighted() {
        minimal::mark_bodies(rule.body(), rule.bound(), inside, bodies, found);
        return;
    }
    if !any_inside(rule.body(), inside) {
        marks::mark(found, usize::from(name));
    }
}

// Marks the names of the bodies of the plain rules that the query asks for, where nothing is marked yet; 0 where a body has none, and further rules
// are then not looked at.
pub fn mark_names(
    table: &[i32],
    rules: usize,
    names: &[u16],
    bodies: &[i16],
    query: Query,
    inside: &[u8],
    found: &mut [u8],
)
    requires program { ((ws : List InputRule) × HoldsRules table.now rules ws) × (rules ≤ length names.now) }
    requires found { found.old ≡ replicate entries 0 }
    ensures { (ws : List InputRule) → HoldsRules table.now rules ws
        → (called : List ℤ → ℕ) → Kept names.now bodies.now called ws
        → MarksNames found.new (asked_names query inside.now called (expand ws)) }
{
    for (k, rule) in tables::rules_in(table, rules).enumerate() {
        mark_asked(&rule, query, inside, names[k], bodies, found);
        if marks::is_marked(found, 0) {
            return;
        }
    }
}

// The literals are a body of the rule.
fn has_body(rule: &Rule, body: &[i32]) -> bool
    ensures { result ≡ any (same_list body.now) (bodies_of (body_at rule.now.words.now)) }
{
    if rule.is_weighted() {
        return weights::is_body(rule.body(), rule.bound(), body);
    }
    words::is_same_list(body, rule.body())
}

// What the body, which is one of the rule, is called; `name` is what is kept by rule.
fn name_at(rule: &Rule, body: &[i32], name: u16, bodies: &[i16]) -> u16
    requires { any (same_list body.now) (bodies_of (body_at rule.now.words.now)) ≡ true }
    ensures { (called : List ℤ → ℕ) → (is_weighted rule.now.words.now ≡ true → Called bodies.now called)
        → name ≡ entry called (body_at rule.now.words.now)
        → result ≡ called body.now }
{
    if rule.is_weighted() {
        return by_name::name_of(bodies, body);
    }
    name
}

// What the literals, ascending, are called as a body of the rules: 0 where that has no name, 8,192 where no rule has the body.
// No Option: the contract of body_name is public and names both numbers.
pub fn body_name(table: &[i32], rules: usize, names: &[u16], bodies: &[i16], body: &[i32]) -> usize
    requires program { ((ws : List InputRule) × HoldsRules table.now rules ws) × (rules ≤ length names.now) }
    ensures { (ws : List InputRule) → HoldsRules table.now rules ws
        → (called : List ℤ → ℕ) → Kept names.now bodies.now called ws
        → result ≡ cond (any (λ x. same_list body.now x.body) (expand ws)) (called body.now) entries }
{
    for (k, rule) in tables::rules_in(table, rules).enumerate() {
        if has_body(&rule, body) {
            return usize::from(name_at(&rule, body, names[k], bodies));
        }
    }
    ENTRIES
}

// Question 28: the literals, ascending, are the body of a rule, and it has no name.
pub fn is_unnamed(table: &[i32], rules: usize, names: &[u16], bodies: &[i16], body: &[i32]) -> bool
    requires program { ((ws : List InputRule) × HoldsRules table.now rules ws) × (rules ≤ length names.now) }
    ensures { (ws : List InputRule) → HoldsRules table.now rules ws
        → (called : List ℤ → ℕ) → Kept names.now bodies.now called ws
        → result ≡ (any (λ x. same_list body.now x.body) (expand ws) && eqb (called body.now) 0) }
{
    body_name(table, rules, names, bodies, body) == 0
}

// Some body of the rule has the name, whose literals are those recorded; `kept` is what is kept by rule.
fn is_named(rule: &Rule, name: u16, kept: u16, recorded: Option<usize>, row: &[i32]) -> bool
    requires row { (length row.now ≡ most_weighted) × ((bodies : List ℤ) × Told bodies name row.now recorded) }
    ensures { (bodies : List ℤ) (called : List ℤ → ℕ) → (is_weighted rule.now.words.now ≡ true → Called bodies called)
        → Told bodies name row.now recorded
        → 1 ≤ name → kept ≡ entry called (body_at rule.now.words.now)
        → result ≡ any (λ ls. eqb (called ls) name) (bodies_of (body_at rule.now.words.now)) }
{
    if !rule.is_weighted() {
        return kept == name;
    }
    match recorded {
        Some(n) => weights::is_body(rule.body(), rule.bound(), &row[..n]),
        None => false,
    }
}

// The rule is normal with just these heads, and some body of it has the name.
fn completes(
    rule: &Rule,
    heads: &[i32],
    name: u16,
    kept: u16,
    recorded: Option<usize>,
    row: &[i32],
) -> bool
    requires row { (length row.now ≡ most_weighted) × ((bodies : List ℤ) × Told bodies name row.now recorded) }
    ensures { (bodies : List ℤ) (called : List ℤ → ℕ) → (is_weighted rule.now.words.now ≡ true → Called bodies called)
        → Told bodies name row.now recorded
        → 1 ≤ name → kept ≡ entry called (body_at rule.now.words.now)
        → result ≡ any (completing called heads.now name) (expand_rule (rule_at rule.now.words.now)) }
{
    if is_normal_with(rule, heads) {
        return is_named(rule, name, kept, recorded, row);
    }
    false
}

// Question 29: some normal rule has just these heads and the body with the name.
pub fn is_completed(
    table: &[i32],
    rules: usize,
    names: &[u16],
    bodies: &[i16],
    heads: &[i32],
    name: usize,
) -> bool
    requires program { ((ws : List InputRule) × HoldsRules table.now rules ws) × (rules ≤ length names.now) }
    requires name { (1 ≤ name) × (name ≤ largest) }
    ensures { (ws : List InputRule) → HoldsRules table.now rules ws
        → (called : List ℤ → ℕ) → Kept names.now bodies.now called ws
        → result ≡ any (completing called heads.now name) (expand ws) }
{
    let mut row = [0i32; MOST_WEIGHTED];
    let recorded = by_name::body_of(bodies, name, &mut row);
    for (k, rule) in tables::rules_in(table, rules).enumerate() {
        if completes(&rule, heads, name as u16, names[k], recorded, &row) {
            return true;
        }
    }
    false
}

// The rule is a constraint with the body.
fn constrains(rule: &Rule, body: &[i32]) -> bool
    ensures { result ≡ any (constraining body.now) (expand_rule (rule_at rule.now.words.now)) }
{
    if is_normal_with(rule, &body[..0]) {
        return has_body(rule, body);
    }
    false
}

// Some normal rule has no heads and the body.
pub fn is_constraint(table: &[i32], rules: usize, body: &[i32]) -> bool
    requires { (ws : List InputRule) × HoldsRules table.now rules ws }
    ensures { (ws : List InputRule) → HoldsRules table.now rules ws
        → result ≡ any (constraining body.now) (expand ws) }
{
    for rule in tables::rules_in(table, rules) {
        if constrains(&rule, body) {
            return true;
        }
    }
    false
}

// What is kept by rule for the rule, once the body has the name: `kept` before.
pub fn name_for(rule: &Rule, body: &[i32], name: u16, kept: u16) -> u16
    ensures { (called : List ℤ → ℕ) → kept ≡ entry called (body_at rule.now.words.now)
        → result ≡ entry (λ L. cond (same_list body.now L) name (called L)) (body_at rule.now.words.now) }
{
    if rule.is_weighted() {
        return kept;
    }
    if words::is_same_list(body, rule.body()) {
        return name;
    }
    kept
}

// Every plain rule with the body gets the name; what is kept of other rules stays.
fn enter_rules(table: &[i32], rules: usize, body: &[i32], name: u16, names: &mut [u16])
    requires program { ((ws : List InputRule) × HoldsRules table.now rules ws) × (rules ≤ length names.old) }
    ensures { (ws : List InputRule) → HoldsRules table.now rules ws → (called : List ℤ → ℕ)
        → take (length ws) names.old ≡ map (λ r. entry called r.body) ws
        → take (length ws) names.new ≡ map (λ r. entry (λ L. cond (same_list body.now L) name (called L)) r.body) ws }
{
    for (k, rule) in tables::rules_in(table, rules).enumerate() {
        names[k] = name_for(&rule, body, name, names[k]);
    }
}

// The body gets the name, by rule and by name.
pub fn enter(
    table: &[i32],
    rules: usize,
    body: &[i32],
    name: usize,
    names: &mut [u16],
    bodies: &mut [i16],
)
    requires program { ((ws : List InputRule) × HoldsRules table.now rules ws) × (rules ≤ length names.old) }
    requires body { (1 ≤ name) × (name ≤ largest) × (top body.now ≤ largest) }
    ensures { (ws : List InputRule) → HoldsRules table.now rules ws
        → (called : List ℤ → ℕ) → Kept names.old bodies.old called ws
        → called body.now ≡ 0 → ((L : List ℤ) → ¬ (called L ≡ name))
        → Kept names.new bodies.new (λ L. cond (same_list body.now L) name (called L)) ws }
{
    enter_rules(table, rules, body, name as u16, names);
    if body.len() <= MOST_WEIGHTED {
        by_name::enter_body(bodies, name, body);
    }
}
