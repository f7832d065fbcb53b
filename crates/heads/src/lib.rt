// An index of the rules by head atom and by body, for a program without weight bodies: a step then looks at the rules that it is about and at no others.
// It is filled once for a check. A program with weight bodies, with more heads than it can hold or with rules too far behind is not covered.
// What the functions promise is specs/Heads.antt. No service: the checker's steps are built on it.
#![tactic(auto)]

ghost use Rattle.std.specs.Prelude.{IfSome, MatchOption, ◌≡◌, true, false, cond, ◌&&◌, ◌⊎◌, List, [], ◌∷◌, ◌++◌, map, ℕ, suc, ◌+◌, ◌<◌, ◌≤◌, eqb, ℤ, pos, length, replicate, take, get_or, set};
ghost use Rattle.words.specs.Limits.{largest, entries, most_held, longest, most_numbers};
ghost use Rattle.words.specs.Lists.{◌∈◌, any, all};
ghost use Rattle.words.specs.Literals.{variable, same_list, distinct, mentions, top};
ghost use Rattle.aspif.specs.Rules.{InputRule, all_plain, expand};
ghost use Rattle.aspif.specs.Tables.{rules_at, sound_rules, heads_at};
ghost use Rattle.names.specs.Queries.{HoldsRules, entry, Kept, is_inside, asked_names, completing};
ghost use Rattle.heads.specs.Heads.{start_of, words_from, most_heads, hashes, first_at, next_at, bucket_at, index_words, hint_of, linked, Headed, headed_by, headed_to, headed_at};
ghost use Rattle.heads.specs.Heads.{HeadChains, mixed, hash_from, Entered, covered, Indexed, Covers, is_just_names, Listed, RuleWith, Completes};
ghost use Rattle.heads.specs.Heads.{HasHead, row_words, Row, InRow, Collected, Gathers, Externals};
ghost use Rattle.names.specs.declared.queries.Query.TheVariants.{External};
ghost use Rattle.marks.specs.Marks.{marked, Marks};

use aspif::tables;
use aspif::tables::Rule;
use names::queries;
use words::{ENTRIES, LARGEST, LONGEST, MOST_HELD, MOST_NUMBERS};

// The regions of specs/Heads.antt.
pub const MOST_HEADS: usize = 8192;

const HASHES: usize = 2048;

const STARTS: usize = 1;

const FIRST: usize = STARTS + MOST_HELD;

const NEXT: usize = FIRST + ENTRIES;

const OWNER: usize = NEXT + MOST_HEADS;

const BUCKET: usize = OWNER + MOST_HEADS;

const BEFORE: usize = BUCKET + HASHES;

pub const INDEX_WORDS: usize = BEFORE + MOST_HELD;

// The words of a row for names: one for each rule that there may be, and one more.
pub const ROW_WORDS: usize = MOST_HELD + 1;

// What is kept by rule, and behind it the hints.
const HINTS: usize = 1024;

pub const NAME_WORDS: usize = MOST_HELD + HINTS;

// The word at a place; 0 past the end.
fn word_of(index: &[u16], at: usize) -> usize
    ensures { result ≡ get_or index.now at 0 }
{
    match index.get(at) {
        Some(word) => words::wide(*word),
        None => 0,
    }
}

// The index covers the program.
pub fn is_covered(index: &[u16]) -> bool
    ensures { result ≡ covered index.now }
{
    word_of(index, 0) == 1
}

// A key with one literal more.
fn mix(h: usize, word: i32) -> usize
    requires { h < hashes }
    ensures mixed { (result ≡ mixed h word) × (result < hashes) }
{
    let v = words::variable_of(word);
    if word < 0 {
        (h * 1567 + v + 1024) % HASHES
    } else {
        (h * 1567 + v + 0) % HASHES
    }
}

// The key of a list of literals.
fn hash_of(literals: &[i32]) -> usize
    ensures hash { (result ≡ hash_from 0 literals.now) × (result < hashes) }
{
    let mut h = 0;
    for literal in literals {
        h = mix(h, *literal);
    }
    h
}

// A place goes on top of the chain of a key.
fn link(index: &mut [u16], first: usize, next: usize, key: usize, place: usize)
    requires { (first + key < length index.old) × (next + place < length index.old) × (place < longest) }
    ensures { index.new
        ≡ set (set index.old (next + place) (get_or index.old (first + key) 0)) (first + key) (place + 1) }
{
    index[next + place] = index[first + key];
    index[first + key] = (place + 1) as u16;
}

// One more head: the head v of rule k, after n others.
fn enter_head(index: &mut [u16], v: usize, k: usize, n: usize)
    requires { (length index.old ≡ index_words) × (v ≤ largest) × (k < most_held) × (n < most_heads) }
    ensures chains { (es : List Headed) → HeadChains index.old es → length es ≡ n
        → HeadChains index.new (es ++ (record { rule = k; head = v } ∷ [])) }
    ensures others { (i : ℕ) → (i < first_at) ⊎ (bucket_at ≤ i) → get_or index.new i 0 ≡ get_or index.old i 0 }
{
    index[OWNER + n] = k as u16;
    link(index, FIRST, NEXT, v, n);
}

// The heads of rule k, after n others.
fn enter_heads(index: &mut [u16], heads: &[i32], k: usize, n: usize)
    requires index { (length index.old ≡ index_words) × (k < most_held) × (n + length heads.now ≤ most_heads) }
    requires heads { (h : ℤ) → h ∈ heads.now → variable h ≤ largest }
    ensures chains { (es : List Headed) → HeadChains index.old es → length es ≡ n
        → HeadChains index.new (es ++ map (headed_by k) heads.now) }
    ensures others { (i : ℕ) → (i < first_at) ⊎ (bucket_at ≤ i) → get_or index.new i 0 ≡ get_or index.old i 0 }
{
    for (j, head) in heads.iter().enumerate() {
        enter_head(index, words::variable_of(*head), k, n + j);
    }
}

// Rule k, which stands in the table from `at` on, after n heads.
fn enter_rule(index: &mut [u16], rule: &Rule, at: usize, k: usize, n: usize)
    requires { (length index.old ≡ index_words) × (k < most_held) × (at ≤ longest) × (n + length (heads_at rule.now.words.now) ≤ most_heads) }
    ensures entered { (table : List ℤ) → rule.now.words.now ≡ words_from k table → at ≡ start_of k table → length (headed_to k table) ≡ n
        → Entered index.old table k → Entered index.new table (suc k) }
    ensures first { get_or index.new 0 0 ≡ get_or index.old 0 0 }
{
    index[STARTS + k] = at as u16;
    link(index, BUCKET, BEFORE, hash_of(rule.body()), k);
    enter_heads(index, rule.heads(), k, n);
}

// The index of a program without weight bodies, if it has room.
pub fn fill(table: &[i32], rules: usize, index: &mut [u16])
    requires program { (sound_rules rules table.now ≡ true) × (all_plain (rules_at rules table.now) ≡ true) × (rules ≤ most_held) }
    requires zero { index.old ≡ replicate index_words 0 }
    ensures { Indexed index.new table.now rules }
{
    let mut n = 0;
    let mut at = 0;
    for (k, rule) in tables::rules_in(table, rules).enumerate() {
        let heads = rule.heads().len();
        if LONGEST < at {
            return;
        }
        if MOST_HEADS < n + heads {
            return;
        }
        enter_rule(index, &rule, at, k, n);
        at += rule.size();
        n += heads;
    }
    index[0] = 1;
}

// The chain of the heads that are the atom v begins at this entry, one more than the place of a head; 0 where there is none.
pub fn first_head(index: &[u16], v: usize) -> usize
    requires { v ≤ largest }
    ensures { result ≡ get_or index.now (first_at + v) 0 }
{
    word_of(index, FIRST + v)
}

// The entry that follows the head at place x.
pub fn next_head(index: &[u16], x: usize) -> usize
    requires { x < most_heads }
    ensures { result ≡ get_or index.now (next_at + x) 0 }
{
    word_of(index, NEXT + x)
}

// Rule k.
fn numbered<'a>(table: &'a [i32], rules: usize, index: &[u16], k: usize) -> Rule<'a>
    requires { Covers index.now table.now rules × (sound_rules rules table.now ≡ true) × (k < rules) }
    ensures { result.words.now ≡ words_from k table.now }
{
    let at = word_of(index, STARTS + k);
    Rule {
        words: &table[at..],
    }
}

// The rule of the head at place x.
pub fn rule_of<'a>(table: &'a [i32], rules: usize, index: &[u16], x: usize) -> Rule<'a>
    requires index { Covers index.now table.now rules × (sound_rules rules table.now ≡ true) }
    requires place { x < length (headed_to rules table.now) }
    ensures { result.words.now ≡ words_from (headed_at (headed_to rules table.now) x).rule table.now }
{
    let k = word_of(index, OWNER + x);
    numbered(table, rules, index, k)
}

// The place of a name among the listed numbers, if it is listed.
fn place_of(listed: &[i32], name: usize) -> Option<usize>
    ensures { MatchOption result (mentions name listed.now ≡ false)
        (λ j. (j < length listed.now) × (variable (get_or listed.now j (pos 0)) ≡ name)) }
{
    listed
        .iter()
        .position(|number| words::variable_of(*number) == name)
}

// Every number was hit.
fn all_hit(hits: &[bool]) -> bool
    ensures { result ≡ all (λ hit. hit) hits.now }
{
    hits.iter().all(|hit| *hit)
}

// The rules with the head v hit the listed numbers that name their bodies; false where one hits none.
fn all_listed(
    table: &[i32],
    rules: usize,
    names: &[u16],
    index: &[u16],
    v: usize,
    listed: &[i32],
    hits: &mut [bool],
) -> bool
    requires index { Covers index.now table.now rules × (sound_rules rules table.now ≡ true) × (rules ≤ length names.now) }
    requires line { (v ≤ largest) × (length listed.now ≤ length hits.old) × (hits.old ≡ replicate (length hits.old) false) }
    ensures { Listed table.now rules names.now v listed.now hits.new result }
{
    let mut p = word_of(index, FIRST + v);
    while 0 < p {
        let x = p - 1;
        let k = word_of(index, OWNER + x);
        let Some(j) = place_of(listed, words::wide(names[k])) else {
            return false;
        };
        hits[j] = true;
        p = word_of(index, NEXT + x);
    }
    true
}

// Question 30 but for h, the atom v, being one: the listed numbers are the names of just the bodies of the rules with h in the head.
pub fn are_just_names(
    table: &[i32],
    rules: usize,
    names: &[u16],
    index: &[u16],
    v: usize,
    listed: &[i32],
) -> bool
    requires program { (sound_rules rules table.now ≡ true) × (rules ≤ length names.now) }
    requires index { Indexed index.now table.now rules × (covered index.now ≡ true) }
    requires line { (v ≤ largest) × (length listed.now ≤ most_numbers) × (distinct listed.now ≡ true) }
    ensures { (ws : List InputRule) → HoldsRules table.now rules ws
        → (bodies : List ℤ) (called : List ℤ → ℕ) → Kept names.now bodies called ws
        → result ≡ is_just_names called (pos v) listed.now (expand ws) }
{
    let mut hits = [false; MOST_NUMBERS];
    if all_listed(table, rules, names, index, v, listed, &mut hits) {
        return all_hit(&hits[..listed.len()]);
    }
    false
}

// A rule with the body, by its number.
fn rule_with(table: &[i32], rules: usize, index: &[u16], body: &[i32]) -> Option<usize>
    requires { Covers index.now table.now rules × (sound_rules rules table.now ≡ true) }
    ensures { RuleWith table.now rules body.now result }
{
    let mut p = word_of(index, BUCKET + hash_of(body));
    while 0 < p {
        let k = p - 1;
        let rule = numbered(table, rules, index, k);
        if words::is_same_list(body, rule.body()) {
            return Some(k);
        }
        p = word_of(index, BEFORE + k);
    }
    None
}

// What the literals, ascending, are called as a body of the rules: 0 where that has no name, 8,192 where no rule has the body.
// No Option: the contract of body_name is public and names both numbers.
pub fn body_name(
    table: &[i32],
    rules: usize,
    names: &[u16],
    bodies: &[i16],
    index: &[u16],
    body: &[i32],
) -> usize
    requires program { ((ws : List InputRule) × HoldsRules table.now rules ws) × (rules ≤ length names.now) }
    requires index { Indexed index.now table.now rules }
    ensures { (ws : List InputRule) → HoldsRules table.now rules ws
        → (called : List ℤ → ℕ) → Kept names.now bodies.now called ws
        → result ≡ cond (any (λ x. same_list body.now x.body) (expand ws)) (called body.now) entries }
{
    if !is_covered(index) {
        return queries::body_name(table, rules, names, bodies, body);
    }
    match rule_with(table, rules, index, body) {
        Some(k) => words::wide(names[k]),
        None => ENTRIES,
    }
}

// Question 28: the literals, ascending, are the body of a rule, and it has no name.
pub fn is_unnamed(
    table: &[i32],
    rules: usize,
    names: &[u16],
    bodies: &[i16],
    index: &[u16],
    body: &[i32],
) -> bool
    requires program { ((ws : List InputRule) × HoldsRules table.now rules ws) × (rules ≤ length names.now) }
    requires index { Indexed index.now table.now rules }
    ensures { (ws : List InputRule) → HoldsRules table.now rules ws
        → (called : List ℤ → ℕ) → Kept names.now bodies.now called ws
        → result ≡ (any (λ x. same_list body.now x.body) (expand ws) && eqb (called body.now) 0) }
{
    body_name(table, rules, names, bodies, index, body) == 0
}

// Every rule with the body gets the name; what is kept of other rules stays.
fn enter_rules(
    table: &[i32],
    rules: usize,
    index: &[u16],
    body: &[i32],
    name: u16,
    names: &mut [u16],
)
    requires { Covers index.now table.now rules × (sound_rules rules table.now ≡ true) × (rules ≤ length names.old) }
    ensures { (called : List ℤ → ℕ)
        → take rules names.old ≡ map (λ r. entry called r.body) (rules_at rules table.now)
        → take rules names.new
        ≡ map (λ r. entry (λ L. cond (same_list body.now L) name (called L)) r.body) (rules_at rules table.now) }
{
    let mut p = word_of(index, BUCKET + hash_of(body));
    while 0 < p {
        let k = p - 1;
        let rule = numbered(table, rules, index, k);
        names[k] = queries::name_for(&rule, body, name, names[k]);
        p = word_of(index, BEFORE + k);
    }
}

// Where the hint for a name stands. Names with the same place take it from each other, which costs time and nothing else.
fn hint_of(name: usize) -> usize
    ensures { result ≡ hint_of name }
{
    MOST_HELD + name % HINTS
}

// The last rule with the body of a name: a hint behind what is kept by rule, where there is room for it. It is one more than the rule's
// number, as in the chains; 0 where no rule has the body.
fn put_hint(names: &mut [u16], name: usize, newest: Option<usize>)
    requires { IfSome newest (λ k. k < most_held) }
    ensures { names.new ≡ set names.old (hint_of name) (linked newest) }
{
    let hint = match newest {
        Some(k) => k + 1,
        None => 0,
    };
    let at = hint_of(name);
    if at < names.len() {
        names[at] = hint as u16;
    }
}

// The body gets the name, by rule and by name.
pub fn enter(
    table: &[i32],
    rules: usize,
    index: &[u16],
    body: &[i32],
    name: usize,
    names: &mut [u16],
    bodies: &mut [i16],
)
    requires program { ((ws : List InputRule) × HoldsRules table.now rules ws) × (rules ≤ length names.old) }
    requires index { Indexed index.now table.now rules }
    requires body { (1 ≤ name) × (name ≤ largest) × (top body.now ≤ largest) }
    ensures { (ws : List InputRule) → HoldsRules table.now rules ws
        → (called : List ℤ → ℕ) → Kept names.old bodies.old called ws
        → called body.now ≡ 0 → ((L : List ℤ) → ¬ (called L ≡ name))
        → Kept names.new bodies.new (λ L. cond (same_list body.now L) name (called L)) ws }
{
    if is_covered(index) {
        let newest = rule_with(table, rules, index, body);
        enter_rules(table, rules, index, body, name as u16, names);
        put_hint(names, name, newest);
        return;
    }
    queries::enter(table, rules, body, name, names, bodies);
}

// The rule is normal with just these heads, and `kept`, what is kept of it, is the name.
fn completes(rule: &Rule, heads: &[i32], name: usize, kept: usize) -> bool
    ensures { result ≡ true → Completes rule.now.words.now heads.now name kept }
{
    if kept == name {
        return queries::is_normal_with(rule, heads);
    }
    false
}

// A rule that completes is among those that the hint leads to. Nothing is promised where it is not.
fn is_found(
    table: &[i32],
    rules: usize,
    names: &[u16],
    index: &[u16],
    heads: &[i32],
    name: usize,
) -> bool
    requires { Covers index.now table.now rules × (sound_rules rules table.now ≡ true) × (rules ≤ length names.now) }
    ensures { result ≡ true → (k : ℕ) × (k < rules)
        × Completes (words_from k table.now) heads.now name (get_or names.now k 0) }
{
    let mut p = word_of(names, hint_of(name));
    if rules < p {
        return false;
    }
    while 0 < p {
        let k = p - 1;
        let rule = numbered(table, rules, index, k);
        if completes(&rule, heads, name, words::wide(names[k])) {
            return true;
        }
        p = word_of(index, BEFORE + k);
    }
    false
}

// Question 29: some normal rule has just these heads and the body with the name. The hint first; where it fails, all rules.
pub fn is_completed(
    table: &[i32],
    rules: usize,
    names: &[u16],
    bodies: &[i16],
    index: &[u16],
    heads: &[i32],
    name: usize,
) -> bool
    requires program { ((ws : List InputRule) × HoldsRules table.now rules ws) × (rules ≤ length names.now) }
    requires index { Indexed index.now table.now rules }
    requires name { (1 ≤ name) × (name ≤ largest) }
    ensures { (ws : List InputRule) → HoldsRules table.now rules ws
        → (called : List ℤ → ℕ) → Kept names.now bodies.now called ws
        → result ≡ any (completing called heads.now name) (expand ws) }
{
    if is_covered(index) {
        if is_found(table, rules, names, index, heads, name) {
            return true;
        }
    }
    queries::is_completed(table, rules, names, bodies, heads, name)
}

// One more name after the n of the row, unless it stands there or is no variable. How many there are then.
fn note(row: &mut [i32], n: usize, name: u16) -> usize
    requires { Row row.old n × (n ≤ most_held) × (1 ≤ name) }
    ensures row { Row row.new result × InRow row.new result name }
    ensures same { ((x : ℤ) → x ∈ take n row.old → x ∈ take result row.new)
        × ((x : ℤ) → x ∈ take result row.new → (x ∈ take n row.old) ⊎ (x ≡ pos name)) }
{
    if LARGEST < words::wide(name) {
        return n;
    }
    let word = i32::from(name);
    if words::contains(&row[..n], word) {
        return n;
    }
    row[n] = word;
    n + 1
}

// The name of the body of the rule, unless a positive atom of it is in the set; none where it has no name.
fn gather_rule(rule: &Rule, inside: &[u8], name: u16, row: &mut [i32], n: usize) -> Option<usize>
    requires { Row row.old n × (n ≤ most_held) }
    ensures { (t : List ℤ) (rules : ℕ) (names : List ℕ) (k : ℕ) → rule.now.words.now ≡ words_from k t → name ≡ get_or names k 0 → k < rules
        → any (is_inside inside.now) (heads_at (words_from k t)) ≡ true
        → Collected t rules names inside.now row.old n
        → Gathers t rules names inside.now (λ j. j ≡ k) row.old n row.new result }
{
    if queries::any_inside(rule.body(), inside) {
        return Some(n);
    }
    if name == 0 {
        return None;
    }
    Some(note(row, n, name))
}

// The names of the external bodies of rules with the head v, which is in the set; none where one has no name.
fn gather_head(
    table: &[i32],
    rules: usize,
    names: &[u16],
    index: &[u16],
    v: usize,
    inside: &[u8],
    row: &mut [i32],
    n: usize,
) -> Option<usize>
    requires index { Covers index.now table.now rules × (sound_rules rules table.now ≡ true) × (rules ≤ length names.now) }
    requires head { (1 ≤ v) × (v ≤ largest) × (marked inside.now v ≡ true) }
    requires row { Collected table.now rules names.now inside.now row.old n }
    ensures { Gathers table.now rules names.now inside.now (HasHead table.now rules v)
        row.old n row.new result }
{
    let mut count = n;
    let mut p = word_of(index, FIRST + v);
    while 0 < p {
        let x = p - 1;
        let k = word_of(index, OWNER + x);
        let rule = numbered(table, rules, index, k);
        count = gather_rule(&rule, inside, names[k], row, count)?;
        p = word_of(index, NEXT + x);
    }
    Some(count)
}

// The names of all external bodies of the set; none where one has no name.
fn gather_all(
    table: &[i32],
    rules: usize,
    names: &[u16],
    index: &[u16],
    atoms: &[i32],
    inside: &[u8],
    row: &mut [i32],
) -> Option<usize>
    requires index { Covers index.now table.now rules × (sound_rules rules table.now ≡ true) × (rules ≤ length names.now) }
    requires set { Marks inside.now (map variable atoms.now) × ((x : ℤ) → x ∈ atoms.now → (1 ≤ variable x) × (variable x ≤ largest)) }
    requires row { length row.old ≡ row_words }
    ensures { Gathers table.now rules names.now inside.now (λ k. k < rules)
        row.old 0 row.new result }
{
    let mut count = 0;
    for atom in atoms {
        count = gather_head(
            table,
            rules,
            names,
            index,
            words::variable_of(*atom),
            inside,
            row,
            count,
        )?;
    }
    Some(count)
}

// The names of the external bodies of the set, ascending: so many words of the row; none where some body has no name.
pub fn external_names(
    table: &[i32],
    rules: usize,
    names: &[u16],
    index: &[u16],
    atoms: &[i32],
    inside: &[u8],
    row: &mut [i32],
) -> Option<usize>
    requires program { (sound_rules rules table.now ≡ true) × (rules ≤ length names.now) }
    requires index { Indexed index.now table.now rules × (covered index.now ≡ true) }
    requires set { Marks inside.now (map variable atoms.now) × ((x : ℤ) → x ∈ atoms.now → (1 ≤ variable x) × (variable x ≤ largest)) }
    requires row { length row.old ≡ row_words }
    ensures { (ws : List InputRule) → HoldsRules table.now rules ws
        → (bodies : List ℤ) (called : List ℤ → ℕ) → Kept names.now bodies called ws
        → Externals (asked_names External inside.now called (expand ws)) row.new result }
{
    let count = gather_all(table, rules, names, index, atoms, inside, row)?;
    words::sort(&mut row[..count]);
    Some(count)
}
