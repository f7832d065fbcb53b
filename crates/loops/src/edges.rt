// The numbers of an `l` line by their places in it, and the edges between the places: by the chains of the rules with these heads,
// or in one pass over the table.
ghost use Rattle.std.specs.Prelude.{◌≡◌, true, ◌&&◌, List, [], ◌∷◌, suc, ◌≤◌, ◌<◌, eqb, ℤ, pos, length, get_or, drop};
ghost use Rattle.words.specs.Limits.{largest, most_numbers};
ghost use Rattle.words.specs.Lists.{any};
ghost use Rattle.weights.specs.Weights.{paired, most_weighted};
ghost use Rattle.aspif.specs.Tables.{rule_at, rules_at, sound_rules};
ghost use Rattle.heads.specs.Heads.{Covers, Indexed};
ghost use Rattle.loops.specs.Relevance.{RelevantRule, Relevant};
ghost use Rattle.loops.specs.Edges.{Members, place_by, Placed, Low, is_place, LowPlaces, is_at, cells, More, any_marked, rule_edge, Edges};
ghost use Rattle.loops.specs.Edges.{Puts, Gathered};

use aspif::tables;
use aspif::tables::Rule;
use heads::MOST_HEADS;
use weights::MOST_WEIGHTED;
use words::{ENTRIES, MOST_HELD, MOST_LITERALS, MOST_NUMBERS};

// A mark for each two places.
pub const CELLS: usize = MOST_NUMBERS * MOST_NUMBERS;

// The byte at v; 0 past the end.
fn byte_at(bytes: &[u8], v: usize) -> usize
    ensures { result ≡ get_or bytes.now v 0 }
{
    match bytes.get(v) {
        Some(b) => usize::from(*b),
        None => 0,
    }
}

// For each variable its place in the line, counted from 1; 0 for none.
// 0 and no Option: Option<u8> takes two bytes for each of 8,192 variables.
pub fn places_of(numbers: &[i32]) -> [u8; ENTRIES]
    requires { Members numbers.now }
    ensures { Placed result numbers.now }
{
    let mut places = [0u8; ENTRIES];
    for i in 0..numbers.len() {
        let v = words::variable_of(numbers[i]);
        places[v] = (i + 1) as u8;
    }
    places
}

// The place of a positive literal, counted from 1; 0 for none.
fn place_of(word: i32, places: &[u8]) -> usize
    ensures { result ≡ place_by places.now word }
{
    if words::is_positive(word) {
        byte_at(places, words::variable_of(word))
    } else {
        0
    }
}

// An edge from place a to place b, both counted from 1; none where b is 0.
fn mark_edge(edges: &mut [u8], a: usize, b: usize)
    requires { (length edges.old ≡ cells) × (1 ≤ a) × (a ≤ most_numbers) × (b ≤ most_numbers) }
    ensures { More (λ i j. eqb a (suc i) && eqb b (suc j)) edges.old edges.new }
{
    if 0 < b {
        let cell = (a - 1) * MOST_NUMBERS + (b - 1);
        marks::mark(edges, cell);
    }
}

// Edges from place a to the places of heads, all counted from 1.
fn mark_heads(a: usize, heads: &[u8], edges: &mut [u8])
    requires { (length edges.old ≡ cells) × (1 ≤ a) × (a ≤ most_numbers) × LowPlaces heads.now }
    ensures { More (λ i j. eqb a (suc i) && any (is_place j) heads.now) edges.old edges.new }
{
    for h in heads {
        mark_edge(edges, a, usize::from(*h));
    }
}

// Edges from a body literal that has a place to the places of heads.
fn mark_literal(word: i32, heads: &[u8], places: &[u8], edges: &mut [u8])
    requires { (length edges.old ≡ cells) × Low places.now × LowPlaces heads.now }
    ensures { More (λ i j. is_at places.now i word && any (is_place j) heads.now)
        edges.old edges.new }
{
    let a = place_of(word, places);
    if 0 < a {
        mark_heads(a, heads, edges);
    }
}

// Edges from each literal that has a place to the places of heads.
fn mark_body(body: &[i32], heads: &[u8], places: &[u8], edges: &mut [u8])
    requires { (length edges.old ≡ cells) × Low places.now × LowPlaces heads.now }
    ensures { More (λ i j. any (is_at places.now i) body.now && any (is_place j) heads.now)
        edges.old edges.new }
{
    for x in body {
        mark_literal(*x, heads, places, edges);
    }
}

// The edges of a body literal, where it is asked for.
fn mark_if(chosen: bool, word: i32, heads: &[u8], places: &[u8], edges: &mut [u8])
    requires { (length edges.old ≡ cells) × Low places.now × LowPlaces heads.now }
    ensures { More (λ i j. (chosen && is_at places.now i word) && any (is_place j) heads.now)
        edges.old edges.new }
{
    if chosen {
        mark_literal(word, heads, places, edges);
    }
}

// Edges from the literal of each pair that is marked as relevant.
fn mark_pairs(pairs: &[i32], relevant: &[u8], heads: &[u8], places: &[u8], edges: &mut [u8])
    requires { (length edges.old ≡ cells) × Low places.now × LowPlaces heads.now }
    ensures { More (λ i j. any_marked (is_at places.now i) relevant.now 0 (paired pairs.now)
        && any (is_place j) heads.now) edges.old edges.new }
{
    for k in 0..pairs.len() / 2 {
        mark_if(
            marks::is_marked(relevant, k),
            pairs[2 * k],
            heads,
            places,
            edges,
        );
    }
}

// One place more after the n of the row, unless it is 0. How many there are then.
fn put_place(row: &mut [u8], n: usize, place: usize) -> usize
    requires { (n < length row.old) × (place ≤ most_numbers) }
    ensures { Puts n place row.old row.new result }
{
    if place == 0 {
        return n;
    }
    row[n] = place as u8;
    n + 1
}

// The places of those heads that have one, in the row. How many there are.
fn gather(heads: &[i32], places: &[u8], row: &mut [u8]) -> usize
    requires { (length heads.now ≤ length row.old) × Low places.now }
    ensures { Gathered places.now heads.now row.new result }
{
    let mut n = 0;
    for h in heads {
        n = put_place(row, n, place_of(*h, places));
    }
    n
}

// The edges of the rule; `relevant` has the entries of its pairs.
fn mark_rule(rule: &Rule, relevant: &[u8], places: &[u8], edges: &mut [u8])
    requires entries { RelevantRule relevant.now (rule_at rule.now.words.now) }
    requires sizes { (length edges.old ≡ cells) × Low places.now }
    ensures { More (λ i j. rule_edge places.now i j (rule_at rule.now.words.now))
        edges.old edges.new }
{
    let mut row = [0u8; MOST_LITERALS];
    let n = gather(rule.heads(), places, &mut row);
    if n == 0 {
        return;
    }
    if rule.is_weighted() {
        mark_pairs(rule.body(), relevant, &row[..n], places, edges);
        return;
    }
    mark_body(rule.body(), &row[..n], places, edges);
}

// Where the entries of the next rule's pairs begin; the end where there are none.
fn next_entries(relevant: &[u8], at: usize) -> usize
    requires { at ≤ length relevant.now }
    ensures { (result ≤ length relevant.now)
        × (drop result relevant.now ≡ drop most_weighted (drop at relevant.now)) }
{
    if relevant.len() - at < MOST_WEIGHTED {
        return relevant.len();
    }
    at + MOST_WEIGHTED
}

// The edges between the places by all rules.
fn scan(table: &[i32], rules: usize, relevant: &[u8], places: &[u8]) -> [u8; CELLS]
    requires program { (sound_rules rules table.now ≡ true) × Relevant relevant.now (rules_at rules table.now) }
    requires places { Low places.now }
    ensures { Edges places.now (rules_at rules table.now) result }
{
    let mut edges = [0u8; CELLS];
    let mut at = 0;
    for rule in tables::rules_in(table, rules) {
        mark_rule(&rule, &relevant[at..], places, &mut edges);
        at = next_entries(relevant, at);
    }
    edges
}

// Edges to the place of the head v, the only one lent, from the bodies of the rules that have it.
fn mark_chain(
    table: &[i32],
    rules: usize,
    lookup: &[u16],
    head: &[u8],
    v: usize,
    places: &[u8],
    edges: &mut [u8],
)
    requires index { Covers lookup.now table.now rules × (sound_rules rules table.now ≡ true) }
    requires head { (head.now ≡ place_by places.now (pos v) ∷ []) × (v ≤ largest) }
    requires sizes { (length edges.old ≡ cells) × Low places.now × ((U : List ℤ) × Placed places.now U) }
    ensures { More (λ i j. any (is_at places.now j) (pos v ∷ [])
        && any (rule_edge places.now i j) (rules_at rules table.now)) edges.old edges.new }
{
    let mut p = heads::first_head(lookup, v);
    while 0 < p {
        let x = p - 1;
        let rule = heads::rule_of(table, rules, lookup, x);
        mark_body(rule.body(), head, places, edges);
        p = heads::next_head(lookup, x);
    }
}

// The edges between the places by the index of the rules.
fn look_up(
    table: &[i32],
    rules: usize,
    lookup: &[u16],
    numbers: &[i32],
    places: &[u8],
) -> [u8; CELLS]
    requires index { Covers lookup.now table.now rules × (sound_rules rules table.now ≡ true) }
    requires places { Members numbers.now × Placed places.now numbers.now }
    ensures { Edges places.now (rules_at rules table.now) result }
{
    let mut edges = [0u8; CELLS];
    for x in numbers {
        let v = words::variable_of(*x);
        mark_chain(
            table,
            rules,
            lookup,
            &places[v..v + 1],
            v,
            places,
            &mut edges,
        );
    }
    edges
}

// How many of so many steps are left after the chain of the heads that are the atom v.
fn left_after(lookup: &[u16], v: usize, most: usize) -> usize
    requires { v ≤ largest }
{
    let mut p = heads::first_head(lookup, v);
    for taken in 0..most {
        if p == 0 || MOST_HEADS < p {
            return most - taken;
        }
        p = heads::next_head(lookup, p - 1);
    }
    0
}

// There are no more heads in the set than rules. Only time hangs on it: by the index a rule is read once for each head in the set, in the
// pass over the table once.
fn are_few(rules: usize, lookup: &[u16], numbers: &[i32]) -> bool
    requires { Members numbers.now }
{
    let mut left = rules.min(MOST_HELD) + 1;
    for x in numbers {
        left = left_after(lookup, words::variable_of(*x), left);
    }
    0 < left
}

// The edges between the places: by the index where it covers the program and the set has few heads, else by all rules.
pub fn edges_of(
    table: &[i32],
    rules: usize,
    lookup: &[u16],
    relevant: &[u8],
    numbers: &[i32],
    places: &[u8],
) -> [u8; CELLS]
    requires program { (sound_rules rules table.now ≡ true) × Relevant relevant.now (rules_at rules table.now) }
    requires index { Indexed lookup.now table.now rules }
    requires places { Members numbers.now × Placed places.now numbers.now }
    ensures { Edges places.now (rules_at rules table.now) result }
{
    if heads::is_covered(lookup) && are_few(rules, lookup, numbers) {
        return look_up(table, rules, lookup, numbers, places);
    }
    scan(table, rules, relevant, places)
}
