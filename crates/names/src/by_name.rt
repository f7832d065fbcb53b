// The bodies of at most 12 literals, kept by name: a record for each variable, and an index of the names by a key of their bodies.
// Where no rule has a weight body no records are lent, and of an array of another length the public functions say and do nothing.
ghost use Rattle.std.specs.Prelude.{IfSome, MatchOption, ◌≡◌, true, false, cond, List, ℕ, ◌+◌, ◌*◌, ◌<◌, ◌≤◌, ℤ, pos, length, get_or};
ghost use Rattle.std.proofs.lemmas.List.Edits.{sets};
ghost use Rattle.words.specs.Limits.{largest, entries};
ghost use Rattle.words.specs.Literals.{same, same_list, top};
ghost use Rattle.weights.specs.Weights.{most_weighted};
ghost use Rattle.names.specs.ByName.{width, body_words, keys, mixed, place_of, stands_at, Called, PutName, Counted, Told};

use weights::MOST_WEIGHTED;
use words::{ENTRIES, LARGEST};

// The words of a record; where the index begins, in which a name stands at the first place that was free from that of its body's key on;
// the words of all.
const WIDTH: usize = MOST_WEIGHTED + 1;

const INDEX: usize = WIDTH * ENTRIES;

pub const BODY_WORDS: usize = INDEX + ENTRIES;

// Keys are below this number. The factor is this number divided by the square of the golden ratio, so that products spread.
const KEYS: usize = 4294967296;

const FACTOR: usize = 1640531527;

// As many words are the body's literals.
fn is_body(words: &[i16], body: &[i32]) -> bool
    requires { length words.now ≡ length body.now }
    ensures { result ≡ same_list words.now body.now }
{
    words
        .iter()
        .zip(body)
        .all(|(w, b)| words::is_same(i32::from(*w), *b))
}

// The record of v holds the body.
fn stands_at(bodies: &[i16], v: usize, body: &[i32]) -> bool
    requires { (length bodies.now ≡ body_words) × (v ≤ largest) × (length body.now ≤ most_weighted) }
    ensures { result ≡ stands_at bodies.now v body.now }
{
    let at = WIDTH * v;
    if words::is_same(words::word_of(bodies, at), (body.len() + 1) as i32) {
        return is_body(&bodies[at + 1..at + 1 + body.len()], body);
    }
    false
}

// A key with one literal more.
fn mix(key: usize, word: i32) -> usize
    requires { key < keys }
    ensures { (result ≡ mixed key word) × (result < keys) }
{
    let v = words::variable_of(word) % ENTRIES;
    if word < 0 {
        return (key + v + ENTRIES) * FACTOR % KEYS;
    }
    (key + v + 0) * FACTOR % KEYS
}

// The place of the index from which on the body's name is looked for: the high bits of its key.
fn place_of(body: &[i32]) -> usize
    ensures { (result ≡ place_of body.now) × (result < entries) }
{
    let mut key = 0;
    for word in body {
        key = mix(key, *word);
    }
    key / (KEYS / ENTRIES)
}

// The name at a place of the index, if there is one.
fn name_in(bodies: &[i16], place: usize) -> Option<usize>
    requires { (length bodies.now ≡ body_words) × (place < entries) }
    ensures { IfSome result (λ v. (1 ≤ v) × (v ≤ largest)) }
{
    let v = words::variable_of(words::word_of(bodies, INDEX + place));
    if 0 < v && v <= LARGEST { Some(v) } else { None }
}

// No name stands at a place of the index.
fn is_free(bodies: &[i16], place: usize) -> bool
    requires { (length bodies.now ≡ body_words) × (place < entries) }
    ensures { result ≡ same (get_or bodies.now (width * entries + place) (pos 0)) (pos 0) }
{
    words::is_same(words::word_of(bodies, INDEX + place), 0)
}

// A name of the body that the index tells from a place on, up to the first place without a name.
fn hinted(bodies: &[i16], first: usize, body: &[i32]) -> Option<usize>
    requires { (length bodies.now ≡ body_words) × (first < entries) × (length body.now ≤ most_weighted) }
    ensures { IfSome result (λ v. (1 ≤ v) × (v ≤ largest) × (stands_at bodies.now v body.now ≡ true)) }
{
    for k in 0..ENTRIES {
        let v = name_in(bodies, (first + k) % ENTRIES)?;
        if stands_at(bodies, v, body) {
            return Some(v);
        }
    }
    None
}

// The first name whose record holds the body.
fn found(bodies: &[i16], body: &[i32]) -> Option<usize>
    requires { (length bodies.now ≡ body_words) × (length body.now ≤ most_weighted) }
    ensures { MatchOption result ((v : ℕ) → 1 ≤ v → v < entries → stands_at bodies.now v body.now ≡ false)
        (λ v. (1 ≤ v) × (v < entries) × (stands_at bodies.now v body.now ≡ true)
        × ((u : ℕ) → 1 ≤ u → u < v → stands_at bodies.now u body.now ≡ false)) }
{
    (1..ENTRIES).find(|v| stands_at(bodies, *v, body))
}

// The body's name, 0 where it has none. A place that is free tells that at once; where the index tells no name, the records do.
// No Option: 0 is the name of a body without one in `Called` and in every contract that speaks of names.
pub fn name_of(bodies: &[i16], body: &[i32]) -> u16
    requires { length body.now ≤ most_weighted }
    ensures { (called : List ℤ → ℕ) → Called bodies.now called → result ≡ called body.now }
{
    if bodies.len() != BODY_WORDS {
        return 0;
    }
    let place = place_of(body);
    if is_free(bodies, place) {
        return 0;
    }
    if let Some(v) = hinted(bodies, place, body) {
        return v as u16;
    }
    match found(bodies, body) {
        Some(v) => v as u16,
        None => 0,
    }
}

// The words from a place on become the body's literals.
fn put_body(bodies: &mut [i16], at: usize, body: &[i32])
    requires { (at + length body.now ≤ length bodies.old) × (top body.now ≤ largest) }
    ensures { bodies.new ≡ sets bodies.old at body.now }
{
    for i in 0..body.len() {
        bodies[at + i] = body[i] as i16;
    }
}

// The name stands in the index at the first free place from this one on, if there is any; the records stay.
fn put_name(bodies: &mut [i16], first: usize, name: usize)
    requires { (length bodies.old ≡ body_words) × (first < entries) × (1 ≤ name) × (name ≤ largest) }
    ensures { PutName first bodies.old bodies.new }
{
    for k in 0..ENTRIES {
        let place = (first + k) % ENTRIES;
        if is_free(bodies, place) {
            bodies[INDEX + place] = name as i16;
            return;
        }
    }
}

// The body, which has no name, gets one that no body has.
pub fn enter_body(bodies: &mut [i16], name: usize, body: &[i32])
    requires { (1 ≤ name) × (name ≤ largest) × (length body.now ≤ most_weighted) × (top body.now ≤ largest) }
    ensures { (called : List ℤ → ℕ) → Called bodies.old called → called body.now ≡ 0
        → ((L : List ℤ) → ¬ (called L ≡ name)) → Called bodies.new (λ L. cond (same_list body.now L) name (called L)) }
{
    if bodies.len() != BODY_WORDS {
        return;
    }
    let place = place_of(body);
    let at = WIDTH * name;
    bodies[at] = (body.len() + 1) as i16;
    put_body(bodies, at + 1, body);
    put_name(bodies, place, name);
}

// The count of a record's literals, where it holds a body of at most 12.
fn count_of(bodies: &[i16], name: usize) -> Option<usize>
    requires { (length bodies.now ≡ body_words) × (name ≤ largest) }
    ensures { Counted (get_or bodies.now (width * name) (pos 0)) result }
{
    let first = words::word_of(bodies, WIDTH * name);
    let count = words::variable_of(first);
    if words::is_positive(first) && count <= WIDTH {
        Some(count - 1)
    } else {
        None
    }
}

// The body with the name: so many literals of the row, or none of at most 12 literals.
pub fn body_of(bodies: &[i16], name: usize, row: &mut [i32]) -> Option<usize>
    requires { (name ≤ largest) × (most_weighted ≤ length row.old) }
    ensures { Told bodies.now name row.new result }
{
    if bodies.len() != BODY_WORDS {
        return None;
    }
    let count = count_of(bodies, name)?;
    let at = WIDTH * name + 1;
    words::widen(&bodies[at..at + count], row);
    Some(count)
}
