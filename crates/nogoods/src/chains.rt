// Chains of the nogoods by their literals, so that a deletion looks at few, and marks of the starts. Both stand in the index, for the records in front.
// A chain's entry is one more than a place, and 0 at its end: specs/Descending.antt of crate `words`; what the cells mean is specs/Index.antt.
ghost use Rattle.std.specs.Prelude.{◌≡◌, List, ℕ, ◌+◌, ◌-◌, ◌≤◌, ◌<◌, length, get_or};
ghost use Rattle.nogoods.specs.Store.{Stored, is_target};
ghost use Rattle.nogoods.specs.Records.{end_at, nogood_at, stored_at};
ghost use Rattle.nogoods.specs.Index.{scale_of, start_of, most_scale, lent_cells, Roomy, reach, covered_at, hashes, mixed, hash_from, key_of, before_of, entry_of, linked_in, Entered, Unlinked, Keeps, Spotted, Blank};

use crate::{LENT_CELLS, LENT_REACH, records};

// As many cells of an index are the search's by variable and the one that says how many words were entered; as many there are for each chain: its own,
// eight for the words of the store, and sixteen of the search.
const FIXED_CELLS: usize = 49287;

const CELLS_PER_CHAIN: usize = 25;

// The largest scale.
const MOST_SCALE: usize = 134217728;

// As many hashes of lists of literals there are.
const HASHES: usize = 4294967296;

// As many words of the store are reached for each chain.
pub const WORDS: usize = 8;

// As many cells there are for each chain before the search's.
pub const PROVED: usize = 9;

// Where the oldest live nogood with some literals starts, with the place before it in its chain, where it is not the chain's first.
#[derive(Clone, Copy, PartialEq, Eq)]
pub struct Spot {
    pub place: usize,
    pub over: Option<usize>,
}

// The scale of an index of so many cells: how many chains there are.
pub fn scale_of(n: usize) -> usize
    ensures value { result ≡ scale_of n }
    ensures upper_bound { result ≤ most_scale }
{
    (n.saturating_sub(FIXED_CELLS) / CELLS_PER_CHAIN).min(MOST_SCALE)
}

// Where the search's cells begin in an index of so many.
pub fn start_of(n: usize) -> usize
    ensures value { result ≡ start_of n }
    ensures upper_bound { result ≤ n }
{
    (PROVED * scale_of(n) + 1).min(n)
}

// As many of the cells that are lent as reach a store of so many words. That many reach it is not promised: it decides time alone.
pub fn cells_for(words: usize) -> usize
    ensures { result ≤ lent_cells }
{
    if words < LENT_REACH {
        FIXED_CELLS + CELLS_PER_CHAIN * (words / WORDS + 1)
    } else {
        LENT_CELLS
    }
}

// A hash with one literal more.
fn mix(h: usize, word: i32) -> usize
    requires { h < hashes }
    ensures value { result ≡ mixed h word }
    ensures upper_bound { result < hashes }
{
    (h * 1664525 + 2 * words::variable_of(word) + usize::from(word < 0)) % HASHES
}

// The hash of a list of literals.
fn hash_of(literals: &[i32]) -> usize
    ensures { result ≡ hash_from 0 literals.now }
{
    let mut h = 0;
    for word in literals {
        h = mix(h, *word);
    }
    h
}

// The key of a list of literals among m.
pub fn key_of(literals: &[i32], m: usize) -> usize
    requires { 0 < m }
    ensures value { result ≡ key_of m literals.now }
    ensures upper_bound { result < m }
{
    hash_of(literals) % m
}

// The place x goes on top of the chain of h.
fn link(index: &mut [u32], m: usize, x: usize, h: usize)
    requires place { (x < reach m) × (h < m) }
    requires index { Roomy m index.old × (get_or index.old h 0 ≤ reach m) }
    ensures { index.new ≡ linked_in m index.old x h }
{
    index[m + x] = index[h] + 1;
    index[h] = (x + 1) as u32;
}

// How many words were entered.
pub fn covered(index: &[u32]) -> usize
    ensures { result ≡ get_or index.now (covered_at (scale_of (length index.now))) 0 }
{
    match index.get(PROVED * scale_of(index.len())) {
        Some(cell) => *cell as usize,
        None => 0,
    }
}

// The record at r, which ends at `end`, is entered.
fn enter(store: &[i32], r: usize, end: usize, index: &mut [u32], m: usize)
    requires record { (end_at store.now r ≤ length store.now) × (end ≡ end_at store.now r) × (end ≤ reach m) }
    requires index { Roomy m index.old × ((k : ℕ) → k < m → get_or index.old k 0 ≤ reach m) }
    ensures { Entered m index.old index.new r (key_of m (nogood_at store.now r)) end }
{
    link(index, m, r, key_of(records::nogood_at(store, r), m));
    index[PROVED * m] = end as u32;
    search::enter(store, r, &mut index[PROVED * m + 1..]);
}

// All records are entered that the index can hold.
pub fn cover(store: &[i32], used: usize, index: &mut [u32])
    requires { (stored : List Stored) × Keeps store.now index.old used stored }
    ensures { (stored : List Stored) → Keeps store.now index.old used stored
        → Keeps store.now index.new used stored }
{
    let m = scale_of(index.len());
    // Each record says where the next begins: a walk along records, and no loop over an index.
    let mut r = covered(index);
    while r < used {
        let end = records::end_at(store, r);
        if WORDS * m < end {
            return;
        }
        enter(store, r, end, index, m);
        r = end;
    }
}

// The entry after the place x.
fn entry_after(index: &[u32], m: usize, x: usize) -> u32
    requires { Roomy m index.now × (x < reach m) }
    ensures { result ≡ before_of m index.now x }
{
    index[m + x].saturating_sub(1)
}

// The place that a chain's entry leads to, if it is not the chain's end.
fn place_of(entry: u32) -> Option<usize>
    ensures { entry_of result ≡ entry }
{
    if entry == 0 {
        return None;
    }
    Some(entry as usize - 1)
}

// The record at i is that of a live nogood that is the list of literals.
pub fn is_target(store: &[i32], i: usize, literals: &[i32]) -> bool
    requires { end_at store.now i ≤ length store.now }
    ensures { result ≡ is_target literals.now (stored_at store.now i) }
{
    !records::is_dead(store, i) && words::is_same_list(records::nogood_at(store, i), literals)
}

// The chain of the literals to its end: the last that is live and has them is the oldest.
pub fn walk(store: &[i32], used: usize, index: &[u32], literals: &[i32]) -> Option<Spot>
    requires { (stored : List Stored) × Keeps store.now index.now used stored }
    ensures { (stored : List Stored) (K : Keeps store.now index.now used stored)
        → Spotted K.scale K.covers.front literals.now index.now result }
{
    let m = scale_of(index.len());
    if m == 0 {
        return None;
    }
    let mut found = None;
    let mut over = None;
    let mut next = place_of(index[key_of(literals, m)]);
    while let Some(place) = next {
        if is_target(store, place, literals) {
            found = Some(Spot { place, over });
        }
        over = next;
        next = place_of(entry_after(index, m, place));
    }
    found
}

// The place x goes out of the chain of h: what led to it leads past it.
pub fn unlink(index: &mut [u32], m: usize, h: usize, x: usize, over: Option<usize>)
    requires { Roomy m index.old × (h < m) × (x < reach m) × (entry_of over ≤ reach m) }
    ensures { Unlinked m index.old index.new h x (entry_of over) }
{
    match over {
        None => {
            index[h] = entry_after(index, m, x);
        }
        Some(y) => {
            index[m + y] = index[m + x];
        }
    }
}

// Every cell before the search's becomes 0.
pub fn clear(index: &mut [u32])
    ensures { Blank (scale_of (length index.old)) index.new }
{
    let end = start_of(index.len());
    index[..end].fill(0);
}
