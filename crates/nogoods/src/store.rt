// Nogoods in the store's words.
ghost use Rattle.std.specs.Prelude.{◌≡◌, false, not, cond, Some, ◌&&◌, List, [], ◌∷◌, ◌+◌, ◌≤◌, eqb, pos, neg_ℤ, length, get_or, set};
ghost use Rattle.words.specs.Limits.{largest, widest};
ghost use Rattle.words.specs.Lists.{any};
ghost use Rattle.aspif.specs.Rules.{is_empty};
ghost use Rattle.nogoods.specs.Keeps.{Literals, Holds, WrittenFront};
ghost use Rattle.nogoods.specs.Store.{Stored, record_of, added_in, closed, live, killed, kept_for, kept_with, stored_words, record_size};
ghost use Rattle.nogoods.specs.Records.{end_at, dead_at, count_at};
ghost use Rattle.nogoods.specs.Moves.{MovedDown, Keeping};
ghost use Rattle.nogoods.specs.Finds.{found_at, Skips};
ghost use Rattle.nogoods.specs.Index.{Keeps, Fits, Spotted};

use crate::chains::Spot;
use crate::records::{COUNT, HEADER};
use crate::{chains, records};

// The words of a nogood, with the number of its step, at the front of the free tail.
pub fn write(free: &mut [i32], origin: usize, literals: &[i32])
    requires origin { origin ≤ widest }
    requires room { (record_size literals.now ≤ length free.old) × (length literals.now ≤ largest) }
    ensures { WrittenFront (stored_words (record_of origin literals.now))
        free.old free.new }
{
    free[0] = origin as i32;
    free[COUNT] = literals.len() as i32;
    words::copy(&mut free[HEADER..], literals);
}

// n words from `from` on are moved down to `to`, where that is another place.
fn move_down(words: &mut [i32], to: usize, from: usize, n: usize)
    requires { (to ≤ from) × (from + n ≤ length words.old) }
    ensures { MovedDown to from n words.old words.new }
{
    if to != from {
        words.copy_within(from..from + n, to);
    }
}

// The record at `from` is moved down to `to`, unless it is dead. Where what is kept ends then.
fn keep(store: &mut [i32], to: usize, from: usize) -> usize
    requires { (to ≤ from) × (end_at store.old from ≤ length store.old) }
    ensures { Keeping to from store.old store.new result }
{
    if records::is_dead(store, from) {
        return to;
    }
    let n = HEADER + records::count_at(store, from);
    move_down(store, to, from, n);
    to + n
}

// The store is closed up: the live nogoods in their order, and 0 after them. How many words are used then.
pub fn close(store: &mut [i32], used: usize) -> usize
    requires { (stored : List Stored) × Holds store.old used stored }
    ensures { (stored : List Stored) → Holds store.old used stored
        → Holds store.new result (closed stored) }
{
    let mut to = 0;
    // Each record says where the next begins, here and in the loops below: a walk along records, and no loop over an index.
    let mut from = 0;
    while from < used {
        let end = records::end_at(store, from);
        to = keep(store, to, from);
        from = end;
    }
    words::zero_all(&mut store[to..used]);
    to
}

// Room for so many words after those that are used: the store is closed up if they do not fit otherwise. How many words are used
// then.
pub fn make_room(store: &mut [i32], used: usize, index: &mut [u32], size: usize) -> usize
    requires { (stored : List Stored) × Keeps store.old index.old used stored }
    ensures { (stored : List Stored) → Keeps store.old index.old used stored
        → Keeps store.new index.new result (kept_for (length store.old) size stored) }
{
    if size <= store.len() - used {
        return used;
    }
    chains::clear(index);
    let at = chains::start_of(index.len());
    search::reset(&mut index[at..]);
    close(store, used)
}

// One more live nogood, after the others, with the number of the step that adds it: how many words are used then, if the store is not
// too short.
pub fn append(
    store: &mut [i32],
    used: usize,
    index: &mut [u32],
    origin: usize,
    literals: &[i32],
) -> Option<usize>
    requires held { (stored : List Stored) × Keeps store.old index.old used stored }
    requires origin { (1 ≤ origin) × (origin ≤ widest) }
    requires literals { Literals literals.now × (length literals.now ≤ largest) }
    ensures { (stored : List Stored) → Keeps store.old index.old used stored
        → Fits (kept_with (length store.old) (added_in origin (literals.now ∷ [])) stored)
        store.new index.new result }
{
    let size = HEADER + literals.len();
    let end = make_room(store, used, index, size);
    if store.len() - end < size {
        return None;
    }
    write(&mut store[end..], origin, literals);
    Some(end + size)
}

// The oldest live nogood that is the list of literals, where none before a place is.
fn find(store: &[i32], used: usize, from: usize, literals: &[i32]) -> Option<usize>
    requires { (stored : List Stored) × Holds store.now used stored × Skips from literals.now stored }
    ensures { (stored : List Stored) → Holds store.now used stored → Skips from literals.now stored
        → result ≡ found_at 0 literals.now stored }
{
    let mut i = from;
    while i < used {
        if chains::is_target(store, i, literals) {
            return Some(i);
        }
        i = records::end_at(store, i);
    }
    None
}

// The nogood at r is dead: its first word is negated.
fn kill(store: &mut [i32], r: usize)
    requires { (end_at store.old r ≤ length store.old) × (dead_at store.old r ≡ false) }
    ensures { store.new ≡ set store.old r (neg_ℤ (get_or store.old r (pos 0))) }
{
    store[r] = 0 - store[r];
}

// The oldest live nogood that is the list of literals is dead, where none before a place is.
fn delete_far(store: &mut [i32], used: usize, from: usize, literals: &[i32])
    requires { (stored : List Stored) × Holds store.old used stored × Skips from literals.now stored }
    ensures { (stored : List Stored) → Holds store.old used stored → Skips from literals.now stored
        → Holds store.new used (killed literals.now stored) }
{
    if let Some(i) = find(store, used, from, literals) {
        kill(store, i);
    }
}

// The nogood at a spot is dead, and out of its chain.
fn delete_near(store: &mut [i32], used: usize, index: &mut [u32], literals: &[i32], spot: Spot)
    requires { (stored : List Stored) × (K : Keeps store.old index.old used stored)
        × Spotted K.scale K.covers.front literals.now index.old (Some spot) }
    ensures { (stored : List Stored) (K : Keeps store.old index.old used stored)
        → Spotted K.scale K.covers.front literals.now index.old (Some spot)
        → Keeps store.new index.new used (killed literals.now stored) }
{
    let m = chains::scale_of(index.len());
    chains::unlink(index, m, chains::key_of(literals, m), spot.place, spot.over);
    kill(store, spot.place);
    let at = chains::start_of(index.len());
    search::forget(spot.place, &mut index[at..]);
}

// The oldest live nogood that is the list of literals is dead.
fn discard(store: &mut [i32], used: usize, index: &mut [u32], literals: &[i32])
    requires { (stored : List Stored) × Keeps store.old index.old used stored }
    ensures { (stored : List Stored) → Keeps store.old index.old used stored
        → Keeps store.new index.new used (killed literals.now stored) }
{
    chains::cover(store, used, index);
    match chains::walk(store, used, index, literals) {
        Some(spot) => delete_near(store, used, index, literals, spot),
        None => {
            let from = chains::covered(index);
            delete_far(store, used, from, literals);
        }
    }
}

// The oldest live nogood that is the list of literals is dead: one word changes at most. As many words are used as before.
pub fn delete(store: &mut [i32], used: usize, index: &mut [u32], literals: &[i32]) -> usize
    requires { (stored : List Stored) × Keeps store.old index.old used stored }
    ensures { (stored : List Stored) → Keeps store.old index.old used stored
        → Keeps store.new index.new result (killed literals.now stored) }
{
    discard(store, used, index, literals);
    used
}

// One if the record at i is that of a live nogood, and 0 if it is dead.
fn live_at(store: &[i32], i: usize) -> usize
    requires { end_at store.now i ≤ length store.now }
    ensures { result ≡ cond (dead_at store.now i) 0 1 }
{
    usize::from(!records::is_dead(store, i))
}

// How many nogoods are live.
pub fn count(store: &[i32], used: usize) -> usize
    requires { (stored : List Stored) × Holds store.now used stored }
    ensures { (stored : List Stored) → Holds store.now used stored → result ≡ length (live stored) }
{
    let mut n = 0;
    let mut i = 0;
    while i < used {
        n += live_at(store, i);
        i = records::end_at(store, i);
    }
    n
}

// The record at i is that of the empty nogood, and live.
fn is_empty_at(store: &[i32], i: usize) -> bool
    requires { end_at store.now i ≤ length store.now }
    ensures { result ≡ (not (dead_at store.now i) && eqb (count_at store.now i) 0) }
{
    !records::is_dead(store, i) && records::count_at(store, i) == 0
}

// The empty nogood is live.
pub fn has_empty(store: &[i32], used: usize) -> bool
    requires { (stored : List Stored) × Holds store.now used stored }
    ensures { (stored : List Stored) → Holds store.now used stored → result ≡ any is_empty (live stored) }
{
    let mut i = 0;
    while i < used {
        if is_empty_at(store, i) {
            return true;
        }
        i = records::end_at(store, i);
    }
    false
}
