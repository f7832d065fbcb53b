// What becomes of a watch on a literal that is true now.
ghost use Rattle.std.specs.Prelude.{ℕ, ◌≤◌, ◌<◌, IfSome};
ghost use Rattle.watches.specs.Small.{largest_cell, last_code, far_word, SmallTurn};

use crate::cells::CODES;
use crate::literals::{code_of, end_of, is_true, opposite, order_of};
use std::ops::Range;

// A nogood that is violated: its place, and how many literals are true.
#[derive(Clone, Copy)]
pub struct Clash {
    pub place: usize,
    pub count: usize,
}

// What becomes of a watch on a literal that is true: it stays, since the other literal is false; it moves to the list
// of a literal, and is on that or waits there on its own, which is told with where it stands; it goes, since the nogood
// is dead; it stays, and a literal follows; the nogood is violated.
#[derive(Drop)]
pub enum Turn {
    Stays,
    Moves(usize, usize),
    Goes,
    Gives(usize),
    Violated,
}

// Among the places, the first of a literal that is not true, other than one that may be given.
pub fn find_open(
    store: &[i32],
    cells: &[u32],
    mut places: Range<usize>,
    other: Option<usize>,
) -> Option<usize>
    ensures { IfSome result (λ j. j < places.end) }
{
    places.find(|j| {
        let c = code_of(words::word_at(store, *j));
        Some(c) != other && !is_true(cells, c)
    })
}

// The same from a place in the middle on and round to the front, so that what was passed over before is not read again.
fn find_open_around(
    store: &[i32],
    cells: &[u32],
    from: usize,
    middle: usize,
    end: usize,
    other: usize,
) -> Option<usize>
    ensures { IfSome result (λ j. j < end) }
{
    let later = find_open(store, cells, middle..end, Some(other));
    if later.is_some() {
        return later;
    }
    find_open(store, cells, from..middle.min(end), Some(other))
}

// Among the places, the first of a literal that is false, other than one given.
fn find_false(store: &[i32], cells: &[u32], mut places: Range<usize>, other: usize) -> Option<usize>
    ensures { IfSome result (λ j. j < places.end) }
{
    places.find(|j| {
        let c = code_of(words::word_at(store, *j));
        c != other && is_true(cells, opposite(c))
    })
}

// The place of a literal to watch in place of one in the middle that is true, if there is one. Of two literals both are
// watched. Where that is asked for, one that is false is taken before others: its list is not gone through as long as
// it is.
fn another(
    store: &[i32],
    cells: &[u32],
    from: usize,
    middle: usize,
    end: usize,
    other: usize,
    choosy: bool,
) -> Option<usize>
    requires { (from ≤ 4294967297) × (middle ≤ far_word) × (end ≤ far_word) }
    ensures { IfSome result (λ j. j < end) }
{
    if end == from + 2 {
        return None;
    }
    if choosy {
        let j = find_false(store, cells, from..end, other);
        if j.is_some() {
            return j;
        }
    }
    find_open_around(store, cells, from, middle, end, other)
}

// Where a literal at j stands in a nogood whose first is at a place.
fn position(from: usize, j: usize) -> usize
    ensures { result ≤ last_code }
{
    j.saturating_sub(from) % CODES
}

// What becomes of a watch of the nogood at x, on its own literal, told with where it stands, beside another watched
// one. The first `mark` of the literals that are true are the root.
pub fn look(
    store: &[i32],
    cells: &[u32],
    x: usize,
    own: usize,
    other: usize,
    mark: usize,
    choosy: bool,
) -> Turn
    requires { (x ≤ largest_cell) × (own ≤ far_word) × (other ≤ largest_cell) }
    ensures { SmallTurn result }
{
    if let Some(i) = order_of(cells, opposite(other)) {
        return if mark <= i {
            Turn::Stays
        } else {
            Turn::Moves(other, own)
        };
    }
    if !words::is_positive(words::word_at(store, x)) {
        return Turn::Goes;
    }
    let from = x + 2;
    let end = end_of(store, x);
    if let Some(j) = another(store, cells, from, from + own / CODES, end, other, choosy) {
        let d = code_of(words::word_at(store, j));
        return Turn::Moves(d, CODES * position(from, j) + d);
    }
    if is_true(cells, other) {
        return Turn::Violated;
    }
    Turn::Gives(opposite(other))
}
