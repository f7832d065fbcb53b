// Rows of watches. Beside each node stands the complement of another literal of the nogood, and where that is true
// neither the nogood nor what is kept by its place is read.
ghost use Rattle.std.specs.Prelude.{◌≤◌};
ghost use Rattle.words.specs.Limits.{entries};
ghost use Rattle.watches.specs.Small.{largest_cell, last_code, most_watches, far_word, far_piece, far_watch, SmallVisit};

use crate::cells::{BOTH, CELLS, CODES, HEAD, LACK, LARGEST_CELL, LAST, get, get_some, put};
use crate::literals::{end_of, list_of, opposite, order_of, push};
use crate::pieces::{
    FILLS, add, clear_rows, has_rows, narrow, piece_at, piece_of, remove, width_of,
};
use crate::turns::{Clash, Turn, look};

// The literal on which the nogood at x has its watch w.
pub fn watched(cells: &[u32], x: usize, w: usize) -> usize
    requires { x ≤ largest_cell }
    ensures { result ≤ last_code }
{
    let both = get(cells, BOTH + x / 2);
    if w == 0 {
        both % CODES
    } else {
        both / CODES % CODES
    }
}

// The watch w of the nogood at x is on a literal, told with where it stands, and the other one on another.
pub fn set_watched(cells: &mut [u32], x: usize, w: usize, own: usize, other: usize)
    requires { (x ≤ largest_cell) × (other ≤ largest_cell) }
{
    if w == 0 {
        put(cells, BOTH + x / 2, other * CODES + own % CODES);
    } else {
        put(cells, BOTH + x / 2, own % CODES * CODES + other);
    }
}

// Another code with where a literal stands.
fn with_code(own: usize, c: usize) -> usize
    requires { c ≤ largest_cell }
    ensures { result ≤ far_word }
{
    own % CELLS / CODES * CODES + c
}

// A watch goes into the row of a literal, on its own one, which is told with where it stands, beside the other.
fn move_to(cells: &mut [u32], to: usize, node: usize, own: usize, other: usize)
    requires { (node ≤ largest_cell) × (other ≤ largest_cell) }
{
    add(cells, to, node, with_code(own, opposite(other)));
    set_watched(cells, node / 2, node % 2, own, other);
}

// The watch at a place in the row of c, beside which no literal is false by an assumption. In a long row one that is
// false is sought, since the row is shorter then.
fn treat(
    store: &[i32],
    cells: &mut [u32],
    c: usize,
    at: usize,
    n: usize,
    mark: usize,
    choosy: bool,
) -> Result<usize, Clash>
    requires { (c ≤ largest_cell) × (at ≤ far_watch) × (n ≤ entries) }
    ensures { SmallVisit result }
{
    let Some(node) = get_some(cells, at + 1) else {
        return Ok(n);
    };
    let x = node / 2;
    let w = node % 2;
    let other = watched(cells, x, 1 - w);
    let against = opposite(other);
    let beside = get(cells, at);
    let turn = look(store, cells, x, with_code(beside, c), other, mark, choosy);
    match turn {
        Turn::Stays => {
            put(cells, at, with_code(beside, against));
            Ok(n)
        }
        Turn::Moves(to, own) => {
            remove(cells, c, at);
            move_to(cells, to, node, own, other);
            Ok(n)
        }
        Turn::Goes => {
            remove(cells, c, at);
            Ok(n)
        }
        Turn::Gives(_) => {
            put(cells, at, with_code(beside, against));
            Ok(push(cells, n, against, Some(x)))
        }
        Turn::Violated => Err(Clash { place: x, count: n }),
    }
}

// One watch in the row of c: nothing is to be done where the literal beside it is false by an assumption.
fn pass(
    store: &[i32],
    cells: &mut [u32],
    c: usize,
    at: usize,
    n: usize,
    mark: usize,
    choosy: bool,
) -> Result<usize, Clash>
    requires { (c ≤ largest_cell) × (at ≤ far_watch) × (n ≤ entries) }
    ensures { SmallVisit result }
{
    let against = get(cells, at) % CODES;
    if order_of(cells, against).is_some_and(|i| mark <= i) {
        return Ok(n);
    }
    treat(store, cells, c, at, n, mark, choosy)
}

// The watches of a piece of the row of c, the last first.
fn visit_piece(
    store: &[i32],
    cells: &mut [u32],
    c: usize,
    at: usize,
    held: usize,
    start: usize,
    mark: usize,
    choosy: bool,
) -> Result<usize, Clash>
    requires { (c ≤ largest_cell) × (at ≤ far_piece) × (held ≤ most_watches) × (start ≤ entries) }
    ensures { SmallVisit result }
{
    let mut n = start;
    for i in (0..held).rev() {
        n = pass(store, cells, c, at + 2 * i + 2, n, mark, choosy)?;
    }
    Ok(n)
}

// The nogoods in the row of a literal that is true now.
pub fn visit_row(
    store: &[i32],
    cells: &mut [u32],
    c: usize,
    start: usize,
    mark: usize,
) -> Result<usize, Clash>
    requires { (c ≤ largest_cell) × (start ≤ entries) }
    ensures { SmallVisit result }
{
    let head = get(cells, HEAD + c);
    let width = width_of(cells);
    let mut n = start;
    let mut next = piece_of(head / FILLS);
    let mut held = head % FILLS;
    for _ in 0..LARGEST_CELL {
        let Some(piece) = next else {
            return Ok(n);
        };
        let at = piece_at(cells, piece);
        next = piece_of(get(cells, at + 1));
        n = visit_piece(store, cells, c, at, held, n, mark, next.is_some())?;
        held = width;
    }
    Ok(n)
}

// The same in rows. A nogood of fewer than two literals is watched by the literal of code 0 alone.
pub fn add_again(cells: &mut [u32], x: usize)
    requires { x ≤ largest_cell }
{
    let c = watched(cells, x, 0);
    let d = watched(cells, x, 1);
    let first = list_of(cells, c, d);
    let second = list_of(cells, d, c);
    add(cells, second, 2 * x + 1, opposite(c));
    if d != 0 {
        add(cells, first, 2 * x, opposite(d));
    }
}

// The nogood at x goes into the rows again, if it is live.
fn add_live(store: &[i32], cells: &mut [u32], x: usize)
    requires { x ≤ largest_cell }
{
    if words::is_positive(words::word_at(store, x)) {
        add_again(cells, x);
    }
}

// All nogoods that were entered go into the rows again, in pieces half as wide.
fn refit(store: &[i32], cells: &mut [u32]) {
    narrow(cells);
    clear_rows(cells);
    let end = get(cells, LAST);
    let mut x = 0;
    // No `for`: each record says where the next one begins.
    while x < end {
        let next = end_of(store, x);
        add_live(store, cells, x);
        x = next;
    }
}

// No piece is lacking, if pieces can be less wide.
pub fn fit(store: &[i32], cells: &mut [u32]) {
    if has_rows(cells) && get(cells, LACK) != 0 && 1 < width_of(cells) {
        refit(store, cells);
    }
}

// The watch at a place in the row of c goes back to its own row.
fn release_one(cells: &mut [u32], c: usize, at: usize)
    requires { (c ≤ largest_cell) × (at ≤ far_watch) }
{
    let Some(node) = get_some(cells, at + 1) else {
        return;
    };
    let own = watched(cells, node / 2, node % 2);
    if own == c {
        return;
    }
    let beside = get(cells, at);
    remove(cells, c, at);
    add(cells, own, node, beside);
}

// Those of a piece, the last first.
fn release_piece(cells: &mut [u32], c: usize, at: usize, held: usize)
    requires { (c ≤ largest_cell) × (at ≤ far_piece) × (held ≤ most_watches) }
{
    for i in (0..held).rev() {
        release_one(cells, c, at + 2 * i + 2);
    }
}

// The watches that wait in the row of a literal go back to their own.
pub fn release_row(cells: &mut [u32], c: usize)
    requires { c ≤ largest_cell }
{
    let head = get(cells, HEAD + c);
    let width = width_of(cells);
    let mut next = piece_of(head / FILLS);
    let mut held = head % FILLS;
    for _ in 0..LARGEST_CELL {
        let Some(piece) = next else {
            return;
        };
        let at = piece_at(cells, piece);
        next = piece_of(get(cells, at + 1));
        release_piece(cells, c, at, held);
        held = width;
    }
}
