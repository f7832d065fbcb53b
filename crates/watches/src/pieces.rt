// The pieces of rows: where they stand, which are free, and one watch more or less in a row.
ghost use Rattle.std.specs.Prelude.{◌≤◌, IfSome};
ghost use Rattle.watches.specs.Small.{largest_cell, most_watches, far_word, far_piece, far_watch};

use crate::cells::{BOTH, CODES, FREE, HEAD, LACK, ORDER, ROWS, TAKEN, WIDTH, get, put, put_some};

// With so many cells there are rows. With fewer all of them are near to the processor, and chains cost less.
const MANY: usize = 200000;

// A row is told by its last piece and how many watches that holds: the piece times this, and that number.
pub const FILLS: usize = 64;

// No more pieces than these are taken.
const MOST_PIECES: usize = 67108862;

// Pieces are as wide as there can be so many of them; where that is too few, half as wide.
const ROOM: usize = 4096;

// There are rows.
pub fn has_rows(cells: &[u32]) -> bool {
    MANY <= cells.len()
}

// How many watches a piece holds.
pub fn width_of(cells: &[u32]) -> usize
    ensures { result ≤ most_watches }
{
    get(cells, WIDTH) % FILLS
}

// A product of small numbers.
fn product(a: usize, b: usize) -> usize
    requires { (a ≤ far_word) × (b ≤ 127) }
    ensures { result ≤ 1270000000000 }
{
    a * b
}

// The cell before a piece: in the piece stand the one before it in its row, and then each watch, as the complement of a
// literal of the nogood with where the watched one stands in it, and the node.
pub fn piece_at(cells: &[u32], piece: usize) -> usize
    requires { piece ≤ far_word }
    ensures { result ≤ far_piece }
{
    get(cells, ROWS) + product(piece, 2 * width_of(cells) + 1)
}

// A piece by its number, which is 0 where there is none.
pub fn piece_of(number: usize) -> Option<usize>
    requires { number ≤ largest_cell }
    ensures { IfSome result (λ piece. piece ≤ largest_cell) }
{
    (0 < number).then_some(number)
}

// Where the last watch of a row stands.
fn last_at(cells: &[u32], head: usize) -> usize
    requires { head ≤ 600000000000 }
    ensures { result ≤ far_watch }
{
    piece_at(cells, head / FILLS) + 2 * (head % FILLS)
}

// A piece that was not taken before, if there is one.
fn take_new(cells: &mut [u32]) -> Option<usize>
    ensures { IfSome result (λ piece. piece ≤ largest_cell) }
{
    let taken = get(cells, TAKEN);
    if taken < MOST_PIECES && piece_at(cells, taken + 2) < cells.len() {
        put(cells, TAKEN, taken + 1);
        return Some(taken + 1);
    }
    put(cells, LACK, 1);
    None
}

// A piece that is free, if there is one.
fn take(cells: &mut [u32]) -> Option<usize>
    ensures { IfSome result (λ piece. piece ≤ largest_cell) }
{
    let Some(free) = piece_of(get(cells, FREE)) else {
        return take_new(cells);
    };
    let next = get(cells, piece_at(cells, free) + 1);
    put(cells, FREE, next);
    Some(free)
}

// A row with room for one watch more, if there is one.
fn lengthen(cells: &mut [u32], head: usize) -> Option<usize>
    requires { head ≤ largest_cell }
    ensures { IfSome result (λ head. head ≤ 600000000000) }
{
    let n = head % FILLS;
    if 0 < n && n < width_of(cells) {
        return Some(head + 1);
    }
    let piece = take(cells)?;
    put(cells, piece_at(cells, piece) + 1, head / FILLS);
    Some(FILLS * piece + 1)
}

// A watch goes into the row of c.
pub fn add(cells: &mut [u32], c: usize, node: usize, beside: usize) {
    let Some(head) = lengthen(cells, get(cells, HEAD + c % CODES)) else {
        return;
    };
    let at = last_at(cells, head);
    put(cells, at, beside);
    put_some(cells, at + 1, Some(node));
    put(cells, HEAD + c % CODES, head);
}

// The row of c without its last watch.
fn shorten(cells: &mut [u32], c: usize, head: usize)
    requires { (c ≤ largest_cell) × (head ≤ largest_cell) }
{
    if 1 < head % FILLS {
        put(cells, HEAD + c, head - 1);
        return;
    }
    let piece = head / FILLS;
    let at = piece_at(cells, piece);
    let rest = match piece_of(get(cells, at + 1)) {
        Some(next) => FILLS * next + width_of(cells),
        None => 0,
    };
    put(cells, HEAD + c, rest);
    put(cells, at + 1, get(cells, FREE));
    put(cells, FREE, piece);
}

// The watch at a place goes out of the row of c, whose last one takes that place.
pub fn remove(cells: &mut [u32], c: usize, at: usize)
    requires { (c ≤ largest_cell) × (at ≤ far_watch) }
{
    let head = get(cells, HEAD + c);
    let last = last_at(cells, head);
    put(cells, at, get(cells, last));
    put(cells, at + 1, get(cells, last + 1));
    shorten(cells, c, head);
}

// How wide pieces are that stand in so many cells.
fn width_for(n: usize) -> usize
    ensures { result ≤ most_watches }
{
    if n < 31 * ROOM {
        return 7;
    }
    if n < 63 * ROOM {
        return 15;
    }
    if n < 127 * ROOM { 31 } else { 63 }
}

// Where the pieces of the rows stand, and how wide they are.
pub fn lay(cells: &mut [u32]) {
    let n = cells.len();
    if n < MANY {
        return;
    }
    if get(cells, WIDTH) == 0 {
        put(cells, ROWS, BOTH + (n - BOTH) / 4);
        put(cells, WIDTH, width_for((n - BOTH) / 4 * 3));
    }
}

// No list has a watch.
pub fn clear_lists(cells: &mut [u32]) {
    if let Some(heads) = cells.get_mut(HEAD..ORDER) {
        words::zero_all(heads);
    }
}

// The same, and no piece is taken.
pub fn clear_rows(cells: &mut [u32]) {
    put(cells, TAKEN, 0);
    put(cells, FREE, 0);
    put(cells, LACK, 0);
    clear_lists(cells);
}

// Pieces are half as wide.
pub fn narrow(cells: &mut [u32]) {
    let width = width_of(cells);
    if 1 < width {
        put(cells, WIDTH, (width - 1) / 2);
    }
}
