// The list of the nodes that watch a literal, in a chain or in a row.
ghost use Rattle.std.specs.Prelude.{◌≤◌};
ghost use Rattle.words.specs.Limits.{entries};
ghost use Rattle.watches.specs.Small.{largest_cell, last_code, SmallVisit};

use crate::cells::{CODES, LAST, WATCHED, get, put};
use crate::chains::{hang_again, link, release_chain, visit_chain};
use crate::literals::opposite;
use crate::pieces::{add, clear_lists, clear_rows, has_rows};
use crate::rows::{add_again, release_row, set_watched, visit_row, watched};
use crate::turns::Clash;

// The nogoods that watch a literal that is true now.
pub fn visit(
    store: &[i32],
    cells: &mut [u32],
    c: usize,
    start: usize,
    mark: usize,
) -> Result<usize, Clash>
    requires { (c ≤ largest_cell) × (start ≤ entries) }
    ensures { SmallVisit result }
{
    if has_rows(cells) {
        visit_row(store, cells, c, start, mark)
    } else {
        visit_chain(store, cells, c, start, mark)
    }
}

// The watches of a new nogood at x are on the literals c and d, near its front.
pub fn watch(cells: &mut [u32], x: usize, c: usize, d: usize)
    requires { (x ≤ largest_cell) × (c ≤ largest_cell) × (d ≤ largest_cell) }
{
    if !has_rows(cells) {
        link(cells, x, 0, c, c);
        link(cells, x, 1, d, d);
        return;
    }
    put(cells, LAST, x + 1);
    set_watched(cells, x, 0, c, d);
    add(cells, d, 2 * x + 1, opposite(c));
    if d != 0 {
        add(cells, c, 2 * x, opposite(d));
    }
}

// A nogood that stayed where it was: its watches are on the same literals.
pub fn watch_again(cells: &mut [u32], x: usize)
    requires { x ≤ largest_cell }
{
    if !has_rows(cells) {
        hang_again(cells, x);
        return;
    }
    put(cells, LAST, x + 1);
    add_again(cells, x);
}

// The watches that wait in the list of a literal go back to their own.
pub fn release(cells: &mut [u32], c: usize)
    requires { c ≤ largest_cell }
{
    if has_rows(cells) {
        release_row(cells, c);
    } else {
        release_chain(cells, c);
    }
}

// The literal on which the nogood at x has its watch w, in a row or in a chain.
pub fn own_of(cells: &[u32], x: usize, w: usize) -> usize
    requires { (x ≤ largest_cell) × (w ≤ 1) }
    ensures { result ≤ last_code }
{
    if has_rows(cells) {
        watched(cells, x, w)
    } else {
        get(cells, WATCHED + 2 * (x + w)) % CODES
    }
}

// No list has a watch, and no nogood was entered.
pub fn clear(cells: &mut [u32]) {
    if has_rows(cells) {
        put(cells, LAST, 0);
        clear_rows(cells);
        return;
    }
    clear_lists(cells);
}
