// Chains of watches, through the cells of the nodes. A chain ends with none.
ghost use Rattle.std.specs.Prelude.{◌≤◌, IfSome};
ghost use Rattle.words.specs.Limits.{entries};
ghost use Rattle.watches.specs.Small.{largest_cell, SmallTurn, SmallVisit};

use crate::cells::{CODES, HEAD, LARGEST_CELL, LINK, WATCHED, get, get_some, put, put_some};
use crate::literals::{list_of, push};
use crate::turns::{Clash, Turn, look};

// The watch w of the nogood at x is in the chain of c.
fn hang(cells: &mut [u32], x: usize, w: usize, c: usize)
    requires { (x ≤ largest_cell) × (w ≤ 1) × (c ≤ largest_cell) }
{
    let first = get(cells, HEAD + c);
    put(cells, LINK + 2 * (x + w), first);
    put_some(cells, HEAD + c, Some(2 * x + w));
}

// The same, and it is on a literal, told with where it stands.
pub fn link(cells: &mut [u32], x: usize, w: usize, c: usize, own: usize)
    requires { (x ≤ largest_cell) × (w ≤ 1) × (c ≤ largest_cell) }
{
    put(cells, WATCHED + 2 * (x + w), own);
    hang(cells, x, w, c);
}

// What led to a node leads to the next one: the node before it, or the chain's start.
fn skip(cells: &mut [u32], c: usize, last: Option<usize>, next: Option<usize>)
    requires { (c ≤ largest_cell) × IfSome last (λ node. node ≤ largest_cell) }
{
    match last {
        Some(node) => put_some(cells, LINK + 2 * (node / 2 + node % 2), next),
        None => put_some(cells, HEAD + c, next),
    }
}

// What becomes of the watch w of the nogood at x, which is in a chain.
fn look_in_chain(store: &[i32], cells: &[u32], x: usize, w: usize, mark: usize) -> Turn
    requires { (x ≤ largest_cell) × (w ≤ 1) }
    ensures { SmallTurn result }
{
    let own = get(cells, WATCHED + 2 * (x + w));
    let other = get(cells, WATCHED + 2 * (x + 1 - w)) % CODES;
    look(store, cells, x, own, other, mark, false)
}

// The nogoods in the chain of a literal that is true now.
pub fn visit_chain(
    store: &[i32],
    cells: &mut [u32],
    c: usize,
    start: usize,
    mark: usize,
) -> Result<usize, Clash>
    requires { (c ≤ largest_cell) × (start ≤ entries) }
    ensures { SmallVisit result }
{
    let mut n = start;
    let mut last = None;
    let mut node = get_some(cells, HEAD + c);
    for _ in 0..LARGEST_CELL {
        let Some(here) = node else {
            return Ok(n);
        };
        let x = here / 2;
        let w = here % 2;
        node = get_some(cells, LINK + 2 * (x + w));
        let turn = look_in_chain(store, cells, x, w, mark);
        match turn {
            Turn::Stays => {
                last = Some(here);
            }
            Turn::Moves(to, d) => {
                skip(cells, c, last, node);
                link(cells, x, w, to, d);
            }
            Turn::Goes => {
                skip(cells, c, last, node);
            }
            Turn::Gives(d) => {
                n = push(cells, n, d, Some(x));
                last = Some(here);
            }
            Turn::Violated => {
                return Err(Clash { place: x, count: n });
            }
        }
    }
    Ok(n)
}

// A nogood that stayed where it was: its watches are on the same literals, in chains.
pub fn hang_again(cells: &mut [u32], x: usize)
    requires { x ≤ largest_cell }
{
    let c = get(cells, WATCHED + 2 * x) % CODES;
    let d = get(cells, WATCHED + 2 * x + 2) % CODES;
    let first = list_of(cells, c, d);
    let second = list_of(cells, d, c);
    hang(cells, x, 0, first);
    hang(cells, x, 1, second);
}

// The watches that wait in the chain of a literal go back to their own.
pub fn release_chain(cells: &mut [u32], c: usize)
    requires { c ≤ largest_cell }
{
    let mut last = None;
    let mut node = get_some(cells, HEAD + c);
    for _ in 0..LARGEST_CELL {
        let Some(here) = node else {
            return;
        };
        let x = here / 2;
        let w = here % 2;
        node = get_some(cells, LINK + 2 * (x + w));
        let own = get(cells, WATCHED + 2 * (x + w)) % CODES;
        if own == c {
            last = Some(here);
        } else {
            skip(cells, c, last, node);
            hang(cells, x, w, own);
        }
    }
}
