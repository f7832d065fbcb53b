// A search for a conflict with two watched literals, of which nothing is promised but bounds and an end: what it leaves
// is a path, the places of the nogoods that it went by, and `replay` decides. What it keeps from step to step, and how,
// is said in crate `watches`.
#![tactic(auto)]

mod paths;
mod root;
mod trail;

ghost use Rattle.std.specs.Prelude.{◌≤◌, IfSome};
ghost use Rattle.words.specs.Limits.{entries};
ghost use Rattle.watches.specs.Small.{largest_cell};

use crate::paths::{contradict, gather_all, lead};
use crate::root::{
    clear_hint, cut_root, front, is_led, note_dead, note_led, ready, root, settle, unhint, withdraw,
};
use crate::trail::{assume, propagate, undo};
use watches::cells;
use watches::cells::{DEAD, KEPT, get, put, put_some};
use watches::lists::{clear, own_of, watch, watch_again};
use watches::literals::{code_at, count, end_of, opposite};
use watches::rows::fit;
use watches::turns::find_open;

// Where the path stands, and where it begins; as many places it has at most.
pub const PATH: usize = cells::PATH;

pub const FIRST: usize = cells::FIRST;

pub const MOST: usize = cells::MOST;

// Places from here on are not watched. Whoever lends the cells sees to it that there are two for each word of the store
// that is entered.
const FAR: usize = 1073741824;

// The literals are true, and what follows. The path to a nogood that is violated, or to a literal that is true and
// false; else all that was found.
fn pursue(store: &[i32], literals: &[i32], cells: &mut [u32], mark: usize) -> usize
    requires { mark ≤ entries }
{
    if let Some(against) = assume(literals, cells) {
        return contradict(store, cells, mark, against);
    }
    if let Some(x) = propagate(store, cells, mark) {
        return lead(store, cells, mark, x);
    }
    gather_all(cells, MOST, mark)
}

// A path: to a nogood that is violated without any assumption, if there is one.
fn find(
    store: &[i32],
    literals: &[i32],
    cells: &mut [u32],
    mark: usize,
    last: Option<usize>,
) -> usize
    requires { (mark ≤ entries) × IfSome last (λ x. x ≤ largest_cell) }
{
    match last {
        Some(x) => {
            note_led(cells, x);
            lead(store, cells, mark, x)
        }
        None => pursue(store, literals, cells, mark),
    }
}

// One search for a conflict that the literals lead to. It leaves a path; one that leads to a conflict without any
// assumption stays.
pub fn run(store: &[i32], literals: &[i32], cells: &mut [u32]) {
    ready(cells);
    fit(store, cells);
    if is_led(cells) {
        return;
    }
    let last = root(store, cells);
    let mark = count(cells);
    let first = find(store, literals, cells, mark, last);
    put(cells, FIRST, first);
    undo(cells, mark);
}

// Two literals of a new nogood that are not true are watched, as far as there are any.
fn enter_new(store: &[i32], x: usize, cells: &mut [u32])
    requires { x ≤ largest_cell }
{
    ready(cells);
    let from = x + 2;
    let end = end_of(store, x);
    let a = find_open(store, cells, from..end, None);
    let one = a.unwrap_or(from);
    let b = find_open(store, cells, one + 1..end, None);
    let two = b.unwrap_or(if one == from { from + 1 } else { from });
    let c = code_at(store, one, end);
    watch(cells, x, c, code_at(store, two, end));
    if b.is_none() {
        settle(cells, x, a.and(Some(c)));
    }
}

// A new nogood, or one that stayed where it was when the store was closed up.
pub fn enter(store: &[i32], x: usize, cells: &mut [u32]) {
    if FAR <= x {
        return;
    }
    fit(store, cells);
    if x < get(cells, KEPT) {
        watch_again(cells, x);
    } else {
        enter_new(store, x, cells);
    }
}

// Nothing of the root rests on the nogood at x, which is dead now. What it gave is the complement of a literal that it
// watches.
pub fn forget(x: usize, cells: &mut [u32]) {
    if FAR <= x {
        return;
    }
    note_dead(cells, x);
    unhint(cells, x);
    if count(cells) <= 1 {
        return;
    }
    for w in 0..2 {
        let own = own_of(cells, x, w);
        if withdraw(cells, x, opposite(own)) {
            return;
        }
    }
}

// The store is closed up, and all nogoods are to be entered again: no literal is watched. What rests on nogoods before
// the first dead one stays, since they do not move.
pub fn reset(cells: &mut [u32]) {
    let kept = front(cells);
    put(cells, KEPT, kept);
    put_some(cells, DEAD, None);
    cut_root(cells, kept);
    clear_hint(cells);
    clear(cells);
}
