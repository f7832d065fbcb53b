// The root: what is true without any assumption. It is kept from step to step, as long as what gave it is.
ghost use Rattle.std.specs.Prelude.{◌≤◌, IfSome};
ghost use Rattle.watches.specs.Small.{largest_cell};

use crate::trail::{propagate, undo};
use watches::cells::{COUNT, DEAD, DONE, FIRST, HINT, REASON, TRAIL, get, get_some, put, put_some};
use watches::lists::release;
use watches::literals::{count, is_true, opposite, order_of, push};
use watches::pieces::lay;

// What is added to the nogood that the root violates where the path leads to it.
pub const LED: usize = 2147483648;

// The literal of code 0 is true.
pub fn ready(cells: &mut [u32]) {
    lay(cells);
    if count(cells) == 0 {
        let n = push(cells, 0, 0, None);
        put(cells, COUNT, n);
    }
}

// The place of a nogood that the root violates, if one is known.
fn hint_of(cells: &[u32]) -> Option<usize>
    ensures { IfSome result (λ x. x ≤ largest_cell) }
{
    (get(cells, HINT) % LED).checked_sub(1)
}

// The path leads to the nogood at x, which the root violates.
pub fn note_led(cells: &mut [u32], x: usize)
    requires { x ≤ largest_cell }
{
    put(cells, HINT, LED + x + 1);
}

// The path leads to the nogood that the root violates, and no literal was written over it.
pub fn is_led(cells: &[u32]) -> bool {
    LED <= get(cells, HINT) && count(cells) <= get(cells, FIRST)
}

// The place of a nogood that is violated without any assumption, if there is one.
pub fn root(store: &[i32], cells: &mut [u32]) -> Option<usize>
    ensures { IfSome result (λ x. x ≤ largest_cell) }
{
    let hint = hint_of(cells);
    if hint.is_some() {
        return hint;
    }
    let last = propagate(store, cells, 0);
    put_some(cells, HINT, last);
    last
}

// A nogood with one literal that is not true, or none: what follows without any assumption.
pub fn settle(cells: &mut [u32], x: usize, untrue: Option<usize>)
    requires { (x ≤ largest_cell) × IfSome untrue (λ c. c ≤ largest_cell) }
{
    let Some(c) = untrue else {
        if get(cells, HINT) == 0 {
            put_some(cells, HINT, Some(x));
        }
        return;
    };
    if !is_true(cells, opposite(c)) {
        let n = push(cells, count(cells), opposite(c), Some(x));
        put(cells, COUNT, n);
    }
}

// Of the root only the first literals stay.
fn retract(cells: &mut [u32], to: usize) {
    for i in to..count(cells) {
        let c = get(cells, TRAIL + i);
        release(cells, opposite(c));
    }
    undo(cells, to);
}

// A literal of a nogood at x that is dead now: if its complement was true by it, that and what came later is not any
// more. Whether that is so.
pub fn withdraw(cells: &mut [u32], x: usize, c: usize) -> bool
    requires { (c ≤ largest_cell) × (x ≤ largest_cell) }
{
    let Some(i) = order_of(cells, c) else {
        return false;
    };
    if get_some(cells, REASON + i) != Some(x) {
        return false;
    }
    retract(cells, i);
    put(cells, DONE, 0);
    put(cells, HINT, 0);
    true
}

// The nogood at x, which is dead now, does not say that the root is violated.
pub fn unhint(cells: &mut [u32], x: usize)
    requires { x ≤ largest_cell }
{
    if hint_of(cells) == Some(x) {
        clear_hint(cells);
    }
}

// The nogood at x is dead now: the first such place is kept.
pub fn note_dead(cells: &mut [u32], x: usize)
    requires { x ≤ largest_cell }
{
    if get_some(cells, DEAD).is_none_or(|first| x < first) {
        put_some(cells, DEAD, Some(x));
    }
}

// The place before which no nogood died; 0 where none did at all.
pub fn front(cells: &[u32]) -> usize {
    get_some(cells, DEAD).unwrap_or(0)
}

// Of the root the first literals stay, up to the first that was given by a nogood at a place or after it.
pub fn cut_root(cells: &mut [u32], place: usize) {
    let n = count(cells);
    let cut = (0..n).find(|i| get_some(cells, REASON + *i).is_some_and(|x| place <= x));
    if let Some(i) = cut {
        undo(cells, i);
        put(cells, DONE, 0);
    }
}

// No nogood is known that the root violates.
pub fn clear_hint(cells: &mut [u32]) {
    if 0 < get(cells, HINT) {
        put(cells, HINT, 0);
        put(cells, DONE, 0);
    }
}
