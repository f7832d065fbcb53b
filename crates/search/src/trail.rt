// The literals that are true, in their order: propagation from them, and back again.
ghost use Rattle.std.specs.Prelude.{◌≤◌, IfSome};
ghost use Rattle.watches.specs.Small.{largest_cell};

use watches::cells::{COUNT, DONE, ORDER, TRAIL, get, put, put_some};
use watches::lists::visit;
use watches::literals::{code_of, count, is_true, opposite, push};

// To the end, or to a nogood that is violated, whose place this is. Watches wait with the first `mark` literals: 0 for
// the root itself, whose lists are not gone through again.
pub fn propagate(store: &[i32], cells: &mut [u32], mark: usize) -> Option<usize>
    ensures { IfSome result (λ x. x ≤ largest_cell) }
{
    let mut n = count(cells);
    let mut done = get(cells, DONE);
    // No `for`: the end moves as literals become true.
    while done < n {
        let c = get(cells, TRAIL + done);
        done += 1;
        match visit(store, cells, c, n, mark) {
            Ok(end) => {
                n = end;
            }
            Err(clash) => {
                put(cells, COUNT, clash.count);
                put(cells, DONE, done);
                return Some(clash.place);
            }
        }
    }
    put(cells, COUNT, n);
    put(cells, DONE, done);
    None
}

// Only the first literals are true.
pub fn undo(cells: &mut [u32], to: usize) {
    for i in to..count(cells) {
        let c = get(cells, TRAIL + i);
        put_some(cells, ORDER + c, None);
    }
    put(cells, COUNT, to);
    if to < get(cells, DONE) {
        put(cells, DONE, to);
    }
}

// The literals are true. The code of the complement of the first that was false before, if there is one.
pub fn assume(literals: &[i32], cells: &mut [u32]) -> Option<usize>
    ensures { IfSome result (λ c. c ≤ largest_cell) }
{
    let mut n = count(cells);
    for literal in literals {
        let c = code_of(*literal);
        let against = opposite(c);
        if is_true(cells, against) {
            put(cells, COUNT, n);
            return Some(against);
        }
        if !is_true(cells, c) {
            n = push(cells, n, c, None);
        }
    }
    put(cells, COUNT, n);
    None
}
