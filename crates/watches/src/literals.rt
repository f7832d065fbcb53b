// Literals as codes, which of them are true, and the nogoods in the store as the search reads them.
ghost use Rattle.std.specs.Prelude.{◌≤◌, ◌<◌, IfSome};
ghost use Rattle.words.specs.Limits.{entries};
ghost use Rattle.watches.specs.Small.{largest_cell, last_code};

use crate::cells::{
    CELLS, CODES, COUNT, LARGEST_CELL, MOST, ORDER, REASON, TRAIL, get, get_some, put, put_some,
    wide,
};

// The code that is never true.
const NEVER: usize = 8192;

// A literal's code.
pub fn code_of(word: i32) -> usize
    ensures { result ≤ last_code }
{
    wide(word.cast_unsigned()) % CODES
}

// The code of the complement; of 0, a code that is never true.
pub fn opposite(c: usize) -> usize
    requires { c ≤ largest_cell }
    ensures { result ≤ largest_cell }
{
    if c == 0 {
        return NEVER;
    }
    (CELLS - c) % CODES
}

// Where a literal stands among those that are true, if it is.
pub fn order_of(cells: &[u32], c: usize) -> Option<usize>
    requires { c ≤ largest_cell }
    ensures { IfSome result (λ i. i ≤ largest_cell) }
{
    get_some(cells, ORDER + c)
}

// The literal is true.
pub fn is_true(cells: &[u32], c: usize) -> bool
    requires { c ≤ largest_cell }
{
    order_of(cells, c).is_some()
}

// Where the literals of the nogood at x end, as far as that is a small number.
pub fn end_of(store: &[i32], x: usize) -> usize
    requires { x ≤ largest_cell }
    ensures { (x < result) × (result ≤ 8589934592) }
{
    let n = words::variable_of(words::word_at(store, x + 1));
    if n <= LARGEST_CELL { x + 2 + n } else { x + 2 }
}

// The code of the literal at j, 0 from the end on.
pub fn code_at(store: &[i32], j: usize, end: usize) -> usize
    ensures { result ≤ last_code }
{
    if j < end {
        code_of(words::word_at(store, j))
    } else {
        0
    }
}

// How many literals are true.
pub fn count(cells: &[u32]) -> usize
    ensures { result ≤ entries }
{
    get(cells, COUNT).min(MOST)
}

// A literal is true now, by the nogood at a place or by none. How many are.
pub fn push(cells: &mut [u32], n: usize, c: usize, reason: Option<usize>) -> usize
    requires { (n ≤ entries) × (c ≤ largest_cell) }
    ensures { result ≤ entries }
{
    if MOST <= n {
        return n;
    }
    put_some(cells, ORDER + c, Some(n));
    put(cells, TRAIL + n, c);
    put_some(cells, REASON + n, reason);
    n + 1
}

// The literal whose list a watch on c goes into: the other literal d where the root makes that one false.
pub fn list_of(cells: &[u32], c: usize, d: usize) -> usize
    requires { (c ≤ largest_cell) × (d ≤ largest_cell) }
    ensures { result ≤ largest_cell }
{
    if is_true(cells, opposite(d)) { d } else { c }
}
