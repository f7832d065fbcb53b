// The path: the places of the nogoods that a conflict rests on, in an order in which each gives something.
ghost use Rattle.std.specs.Prelude.{◌≤◌};
ghost use Rattle.words.specs.Limits.{entries};
ghost use Rattle.watches.specs.Small.{largest_cell};

use watches::cells::{BLOCKS, MOST, PATH, REASON, get, get_some, put};
use watches::literals::{code_of, count, end_of, order_of};

// What is added to the place that gave a literal where the path needs that.
const NEEDED: usize = 2147483648;

// As many literals in their order are counted together.
const BLOCK: usize = 128;

// So many literals that are true without any assumption are few.
const FEW: usize = 64;

// The path needs a literal, if it is true.
fn need(cells: &mut [u32], c: usize)
    requires { c ≤ largest_cell }
{
    let Some(i) = order_of(cells, c) else {
        return;
    };
    let reason = get(cells, REASON + i);
    if reason < NEEDED {
        let block = BLOCKS + i / BLOCK;
        put(cells, block, get(cells, block) + 1);
        put(cells, REASON + i, reason + NEEDED);
    }
}

// The path needs the literals of the nogood at x that are true.
fn need_all(store: &[i32], cells: &mut [u32], x: usize)
    requires { x ≤ largest_cell }
{
    for j in x + 2..end_of(store, x) {
        need(cells, code_of(words::word_at(store, j)));
    }
}

// A place goes to the front of the path, if that begins past a bound. Where it begins then.
fn prepend(cells: &mut [u32], first: usize, x: usize, bound: usize) -> usize
    requires { first ≤ entries }
    ensures { result ≤ entries }
{
    if first <= bound {
        return first;
    }
    put(cells, PATH + first - 1, x);
    first - 1
}

// One less is needed of a block.
fn met(cells: &mut [u32], block: usize)
    requires { block ≤ largest_cell }
{
    let left = get(cells, BLOCKS + block);
    put(cells, BLOCKS + block, left.saturating_sub(1));
}

// One of the literals in their order: if the path needs it, the nogood that gave it goes to the front, and its literals
// are needed. What gave the root stays, and so does what gave a literal in the order before i: no path is to be written
// over that.
fn follow(store: &[i32], cells: &mut [u32], i: usize, first: usize, mark: usize) -> usize
    requires { (i ≤ entries) × (first ≤ entries) }
    ensures { result ≤ entries }
{
    let reason = get(cells, REASON + i);
    if reason < NEEDED {
        return first;
    }
    put(cells, REASON + i, reason - NEEDED);
    met(cells, i / BLOCK);
    let Some(x) = (reason - NEEDED).checked_sub(1) else {
        return first;
    };
    need_all(store, cells, x);
    prepend(cells, first, x, i.max(mark))
}

// The nogoods that gave what is needed of a block, whose literals end before a place, latest first.
fn gather_block(
    store: &[i32],
    cells: &mut [u32],
    block: usize,
    end: usize,
    start: usize,
    mark: usize,
) -> usize
    requires { (block ≤ entries) × (end ≤ entries) × (start ≤ entries) }
    ensures { result ≤ entries }
{
    let mut first = start;
    for i in (BLOCK * block..end).rev() {
        if get(cells, BLOCKS + block) == 0 {
            return first;
        }
        first = follow(store, cells, i, first, mark);
    }
    first
}

// The nogoods that gave what is needed, latest first, go to the front of the path.
fn gather(store: &[i32], cells: &mut [u32], start: usize, mark: usize) -> usize
    requires { start ≤ entries }
    ensures { result ≤ entries }
{
    let n = count(cells);
    let mut first = start;
    for block in (0..n.div_ceil(BLOCK)).rev() {
        first = gather_block(
            store,
            cells,
            block,
            n.min(BLOCK * block + BLOCK),
            first,
            mark,
        );
    }
    first
}

// All nogoods that gave a literal go to the front of the path.
pub fn gather_all(cells: &mut [u32], start: usize, mark: usize) -> usize
    requires { start ≤ entries }
{
    let mut first = start;
    for i in (0..count(cells)).rev() {
        if let Some(x) = get_some(cells, REASON + i) {
            first = prepend(cells, first, x, i.max(mark));
        }
    }
    first
}

// So few literals of all are true without any assumption that it costs less to replay all than to tell which are
// needed; and all have room.
fn is_small(cells: &[u32], mark: usize) -> bool
    requires { mark ≤ entries }
{
    let n = count(cells);
    n + mark < MOST && (mark <= FEW || 4 * mark <= n)
}

// The path to the nogood at x, which is violated. Where it begins.
pub fn lead(store: &[i32], cells: &mut [u32], mark: usize, x: usize) -> usize
    requires { (mark ≤ entries) × (x ≤ largest_cell) }
{
    let first = prepend(cells, MOST, x, count(cells));
    if is_small(cells, mark) {
        return gather_all(cells, first, mark);
    }
    need_all(store, cells, x);
    gather(store, cells, first, mark)
}

// The path to a literal that is true and was to be false. Where it begins.
pub fn contradict(store: &[i32], cells: &mut [u32], mark: usize, c: usize) -> usize
    requires { (mark ≤ entries) × (c ≤ largest_cell) }
{
    if is_small(cells, mark) {
        return gather_all(cells, MOST, mark);
    }
    need(cells, c);
    gather(store, cells, MOST, mark)
}
