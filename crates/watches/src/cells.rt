// The cells that all functions of the search are lent, read and written by total functions, and the regions in them.
// Cells of zeros are a right start.
ghost use Rattle.std.specs.Prelude.{◌≤◌, IfSome};
ghost use Rattle.watches.specs.Small.{largest_cell};

use words::ENTRIES;

// The largest number that a cell holds. A walk along links takes no more turns, whatever the cells hold.
pub const LARGEST_CELL: usize = 4294967295;

// As many numbers a cell can hold.
pub const CELLS: usize = 4294967296;

// As many codes there are. A code with where it stands in the nogood is that place times this, and the code.
pub const CODES: usize = 16384;

// As many literals as can be true, with the one of code 0.
pub const MOST: usize = ENTRIES;

// The regions: by code, where its list begins; by code, one more than where it stands among those that are true, or 0;
// the codes that are true, in their order; by that order, the places that gave them, and at the end the path, over
// places that are needed no more; how many of 128 in that order are needed.
pub const HEAD: usize = 0;

pub const ORDER: usize = HEAD + CODES;

pub const TRAIL: usize = ORDER + CODES;

pub const REASON: usize = TRAIL + MOST;

pub const PATH: usize = REASON;

pub const BLOCKS: usize = REASON + MOST;

// How many are true; how many of them were propagated; a nogood that the root violates, and whether the path leads to
// it; where the path begins; the first place of a nogood that died since the store was closed up; before which place
// the nogoods stayed where they were then.
pub const COUNT: usize = 49280;

pub const DONE: usize = 49281;

pub const HINT: usize = 49282;

pub const FIRST: usize = 49283;

pub const DEAD: usize = 49284;

pub const KEPT: usize = 49285;

// With chains: by place and watch, the next node, and after it the code that is watched and where it stands in the
// nogood. Two cells for each word of the store, as many as there are cells for.
pub const LINK: usize = 49286;

pub const WATCHED: usize = 49287;

// With rows: where their pieces begin; how many watches a piece holds; how many pieces were taken; the first of those
// that are free; whether one was lacking; where the nogood begins that was entered last, one more; by half of the
// place, the two codes that are watched, in a quarter of the cells that are left, and after them the pieces.
pub const ROWS: usize = 49286;

pub const WIDTH: usize = 49287;

pub const TAKEN: usize = 49288;

pub const FREE: usize = 49289;

pub const LACK: usize = 49290;

pub const LAST: usize = 49291;

pub const BOTH: usize = 49292;

// A number of 32 bits as a size, by `as`, since `From` has none of these.
pub fn wide(number: u32) -> usize
    ensures { result ≤ largest_cell }
{
    number as usize
}

// The cell at i; 0 past the end.
pub fn get(cells: &[u32], i: usize) -> usize
    ensures { result ≤ largest_cell }
{
    cells.get(i).map_or(0, |v| wide(*v))
}

// The cell at i becomes v, where both fit.
pub fn put(cells: &mut [u32], i: usize, v: usize) {
    if let (Some(cell), Ok(word)) = (cells.get_mut(i), u32::try_from(v)) {
        *cell = word;
    }
}

// What the cell at i has as one more, or 0 where it is none.
pub fn get_some(cells: &[u32], i: usize) -> Option<usize>
    ensures { IfSome result (λ v. v ≤ largest_cell) }
{
    get(cells, i).checked_sub(1)
}

// The cell at i becomes one more than v, or 0 where that is none.
pub fn put_some(cells: &mut [u32], i: usize, v: Option<usize>) {
    put(cells, i, v.map_or(0, |v| v.saturating_add(1)));
}
