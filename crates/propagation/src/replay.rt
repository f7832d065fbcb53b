// A derivation that is handed in as the places of the nogoods that it goes by, read one after another. What it derives follows, whatever the places are:
// those that are not marked are passed over, and nothing follows from the dead.
ghost use Rattle.std.specs.Prelude.{◌≡◌, true, List, ◌+◌, ◌≤◌, ◌<◌, length, get_or};
ghost use Rattle.words.specs.Limits.{entries};
ghost use Rattle.nogoods.specs.Store.{Stored};
ghost use Rattle.nogoods.specs.Records.{Encodes};
ghost use Rattle.nogoods.specs.Index.{scale_of, reach, Roomy, Marked};
ghost use Rattle.propagation.specs.Propagate.{BlankFrom, Replays};

use crate::units;
use crate::units::Derived;
use nogoods::chains;
use nogoods::chains::{PROVED, WORDS};
use search::{FIRST, MOST, PATH};
use words::ENTRIES;

// A record starts at x, by its mark.
fn is_start(index: &[u32], m: usize, x: usize) -> bool
    requires { Roomy m index.now }
    ensures { result ≡ true → (x < reach m) × (0 < get_or index.now (m + x) 0) }
{
    x < WORDS * m && 0 < index[m + x]
}

// The nogoods at the places of the path, one after another, from an assignment whose entries from an end on are free. If that comes to a conflict, an
// end from which on all entries are free.
pub fn replay(
    nogoods: &[i32],
    index: &[u32],
    start: usize,
    assignment: &mut [u8; ENTRIES],
) -> Option<usize>
    requires encoded { (stored : List Stored) × Encodes nogoods.now stored }
    requires index { Marked (scale_of (length index.now)) nogoods.now index.now }
    requires size { length assignment.old ≡ entries }
    requires start { (start ≤ entries) × BlankFrom start assignment.old }
    ensures { Replays nogoods.now assignment.old assignment.new result }
{
    let m = chains::scale_of(index.len());
    if m == 0 {
        return None;
    }
    let at = PROVED * m + 1;
    let mut end = start;
    for k in index[at + FIRST] as usize..MOST {
        let x = index[at + PATH + k] as usize;
        if is_start(index, m, x) {
            match units::derive_at(nogoods, x, assignment) {
                Derived::Conflicting => {
                    return Some(end);
                }
                Derived::Assigned(v) => {
                    end = units::past(end, v);
                }
                Derived::Nothing => {}
            }
        }
    }
    None
}
