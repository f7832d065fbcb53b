// Unit propagation over the store: document 01, the letter `a`. The one public function, `refutes`, answers what the
// derivation's `refuted` computes. What the private functions promise is specs/Propagate.antt.
#![tactic(auto)]

mod replay;
mod units;

ghost use Rattle.std.specs.Prelude.{◌≡◌, ◌↔◌, List, ◌≤◌, ℤ, length, replicate};
ghost use Rattle.words.specs.Lists.{◌∈◌};
ghost use Rattle.derivation.specs.Propagation.{refuted};
ghost use Rattle.nogoods.specs.Keeps.{Literals};
ghost use Rattle.nogoods.specs.Store.{Stored, live};
ghost use Rattle.words.specs.Limits.{entries};
ghost use Rattle.nogoods.specs.Records.{Encodes};
ghost use Rattle.nogoods.specs.Index.{scale_of, Marked, Keeps};
ghost use Rattle.propagation.specs.Propagate.{Assigns, BlankFrom, Sweeps, Settles, Ends};

use crate::units::Derived;
use nogoods::{chains, records};
use words::ENTRIES;

// What one pass over the nogoods gave: a conflict; variables that are assigned now; nothing.
#[derive(Clone, Copy, PartialEq, Eq)]
enum Swept {
    Refuted,
    Changed,
    Same,
}

// One pass over the nogoods, each with what those before it gave.
fn sweep(nogoods: &[i32], assignment: &mut [u8; ENTRIES]) -> Swept
    requires encoded { (stored : List Stored) × Encodes nogoods.now stored }
    requires size { length assignment.old ≡ entries }
    ensures { Sweeps nogoods.now assignment.old assignment.new result }
{
    let mut changed = false;
    // Each record says where the next begins: a walk along records, and no loop over an index.
    let mut i = 0;
    while i < nogoods.len() {
        let given = units::derive_at(nogoods, i, assignment);
        i = records::end_at(nogoods, i);
        match given {
            Derived::Conflicting => {
                return Swept::Refuted;
            }
            Derived::Assigned(_) => {
                changed = true;
            }
            Derived::Nothing => {}
        }
    }
    if changed {
        return Swept::Changed;
    }
    Swept::Same
}

// Of variables that are all free, just the literals become true. An end from which on all entries are free.
fn assign(literals: &[i32], assignment: &mut [u8; ENTRIES]) -> usize
    requires literals { Literals literals.now }
    requires free { assignment.old ≡ replicate entries 0 }
    ensures size { (length assignment.new ≡ entries) × ((result ≤ entries) × BlankFrom result assignment.new) }
    ensures literals { (z : ℤ) → (Assigns assignment.new z) ↔ (z ∈ literals.now) }
{
    let mut end = 0;
    for literal in literals {
        let v = units::make_true(*literal, assignment);
        end = units::past(end, v);
    }
    end
}

// Sweeps until nothing changes, at most so many.
fn settle(nogoods: &[i32], rounds: usize, assignment: &mut [u8; ENTRIES]) -> Swept
    requires encoded { (stored : List Stored) × Encodes nogoods.now stored }
    requires size { length assignment.old ≡ entries }
    ensures { Settles nogoods.now rounds assignment.old assignment.new result }
{
    for round in 0..rounds {
        let swept = sweep(nogoods, assignment);
        if swept != Swept::Changed {
            return swept;
        }
    }
    Swept::Changed
}

// Every entry becomes free, where those from an end on are.
fn release(assignment: &mut [u8], end: usize)
    requires { (end ≤ length assignment.old) × BlankFrom end assignment.old }
    ensures { assignment.new ≡ replicate (length assignment.old) 0 }
{
    words::zero_all(&mut assignment[..end]);
}

// What the replay leaves: sweeps until nothing changes. Each before the last one assigns a variable, so that one more than there are entries is enough.
fn exhaust(nogoods: &[i32], assignment: &mut [u8; ENTRIES]) -> bool
    requires encoded { (stored : List Stored) × Encodes nogoods.now stored }
    requires size { length assignment.old ≡ entries }
    ensures decided { Ends nogoods.now assignment.old result }
    ensures free { assignment.new ≡ replicate entries 0 }
{
    let swept = settle(nogoods, ENTRIES + 1, assignment);
    words::zero_all(assignment);
    swept == Swept::Refuted
}

// The replay, and sweeps where that comes to no conflict, from an assignment whose entries from an end on are free. All are free afterwards.
fn propagate(nogoods: &[i32], index: &[u32], end: usize, assignment: &mut [u8; ENTRIES]) -> bool
    requires encoded { (stored : List Stored) × Encodes nogoods.now stored }
    requires index { Marked (scale_of (length index.now)) nogoods.now index.now }
    requires size { length assignment.old ≡ entries }
    requires start { (end ≤ entries) × BlankFrom end assignment.old }
    ensures decided { Ends nogoods.now assignment.old result }
    ensures free { assignment.new ≡ replicate entries 0 }
{
    match replay::replay(nogoods, index, end, assignment) {
        Some(last) => {
            release(assignment, last);
            true
        }
        None => exhaust(nogoods, assignment),
    }
}

// The search, its path replayed, and sweeps where that comes to no conflict.
fn decide(
    store: &[i32],
    used: usize,
    index: &mut [u32],
    assignment: &mut [u8; ENTRIES],
    literals: &[i32],
) -> bool
    requires held { (stored : List Stored) × Keeps store.now index.old used stored }
    requires free { assignment.old ≡ replicate entries 0 }
    requires literals { Literals literals.now }
    ensures refuted { (stored : List Stored) → Keeps store.now index.old used stored
        → result ≡ refuted (live stored) literals.now }
    ensures held { (stored : List Stored) → Keeps store.now index.old used stored
        → Keeps store.now index.new used stored }
    ensures free { assignment.new ≡ replicate entries 0 }
{
    chains::cover(store, used, index);
    let at = chains::start_of(index.len());
    search::run(store, literals, &mut index[at..]);
    let end = assign(literals, assignment);
    propagate(&store[..used], index, end, assignment)
}

// Whether propagation from the literals over the nogoods in the store's first `used` words comes to a conflict. The lent assignment is one of all
// variables free, before and after.
pub fn refutes(
    store: &[i32],
    used: usize,
    index: &mut [u32],
    assignment: &mut [u8; ENTRIES],
    literals: &[i32],
) -> bool
    requires held { (stored : List Stored) × Keeps store.now index.old used stored }
    requires free { assignment.old ≡ replicate entries 0 }
    requires literals { Literals literals.now }
    ensures refuted { (stored : List Stored) → Keeps store.now index.old used stored
        → result ≡ refuted (live stored) literals.now }
    ensures held { (stored : List Stored) → Keeps store.now index.old used stored
        → Keeps store.now index.new used stored }
    ensures free { assignment.new ≡ replicate entries 0 }
{
    decide(store, used, index, assignment, literals)
}
