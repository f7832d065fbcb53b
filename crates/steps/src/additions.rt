// `a` and `d`: nogoods as a line gives them, which is lent as written and ascending. Document 01, questions 26, 33 and 34. The origin
// is the number of the step, here and in the functions of the other letters.
ghost use Rattle.std.specs.Prelude.{◌≡◌, List, ℕ, ◌≤◌, ℤ, replicate};
ghost use Rattle.words.specs.Limits.{widest, entries};
ghost use Rattle.words.specs.Literals.{ascending};
ghost use Rattle.aspif.specs.Rules.{InputRule};
ghost use Rattle.text.specs.declared.Letter.TheVariants.{Addition, Deletion};
ghost use Rattle.nogoods.specs.Store.{Stored};
ghost use Rattle.nogoods.specs.Index.{Keeps};
ghost use Rattle.steps.specs.Held.{PassedLine, Stepping};

use crate::outcomes;
use drupe::ProofFault;
use nogoods::store;
use words::ENTRIES;

// `a`: literals that unit propagation refutes, or any where the empty nogood is live. Adds them as a nogood. The lent assignment is one of all
// variables free, before and after.
pub fn addition(
    known: &[u8],
    store: &mut [i32],
    used: usize,
    index: &mut [u32],
    origin: usize,
    numbers: &[i32],
    sorted: &[i32],
    assignment: &mut [u8; ENTRIES],
) -> Result<usize, ProofFault>
    requires store { ((stored : List Stored) × Keeps store.old index.old used stored) × ((1 ≤ origin) × (origin ≤ widest)) }
    requires line { PassedLine Addition numbers.now }
    requires sorted { sorted.now ≡ ascending numbers.now }
    requires free { assignment.old ≡ replicate entries 0 }
    ensures stepped { (N : ℕ) (ws : List InputRule) (names : List ℕ) (bodies : List ℤ)
        → Stepping N ws Addition numbers.now used origin known.now names bodies store.old index.old
        known.now names bodies store.new index.new result }
    ensures free { assignment.new ≡ replicate entries 0 }
{
    if !marks::all_marked(numbers, known) {
        return Err(ProofFault::UnknownVariable);
    }
    if !propagation::refutes(store, used, index, assignment, numbers) {
        return Err(ProofFault::NoConflict);
    }
    outcomes::fitted(store::append(store, used, index, origin, sorted))
}

// `d`: literals. The oldest live nogood that has just them is dead; where there is none, nothing changes.
pub fn deletion(
    known: &[u8],
    store: &mut [i32],
    used: usize,
    index: &mut [u32],
    numbers: &[i32],
    sorted: &[i32],
) -> Result<usize, ProofFault>
    requires store { (stored : List Stored) × Keeps store.old index.old used stored }
    requires line { PassedLine Deletion numbers.now }
    requires sorted { sorted.now ≡ ascending numbers.now }
    ensures { (N origin : ℕ) (ws : List InputRule) (names : List ℕ) (bodies : List ℤ)
        → Stepping N ws Deletion numbers.now used origin known.now names bodies store.old index.old
        known.now names bodies store.new index.new result }
{
    if !marks::all_marked(numbers, known) {
        return Err(ProofFault::UnknownVariable);
    }
    Ok(store::delete(store, used, index, sorted))
}
