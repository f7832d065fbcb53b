// The seven steps, questions 26 to 34 and 56, by letter: document 01, 'The proof's seven letters'. What each comes to is
// derivation's `by_letter`; how table, arrays and store hold a program and a state is specs/Held.antt.
#![tactic(auto)]

mod additions;
mod naming;
pub mod outcomes;
pub mod states;
mod supports;
mod unfounded;

ghost use Rattle.std.specs.Prelude.{◌≡◌, ◌⊎◌, List, ℕ, ◌≤◌, length, replicate};
ghost use Rattle.words.specs.Limits.{widest, entries};
ghost use Rattle.words.specs.Literals.{ascending};
ghost use Rattle.text.specs.declared.Letter.TheVariants.{Body, Completion, Loop, Support};
ghost use Rattle.aspif.specs.Rules.{InputRule};
ghost use Rattle.aspif.specs.Tables.{rules_at};
ghost use Rattle.nogoods.specs.Store.{Stored};
ghost use Rattle.nogoods.specs.Index.{Keeps};
ghost use Rattle.names.specs.Queries.{HoldsRules};
ghost use Rattle.heads.specs.Heads.{Indexed};
ghost use Rattle.loops.specs.Relevance.{Relevant};
ghost use Rattle.steps.specs.Held.{PassedLine, Program, Tracked, Stepping};

use crate::additions::addition;
use drupe::ProofFault;
use text::Letter;
use words::ENTRIES;

// `b` and `c`: a body of the rules, and what it gives.
fn step_of_body(
    table: &[i32],
    rules: usize,
    lookup: &[u16],
    letter: Letter,
    line: &mut [i32],
    known: &mut [u8],
    names: &mut [u16],
    bodies: &mut [i16],
    store: &mut [i32],
    used: usize,
    index: &mut [u32],
    origin: usize,
) -> Result<usize, ProofFault>
    requires letter { (letter ≡ Body) ⊎ (letter ≡ Completion) }
    requires program { ((ws : List InputRule) × HoldsRules table.now rules ws) × (rules ≤ length names.old) }
    requires index { Indexed lookup.now table.now rules }
    requires store { ((stored : List Stored) × Keeps store.old index.old used stored) × ((1 ≤ origin) × (origin ≤ widest)) }
    requires line { PassedLine letter line.old }
    ensures { (N : ℕ) (ws : List InputRule) → HoldsRules table.now rules ws
        → Stepping N ws letter line.old used origin
        known.old names.old bodies.old store.old index.old
        known.new names.new bodies.new store.new index.new result }
{
    match letter {
        Letter::Body => naming::body(
            table, rules, lookup, known, names, bodies, store, used, index, origin, line,
        ),
        _ => supports::completion(
            table, rules, lookup, known, names, bodies, store, used, index, origin, line,
        ),
    }
}

// `l` and `s`: what the rules with an atom in the head say of it.
fn step_of_heads(
    table: &[i32],
    rules: usize,
    lookup: &[u16],
    relevant: &[u8],
    atoms: usize,
    letter: Letter,
    line: &mut [i32],
    known: &[u8],
    names: &[u16],
    bodies: &[i16],
    store: &mut [i32],
    used: usize,
    index: &mut [u32],
    origin: usize,
) -> Result<usize, ProofFault>
    requires letter { (letter ≡ Loop) ⊎ (letter ≡ Support) }
    requires state { Tracked table.now rules atoms known.now names.now bodies.now }
    requires index { Indexed lookup.now table.now rules }
    requires relevant { Relevant relevant.now (rules_at rules table.now) }
    requires store { ((stored : List Stored) × Keeps store.old index.old used stored) × ((1 ≤ origin) × (origin ≤ widest)) }
    requires line { PassedLine letter line.old }
    ensures { (ws : List InputRule) → Program table.now rules atoms ws
        → Stepping atoms ws letter line.old used origin
        known.now names.now bodies.now store.old index.old
        known.now names.now bodies.now store.new index.new result }
{
    match letter {
        Letter::Loop => unfounded::loops(
            table, rules, lookup, relevant, atoms, known, names, bodies, store, used, index,
            origin, line,
        ),
        _ => supports::support(
            table, rules, lookup, atoms, known, names, bodies, store, used, index, origin, line,
        ),
    }
}

// The step of a line that passed questions 22 to 25, which is lent as written and ascending. The origin is its number, which the
// nogoods that it adds carry. The lent assignment is one of all variables free, before and after.
pub fn step(
    table: &[i32],
    rules: usize,
    lookup: &[u16],
    relevant: &[u8],
    atoms: usize,
    letter: Letter,
    line: &mut [i32],
    sorted: &[i32],
    known: &mut [u8],
    names: &mut [u16],
    bodies: &mut [i16],
    store: &mut [i32],
    used: usize,
    index: &mut [u32],
    origin: usize,
    assignment: &mut [u8; ENTRIES],
) -> Result<usize, ProofFault>
    requires state { Tracked table.now rules atoms known.old names.old bodies.old }
    requires index { Indexed lookup.now table.now rules }
    requires relevant { Relevant relevant.now (rules_at rules table.now) }
    requires store { ((stored : List Stored) × Keeps store.old index.old used stored) × ((1 ≤ origin) × (origin ≤ widest)) }
    requires line { PassedLine letter line.old }
    requires sorted { sorted.now ≡ ascending line.old }
    requires free { assignment.old ≡ replicate entries 0 }
    ensures stepped { (ws : List InputRule) → Program table.now rules atoms ws
        → Stepping atoms ws letter line.old used origin
        known.old names.old bodies.old store.old index.old
        known.new names.new bodies.new store.new index.new result }
    ensures free { assignment.new ≡ replicate entries 0 }
{
    match letter {
        Letter::Addition => addition(known, store, used, index, origin, line, sorted, assignment),
        Letter::Deletion => additions::deletion(known, store, used, index, line, sorted),
        Letter::Extension => naming::extension(known, store, used, index, origin, line),
        Letter::Body | Letter::Completion => step_of_body(
            table, rules, lookup, letter, line, known, names, bodies, store, used, index, origin,
        ),
        Letter::Loop | Letter::Support => step_of_heads(
            table, rules, lookup, relevant, atoms, letter, line, known, names, bodies, store, used,
            index, origin,
        ),
    }
}
