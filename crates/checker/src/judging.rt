// The verdict on a proof, once its program is read, and what services above the check ask of both.
ghost use Rattle.std.specs.Prelude.{◌≡◌, List, pos, ℕ, ◌≤◌, length, replicate};
ghost use Rattle.words.specs.Limits.{longest, widest, most_held};
ghost use Rattle.words.specs.Lists.{any};
ghost use Rattle.aspif.specs.Rules.{Rule, InputRule, is_empty, table_words};
ghost use Rattle.aspif.specs.Reading.{program};
ghost use Rattle.derivation.specs.States.{is_atom};
ghost use Rattle.nogoods.specs.Store.{Stored, live};
ghost use Rattle.nogoods.specs.Index.{BlankIndex};
ghost use Rattle.nogoods.specs.Keeps.{Holds};
ghost use Rattle.runs.specs.Course.{Course, course_within, ends_empty, is_accepted};
ghost use Rattle.checker.specs.Check.{is_inconsistent, saying, judged_reading};
ghost use Rattle.steps.specs.Held.{Program};
ghost use Rattle.runs.specs.Held.{Ran};
ghost use Rattle.checker.specs.declared.Verdict.TheVariants.{RefusedProof};

use crate::{Counts, Verdict};
use drupe::ProofFault;
use runs::{ProofRefusal, StepsTaken};

// Nothing of a proof that is refused stays, nor of its program.
fn refuse(table: &mut [i32], store: &mut [i32], refusal: ProofRefusal) -> Verdict
    ensures verdict { result ≡ RefusedProof refusal }
    ensures table { table.new ≡ replicate (length table.old) (pos 0) }
    ensures store { store.new ≡ replicate (length store.old) (pos 0) }
{
    words::zero_all(table);
    words::zero_all(store);
    Verdict::RefusedProof(refusal)
}

// The verdict once every step is good.
fn conclude(store: &[i32], used: usize, atoms: usize, rules: usize, steps: usize) -> Verdict
    requires { (stored : List Stored) × Holds store.now used stored }
    ensures { (stored : List Stored) → Holds store.now used stored
        → result ≡ saying (any is_empty (live stored))
        (record { atoms = atoms; rules = rules; steps = steps; nogoods = length (live stored) }) }
{
    let counts = Counts {
        atoms,
        rules,
        steps,
        nogoods: nogoods::store::count(store, used),
    };
    if nogoods::store::has_empty(store, used) {
        return Verdict::Inconsistent(counts);
    }
    Verdict::Open(counts)
}

// The lines that came to this end with the empty nogood live.
pub fn ends_empty(run: Result<StepsTaken, ProofRefusal>, store: &[i32]) -> bool
    requires { (c : Course) × Ran store.now c run }
    ensures { (limit N : ℕ) (P : List Rule) (size : ℕ) (text : List ℕ) → Ran store.now (course_within limit N P size text) run
        → result ≡ ends_empty (course_within limit N P size text) }
{
    match run {
        Err(_) => false,
        Ok(taken) => nogoods::store::has_empty(store, taken.used),
    }
}

// The proof text is accepted for the rules in the table. The store is 0 throughout, before and after.
pub fn is_accepted(
    text: &[u8],
    table: &[i32],
    rules: usize,
    atoms: usize,
    store: &mut [i32],
) -> bool
    requires program { ((ws : List InputRule) × Program table.now rules atoms ws) × (rules ≤ most_held) }
    requires empty { store.old ≡ replicate (length store.old) (pos 0) }
    ensures empty { store.new ≡ replicate (length store.old) (pos 0) }
    ensures accepted { (ws : List InputRule) → Program table.now rules atoms ws
        → result ≡ is_accepted (length store.old) ws text.now }
{
    if words::LONGEST < text.len() {
        return false;
    }
    let run = runs::run_proof(text, table, rules, atoms, store);
    let accepted = ends_empty(run, store);
    words::zero_all(store);
    accepted
}

// The verdict is "inconsistent".
pub fn is_inconsistent(verdict: Verdict) -> bool
    ensures { result ≡ is_inconsistent verdict }
{
    matches!(verdict, Verdict::Inconsistent(_))
}

// The number is an atom of a program with the atoms 1 to `atoms`.
pub fn is_atom(atoms: usize, v: usize) -> bool
    ensures { result ≡ is_atom atoms v }
{
    (1 <= v) & (v <= atoms)
}

// The proof against a program that was read into the table, where question 21 is put with so many bytes as the most. The store is 0
// throughout, and the index beside it is lent.
pub fn check_within(
    limit: usize,
    proof: &[u8],
    table: &mut [i32],
    atoms: usize,
    rules: usize,
    store: &mut [i32],
    index: &mut [u32],
) -> Verdict
    requires limit { limit ≤ widest }
    requires program { ((ws : List InputRule) × Program table.old rules atoms ws) × (rules ≤ most_held) }
    requires empty { store.old ≡ replicate (length store.old) (pos 0) }
    requires cells { BlankIndex index.old }
    ensures { (ws : List InputRule) → Program table.old rules atoms ws
        → table.old ≡ table_words (length table.old) ws
        → record { verdict = result; table = table.new; store = store.new }
        ≡ judged_reading limit (length table.old) (length store.old) proof.now (program ws) }
{
    if limit < proof.len() {
        return refuse(
            table,
            store,
            ProofRefusal {
                fault: ProofFault::TooLong,
                step: 0,
            },
        );
    }
    let run = runs::run_long(proof, table, rules, atoms, store, index);
    match run {
        Err(refusal) => refuse(table, store, refusal),
        Ok(taken) => conclude(store, taken.used, atoms, rules, taken.steps),
    }
}

// The same by document 01's limit, with nothing lent for the index.
pub fn check_proof(
    proof: &[u8],
    table: &mut [i32],
    atoms: usize,
    rules: usize,
    store: &mut [i32],
) -> Verdict
    requires program { ((ws : List InputRule) × Program table.old rules atoms ws) × (rules ≤ most_held) }
    requires empty { store.old ≡ replicate (length store.old) (pos 0) }
    ensures { (ws : List InputRule) → Program table.old rules atoms ws
        → table.old ≡ table_words (length table.old) ws
        → record { verdict = result; table = table.new; store = store.new }
        ≡ judged_reading longest (length table.old) (length store.old) proof.now (program ws) }
{
    let mut none = [0u32; 1];
    check_within(words::LONGEST, proof, table, atoms, rules, store, &mut none)
}
