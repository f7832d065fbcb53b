// The proof's lines, one after another: questions 22 to 34 and 56. What a whole proof text comes to is specs/Course.antt, and what its
// lines leave specs/Held.antt. No service: `checker` and `splits` run proof texts by `run_proof` and `run_half`.
#![tactic(auto)]

ghost use Rattle.std.specs.Prelude.{◌≡◌, true, List, ℕ, ◌+◌, ◌≤◌, pos, length, replicate};
ghost use Rattle.words.specs.Limits.{widest, entries, most_numbers, most_held};
ghost use Rattle.text.specs.Classes.{byte_classes};
ghost use Rattle.aspif.specs.Rules.{InputRule, all_plain, expand};
ghost use Rattle.aspif.specs.Tables.{rules_at};
ghost use Rattle.drupe.specs.Lines.{line_at};
ghost use Rattle.derivation.specs.States.{State};
ghost use Rattle.nogoods.specs.Store.{Stored};
ghost use Rattle.nogoods.specs.Index.{Keeps, BlankIndex};
ghost use Rattle.marks.specs.Marks.{Marks, up_to};
ghost use Rattle.heads.specs.Heads.{name_words, Indexed};
ghost use Rattle.loops.specs.Relevance.{Relevant};
ghost use Rattle.runs.specs.Course.{course_within};
ghost use Rattle.steps.specs.Held.{Program, Tracks, Tracked, NoBodies, HoldsState};
ghost use Rattle.runs.specs.Held.{LineLeaves, Ran, Ended};

use aspif::tables;
use drupe::{ProofFault, reader};
use heads::{INDEX_WORDS, NAME_WORDS};
use loops::relevance;
use names::by_name;
use nogoods::{LENT_CELLS, chains};
use steps::states::CheckingState;
use weights::MOST_WEIGHTED;
use words::{ENTRIES, MOST_HELD};

// An entry for each pair of the weight bodies of all rules.
const RELEVANT: usize = MOST_WEIGHTED * MOST_HELD;

// A proof text of so many bytes is short: an index of so many cells, which reach 2,048 words, does for most, and is zero in half the time.
const SHORT_TEXT: usize = 2048;

const SHORT_CELLS: usize = 55687;

// The question that a proof fails, and the step, counted from 1; 0 where the whole text is at fault.
#[derive(Clone, Copy)]
pub struct ProofRefusal {
    pub fault: ProofFault,
    pub step: usize,
}

// A step that is accepted: the position after its line, and the words of the store that are used then.
#[derive(Clone, Copy)]
pub struct StepTaken {
    pub next: usize,
    pub used: usize,
}

// What the lines come to where none is refused: the steps that there were and the words used after the last.
#[derive(Clone, Copy)]
pub struct StepsTaken {
    pub steps: usize,
    pub used: usize,
}

// The line at the position, read into the two rows, and its step; nothing at the end of the text. The origin is the step's number, which is at most that of the bytes
// read. The lent assignment is one of all variables free, before and after.
fn turn_at(
    proof: &[u8],
    at: usize,
    classes: &[u8; 256],
    numbers: &mut [i32],
    sorted: &mut [i32],
    table: &[i32],
    rules: usize,
    lookup: &[u16],
    relevant: &[u8],
    atoms: usize,
    known: &mut [u8],
    names: &mut [u16],
    bodies: &mut [i16],
    store: &mut [i32],
    used: usize,
    index: &mut [u32],
    origin: usize,
    assignment: &mut [u8; ENTRIES],
) -> Result<Option<StepTaken>, ProofFault>
    requires state { Tracked table.now rules atoms known.old names.old bodies.old }
    requires index { Indexed lookup.now table.now rules }
    requires relevant { Relevant relevant.now (rules_at rules table.now) }
    requires store { ((stored : List Stored) × Keeps store.old index.old used stored) × ((1 ≤ origin) × (origin ≤ at + 1)) }
    requires short { length proof.now ≤ widest }
    requires classes { classes.now ≡ byte_classes }
    requires rows { (length numbers.old ≡ most_numbers) × (length sorted.old ≡ most_numbers) }
    requires free { assignment.old ≡ replicate entries 0 }
    ensures left { (ws : List InputRule) → Program table.now rules atoms ws
        → (z : State) (stored : List Stored)
        → Tracks atoms ws known.old names.old bodies.old z.introduced z.named
        → HoldsState store.old index.old used z stored
        → LineLeaves atoms ws known.new names.new bodies.new store.new index.new
        used origin (length store.old) z stored (line_at proof.now at) result }
    ensures free { assignment.new ≡ replicate entries 0 }
{
    let read = reader::step_at(proof, at, classes, numbers, sorted)?;
    let Some(line) = read else {
        return Ok(None);
    };
    let used = steps::step(
        table,
        rules,
        lookup,
        relevant,
        atoms,
        line.letter,
        &mut numbers[..line.count],
        &sorted[..line.count],
        known,
        names,
        bodies,
        store,
        used,
        index,
        origin,
        assignment,
    )?;
    Ok(Some(StepTaken {
        next: line.next,
        used,
    }))
}

// All lines of a proof text: "At the start there are no nogoods and no names, and the atoms alone are known." The first refusal ends them.
// The index beside the store is lent, of any length, which decides time alone; its cells before the search's are 0.
fn run_lines(
    proof: &[u8],
    table: &[i32],
    rules: usize,
    lookup: &[u16],
    relevant: &[u8],
    atoms: usize,
    known: &mut [u8],
    names: &mut [u16],
    bodies: &mut [i16],
    store: &mut [i32],
    index: &mut [u32],
) -> Result<StepsTaken, ProofRefusal>
    requires program { ((ws : List InputRule) × Program table.now rules atoms ws) × (rules ≤ most_held) }
    requires index { Indexed lookup.now table.now rules }
    requires relevant { Relevant relevant.now (rules_at rules table.now) }
    requires start { Marks known.old (up_to atoms) × (names.old ≡ replicate name_words 0) }
    requires bodies { NoBodies (rules_at rules table.now) bodies.old }
    requires short { length proof.now ≤ widest }
    requires empty { store.old ≡ replicate (length store.old) (pos 0) }
    requires cells { BlankIndex index.old }
    ensures { (limit : ℕ) → length proof.now ≤ limit → (ws : List InputRule) → Program table.now rules atoms ws
        → (let c = course_within limit atoms (expand ws) (length store.old) proof.now in
        Ran store.new c result × Ended atoms ws known.new names.new bodies.new c) }
{
    let classes = text::classes::CLASSES;
    let mut numbers = [0; CheckingState::NUMBERS];
    let mut sorted = [0; CheckingState::NUMBERS];
    let mut assignment = [0u8; CheckingState::LARGEST + 1];
    let mut state = CheckingState::start();
    'lines: loop {
        let step = state.steps + 1;
        let turn = match turn_at(
            proof,
            state.at,
            &classes,
            &mut numbers,
            &mut sorted,
            table,
            rules,
            lookup,
            relevant,
            atoms,
            known,
            names,
            bodies,
            store,
            state.used,
            index,
            step,
            &mut assignment,
        ) {
            Err(fault) => return Err(ProofRefusal { fault, step }),
            Ok(turn) => turn,
        };
        let Some(taken) = turn else {
            return Ok(StepsTaken {
                steps: state.steps,
                used: state.used,
            });
        };
        state.at = taken.next;
        state.used = taken.used;
        state.steps = step;
    }
}

// The same with an index in a frame of its own, which is as long as the store asks for.
fn run_framed(
    proof: &[u8],
    table: &[i32],
    rules: usize,
    lookup: &[u16],
    relevant: &[u8],
    atoms: usize,
    known: &mut [u8],
    names: &mut [u16],
    bodies: &mut [i16],
    store: &mut [i32],
) -> Result<StepsTaken, ProofRefusal>
    requires program { ((ws : List InputRule) × Program table.now rules atoms ws) × (rules ≤ most_held) }
    requires index { Indexed lookup.now table.now rules }
    requires relevant { Relevant relevant.now (rules_at rules table.now) }
    requires start { Marks known.old (up_to atoms) × (names.old ≡ replicate name_words 0) }
    requires bodies { NoBodies (rules_at rules table.now) bodies.old }
    requires short { length proof.now ≤ widest }
    requires empty { store.old ≡ replicate (length store.old) (pos 0) }
    ensures { (limit : ℕ) → length proof.now ≤ limit → (ws : List InputRule) → Program table.now rules atoms ws
        → (let c = course_within limit atoms (expand ws) (length store.old) proof.now in
        Ran store.new c result × Ended atoms ws known.new names.new bodies.new c) }
{
    let mut index = [0u32; LENT_CELLS];
    let cells = chains::cells_for(store.len());
    run_lines(
        proof,
        table,
        rules,
        lookup,
        relevant,
        atoms,
        known,
        names,
        bodies,
        store,
        &mut index[..cells],
    )
}

// The same with a shorter index.
fn run_short(
    proof: &[u8],
    table: &[i32],
    rules: usize,
    lookup: &[u16],
    relevant: &[u8],
    atoms: usize,
    known: &mut [u8],
    names: &mut [u16],
    bodies: &mut [i16],
    store: &mut [i32],
) -> Result<StepsTaken, ProofRefusal>
    requires program { ((ws : List InputRule) × Program table.now rules atoms ws) × (rules ≤ most_held) }
    requires index { Indexed lookup.now table.now rules }
    requires relevant { Relevant relevant.now (rules_at rules table.now) }
    requires start { Marks known.old (up_to atoms) × (names.old ≡ replicate name_words 0) }
    requires bodies { NoBodies (rules_at rules table.now) bodies.old }
    requires short { length proof.now ≤ widest }
    requires empty { store.old ≡ replicate (length store.old) (pos 0) }
    ensures { (limit : ℕ) → length proof.now ≤ limit → (ws : List InputRule) → Program table.now rules atoms ws
        → (let c = course_within limit atoms (expand ws) (length store.old) proof.now in
        Ran store.new c result × Ended atoms ws known.new names.new bodies.new c) }
{
    let mut index = [0u32; SHORT_CELLS];
    run_lines(
        proof, table, rules, lookup, relevant, atoms, known, names, bodies, store, &mut index,
    )
}

// The same with the index that is lent, or one in a frame of its own where that is shorter.
fn run_indexed(
    proof: &[u8],
    table: &[i32],
    rules: usize,
    lookup: &[u16],
    relevant: &[u8],
    atoms: usize,
    known: &mut [u8],
    names: &mut [u16],
    bodies: &mut [i16],
    store: &mut [i32],
    index: &mut [u32],
) -> Result<StepsTaken, ProofRefusal>
    requires program { ((ws : List InputRule) × Program table.now rules atoms ws) × (rules ≤ most_held) }
    requires index { Indexed lookup.now table.now rules }
    requires relevant { Relevant relevant.now (rules_at rules table.now) }
    requires start { Marks known.old (up_to atoms) × (names.old ≡ replicate name_words 0) }
    requires bodies { NoBodies (rules_at rules table.now) bodies.old }
    requires short { length proof.now ≤ widest }
    requires empty { store.old ≡ replicate (length store.old) (pos 0) }
    requires cells { BlankIndex index.old }
    ensures { (limit : ℕ) → length proof.now ≤ limit → (ws : List InputRule) → Program table.now rules atoms ws
        → (let c = course_within limit atoms (expand ws) (length store.old) proof.now in
        Ran store.new c result × Ended atoms ws known.new names.new bodies.new c) }
{
    if LENT_CELLS <= index.len() {
        return run_lines(
            proof, table, rules, lookup, relevant, atoms, known, names, bodies, store, index,
        );
    }
    if proof.len() <= SHORT_TEXT {
        return run_short(
            proof, table, rules, lookup, relevant, atoms, known, names, bodies, store,
        );
    }
    run_framed(
        proof, table, rules, lookup, relevant, atoms, known, names, bodies, store,
    )
}

// The lines of a proof against a program with weight bodies: which of their literals are relevant stands in a frame of its own.
fn run_weighted(
    proof: &[u8],
    table: &[i32],
    rules: usize,
    atoms: usize,
    known: &mut [u8],
    names: &mut [u16],
    bodies: &mut [i16],
    store: &mut [i32],
    index: &mut [u32],
) -> Result<StepsTaken, ProofRefusal>
    requires program { ((ws : List InputRule) × Program table.now rules atoms ws) × (rules ≤ most_held) }
    requires start { Marks known.old (up_to atoms) × (names.old ≡ replicate name_words 0) }
    requires bodies { NoBodies (rules_at rules table.now) bodies.old }
    requires short { length proof.now ≤ widest }
    requires empty { store.old ≡ replicate (length store.old) (pos 0) }
    requires cells { BlankIndex index.old }
    ensures { (limit : ℕ) → length proof.now ≤ limit → (ws : List InputRule) → Program table.now rules atoms ws
        → (let c = course_within limit atoms (expand ws) (length store.old) proof.now in
        Ran store.new c result × Ended atoms ws known.new names.new bodies.new c) }
{
    let mut relevant = [0u8; RELEVANT];
    relevance::fill(table, rules, &mut relevant);
    // no index of the rules: its first word is not 1
    run_indexed(
        proof,
        table,
        rules,
        &[0],
        &relevant,
        atoms,
        known,
        names,
        bodies,
        store,
        index,
    )
}

// The lines of a proof against a program without weight bodies. The rules get an index, which stands in a frame of its own.
fn run_plain(
    proof: &[u8],
    table: &[i32],
    rules: usize,
    atoms: usize,
    known: &mut [u8],
    names: &mut [u16],
    bodies: &mut [i16],
    store: &mut [i32],
    index: &mut [u32],
) -> Result<StepsTaken, ProofRefusal>
    requires program { ((ws : List InputRule) × Program table.now rules atoms ws) × (rules ≤ most_held) }
    requires start { Marks known.old (up_to atoms) × (names.old ≡ replicate name_words 0) }
    requires plain { all_plain (rules_at rules table.now) ≡ true }
    requires short { length proof.now ≤ widest }
    requires empty { store.old ≡ replicate (length store.old) (pos 0) }
    requires cells { BlankIndex index.old }
    ensures { (limit : ℕ) → length proof.now ≤ limit → (ws : List InputRule) → Program table.now rules atoms ws
        → (let c = course_within limit atoms (expand ws) (length store.old) proof.now in
        Ran store.new c result × Ended atoms ws known.new names.new bodies.new c) }
{
    let mut lookup = [0u16; INDEX_WORDS];
    heads::fill(table, rules, &mut lookup);
    run_indexed(
        proof,
        table,
        rules,
        &lookup,
        &[0],
        atoms,
        known,
        names,
        bodies,
        store,
        index,
    )
}

// All lines of a proof text, from an empty store, with the arrays of the check and the index beside the store lent. Where no rule has a weight
// body nothing is kept in the bodies by name, and any number of words will do.
fn run_lent(
    proof: &[u8],
    table: &[i32],
    rules: usize,
    atoms: usize,
    known: &mut [u8],
    names: &mut [u16],
    bodies: &mut [i16],
    store: &mut [i32],
    index: &mut [u32],
) -> Result<StepsTaken, ProofRefusal>
    requires program { ((ws : List InputRule) × Program table.now rules atoms ws) × (rules ≤ most_held) }
    requires start { Marks known.old (up_to atoms) × (names.old ≡ replicate name_words 0) }
    requires bodies { NoBodies (rules_at rules table.now) bodies.old }
    requires short { length proof.now ≤ widest }
    requires empty { store.old ≡ replicate (length store.old) (pos 0) }
    requires cells { BlankIndex index.old }
    ensures { (limit : ℕ) → length proof.now ≤ limit → (ws : List InputRule) → Program table.now rules atoms ws
        → (let c = course_within limit atoms (expand ws) (length store.old) proof.now in
        Ran store.new c result × Ended atoms ws known.new names.new bodies.new c) }
{
    if tables::all_plain(table, rules) {
        return run_plain(
            proof, table, rules, atoms, known, names, bodies, store, index,
        );
    }
    run_weighted(
        proof, table, rules, atoms, known, names, bodies, store, index,
    )
}

// The same with nothing lent for the index.
pub fn run_half(
    proof: &[u8],
    table: &[i32],
    rules: usize,
    atoms: usize,
    known: &mut [u8],
    names: &mut [u16],
    bodies: &mut [i16],
    store: &mut [i32],
) -> Result<StepsTaken, ProofRefusal>
    requires program { ((ws : List InputRule) × Program table.now rules atoms ws) × (rules ≤ most_held) }
    requires start { Marks known.old (up_to atoms) × (names.old ≡ replicate name_words 0) }
    requires bodies { NoBodies (rules_at rules table.now) bodies.old }
    requires short { length proof.now ≤ widest }
    requires empty { store.old ≡ replicate (length store.old) (pos 0) }
    ensures { (limit : ℕ) → length proof.now ≤ limit → (ws : List InputRule) → Program table.now rules atoms ws
        → (let c = course_within limit atoms (expand ws) (length store.old) proof.now in
        Ran store.new c result × Ended atoms ws known.new names.new bodies.new c) }
{
    let mut none = [0u32; 1];
    run_lent(
        proof, table, rules, atoms, known, names, bodies, store, &mut none,
    )
}

// The lines with the records of the bodies by name, which are large and stand in a frame of their own.
fn run_recorded(
    proof: &[u8],
    table: &[i32],
    rules: usize,
    atoms: usize,
    known: &mut [u8],
    names: &mut [u16],
    store: &mut [i32],
    index: &mut [u32],
) -> Result<StepsTaken, ProofRefusal>
    requires program { ((ws : List InputRule) × Program table.now rules atoms ws) × (rules ≤ most_held) }
    requires start { Marks known.old (up_to atoms) × (names.old ≡ replicate name_words 0) }
    requires short { length proof.now ≤ widest }
    requires empty { store.old ≡ replicate (length store.old) (pos 0) }
    requires cells { BlankIndex index.old }
    ensures { (limit : ℕ) → length proof.now ≤ limit → (ws : List InputRule) → Program table.now rules atoms ws
        → Ran store.new (course_within limit atoms (expand ws) (length store.old) proof.now) result }
{
    let mut bodies = [0i16; by_name::BODY_WORDS];
    run_weighted(
        proof,
        table,
        rules,
        atoms,
        known,
        names,
        &mut bodies,
        store,
        index,
    )
}

// All lines of a proof text, from an empty store, with the index beside it lent, of any length, which decides time alone.
pub fn run_long(
    proof: &[u8],
    table: &[i32],
    rules: usize,
    atoms: usize,
    store: &mut [i32],
    index: &mut [u32],
) -> Result<StepsTaken, ProofRefusal>
    requires program { ((ws : List InputRule) × Program table.now rules atoms ws) × (rules ≤ most_held) }
    requires short { length proof.now ≤ widest }
    requires empty { store.old ≡ replicate (length store.old) (pos 0) }
    requires cells { BlankIndex index.old }
    ensures { (limit : ℕ) → length proof.now ≤ limit → (ws : List InputRule) → Program table.now rules atoms ws
        → Ran store.new (course_within limit atoms (expand ws) (length store.old) proof.now) result }
{
    let mut known = marks::marks_to(atoms);
    let mut names = [0u16; NAME_WORDS];
    if tables::all_plain(table, rules) {
        let mut none = [0i16; 1];
        return run_plain(
            proof, table, rules, atoms, &mut known, &mut names, &mut none, store, index,
        );
    }
    run_recorded(
        proof, table, rules, atoms, &mut known, &mut names, store, index,
    )
}

// The same with nothing lent for the index.
pub fn run_proof(
    proof: &[u8],
    table: &[i32],
    rules: usize,
    atoms: usize,
    store: &mut [i32],
) -> Result<StepsTaken, ProofRefusal>
    requires program { ((ws : List InputRule) × Program table.now rules atoms ws) × (rules ≤ most_held) }
    requires short { length proof.now ≤ widest }
    requires empty { store.old ≡ replicate (length store.old) (pos 0) }
    ensures { (limit : ℕ) → length proof.now ≤ limit → (ws : List InputRule) → Program table.now rules atoms ws
        → Ran store.new (course_within limit atoms (expand ws) (length store.old) proof.now) result }
{
    let mut none = [0u32; 1];
    run_long(proof, table, rules, atoms, store, &mut none)
}
