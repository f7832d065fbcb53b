// The halves, each checked against the program with a constraint more.
ghost use Rattle.std.specs.Prelude.{◌≡◌, true, List, ◌+◌, ◌≤◌, ◌<◌, pos, length, replicate};
ghost use Rattle.words.specs.Limits.{largest, entries, most_held};
ghost use Rattle.words.specs.Literals.{variable, complement};
ghost use Rattle.aspif.specs.Rules.{InputRule, program_words};
ghost use Rattle.aspif.specs.Tables.{rules_at};
ghost use Rattle.marks.specs.Marks.{Marks, up_to};
ghost use Rattle.derivation.specs.States.{is_atom};
ghost use Rattle.heads.specs.Heads.{name_words};
ghost use Rattle.steps.specs.Held.{Program, NoBodies};
ghost use Rattle.merging.specs.Claims.{demanding_as_written};
ghost use Rattle.splits.specs.Halves.{most_words, HalfChecked, HalvesChecked};

use crate::tables;
use checker::judging;
use words::LONGEST;

// The words of a program, and of the constraints behind it.
pub const WIDE: usize = LONGEST + 30;

// "the atoms alone are known".
fn know_atoms(known: &mut [u8], atoms: usize)
    requires { (length known.old ≡ entries) × (atoms ≤ largest) }
    ensures { Marks known.new (up_to atoms) }
{
    words::zero_all(known);
    for left in (0..atoms).rev() {
        marks::mark(known, left + 1);
    }
}

// The proof text is accepted for the rules in the table. The store is 0 throughout, before and after.
fn accepts(
    text: &[u8],
    table: &[i32],
    rules: usize,
    atoms: usize,
    known: &mut [u8],
    names: &mut [u16],
    bodies: &mut [i16],
    store: &mut [i32],
) -> bool
    requires program { ((ws : List InputRule) × Program table.now rules atoms ws) × (rules ≤ most_held) }
    requires start { (length known.old ≡ entries) × (names.old ≡ replicate name_words 0) }
    requires bodies { NoBodies (rules_at rules table.now) bodies.old }
    requires empty { store.old ≡ replicate (length store.old) (pos 0) }
    ensures empty { store.new ≡ replicate (length store.old) (pos 0) }
    ensures checked { (ws : List InputRule) → Program table.now rules atoms ws
        → HalfChecked atoms ws (length store.old) text.now known.new names.new bodies.new result }
{
    if LONGEST < text.len() {
        return false;
    }
    know_atoms(known, atoms);
    let run = runs::run_half(text, table, rules, atoms, known, names, bodies, store);
    let accepted = judging::ends_empty(run, store);
    words::zero_all(store);
    accepted
}

// The proof text is accepted for the program with a constraint behind it that has just the literal in its body. The wider table stands in
// a frame of its own.
fn accepts_with(
    literal: i32,
    text: &[u8],
    table: &[i32],
    rules: usize,
    atoms: usize,
    known: &mut [u8],
    names: &mut [u16],
    bodies: &mut [i16],
    store: &mut [i32],
) -> bool
    requires program { ((ws : List InputRule) × Program table.now rules atoms ws) × (rules < most_held) }
    requires short { length (program_words (rules_at rules table.now)) + 5 ≤ most_words }
    requires atom { is_atom atoms (variable literal) ≡ true }
    requires start { (length known.old ≡ entries) × (names.old ≡ replicate name_words 0) }
    requires bodies { NoBodies (rules_at rules table.now) bodies.old }
    requires empty { store.old ≡ replicate (length store.old) (pos 0) }
    ensures empty { store.new ≡ replicate (length store.old) (pos 0) }
    ensures checked { (ws : List InputRule) → Program table.now rules atoms ws
        → HalfChecked atoms (demanding_as_written ws (complement literal)) (length store.old) text.now
        known.new names.new bodies.new result }
{
    let mut wide = [0i32; WIDE];
    tables::append_demand(table, rules, literal, &mut wide);
    accepts(text, &wide, rules + 1, atoms, known, names, bodies, store)
}

// Each half is accepted for its program. What is known at the end of each, and the first half's names of bodies, stay. The store is 0
// throughout, before and after.
pub fn accept_halves(
    first: &[u8],
    second: &[u8],
    table: &[i32],
    rules: usize,
    atoms: usize,
    v: usize,
    known1: &mut [u8],
    known2: &mut [u8],
    names: &mut [u16],
    bodies: &mut [i16],
    store: &mut [i32],
) -> bool
    requires program { ((ws : List InputRule) × Program table.now rules atoms ws) × (rules < most_held) }
    requires short { length (program_words (rules_at rules table.now)) + 5 ≤ most_words }
    requires marks { (length known1.old ≡ entries) × (length known2.old ≡ entries) }
    requires names { names.old ≡ replicate name_words 0 }
    requires bodies { NoBodies (rules_at rules table.now) bodies.old }
    requires empty { store.old ≡ replicate (length store.old) (pos 0) }
    ensures empty { store.new ≡ replicate (length store.old) (pos 0) }
    ensures checked { (ws : List InputRule) → Program table.now rules atoms ws
        → HalvesChecked atoms (length store.old) ws v first.now second.now
        known1.new known2.new names.new bodies.new result }
{
    if !judging::is_atom(atoms, v) {
        return false;
    }
    let atom = v as i32;
    if !accepts_with(
        atom, second, table, rules, atoms, known2, names, bodies, store,
    ) {
        return false;
    }
    names.fill(0);
    bodies.fill(0);
    accepts_with(
        words::complement_of(atom),
        first,
        table,
        rules,
        atoms,
        known1,
        names,
        bodies,
        store,
    )
}
