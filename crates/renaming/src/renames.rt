// The second half's new names, made by one walk over its text: document 02, Change 9.
ghost use Rattle.std.specs.Prelude.{◌≡◌, false, cond, List, ℕ, ◌≤◌, ℤ, length, get_or};
ghost use Rattle.words.specs.Limits.{largest, entries, most_numbers};
ghost use Rattle.words.specs.Lists.{any};
ghost use Rattle.words.specs.Literals.{same_list, ascending};
ghost use Rattle.aspif.specs.Rules.{InputRule, expand};
ghost use Rattle.text.specs.Classes.{byte_classes};
ghost use Rattle.drupe.specs.Lines.{line_at};
ghost use Rattle.drupe.specs.Texts.{Step};
ghost use Rattle.derivation.specs.States.{State};
ghost use Rattle.marks.specs.Marks.{marked};
ghost use Rattle.names.specs.Queries.{HoldsRules, Kept};
ghost use Rattle.heads.specs.Heads.{Indexed};
ghost use Rattle.steps.specs.Held.{PassedLine};
ghost use Rattle.renaming.specs.Renames.{Halves, RenamedAll, NextFree, OtherNamed, BodyNamed, LineRenamed, rename_turn, TurnRenamed, TurnBounds};

use drupe::reader;
use text::Letter;
use words::{ENTRIES, LARGEST, MOST_NUMBERS};

// What the line at a position comes to: the text's end, a new name above the largest variable, or the position after
// the line and the number from which on new names are looked for.
// An Option in an Option is no plainer: `rename_all` answers yes or no, so no `?` would take it.
#[derive(Drop)]
pub enum RenameTurn {
    Ends,
    Over,
    Goes { next: usize, cursor: usize },
}

// Each variable keeps its name.
pub fn keep_all(new: &mut [u16])
    requires { length new.old ≡ entries }
    ensures { (u : ℕ) → u ≤ largest → get_or new.new u 0 ≡ u }
{
    for i in 0..new.len() {
        new[i] = i as u16;
    }
}

// The next number that neither half knows, 8,192 where there is none.
fn next_free(known1: &[u8], known2: &[u8], from: usize) -> usize
    requires { from ≤ entries }
    ensures { NextFree known1.now known2.now from result }
{
    (from..ENTRIES)
        .find(|n| !(marks::is_marked(known1, *n) | marks::is_marked(known2, *n)))
        .unwrap_or(ENTRIES)
}

// A name that no body has which the first half names: where the first half knows it, it becomes the next free number. Where new names are
// looked for from there on; 8,193 where no number was left.
fn rename_other(n: usize, known1: &[u8], known2: &[u8], cursor: usize, new: &mut [u16]) -> usize
    requires { (n ≤ largest) × (cursor ≤ entries) × (length new.old ≡ entries) }
    ensures { OtherNamed known1.now known2.now cursor new.old new.new result n }
{
    if !marks::is_marked(known1, n) {
        return cursor;
    }
    let free = next_free(known1, known2, cursor);
    new[n] = free as u16;
    free + 1
}

// The name of a body, which is sorted: that of the first half, and the body is shared; or another.
fn rename_body(
    table: &[i32],
    rules: usize,
    lookup: &[u16],
    known1: &[u8],
    known2: &[u8],
    names: &[u16],
    bodies: &[i16],
    n: usize,
    body: &mut [i32],
    cursor: usize,
    new: &mut [u16],
    shared: &mut [u8],
) -> usize
    requires program { ((ws : List InputRule) × HoldsRules table.now rules ws) × (rules ≤ length names.now) }
    requires index { Indexed lookup.now table.now rules }
    requires line { (n ≤ largest) × (cursor ≤ entries) × (length new.old ≡ entries) }
    ensures { (ws : List InputRule) → HoldsRules table.now rules ws
        → (called : List ℤ → ℕ) → Kept names.now bodies.now called ws
        → BodyNamed known1.now known2.now cursor new.old new.new result
        shared.old shared.new
        (cond (any (λ x. same_list (ascending body.old) x.body) (expand ws)) (called (ascending body.old)) entries) n }
{
    words::sort(body);
    let k = heads::body_name(table, rules, names, bodies, lookup, body);
    if (k == 0) | (LARGEST < k) {
        return rename_other(n, known1, known2, cursor, new);
    }
    new[n] = k as u16;
    marks::mark(shared, n);
    cursor
}

// What a line does to the new names.
fn rename_line(
    letter: Letter,
    numbers: &mut [i32],
    table: &[i32],
    rules: usize,
    lookup: &[u16],
    known1: &[u8],
    known2: &[u8],
    names: &[u16],
    bodies: &[i16],
    cursor: usize,
    new: &mut [u16],
    shared: &mut [u8],
) -> usize
    requires line { PassedLine letter numbers.old }
    requires program { ((ws : List InputRule) × HoldsRules table.now rules ws) × (rules ≤ length names.now) }
    requires index { Indexed lookup.now table.now rules }
    requires cursor { (cursor ≤ entries) × (length new.old ≡ entries) }
    ensures { (ws : List InputRule) → HoldsRules table.now rules ws
        → (called : List ℤ → ℕ) → Kept names.now bodies.now called ws
        → LineRenamed known1.now known2.now cursor new.old new.new result
        shared.old shared.new (expand ws) called letter numbers.old }
{
    match letter {
        Letter::Addition => cursor,
        Letter::Body => {
            let n = words::variable_of(numbers[0]);
            rename_body(
                table,
                rules,
                lookup,
                known1,
                known2,
                names,
                bodies,
                n,
                &mut numbers[1..],
                cursor,
                new,
                shared,
            )
        }
        Letter::Completion => cursor,
        Letter::Deletion => cursor,
        Letter::Extension => {
            rename_other(words::variable_of(numbers[0]), known1, known2, cursor, new)
        }
        Letter::Loop => cursor,
        Letter::Support => cursor,
    }
}

// Where the walk goes on, unless a new name is above the largest variable.
fn turn_to(next: usize, cursor: usize) -> RenameTurn
    ensures { result ≡ rename_turn next cursor }
{
    if ENTRIES < cursor {
        return RenameTurn::Over;
    }
    RenameTurn::Goes { next, cursor }
}

// The line at the position, read into the two rows, and what it does to the new names.
fn rename_at(
    second: &[u8],
    at: usize,
    classes: &[u8; 256],
    numbers: &mut [i32],
    sorted: &mut [i32],
    table: &[i32],
    rules: usize,
    lookup: &[u16],
    known1: &[u8],
    known2: &[u8],
    names: &[u16],
    bodies: &[i16],
    cursor: usize,
    new: &mut [u16],
    shared: &mut [u8],
) -> RenameTurn
    requires classes { classes.now ≡ byte_classes }
    requires rows { (length numbers.old ≡ most_numbers) × (length sorted.old ≡ most_numbers) }
    requires program { ((ws : List InputRule) × HoldsRules table.now rules ws) × (rules ≤ length names.now) }
    requires index { Indexed lookup.now table.now rules }
    requires cursor { (cursor ≤ entries) × (length new.old ≡ entries) }
    ensures within { TurnBounds at (length second.now) result }
    ensures renamed { (ws : List InputRule) → HoldsRules table.now rules ws
        → (called : List ℤ → ℕ) → Kept names.now bodies.now called ws
        → TurnRenamed known1.now known2.now cursor new.old new.new
        shared.old shared.new (expand ws) called (line_at second.now at) result }
{
    let read = match reader::step_at(second, at, classes, numbers, sorted) {
        Err(_) => return RenameTurn::Over,
        Ok(read) => read,
    };
    let Some(line) = read else {
        return RenameTurn::Ends;
    };
    let from = rename_line(
        line.letter,
        &mut numbers[..line.count],
        table,
        rules,
        lookup,
        known1,
        known2,
        names,
        bodies,
        cursor,
        new,
        shared,
    );
    turn_to(line.next, from)
}

// The new names of the second half's names, and marks of those whose bodies the first half names. False where a new name is above the
// largest variable.
pub fn rename_all(
    second: &[u8],
    table: &[i32],
    rules: usize,
    lookup: &[u16],
    atoms: usize,
    known1: &[u8],
    known2: &[u8],
    names: &[u16],
    bodies: &[i16],
    new: &mut [u16],
    shared: &mut [u8],
) -> bool
    requires program { ((ws : List InputRule) × HoldsRules table.now rules ws) × (rules ≤ length names.now) × (atoms ≤ largest) }
    requires index { Indexed lookup.now table.now rules }
    requires new { length new.old ≡ entries }
    requires shared { (length shared.old ≡ entries) × ((u : ℕ) → marked shared.old u ≡ false) }
    ensures { (ws : List InputRule) (v : ℕ) (one two : List Step) (z₁ z₂ : State)
        → Halves second.now table.now rules atoms known1.now known2.now names.now
        bodies.now ws v one two z₁ z₂
        → RenamedAll atoms (expand ws) v one two new.new shared.new result }
{
    keep_all(new);
    let classes = text::classes::CLASSES;
    let mut numbers = [0; MOST_NUMBERS];
    let mut sorted = [0; MOST_NUMBERS];
    let mut at = 0;
    let mut cursor = atoms + 1;
    loop {
        match rename_at(
            second,
            at,
            &classes,
            &mut numbers,
            &mut sorted,
            table,
            rules,
            lookup,
            known1,
            known2,
            names,
            bodies,
            cursor,
            new,
            shared,
        ) {
            RenameTurn::Ends => return true,
            RenameTurn::Over => return false,
            RenameTurn::Goes { next, cursor: c } => {
                at = next;
                cursor = c;
            }
        }
    }
}
