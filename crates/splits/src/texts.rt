// The merged text: the first half's lines, the second's and the closing `a 0`.
ghost use Rattle.std.specs.Prelude.{◌≡◌, true, List, [], ◌∷◌, ◌++◌, ℕ, ◌+◌, ◌≤◌, ◌<◌, ℤ, pos, length, replicate, get_or};
ghost use Rattle.words.specs.Limits.{largest, longest, most_held};
ghost use Rattle.words.specs.Literals.{variable, complement};
ghost use Rattle.aspif.specs.Rules.{InputRule, all_plain, program_words, expand};
ghost use Rattle.aspif.specs.Tables.{rules_at};
ghost use Rattle.names.specs.Queries.{HoldsRules, Kept};
ghost use Rattle.heads.specs.Heads.{Indexed};
ghost use Rattle.steps.specs.Held.{Program, NoBodies};
ghost use Rattle.renaming.specs.Writing.{Writes};
ghost use Rattle.splits.specs.Service.{merged_steps};
ghost use Rattle.splits.specs.Halves.{most_words};
ghost use Rattle.splits.specs.Joined.{AddedTo, WrittenBy, written_in, HalfText, lines_of, closing, HalvesHeld};

use crate::{MergeFault, halves};
use heads::{INDEX_WORDS, NAME_WORDS};
use names::{by_name, queries};
use renaming::{lines, renames};
use text::Letter;
use words::ENTRIES;

// What the program has of an added constraint: a rule with its body; the constraint itself.
#[derive(Drop)]
pub struct Added {
    pub body: bool,
    pub constraint: bool,
}

// What the program has of the constraint with just the literal in its body.
fn added_of(
    table: &[i32],
    rules: usize,
    lookup: &[u16],
    names: &[u16],
    bodies: &[i16],
    literal: i32,
) -> Added
    requires program { ((ws : List InputRule) × HoldsRules table.now rules ws) × (rules ≤ length names.now) }
    requires index { Indexed lookup.now table.now rules }
    ensures { (ws : List InputRule) → HoldsRules table.now rules ws
        → (called : List ℤ → ℕ) → Kept names.now bodies.now called ws → ((L : List ℤ) → called L ≤ largest)
        → AddedTo (expand ws) (literal ∷ []) result }
{
    let body = [literal];
    let name = heads::body_name(table, rules, names, bodies, lookup, &body);
    Added {
        body: name < ENTRIES,
        constraint: queries::is_constraint(table, rules, &body),
    }
}

// The second half's lines and `a 0`, from a position on: the position after them; none where a line or the text is over
// its limit. So too below.
fn write_second(
    second: &[u8],
    x: i32,
    new: &[u16],
    shared: &[u8],
    added: Added,
    output: &mut [u8],
    at: usize,
) -> Option<usize>
    requires at { at ≤ longest }
    requires literal { (1 ≤ variable x) × (variable x ≤ largest) }
    requires new { (u : ℕ) → get_or new.now u 0 ≤ largest }
    requires half { HalfText second.now x shared.now added }
    ensures { (h : HalfText second.now x shared.now added)
        → Writes (lines_of h (λ u. get_or new.now u 0) ++ closing) output.old output.new at result }
{
    let end = lines::write_half(
        second,
        x,
        new,
        shared,
        added.body,
        added.constraint,
        output,
        at,
    )?;
    let none = [0i32; 1];
    lines::write_line(Letter::Addition, &none[..0], output, end)
}

// All lines of the merged text. The first half keeps its names.
fn write_text(
    first: &[u8],
    second: &[u8],
    x: i32,
    new: &[u16],
    shared: &[u8],
    demanded: Added,
    forbidden: Added,
    output: &mut [u8],
) -> Option<usize>
    requires literal { (1 ≤ variable x) × (variable x ≤ largest) }
    requires new { (u : ℕ) → get_or new.now u 0 ≤ largest }
    requires first { HalfText first.now x (0 ∷ []) demanded }
    requires second { HalfText second.now (complement x) shared.now forbidden }
    ensures { (h : HalfText first.now x (0 ∷ []) demanded)
        (k : HalfText second.now (complement x) shared.now forbidden)
        → Writes (lines_of h (λ u. u) ++ (lines_of k (λ u. get_or new.now u 0) ++ closing)) output.old output.new 0 result }
{
    let mut same = [0u16; ENTRIES];
    renames::keep_all(&mut same);
    let none = [0u8; 1];
    let end = lines::write_half(
        first,
        x,
        &same,
        &none,
        demanded.body,
        demanded.constraint,
        output,
        0,
    )?;
    write_second(
        second,
        words::complement_of(x),
        new,
        shared,
        forbidden,
        output,
        end,
    )
}

// The merged text of two halves that are accepted.
fn write_merged(
    first: &[u8],
    second: &[u8],
    table: &[i32],
    rules: usize,
    lookup: &[u16],
    atoms: usize,
    v: usize,
    known1: &[u8],
    known2: &[u8],
    names: &[u16],
    bodies: &[i16],
    output: &mut [u8],
) -> Option<usize>
    requires halves { HalvesHeld table.now rules atoms v first.now second.now known1.now known2.now names.now bodies.now }
    requires index { Indexed lookup.now table.now rules }
    ensures { (h : HalvesHeld table.now rules atoms v first.now second.now
        known1.now known2.now names.now bodies.now)
        → Writes (merged_steps h.ws v first.now second.now) output.old output.new 0 result }
{
    let mut new = [0u16; ENTRIES];
    let mut shared = [0u8; ENTRIES];
    if !renames::rename_all(
        second,
        table,
        rules,
        lookup,
        atoms,
        known1,
        known2,
        names,
        bodies,
        &mut new,
        &mut shared,
    ) {
        return None;
    }
    let x = v as i32;
    let demanded = added_of(table, rules, lookup, names, bodies, words::complement_of(x));
    let forbidden = added_of(table, rules, lookup, names, bodies, x);
    write_text(first, second, x, &new, &shared, demanded, forbidden, output)
}

// A text that the output holds.
fn within(wrote: Option<usize>, size: usize) -> Result<usize, MergeFault>
    ensures { result ≡ written_in size wrote }
{
    match wrote {
        Some(end) if end <= size => Ok(end),
        _ => Err(MergeFault::NotWritable),
    }
}

// 57 and 58: the halves are accepted, and the merged text is written. The answer is how many bytes it has, which stand
// in the output.
fn write_halves(
    first: &[u8],
    second: &[u8],
    table: &[i32],
    rules: usize,
    lookup: &[u16],
    atoms: usize,
    v: usize,
    bodies: &mut [i16],
    store: &mut [i32],
    output: &mut [u8],
) -> Result<usize, MergeFault>
    requires program { ((ws : List InputRule) × Program table.now rules atoms ws) × (rules < most_held) }
    requires short { length (program_words (rules_at rules table.now)) + 5 ≤ most_words }
    requires index { Indexed lookup.now table.now rules }
    requires bodies { NoBodies (rules_at rules table.now) bodies.old }
    requires empty { (store.old ≡ replicate (length store.old) (pos 0)) × (output.old ≡ replicate (length output.old) 0) }
    ensures empty { store.new ≡ replicate (length store.old) (pos 0) }
    ensures written { (ws : List InputRule) → Program table.now rules atoms ws
        → WrittenBy (length store.old) ws v first.now second.now output.new result }
{
    let mut known1 = [0u8; ENTRIES];
    let mut known2 = [0u8; ENTRIES];
    let mut names = [0u16; NAME_WORDS];
    if !halves::accept_halves(
        first,
        second,
        table,
        rules,
        atoms,
        v,
        &mut known1,
        &mut known2,
        &mut names,
        bodies,
        store,
    ) {
        return Err(MergeFault::NotAccepted);
    }
    let wrote = write_merged(
        first, second, table, rules, lookup, atoms, v, &known1, &known2, &names, bodies, output,
    );
    within(wrote, output.len())
}

// The same for a program without weight bodies.
pub fn write_plain(
    first: &[u8],
    second: &[u8],
    table: &[i32],
    rules: usize,
    atoms: usize,
    v: usize,
    store: &mut [i32],
    output: &mut [u8],
) -> Result<usize, MergeFault>
    requires program { ((ws : List InputRule) × Program table.now rules atoms ws) × (rules < most_held) }
    requires short { length (program_words (rules_at rules table.now)) + 5 ≤ most_words }
    requires plain { all_plain (rules_at rules table.now) ≡ true }
    requires empty { (store.old ≡ replicate (length store.old) (pos 0)) × (output.old ≡ replicate (length output.old) 0) }
    ensures empty { store.new ≡ replicate (length store.old) (pos 0) }
    ensures written { (ws : List InputRule) → Program table.now rules atoms ws
        → WrittenBy (length store.old) ws v first.now second.now output.new result }
{
    let mut lookup = [0u16; INDEX_WORDS];
    heads::fill(table, rules, &mut lookup);
    let mut none = [0i16; 1];
    write_halves(
        first, second, table, rules, &lookup, atoms, v, &mut none, store, output,
    )
}

// The same for one with weight bodies, whose records by name stand in a frame of their own.
pub fn write_weighted(
    first: &[u8],
    second: &[u8],
    table: &[i32],
    rules: usize,
    atoms: usize,
    v: usize,
    store: &mut [i32],
    output: &mut [u8],
) -> Result<usize, MergeFault>
    requires program { ((ws : List InputRule) × Program table.now rules atoms ws) × (rules < most_held) }
    requires short { length (program_words (rules_at rules table.now)) + 5 ≤ most_words }
    requires empty { (store.old ≡ replicate (length store.old) (pos 0)) × (output.old ≡ replicate (length output.old) 0) }
    ensures empty { store.new ≡ replicate (length store.old) (pos 0) }
    ensures written { (ws : List InputRule) → Program table.now rules atoms ws
        → WrittenBy (length store.old) ws v first.now second.now output.new result }
{
    let mut bodies = [0i16; by_name::BODY_WORDS];
    write_halves(
        first,
        second,
        table,
        rules,
        &[0],
        atoms,
        v,
        &mut bodies,
        store,
        output,
    )
}
