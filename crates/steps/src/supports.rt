// `c` and `s`: what the rules give and what supports an atom. Document 01, questions 26, 29, 30 and 34.
ghost use Rattle.std.specs.Prelude.{◌≡◌, List, [], ◌∷◌, map, ℕ, ◌≤◌, pos, length, drop, get_or};
ghost use Rattle.words.specs.Literals.{complement, ascending};
ghost use Rattle.words.specs.Limits.{widest, most_numbers};
ghost use Rattle.aspif.specs.Rules.{InputRule, expand};
ghost use Rattle.text.specs.declared.Letter.TheVariants.{Completion, Support};
ghost use Rattle.derivation.specs.States.{State};
ghost use Rattle.derivation.specs.Steps.{is_support};
ghost use Rattle.nogoods.specs.Store.{Stored, added_in, kept_with};
ghost use Rattle.nogoods.specs.Index.{Keeps};
ghost use Rattle.nogoods.specs.Keeps.{Literals};
ghost use Rattle.names.specs.Queries.{HoldsRules};
ghost use Rattle.heads.specs.Heads.{Indexed};
ghost use Rattle.steps.specs.Held.{PassedLine, Program, Tracks, Fitted, Stepping};

use crate::outcomes;
use drupe::ProofFault;
use names::queries;
use names::queries::Query;
use nogoods::store;

// The first number with the complements of the others is live, after the other nogoods.
fn join(
    store: &mut [i32],
    used: usize,
    index: &mut [u32],
    origin: usize,
    numbers: &mut [i32],
) -> Result<usize, ProofFault>
    requires store { ((stored : List Stored) × Keeps store.old index.old used stored) × ((1 ≤ origin) × (origin ≤ widest)) }
    requires line { Literals numbers.old × (1 ≤ length numbers.old) × (length numbers.old ≤ most_numbers) }
    ensures { (stored : List Stored) → Keeps store.old index.old used stored
        → (let added = get_or numbers.old 0 (pos 0) ∷ map complement (drop 1 numbers.old) in
        Fitted (kept_with (length store.old) (added_in origin (ascending added ∷ [])) stored)
        store.new index.new result) }
{
    words::complement_all(&mut numbers[1..]);
    words::sort(numbers);
    outcomes::fitted(store::append(store, used, index, origin, numbers))
}

// `c`: the name n of the body of a normal rule, and the rule's head h where it has one. Adds n with -h, or n alone.
pub fn completion(
    table: &[i32],
    rules: usize,
    lookup: &[u16],
    known: &[u8],
    names: &[u16],
    bodies: &[i16],
    store: &mut [i32],
    used: usize,
    index: &mut [u32],
    origin: usize,
    numbers: &mut [i32],
) -> Result<usize, ProofFault>
    requires program { ((ws : List InputRule) × HoldsRules table.now rules ws) × (rules ≤ length names.now) }
    requires index { Indexed lookup.now table.now rules }
    requires store { ((stored : List Stored) × Keeps store.old index.old used stored) × ((1 ≤ origin) × (origin ≤ widest)) }
    requires line { PassedLine Completion numbers.old }
    ensures { (N : ℕ) (ws : List InputRule) → HoldsRules table.now rules ws
        → Stepping N ws Completion numbers.old used origin
        known.now names.now bodies.now store.old index.old
        known.now names.now bodies.now store.new index.new result }
{
    if !marks::all_marked(numbers, known) {
        return Err(ProofFault::UnknownVariable);
    }
    let name = words::variable_of(numbers[0]);
    if !heads::is_completed(table, rules, names, bodies, lookup, &numbers[1..], name) {
        return Err(ProofFault::NoCompletion);
    }
    join(store, used, index, origin, numbers)
}

// Question 30: h, the first number, is an atom, and the others are the names of just the bodies of the rules with h in the head.
fn is_supported(
    table: &[i32],
    rules: usize,
    lookup: &[u16],
    atoms: usize,
    names: &[u16],
    bodies: &[i16],
    numbers: &[i32],
) -> bool
    requires program { ((ws : List InputRule) × Program table.now rules atoms ws) × (rules ≤ length names.now) }
    requires index { Indexed lookup.now table.now rules }
    requires line { PassedLine Support numbers.now }
    ensures { (ws : List InputRule) → Program table.now rules atoms ws
        → (known : List ℕ) (z : State) → Tracks atoms ws known names.now bodies.now z.introduced z.named
        → result ≡ is_support atoms (expand ws) z (get_or numbers.now 0 (pos 0)) (drop 1 numbers.now) }
{
    let h = numbers[0];
    if atoms < words::variable_of(h) {
        return false;
    }
    if heads::is_covered(lookup) {
        return heads::are_just_names(
            table,
            rules,
            names,
            lookup,
            words::variable_of(h),
            &numbers[1..],
        );
    }
    let listed = marks::marks_of(&numbers[1..]);
    // the empty set: no body is left out
    let none = [0u8; 1];
    let mut found = [0u8; words::ENTRIES];
    queries::mark_names(
        table,
        rules,
        names,
        bodies,
        Query::Head(h),
        &none,
        &mut found,
    );
    marks::is_same_set(&listed, &found)
}

// `s`: an atom h and the names of just the bodies of the rules with h in the head. Adds h with minus each name.
pub fn support(
    table: &[i32],
    rules: usize,
    lookup: &[u16],
    atoms: usize,
    known: &[u8],
    names: &[u16],
    bodies: &[i16],
    store: &mut [i32],
    used: usize,
    index: &mut [u32],
    origin: usize,
    numbers: &mut [i32],
) -> Result<usize, ProofFault>
    requires program { ((ws : List InputRule) × Program table.now rules atoms ws) × (rules ≤ length names.now) }
    requires index { Indexed lookup.now table.now rules }
    requires store { ((stored : List Stored) × Keeps store.old index.old used stored) × ((1 ≤ origin) × (origin ≤ widest)) }
    requires line { PassedLine Support numbers.old }
    ensures { (ws : List InputRule) → Program table.now rules atoms ws
        → Stepping atoms ws Support numbers.old used origin
        known.now names.now bodies.now store.old index.old
        known.now names.now bodies.now store.new index.new result }
{
    if !marks::all_marked(numbers, known) {
        return Err(ProofFault::UnknownVariable);
    }
    if !is_supported(table, rules, lookup, atoms, names, bodies, numbers) {
        return Err(ProofFault::NoSupport);
    }
    join(store, used, index, origin, numbers)
}
