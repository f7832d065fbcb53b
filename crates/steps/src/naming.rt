// `b` and `e`: the steps that introduce a name. Document 01, questions 26 to 28 and 34.
ghost use Rattle.std.specs.Prelude.{◌≡◌, true, false, List, ◌∷◌, ℕ, ◌≤◌, ℤ, pos, length, drop, get_or, set};
ghost use Rattle.words.specs.Limits.{largest, widest, most_numbers};
ghost use Rattle.words.specs.Literals.{variable, ascending};
ghost use Rattle.aspif.specs.Rules.{InputRule, expand};
ghost use Rattle.text.specs.declared.Letter.TheVariants.{Body, Extension};
ghost use Rattle.derivation.specs.States.{State, is_known};
ghost use Rattle.derivation.specs.Steps.{definition, is_unnamed_body};
ghost use Rattle.nogoods.specs.Store.{Stored, added_in, kept_with};
ghost use Rattle.nogoods.specs.Index.{Keeps};
ghost use Rattle.nogoods.specs.Keeps.{Literals};
ghost use Rattle.names.specs.Queries.{HoldsRules, Kept};
ghost use Rattle.heads.specs.Heads.{Indexed};
ghost use Rattle.steps.specs.Held.{PassedLine, name_of, Tracks, Fitted, Stepping};

use crate::outcomes;
use crate::states::CheckingState;
use drupe::ProofFault;
use nogoods::{definitions, store};

// The name is known from now on, and its definition live.
fn define(
    known: &mut [u8],
    store: &mut [i32],
    used: usize,
    index: &mut [u32],
    origin: usize,
    numbers: &mut [i32],
) -> Result<usize, ProofFault>
    requires store { ((stored : List Stored) × Keeps store.old index.old used stored) × ((1 ≤ origin) × (origin ≤ widest)) }
    requires line { Literals numbers.old × (1 ≤ length numbers.old) × (length numbers.old ≤ most_numbers) }
    ensures known { known.new ≡ set known.old (variable (get_or numbers.old 0 (pos 0))) 1 }
    ensures defined { (stored : List Stored) → Keeps store.old index.old used stored
        → (let added = definition (get_or numbers.old 0 (pos 0)) (drop 1 numbers.old) in
        Fitted (kept_with (length store.old) (added_in origin added) stored)
        store.new index.new result) }
{
    marks::mark(known, words::variable_of(numbers[0]));
    outcomes::fitted(definitions::append(store, used, index, origin, numbers))
}

// `e`: a fresh name n and any literals L. Adds -n with L, and n with the complement of each literal of L.
pub fn extension(
    known: &mut [u8],
    store: &mut [i32],
    used: usize,
    index: &mut [u32],
    origin: usize,
    numbers: &mut [i32],
) -> Result<usize, ProofFault>
    requires store { ((stored : List Stored) × Keeps store.old index.old used stored) × ((1 ≤ origin) × (origin ≤ widest)) }
    requires line { PassedLine Extension numbers.old }
    ensures { (N : ℕ) (ws : List InputRule) (names : List ℕ) (bodies : List ℤ)
        → Stepping N ws Extension numbers.old used origin known.old names bodies store.old index.old
        known.new names bodies store.new index.new result }
{
    if !marks::all_marked(&numbers[1..], known) {
        return Err(ProofFault::UnknownVariable);
    }
    if marks::is_marked(known, words::variable_of(numbers[0])) {
        return Err(ProofFault::KnownName);
    }
    define(known, store, used, index, origin, numbers)
}

// Question 28: the literals are the body of a rule, which has no name yet. It then gets the name, and the literals ascend.
fn name_body(
    table: &[i32],
    rules: usize,
    lookup: &[u16],
    names: &mut [u16],
    bodies: &mut [i16],
    body: &mut [i32],
    name: usize,
) -> bool
    requires program { ((ws : List InputRule) × HoldsRules table.now rules ws) × (rules ≤ length names.old) }
    requires index { Indexed lookup.now table.now rules }
    requires name { (1 ≤ name) × (name ≤ largest) × Literals body.old }
    ensures answer { (N : ℕ) (ws : List InputRule) → HoldsRules table.now rules ws
        → (known : List ℕ) (z : State) → Tracks N ws known names.old bodies.old z.introduced z.named
        → result ≡ is_unnamed_body (expand ws) z body.old }
    ensures named { (N : ℕ) (ws : List InputRule) → HoldsRules table.now rules ws → result ≡ true
        → (known : List ℕ) (z : State) → Tracks N ws known names.old bodies.old z.introduced z.named
        → is_known N z name ≡ false
        → Kept names.new bodies.new
        (name_of (record { name = name; body = ascending body.old } ∷ z.named)) ws }
{
    words::sort(body);
    if !heads::is_unnamed(table, rules, names, bodies, lookup, body) {
        return false;
    }
    heads::enter(table, rules, lookup, body, name, names, bodies);
    true
}

// `b`: a fresh name n and literals L, the body of a rule, which has no name yet; n names it. Adds -n with L, and n with the
// complement of each literal of L.
pub fn body(
    table: &[i32],
    rules: usize,
    lookup: &[u16],
    known: &mut [u8],
    names: &mut [u16],
    bodies: &mut [i16],
    store: &mut [i32],
    used: usize,
    index: &mut [u32],
    origin: usize,
    numbers: &mut [i32],
) -> Result<usize, ProofFault>
    requires program { ((ws : List InputRule) × HoldsRules table.now rules ws) × (rules ≤ length names.old) }
    requires index { Indexed lookup.now table.now rules }
    requires store { ((stored : List Stored) × Keeps store.old index.old used stored) × ((1 ≤ origin) × (origin ≤ widest)) }
    requires line { PassedLine Body numbers.old }
    ensures { (N : ℕ) (ws : List InputRule) → HoldsRules table.now rules ws
        → Stepping N ws Body numbers.old used origin
        known.old names.old bodies.old store.old index.old
        known.new names.new bodies.new store.new index.new result }
{
    if !marks::all_marked(&numbers[1..], known) {
        return Err(ProofFault::UnknownVariable);
    }
    let name = words::variable_of(numbers[0]);
    if marks::is_marked(known, name) {
        return Err(ProofFault::KnownName);
    }
    let count = numbers.len();
    let mut row = [0i32; CheckingState::NUMBERS];
    words::copy(&mut row, numbers);
    if !name_body(
        table,
        rules,
        lookup,
        names,
        bodies,
        &mut row[1..count],
        name,
    ) {
        return Err(ProofFault::NoUnnamedBody);
    }
    define(known, store, used, index, origin, numbers)
}
