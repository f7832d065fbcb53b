// `l`: the nogood of an unfounded set. Document 01, questions 26, 31, 56, 32 and 34.
ghost use Rattle.std.specs.Prelude.{◌≡◌, true, List, ◌∷◌, ◌++◌, map, ℕ, suc, ◌+◌, ◌≤◌, ◌<◌, ℤ, pos, length, take, drop, get_or};
ghost use Rattle.words.specs.Limits.{largest, entries, widest};
ghost use Rattle.words.specs.Lists.{◌∈◌};
ghost use Rattle.words.specs.Literals.{variable, complement};
ghost use Rattle.marks.specs.Marks.{marked, Marks};
ghost use Rattle.aspif.specs.Rules.{InputRule, expand};
ghost use Rattle.aspif.specs.Tables.{rules_at};
ghost use Rattle.text.specs.declared.Letter.TheVariants.{Loop};
ghost use Rattle.nogoods.specs.Store.{Stored};
ghost use Rattle.nogoods.specs.Index.{Keeps};
ghost use Rattle.names.specs.Queries.{HoldsRules, asked_names};
ghost use Rattle.names.specs.declared.queries.Query.TheVariants.{External};
ghost use Rattle.heads.specs.Heads.{covered, Indexed, row_words};
ghost use Rattle.loops.specs.Relevance.{Relevant};
ghost use Rattle.steps.specs.Held.{PassedLine, Program, Tracked, Above, LoopNogood, LoopAdded, gathered, Stepping};

use crate::outcomes;
use drupe::ProofFault;
use names::queries;
use names::queries::Query;
use nogoods::store;

// One number of the nogood of an `l` step: h itself, or minus a name that is marked. How many literals there are then.
fn gather_one(h: i32, found: &[u8], v: usize, row: &mut [i32], count: usize) -> usize
    requires place { (1 ≤ v) × (v ≤ largest) × (count < v) × (entries ≤ length row.old) }
    ensures within { result ≤ v }
    ensures words { take result row.new
        ≡ take count row.old ++ gathered (marked found.now) h 1 v }
{
    if v == words::variable_of(h) {
        row[count] = h;
        return count + 1;
    }
    if marks::is_marked(found, v) {
        row[count] = words::complement_of(v as i32);
        return count + 1;
    }
    count
}

// The nogood of an `l` step, ascending by variable. How many literals it has. The loop ends where no name is marked any more.
fn gather(h: i32, found: &[u8], row: &mut [i32]) -> usize
    requires rows { (entries ≤ length row.old) × (length found.now ≡ entries) }
    requires first { variable h ≤ largest }
    ensures within { result ≤ largest }
    ensures words { take result row.new ≡ gathered (marked found.now) h largest 1 }
{
    let end = words::larger(words::extent(found), words::variable_of(h) + 1);
    let mut count = 0;
    for v in 1..end {
        count = gather_one(h, found, v, row, count);
    }
    count
}

// The nogood of an `l` step by all rules.
fn scan(
    table: &[i32],
    rules: usize,
    names: &[u16],
    bodies: &[i16],
    h: i32,
    inside: &[u8],
    row: &mut [i32],
) -> Option<usize>
    requires program { ((ws : List InputRule) × HoldsRules table.now rules ws) × (rules ≤ length names.now) }
    requires row { (length row.old ≡ suc entries) × (variable h ≤ largest) }
    ensures { (ws : List InputRule) (called : List ℤ → ℕ) → Above table.now rules names.now bodies.now h ws called
        → LoopNogood (asked_names External inside.now called (expand ws)) h row.new result }
{
    let mut found = [0u8; words::ENTRIES];
    queries::mark_names(
        table,
        rules,
        names,
        bodies,
        Query::External,
        inside,
        &mut found,
    );
    if marks::is_marked(&found, 0) {
        return None;
    }
    Some(gather(h, &found, row))
}

// The first atom and the complements of n names after it in the row.
fn complete(h: i32, row: &mut [i32], n: usize)
    requires row { (length row.old ≡ suc row_words) × (n ≤ row_words) }
    requires names { (x : ℤ) → x ∈ take n (drop 1 row.old) → variable x ≤ largest }
    ensures { take (n + 1) row.new ≡ h ∷ map complement (take n (drop 1 row.old)) }
{
    words::complement_all(&mut row[1..n + 1]);
    row[0] = h;
}

// The nogood of an `l` step by the index of the rules. Names are above all atoms.
fn look_up(
    table: &[i32],
    rules: usize,
    lookup: &[u16],
    names: &[u16],
    bodies: &[i16],
    numbers: &[i32],
    inside: &[u8],
    row: &mut [i32],
) -> Option<usize>
    requires state { (ws : List InputRule) × (called : List ℤ → ℕ)
        × Above table.now rules names.now bodies.now (get_or numbers.now 0 (pos 0)) ws called }
    requires index { Indexed lookup.now table.now rules × (covered lookup.now ≡ true) }
    requires set { Marks inside.now (map variable numbers.now) × PassedLine Loop numbers.now }
    requires row { length row.old ≡ suc row_words }
    ensures { (ws : List InputRule) (called : List ℤ → ℕ)
        → Above table.now rules names.now bodies.now (get_or numbers.now 0 (pos 0)) ws called
        → LoopNogood (asked_names External inside.now called (expand ws)) (get_or numbers.now 0 (pos 0)) row.new result }
{
    let n = heads::external_names(table, rules, names, lookup, numbers, inside, &mut row[1..])?;
    complete(numbers[0], row, n);
    Some(n + 1)
}

// The nogood that was found is live, after the others; or some external body has no name.
fn add_found(
    found: Option<usize>,
    row: &[i32],
    store: &mut [i32],
    used: usize,
    index: &mut [u32],
    origin: usize,
) -> Result<usize, ProofFault>
    requires found { (l : List ℕ) × (h : ℤ) × LoopNogood l h row.now found }
    requires store { ((stored : List Stored) × Keeps store.old index.old used stored) × ((1 ≤ origin) × (origin ≤ widest)) }
    ensures { (l : List ℕ) (h : ℤ) → LoopNogood l h row.now found
        → (stored : List Stored) → Keeps store.old index.old used stored
        → LoopAdded l h (length store.old) origin stored store.new index.new result }
{
    match found {
        None => Err(ProofFault::UnnamedBody),
        Some(n) => { outcomes::fitted(store::append(store, used, index, origin, &row[..n])) }
    }
}

// The nogood of an `l` step by the index of the rules is live, after the others. A row for as many names as there are rules is enough.
fn add_by_index(
    table: &[i32],
    rules: usize,
    lookup: &[u16],
    names: &[u16],
    bodies: &[i16],
    numbers: &[i32],
    inside: &[u8],
    store: &mut [i32],
    used: usize,
    index: &mut [u32],
    origin: usize,
) -> Result<usize, ProofFault>
    requires state { (ws : List InputRule) × (called : List ℤ → ℕ)
        × Above table.now rules names.now bodies.now (get_or numbers.now 0 (pos 0)) ws called }
    requires index { Indexed lookup.now table.now rules × (covered lookup.now ≡ true) }
    requires set { Marks inside.now (map variable numbers.now) × PassedLine Loop numbers.now }
    requires store { ((stored : List Stored) × Keeps store.old index.old used stored) × ((1 ≤ origin) × (origin ≤ widest)) }
    ensures { (ws : List InputRule) (called : List ℤ → ℕ)
        → Above table.now rules names.now bodies.now (get_or numbers.now 0 (pos 0)) ws called
        → (stored : List Stored) → Keeps store.old index.old used stored
        → LoopAdded (asked_names External inside.now called (expand ws)) (get_or numbers.now 0 (pos 0))
        (length store.old) origin stored store.new index.new result }
{
    let mut row = [0i32; heads::ROW_WORDS + 1];
    let found = look_up(
        table, rules, lookup, names, bodies, numbers, inside, &mut row,
    );
    add_found(found, &row, store, used, index, origin)
}

// The nogood of an `l` step by all rules is live, after the others.
fn add_by_rules(
    table: &[i32],
    rules: usize,
    names: &[u16],
    bodies: &[i16],
    h: i32,
    inside: &[u8],
    store: &mut [i32],
    used: usize,
    index: &mut [u32],
    origin: usize,
) -> Result<usize, ProofFault>
    requires state { ((ws : List InputRule) × (called : List ℤ → ℕ) × Above table.now rules names.now bodies.now h ws called)
        × (rules ≤ length names.now) × (variable h ≤ largest) }
    requires store { ((stored : List Stored) × Keeps store.old index.old used stored) × ((1 ≤ origin) × (origin ≤ widest)) }
    ensures { (ws : List InputRule) (called : List ℤ → ℕ)
        → Above table.now rules names.now bodies.now h ws called
        → (stored : List Stored) → Keeps store.old index.old used stored
        → LoopAdded (asked_names External inside.now called (expand ws)) h
        (length store.old) origin stored store.new index.new result }
{
    let mut row = [0i32; words::ENTRIES + 1];
    let found = scan(table, rules, names, bodies, h, inside, &mut row);
    add_found(found, &row, store, used, index, origin)
}

// The nogood of an `l` step is live, after the others; or some external body has no name.
fn add_nogood(
    table: &[i32],
    rules: usize,
    lookup: &[u16],
    names: &[u16],
    bodies: &[i16],
    numbers: &[i32],
    inside: &[u8],
    store: &mut [i32],
    used: usize,
    index: &mut [u32],
    origin: usize,
) -> Result<usize, ProofFault>
    requires state { (ws : List InputRule) × (called : List ℤ → ℕ)
        × Above table.now rules names.now bodies.now (get_or numbers.now 0 (pos 0)) ws called }
    requires index { Indexed lookup.now table.now rules }
    requires set { Marks inside.now (map variable numbers.now) × PassedLine Loop numbers.now }
    requires store { ((stored : List Stored) × Keeps store.old index.old used stored) × ((1 ≤ origin) × (origin ≤ widest)) }
    ensures { (ws : List InputRule) (called : List ℤ → ℕ)
        → Above table.now rules names.now bodies.now (get_or numbers.now 0 (pos 0)) ws called
        → (stored : List Stored) → Keeps store.old index.old used stored
        → LoopAdded (asked_names External inside.now called (expand ws)) (get_or numbers.now 0 (pos 0))
        (length store.old) origin stored store.new index.new result }
{
    if heads::is_covered(lookup) {
        return add_by_index(
            table, rules, lookup, names, bodies, numbers, inside, store, used, index, origin,
        );
    }
    add_by_rules(
        table, rules, names, bodies, numbers[0], inside, store, used, index, origin,
    )
}

// `l`: a set U of atoms that is a loop; `relevant` says which literals of weight bodies have edges. Adds the first of them with
// minus the name of each external body, that is of a rule with a head in U and no positive atom in U.
pub fn loops(
    table: &[i32],
    rules: usize,
    lookup: &[u16],
    relevant: &[u8],
    atoms: usize,
    known: &[u8],
    names: &[u16],
    bodies: &[i16],
    store: &mut [i32],
    used: usize,
    index: &mut [u32],
    origin: usize,
    numbers: &[i32],
) -> Result<usize, ProofFault>
    requires state { Tracked table.now rules atoms known.now names.now bodies.now }
    requires index { Indexed lookup.now table.now rules }
    requires relevant { Relevant relevant.now (rules_at rules table.now) }
    requires store { ((stored : List Stored) × Keeps store.old index.old used stored) × ((1 ≤ origin) × (origin ≤ widest)) }
    requires line { PassedLine Loop numbers.now }
    ensures { (ws : List InputRule) → Program table.now rules atoms ws
        → Stepping atoms ws Loop numbers.now used origin
        known.now names.now bodies.now store.old index.old
        known.now names.now bodies.now store.new index.new result }
{
    if !marks::all_marked(numbers, known) {
        return Err(ProofFault::UnknownVariable);
    }
    if atoms < words::largest_variable(numbers) {
        return Err(ProofFault::NoAtoms);
    }
    if !loops::is_loop(table, rules, lookup, relevant, numbers) {
        return Err(ProofFault::NoLoop);
    }
    let inside = marks::marks_of(numbers);
    add_nogood(
        table, rules, lookup, names, bodies, numbers, &inside, store, used, index, origin,
    )
}
