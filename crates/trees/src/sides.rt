// The sides of a split, merged from the ends upward. A side's text stands in a buffer of its own, 65,535 bytes long, and the constraints on
// the path stand behind the program's words in one table. A side's text comes up unchecked: the merge of its split checks it as a half.
ghost use Rattle.std.specs.Prelude.{◌≡◌, true, cond, List, ◌++◌, ℕ, ◌+◌, ◌-◌, ◌≤◌, pos, neg_ℤ, length, replicate, take};
ghost use Rattle.words.specs.Limits.{largest, longest, most_held};
ghost use Rattle.words.specs.Literals.{complement};
ghost use Rattle.aspif.specs.Rules.{InputRule};
ghost use Rattle.derivation.specs.States.{is_atom};
ghost use Rattle.runs.specs.Course.{is_accepted};
ghost use Rattle.merging.specs.Claims.{demanding_as_written};
ghost use Rattle.splits.specs.Halves.{most_words, demand_words};
ghost use Rattle.shapes.specs.Tree.{Shape, sum};
ghost use Rattle.trees.specs.Sides.{Standing, place_below, Countable, both_taken, Subtree, EndTaken, pending, joined_sides, side_of, Adds, AddsTo, Joinable, Merged};

use checker::judging;
use splits::MergeFault;
use words::LONGEST;

// Where a side stands: the splits that are left below it, the words and rules of the program with the constraints so far, its atoms, and
// the length that every merge is held to.
#[derive(Clone, Copy)]
pub struct Place {
    pub depth: usize,
    pub used: usize,
    pub rules: usize,
    pub atoms: usize,
    pub limit: usize,
}

// A side's text, which is still to be checked: its bytes, which stand in a buffer, the question that it fails if it is
// not accepted, and how many of the numbers, of the texts' bytes and of the lengths the side takes.
#[derive(Drop)]
pub struct Pending {
    pub size: usize,
    pub refusal: MergeFault,
    pub numbers: usize,
    pub bytes: usize,
    pub ends: usize,
}

// An end's text; one that is too long is not accepted.
fn take_end(texts: &[u8], lengths: &[u64], output: &mut [u8]) -> Result<Pending, MergeFault>
    requires ends { (1 ≤ length lengths.now) × (sum lengths.now ≡ length texts.now) }
    requires room { length output.old ≡ longest }
    ensures { EndTaken texts.now lengths.now output.new result }
{
    let size = lengths[0] as usize;
    if LONGEST < size {
        return Err(MergeFault::NotAccepted);
    }
    text::writing::put_bytes(output, 0, &texts[..size]);
    Ok(Pending {
        size,
        refusal: MergeFault::NotAccepted,
        numbers: 1,
        bytes: size,
        ends: 1,
    })
}

// An atom as a literal.
fn literal_of(v: usize) -> i32
    requires { v ≤ largest }
    ensures { result ≡ pos v }
{
    v as i32
}

// The words of a constraint behind the program's, which have just the literal in its body, and 0 after them.
fn put_demand(table: &mut [i32], used: usize, literal: i32)
    requires { used + 5 ≤ length table.old }
    ensures { table.new ≡ (take used table.old ++ demand_words literal)
        ++ replicate (length table.old - used - 5) (pos 0) }
{
    words::zero_all(&mut table[used..]);
    let constraint = [0, 0, 0, 1, literal];
    words::copy(&mut table[used..], &constraint);
}

// The constraint that demands the atom.
fn demand_atom(table: &mut [i32], used: usize, v: usize)
    requires { (used + 5 ≤ length table.old) × (v ≤ largest) }
    ensures { table.new ≡ (take used table.old ++ demand_words (complement (pos v)))
        ++ replicate (length table.old - used - 5) (pos 0) }
{
    put_demand(table, used, words::complement_of(literal_of(v)));
}

// The constraint that forbids the atom.
fn forbid_atom(table: &mut [i32], used: usize, v: usize)
    requires { (used + 5 ≤ length table.old) × (v ≤ largest) }
    ensures { table.new ≡ (take used table.old ++ demand_words (pos v))
        ++ replicate (length table.old - used - 5) (pos 0) }
{
    put_demand(table, used, literal_of(v));
}

// Which refusal comes first, of a split whose sides are not both accepted: the demanding side's, unless that is accepted.
fn first_refusal(
    place: Place,
    v: usize,
    first: &[u8],
    one: MergeFault,
    two: MergeFault,
    table: &mut [i32],
    store: &mut [i32],
) -> MergeFault
    requires place { (ws : List InputRule) × Standing 1 place table.old ws }
    requires atom { is_atom place.atoms v ≡ true }
    requires empty { store.old ≡ replicate (length store.old) (pos 0) }
    ensures empty { store.new ≡ replicate (length store.old) (pos 0) }
    ensures program { take place.used table.new ≡ take place.used table.old }
    ensures fault { (ws : List InputRule) → Standing 1 place table.old ws
        → result ≡ cond (is_accepted (length store.old) (demanding_as_written ws (pos v)) first.now) two one }
{
    demand_atom(table, place.used, v);
    if !judging::is_accepted(first, table, place.rules + 1, place.atoms, store) {
        return one;
    }
    two
}

// A merged text of so many bytes, with what both sides of its split take and the question that it may fail.
fn both(size: usize, one: Pending, two: Pending) -> Pending
    requires { Countable one two }
    ensures { result ≡ both_taken size one two }
{
    Pending {
        size,
        refusal: MergeFault::StoreFull,
        numbers: 1 + one.numbers + two.numbers,
        bytes: one.bytes + two.bytes,
        ends: one.ends + two.ends,
    }
}

// Two texts merged for the program with the constraints above them.
fn merge_texts(
    place: Place,
    v: usize,
    first: &[u8],
    one: Pending,
    second: &[u8],
    two: Pending,
    table: &mut [i32],
    store: &mut [i32],
    output: &mut [u8],
) -> Result<Pending, MergeFault>
    requires place { (ws : List InputRule) × Standing 1 place table.old ws }
    requires atom { is_atom place.atoms v ≡ true }
    requires counted { Countable one two }
    requires empty { store.old ≡ replicate (length store.old) (pos 0) }
    requires blank { output.old ≡ replicate longest 0 }
    ensures empty { store.new ≡ replicate (length store.old) (pos 0) }
    ensures program { take place.used table.new ≡ take place.used table.old }
    ensures side { (ws : List InputRule) → Standing 1 place table.old ws
        → joined_sides (length store.old) place.limit ws v
        (pending (length store.old) (demanding_as_written ws (pos v)) first.now one.refusal)
        (pending (length store.old) (demanding_as_written ws (neg_ℤ (pos v))) second.now two.refusal)
        ≡ side_of (length store.old) ws output.new result }
    ensures taken { Adds one two result }
{
    let used = place.used;
    words::zero_all(&mut table[used..]);
    match splits::write(
        first,
        second,
        table,
        place.rules,
        place.atoms,
        v,
        store,
        output,
    ) {
        Err(MergeFault::NotAccepted) => Err(first_refusal(
            place,
            v,
            first,
            one.refusal,
            two.refusal,
            table,
            store,
        )),
        Err(fault) => Err(fault),
        Ok(size) => {
            if place.limit < size {
                return Err(MergeFault::NotWritable);
            }
            Ok(both(size, one, two))
        }
    }
}

// The demanding side, which is a text, and what the other came to, joined.
fn join_sides(
    place: Place,
    v: usize,
    one: Pending,
    first: &[u8],
    other: Result<Pending, MergeFault>,
    second: &[u8],
    table: &mut [i32],
    store: &mut [i32],
    output: &mut [u8],
) -> Result<Pending, MergeFault>
    requires place { (ws : List InputRule) × Standing 1 place table.old ws }
    requires atom { is_atom place.atoms v ≡ true }
    requires texts { Joinable one other first.now second.now }
    requires empty { store.old ≡ replicate (length store.old) (pos 0) }
    requires blank { output.old ≡ replicate longest 0 }
    ensures empty { store.new ≡ replicate (length store.old) (pos 0) }
    ensures program { take place.used table.new ≡ take place.used table.old }
    ensures side { (ws : List InputRule) → Standing 1 place table.old ws
        → joined_sides (length store.old) place.limit ws v
        (pending (length store.old) (demanding_as_written ws (pos v)) (take one.size first.now) one.refusal)
        (side_of (length store.old) (demanding_as_written ws (neg_ℤ (pos v))) second.now other)
        ≡ side_of (length store.old) ws output.new result }
    ensures taken { AddsTo one other result }
{
    let size = one.size;
    match other {
        Err(fault) => Err(first_refusal(
            place,
            v,
            &first[..size],
            one.refusal,
            fault,
            table,
            store,
        )),
        Ok(two) => {
            let more = two.size;
            merge_texts(
                place,
                v,
                &first[..size],
                one,
                &second[..more],
                two,
                table,
                store,
                output,
            )
        }
    }
}

// The place of a split's sides, which have one constraint more and one split less below them.
fn below(place: Place) -> Place
    requires { (1 ≤ place.depth) × ((place.used ≤ most_words) × (place.rules ≤ most_held)) }
    ensures { result ≡ place_below place }
{
    Place {
        depth: place.depth - 1,
        used: place.used + 5,
        rules: place.rules + 1,
        atoms: place.atoms,
        limit: place.limit,
    }
}

// The text of the tree at the front of the numbers, from the ends at the front of the texts: the demanding side whole, then the other whole,
// then their merge.
pub fn merge_side(
    place: Place,
    tree: &[u16],
    texts: &[u8],
    lengths: &[u64],
    table: &mut [i32],
    store: &mut [i32],
    output: &mut [u8],
) -> Result<Pending, MergeFault>
    requires place { (ws : List InputRule) × Standing place.depth place table.old ws }
    requires tree { (t : Shape) × (rest : List ℕ) × Subtree place.depth place.atoms tree.now texts.now lengths.now t rest }
    requires empty { store.old ≡ replicate (length store.old) (pos 0) }
    requires blank { output.old ≡ replicate longest 0 }
    ensures empty { store.new ≡ replicate (length store.old) (pos 0) }
    ensures program { take place.used table.new ≡ take place.used table.old }
    ensures side { (ws : List InputRule) → Standing place.depth place table.old ws → (t : Shape) (rest : List ℕ)
        → Subtree place.depth place.atoms tree.now texts.now lengths.now t rest
        → Merged (length store.old) place.limit ws t rest tree.now texts.now lengths.now
        output.new result }
{
    if tree[0] == 0 {
        return take_end(texts, lengths, output);
    }
    let v = words::wide(tree[0]);
    let next = below(place);
    let mut first = [0u8; LONGEST];
    demand_atom(table, place.used, v);
    let one = merge_side(next, &tree[1..], texts, lengths, table, store, &mut first)?;
    let mut second = [0u8; LONGEST];
    forbid_atom(table, place.used, v);
    let numbers = 1 + one.numbers;
    let bytes = one.bytes;
    let ends = one.ends;
    let other = merge_side(
        next,
        &tree[numbers..],
        &texts[bytes..],
        &lengths[ends..],
        table,
        store,
        &mut second,
    );
    join_sides(place, v, one, &first, other, &second, table, store, output)
}
