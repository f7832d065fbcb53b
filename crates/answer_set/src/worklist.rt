// Which rule to give next on the way to the least model: a rule waits for a literal of its body that does not hold yet, and is looked at again
// when that one's atom is marked. Nothing is promised of the order but an end: every rule that is given is one of the table, and the
// rounds of `models::close` afterwards mark what may be missing, in general nothing.
//
// An entry stands for a rule, and with a weight body for one of its literals: the rule's number, from 1, and STRIDE more for each literal
// before that one. Entry 0 ends a list.
ghost use Rattle.std.specs.Prelude.{◌≡◌, true, ◌<◌, ◌≤◌, length, replicate};
ghost use Rattle.words.specs.Limits.{entries, most_rules};
ghost use Rattle.aspif.specs.Rules.{atoms};
ghost use Rattle.aspif.specs.Tables.{rules_at, sound_table};
ghost use Rattle.marks.specs.Marks.{marked};
ghost use Rattle.answer_set.specs.SetTest.{least};
ghost use Rattle.answer_set.specs.Private.{RuleStarts, Given};

use crate::models;
use aspif::tables::{self, Rule};

// With fewer rules the rounds alone are as quick.
const FEW: usize = 16;

const STRIDE: usize = words::MOST_RULES + 1;

// The cells: by atom, the first entry that waits for it; by entry, the next in its list; by rule, the place of the first
// body literal that may not hold, and with a weight body 0 at first, 1 once it waits and 2 once it is given. One array
// of numbers holds them all: an enum for a state, an Option for an entry would only be turned into numbers again.
const NEXT: usize = words::ENTRIES;

const SEEN: usize = NEXT + weights::MOST_WEIGHTED * STRIDE;

const CELLS: usize = SEEN + STRIDE;

// More than all looks: a plain rule has one for each body literal and one more, a rule with a weight body at most thirteen.
const MOST_LOOKS: usize = 131072;

// The cell at i, and 0 past the end.
fn get(cells: &[u16; CELLS], i: usize) -> usize
    ensures { result ≤ 65535 }
{
    match cells.get(i) {
        Some(c) => usize::from(*c),
        None => 0,
    }
}

// The cell at i becomes v, where both fit.
fn put(cells: &mut [u16; CELLS], i: usize, v: usize) {
    if let (Some(c), Ok(w)) = (cells.get_mut(i), u16::try_from(v)) {
        *c = w;
    }
}

// The entry waits for the literal, where that is an atom that is not marked. A negated literal that does not hold never will.
fn wait(word: i32, entry: usize, marks: &[u8], cells: &mut [u16; CELLS])
    requires { entry ≤ 65535 }
{
    let v = words::variable_of(word);
    if (0 < word) & !marks::is_marked(marks, v) {
        let first = get(cells, v);
        put(cells, NEXT + entry, first);
        put(cells, v, entry);
    }
}

// Whether a plain body holds; if not, its rule waits for the first literal that does not. Those before the place in the
// rule's cell hold.
fn plain_holds(
    body: &[i32],
    number: usize,
    inside: &[u8],
    marks: &[u8],
    cells: &mut [u16; CELLS],
) -> bool
    requires { number ≤ most_rules }
{
    let from = get(cells, SEEN + number);
    let open = (from..body.len()).find(|i| !models::literal_holds(body[*i], inside, marks));
    match open {
        Some(i) => {
            put(cells, SEEN + number, i);
            wait(body[i], number, marks, cells);
            false
        }
        None => true,
    }
}

// A rule with a weight body waits for each of its literals, once.
fn wait_once(pairs: &[i32], number: usize, marks: &[u8], cells: &mut [u16; CELLS])
    requires { number ≤ most_rules }
{
    if get(cells, SEEN + number) != 0 {
        return;
    }
    put(cells, SEEN + number, 1);
    for k in 0..weights::MOST_WEIGHTED {
        wait(
            words::word_at(pairs, 2 * k),
            number + STRIDE * k,
            marks,
            cells,
        );
    }
}

// Whether the weight body of the rule holds for the first time; if not, the rule waits.
fn weights_hold(
    rule: &Rule,
    number: usize,
    inside: &[u8],
    marks: &[u8],
    cells: &mut [u16; CELLS],
) -> bool
    requires { number ≤ most_rules }
{
    wait_once(rule.body(), number, marks, cells);
    if get(cells, SEEN + number) == 2 {
        return false;
    }
    if models::body_holds(rule, inside, marks) {
        put(cells, SEEN + number, 2);
        return true;
    }
    false
}

// Whether the rule is to be given; if not, it waits.
fn is_ready(
    rule: &Rule,
    number: usize,
    inside: &[u8],
    marks: &[u8],
    cells: &mut [u16; CELLS],
) -> bool
    requires { number ≤ most_rules }
{
    if rule.is_weighted() {
        return weights_hold(rule, number, inside, marks, cells);
    }
    plain_holds(rule.body(), number, inside, marks, cells)
}

// The last entry of the list that begins with one.
fn last_of(first: usize, cells: &[u16; CELLS]) -> usize
    requires { first ≤ 65535 }
    ensures { result ≤ 65535 }
{
    let mut at = first;
    for _ in 0..CELLS {
        let next = get(cells, NEXT + at);
        if next == 0 {
            return at;
        }
        at = next;
    }
    at
}

// What waits for a head that is marked is put before the work that is left. The first entry of all.
fn wake(head: i32, work: usize, marks: &[u8], cells: &mut [u16; CELLS]) -> usize
    requires { work ≤ 65535 }
    ensures { result ≤ 65535 }
{
    let v = words::variable_of(head);
    let first = get(cells, v);
    if (first == 0) | !marks::is_marked(marks, v) {
        return work;
    }
    let last = last_of(first, cells);
    put(cells, NEXT + last, work);
    put(cells, v, 0);
    first
}

// The same for every head.
fn wake_all(heads: &[i32], work: usize, marks: &[u8], cells: &mut [u16; CELLS]) -> usize
    requires { work ≤ 65535 }
    ensures { result ≤ 65535 }
{
    let mut first = work;
    for head in heads {
        first = wake(*head, first, marks, cells);
    }
    first
}

// A look at the rule of an entry, which is given if it is ready. The first entry of the work that is left.
fn look(
    table: &[i32],
    rules: usize,
    starts: &[usize; STRIDE],
    entry: usize,
    inside: &[u8],
    marks: &mut [u8],
    cells: &mut [u16; CELLS],
) -> usize
    requires rule_starts { RuleStarts table.now rules starts.now }
    requires bound { entry ≤ 65535 }
    ensures upper_bound { result ≤ 65535 }
    ensures given { Given (marked inside.now) (rules_at rules table.now) marks.old marks.new }
{
    let work = get(cells, NEXT + entry);
    let number = entry % STRIDE;
    let rule = Rule {
        words: &table[starts[number]..],
    };
    if is_ready(&rule, number, inside, marks, cells) {
        models::give_rule(&rule, inside, marks);
        return wake_all(rule.heads(), work, marks, cells);
    }
    work
}

// Where the rules begin: the table's first has the highest number, and its last the number 1.
fn starts_of(table: &[i32], rules: usize) -> [usize; STRIDE]
    requires rules_value { sound_table table.now rules ≡ true }
    requires rules_nonzero { 0 < rules }
    ensures { RuleStarts table.now rules result }
{
    let mut starts = [0usize; STRIDE];
    let mut start = 0;
    for (before, rule) in tables::rules_in(table, rules).enumerate() {
        starts[rules - before] = start;
        start += rule.size();
    }
    starts
}

// The rules, each once, as the work to begin with.
fn link_all(rules: usize, cells: &mut [u16; CELLS])
    requires { rules ≤ most_rules }
{
    for rule in 1..rules + 1 {
        put(cells, NEXT + rule, rule - 1);
    }
}

// Looks until no work is left.
fn work_off(
    table: &[i32],
    rules: usize,
    starts: &[usize; STRIDE],
    inside: &[u8],
    marks: &mut [u8],
    cells: &mut [u16; CELLS],
)
    requires rule_starts { RuleStarts table.now rules starts.now }
    requires rules_le_most_rules { rules ≤ most_rules }
    ensures { Given (marked inside.now) (rules_at rules table.now) marks.old marks.new }
{
    let mut entry = rules;
    for _ in 0..MOST_LOOKS {
        if entry == 0 {
            return;
        }
        entry = look(table, rules, starts, entry, inside, marks, cells);
    }
}

// Rules are given as long as the work list has one.
fn follow(table: &[i32], rules: usize, inside: &[u8], marks: &mut [u8])
    requires { sound_table table.now rules ≡ true }
    ensures { Given (marked inside.now) (rules_at rules table.now) marks.old marks.new }
{
    if rules < FEW {
        return;
    }
    let starts = starts_of(table, rules);
    let mut cells = [0u16; CELLS];
    link_all(rules, &mut cells);
    work_off(table, rules, &starts, inside, marks, &mut cells);
}

// The least model of the reduct by M, with atoms from 1 to the number given, where no mark stands yet.
pub fn mark_least(table: &[i32], rules: usize, most: usize, inside: &[u8], marks: &mut [u8])
    requires rules_value { sound_table table.now rules ≡ true }
    requires most_value { most ≡ atoms (rules_at rules table.now) }
    requires marks_len { (length marks.old ≡ entries) × (marks.old ≡ replicate (length marks.old) 0) }
    ensures { marks.new ≡ least (marked inside.now) (rules_at rules table.now) }
{
    follow(table, rules, inside, marks);
    models::close(table, rules, most, inside, marks);
}
