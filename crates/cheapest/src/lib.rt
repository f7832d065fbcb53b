// The cheapest answer set: a set with its cost, and a proof that no answer set costs less. The public service is
// `check_cheapest`; what it means is specs/Service.antt.
#![tactic(auto)]

mod lists;
mod restricted;

ghost use Rattle.std.specs.Prelude.{◌≡◌, Err, true, List, ℕ, ◌+◌, ◌*◌, ◌≤◌, pos, length, replicate};
ghost use Rattle.std.proofs.Math.Option.{some};
ghost use Rattle.words.specs.Limits.{largest, longest, most_rules};
ghost use Rattle.words.specs.Lists.{ascends};
ghost use Rattle.words.specs.Literals.{ascending};
ghost use Rattle.weights.specs.Weights.{literals, paired, most_weight, most_weighted};
ghost use Rattle.aspif.specs.Rules.{InputRule, atoms, program_words, table_words};
ghost use Rattle.aspif.specs.Reading.{all_weights, program};
ghost use Rattle.aspif.specs.Tables.{rules_at, rules_of};
ghost use Rattle.marks.specs.Marks.{listed};
ghost use Rattle.answer_set.specs.SetTest.{verdict_of};
ghost use Rattle.steps.specs.Held.{Program};
ghost use Rattle.costs.specs.Costs.{costs_of, good_costs, total};
ghost use Rattle.cheapest.specs.Service.{is_yes, restricted_course, leaves_nothing, judged_proof, with_cost, with_costs, cheapest_reading, CheckedCheapest};
ghost use Rattle.cheapest.specs.Private.{said_yes};
ghost use Rattle.aspif.specs.declared.Refusal.TheVariants.{Service};

use answer_set::{SetAnswer, SetFault, models};
use aspif::{ProgramCounts, Refusal};
use weights::{MOST_WEIGHT, MOST_WEIGHTED};
use words::ENTRIES;

// Why a set is not certified, by the first question that fails. `u8::from` gives the question's number.
#[derive(Clone, Copy, PartialEq, Eq)]
pub enum CheapestFault {
    WrongSet,
    WrongCosts,
    NotCertified,
}

impl From<CheapestFault> for u8 {
    ghost use Rattle.cheapest.specs.Numbers.{number_of};

    ghost from_gives = { λ fault number. number ≡ number_of fault };

    fn from(fault: CheapestFault) -> u8 {
        match fault {
            CheapestFault::WrongSet => 42,
            CheapestFault::WrongCosts => 62,
            CheapestFault::NotCertified => 63,
        }
    }
}

// A literal and a cost for each pair.
const COST_WORDS: usize = 2 * MOST_WEIGHTED;

// Nothing stays of what is refused.
fn refuse(
    table: &mut [i32],
    store: &mut [i32],
    fault: CheapestFault,
) -> Result<usize, Refusal<CheapestFault>>
    ensures { record { answer = result; table = table.new; store = store.new }
        ≡ leaves_nothing (length table.old) (length store.old) (Err (Service fault)) }
{
    words::zero_all(table);
    words::zero_all(store);
    Err(Refusal::Service(fault))
}

fn said_yes(answer: Result<SetAnswer, SetFault>) -> bool
    ensures { result ≡ said_yes answer }
{
    answer == Ok(SetAnswer::Yes)
}

// The set is an answer set of the program in the table, of a set that question 42 lets pass.
fn is_answer_set(table: &[i32], rules: usize, set: &[u16]) -> bool
    ensures { (ws : List InputRule) → rules_of table.now rules ≡ some ws → ascends 0 (atoms ws) set.now ≡ true
        → result ≡ is_yes (verdict_of (listed set.now) ws) }
{
    let mut marks = [0u8; ENTRIES];
    let answer = answer_set::test_set(table, rules, set, &mut marks);
    said_yes(answer)
}

// What the set costs.
fn cost_of(set: &[u16], pairs: &[i32]) -> usize
    requires { (all_weights pairs.now ≡ true) × (length pairs.now ≤ 2 * most_weighted) }
    ensures { (N : ℕ) → N ≤ largest → ascends 0 N set.now ≡ true
        → result ≡ total (listed set.now) (paired pairs.now) }
{
    let mut inside = [0u8; ENTRIES];
    marks::mark_all(set, &mut inside);
    models::sum_held(pairs, &inside, &inside)
}

// 63 of the proof, for the program restricted to less than the cost, which is above 0. The pairs' literals stand
// sorted beside them.
fn judge_proof(
    proof: &[u8],
    pairs: &[i32],
    sorted: &[i32],
    cost: usize,
    table: &mut [i32],
    rules: usize,
    atoms: usize,
    store: &mut [i32],
) -> Result<usize, Refusal<CheapestFault>>
    requires program { ((ws : List InputRule) × Program table.old rules atoms ws) × (rules ≤ most_rules) }
    requires short { length (program_words (rules_at rules table.old)) ≤ longest }
    requires pairs { (all_weights pairs.now ≡ true) × (good_costs atoms (paired pairs.now) ≡ true) }
    requires sorted { sorted.now ≡ ascending (literals (paired pairs.now)) }
    requires cost { cost ≤ most_weight }
    requires empty { store.old ≡ replicate (length store.old) (pos 0) }
    ensures { (ws : List InputRule) → Program table.old rules atoms ws
        → table.old ≡ table_words (length table.old) ws
        → record { answer = result; table = table.new; store = store.new }
        ≡ judged_proof (length table.old) (length store.old) ws cost
        (restricted_course (length store.old) ws (paired pairs.now) cost proof.now) }
{
    let mut row = [0i32; restricted::RULE];
    restricted::write_restriction(&mut row, pairs, sorted, cost);
    let size = 5 + 2 * sorted.len();
    if restricted::accepts(&row[..size], proof, table, rules, atoms, store) {
        return Ok(cost);
    }
    refuse(table, store, CheapestFault::NotCertified)
}

// 62 of the set's cost, 63 of the set, and 63 of the proof, for costs that are good.
fn judge_set(
    set: &[u16],
    proof: &[u8],
    pairs: &[i32],
    sorted: &[i32],
    table: &mut [i32],
    rules: usize,
    atoms: usize,
    store: &mut [i32],
) -> Result<usize, Refusal<CheapestFault>>
    requires program { ((ws : List InputRule) × Program table.old rules atoms ws) × (rules ≤ most_rules) }
    requires short { length (program_words (rules_at rules table.old)) ≤ longest }
    requires pairs { (all_weights pairs.now ≡ true) × (good_costs atoms (paired pairs.now) ≡ true) }
    requires sorted { sorted.now ≡ ascending (literals (paired pairs.now)) }
    requires set { ascends 0 atoms set.now ≡ true }
    requires empty { store.old ≡ replicate (length store.old) (pos 0) }
    ensures { (ws : List InputRule) → Program table.old rules atoms ws
        → table.old ≡ table_words (length table.old) ws
        → record { answer = result; table = table.new; store = store.new }
        ≡ with_cost (length table.old) (length store.old) ws set.now (paired pairs.now)
        (total (listed set.now) (paired pairs.now)) proof.now }
{
    let cost = cost_of(set, pairs);
    if MOST_WEIGHT < cost {
        return refuse(table, store, CheapestFault::WrongCosts);
    }
    if !is_answer_set(table, rules, set) {
        return refuse(table, store, CheapestFault::NotCertified);
    }
    if cost == 0 {
        return Ok(0);
    }
    judge_proof(proof, pairs, sorted, cost, table, rules, atoms, store)
}

// 62 of the list, whose literals are put beside it and sorted there, and what comes after.
fn judge_list(
    set: &[u16],
    proof: &[u8],
    pairs: &[i32],
    row: &mut [i32],
    table: &mut [i32],
    rules: usize,
    atoms: usize,
    store: &mut [i32],
) -> Result<usize, Refusal<CheapestFault>>
    requires program { ((ws : List InputRule) × Program table.old rules atoms ws) × (rules ≤ most_rules) }
    requires short { length (program_words (rules_at rules table.old)) ≤ longest }
    requires row { (2 * length row.old ≤ length pairs.now) × (length pairs.now ≤ 2 * length row.old + 1)
        × (length row.old ≤ most_weighted) }
    requires set { ascends 0 atoms set.now ≡ true }
    requires empty { store.old ≡ replicate (length store.old) (pos 0) }
    ensures { (ws : List InputRule) → Program table.old rules atoms ws
        → table.old ≡ table_words (length table.old) ws
        → record { answer = result; table = table.new; store = store.new }
        ≡ with_costs (length table.old) (length store.old) ws set.now (costs_of pairs.now)
        proof.now }
{
    if !aspif::tables::all_weights(pairs) {
        return refuse(table, store, CheapestFault::WrongCosts);
    }
    if !lists::is_good(pairs, row, atoms) {
        return refuse(table, store, CheapestFault::WrongCosts);
    }
    judge_set(set, proof, pairs, row, table, rules, atoms, store)
}

// The verdict for a program that was read into the table: 42, and the costs as words. The store is 0 throughout.
fn cheapest_read(
    set: &[u16],
    costs: &[i16],
    proof: &[u8],
    table: &mut [i32],
    rules: usize,
    atoms: usize,
    store: &mut [i32],
) -> Result<usize, Refusal<CheapestFault>>
    requires program { ((ws : List InputRule) × Program table.old rules atoms ws) × (rules ≤ most_rules) }
    requires short { length (program_words (rules_at rules table.old)) ≤ longest }
    requires empty { store.old ≡ replicate (length store.old) (pos 0) }
    ensures { (ws : List InputRule) → Program table.old rules atoms ws
        → table.old ≡ table_words (length table.old) ws
        → record { answer = result; table = table.new; store = store.new }
        ≡ cheapest_reading (length table.old) (length store.old) set.now costs.now
        proof.now (program ws) }
{
    if !marks::ascends_within(set, atoms) {
        return refuse(table, store, CheapestFault::WrongSet);
    }
    let n = costs.len();
    if COST_WORDS < n {
        return refuse(table, store, CheapestFault::WrongCosts);
    }
    let mut pairs = [0i32; COST_WORDS];
    let mut row = [0i32; MOST_WEIGHTED];
    words::widen(costs, &mut pairs);
    let half = n / 2;
    judge_list(
        set,
        proof,
        &pairs[..n],
        &mut row[..half],
        table,
        rules,
        atoms,
        store,
    )
}

// Certifies a cheapest answer set: the set is an answer set of the program, and the proof shows that none costs less.
// The answer is the set's cost. The table then holds the program's rules, and the store is as the check of the proof
// for the restricted program leaves it, 0 throughout where the set costs nothing; both are 0 throughout where
// anything is refused.
pub fn check_cheapest(
    program: &[u8],
    set: &[u16],
    costs: &[i16],
    proof: &[u8],
    table: &mut [i32],
    store: &mut [i32],
) -> Result<usize, Refusal<CheapestFault>>
    ensures { CheckedCheapest program.now set.now costs.now proof.now table.old
        store.old table.new store.new result }
{
    words::zero_all(store);
    let ProgramCounts { atoms, rules } = aspif::read_program(program, table)?;
    cheapest_read(set, costs, proof, table, rules, atoms, store)
}
