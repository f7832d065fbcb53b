// Two halves of a split, as texts, into one proof text: document 02, Change 9. The public service is `merge_halves`; what it leaves is
// specs/Service.antt.
#![tactic(auto)]

pub mod halves;
mod tables;
pub mod texts;

ghost use Rattle.std.specs.Prelude.{◌≡◌, List, ◌++◌, ℕ, ◌+◌, ◌-◌, ◌≤◌, ◌<◌, pos, length, replicate, Err};
ghost use Rattle.words.specs.Limits.{longest, most_rules, most_held};
ghost use Rattle.aspif.specs.Rules.{InputRule, program_words, table_words};
ghost use Rattle.aspif.specs.Reading.{program};
ghost use Rattle.aspif.specs.Tables.{rules_at};
ghost use Rattle.steps.specs.Held.{Program};
ghost use Rattle.splits.specs.Service.{leaves_nothing, merged_reading, MergedHalves};
ghost use Rattle.splits.specs.Halves.{most_words};
ghost use Rattle.splits.specs.Joined.{WrittenBy};
ghost use Rattle.splits.specs.Judging.{judged_as};
ghost use Rattle.aspif.specs.declared.Refusal.TheVariants.{Service};

use aspif::{ProgramCounts, Refusal};
use checker::judging;

// What is wrong with what is to be merged, by the first question that it fails; the last is asked of a tree alone.
// `u8::from` gives the question's number.
#[derive(Clone, Copy, PartialEq, Eq)]
pub enum MergeFault {
    NotAccepted,
    NotWritable,
    StoreFull,
    NoTree,
}

impl From<MergeFault> for u8 {
    ghost use Rattle.splits.specs.Numbers.{number_of};

    ghost from_gives = { λ fault number. number ≡ number_of fault };

    fn from(fault: MergeFault) -> u8 {
        match fault {
            MergeFault::NotAccepted => 57,
            MergeFault::NotWritable => 58,
            MergeFault::StoreFull => 59,
            MergeFault::NoTree => 64,
        }
    }
}

// Nothing stays of what is refused.
pub fn refuse(
    table: &mut [i32],
    store: &mut [i32],
    output: &mut [u8],
    fault: MergeFault,
) -> Result<usize, Refusal<MergeFault>>
    ensures { record { answer = result; table = table.new; store = store.new; output = output.new }
        ≡ leaves_nothing (length table.old) (length store.old) (length output.old) (Err (Service fault)) }
{
    words::zero_all(table);
    words::zero_all(store);
    words::zero_all(output);
    Err(Refusal::Service(fault))
}

// 59: the check of the merged text, which is the output's first n bytes.
fn judge(
    table: &mut [i32],
    rules: usize,
    atoms: usize,
    store: &mut [i32],
    output: &mut [u8],
    n: usize,
) -> Result<usize, Refusal<MergeFault>>
    requires program { ((ws : List InputRule) × Program table.old rules atoms ws) × (rules ≤ most_rules) }
    requires empty { store.old ≡ replicate (length store.old) (pos 0) }
    requires text { n ≤ length output.old }
    ensures { (ws : List InputRule) (text : List ℕ) → Program table.old rules atoms ws
        → table.old ≡ table_words (length table.old) ws
        → n ≡ length text → output.old ≡ text ++ replicate (length output.old - n) 0
        → record { answer = result; table = table.new; store = store.new; output = output.new }
        ≡ judged_as (length table.old) (length store.old) (length output.old) ws text }
{
    let verdict = judging::check_proof(&output[..n], table, atoms, rules, store);
    if judging::is_inconsistent(verdict) {
        return Ok(n);
    }
    refuse(table, store, output, MergeFault::StoreFull)
}

// 57 and 58, for a program without weight bodies or with some.
pub fn write(
    first: &[u8],
    second: &[u8],
    table: &[i32],
    rules: usize,
    atoms: usize,
    v: usize,
    store: &mut [i32],
    output: &mut [u8],
) -> Result<usize, MergeFault>
    requires program { ((ws : List InputRule) × Program table.now rules atoms ws) × (rules < most_held) }
    requires short { length (program_words (rules_at rules table.now)) + 5 ≤ most_words }
    requires empty { (store.old ≡ replicate (length store.old) (pos 0)) × (output.old ≡ replicate (length output.old) 0) }
    ensures empty { store.new ≡ replicate (length store.old) (pos 0) }
    ensures written { (ws : List InputRule) → Program table.now rules atoms ws
        → WrittenBy (length store.old) ws v first.now second.now output.new result }
{
    if aspif::tables::all_plain(table, rules) {
        return texts::write_plain(first, second, table, rules, atoms, v, store, output);
    }
    texts::write_weighted(first, second, table, rules, atoms, v, store, output)
}

// The merge for a program that was read into the table. Store and output are 0 throughout.
fn merge_read(
    first: &[u8],
    second: &[u8],
    table: &mut [i32],
    rules: usize,
    atoms: usize,
    v: usize,
    store: &mut [i32],
    output: &mut [u8],
) -> Result<usize, Refusal<MergeFault>>
    requires program { ((ws : List InputRule) × Program table.old rules atoms ws) × (rules ≤ most_rules) }
    requires short { length (program_words (rules_at rules table.old)) ≤ longest }
    requires empty { (store.old ≡ replicate (length store.old) (pos 0)) × (output.old ≡ replicate (length output.old) 0) }
    ensures { (ws : List InputRule) → Program table.old rules atoms ws
        → table.old ≡ table_words (length table.old) ws
        → record { answer = result; table = table.new; store = store.new; output = output.new }
        ≡ merged_reading (length table.old) (length store.old) (length output.old) v
        first.now second.now (program ws) }
{
    let written = write(first, second, table, rules, atoms, v, store, output);
    match written {
        Err(fault) => refuse(table, store, output, fault),
        Ok(n) => judge(table, rules, atoms, store, output, n),
    }
}

// Writes one proof text for a program from the proofs of its two halves: the program with a constraint that demands the atom, and with one
// that forbids it. The table then holds the program's rules, and the store is as the check of the text written leaves it; table, store and
// output are 0 throughout where anything is refused.
pub fn merge_halves(
    program: &[u8],
    atom: usize,
    first: &[u8],
    second: &[u8],
    table: &mut [i32],
    store: &mut [i32],
    output: &mut [u8],
) -> Result<usize, Refusal<MergeFault>>
    ensures { MergedHalves program.now atom first.now second.now table.old store.old
        table.new store.new output.old output.new result }
{
    words::zero_all(store);
    words::zero_all(output);
    let ProgramCounts { atoms, rules } = aspif::read_program(program, table)?;
    merge_read(first, second, table, rules, atoms, atom, store, output)
}
