// A tree of splits, with proof texts at its ends, into one proof text: document 02, Change 14. The public service is `merge_tree`; what
// it leaves is specs/Service.antt. Recursion goes over the tree, with the remaining depth falling from six: in crate shapes, which decides 64
// before any end is read, and in sides.rt.
#![tactic(auto)]

mod sides;

ghost use Rattle.std.specs.Prelude.{◌≡◌, List, [], ◌≤◌, pos, length, replicate};
ghost use Rattle.words.specs.Limits.{longest, most_rules};
ghost use Rattle.aspif.specs.Rules.{InputRule, program_words, table_words};
ghost use Rattle.aspif.specs.Reading.{program};
ghost use Rattle.aspif.specs.Tables.{rules_at};
ghost use Rattle.steps.specs.Held.{Program};
ghost use Rattle.shapes.specs.Tree.{Shape, ends, most_splits};
ghost use Rattle.trees.specs.Service.{tree_outcome, written_tree, tree_reading, MergedTree};
ghost use Rattle.trees.specs.Sides.{Subtree, pending};

use crate::sides::Place;
use aspif::{ProgramCounts, Refusal};
use checker::judging;
use splits::MergeFault;
use splits::halves::WIDE;
use words::LONGEST;

// The last check, that of the text with the lent table and store, which fails the question given. 58 of a root end comes
// after it.
fn write_out(
    text: &[u8],
    fault: MergeFault,
    table: &mut [i32],
    rules: usize,
    atoms: usize,
    store: &mut [i32],
    output: &mut [u8],
) -> Result<usize, Refusal<MergeFault>>
    requires program { ((ws : List InputRule) × Program table.old rules atoms ws) × (rules ≤ most_rules) }
    requires empty { (store.old ≡ replicate (length store.old) (pos 0)) × (output.old ≡ replicate (length output.old) 0) }
    requires text { length text.now ≤ longest }
    ensures { (ws : List InputRule) → Program table.old rules atoms ws
        → table.old ≡ table_words (length table.old) ws
        → record { answer = result; table = table.new; store = store.new; output = output.new }
        ≡ written_tree (length table.old) (length store.old) (length output.old) ws
        (pending (length store.old) ws text.now fault) }
{
    let verdict = judging::check_proof(text, table, atoms, rules, store);
    if !judging::is_inconsistent(verdict) {
        return splits::refuse(table, store, output, fault);
    }
    if output.len() < text.len() {
        return splits::refuse(table, store, output, MergeFault::NotWritable);
    }
    let n = text::writing::put_bytes(output, 0, text);
    Ok(n)
}

// The merge of a tree with its ends, once 64 is passed. The constraints stand behind the program's words in a wider table.
fn merge_whole(
    tree: &[u16],
    texts: &[u8],
    lengths: &[u64],
    table: &mut [i32],
    rules: usize,
    atoms: usize,
    store: &mut [i32],
    output: &mut [u8],
) -> Result<usize, Refusal<MergeFault>>
    requires program { ((ws : List InputRule) × Program table.old rules atoms ws) × (rules ≤ most_rules) }
    requires short { length (program_words (rules_at rules table.old)) ≤ longest }
    requires tree { (t : Shape) × Subtree most_splits atoms tree.now texts.now lengths.now t [] }
    requires empty { (store.old ≡ replicate (length store.old) (pos 0)) × (output.old ≡ replicate (length output.old) 0) }
    ensures { (ws : List InputRule) → Program table.old rules atoms ws
        → table.old ≡ table_words (length table.old) ws
        → (t : Shape) → Subtree most_splits atoms tree.now texts.now lengths.now t []
        → record { answer = result; table = table.new; store = store.new; output = output.new }
        ≡ written_tree (length table.old) (length store.old) (length output.old) ws
        (tree_outcome (length store.old) (length output.old) ws t (ends texts.now lengths.now)) }
{
    let mut wide = [0i32; WIDE];
    let used = aspif::tables::words_used(table, rules);
    words::copy(&mut wide, &table[..used]);
    let mut whole = [0u8; LONGEST];
    let place = Place {
        depth: shapes::MOST_SPLITS,
        used,
        rules,
        atoms,
        limit: output.len(),
    };
    match sides::merge_side(place, tree, texts, lengths, &mut wide, store, &mut whole) {
        Err(fault) => splits::refuse(table, store, output, fault),
        Ok(pending) => {
            let size = pending.size;
            write_out(
                &whole[..size],
                pending.refusal,
                table,
                rules,
                atoms,
                store,
                output,
            )
        }
    }
}

// The merge for a program that was read into the table. Store and output are 0 throughout.
fn merge_read(
    tree: &[u16],
    texts: &[u8],
    lengths: &[u64],
    table: &mut [i32],
    rules: usize,
    atoms: usize,
    store: &mut [i32],
    output: &mut [u8],
) -> Result<usize, Refusal<MergeFault>>
    requires program { ((ws : List InputRule) × Program table.old rules atoms ws) × (rules ≤ most_rules) }
    requires short { length (program_words (rules_at rules table.old)) ≤ longest }
    requires empty { (store.old ≡ replicate (length store.old) (pos 0)) × (output.old ≡ replicate (length output.old) 0) }
    ensures { (ws : List InputRule) → Program table.old rules atoms ws
        → table.old ≡ table_words (length table.old) ws
        → record { answer = result; table = table.new; store = store.new; output = output.new }
        ≡ tree_reading (length table.old) (length store.old) (length output.old) tree.now texts.now lengths.now (program ws) }
{
    if !shapes::is_tree(atoms, tree, texts.len(), lengths) {
        return splits::refuse(table, store, output, MergeFault::NoTree);
    }
    merge_whole(tree, texts, lengths, table, rules, atoms, store, output)
}

// Writes one proof text for a program from the proofs at the ends of a tree of splits, each for the program with the constraints on its
// path. The table then holds the program's rules, and the store is as the check of the text written leaves it; table, store and output
// are 0 throughout where anything is refused.
pub fn merge_tree(
    program: &[u8],
    tree: &[u16],
    texts: &[u8],
    lengths: &[u64],
    table: &mut [i32],
    store: &mut [i32],
    output: &mut [u8],
) -> Result<usize, Refusal<MergeFault>>
    ensures { MergedTree program.now tree.now texts.now lengths.now
        table.old store.old table.new store.new output.old output.new result }
{
    words::zero_all(store);
    words::zero_all(output);
    let ProgramCounts { atoms, rules } = aspif::read_program(program, table)?;
    merge_read(tree, texts, lengths, table, rules, atoms, store, output)
}
