// Trimmed proofs: document 02, Change 10. The public service is `trim_proof`; what it leaves is specs/Service.antt.
#![tactic(auto)]

mod trials;

ghost use Rattle.std.specs.Prelude.{◌≡◌, List, ◌≤◌, pos, length, replicate};
ghost use Rattle.words.specs.Limits.{most_rules};
ghost use Rattle.aspif.specs.Rules.{InputRule, table_words};
ghost use Rattle.aspif.specs.Reading.{program};
ghost use Rattle.steps.specs.Held.{Program};
ghost use Rattle.trimming.specs.Service.{trimmed_reading, TrimmedProof};

use aspif::{ProgramCounts, Refusal};
use checker::judging;

// Why a proof is not trimmed. `u8::from` gives the question's number.
#[derive(Clone, Copy, PartialEq, Eq)]
pub enum TrimFault {
    NotAccepted,
}

impl From<TrimFault> for u8 {
    ghost use Rattle.trimming.specs.Numbers.{number_of};

    ghost from_gives = { λ fault number. number ≡ number_of fault };

    fn from(fault: TrimFault) -> u8 {
        match fault {
            TrimFault::NotAccepted => 60,
        }
    }
}

// The trimming for a program that was read into the table. The store is 0 throughout.
fn trim_read(
    text: &mut [u8],
    table: &mut [i32],
    rules: usize,
    atoms: usize,
    store: &mut [i32],
) -> Result<usize, Refusal<TrimFault>>
    requires program { ((ws : List InputRule) × Program table.old rules atoms ws) × (rules ≤ most_rules) }
    requires empty { store.old ≡ replicate (length store.old) (pos 0) }
    ensures { (ws : List InputRule) → Program table.old rules atoms ws
        → table.old ≡ table_words (length table.old) ws
        → record { answer = result; text = text.new; table = table.new; store = store.new }
        ≡ trimmed_reading (length table.old) (length store.old) text.old (program ws) }
{
    if !judging::is_accepted(text, table, rules, atoms, store) {
        words::zero_all(table);
        return Err(Refusal::Service(TrimFault::NotAccepted));
    }
    let n = trials::passes(text, table, rules, atoms, store);
    words::zero_all(&mut text[n..]);
    judging::check_proof(&text[..n], table, atoms, rules, store);
    Ok(n)
}

// Leaves of a proof only what it needs: no step could go alone. The answer is the trimmed text's length. That text
// stands at the front of the lent text, with zero bytes after it; the table then holds the program's rules, and the
// store is as the check of the trimmed text leaves it. Where the program is refused, or the proof is not accepted,
// the text is untouched and table and store are 0 throughout.
pub fn trim_proof(
    program: &[u8],
    text: &mut [u8],
    table: &mut [i32],
    store: &mut [i32],
) -> Result<usize, Refusal<TrimFault>>
    ensures { TrimmedProof program.now text.old text.new table.old store.old
        table.new store.new result }
{
    words::zero_all(store);
    let ProgramCounts { atoms, rules } = aspif::read_program(program, table)?;
    trim_read(text, table, rules, atoms, store)
}
