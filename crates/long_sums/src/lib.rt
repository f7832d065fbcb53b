// A program text whose long sums are split into short ones. The service is `split_sums`; what it writes is
// specs/Service.antt, and that it keeps the answer sets is proved in crate sums.
#![tactic(auto)]

mod ordering;
mod program;
mod rules;

ghost use Rattle.std.specs.Prelude.{◌≡◌, ◌&&◌, List, ℕ, suc, ◌≤◌, leb, length, Err};
ghost use Rattle.words.specs.Limits.{largest, longest, most_rules};
ghost use Rattle.aspif.specs.Rules.{InputRule, atoms, table_words};
ghost use Rattle.aspif.specs.Reading.{program};
ghost use Rattle.aspif.specs.Tables.{rules_at};
ghost use Rattle.long_sums.specs.Program.{ProgramWritten, ReadLong};
ghost use Rattle.long_sums.specs.Service.{zeroed, split_to, split_reading, SplitSums};

use aspif::{ProgramCounts, Refusal};
use joins::chains::Numbered;
use weights::MOST_WEIGHTED;
use words::{ENTRIES, LONGEST, MOST_LITERALS, MOST_RULES};

// Why a program is not split, by the question that fails. `u8::from` gives the question's number.
#[derive(Clone, Copy, PartialEq, Eq)]
pub enum SplitFault {
    WrongGroupSize,
    TooLarge,
}

impl From<SplitFault> for u8 {
    ghost use Rattle.long_sums.specs.Numbers.{number_of};

    ghost from_gives = { λ fault number. number ≡ number_of fault };

    fn from(fault: SplitFault) -> u8 {
        match fault {
            SplitFault::WrongGroupSize => 65,
            SplitFault::TooLarge => 66,
        }
    }
}

// How many bytes are written, the atoms and the rules of the split program, and the atoms of the program as written.
#[derive(Clone, Copy)]
pub struct SplitCounts {
    pub bytes: usize,
    pub atoms: usize,
    pub rules: usize,
    pub old_atoms: usize,
}

// Question 66 of a text that was written, to an output with so much room.
fn is_writable(written: Numbered, room: usize) -> bool
    ensures { result ≡ (((leb written.place.rules most_rules && leb written.atom (suc largest))
        && leb written.place.at longest) && leb written.place.at room) }
{
    let place = written.place;
    (place.rules <= MOST_RULES)
        & (written.atom <= ENTRIES)
        & (place.at <= LONGEST)
        & (place.at <= room)
}

// A refusal zeroes table and output.
fn refuse(
    table: &mut [i32],
    output: &mut [u8],
    refusal: Refusal<SplitFault>,
) -> Result<SplitCounts, Refusal<SplitFault>>
    ensures { record { answer = result; table = table.new; output = output.new }
        ≡ zeroed (length table.old) (length output.old) (Err refusal) }
{
    words::zero_all(table);
    words::zero_all(output);
    Err(refusal)
}

// The answer where the text of a split program was written.
fn finish(
    table: &mut [i32],
    output: &mut [u8],
    written: Numbered,
    old: usize,
) -> Result<SplitCounts, Refusal<SplitFault>>
    requires { written.place.rules ≤ most_rules → 1 ≤ written.atom }
    ensures { (ws rs : List InputRule) (before : List ℕ) → ProgramWritten rs before output.old written
        → length before ≡ length output.old → table.old ≡ table_words (length table.old) ws → old ≡ atoms ws
        → record { answer = result; table = table.new; output = output.new }
        ≡ split_to (length table.old) (length output.old) ws rs }
{
    let place = written.place;
    let bytes = place.at;
    if !is_writable(written, output.len()) {
        return refuse(table, output, Refusal::Service(SplitFault::TooLarge));
    }
    words::zero_all(&mut output[bytes..]);
    Ok(SplitCounts {
        bytes,
        atoms: written.atom - 1,
        rules: place.rules,
        old_atoms: old,
    })
}

// Questions 65 and 66 of a table that is read.
fn split_table(
    table: &mut [i32],
    output: &mut [u8],
    group: usize,
    rules: usize,
    top: usize,
) -> Result<SplitCounts, Refusal<SplitFault>>
    requires { ReadLong rules top table.old }
    ensures { record { answer = result; table = table.new; output = output.new }
        ≡ split_reading (length table.old) (length output.old) group (program (rules_at rules table.old)) }
{
    if (group < 2) | (MOST_WEIGHTED < group) {
        return refuse(table, output, Refusal::Service(SplitFault::WrongGroupSize));
    }
    let written = program::write_program(table, rules, top, group, output);
    finish(table, output, written, top)
}

// Splits a program text's sums of more than 12 literals, in groups of that size, and writes the program that is left.
pub fn split_sums(
    text: &[u8],
    group: usize,
    table: &mut [i32],
    output: &mut [u8],
) -> Result<SplitCounts, Refusal<SplitFault>>
    ensures { SplitSums text.now group table.old table.new output.old output.new result }
{
    let read = aspif::read_within(text, table, MOST_LITERALS);
    match read {
        Err(refusal) => refuse(table, output, Refusal::Program(refusal)),
        Ok(ProgramCounts { atoms, rules }) => split_table(table, output, group, rules, atoms),
    }
}
