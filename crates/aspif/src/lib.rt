// Ground programs as ASPIF text, read into a lent table: document 01, 'Program text' and questions 1 to 11, 54 and 55.
// The public service is `read_program`; what it means is specs/Reading.antt. `read_within` puts question 55 with another number than 12.
#![tactic(auto)]

mod lines;
pub mod rules;
pub mod tables;

ghost use Rattle.std.specs.Prelude.{◌≡◌, length};
ghost use Rattle.aspif.specs.Reading.{read_text_within, ProgramReadWithin, ProgramRead};
ghost use Rattle.aspif.specs.Turns.{LinesRead};

use lines::LinesTaken;

// "head kind (0 normal, 1 choice)".
#[derive(Clone, Copy, PartialEq, Eq)]
pub enum Kind {
    Normal,
    Choice,
}

// What is wrong with a program text, by the first question that it fails. `u8::from` gives the question's number.
#[derive(Clone, Copy, PartialEq, Eq)]
pub enum ProgramFault {
    TooLong,
    NoHeader,
    Malformed,
    TooLarge,
    WrongKind,
    WrongCount,
    UnsuitedHeads,
    WrongLiterals,
    TooManyRules,
    TableFull,
    TextAfterEnd,
    WeightOutOfRange,
    TooManyWeights,
}

impl From<ProgramFault> for u8 {
    ghost use Rattle.aspif.specs.Numbers.{number_of};

    ghost from_gives = { λ fault number. number ≡ number_of fault };

    fn from(fault: ProgramFault) -> u8 {
        match fault {
            ProgramFault::TooLong => 1,
            ProgramFault::NoHeader => 2,
            ProgramFault::Malformed => 3,
            ProgramFault::TooLarge => 4,
            ProgramFault::WrongKind => 5,
            ProgramFault::WrongCount => 6,
            ProgramFault::UnsuitedHeads => 7,
            ProgramFault::WrongLiterals => 8,
            ProgramFault::TooManyRules => 9,
            ProgramFault::TableFull => 10,
            ProgramFault::TextAfterEnd => 11,
            ProgramFault::WeightOutOfRange => 54,
            ProgramFault::TooManyWeights => 55,
        }
    }
}

// What is wrong with a program text, and in which line, counted from 1; 0 where the whole text is at fault.
#[derive(Clone, Copy)]
pub struct ProgramRefusal {
    pub fault: ProgramFault,
    pub line: usize,
}

// Why a service over a program text refuses: the text itself, or by a question of the service's own.
#[derive(Clone, Copy)]
pub enum Refusal<F> {
    Program(ProgramRefusal),
    Service(F),
}

impl<F> From<ProgramRefusal> for Refusal<F> {
    ghost use Rattle.aspif.specs.declared.Refusal.TheVariants.{Program};

    ghost from_gives = { λ refusal r. r ≡ Program refusal };

    fn from(refusal: ProgramRefusal) -> Refusal<F> {
        Refusal::Program(refusal)
    }
}

// The largest atom that a program names, and how many rules it has.
#[derive(Clone, Copy)]
pub struct ProgramCounts {
    pub atoms: usize,
    pub rules: usize,
}

// Reads what question 1 lets through: the lines' rules stand at the front of the table, and behind them what stood there.
fn read_text(text: &[u8], table: &mut [i32], most: usize) -> Result<LinesTaken, ProgramRefusal>
    ensures { LinesRead (read_text_within most (length table.old) text.now) table.old table.new result }
{
    if words::LONGEST < text.len() {
        return Err(ProgramRefusal {
            fault: ProgramFault::TooLong,
            line: 0,
        });
    }
    if !text::starts_with(text, b"asp 1 0 0\n") {
        return Err(ProgramRefusal {
            fault: ProgramFault::NoHeader,
            line: 1,
        });
    }
    let classes = text::classes::CLASSES;
    lines::read_lines(text, table, most, &classes)
}

// Reads a program text with sums of at most so many literals into the table, which then holds the rules' words with 0 after them;
// 0 throughout where it is refused.
pub fn read_within(
    text: &[u8],
    table: &mut [i32],
    most: usize,
) -> Result<ProgramCounts, ProgramRefusal>
    ensures { ProgramReadWithin most text.now table.old table.new result }
{
    match read_text(text, table, most) {
        Err(refusal) => {
            words::zero_all(table);
            Err(refusal)
        }
        Ok(LinesTaken { atoms, rules, used }) => {
            words::zero_all(&mut table[used..]);
            Ok(ProgramCounts { atoms, rules })
        }
    }
}

// Reads a program text of the documents: at most 12 literals in a sum.
pub fn read_program(text: &[u8], table: &mut [i32]) -> Result<ProgramCounts, ProgramRefusal>
    ensures { ProgramRead text.now table.old table.new result }
{
    read_within(text, table, weights::MOST_WEIGHTED)
}
