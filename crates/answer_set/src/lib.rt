// The set test: least model, marks and answer for a set, over a table that the program reader leaves. What it means is
// specs/SetTest.antt.
#![tactic(auto)]

mod answers;
pub mod models;
mod worklist;

ghost use Rattle.std.specs.Prelude.{◌≡◌};
ghost use Rattle.answer_set.specs.SetTest.{SetTested};

use aspif::tables;

// What the set test says of a set.
#[derive(Clone, Copy, PartialEq, Eq)]
pub enum SetAnswer {
    Yes,
    // The lowest atom that lies in just one of the set and the least model.
    Differs(u16),
    // The lowest broken constraint's rule number, counted from 1.
    Broken(usize),
}

// Why the set test is refused, by the first question that is answered no. `u8::from` gives the question's number.
#[derive(Clone, Copy, PartialEq, Eq)]
pub enum SetFault {
    Unreadable,
    NotAscending,
    WrongMarks,
}

impl From<SetFault> for u8 {
    ghost use Rattle.answer_set.specs.Numbers.{number_of};

    ghost from_gives = { λ fault number. number ≡ number_of fault };

    fn from(fault: SetFault) -> u8 {
        match fault {
            SetFault::Unreadable => 41,
            SetFault::NotAscending => 42,
            SetFault::WrongMarks => 43,
        }
    }
}

// Whether the set is an answer set of the program that the table holds. The table is only read; the marks afterwards hold the
// least model, or zeros where the test is refused.
pub fn test_set(
    table: &[i32],
    rules: usize,
    set: &[u16],
    marks: &mut [u8],
) -> Result<SetAnswer, SetFault>
    ensures { SetTested table.now rules set.now marks.old marks.new result }
{
    words::zero_all(marks);
    if !tables::is_readable(table, rules) {
        return Err(SetFault::Unreadable);
    }
    let atoms = tables::largest_atom(table, rules);
    if !marks::ascends_within(set, atoms) {
        return Err(SetFault::NotAscending);
    }
    if marks.len() != words::ENTRIES {
        return Err(SetFault::WrongMarks);
    }
    let mut inside = [0u8; words::ENTRIES];
    marks::mark_all(set, &mut inside);
    worklist::mark_least(table, rules, atoms, &inside, marks);
    Ok(answers::judge(table, rules, atoms, &inside, marks))
}
