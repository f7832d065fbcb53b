// An assignment of the variables, and what one nogood adds to it. What the functions promise is specs/Propagate.antt.
ghost use Rattle.std.specs.Prelude.{◌≡◌, ◌≤◌, ◌<◌, length, set};
ghost use Rattle.words.specs.Limits.{largest, entries};
ghost use Rattle.words.specs.Literals.{variable};
ghost use Rattle.nogoods.specs.Keeps.{Literals};
ghost use Rattle.nogoods.specs.Records.{Readable};
ghost use Rattle.propagation.specs.Propagate.{entry, Valued, Looked, Derives, DerivesAt};

use nogoods::records;
use words::ENTRIES;

// A literal under an assignment.
#[derive(Clone, Copy, PartialEq, Eq)]
enum Value {
    True,
    False,
    Free,
}

// A nogood under an assignment: all its literals are true; all but the one at an index, which is free; nothing follows.
#[derive(Clone, Copy, PartialEq, Eq)]
enum Look {
    All,
    Unit(usize),
    Idle,
}

// What one nogood gave: a conflict; a variable that is assigned now; nothing.
#[derive(Clone, Copy, PartialEq, Eq)]
pub enum Derived {
    Conflicting,
    Assigned(usize),
    Nothing,
}

// The entry of its variable that makes a literal true. An entry is a byte, 0, 1 or 2, and no enum: the assignment is memory that is lent.
fn entry_of(word: i32) -> u8
    ensures { result ≡ entry word }
{
    if word < 0 { 2 } else { 1 }
}

// What an assignment says of a literal.
fn value_of(word: i32, assignment: &[u8; ENTRIES]) -> Value
    requires within { (1 ≤ variable word) × (variable word ≤ largest) }
    ensures { Valued assignment.now word result }
{
    let v = words::variable_of(word);
    let found = assignment[v];
    let wanted = entry_of(word);
    if found == wanted {
        return Value::True;
    }
    if found == 3 - wanted {
        return Value::False;
    }
    Value::Free
}

// A literal becomes true. Its variable.
pub fn make_true(word: i32, assignment: &mut [u8; ENTRIES]) -> usize
    requires literal { variable word ≤ largest }
    requires size { length assignment.old ≡ entries }
    ensures variable { result ≡ variable word }
    ensures assigned { assignment.new ≡ set assignment.old (variable word) (entry word) }
{
    let v = words::variable_of(word);
    assignment[v] = entry_of(word);
    v
}

// The larger of an end and the one just past a variable.
pub fn past(end: usize, v: usize) -> usize
    requires { (end ≤ entries) × (v < entries) }
    ensures { (end ≤ result) × ((v < result) × (result ≤ entries)) }
{
    end.max(v + 1)
}

// A look at a nogood's literals under an assignment.
fn look_at(literals: &[i32], assignment: &[u8; ENTRIES]) -> Look
    requires { Literals literals.now }
    ensures { Looked assignment.now literals.now result }
{
    let mut one = None;
    for j in 0..literals.len() {
        match value_of(literals[j], assignment) {
            Value::True => {}
            Value::False => {
                return Look::Idle;
            }
            Value::Free => {
                if one.is_some() {
                    return Look::Idle;
                }
                one = Some(j);
            }
        }
    }
    match one {
        Some(j) => Look::Unit(j),
        None => Look::All,
    }
}

// One nogood's part: where all its literals but one are true and that one is free, its complement becomes true.
fn derive(literals: &[i32], assignment: &mut [u8; ENTRIES]) -> Derived
    requires literals { Literals literals.now }
    requires size { length assignment.old ≡ entries }
    ensures { Derives literals.now assignment.old assignment.new result }
{
    let look = look_at(literals, assignment);
    match look {
        Look::All => Derived::Conflicting,
        Look::Idle => Derived::Nothing,
        Look::Unit(j) => {
            let v = make_true(words::complement_of(literals[j]), assignment);
            Derived::Assigned(v)
        }
    }
}

// The record at r's part, unless it is dead: where all its literals but one are true and that one is free, its complement becomes true.
pub fn derive_at(nogoods: &[i32], r: usize, assignment: &mut [u8; ENTRIES]) -> Derived
    requires record { Readable nogoods.now r }
    requires size { length assignment.old ≡ entries }
    ensures { DerivesAt nogoods.now r assignment.old assignment.new result }
{
    if records::is_dead(nogoods, r) {
        return Derived::Nothing;
    }
    derive(records::nogood_at(nogoods, r), assignment)
}
