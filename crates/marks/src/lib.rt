// Sets of variables as marks: number v is in the set where byte v is 1. And sets as they are lent, as ascending numbers.
// What the functions promise is specs/Marks.antt.
#![tactic(auto)]

ghost use Rattle.std.specs.Prelude.{◌≡◌, map, ◌≤◌, set};
ghost use Rattle.words.specs.Limits.{largest, entries};
ghost use Rattle.words.specs.Lists.{all, ascends};
ghost use Rattle.words.specs.Literals.{variable};
ghost use Rattle.marks.specs.Marks.{marked, Marking, mark_all, Marks, agree, same_marks, up_to};

use words::ENTRIES;

// Byte v is 1.
pub fn is_marked(marks: &[u8], v: usize) -> bool
    ensures { result ≡ marked marks.now v }
{
    marks.get(v).is_some_and(|m| *m == 1)
}

// Byte v becomes 1; whether it was not.
pub fn mark(marks: &mut [u8], v: usize) -> bool
    ensures { Marking (set marks.old v 1) marks.old marks.new result }
{
    match marks.get(v) {
        Some(m) if *m != 1 => {
            marks[v] = 1;
            true
        }
        _ => false,
    }
}

// Question 42: the numbers ascend strictly, from 1 to `high`.
pub fn ascends_within(set: &[u16], high: usize) -> bool
    ensures { result ≡ ascends 0 high set.now }
{
    let mut low = 0;
    for x in set {
        let v = usize::from(*x);
        if (v <= low) | (high < v) {
            return false;
        }
        low = v;
    }
    true
}

// Every number of the set is marked.
pub fn mark_all(set: &[u16], marks: &mut [u8])
    ensures { marks.new ≡ mark_all set.now marks.old }
{
    for v in set {
        mark(marks, usize::from(*v));
    }
}

// The variables of the literals.
pub fn marks_of(literals: &[i32]) -> [u8; ENTRIES]
    ensures { Marks result (map variable literals.now) }
{
    let mut found = [0u8; ENTRIES];
    for x in literals {
        mark(&mut found, words::variable_of(*x));
    }
    found
}

// The numbers from 1 to the last.
pub fn marks_to(last: usize) -> [u8; ENTRIES]
    requires { last ≤ largest }
    ensures { Marks result (up_to last) }
{
    let mut found = [0u8; ENTRIES];
    for v in 1..last + 1 {
        mark(&mut found, v);
    }
    found
}

// Every literal's variable is marked.
pub fn all_marked(literals: &[i32], found: &[u8]) -> bool
    ensures { result ≡ all (λ x. marked found.now (variable x)) literals.now }
{
    literals
        .iter()
        .all(|x| is_marked(found, words::variable_of(*x)))
}

// The number is in both, or in neither.
fn agrees_at(a: &[u8], b: &[u8], v: usize) -> bool
    ensures { result ≡ agree (marked a.now v) (marked b.now v) }
{
    is_marked(a, v) == is_marked(b, v)
}

// Two lists of marks have the same numbers. All of them are looked at, many at a time: without an early end the loop
// has no branch.
pub fn is_same_set(a: &[u8; ENTRIES], b: &[u8; ENTRIES]) -> bool
    ensures { result ≡ same_marks entries a.now b.now }
{
    let mut same = true;
    for v in 0..ENTRIES {
        same = agrees_at(a, b, v) & same;
    }
    same
}
