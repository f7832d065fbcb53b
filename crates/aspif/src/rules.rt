// One rule line: its numbers' shape, and its words in the table. Questions 5 to 10, with 54 and 55 of weight bodies between 6 and 7.
ghost use Rattle.std.specs.Prelude.{◌≡◌, true, [], ◌∷◌, ◌++◌, ◌+◌, ◌*◌, ◌≤◌, leb, pos, length, drop, Ok};
ghost use Rattle.words.specs.Literals.{ascending};
ghost use Rattle.weights.specs.Weights.{literals, paired, pair_words};
ghost use Rattle.aspif.specs.Rules.{kind_word, rule_words};
ghost use Rattle.words.specs.Limits.{most_literals, most_rules};
ghost use Rattle.aspif.specs.Reading.{is_at, is_count_at, suited, plain_shape, all_weights, ranged, few_within, weighed_within};
ghost use Rattle.aspif.specs.Reading.{body_within, head_within, shape_within, heads_good, body_good, weight_in, reads, rule_of, room};
ghost use Rattle.aspif.specs.Turns.{row_size, row_rule, weighted, row_weighed, Sorted, TurnTaken};
ghost use Rattle.aspif.specs.declared.rules.Shape.TheVariants.{Weighed};

use crate::{Kind, ProgramFault, tables};
use words::{MOST_LITERALS, MOST_RULES};

// A rule that a line adds: the bytes of the line, the words that the rule takes, and the largest atom that it names.
#[derive(Clone, Copy)]
pub struct RuleAdded {
    pub next: usize,
    pub words: usize,
    pub top: usize,
}

// A rule line's head kind, head count and body count, with literals for its body or with a bound and weights.
#[derive(Clone, Copy)]
pub enum Shape {
    Shaped {
        kind: Kind,
        heads: usize,
        body: usize,
    },
    Weighed {
        kind: Kind,
        heads: usize,
        body: usize,
    },
}

// Number i of the line is there and is n.
fn is_at(row: &[i32], count: usize, i: usize, n: i32) -> bool
    ensures { result ≡ is_at row.now count i n }
{
    if i < count {
        words::is_same(words::word_at(row, i), n)
    } else {
        false
    }
}

// Number i of the line is there, and 0 to 64.
fn is_count_at(row: &[i32], count: usize, i: usize) -> bool
    ensures { result ≡ is_count_at row.now count i }
{
    if i < count {
        return tables::is_count(row, i);
    }
    false
}

// Question 7 of a line with that shape otherwise.
fn suited_shape(kind: Kind, heads: usize, shape: Shape) -> Result<Shape, ProgramFault>
    ensures { result ≡ suited kind heads (Ok shape) }
{
    if tables::suits_kind(kind, heads) {
        return Ok(shape);
    }
    Err(ProgramFault::UnsuitedHeads)
}

// The body count after body kind 0, matched by what follows.
fn plain_shape(row: &[i32], count: usize, kind: Kind, heads: usize) -> Result<Shape, ProgramFault>
    requires { heads ≤ most_literals }
    ensures { result ≡ plain_shape row.now count kind heads }
{
    if is_count_at(row, count, 4 + heads) {
        let body = words::variable_of(words::word_at(row, 4 + heads));
        if 5 + heads + body == count {
            return suited_shape(kind, heads, Shape::Shaped { kind, heads, body });
        }
    }
    Err(ProgramFault::WrongCount)
}

// Question 54: the bound and the weights of so many literals are 0 to 4,095.
fn is_ranged(row: &[i32], heads: usize, body: usize) -> bool
    requires { (heads ≤ most_literals) × (body ≤ most_literals) × (6 + heads + 2 * body ≤ length row.now) }
    ensures { result ≡ ranged row.now heads body }
{
    let from = 6 + heads;
    let end = from + 2 * body;
    if tables::is_weight(words::word_at(row, 4 + heads)) {
        return tables::all_weights(&row[from..end]);
    }
    false
}

// Questions 54, 55 and 7 of a line with a weight body of so many literals, of which 55 takes `most`.
fn few_shape(
    row: &[i32],
    kind: Kind,
    heads: usize,
    body: usize,
    most: usize,
) -> Result<Shape, ProgramFault>
    requires { (heads ≤ most_literals) × (body ≤ most_literals) × (6 + heads + 2 * body ≤ length row.now) }
    ensures { result ≡ few_within most row.now kind heads body }
{
    let ranged = is_ranged(row, heads, body);
    let few = body <= most;
    if !ranged {
        return Err(ProgramFault::WeightOutOfRange);
    }
    if !few {
        return Err(ProgramFault::TooManyWeights);
    }
    suited_shape(kind, heads, Shape::Weighed { kind, heads, body })
}

// The bound and the body count after body kind 1, with a literal and a weight for each after them.
fn weighed_shape(
    row: &[i32],
    count: usize,
    kind: Kind,
    heads: usize,
    most: usize,
) -> Result<Shape, ProgramFault>
    requires { (heads ≤ most_literals) × (length row.now ≡ row_size) }
    ensures { result ≡ weighed_within most row.now count kind heads }
{
    if is_count_at(row, count, 5 + heads) {
        let body = words::variable_of(words::word_at(row, 5 + heads));
        if 6 + heads + 2 * body == count {
            return few_shape(row, kind, heads, body, most);
        }
    }
    Err(ProgramFault::WrongCount)
}

// The body kind, after the heads, and what goes with it.
fn body_shape(
    row: &[i32],
    count: usize,
    kind: Kind,
    heads: usize,
    most: usize,
) -> Result<Shape, ProgramFault>
    requires { (heads ≤ most_literals) × (length row.now ≡ row_size) }
    ensures { result ≡ body_within most row.now count kind heads }
{
    if is_at(row, count, 3 + heads, 0) {
        return plain_shape(row, count, kind, heads);
    }
    if is_at(row, count, 3 + heads, 1) {
        return weighed_shape(row, count, kind, heads, most);
    }
    Err(ProgramFault::WrongKind)
}

// The head count, with at least so many numbers after it.
fn head_shape(row: &[i32], count: usize, kind: Kind, most: usize) -> Result<Shape, ProgramFault>
    requires { length row.now ≡ row_size }
    ensures { result ≡ head_within most row.now count kind }
{
    if is_count_at(row, count, 2) {
        let heads = words::variable_of(words::word_at(row, 2));
        if 3 + heads <= count {
            return body_shape(row, count, kind, heads, most);
        }
    }
    Err(ProgramFault::WrongCount)
}

// Questions 5, 6, 54, 55 and 7 of a line of `count` numbers, of which the row holds the first.
fn rule_shape(row: &[i32], count: usize, most: usize) -> Result<Shape, ProgramFault>
    requires { length row.now ≡ row_size }
    ensures { result ≡ shape_within most row.now count }
{
    if is_at(row, count, 0, 1) {
        if is_at(row, count, 1, 0) {
            return head_shape(row, count, Kind::Normal, most);
        }
        if is_at(row, count, 1, 1) {
            return head_shape(row, count, Kind::Choice, most);
        }
    }
    Err(ProgramFault::WrongKind)
}

// Question 8 of the heads, which ascend afterwards.
fn sort_heads(part: &mut [i32]) -> bool
    ensures sorted { (result ≡ heads_good part.old) × (part.new ≡ ascending part.old) }
{
    let positive = words::all_positive(part);
    let distinct = words::sort_distinct(part);
    if positive { distinct } else { false }
}

// Question 8 of the body's literals, which ascend by atom afterwards.
fn sort_body(part: &mut [i32]) -> bool
    ensures sorted { (result ≡ body_good part.old) × (part.new ≡ ascending part.old) }
{
    let zero = words::contains(part, 0);
    let distinct = words::sort_distinct(part);
    if zero { false } else { distinct }
}

// Question 8 of a rule line, whose heads and body ascend afterwards.
fn sort_parts(row: &mut [i32], heads: usize, body: usize) -> bool
    requires sizes { (heads ≤ most_literals) × (body ≤ most_literals) × (5 + heads + body ≤ length row.old) }
    ensures { Sorted row.old row.new heads body result }
{
    let after = 3 + heads;
    let from = 5 + heads;
    let end = from + body;
    let good = sort_heads(&mut row[3..after]);
    if sort_body(&mut row[from..end]) {
        good
    } else {
        false
    }
}

// The number that the head kind has in the table.
fn kind_word(kind: Kind) -> i32
    ensures { result ≡ kind_word kind }
{
    match kind {
        Kind::Normal => 0,
        Kind::Choice => 1,
    }
}

// A rule's head kind, head count, body kind and body count at the front of the free words.
fn write_counts(free: &mut [i32], kind: Kind, heads: usize, body_kind: i32, body: usize)
    requires sizes { (heads ≤ most_literals) × (body ≤ most_literals) × (4 ≤ length free.old) }
    ensures { free.new ≡ (kind_word kind ∷ pos heads ∷ body_kind ∷ pos body ∷ []) ++ drop 4 free.old }
{
    free[0] = kind_word(kind);
    free[1] = heads as i32;
    free[2] = body_kind;
    free[3] = body as i32;
}

// The words of a rule at the front of the free words: its heads and body stand in the row as in the line.
fn write_rule(free: &mut [i32], row: &[i32], kind: Kind, heads: usize, body: usize)
    requires sizes { (heads ≤ most_literals) × (body ≤ most_literals) × (5 + heads + body ≤ length row.now)
        × (4 + heads + body ≤ length free.old) }
    ensures { free.new ≡ rule_words (row_rule row.now kind heads body)
        ++ drop (4 + heads + body) free.old }
{
    write_counts(free, kind, heads, 0, body);
    let after = 3 + heads;
    let from = 5 + heads;
    let end = from + body;
    let next = 4 + heads;
    words::copy(&mut free[4..], &row[3..after]);
    words::copy(&mut free[next..], &row[from..end]);
}

// There are 1,024 rules already.
fn is_full(rules: usize) -> bool
    ensures { result ≡ leb most_rules rules }
{
    MOST_RULES <= rules
}

// Questions 9 and 10 of a rule whose heads and body stand sorted in the row; it then stands at the front of the free words.
fn add_rule(
    free: &mut [i32],
    row: &[i32],
    kind: Kind,
    heads: usize,
    body: usize,
    next: usize,
    rules: usize,
) -> Result<Option<RuleAdded>, ProgramFault>
    requires sizes { (heads ≤ most_literals) × (body ≤ most_literals) × (5 + heads + body ≤ length row.now) }
    ensures { TurnTaken (room rules (length free.old)
        (reads (row_rule row.now kind heads body)) next) free.old free.new result }
{
    if is_full(rules) {
        return Err(ProgramFault::TooManyRules);
    }
    let size = 4 + heads + body;
    if free.len() < size {
        return Err(ProgramFault::TableFull);
    }
    write_rule(free, row, kind, heads, body);
    let after = 3 + heads;
    let from = 5 + heads;
    let end = from + body;
    let a = words::largest_variable(&row[3..after]);
    let b = words::largest_variable(&row[from..end]);
    Ok(Some(RuleAdded {
        next,
        words: size,
        top: a.max(b),
    }))
}

// The literals of some pairs, in their order.
pub fn copy_literals(pairs: &[i32], row: &mut [i32])
    requires { length pairs.now ≡ 2 * length row.old }
    ensures { row.new ≡ literals (paired pairs.now) }
{
    for i in 0..row.len() {
        row[i] = pairs[2 * i];
    }
}

// The weight of the literal in some pairs, 0 where it is in none.
fn weight_in(pairs: &[i32], literal: i32) -> i32
    requires { all_weights pairs.now ≡ true }
    ensures { result ≡ pos (weight_in (paired pairs.now) literal) }
{
    let mut rest = pairs;
    while let [next, weight, more @ ..] = rest {
        if words::is_same(*next, literal) {
            return *weight;
        }
        rest = more;
    }
    0
}

// The literals, each with its weight in the pairs behind it, at the front of the free words.
pub fn write_pairs(free: &mut [i32], pairs: &[i32], literals: &[i32])
    requires weights { all_weights pairs.now ≡ true }
    requires sizes { (length literals.now ≤ most_literals) × (2 * length literals.now ≤ length free.old) }
    ensures { free.new ≡ pair_words (weighted pairs.now literals.now)
        ++ drop (2 * length literals.now) free.old }
{
    for i in 0..literals.len() {
        free[2 * i] = literals[i];
        free[2 * i + 1] = weight_in(pairs, literals[i]);
    }
}

// The same four words of a rule with a weight body, and its bound behind them.
fn write_bound(free: &mut [i32], kind: Kind, heads: usize, body: usize, bound: i32)
    requires sizes { (heads ≤ most_literals) × (body ≤ most_literals) × (5 ≤ length free.old) }
    ensures { free.new ≡ (kind_word kind ∷ pos heads ∷ pos 1 ∷ pos body ∷ bound ∷ []) ++ drop 5 free.old }
{
    write_counts(free, kind, heads, 1, body);
    free[4] = bound;
}

// The words of a rule with a weight body at the front of the free words: its heads, bound and pairs stand in the row as in the line,
// its literals sorted beside it.
fn write_weighed(free: &mut [i32], row: &[i32], literals: &[i32], kind: Kind, heads: usize)
    requires sizes { (heads ≤ most_literals) × (length literals.now ≤ most_literals)
        × (6 + heads + 2 * length literals.now ≤ length row.now) × (5 + heads + 2 * length literals.now ≤ length free.old) }
    requires weights { ranged row.now heads (length literals.now) ≡ true }
    ensures { free.new ≡ rule_words (row_weighed row.now literals.now kind heads)
        ++ drop (5 + heads + 2 * length literals.now) free.old }
{
    write_bound(free, kind, heads, literals.len(), row[4 + heads]);
    let after = 3 + heads;
    let from = 6 + heads;
    let end = from + 2 * literals.len();
    let next = 5 + heads;
    words::copy(&mut free[5..], &row[3..after]);
    write_pairs(&mut free[next..], &row[from..end], literals);
}

// Questions 9 and 10 of a rule with a weight body, whose heads stand sorted in the row and its literals beside it.
fn add_weighed(
    free: &mut [i32],
    row: &[i32],
    literals: &[i32],
    kind: Kind,
    heads: usize,
    next: usize,
    rules: usize,
) -> Result<Option<RuleAdded>, ProgramFault>
    requires sizes { (heads ≤ most_literals) × (length literals.now ≤ most_literals)
        × (6 + heads + 2 * length literals.now ≤ length row.now) }
    requires weights { ranged row.now heads (length literals.now) ≡ true }
    ensures { TurnTaken (room rules (length free.old)
        (reads (row_weighed row.now literals.now kind heads)) next) free.old free.new result }
{
    if is_full(rules) {
        return Err(ProgramFault::TooManyRules);
    }
    let size = 5 + heads + 2 * literals.len();
    if free.len() < size {
        return Err(ProgramFault::TableFull);
    }
    write_weighed(free, row, literals, kind, heads);
    let after = 3 + heads;
    let a = words::largest_variable(&row[3..after]);
    let b = words::largest_variable(literals);
    Ok(Some(RuleAdded {
        next,
        words: size,
        top: a.max(b),
    }))
}

// Questions 8 to 10 of a line with a weight body, whose literals are put beside the row and sorted there.
fn take_pairs(
    free: &mut [i32],
    row: &mut [i32],
    literals: &mut [i32],
    kind: Kind,
    heads: usize,
    next: usize,
    rules: usize,
) -> Result<Option<RuleAdded>, ProgramFault>
    requires sizes { (heads ≤ most_literals) × (length literals.old ≤ most_literals)
        × (6 + heads + 2 * length literals.old ≤ length row.old) }
    requires weights { ranged row.old heads (length literals.old) ≡ true }
    ensures { TurnTaken (room rules (length free.old)
        (rule_of row.old (Ok (Weighed kind heads (length literals.old)))) next)
        free.old free.new result }
{
    let after = 3 + heads;
    let from = 6 + heads;
    let end = from + 2 * literals.len();
    copy_literals(&row[from..end], literals);
    let good = sort_heads(&mut row[3..after]);
    if sort_body(literals) {
        if good {
            return add_weighed(free, row, literals, kind, heads, next, rules);
        }
    }
    Err(ProgramFault::WrongLiterals)
}

// Questions 8 to 10 of a line with a weight body of so many literals.
fn take_weighed(
    free: &mut [i32],
    row: &mut [i32],
    kind: Kind,
    heads: usize,
    body: usize,
    next: usize,
    rules: usize,
) -> Result<Option<RuleAdded>, ProgramFault>
    requires sizes { (heads ≤ most_literals) × (body ≤ most_literals) × (6 + heads + 2 * body ≤ length row.old) }
    requires weights { ranged row.old heads body ≡ true }
    ensures { TurnTaken (room rules (length free.old) (rule_of row.old (Ok (Weighed kind heads body))) next)
        free.old free.new result }
{
    let mut literals = [0i32; MOST_LITERALS];
    take_pairs(free, row, &mut literals[..body], kind, heads, next, rules)
}

// Questions 5 to 10, 54 and 55 among them, of a line of `count` numbers that stand in the row. The row is left in no order that counts.
pub fn take_rule(
    free: &mut [i32],
    row: &mut [i32],
    count: usize,
    next: usize,
    rules: usize,
    most: usize,
) -> Result<Option<RuleAdded>, ProgramFault>
    requires { length row.old ≡ row_size }
    ensures { TurnTaken (room rules (length free.old)
        (rule_of row.old (shape_within most row.old count)) next) free.old free.new result }
{
    match rule_shape(row, count, most)? {
        Shape::Shaped { kind, heads, body } => {
            if sort_parts(row, heads, body) {
                return add_rule(free, row, kind, heads, body, next, rules);
            }
            Err(ProgramFault::WrongLiterals)
        }
        Shape::Weighed { kind, heads, body } => {
            take_weighed(free, row, kind, heads, body, next, rules)
        }
    }
}
