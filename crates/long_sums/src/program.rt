// The text of the split program, from the table's rules: a rule as it stands, or the rules of its long sum and then
// its heads from the last new atom.
ghost use Rattle.std.specs.Prelude.{◌≡◌, true, [], ◌∷◌, ◌+◌, ◌*◌, ◌-◌, ◌≤◌, length};
ghost use Rattle.words.specs.Limits.{largest, most_rules};
ghost use Rattle.text.specs.Writing.{Put, farthest};
ghost use Rattle.aspif.specs.Rules.{atoms};
ghost use Rattle.weights.specs.Weights.{paired};
ghost use Rattle.aspif.specs.Reading.{all_weights};
ghost use Rattle.aspif.specs.Tables.{body_words_at, rule_at, rules_at};
ghost use Rattle.aspif.specs.Text.{rule_numbers};
ghost use Rattle.sums.specs.Plans.{head_rule};
ghost use Rattle.sums.specs.Levels.{planned, split_program, in_groups, sorted_groups};
ghost use Rattle.totalizer.specs.Emitting.{most_line, line_of, Bounded, Emits};
ghost use Rattle.long_sums.specs.Program.{RuleHeld, RulesHeld, is_long, item_of, ItemEmitted, ItemsEmitted, ProgramWritten};

use crate::rules::WideRule;
use crate::{ordering, rules};
use aspif::tables;
use joins::chains;
use joins::chains::Numbered;
use text::writing;
use totalizer::texts;
use totalizer::texts::Place;
use words::{MOST_LITERALS, MOST_RULES};

// The line of the rule that gives a rule's heads from an atom.
fn put_headed(output: &mut [u8], at: usize, rule: &WideRule, atom: usize) -> usize
    requires room { at + (22 * most_line + 2) ≤ farthest }
    ensures written { Put (line_of (rule_numbers (head_rule (rule_at rule.now.words.now).kind (rule_at rule.now.words.now).heads atom)))
        output.old output.new at result }
    ensures within { result ≤ at + (22 * most_line + 2) }
{
    let heads = texts::put_head(output, at, rule.words);
    let count = writing::put_bytes(output, heads, b" 0 1");
    let end = texts::put_size(output, count, atom);
    writing::put_bytes(output, end, b"\n")
}

// The line of the rule that gives a rule's heads from an atom, and one rule more.
fn emit_headed(output: &mut [u8], place: Place, rule: &WideRule, atom: usize) -> Place
    requires place { Bounded place × (place.rules ≤ most_rules) }
    ensures { Emits (head_rule (rule_at rule.now.words.now).kind (rule_at rule.now.words.now).heads atom ∷ [])
        output.old output.new place result }
{
    if place.rules == MOST_RULES {
        return Place {
            at: place.at,
            rules: MOST_RULES + 1,
        };
    }
    let at = put_headed(output, place.at, rule, atom);
    Place {
        at,
        rules: place.rules + 1,
    }
}

// The rules of the long sum of a rule, whose pairs stand in order, and the rule that gives its heads.
fn emit_ordered(
    output: &mut [u8],
    place: Place,
    atom: usize,
    rule: &WideRule,
    pairs: &[i32],
    group: usize,
) -> Numbered
    requires long { is_long (rule_at rule.now.words.now).body ≡ true }
    requires place { Bounded place × (atom ≤ 2000000000) }
    requires group { (2 ≤ group) × (group ≤ 12) }
    requires pairs { (all_weights pairs.now ≡ true) × (length pairs.now ≡ length (body_words_at rule.now.words.now))
        × (in_groups (group - 1) (paired pairs.now) ≡ sorted_groups (group - 1) (paired (body_words_at rule.now.words.now))) }
    ensures { ItemEmitted (item_of group (rule_at rule.now.words.now)) output.old output.new place atom result }
{
    let bound = tables::bound_of(rule.words);
    let sum = chains::emit_long(output, place, atom, pairs, group, bound);
    let end = sum.place;
    if MOST_RULES < end.rules {
        return sum;
    }
    let next = sum.atom;
    let last = emit_headed(output, end, rule, next - 1);
    Numbered {
        place: last,
        atom: next,
    }
}

// The same of a rule whose pairs are put in order in the words lent.
fn emit_split(
    output: &mut [u8],
    place: Place,
    atom: usize,
    rule: &WideRule,
    group: usize,
    sorted: &mut [i32],
) -> Numbered
    requires long { is_long (rule_at rule.now.words.now).body ≡ true }
    requires place { Bounded place × (atom ≤ 2000000000) }
    requires group { (2 ≤ group) × (group ≤ 12) }
    requires room { length sorted.old ≡ 128 }
    ensures { ItemEmitted (item_of group (rule_at rule.now.words.now)) output.old output.new place atom result }
{
    let body = tables::body_of(rule.words);
    let n = body.len();
    ordering::order(body, group, &mut sorted[..n]);
    emit_ordered(output, place, atom, rule, &sorted[..n], group)
}

// What stands for a rule.
fn emit_item(
    output: &mut [u8],
    place: Place,
    atom: usize,
    rule: &WideRule,
    group: usize,
) -> Numbered
    requires place { Bounded place × (atom ≤ 2000000000) }
    requires group { (2 ≤ group) × (group ≤ 12) }
    ensures { ItemEmitted (item_of group (rule_at rule.now.words.now)) output.old output.new place atom result }
{
    if rule.is_long() {
        let mut sorted = [0i32; 2 * MOST_LITERALS];
        return emit_split(output, place, atom, rule, group, &mut sorted);
    }
    let end = texts::emit_rule(output, place, rule.words);
    Numbered { place: end, atom }
}

// What stands for the table's rules. Once there are too many, nothing further is written.
fn emit_rules(
    table: &[i32],
    rules: usize,
    group: usize,
    place: Place,
    atom: usize,
    output: &mut [u8],
) -> Numbered
    requires rules { RulesHeld rules table.now × (rules ≤ most_rules) }
    requires place { Bounded place × (atom ≤ 10000) }
    requires group { (2 ≤ group) × (group ≤ 12) }
    ensures { ItemsEmitted (planned (sorted_groups (group - 1)) (rules_at rules table.now))
        output.old output.new place atom result }
{
    let mut here = Numbered { place, atom };
    for rule in rules::rules_in(table, rules) {
        let p = here.place;
        let next = here.atom;
        if MOST_RULES < p.rules {
            return here;
        }
        here = emit_item(output, p, next, &rule, group);
    }
    here
}

// The text of the split program, of a table with so many rules, whose largest atom is `top`.
pub fn write_program(
    table: &[i32],
    rules: usize,
    top: usize,
    group: usize,
    output: &mut [u8],
) -> Numbered
    requires rules { RulesHeld rules table.now × (rules ≤ most_rules) }
    requires atoms { (top ≡ atoms (rules_at rules table.now)) × (top ≤ largest) }
    requires group { (2 ≤ group) × (group ≤ 12) }
    ensures { ProgramWritten (split_program (sorted_groups (group - 1)) (rules_at rules table.now))
        output.old output.new result }
{
    let from = writing::put_bytes(output, 0, b"asp 1 0 0\n");
    let end = emit_rules(
        table,
        rules,
        group,
        Place { at: from, rules: 0 },
        top + 1,
        output,
    );
    let place = end.place;
    let at = writing::put_bytes(output, place.at, b"0\n");
    Numbered {
        place: Place {
            at,
            rules: place.rules,
        },
        atom: end.atom,
    }
}
