// Rules' lines written to the lent output, counted up to one rule more than a program may have: `Emits` of
// specs/Emitting.antt. What stands past the output's end is not stored, and is counted all the same.
ghost use Rattle.std.specs.Prelude.{◌≡◌, [], ◌∷◌, ◌+◌, ◌*◌, ◌≤◌, length, true, List, ◌++◌, ℤ, pos, map, ◌/◌};
ghost use Rattle.text.specs.Decimals.{number_bytes, spaced};
ghost use Rattle.text.specs.Writing.{Put, farthest};
ghost use Rattle.aspif.specs.Rules.{InputRule};
ghost use Rattle.aspif.specs.Text.{rule_numbers};
ghost use Rattle.aspif.specs.Rules.{rule_words};
ghost use Rattle.weights.specs.Weights.{paired};
ghost use Rattle.aspif.specs.Reading.{all_weights};
ghost use Rattle.aspif.specs.Tables.{shape_sound};
ghost use Rattle.sums.specs.Plans.{numbered, group_rule};
ghost use Rattle.totalizer.specs.Emitting.{sum_numbers, most_line, line_of, head_numbers, bound_numbers, body_numbers_at, Bounded, Emits};

use aspif::tables;
use text::writing;
use words::MOST_RULES;

// Where the next line begins, and how many rules are written; one more than 1,024 stands for all that are more.
#[derive(Clone, Copy)]
pub struct Place {
    pub at: usize,
    pub rules: usize,
}

// The numbers, each after a space.
fn put_numbers(output: &mut [u8], at: usize, numbers: &[i32]) -> usize
    requires room { at + 22 * length numbers.now ≤ farthest }
    ensures written { Put (spaced numbers.now) output.old output.new at result }
    ensures within { result ≤ at + 22 * length numbers.now }
{
    let mut end = at;
    for number in numbers {
        end = writing::put_number(output, end, *number);
    }
    end
}

// A rule's line, its newline included.
fn put_line(output: &mut [u8], at: usize, numbers: &[i32]) -> usize
    requires room { at + (22 * length numbers.now + 2) ≤ farthest }
    ensures written { Put (line_of numbers.now) output.old output.new at result }
    ensures within { result ≤ at + (22 * length numbers.now + 2) }
{
    let from = writing::put_bytes(output, at, b"1");
    let end = put_numbers(output, from, numbers);
    writing::put_bytes(output, end, b"\n")
}

// The line of a rule with these numbers, and one rule more.
pub fn emit(output: &mut [u8], place: Place, numbers: &[i32]) -> Place
    requires place { Bounded place }
    requires few { length numbers.now ≤ most_line }
    ensures { (x : InputRule) → rule_numbers x ≡ numbers.now
        → Emits (x ∷ []) output.old output.new place result }
{
    if MOST_RULES < place.rules {
        return place;
    }
    if place.rules == MOST_RULES {
        return Place {
            at: place.at,
            rules: MOST_RULES + 1,
        };
    }
    let at = put_line(output, place.at, numbers);
    Place {
        at,
        rules: place.rules + 1,
    }
}

// Rules are given by their words: one with a long sum, whose heads `put_head` writes, is no `tables::Rule` (`sound_at`).

// The bound of a rule with a weight body, of the rule at the front of some words.
fn put_bound(output: &mut [u8], at: usize, words: &[i32]) -> usize
    requires rule { shape_sound words.now ≡ true }
    requires room { at + 22 ≤ farthest }
    ensures written { Put (spaced (bound_numbers words.now)) output.old output.new at result }
    ensures within { result ≤ at + 22 }
{
    if tables::is_weighted(words) {
        return writing::put_number(output, at, words[4]);
    }
    at
}

// What stands in a rule's line up to its heads.
pub fn put_head(output: &mut [u8], at: usize, words: &[i32]) -> usize
    requires rule { shape_sound words.now ≡ true }
    requires room { at + (22 * most_line + 2) ≤ farthest }
    ensures written { Put (49 ∷ spaced (head_numbers words.now)) output.old output.new at result }
    ensures within { result ≤ at + (1 + 22 * 66) }
{
    let from = writing::put_bytes(output, at, b"1");
    let end = put_numbers(output, from, &words[..2]);
    put_numbers(output, end, tables::heads_of(words))
}

// What stands in a rule's line behind its heads.
fn put_body(output: &mut [u8], at: usize, words: &[i32]) -> usize
    requires rule { shape_sound words.now ≡ true }
    requires room { at + (1 + 22 * 131) ≤ farthest }
    ensures written { Put (spaced (body_numbers_at words.now) ++ (10 ∷ [])) output.old output.new at result }
    ensures within { result ≤ at + (1 + 22 * 131) }
{
    let kind = writing::put_number(output, at, words[2]);
    let bound = put_bound(output, kind, words);
    let count = writing::put_number(output, bound, words[3]);
    let end = put_numbers(output, count, tables::body_of(words));
    writing::put_bytes(output, end, b"\n")
}

// The line of the rule at the front of some words.
fn put_rule(output: &mut [u8], at: usize, words: &[i32]) -> usize
    requires rule { shape_sound words.now ≡ true }
    requires room { at + (22 * most_line + 2) ≤ farthest }
    ensures written { (x : InputRule) (rest : List ℤ) → words.now ≡ rule_words x ++ rest
        → Put (line_of (rule_numbers x)) output.old output.new at result }
    ensures within { result ≤ at + (22 * most_line + 2) }
{
    let heads = put_head(output, at, words);
    put_body(output, heads, words)
}

// The line of the rule at the front of some words, and one rule more.
pub fn emit_rule(output: &mut [u8], place: Place, words: &[i32]) -> Place
    requires rule { shape_sound words.now ≡ true }
    requires place { Bounded place }
    ensures { (x : InputRule) (rest : List ℤ) → words.now ≡ rule_words x ++ rest
        → Emits (x ∷ []) output.old output.new place result }
{
    if MOST_RULES < place.rules {
        return place;
    }
    if place.rules == MOST_RULES {
        return Place {
            at: place.at,
            rules: MOST_RULES + 1,
        };
    }
    let at = put_rule(output, place.at, words);
    Place {
        at,
        rules: place.rules + 1,
    }
}

// A number after a space.
pub fn put_size(output: &mut [u8], at: usize, n: usize) -> usize
    requires { at + 1 ≤ farthest }
    ensures written { Put (32 ∷ number_bytes (pos n)) output.old output.new at result }
    ensures within { result ≤ at + 21 }
{
    let from = writing::put_bytes(output, at, b" ");
    writing::put_digits(output, from, n)
}

// The line of a rule that gives an atom where the pairs weigh at least the level.
fn put_sum(output: &mut [u8], at: usize, atom: usize, level: usize, pairs: &[i32]) -> usize
    requires room { at + (22 * (5 + length pairs.now) + 2) ≤ farthest }
    ensures written { Put (line_of (sum_numbers atom level pairs.now)) output.old output.new at result }
    ensures within { result ≤ at + (22 * (5 + length pairs.now) + 2) }
{
    let first = writing::put_bytes(output, at, b"1 0 1");
    let head = put_size(output, first, atom);
    let kind = writing::put_bytes(output, head, b" 1");
    let bound = put_size(output, kind, level);
    let count = put_size(output, bound, pairs.len() / 2);
    let end = put_numbers(output, count, pairs);
    writing::put_bytes(output, end, b"\n")
}

// The line of a rule that gives an atom where the pairs weigh at least the level, and one rule more.
fn emit_sum(output: &mut [u8], place: Place, atom: usize, level: usize, pairs: &[i32]) -> Place
    requires place { Bounded place }
    requires pairs { (all_weights pairs.now ≡ true) × (length pairs.now ≤ 24) }
    ensures { Emits (group_rule (record { atom = atom; pairs = paired pairs.now; bound = level }) ∷ [])
        output.old output.new place result }
{
    if MOST_RULES < place.rules {
        return place;
    }
    if place.rules == MOST_RULES {
        return Place {
            at: place.at,
            rules: MOST_RULES + 1,
        };
    }
    let at = put_sum(output, place.at, atom, level, pairs);
    Place {
        at,
        rules: place.rules + 1,
    }
}

// A rule for each level of a group of pairs, whose atoms are numbered from `atom` on.
pub fn emit_group(
    output: &mut [u8],
    place: Place,
    atom: usize,
    levels: &[usize],
    pairs: &[i32],
) -> Place
    requires place { Bounded place }
    requires pairs { (all_weights pairs.now ≡ true) × (length pairs.now ≤ 24) }
    requires atoms { atom + length levels.now ≤ farthest }
    ensures { Emits (map group_rule (numbered atom (paired pairs.now) levels.now))
        output.old output.new place result }
{
    let mut here = place;
    for (i, level) in levels.iter().enumerate() {
        here = emit_sum(output, here, atom + i, *level, pairs);
    }
    here
}
