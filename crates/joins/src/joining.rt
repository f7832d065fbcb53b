// The rules of a joined node: for each of its levels one for each two shares of its sides that are just enough, as
// `join_rules` of crates/sums/specs/Plans.antt has them.
ghost use Rattle.std.specs.Prelude.{◌≡◌, [], ◌∷◌, ◌++◌, ℕ, ◌+◌, ◌≤◌, length};
ghost use Rattle.text.specs.Decimals.{spaced};
ghost use Rattle.text.specs.Writing.{Put, farthest};
ghost use Rattle.weights.specs.Weights.{most_weight};
ghost use Rattle.sums.specs.Plans.{join_rules};
ghost use Rattle.totalizer.specs.Lists.{SumsUpTo};
ghost use Rattle.totalizer.specs.Emitting.{line_of, Bounded, Emits};
ghost use Rattle.joins.specs.Joining.{said_at, share_at, shares_of, plain_rule, plain_numbers, share_rules, node_joins};

use crate::pairing;
use text::writing;
use totalizer::texts;
use totalizer::texts::Place;
use words::MOST_RULES;

// How many literals say that share i is reached.
fn said_count(i: usize) -> usize
    ensures { ((n : ℕ) → result ≡ length (said_at n i)) × (result ≤ 1) }
{
    if i == 0 { 0 } else { 1 }
}

// The literal that says that share i is reached, after a space; none for share 0.
fn put_said(output: &mut [u8], at: usize, first: usize, i: usize) -> usize
    requires room { at + 21 ≤ farthest }
    requires atoms { first + i ≤ farthest }
    ensures written { Put (spaced (said_at first i)) output.old output.new at result }
    ensures within { result ≤ at + 21 }
{
    if i == 0 {
        return at;
    }
    texts::put_size(output, at, first + (i - 1))
}

// The line of the rule that gives an atom from two shares.
fn put_join(
    output: &mut [u8],
    at: usize,
    atom: usize,
    first: usize,
    i: usize,
    second: usize,
    j: usize,
) -> usize
    requires room { at + 92 ≤ farthest }
    requires atoms { (first + i ≤ farthest) × (second + j ≤ farthest) }
    ensures written { Put (line_of (plain_numbers atom (said_at first i ++ said_at second j))) output.old output.new at result }
    ensures within { result ≤ at + 92 }
{
    let head = writing::put_bytes(output, at, b"1 0 1");
    let kind = texts::put_size(output, head, atom);
    let count = writing::put_bytes(output, kind, b" 0");
    let body = texts::put_size(output, count, said_count(i) + said_count(j));
    let right = put_said(output, body, first, i);
    let end = put_said(output, right, second, j);
    writing::put_bytes(output, end, b"\n")
}

// The line of the rule that gives an atom from two shares, and one rule more.
fn emit_join(
    output: &mut [u8],
    place: Place,
    atom: usize,
    first: usize,
    i: usize,
    second: usize,
    j: usize,
) -> Place
    requires place { Bounded place }
    requires atoms { (first + i ≤ farthest) × (second + j ≤ farthest) }
    ensures { Emits (plain_rule atom (said_at first i ++ said_at second j) ∷ []) output.old output.new place result }
{
    if MOST_RULES < place.rules {
        return place;
    }
    if place.rules == MOST_RULES {
        return Place {
            at: place.at,
            rules: MOST_RULES + 1,
        };
    }
    let at = put_join(output, place.at, atom, first, i, second, j);
    Place {
        at,
        rules: place.rules + 1,
    }
}

// The rule that gives an atom from share i of the left side, where there is one.
fn emit_share(
    output: &mut [u8],
    place: Place,
    atom: usize,
    level: usize,
    left: &[usize],
    first: usize,
    i: usize,
    right: &[usize],
    second: usize,
) -> Place
    requires place { Bounded place }
    requires levels { SumsUpTo most_weight (0 ∷ left.now) × SumsUpTo most_weight (0 ∷ right.now) }
    requires atoms { (first + length left.now ≤ farthest) × (second + length right.now ≤ farthest) }
    requires there { i ≤ length left.now }
    ensures { Emits (share_rules atom level (shares_of first left.now) (shares_of second right.now)
        (share_at first left.now i)) output.old output.new place result }
{
    match pairing::partner_of(left, i, right, level) {
        Some(j) => emit_join(output, place, atom, first, i, second, j),
        None => place,
    }
}

// The rules of one level. Nothing is looked for where there are too many rules already.
fn emit_level(
    output: &mut [u8],
    place: Place,
    atom: usize,
    level: usize,
    left: &[usize],
    first: usize,
    right: &[usize],
    second: usize,
) -> Place
    requires place { Bounded place }
    requires levels { SumsUpTo most_weight (0 ∷ left.now) × SumsUpTo most_weight (0 ∷ right.now) }
    requires atoms { (first + length left.now ≤ farthest) × (second + length right.now ≤ farthest) }
    ensures { Emits (join_rules (shares_of first left.now) (shares_of second right.now)
        (record { atom = atom; pairs = []; bound = level })) output.old output.new place result }
{
    if MOST_RULES < place.rules {
        return place;
    }
    let mut here = place;
    for i in 0..left.len() + 1 {
        here = emit_share(output, here, atom, level, left, first, i, right, second);
    }
    here
}

// The rules of a joined node, whose atoms are numbered from `atom` on, of the levels of its sides.
pub fn emit_node(
    output: &mut [u8],
    place: Place,
    atom: usize,
    levels: &[usize],
    left: &[usize],
    first: usize,
    right: &[usize],
    second: usize,
) -> Place
    requires place { Bounded place }
    requires levels { SumsUpTo most_weight (0 ∷ left.now) × SumsUpTo most_weight (0 ∷ right.now) }
    requires atoms { (first + length left.now ≤ farthest) × (second + length right.now ≤ farthest) × (atom + length levels.now ≤ farthest) }
    ensures { Emits (node_joins atom levels.now first left.now second right.now)
        output.old output.new place result }
{
    let mut here = place;
    for (k, level) in levels.iter().enumerate() {
        here = emit_level(output, here, atom + k, *level, left, first, right, second);
    }
    here
}
