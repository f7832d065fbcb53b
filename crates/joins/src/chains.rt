// The rules of a long sum: group after group, each joined to what stands before it. Once there are more rules than a
// program may have, no group follows; that is asked before each but the last.
ghost use Rattle.std.specs.Prelude.{◌≡◌, true, List, [], ◌∷◌, ◌++◌, map, ℕ, suc, ◌+◌, ◌*◌, ◌-◌, ◌≤◌, ◌<◌, length, take};
ghost use Rattle.words.specs.Limits.{most_rules};
ghost use Rattle.text.specs.Writing.{farthest};
ghost use Rattle.weights.specs.Weights.{most_weight, paired};
ghost use Rattle.aspif.specs.Reading.{all_weights};
ghost use Rattle.sums.specs.Plans.{numbered, group_rule, root, size, node_rules};
ghost use Rattle.sums.specs.Levels.{SumShape, both, pairs_in, levelled, in_groups};
ghost use Rattle.totalizer.specs.Lists.{SumsUpTo};
ghost use Rattle.totalizer.specs.Emitting.{Bounded, Emits};
ghost use Rattle.joins.specs.Joining.{node_joins};
ghost use Rattle.joins.specs.Chaining.{group_levels, prefix_levels, pairs_within, first_rules, turn_rules, after, Written};

use crate::joining;
use totalizer::texts::Place;
use totalizer::{levels, texts};
use words::MOST_RULES;

// Where the next line begins, with how many rules are written, and the atoms of a node: so many from the first on. The
// next new atom is the one after them.
#[derive(Drop)]
pub struct Node {
    pub place: Place,
    pub first: usize,
    pub count: usize,
}

// Where the next line begins, with how many rules are written, and the next new atom.
#[derive(Clone, Copy)]
pub struct Numbered {
    pub place: Place,
    pub atom: usize,
}

// The rules of the group of pairs `from` up to `to`, and its levels at the front of `levels`.
fn emit_part(
    output: &mut [u8],
    place: Place,
    atom: usize,
    pairs: &[i32],
    from: usize,
    to: usize,
    bound: usize,
    inside: &mut [usize],
    outside: &mut [usize],
    spare: &mut [usize],
    levels: &mut [usize],
) -> Node
    requires place { Bounded place }
    requires pairs { (all_weights pairs.now ≡ true) × (bound ≤ most_weight) }
    requires part { (from ≤ to) × (to ≤ from + 12) × (2 * to ≤ length pairs.now) }
    requires room { (suc bound ≤ length inside.old) × (suc bound ≤ length outside.old) × (suc bound ≤ length spare.old)
        × (suc bound ≤ length levels.old) }
    requires atoms { atom + 4096 ≤ farthest }
    ensures rules { Emits (map group_rule (numbered atom (pairs_within from to pairs.now)
        (group_levels bound from to pairs.now))) output.old output.new place result.place }
    ensures levels { take result.count levels.new ≡ group_levels bound from to pairs.now }
    ensures within { (result.first ≡ atom) × (result.count ≤ length levels.new) }
{
    let start = 2 * from;
    let end = 2 * to;
    let count = levels::levels_of(
        &pairs[..start],
        &pairs[start..end],
        &pairs[end..],
        bound,
        inside,
        outside,
        spare,
        levels,
    );
    let place = texts::emit_group(output, place, atom, &levels[..count], &pairs[start..end]);
    Node {
        place,
        first: atom,
        count,
    }
}

// The levels of the pairs before `to`, at the front of `levels`.
fn prefix_levels(
    pairs: &[i32],
    to: usize,
    bound: usize,
    inside: &mut [usize],
    outside: &mut [usize],
    spare: &mut [usize],
    levels: &mut [usize],
) -> usize
    requires pairs { (all_weights pairs.now ≡ true) × (bound ≤ most_weight) × (2 * to ≤ length pairs.now) }
    requires room { (suc bound ≤ length inside.old) × (suc bound ≤ length outside.old) × (suc bound ≤ length spare.old)
        × (suc bound ≤ length levels.old) }
    ensures levels { take result levels.new ≡ prefix_levels bound to pairs.now }
    ensures within { result ≤ length levels.new }
{
    let end = 2 * to;
    levels::levels_of(
        &pairs[..0],
        &pairs[..end],
        &pairs[end..],
        bound,
        inside,
        outside,
        spare,
        levels,
    )
}

// The rules of the node that joins a side to a node before it, and the levels of what is joined, the pairs before `to`,
// at the front of `left` in place of the node's.
fn emit_prefix(
    output: &mut [u8],
    node: Node,
    side: Node,
    pairs: &[i32],
    to: usize,
    bound: usize,
    inside: &mut [usize],
    outside: &mut [usize],
    spare: &mut [usize],
    left: &mut [usize],
    right: &[usize],
    next: &mut [usize],
) -> Node
    requires place { Bounded side.place }
    requires pairs { (all_weights pairs.now ≡ true) × (bound ≤ most_weight) × (2 * to ≤ length pairs.now) }
    requires room { (suc bound ≤ length inside.old) × (suc bound ≤ length outside.old) × (suc bound ≤ length spare.old)
        × (suc bound ≤ length left.old) × (suc bound ≤ length next.old) }
    requires within { (node.count ≤ length left.old) × (side.count ≤ length right.now) }
    requires levels { SumsUpTo most_weight (0 ∷ take node.count left.old) × SumsUpTo most_weight (0 ∷ take side.count right.now) }
    requires atoms { (after node ≤ farthest) × (after side + 4096 ≤ farthest) }
    ensures rules { Emits (node_joins (after side) (prefix_levels bound to pairs.now)
        node.first (take node.count left.old) side.first (take side.count right.now))
        output.old output.new side.place result.place }
    ensures levels { take result.count left.new ≡ prefix_levels bound to pairs.now }
    ensures within { (result.first ≡ after side) × (result.count ≤ length left.new) }
{
    let n = prefix_levels(pairs, to, bound, inside, outside, spare, next);
    let atom = side.first + side.count;
    let count = node.count;
    let m = side.count;
    let place = joining::emit_node(
        output,
        side.place,
        atom,
        &next[..n],
        &left[..count],
        node.first,
        &right[..m],
        side.first,
    );
    levels::copy_sums(left, &next[..n]);
    Node {
        place,
        first: atom,
        count: n,
    }
}

// The rules of the next group, of pairs `from` up to `to`, and of the node that joins it to what stands before it.
fn emit_next(
    output: &mut [u8],
    node: Node,
    pairs: &[i32],
    from: usize,
    to: usize,
    bound: usize,
    inside: &mut [usize],
    outside: &mut [usize],
    spare: &mut [usize],
    left: &mut [usize],
    right: &mut [usize],
    next: &mut [usize],
) -> Node
    requires node { Bounded node.place × (node.count ≤ length left.old)
        × (take node.count left.old ≡ prefix_levels bound from pairs.now) × (after node + 8192 ≤ farthest) }
    requires pairs { (all_weights pairs.now ≡ true) × (bound ≤ most_weight) }
    requires part { (from ≤ to) × (to ≤ from + 12) × (2 * to ≤ length pairs.now) }
    requires room { (suc bound ≤ length inside.old) × (suc bound ≤ length outside.old) × (suc bound ≤ length spare.old)
        × (suc bound ≤ length left.old) × (suc bound ≤ length right.old) × (suc bound ≤ length next.old) }
    ensures rules { Emits (turn_rules node.first (prefix_levels bound from pairs.now) (after node)
        (pairs_within from to pairs.now) (group_levels bound from to pairs.now)
        (prefix_levels bound to pairs.now)) output.old output.new node.place result.place }
    ensures levels { take result.count left.new ≡ prefix_levels bound to pairs.now }
    ensures within { (result.first ≡ after node + length (group_levels bound from to pairs.now))
        × (result.count ≤ length left.new) }
{
    let atom = node.first + node.count;
    let place = node.place;
    let side = emit_part(
        output, place, atom, pairs, from, to, bound, inside, outside, spare, right,
    );
    emit_prefix(
        output, node, side, pairs, to, bound, inside, outside, spare, left, right, next,
    )
}

// The rules of the last group, of pairs `from` up to `to`, and of the last node, whose level is the bound alone.
fn emit_last(
    output: &mut [u8],
    node: Node,
    pairs: &[i32],
    from: usize,
    to: usize,
    bound: usize,
    inside: &mut [usize],
    outside: &mut [usize],
    spare: &mut [usize],
    left: &[usize],
    right: &mut [usize],
) -> Numbered
    requires node { Bounded node.place × (node.count ≤ length left.now)
        × (take node.count left.now ≡ prefix_levels bound from pairs.now) × (after node + 8192 ≤ farthest) }
    requires pairs { (all_weights pairs.now ≡ true) × (bound ≤ most_weight) }
    requires part { (from ≤ to) × (to ≤ from + 12) × (2 * to ≤ length pairs.now) }
    requires room { (suc bound ≤ length inside.old) × (suc bound ≤ length outside.old) × (suc bound ≤ length spare.old)
        × (suc bound ≤ length right.old) }
    ensures rules { Emits (turn_rules node.first (prefix_levels bound from pairs.now) (after node)
        (pairs_within from to pairs.now) (group_levels bound from to pairs.now) (bound ∷ []))
        output.old output.new node.place result.place }
    ensures atom { result.atom ≡ after node + length (group_levels bound from to pairs.now) + 1 }
{
    let atom = node.first + node.count;
    let count = node.count;
    let here = node.place;
    let side = emit_part(
        output, here, atom, pairs, from, to, bound, inside, outside, spare, right,
    );
    let m = side.count;
    let level = [bound];
    let place = joining::emit_node(
        output,
        side.place,
        atom + m,
        &level,
        &left[..count],
        node.first,
        &right[..m],
        atom,
    );
    Numbered {
        place,
        atom: atom + m + 1,
    }
}

// The rules of the groups behind the first, one after another: with those of the first, all of the sum's.
fn emit_rest(
    output: &mut [u8],
    first: Node,
    pairs: &[i32],
    group: usize,
    bound: usize,
    inside: &mut [usize],
    outside: &mut [usize],
    spare: &mut [usize],
    left: &mut [usize],
    right: &mut [usize],
    next: &mut [usize],
) -> Numbered
    requires first { (first.count ≤ length left.old) × (take first.count left.old ≡ group_levels bound 0 group pairs.now) }
    requires written { (before : List ℕ) × (p : Place)
        × Emits (first_rules group bound pairs.now first.first) before output.old p first.place }
    requires pairs { (all_weights pairs.now ≡ true) × (bound ≤ most_weight) × (24 < length pairs.now) × (length pairs.now ≤ 128) }
    requires group { (2 ≤ group) × (group ≤ 12) }
    requires atoms { first.first ≤ 2000000000 }
    requires room { (suc bound ≤ length inside.old) × (suc bound ≤ length outside.old) × (suc bound ≤ length spare.old)
        × (suc bound ≤ length left.old) × (suc bound ≤ length right.old) × (suc bound ≤ length next.old) }
    ensures { (before : List ℕ) (p : Place)
        → Emits (first_rules group bound pairs.now first.first) before output.old p first.place
        → Written group bound pairs.now first.first before output.new p result }
{
    // The last group goes another way, and a loop over parts that leaves it out is no plainer.
    let mut node = first;
    let mut from = group;
    while 2 * (from + group) < pairs.len() {
        let here = node.place;
        if MOST_RULES < here.rules {
            return Numbered {
                place: here,
                atom: node.first + node.count,
            };
        }
        node = emit_next(
            output,
            node,
            pairs,
            from,
            from + group,
            bound,
            inside,
            outside,
            spare,
            left,
            right,
            next,
        );
        from += group;
    }
    emit_last(
        output,
        node,
        pairs,
        from,
        pairs.len() / 2,
        bound,
        inside,
        outside,
        spare,
        left,
        right,
    )
}

// The rules of the groups of a long sum, one after another.
fn emit_chain(
    output: &mut [u8],
    place: Place,
    atom: usize,
    pairs: &[i32],
    group: usize,
    bound: usize,
    inside: &mut [usize],
    outside: &mut [usize],
    spare: &mut [usize],
    left: &mut [usize],
    right: &mut [usize],
    next: &mut [usize],
) -> Numbered
    requires place { Bounded place }
    requires pairs { (all_weights pairs.now ≡ true) × (bound ≤ most_weight) × (24 < length pairs.now) × (length pairs.now ≤ 128) }
    requires group { (2 ≤ group) × (group ≤ 12) }
    requires atoms { atom ≤ 2000000000 }
    requires room { (suc bound ≤ length inside.old) × (suc bound ≤ length outside.old) × (suc bound ≤ length spare.old)
        × (suc bound ≤ length left.old) × (suc bound ≤ length right.old) × (suc bound ≤ length next.old) }
    ensures { Written group bound pairs.now atom output.old output.new place result }
{
    let first = emit_part(
        output, place, atom, pairs, 0, group, bound, inside, outside, spare, left,
    );
    emit_rest(
        output, first, pairs, group, bound, inside, outside, spare, left, right, next,
    )
}

// The rules of a long sum whose pairs stand in the order of their groups: the new atoms are numbered from `atom` on,
// and are at most a million.
pub fn emit_long(
    output: &mut [u8],
    place: Place,
    atom: usize,
    pairs: &[i32],
    group: usize,
    bound: usize,
) -> Numbered
    requires place { Bounded place }
    requires pairs { (all_weights pairs.now ≡ true) × (bound ≤ most_weight) × (24 < length pairs.now) × (length pairs.now ≤ 128) }
    requires group { (2 ≤ group) × (group ≤ 12) }
    requires atoms { atom ≤ 2000000000 }
    ensures rules { (s t : SumShape) → in_groups (group - 1) (paired pairs.now) ≡ both s t
        → Emits (node_rules atom (root bound (levelled bound (pairs_in t ++ []) s) (levelled bound (pairs_in s ++ []) t)))
        output.old output.new place result.place }
    ensures atoms { (s t : SumShape) → in_groups (group - 1) (paired pairs.now) ≡ both s t → result.place.rules ≤ most_rules
        → result.atom ≡ atom + size (root bound (levelled bound (pairs_in t ++ []) s) (levelled bound (pairs_in s ++ []) t)) }
    ensures low { result.atom ≤ atom + 1000000 }
{
    if MOST_RULES < place.rules {
        return Numbered { place, atom };
    }
    let mut inside = [0usize; 4096];
    let mut outside = [0usize; 4096];
    let mut spare = [0usize; 4096];
    let mut left = [0usize; 4096];
    let mut right = [0usize; 4096];
    let mut next = [0usize; 4096];
    emit_chain(
        output,
        place,
        atom,
        pairs,
        group,
        bound,
        &mut inside,
        &mut outside,
        &mut spare,
        &mut left,
        &mut right,
        &mut next,
    )
}
