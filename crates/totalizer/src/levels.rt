// What the weights of some literals can add up to, and which of these sums make a difference: `sums_of` and
// `levels_for` of crates/sums/specs/Levels.antt. A list of sums ascends, and none is above the bound.
ghost use Rattle.std.specs.Prelude.{◌≡◌, true, cond, suc, ◌+◌, ◌*◌, ◌-◌, ◌<◌, ◌≤◌, min, length, take, drop, get_or, ◌++◌, leb, position};
ghost use Rattle.weights.specs.Weights.{most_weight};
ghost use Rattle.weights.specs.Weights.{paired};
ghost use Rattle.aspif.specs.Reading.{all_weights};
ghost use Rattle.sums.specs.Levels.{is_useful, useful, raised, further, sums_of, levels_for};
ghost use Rattle.totalizer.specs.Lists.{SumsUpTo, head_or, sums_over, below};

// The smaller of two numbers.
pub fn smaller(a: usize, b: usize) -> usize
    ensures { result ≡ min a b }
{
    a.min(b)
}

// Sum i; `past` past the end.
pub fn sum_at(sums: &[usize], i: usize, past: usize) -> usize
    ensures { result ≡ get_or sums.now i past }
{
    match sums.get(i) {
        Some(sum) => *sum,
        None => past,
    }
}

// Sum j with the weight more, the bound at most; one above the bound past the end.
fn raised_at(sums: &[usize], j: usize, weight: usize, bound: usize) -> usize
    requires { SumsUpTo bound sums.now × (bound ≤ most_weight) × (weight ≤ most_weight) }
    ensures { result ≡ head_or (suc bound) (raised bound weight (drop j sums.now)) }
{
    if j < sums.len() {
        smaller(bound, sums[j] + weight)
    } else {
        bound + 1
    }
}

// The place after i where it is taken, or i.
fn after_if(taken: bool, i: usize, next: usize) -> usize
    ensures { result ≡ cond taken next i }
{
    if taken { next } else { i }
}

// The sums with a literal of that weight more.
fn add_weight(sums: &[usize], weight: usize, bound: usize, to: &mut [usize]) -> usize
    requires sums { SumsUpTo bound sums.now × (bound ≤ most_weight) × (weight ≤ most_weight) }
    requires room { suc bound ≤ length to.old }
    ensures within { result ≤ length to.new }
    ensures sums { take result to.new ≡ further bound weight sums.now }
{
    // A merge: either place moves on as its sum is taken, so that a chain is no plainer.
    let mut i = 0;
    let mut j = 0;
    let mut k = 0;
    while i + j < 2 * sums.len() {
        let u = sum_at(sums, i, bound + 1);
        let v = raised_at(sums, j, weight, bound);
        let x = smaller(u, v);
        to[k] = x;
        k += 1;
        i = after_if(u == x, i, i + 1);
        j = after_if(v == x, j, after_if(v < bound, sums.len(), j + 1));
    }
    k
}

// The source's numbers, from the destination's first on.
pub fn copy_sums(destination: &mut [usize], source: &[usize])
    requires { length source.now ≤ length destination.old }
    ensures { destination.new ≡ source.now
        ++ drop (length source.now) destination.old }
{
    // No `copy_from_slice`: with it the archive for C would need `memmove` from outside.
    for i in 0..source.len() {
        destination[i] = source[i];
    }
}

// The sums, of which there are n, with a literal of that weight more.
fn add_literal(
    sums: &mut [usize],
    n: usize,
    weight: usize,
    bound: usize,
    spare: &mut [usize],
) -> usize
    requires sums { SumsUpTo bound (take n sums.old) × (bound ≤ most_weight) × (weight ≤ most_weight) }
    requires room { (n ≤ length sums.old) × (suc bound ≤ length sums.old) × (suc bound ≤ length spare.old) }
    ensures within { result ≤ length sums.new }
    ensures sums { take result sums.new ≡ further bound weight (take n sums.old) }
{
    let count = add_weight(&sums[..n], weight, bound, spare);
    copy_sums(sums, &spare[..count]);
    count
}

// The sums, of which there are n, with each of the pairs more.
fn add_pairs(
    pairs: &[i32],
    bound: usize,
    sums: &mut [usize],
    n: usize,
    spare: &mut [usize],
) -> usize
    requires pairs { (all_weights pairs.now ≡ true) × (bound ≤ most_weight) }
    requires sums { SumsUpTo bound (take n sums.old) × (n ≤ length sums.old) }
    requires room { (suc bound ≤ length sums.old) × (suc bound ≤ length spare.old) }
    ensures within { result ≤ length sums.new }
    ensures sums { take result sums.new ≡ sums_over bound (take n sums.old) (paired pairs.now) }
{
    let mut count = n;
    for left in (0..pairs.len() / 2).rev() {
        let weight = words::variable_of(pairs[2 * left + 1]);
        count = add_literal(sums, count, weight, bound, spare);
    }
    count
}

// The place of the first sum that is at least `need`.
fn first_reaching(sums: &[usize], need: usize) -> Option<usize>
    ensures { result ≡ position (λ u. leb need u) sums.now }
{
    sums.iter().position(|sum| need <= *sum)
}

// How many sums stand before the first that is at least `need`.
pub fn below_of(sums: &[usize], need: usize) -> usize
    ensures { result ≡ below need sums.now }
{
    first_reaching(sums, need).unwrap_or(sums.len())
}

// Sum i makes a difference: beside the lowest sum of the others with which it reaches the bound, the sum before it does
// not.
fn is_useful(inside: &[usize], i: usize, outside: &[usize], bound: usize) -> bool
    requires sums { SumsUpTo bound inside.now × SumsUpTo bound outside.now × (bound ≤ most_weight) }
    requires there { i < length inside.now }
    ensures { result ≡ is_useful bound outside.now inside.now (get_or inside.now i 0) }
{
    let u = inside[i];
    if u == 0 {
        return false;
    }
    let j = below_of(outside, bound - u);
    if outside.len() <= j {
        return false;
    }
    if i == 0 {
        return true;
    }
    inside[i - 1] + outside[j] < bound
}

// The sums that make a difference, at the front of the levels.
fn useful_levels(inside: &[usize], outside: &[usize], bound: usize, levels: &mut [usize]) -> usize
    requires sums { SumsUpTo bound inside.now × SumsUpTo bound outside.now × (bound ≤ most_weight) }
    requires room { length inside.now ≤ length levels.old }
    ensures within { result ≤ length levels.new }
    ensures levels { take result levels.new ≡ useful bound outside.now inside.now }
{
    let mut k = 0;
    for i in 0..inside.len() {
        levels[k] = inside[i];
        k = after_if(is_useful(inside, i, outside, bound), k, k + 1);
    }
    k
}

// The sums of the pairs.
fn sums_of(pairs: &[i32], bound: usize, sums: &mut [usize], spare: &mut [usize]) -> usize
    requires pairs { (all_weights pairs.now ≡ true) × (bound ≤ most_weight) }
    requires room { (suc bound ≤ length sums.old) × (suc bound ≤ length spare.old) }
    ensures within { result ≤ length sums.new }
    ensures sums { take result sums.new ≡ sums_of bound (paired pairs.now) }
{
    sums[0] = 0;
    add_pairs(pairs, bound, sums, 1, spare)
}

// The sums of the pairs of two parts.
fn sums_of_both(
    first: &[i32],
    second: &[i32],
    bound: usize,
    sums: &mut [usize],
    spare: &mut [usize],
) -> usize
    requires pairs { (all_weights first.now ≡ true) × (all_weights second.now ≡ true) × (bound ≤ most_weight) }
    requires room { (suc bound ≤ length sums.old) × (suc bound ≤ length spare.old) }
    ensures within { result ≤ length sums.new }
    ensures sums { take result sums.new ≡ sums_of bound (paired first.now ++ paired second.now) }
{
    let n = sums_of(second, bound, sums, spare);
    add_pairs(first, bound, sums, n, spare)
}

// The levels of some pairs beside those before and behind them, at the front of `levels`. The other lists are for sums.
pub fn levels_of(
    before: &[i32],
    pairs: &[i32],
    behind: &[i32],
    bound: usize,
    inside: &mut [usize],
    outside: &mut [usize],
    spare: &mut [usize],
    levels: &mut [usize],
) -> usize
    requires pairs { (all_weights before.now ≡ true) × (all_weights pairs.now ≡ true) × (all_weights behind.now ≡ true)
        × (bound ≤ most_weight) }
    requires room { (suc bound ≤ length inside.old) × (suc bound ≤ length outside.old) × (suc bound ≤ length spare.old)
        × (suc bound ≤ length levels.old) }
    ensures within { result ≤ length levels.new }
    ensures levels { take result levels.new ≡ levels_for bound (paired before.now ++ paired behind.now)
        (paired pairs.now) }
{
    let n = sums_of(pairs, bound, inside, spare);
    let m = sums_of_both(before, behind, bound, outside, spare);
    useful_levels(&inside[..n], &outside[..m], bound, levels)
}
