// Weight bodies as pairs of words, each literal with its weight behind it: what the weights add up to, and whether a list of literals
// is one of the minimal sets. No set is kept: specs/Weights.antt says which there are.
#![tactic(auto)]

ghost use Rattle.std.specs.Prelude.{◌≡◌, true, ◌≤◌, min, drop};
ghost use Rattle.words.specs.Lists.{any};
ghost use Rattle.words.specs.Literals.{same_list, distinct};
ghost use Rattle.weights.specs.Weights.{sum, literals, bodies, paired, most_weight, most_sum};
ghost use Rattle.weights.specs.Completing.{starts_with};

// The limits of specs/Weights.antt: the most literals of a weight body, and the largest bound and weight.
pub const MOST_WEIGHTED: usize = 12;

pub const MOST_WEIGHT: usize = 4095;

// More than the weights of a rule add up to: the least of no weights.
pub const NO_LEAST: usize = MOST_WEIGHTED * MOST_WEIGHT + 1;

// What the weights add up to.
pub fn sum_of(pairs: &[i32]) -> usize
    requires { sum (paired pairs.now) ≤ most_sum }
    ensures { result ≡ sum (paired pairs.now) }
{
    let mut total = 0;
    for pair in pairs.chunks_exact(2) {
        total += words::variable_of(pair[1]);
    }
    total
}

// The words from j on start with x.
fn stands_at(list: &[i32], j: usize, x: i32) -> bool
    ensures { result ≡ starts_with x (drop j list.now) }
{
    match list.get(j) {
        Some(y) => words::is_same(*y, x),
        None => false,
    }
}

// The smaller of two numbers.
pub fn smaller(a: usize, b: usize) -> usize
    ensures { result ≡ min a b }
{
    a.min(b)
}

// The literals are those of one of the bodies: one merge of two lists, with the sum and the least weight.
pub fn is_body(pairs: &[i32], bound: usize, list: &[i32]) -> bool
    requires { (bound ≤ most_weight) × (sum (paired pairs.now) ≤ most_sum) × (distinct (literals (paired pairs.now)) ≡ true) }
    ensures { result ≡ any (same_list list.now) (bodies bound (paired pairs.now)) }
{
    let mut total = 0;
    let mut least = NO_LEAST;
    let mut j = 0;
    for pair in pairs.chunks_exact(2) {
        if stands_at(list, j, pair[0]) {
            let w = words::variable_of(pair[1]);
            total += w;
            least = least.min(w);
            j += 1;
        }
    }
    (j == list.len()) & ((bound <= total) & (total < bound + least))
}
