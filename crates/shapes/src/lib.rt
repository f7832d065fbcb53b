// The shape of a tree of splits as it is lent: whether the numbers are one, and whether the lengths are those of its ends. Document 02,
// Change 14; 64 is decided here. What is a tree is specs/Tree.antt.
#![tactic(auto)]

ghost use Rattle.std.specs.Prelude.{◌≡◌, [], ◌-◌, ◌≤◌, eqb, length, take};
ghost use Rattle.words.specs.Lists.{any};
ghost use Rattle.shapes.specs.Tree.{tree_of, sum, most_splits};
ghost use Rattle.shapes.specs.Walks.{Walks, is_tree};

// The most splits on a path.
pub const MOST_SPLITS: usize = 6;

// How many numbers a tree takes and how many ends it has.
#[derive(Drop)]
struct Walked {
    numbers: usize,
    ends: usize,
}

// The atom is on the path.
fn is_on(path: &[u16], atom: u16) -> bool
    ensures { result ≡ any (eqb atom) path.now }
{
    path.contains(&atom)
}

// The tree at the front of the numbers, where there is one, with so many splits left below it. The path has an atom for each split above.
fn shape(depth: usize, path: [u16; MOST_SPLITS], atoms: usize, tree: &[u16]) -> Option<Walked>
    requires depth { depth ≤ most_splits }
    requires path { length path ≡ most_splits }
    ensures { Walks (tree_of depth (take (most_splits - depth) path) atoms tree.now) tree.now result }
{
    if tree.len() == 0 {
        return None;
    }
    let atom = tree[0];
    if atom == 0 {
        return Some(Walked {
            numbers: 1,
            ends: 1,
        });
    }
    if depth == 0 {
        return None;
    }
    let mut below = path;
    if (atoms < words::wide(atom)) | is_on(&below[..MOST_SPLITS - depth], atom) {
        return None;
    }
    below[MOST_SPLITS - depth] = atom;
    let sides = &tree[1..];
    let first = shape(depth - 1, below, atoms, sides)?;
    let second = shape(depth - 1, below, atoms, &sides[first.numbers..])?;
    Some(Walked {
        numbers: 1 + first.numbers + second.numbers,
        ends: first.ends + second.ends,
    })
}

// The lengths add up to the size.
fn adds_up(lengths: &[u64], size: usize) -> bool
    ensures { result ≡ eqb (sum lengths.now) size }
{
    let mut left = size as u64;
    for length in lengths {
        if left < *length {
            return false;
        }
        left -= *length;
    }
    left == 0
}

// 64: the numbers are a tree, with nothing after it, and the lengths are those of its ends.
pub fn is_tree(atoms: usize, tree: &[u16], size: usize, lengths: &[u64]) -> bool
    ensures { result ≡ is_tree (tree_of most_splits [] atoms tree.now) size lengths.now }
{
    match shape(MOST_SPLITS, [0; MOST_SPLITS], atoms, tree) {
        None => false,
        Some(walked) => {
            (walked.numbers == tree.len()) & (walked.ends == lengths.len()) & adds_up(lengths, size)
        }
    }
}
