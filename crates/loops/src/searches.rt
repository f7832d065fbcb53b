// The search over the edges between places: what the first place leads to, and what leads to it.
ghost use Rattle.std.specs.Prelude.{◌≡◌, not, ◌&&◌, ◌≤◌, ◌<◌, length, set, replicate};
ghost use Rattle.words.specs.Limits.{most_numbers};
ghost use Rattle.marks.specs.Marks.{marked};
ghost use Rattle.loops.specs.Searches.{steps, Noted, Spread, Open, Searched, Full};

use words::MOST_NUMBERS;

// An edge from place a to place b; where asked for, one the other way.
fn is_step(edges: &[u8], back: bool, a: usize, b: usize) -> bool
    requires { (a < most_numbers) × (b < most_numbers) }
    ensures { result ≡ steps edges.now back a b }
{
    if back {
        return marks::is_marked(edges, b * MOST_NUMBERS + a);
    }
    marks::is_marked(edges, a * MOST_NUMBERS + b)
}

// Place b is found where an edge leads there from place a.
fn note(edges: &[u8], back: bool, a: usize, b: usize, found: &mut [u8])
    requires { (a < most_numbers) × (b < most_numbers) × (length found.old ≡ most_numbers) }
    ensures { Noted b (steps edges.now back a b) found.old found.new }
{
    if is_step(edges, back, a, b) {
        marks::mark(found, b);
    }
}

// Each place below n is found where an edge leads there from place a.
fn spread(edges: &[u8], back: bool, n: usize, a: usize, found: &mut [u8])
    requires { (n ≤ most_numbers) × (a < most_numbers) × (length found.old ≡ most_numbers) }
    ensures { Spread (steps edges.now back a) n found.old found.new }
{
    for b in 0..n {
        note(edges, back, a, b, found);
    }
}

// The place is found and not done.
fn is_open(found: &[u8], done: &[u8], v: usize) -> bool
    ensures { result ≡ (marked found.now v && not (marked done.now v)) }
{
    marks::is_marked(found, v) && !marks::is_marked(done, v)
}

// The first place below n that is found and not done.
fn next_open(found: &[u8], done: &[u8], n: usize) -> Option<usize>
    ensures { Open found.now done.now n result }
{
    (0..n).find(|v| is_open(found, done, *v))
}

// Place a is done: what it leads to is found.
fn advance(edges: &[u8], back: bool, n: usize, a: usize, found: &mut [u8], done: &mut [u8])
    requires { (n ≤ most_numbers) × (a < most_numbers) × (length found.old ≡ most_numbers) }
    ensures { Spread (steps edges.now back a) n found.old found.new
        × (done.new ≡ set done.old a 1) }
{
    marks::mark(done, a);
    spread(edges, back, n, a, found);
}

// The places below n that place 0 reaches; where asked for, those that reach it. Place 0 itself is found only where a
// way leads back to it.
fn explore(edges: &[u8], back: bool, n: usize, found: &mut [u8], done: &mut [u8])
    requires { (n ≤ most_numbers) × (found.old ≡ replicate most_numbers 0) × (done.old ≡ replicate most_numbers 0) }
    ensures { Searched (steps edges.now back) n found.new }
{
    spread(edges, back, n, 0, found);
    while let Some(a) = next_open(found, done, n) {
        advance(edges, back, n, a, found, done);
    }
}

// The same, as marks.
pub fn search(edges: &[u8], back: bool, n: usize) -> [u8; MOST_NUMBERS]
    requires { n ≤ most_numbers }
    ensures { Searched (steps edges.now back) n result }
{
    let mut found = [0u8; MOST_NUMBERS];
    let mut done = [0u8; MOST_NUMBERS];
    explore(edges, back, n, &mut found, &mut done);
    found
}

// Every place below n is marked.
pub fn is_full(found: &[u8], n: usize) -> bool
    ensures { Full n found.now result }
{
    (0..n).all(|v| marks::is_marked(found, v))
}
