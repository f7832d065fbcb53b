// The nogoods that define a name, for `b` and `e`: document 01, "Adds -n with L, then for each literal of L, ascending by
// variable, n with its complement."
ghost use Rattle.std.specs.Prelude.{List, ◌∷◌, map, ◌*◌, ◌≤◌, pos, length, drop, get_or};
ghost use Rattle.words.specs.Limits.{largest, widest, most_numbers};
ghost use Rattle.words.specs.Literals.{variable, complement, ascending};
ghost use Rattle.derivation.specs.Steps.{definition};
ghost use Rattle.nogoods.specs.Keeps.{Literals, WrittenFront};
ghost use Rattle.nogoods.specs.Index.{Keeps, Fits};
ghost use Rattle.nogoods.specs.Store.{Stored, record_of, added_in, kept_with, stored_words, words_of, record_size};
ghost use Rattle.nogoods.specs.Definitions.{pair, pair_size, defined, defined_size};

use crate::records::HEADER;
use crate::store;

// As many words the record of two literals has.
const PAIR: usize = HEADER + 2;

// The name with a literal's complement, ascending, at the front of the free tail. The origin is the number of the step, here and
// below.
fn write_pair(free: &mut [i32], origin: usize, name: i32, literal: i32)
    requires origin { origin ≤ widest }
    requires room { (variable literal ≤ largest) × (pair_size ≤ length free.old) }
    ensures { WrittenFront (stored_words (record_of origin (pair name literal))) free.old free.new }
{
    let mut pair = [name, words::complement_of(literal)];
    words::sort(&mut pair);
    store::write(free, origin, &pair);
}

// The name with each literal's complement, ascending, one record after another, at the front of the free tail.
fn write_pairs(free: &mut [i32], origin: usize, name: i32, literals: &[i32])
    requires origin { origin ≤ widest }
    requires room { Literals literals.now × (pair_size * length literals.now ≤ length free.old) }
    ensures { WrittenFront (words_of (added_in origin (map (pair name) literals.now)))
        free.old free.new }
{
    for i in 0..literals.len() {
        write_pair(&mut free[PAIR * i..], origin, name, literals[i]);
    }
}

// The name's complement with its literals, ascending, at the front of the free tail. The numbers are the name and its literals.
fn write_first(free: &mut [i32], origin: usize, numbers: &[i32])
    requires origin { origin ≤ widest }
    requires numbers { (variable (get_or numbers.now 0 (pos 0)) ≤ largest) × (1 ≤ length numbers.now) }
    requires room { (length numbers.now ≤ most_numbers) × (record_size numbers.now ≤ length free.old) }
    ensures { let l = numbers.now in
        WrittenFront (stored_words (record_of origin (ascending (complement (get_or l 0 (pos 0)) ∷ drop 1 l))))
        free.old free.new }
{
    let end = HEADER + numbers.len();
    store::write(free, origin, numbers);
    free[HEADER] = words::complement_of(numbers[0]);
    words::sort(&mut free[HEADER..end]);
}

// The words of a definition at the front of the free tail. The numbers may be left in another order.
fn write_definition(free: &mut [i32], origin: usize, numbers: &mut [i32])
    requires origin { origin ≤ widest }
    requires numbers { Literals numbers.old × (1 ≤ length numbers.old) × (length numbers.old ≤ most_numbers) }
    requires room { defined_size (length numbers.old) ≤ length free.old }
    ensures { WrittenFront (words_of (added_in origin (defined numbers.old)))
        free.old free.new }
{
    let end = HEADER + numbers.len();
    let name = numbers[0];
    write_first(free, origin, numbers);
    words::sort(&mut numbers[1..]);
    write_pairs(&mut free[end..], origin, name, &numbers[1..]);
}

// The definition of a name is live, after the others: how many words are used then, if the store is not too short. The numbers are
// the name and its literals; they may be left in another order.
pub fn append(
    store: &mut [i32],
    used: usize,
    index: &mut [u32],
    origin: usize,
    numbers: &mut [i32],
) -> Option<usize>
    requires held { (stored : List Stored) × Keeps store.old index.old used stored }
    requires origin { (1 ≤ origin) × (origin ≤ widest) }
    requires numbers { Literals numbers.old × (1 ≤ length numbers.old) × (length numbers.old ≤ most_numbers) }
    ensures { (stored : List Stored) → Keeps store.old index.old used stored
        → Fits (kept_with (length store.old)
        (added_in origin (definition (get_or numbers.old 0 (pos 0)) (drop 1 numbers.old))) stored)
        store.new index.new result }
{
    let size = HEADER + numbers.len() + PAIR * (numbers.len() - 1);
    let end = store::make_room(store, used, index, size);
    if store.len() - end < size {
        return None;
    }
    write_definition(&mut store[end..], origin, numbers);
    Some(end + size)
}
