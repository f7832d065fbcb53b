// The records of the nogoods, one after another: a header, and then the literals. What the words mean is specs/Store.antt.
ghost use Rattle.std.specs.Prelude.{◌≡◌, ◌≤◌, length};
ghost use Rattle.nogoods.specs.Records.{dead_at, count_at, end_at, nogood_at};

// As many words a header has: the origin, and the literal count.
pub const HEADER: usize = 2;

// Where the literal count stands in a record.
pub const COUNT: usize = 1;

// The record at r is that of a dead nogood.
pub fn is_dead(store: &[i32], r: usize) -> bool
    requires { end_at store.now r ≤ length store.now }
    ensures { result ≡ dead_at store.now r }
{
    store[r] < 0
}

// The literal count of the record at r.
pub fn count_at(store: &[i32], r: usize) -> usize
    requires { end_at store.now r ≤ length store.now }
    ensures { result ≡ count_at store.now r }
{
    words::variable_of(store[r + COUNT])
}

// Where the record at r ends; the next one begins there.
pub fn end_at(store: &[i32], r: usize) -> usize
    requires { end_at store.now r ≤ length store.now }
    ensures { result ≡ end_at store.now r }
{
    r + HEADER + count_at(store, r)
}

// The literals of the record at r.
pub fn nogood_at(store: &[i32], r: usize) -> &[i32]
    requires { end_at store.now r ≤ length store.now }
    ensures { result.now ≡ nogood_at store.now r }
{
    let start = r + HEADER;
    let end = end_at(store, r);
    &store[start..end]
}
