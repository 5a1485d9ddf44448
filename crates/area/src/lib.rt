// The state area: records of the kept states, written and read back.
#![tactic(auto)]

ghost use Rattle.std.specs.Prelude.{◌≡◌, ◌+◌, ◌≤◌, pos, length, replicate};
ghost use Rattle.runs.specs.Rule.{covered as coveredBy};
ghost use Rattle.area.specs.Area.{record_size, room_of};
ghost use Rattle.area.specs.Records.{written, kept, state, Keepable, Stands, Recorded, Locates};
ghost use Rattle.area.specs.Records.{state_in, states_in, covers_by};

// A kept state where it stands: its location and its list.
#[derive(Clone, Copy, Debug, PartialEq, Eq)]
pub struct Located<'a> {
    pub location: u32,
    pub list: &'a [i32],
}

// How many words a record has.
pub fn size(n: usize) -> usize
    requires { n ≤ 6 }
    ensures { result ≡ record_size n }
{
    4 + 32 * (n + 1)
}

// How many states there is room for.
pub fn room(area: &[i32], n: usize) -> usize
    requires { n ≤ 6 }
    ensures { result ≡ room_of n area.now }
{
    (area.len() / size(n)).min(64)
}

// Sets every word to 0.
pub fn zero(words: &mut [i32])
    ensures { words.new ≡ replicate (length words.old) (pos 0) }
{
    words.fill(0);
}

// Writes a record: location, parent, edge, vector count, the list, and 0 behind it.
fn write(words: &mut [i32], location: i32, parent: i32, edge: i32, count: i32, list: &[i32])
    requires { 4 + length list.now ≤ length words.old }
    ensures { words.new ≡ written (length words.old) location parent edge count list.now }
{
    zero(words);
    words[..4].copy_from_slice(&[location, parent, edge, count]);
    // word by word: where neither slice is a local, `copy_from_slice` calls memmove, which the header does not name
    for (i, word) in list.iter().enumerate() {
        words[4 + i] = *word;
    }
}

// Keeps a state: writes its record behind the first k.
// parent and edge are words of the record, −1 for state 0: an Option here would only be taken apart into them
pub fn keep(
    area: &mut [i32],
    n: usize,
    k: usize,
    location: u32,
    parent: i32,
    edge: i32,
    list: &[i32],
)
    requires { Keepable n area.old k location list.now }
    ensures { area.new ≡ kept n area.old k (state location parent edge list.now) }
{
    let size = size(n);
    let from = k * size;
    let to = from + size;
    let count = list.len() / (n + 1);
    write(
        &mut area[from..to],
        location as i32,
        parent,
        edge,
        count as i32,
        list,
    );
}

// Finds where the state of record i stands.
pub fn locate(area: &[i32], n: usize, i: usize) -> Located<'_>
    requires { (n ≤ 6) × Stands n area.now i }
    ensures { Locates n area.now i result }
{
    let at = i * size(n);
    let location = area[at] as u32;
    let vectors = area[at + 3] as usize;
    let from = at + 4;
    let to = from + vectors * (n + 1);
    Located {
        location,
        list: &area[from..to],
    }
}

// Whether the state of record i is in location q and includes the list.
fn covers(area: &[i32], n: usize, i: usize, q: u32, list: &[i32]) -> bool
    requires { (n ≤ 6) × Stands n area.now i }
    ensures { result ≡ covers_by n q list.now (state_in n area.now i) }
{
    let state = locate(area, n, i);
    state.location == q && sets::included(n, list, state.list).unwrap_or(false)
}

// Whether one of the first k states is in location q and includes the list.
pub fn covered(area: &[i32], n: usize, k: usize, q: u32, list: &[i32]) -> bool
    requires { (n ≤ 6) × Recorded n k area.now }
    ensures { result ≡ coveredBy n (states_in n k area.now) q list.now }
{
    (0..k).any(|i| covers(area, n, i, q, list))
}
