// The result of a call: the vectors of working memory cleaned, looked at, sorted, and written once.
ghost use Rattle.std.specs.Prelude.{suc};
ghost use Rattle.sorting.specs.Rows.{held};
ghost use Rattle.making.specs.Finish.{Finishable, Finishes, Writable, Writes};

use crate::clean::clean;
use crate::range;
use crate::work::Work;
use numbers::Refusal;
use sets::entries;

// The vectors that are on, sorted, as the result, if there are at most 32.
fn write(area: &mut [i32], work: &[i32], n: usize, alive: &[bool]) -> Result<usize, Refusal>
    requires { Writable n work.now alive.now area.old }
    ensures { Writes n work.now alive.now area.old result area.new }
{
    let mut result = [0; 224];
    let k = sorting::emit(&mut result, work, alive.len(), n, alive).ok_or(Refusal::Gens)?;
    let end = k * (n + 1);
    area[..end].copy_from_slice(&result[..end]);
    Ok(k)
}

// The canonical list of the vectors as the result; without a point it is empty.
pub fn finish(area: &mut [i32], work: &Work, n: usize) -> Result<usize, Refusal>
    requires { Finishable n work.now.words work.now.count area.old }
    ensures { Finishes n (held (suc n) work.now.count work.now.words) area.old result area.new }
{
    if !entries::has_point(n, &work.words[..work.count * (n + 1)]) {
        return Ok(0);
    }
    let mut flags = [true; 272]; // beside the vectors, since the test of a vector takes any flags
    let alive = &mut flags[..work.count];
    clean(alive, &work.words, n);
    if !range::fits(&work.words, n, alive) {
        return Err(Refusal::Range);
    }
    write(area, &work.words, n, alive)
}
