// Whether the entries of a result are within its limits.
ghost use Rattle.std.specs.Prelude.{◌≡◌, suc, ◌*◌, ◌≤◌, ◌<◌, length};
ghost use Rattle.numbers.specs.Words.{number};
ghost use Rattle.numbers.specs.Places.{entries};
ghost use Rattle.sets.specs.Rules.{flat};
ghost use Rattle.making.specs.Rules.{entry_ok};
ghost use Rattle.making.specs.Finish.{row_ok, alive_ok};

use numbers::Vector;

// Whether an entry of a point, or of a ray, is.
fn entry_fits(x: i32, point: bool) -> bool
    ensures { result ≡ entry_ok point (number x) }
{
    if point {
        x <= Vector::MOST
    } else {
        x == Vector::MARK || Vector::LEAST_RAY <= x
    }
}

// Whether each clock of a vector is.
fn row_fits(vector: &[i32], n: usize) -> bool
    requires { n < length vector.now }
    ensures { result ≡ row_ok n (entries vector.now) }
{
    let point = vector[n] != Vector::MARK;
    vector[..n].iter().all(|x| entry_fits(*x, point))
}

// Whether each vector that is on is.
pub fn fits(work: &[i32], n: usize, alive: &[bool]) -> bool
    requires { (n ≤ 6) × (length alive.now * suc n ≤ length work.now) }
    ensures { result ≡ alive_ok n alive.now (flat (suc n) work.now) }
{
    // with `all` the search does not see that each row may be looked at
    for (on, vector) in alive.iter().zip(work.chunks_exact(n + 1)) {
        if *on && !row_fits(vector, n) {
            return false;
        }
    }
    true
}
