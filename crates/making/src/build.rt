// The vectors that stand before cleaning, for each call. The three loops are short, and what a closure makes would need
// a definition to name it.
ghost use Rattle.std.specs.Prelude.{map};
ghost use Rattle.numbers.specs.Words.{number};
ghost use Rattle.algebra.specs.Vectors.{vectors};
ghost use Rattle.algebra.specs.Working.{to_ray, reset_vector, with_point};
ghost use Rattle.making.specs.Limits.{ResetLimits};
ghost use Rattle.making.specs.Change.{Changeable, Changes, Growable};
ghost use Rattle.making.specs.Work.{Grown};

use crate::work::Work;
use numbers::{Vector, product};
use sets::entries;

// Each vector of the list put behind the others.
pub fn each(work: &mut Work, list: &[i32], n: usize)
    requires { Growable n list.now work.old.words work.old.count }
    ensures { Grown n work.old.words work.old.count (vectors n list.now) work.new.count
        work.new.words }
{
    for vector in list.chunks_exact(n + 1) {
        work.push(vector, n);
    }
}

// Each vector of the list, made a ray, put behind the others.
pub fn rays(work: &mut Work, list: &[i32], n: usize)
    requires { Growable n list.now work.old.words work.old.count }
    ensures { Grown n work.old.words work.old.count (map (to_ray n) (vectors n list.now))
        work.new.count work.new.words }
{
    for vector in list.chunks_exact(n + 1) {
        let ray = Vector::ray(&vector[..n]);
        work.push(&ray.words[..n + 1], n);
    }
}

// The vector with its clock replaced: a point's clock gets the value, a ray's −∞.
fn replaced(vector: &[i32], n: usize, clock: usize, value: i32) -> Vector
    requires changeable { Changeable n vector.now }
    requires limits { ResetLimits n clock value }
    ensures { Changes n (reset_vector n clock value (map number vector.now)) result.words }
{
    let mut words = [0; 7];
    words[..n + 1].copy_from_slice(vector);
    words[clock] = product(value, vector[n]);
    Vector { words }
}

// Each vector of the list, its clock replaced, put behind the others.
pub fn replace(work: &mut Work, list: &[i32], n: usize, clock: usize, value: i32)
    requires growable { Growable n list.now work.old.words work.old.count }
    requires limits { ResetLimits n clock value }
    ensures { Grown n work.old.words work.old.count
        (map (reset_vector n clock value) (vectors n list.now)) work.new.count work.new.words }
{
    for vector in list.chunks_exact(n + 1) {
        let made = replaced(vector, n, clock, value);
        work.push(&made.words[..n + 1], n);
    }
}

// The vectors of the list, if it has a point, put behind the others.
pub fn pointed(work: &mut Work, list: &[i32], n: usize)
    requires { Growable n list.now work.old.words work.old.count }
    ensures { Grown n work.old.words work.old.count (with_point n (vectors n list.now))
        work.new.count work.new.words }
{
    if entries::has_point(n, list) {
        each(work, list, n);
    }
}
