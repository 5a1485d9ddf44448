// The vectors that a half-space makes: satisfying ones stay, and each gives one more with every violating one.
ghost use Rattle.std.specs.Prelude.{◌≡◌, ◌+◌, ◌*◌, [], ◌∷◌, map, ◌<◌};
ghost use Rattle.numbers.specs.Words.{number};
ghost use Rattle.algebra.specs.Vectors.{vectors, count};
ghost use Rattle.sets.specs.Tests.{part};
ghost use Rattle.making.specs.Work.{Grown, Sided, Sides, Halved, RoomOf, Mixable};
ghost use Rattle.making.specs.Work.{mixed_of, cross_at, crossings_at, crosses_at, crossed_list};
ghost use Rattle.algebra.specs.Wanted.{left, right};
ghost use Rattle.algebra.specs.Working.{intersect_list};
ghost use Rattle.making.specs.Finish.{Cuttable};
ghost use Rattle.making.specs.Halving.{halving};

use crate::work::Work;
use numbers::{mix, side};

// The sides of a half-space at the vectors of the list.
fn sides(out: &mut [i32], list: &[i32], ab: &[i32], n: usize)
    requires { Sided n list.now ab.now out.old }
    ensures { Sides n (map number ab.now) (vectors n list.now) out.new }
{
    // by index: a zip with `iter_mut` tells a proof nothing of what it wrote
    for (i, vector) in list.chunks_exact(n + 1).enumerate() {
        out[i] = side(ab, vector);
    }
}

// The larger of two weighted vectors put behind the others.
fn mixed(work: &mut Work, g: &[i32], l: i32, h: &[i32], r: i32, n: usize)
    requires { Mixable n work.old.words work.old.count g.now l h.now r }
    ensures { Grown n work.old.words work.old.count
        (mixed_of n (number l) (map number g.now) (number r) (map number h.now) ∷ [])
        work.new.count work.new.words }
{
    let w = n + 1;
    let mut row = [0; 7];
    row[..w].copy_from_slice(g);
    mix(&mut row[..w], l, h, r);
    work.push(&row[..w], n);
}

// A list, and the words of both sides of a half-space at its vectors.
#[derive(Clone, Copy)]
struct Halves<'a> {
    list: &'a [i32],
    n: usize,
    ls: &'a [i32],
    rs: &'a [i32],
    ghost halved: { Halved n list.now ls.now rs.now } by { Prim.hlevel halving },
}

impl Halves<'_> {
    // How many vectors the list has.
    fn count(&self) -> usize
        ensures { result ≡ count self.now.n self.now.list.now }
    {
        self.list.len() / (self.n + 1)
    }

    // Vector i of the list.
    fn vector(&self, i: usize) -> &[i32]
        requires { i < count self.now.n self.now.list.now }
        ensures { result.now ≡ part self.now.list.now (i * (self.now.n + 1)) (self.now.n + 1) }
    {
        let w = self.n + 1;
        &self.list[i * w..i * w + w]
    }

    // What vector i gives with vector j, if that violates, put behind the others.
    fn cross(&self, work: &mut Work, i: usize, j: usize)
        requires inside { (i < count self.now.n self.now.list.now) × (j < count self.now.n self.now.list.now) }
        requires room_of { RoomOf self.now.n work.old.words work.old.count
            (cross_at self.now.n self.now.ls.now self.now.rs.now (vectors self.now.n self.now.list.now) i j) }
        ensures { Grown self.now.n work.old.words work.old.count
            (cross_at self.now.n self.now.ls.now self.now.rs.now (vectors self.now.n self.now.list.now) i j)
            work.new.count work.new.words }
    {
        let l = self.ls[j];
        if self.rs[j] < l {
            mixed(work, self.vector(i), l, self.vector(j), self.rs[i], self.n);
        }
    }

    // What vector i gives with each vector that violates, put behind the others.
    fn cross_all(&self, work: &mut Work, i: usize)
        requires inside { i < count self.now.n self.now.list.now }
        requires room_of { RoomOf self.now.n work.old.words work.old.count
            (crossings_at self.now.n self.now.ls.now self.now.rs.now (vectors self.now.n self.now.list.now) i) }
        ensures { Grown self.now.n work.old.words work.old.count
            (crossings_at self.now.n self.now.ls.now self.now.rs.now (vectors self.now.n self.now.list.now) i)
            work.new.count work.new.words }
    {
        for j in 0..self.count() {
            self.cross(work, i, j);
        }
    }

    // What vector i gives, if it satisfies, put behind the others.
    fn keep(&self, work: &mut Work, i: usize)
        requires inside { i < count self.now.n self.now.list.now }
        requires room_of { RoomOf self.now.n work.old.words work.old.count
            (crosses_at self.now.n self.now.ls.now self.now.rs.now (vectors self.now.n self.now.list.now) i) }
        ensures { Grown self.now.n work.old.words work.old.count
            (crosses_at self.now.n self.now.ls.now self.now.rs.now (vectors self.now.n self.now.list.now) i)
            work.new.count work.new.words }
    {
        if self.ls[i] <= self.rs[i] {
            work.push(self.vector(i), self.n);
            self.cross_all(work, i);
        }
    }

    // What each vector gives, put behind the others.
    fn keep_all(&self, work: &mut Work)
        requires room_of { RoomOf self.now.n work.old.words work.old.count
            (crossed_list self.now.n self.now.ls.now self.now.rs.now (vectors self.now.n self.now.list.now)) }
        ensures { Grown self.now.n work.old.words work.old.count
            (crossed_list self.now.n self.now.ls.now self.now.rs.now (vectors self.now.n self.now.list.now))
            work.new.count work.new.words }
    {
        for i in 0..self.count() {
            self.keep(work, i);
        }
    }
}

// The vectors that a half-space makes, put into working memory that has none.
pub fn cut(work: &mut Work, list: &[i32], half: &[i32], n: usize)
    requires cuttable { Cuttable n list.now half.now work.old.words }
    requires empty { work.old.count ≡ 0 }
    ensures { Grown n work.old.words 0
        (intersect_list n (left n half.now) (right n half.now) (vectors n list.now))
        work.new.count work.new.words }
{
    let w = n + 1;
    let mut ls = [0; 32];
    let mut rs = [0; 32];
    sides(&mut ls, list, &half[..w], n);
    sides(&mut rs, list, &half[w..w + w], n);
    let halves = Halves {
        list,
        n,
        ls: &ls,
        rs: &rs,
    };
    halves.keep_all(work);
}
