// Vectors put one behind the other into working memory, each shifted as a canonical list wants it.
ghost use Rattle.std.specs.Prelude.{◌≡◌, suc, ◌+◌, ◌≤◌, pos, length, replicate};
ghost use Rattle.numbers.specs.Numbers.{fin, Within};
ghost use Rattle.numbers.specs.Places.{Each};
ghost use Rattle.making.specs.Work.{shift_of, Shifted, Pushable, Pushed};

use numbers::{Vector, product, side};

// The shift that brings a point's last entry, or a ray's largest, to 0.
fn shift(vector: &[i32], n: usize) -> i32
    requires { (n ≤ 6) × (length vector.now ≡ suc n) × Each 10000000 vector.now }
    ensures { result ≡ shift_of n vector.now }
{
    let last = vector[n];
    if last != Vector::MARK {
        return 0 - last;
    }
    let zeros = [0; 7];
    let most = side(&zeros[..n + 1], vector);
    if most == Vector::MARK { 0 } else { 0 - most }
}

// The words of the vector, shifted by `by`.
fn place(out: &mut [i32], vector: &[i32], by: i32)
    requires { (length out.old ≡ length vector.now) × Each 1000000000 vector.now
        × Within 1000000000 (fin by) }
    ensures { Shifted vector.now by out.new }
{
    // by index: a zip with `iter_mut` tells a proof nothing of what it wrote
    for (j, word) in out.iter_mut().enumerate() {
        *word = product(by, vector[j]);
    }
}

// Working memory: vectors of n + 1 words one behind the other, and how many they are.
#[derive(Drop)]
pub struct Work {
    pub words: [i32; 1904],
    pub count: usize,
}

impl Work {
    // No vector yet.
    pub fn new() -> Work
        ensures words { result.words ≡ replicate 1904 (pos 0) }
        ensures count { result.count ≡ 0 }
    {
        Work {
            words: [0; 1904],
            count: 0,
        }
    }

    // The vector put behind the others.
    pub fn push(&mut self, vector: &[i32], n: usize)
        requires { Pushable n self.old.words self.old.count vector.now }
        ensures pushed { Pushed n self.old.words self.old.count vector.now self.new.words }
        ensures count { self.new.count ≡ self.old.count + 1 }
    {
        let w = n + 1;
        let at = self.count * w;
        let by = shift(vector, n);
        place(&mut self.words[at..at + w], vector, by);
        self.count += 1;
    }
}
