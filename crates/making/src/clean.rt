// Cleaning: each vector in turn is dropped if the others that are left generate it.
ghost use Rattle.std.specs.Prelude.{◌≡◌, suc, ◌*◌, ◌≤◌, ◌<◌, length};
ghost use Rattle.numbers.specs.Places.{Each};
ghost use Rattle.sets.specs.Rules.{flat};
ghost use Rattle.making.specs.Clean.{try_one, clean_flags};
ghost use Rattle.making.specs.Finish.{Cleanable};

use sets::against;

// Vector i is dropped if the others that are on generate it.
fn try_one(alive: &mut [bool], work: &[i32], n: usize, i: usize)
    requires { (n ≤ 6) × (i < length alive.old) × (length alive.old * suc n ≤ length work.now)
        × Each 100000000 work.now }
    ensures { alive.new
        ≡ try_one (suc n) (length alive.old) (flat (suc n) work.now) alive.old i }
{
    let w = n + 1;
    let at = i * w;
    let m = alive.len();
    let was = alive[i];
    alive[i] = false;
    if against::short(work, m, alive, &work[at..at + w]).is_some() {
        alive[i] = was;
    }
}

// The flags after each vector was tried.
pub fn clean(alive: &mut [bool], work: &[i32], n: usize)
    requires { Cleanable n work.now alive.old }
    ensures { alive.new
        ≡ clean_flags (suc n) (length alive.old) (flat (suc n) work.now) }
{
    for i in 0..alive.len() {
        try_one(alive, work, n, i);
    }
}
