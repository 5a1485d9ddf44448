// Whether words are within their limits.
ghost use Rattle.std.specs.Prelude.{◌≡◌, ◌≤◌, ◌<◌, length};
ghost use Rattle.numbers.specs.Words.{number};
ghost use Rattle.sets.specs.Tests.{fits, words_ok, some_finite, vector_ok, list_ok};
ghost use Rattle.sets.specs.Rules.{has_point};

use numbers::Vector;

// Whether a word is within the limits of a ray's clocks, or of a point's.
#[tactic(auto, unfolding(numbers::specs::Words::number))]
pub fn word_fits(x: i32, ray: bool) -> bool
    ensures { result ≡ fits ray (number x) }
{
    if ray {
        x == Vector::MARK || (Vector::LEAST_RAY..=Vector::MOST).contains(&x)
    } else {
        (Vector::LEAST_POINT..=Vector::MOST).contains(&x)
    }
}

// Whether each of the first n words is.
pub fn words_fit(words: &[i32], n: usize, ray: bool) -> bool
    requires { n ≤ length words.now }
    ensures { result ≡ words_ok ray n words.now }
{
    words[..n].iter().all(|x| word_fits(*x, ray))
}

// Whether one of the first n words is not −∞.
fn some_finite(words: &[i32], n: usize) -> bool
    requires { n ≤ length words.now }
    ensures { result ≡ some_finite n words.now }
{
    words[..n].iter().any(|x| *x != Vector::MARK)
}

// Whether a vector of n + 1 words is a point or a ray within its limits.
#[tactic(auto, unfolding(crate::specs::Tests::vector_ok, numbers::specs::Words::number))]
fn vector_fits(vector: &[i32], n: usize) -> bool
    requires { n < length vector.now }
    ensures { result ≡ vector_ok n vector.now }
{
    match vector[n] {
        0 => words_fit(vector, n, false),
        Vector::MARK => words_fit(vector, n, true) && some_finite(vector, n),
        _ => false,
    }
}

// Whether each vector of the list is a point or a ray within its limits.
pub fn list_fits(n: usize, list: &[i32]) -> bool
    requires { n ≤ 6 }
    ensures { result ≡ list_ok n list.now }
{
    list.chunks_exact(n + 1)
        .all(|vector| vector_fits(vector, n))
}

// Whether some vector of the list is a point.
pub fn has_point(n: usize, list: &[i32]) -> bool
    requires { n ≤ 6 }
    ensures { result ≡ has_point n list.now }
{
    list.chunks_exact(n + 1)
        .any(|vector| vector[n] != Vector::MARK)
}
