// The model's numbers as bytes, read and written.
#![tactic(auto)]

ghost use Rattle.std.specs.Prelude.{◌≡◌, ◌≤◌, length, drop, nat_abs};
ghost use Rattle.codec.specs.Number.{number_in, folded, unfolded};
ghost use Rattle.codec.specs.Form.{Form, done, ask};
ghost use Rattle.codec.specs.Answers.{reading_said, Reads, ReadsBy, ReadsItems, Each, left_said};

use numbers::Refusal;

pub mod arrays;
mod writing;

pub use writing::Writer;

// The answer of a reading: the value and the bytes behind it, or why there is none.
pub type Reading<'a, T> = Result<(T, &'a [u8]), Refusal>;

// The bytes from a place on; behind the end there are none. What a reader reads at a place, it reads from these.
pub fn bytes_from(s: &[u8], at: usize) -> &[u8]
    ensures { result.now ≡ drop at s.now }
{
    &s[at.min(s.len())..]
}

// The number that the bytes begin with.
#[tactic(auto, unfolding(crate::specs::Number::number_in))]
pub fn read_number(s: &[u8]) -> Reading<'_, u32>
    ensures { reading_said result ≡ number_in s.now }
{
    match s {
        [a, rest @ ..] if *a < 128 => Ok((*a as u32, rest)),
        [_, 0, ..] => Err(Refusal::Bytes),
        [a, b, rest @ ..] if *b < 128 => Ok((*a as u32 - 128 + *b as u32 * 128, rest)),
        [_, _, 0, ..] => Err(Refusal::Bytes),
        [a, b, c, rest @ ..] if *c < 128 => {
            let low = *a as u32 - 128 + (*b as u32 - 128) * 128;
            Ok((low + *c as u32 * 16384, rest))
        }
        _ => Err(Refusal::Bytes),
    }
}

// The number below a limit that the bytes begin with.
#[tactic(auto, unfolding(crate::specs::Form::read_in))]
pub fn read_below(s: &[u8], limit: u32) -> Reading<'_, u32>
    ensures { Reads (ask limit (λ v. done v)) s.now result }
{
    let (value, rest) = read_number(s)?;
    if value < limit {
        Ok((value, rest))
    } else {
        Err(Refusal::Model)
    }
}

// Reads items one behind the other, each by a call of `read`: the bytes behind the last one.
pub fn read_items<'a, T: Copy, F: Fn(&'a [u8]) -> Reading<'a, T>>(
    s: &'a [u8],
    items: &mut [T],
    read: F,
) -> Result<&'a [u8], Refusal>
    requires { F.IsAlwaysCallable read }
    ensures each { Each (F.post read) s.now items.new (left_said result) }
    ensures read { (form : Form T) → ReadsBy form (F.post read) → ReadsItems form (length items.old) s.now items.new result }
{
    let mut rest = s;
    for item in items.iter_mut() {
        let (value, after) = read(rest)?;
        *item = value;
        rest = after;
    }
    Ok(rest)
}

// A signed number, folded.
pub fn fold(k: i32) -> u32
    requires { nat_abs k ≤ 1000000 }
    ensures { result ≡ folded k }
{
    let twice = k.unsigned_abs() * 2;
    if k < 0 { twice - 1 } else { twice }
}

// The signed number that was folded.
pub fn unfold(v: u32) -> i32
    requires { v ≤ 2000000 }
    ensures { result ≡ unfolded v }
{
    let half = (v / 2) as i32;
    if v % 2 == 0 { half } else { -half - 1 }
}
