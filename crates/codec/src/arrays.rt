// Arrays of a fixed size whose first items are used and whose rest is blank.
ghost use Rattle.std.specs.Prelude.{◌≡◌, true, false, length};
ghost use Rattle.std.specs.Bool.{Decides};
ghost use Rattle.std.specs.Fn.{FnReturnsAt};
ghost use Rattle.codec.specs.Arrays.{Packed};

// Whether the first `count` items fit and each item behind them is blank.
pub fn packed<T: Copy + PartialEq, F: Fn(&T) -> bool>(
    items: &[T],
    count: usize,
    blank: T,
    fits: F,
) -> bool
    requires may { F.IsAlwaysCallable fits }
    requires exact { (x y : T) → Decides (T.eq x y) (x ≡ y) }
    ensures yes { result ≡ true → Packed (λ x. FnReturnsAt F.Fn fits x true) blank (length items.now) count items.now }
    ensures no { Packed (λ x. FnReturnsAt F.Fn fits x false → ⊥) blank (length items.now) count items.now → result ≡ true }
{
    count <= items.len()
        && items[..count].iter().all(|used| fits(used))
        && items[count..].iter().all(|unused| *unused == blank)
}
