//! The laws of sums.
ghost use Rattle.std.specs.Prelude.{ℕ, ◌≡◌, ◌<◌, ◌≤◌, ◌+◌, ◌++◌, ◌∷◌, [], List, ℤ, pos, ◌+ℤ◌, ◌≤ℤ◌, All, length, sum_by};
ghost use Rattle.exact_sums.specs.Sums.{total};

/// Lists one after another add their sums, so does an item at the end; and the sum of two numbers
/// of each item is the sum of both sums.
pub fn sums_are_added_up<A>()
    ensures append { (value : A → ℤ) (xs ys : List A)
        → total value (xs ++ ys) ≡ total value xs +ℤ total value ys }
    ensures push { (value : A → ℤ) (xs : List A) (x : A)
        → total value (xs ++ x ∷ []) ≡ total value xs +ℤ value x }
    ensures both { (f g : A → ℤ) (xs : List A)
        → total (λ x. f x +ℤ g x) xs ≡ total f xs +ℤ total g xs }
    ensures natural { (value : A → ℕ) (xs : List A)
        → total (λ x. pos (value x)) xs ≡ pos (sum_by value xs) }
{}

/// A sum whose items are each at most those of another is at most that one.
pub fn sums_are_compared<A>()
    ensures { (f g : A → ℤ) (xs : List A) → All (λ x. f x ≤ℤ g x) xs → total f xs ≤ℤ total g xs }
{}
