// Passes over all of a list, which do not stop at what they find, so that many places are taken at once.
ghost use Rattle.std.specs.Prelude.{◌≡◌, ◌&&◌, ◌≤◌, ◌<◌, ℕ, Bool, true, eqb};
ghost use Rattle.std.specs.List.{list_all};
ghost use Rattle.tree.specs.Ranges.{in_range};
ghost use Rattle.tree.specs.inner.Places.{from};
ghost use Rattle.tree.specs.Every.{every};

// A number of an entry. What is joined by `|` is zero where both are. There is an impl for each type, since
// none may be written by a macro of the repository.
pub trait Entry: Copy {
    ghost is_zero: { Self → Bool };

    fn zero() -> Self
        ensures { is_zero result ≡ true };

    fn join(self, other: Self) -> Self
        ensures { is_zero result ≡ (is_zero self && is_zero other) };

    fn is_zero(self) -> bool
        ensures { result ≡ is_zero self };
}

impl Entry for u8 {
    ghost is_zero = { λ x. eqb x 0 };

    fn zero() -> u8 {
        0
    }

    #[tactic(auto, using(crate::proofs::Limits::or_none))]
    fn join(self, other: u8) -> u8 {
        self | other
    }

    fn is_zero(self) -> bool {
        self == 0
    }
}

impl Entry for u32 {
    ghost is_zero = { λ x. eqb x 0 };

    fn zero() -> u32 {
        0
    }

    #[tactic(auto, using(crate::proofs::Limits::or_none))]
    fn join(self, other: u32) -> u32 {
        self | other
    }

    fn is_zero(self) -> bool {
        self == 0
    }
}

impl Entry for i32 {
    ghost is_zero = { in_range 0 };

    #[tactic(auto, using(crate::proofs::Limits::zero_in_range))]
    fn zero() -> i32 {
        0
    }

    #[tactic(auto, using(crate::proofs::Limits::join_zero))]
    fn join(self, other: i32) -> i32 {
        self | other
    }

    #[tactic(auto, using(crate::proofs::Limits::zero_test))]
    fn is_zero(self) -> bool {
        self == 0
    }
}

impl Entry for i64 {
    ghost is_zero = { in_range 0 };

    #[tactic(auto, using(crate::proofs::Limits::zero_in_range))]
    fn zero() -> i64 {
        0
    }

    #[tactic(auto, using(crate::proofs::Limits::join_zero))]
    fn join(self, other: i64) -> i64 {
        self | other
    }

    #[tactic(auto, using(crate::proofs::Limits::zero_test))]
    fn is_zero(self) -> bool {
        self == 0
    }
}

// Whether every place from one to before another passes a test.
pub fn every<F: Fn(usize) -> bool>(first: usize, end: usize, test: F) -> bool
    requires ordered { first ≤ end }
    requires callable { (i : ℕ) → first ≤ i → i < end → F.pre test i }
    ensures { (t : ℕ → Bool) → ((i : ℕ) (b : Bool) → first ≤ i → i < end → F.post test i b → b ≡ t i) → result ≡ every (from first t) end }
{
    let mut good = true;
    for i in first..end {
        good &= test(i);
    }
    good
}

// Whether all of a list are zero: what is joined by `|` is zero where all of it is.
#[tactic(auto, using(crate::proofs::AllZero::joined_more))]
pub fn none<T: Entry>(list: &[T]) -> bool
    ensures { result ≡ list_all T.is_zero list.now }
{
    let mut any = T::zero();
    for &entry in list {
        any = any.join(entry);
    }
    any.is_zero()
}
