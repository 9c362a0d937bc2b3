// Whether all places from n on are 0, of arrays of any word: the unused places of a record.
ghost use Rattle.std.specs.Prelude.{◌≡◌, ℕ, map, eqb};
ghost use Rattle.base.specs.Basics.{blank_from};

// An unsigned word, by its number.
pub trait Word: Copy {
    ghost value: { Self → ℕ };

    fn is_zero(self) -> bool
        ensures { result ≡ eqb (value self) 0 };
}

// Kept: an impl for each type. `Zero` of the toolchain's num_traits has this test, but tells the value as a signed
// number, which the clause of `blank_from` would have to turn back; and `Into<u64>` gives a cast and no test.
impl Word for u8 {
    ghost value = { λ x. x };

    fn is_zero(self) -> bool {
        self == 0
    }
}

impl Word for u16 {
    ghost value = { λ x. x };

    fn is_zero(self) -> bool {
        self == 0
    }
}

impl Word for u32 {
    ghost value = { λ x. x };

    fn is_zero(self) -> bool {
        self == 0
    }
}

impl Word for u64 {
    ghost value = { λ x. x };

    fn is_zero(self) -> bool {
        self == 0
    }
}

pub fn blank_from<T: Word>(xs: &[T], n: usize) -> bool
    ensures { result ≡ blank_from n (map T.value xs.now) }
{
    xs.iter().skip(n).all(|x| x.is_zero())
}
