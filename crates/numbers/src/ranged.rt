// That all values of a slice are numbers of its type, which is known of one value that is read. Nothing is done with them, and the
// compiler leaves nothing of the loops.
ghost use Rattle.std.specs.Prelude.{ℕ, ◌<◌, pos, slice_index_or};
ghost use Rattle.std.specs.Int.Signed.{mag};
ghost use Rattle.std.proofs.Common.{rules};

// `mag` is n of n, and n - 1 of -n: below 32768 it says -32768 to 32767.
pub trait Signed: Copy {
    // The value is a number of its type.
    ghost InRange: { Self → Type 0 };

    ghost zero: { Self };

    fn known(self)
        ensures { InRange self };

    ghost zero_in_range: { InRange zero };
}

// Two impls of one shape, as an impl that a macro writes is refused.
impl Signed for i16 {
    ghost InRange = { λ x. mag x < 32768 };

    ghost zero = { pos 0 };

    ghost zero_in_range = { Prim.search rules };

    fn known(self) {}
}

impl Signed for i32 {
    ghost InRange = { λ x. mag x < 2147483648 };

    ghost zero = { pos 0 };

    ghost zero_in_range = { Prim.search rules };

    fn known(self) {}
}

pub fn ranged<T: Signed>(values: &[T])
    ensures { (k : ℕ) → T.InRange (slice_index_or values.now k T.zero) }
{
    for x in values {
        x.known();
    }
}
