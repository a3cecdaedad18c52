// Numbers of any width: sign extensions, shifts, comparisons, products and quotients.

ghost use Rattle.agreement.specs.Laws.{SignExtends, SignExtendsByShifts, ShiftsArithmetic, ComparesByFlags, StandForIntegers, IntegersHaveBits, UpperHalves, DivideTowardZero, DivideUnsigned};

// The manual's sign extension is the processor's, at every width.
#[tactic(auto, using(crate::proofs::Laws::Width::sign_extends))]
pub fn sign_extends()
    ensures { SignExtends }
{}

// The translator's sign extension, by two shifts, is the manual's, at every width up to 64.
#[tactic(auto, using(crate::proofs::Laws::Width::sign_extends_by_shifts))]
pub fn sign_extends_by_shifts()
    ensures { SignExtendsByShifts }
{}

// The manual's arithmetic shift to the right is the processor's, at every width and by every count up to it.
#[tactic(auto, using(crate::proofs::Laws::Width::shifts_arithmetic))]
pub fn shifts_arithmetic()
    ensures { ShiftsArithmetic }
{}

// The flags after a comparison tell the signed order, the unsigned order and equality, at every width.
#[tactic(auto, using(crate::proofs::Laws::Compare::compares_by_flags))]
pub fn compares_by_flags()
    ensures { ComparesByFlags }
{}

// A number stands for the integer itself or, where its top bit is set, for itself less 2 to its width.
#[tactic(auto, using(crate::proofs::Laws::Integers::stand_for_integers))]
pub fn stand_for_integers()
    ensures { StandForIntegers }
{}

// An integer's n bits differ from it by a multiple of 2^n.
#[tactic(auto, using(crate::proofs::Laws::Integers::integers_have_bits))]
pub fn integers_have_bits()
    ensures { IntegersHaveBits }
{}

// The upper half of an integer's 2n bits stands above its n bits.
#[tactic(auto, using(crate::proofs::Laws::Integers::upper_halves))]
pub fn upper_halves()
    ensures { UpperHalves }
{}

// Signed division is rounded towards zero, and the remainder is what is left of the dividend, but for the manual's two exceptions.
#[tactic(auto, using(crate::proofs::Laws::Integers::divide_toward_zero))]
pub fn divide_toward_zero()
    ensures { DivideTowardZero }
{}

// The dividend is the divisor times the unsigned quotient plus a remainder that is less than the divisor.
#[tactic(auto, using(crate::proofs::Laws::Integers::divide_unsigned))]
pub fn divide_unsigned()
    ensures { DivideUnsigned }
{}
