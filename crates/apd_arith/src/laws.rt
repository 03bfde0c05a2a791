//! Laws of the operations, of values and of faults.

ghost use Rattle.std.specs.Prelude.{◌≡◌, ◌≢◌, ℤ, pos, Err};
ghost use Rattle.apd_term.specs.Term.{Term};
ghost use Rattle.apd_arith.specs.declared.fault.ArithFault.{ArithFault};
ghost use Rattle.apd_arith.specs.declared.fault.ArithFault.TheVariants.{Memory};
ghost use Rattle.apd_arith.specs.Integers.{truncated, floored, remainder, modulo, IsDivision, HasSignOf};
ghost use Rattle.apd_arith.specs.Truth.{IsTrueAtom, FaultsWith};
ghost use Rattle.apd_arith.specs.Value.{value};

/// `//` and `rem` divide with a remainder that has the sign of the dividend.
pub fn remainders_have_the_sign_of_the_dividend()
    ensures division { (x y : ℤ) → y ≢ pos 0 → IsDivision x y (truncated x y) (remainder x y) }
    ensures sign { (x y : ℤ) → y ≢ pos 0 → HasSignOf x (remainder x y) }
{}

/// `mod` is the remainder of a division that has the sign of the divisor.
pub fn moduli_have_the_sign_of_the_divisor()
    ensures division { (x y : ℤ) → y ≢ pos 0 → IsDivision x y (floored x y) (modulo x y) }
    ensures sign { (x y : ℤ) → y ≢ pos 0 → HasSignOf y (modulo x y) }
{}

/// Want of memory is no expression's value and no fault of a goal's evaluation: the definitions never give that answer.
pub fn values_want_no_memory()
    ensures values { (t : Term) → value t ≢ Err Memory }
    ensures goals { (t : Term) → ¬ FaultsWith t Memory }
{}

/// The evaluation of a goal has at most one fault, and none where the goal is true.
pub fn one_fault()
    ensures one { (t : Term) (fault other : ArithFault) → FaultsWith t fault → FaultsWith t other →
        fault ≡ other }
    ensures none { (t : Term) (fault : ArithFault) → IsTrueAtom t → ¬ FaultsWith t fault }
{}
