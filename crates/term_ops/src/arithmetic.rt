//! Arithmetic on integers of 64 bits (Erlang Reference Manual, "Arithmetic Expressions").

ghost use Rattle.std.specs.Prelude.{◌≡◌, ok_or, pos, ◌*ℤ◌, ◌^◌, min};
ghost use Rattle.std.specs.Int.{int_shr};
ghost use Rattle.ej_term.specs.Arithmetic as arithmetic;
ghost use Rattle.ej_term.specs.Outcome.{integer};
ghost use Rattle.term_ops.specs.declared.arithmetic.Fault.TheVariants.{SystemLimit};
ghost use Rattle.term_ops.specs.Computing.{outcome_of, function_of, function_of_one};

/// Why an operation on integers has no value.
#[derive(Clone, Copy, Debug)]
pub(crate) enum Fault {
    /// It is not defined there: a division by 0.
    BadArith,
    /// Its value does not fit 64 bits with its sign.
    SystemLimit,
}

/// An operation on two integers.
#[derive(Clone, Copy, Debug)]
pub(crate) enum Operation {
    Plus,
    Minus,
    Times,
    Quotient,
    Remainder,
    And,
    Or,
    ExclusiveOr,
    ShiftLeft,
    ShiftRight,
}

impl Operation {
    /// What it gives for these two.
    pub(crate) fn apply(self, m: i64, n: i64) -> Result<i64, Fault>
        ensures { outcome_of result ≡ function_of self m n }
    {
        match self {
            Operation::Plus => fitting(m.checked_add(n)),
            Operation::Minus => fitting(m.checked_sub(n)),
            Operation::Times => fitting(m.checked_mul(n)),
            Operation::Quotient => quotient(m, n),
            Operation::Remainder => remainder(m, n),
            Operation::And => Ok(m & n),
            Operation::Or => Ok(m | n),
            Operation::ExclusiveOr => Ok(m ^ n),
            Operation::ShiftLeft => left(m, n),
            Operation::ShiftRight => right(m, n),
        }
    }
}

/// An operation on one integer.
#[derive(Clone, Copy, Debug)]
pub(crate) enum Single {
    Negation,
    Identity,
    Complement,
}

impl Single {
    /// What it gives for this one.
    pub(crate) fn apply(self, n: i64) -> Result<i64, Fault>
        ensures { outcome_of result ≡ integer (function_of_one self n) }
    {
        match self {
            Single::Negation => fitting(n.checked_neg()),
            Single::Identity => Ok(n),
            Single::Complement => Ok(!n),
        }
    }
}

/// How far an integer is from 0.
pub(crate) fn absolute(n: i64) -> Result<i64, Fault>
    ensures { outcome_of result ≡ integer (arithmetic.absolute n) }
{
    fitting(n.checked_abs())
}

/// The value, where it fits.
fn fitting(value: Option<i64>) -> Result<i64, Fault>
    ensures { result ≡ ok_or value SystemLimit }
{
    value.ok_or(Fault::SystemLimit)
}

/// The quotient, rounded to zero.
fn quotient(m: i64, n: i64) -> Result<i64, Fault>
    ensures { outcome_of result ≡ arithmetic.quotient m n }
{
    if n == 0 {
        return Err(Fault::BadArith);
    }
    fitting(m.checked_div(n))
}

/// The remainder, with the sign of the dividend.
fn remainder(m: i64, n: i64) -> Result<i64, Fault>
    ensures { outcome_of result ≡ arithmetic.remainder m n }
{
    if n == 0 {
        return Err(Fault::BadArith);
    }
    Ok(m.wrapping_rem(n))
}

/// `m` shifted to the left by `n` places, and to the right where `n` is negative.
fn left(m: i64, n: i64) -> Result<i64, Fault>
    ensures { outcome_of result ≡ arithmetic.bsl m n }
{
    if n < 0 {
        Ok(lowered(m, n.unsigned_abs()))
    } else {
        raised(m, n.unsigned_abs())
    }
}

/// `m` shifted to the right by `n` places, and to the left where `n` is negative.
fn right(m: i64, n: i64) -> Result<i64, Fault>
    ensures { outcome_of result ≡ arithmetic.bsr m n }
{
    if n > 0 {
        Ok(lowered(m, n.unsigned_abs()))
    } else {
        raised(m, n.unsigned_abs())
    }
}

/// `m` times two to the power of `places`. A factor of more than 2^64 makes of 0 the same, and of another number
/// one that fits as little.
fn raised(m: i64, places: u64) -> Result<i64, Fault>
    ensures { outcome_of result ≡ integer (m *ℤ pos (2 ^ min places 64)) }
{
    match i64::try_from(product(m, places)) {
        Ok(n) => Ok(n),
        Err(_) => Err(Fault::SystemLimit),
    }
}

/// `m` times two to the power of `places`, of which no more than 64 count.
fn product(m: i64, places: u64) -> i128
    ensures { result ≡ m *ℤ pos (2 ^ min places 64) }
{
    let factor = 1i128 << places.min(64);
    i128::from(m) * factor
}

/// `m` by two to the power of `places`, rounded down: from 63 places on 0 or -1.
fn lowered(m: i64, places: u64) -> i64
    ensures { result ≡ int_shr m (min places 64) }
{
    m >> places.min(63)
}
