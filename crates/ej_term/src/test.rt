//! The tests by name.

ghost use Rattle.std.specs.Prelude.{◌≡◌, slice_get};
ghost use Rattle.ej_term.specs.TestNumbers.{tests, test_numbered};
ghost use Rattle.ej_term.specs.Tests.{rule, is_of};

/// A test of terms (the OTP 24 genop table).
#[derive(Clone, Copy, Debug, PartialEq, Eq)]
pub enum Test {
    /// `is_lt`
    Less,
    /// `is_ge`
    AtLeast,
    /// `is_eq`
    Equal,
    /// `is_ne`
    NotEqual,
    /// `is_eq_exact`
    ExactlyEqual,
    /// `is_ne_exact`
    NotExactlyEqual,
    /// `is_integer`
    IsInteger,
    /// `is_number`
    IsNumber,
    /// `is_atom`
    IsAtom,
    /// `is_pid`
    IsPid,
    /// `is_reference`
    IsReference,
    /// `is_nil`
    IsNil,
    /// `is_list`
    IsList,
    /// `is_nonempty_list`
    IsNonemptyList,
    /// `is_tuple`
    IsTuple,
    /// `test_arity`
    TestArity,
    /// `is_boolean`
    IsBoolean,
    /// `is_function`
    IsFunction,
    /// `is_function2`
    IsFunctionOfArity,
    /// `is_map`
    IsMap,
    /// `is_tagged_tuple`
    IsTaggedTuple,
    /// `is_float`
    IsFloat,
    /// `is_binary`
    IsBinary,
    /// `is_bitstr`
    IsBitstring,
    /// `is_port`
    IsPort,
}

/// All of them, in the order of their numbers, which begin with 1.
static TESTS: [Test; 25] = [
    Test::Less,
    Test::AtLeast,
    Test::Equal,
    Test::NotEqual,
    Test::ExactlyEqual,
    Test::NotExactlyEqual,
    Test::IsInteger,
    Test::IsNumber,
    Test::IsAtom,
    Test::IsPid,
    Test::IsReference,
    Test::IsNil,
    Test::IsList,
    Test::IsNonemptyList,
    Test::IsTuple,
    Test::TestArity,
    Test::IsBoolean,
    Test::IsFunction,
    Test::IsFunctionOfArity,
    Test::IsMap,
    Test::IsTaggedTuple,
    Test::IsFloat,
    Test::IsBinary,
    Test::IsBitstring,
    Test::IsPort,
];

fn all() -> &'static [Test; 25]
    ensures { result.now ≡ tests }
{
    &TESTS
}

/// The test at this place, from 0.
#[tactic(auto, using(std::proofs::lemmas::Option::slice_get_read))]
fn at(place: usize) -> Option<Test>
    ensures { result ≡ slice_get tests place }
{
    if place < all().len() {
        Some(all()[place])
    } else {
        None
    }
}

impl Test {
    /// The test of this number, from 1 to 25.
    pub fn numbered(number: u16) -> Option<Test>
        ensures { result ≡ test_numbered number }
    {
        let place = usize::from(number).checked_sub(1)?;
        at(place)
    }

    /// Whether it is of so many terms.
    pub fn takes(self, count: usize) -> bool
        ensures { result ≡ is_of (rule self) count }
    {
        match self {
            Test::Less
            | Test::AtLeast
            | Test::Equal
            | Test::NotEqual
            | Test::ExactlyEqual
            | Test::NotExactlyEqual
            | Test::TestArity
            | Test::IsFunctionOfArity => count == 2,
            Test::IsTaggedTuple => count == 3,
            _ => count == 1,
        }
    }
}
