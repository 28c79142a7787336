//! The builtin function and the test of each number, written out: the number, the function with its arity, and the name.

use ej_term::{Builtin, Test};
use std::alloc::{AllocError, Global};
use std::test::Fail;

/// The builtin functions without an effect (the OTP modules erlang, lists and maps).
const BUILTINS: &str = "1 erlang:'+'/2 Add
2 erlang:'-'/2 Subtract
3 erlang:'*'/2 Multiply
4 erlang:'div'/2 Div
5 erlang:'rem'/2 Rem
6 erlang:'band'/2 Band
7 erlang:'bor'/2 Bor
8 erlang:'bxor'/2 Bxor
9 erlang:'bsl'/2 Bsl
10 erlang:'bsr'/2 Bsr
11 erlang:'-'/1 Negate
12 erlang:'+'/1 Plus
13 erlang:'bnot'/1 Bnot
14 erlang:abs/1 Abs
15 erlang:'=='/2 Equal
16 erlang:'/='/2 NotEqual
17 erlang:'=<'/2 AtMost
18 erlang:'<'/2 Less
19 erlang:'>='/2 AtLeast
20 erlang:'>'/2 Greater
21 erlang:'=:='/2 ExactlyEqual
22 erlang:'=/='/2 NotExactlyEqual
23 erlang:'not'/1 Not
24 erlang:'and'/2 And
25 erlang:'or'/2 Or
26 erlang:'xor'/2 Xor
27 erlang:hd/1 Hd
28 erlang:tl/1 Tl
29 erlang:length/1 Length
30 erlang:tuple_size/1 TupleSize
31 erlang:element/2 Element
32 erlang:map_size/1 MapSize
33 erlang:map_get/2 MapGet
34 erlang:is_map_key/2 IsMapKey
36 erlang:is_atom/1 IsAtom
37 erlang:is_integer/1 IsInteger
38 erlang:is_number/1 IsNumber
39 erlang:is_list/1 IsList
40 erlang:is_tuple/1 IsTuple
41 erlang:is_pid/1 IsPid
42 erlang:is_reference/1 IsReference
43 erlang:is_function/1 IsFunction
44 erlang:is_map/1 IsMap
45 erlang:is_boolean/1 IsBoolean
46 erlang:is_float/1 IsFloat
47 erlang:is_binary/1 IsBinary
48 erlang:is_function/2 IsFunctionOfArity
49 erlang:max/2 Max
50 erlang:min/2 Min
51 erlang:'++'/2 Append
52 erlang:'--'/2 SubtractList
53 erlang:setelement/3 SetElement
54 erlang:tuple_to_list/1 TupleToList
55 erlang:list_to_tuple/1 ListToTuple
56 erlang:make_tuple/2 MakeTuple
57 lists:reverse/2 ListsReverse
58 lists:member/2 ListsMember
59 lists:keyfind/3 ListsKeyfind
60 maps:get/2 MapsGet
61 maps:find/2 MapsFind
62 maps:put/3 MapsPut
63 maps:update/3 MapsUpdate
64 maps:remove/2 MapsRemove
65 maps:is_key/2 MapsIsKey
66 maps:keys/1 MapsKeys
67 maps:values/1 MapsValues
68 maps:to_list/1 MapsToList
69 maps:from_list/1 MapsFromList
70 maps:merge/2 MapsMerge
71 erlang:atom_to_list/1 AtomToList
72 erlang:integer_to_list/1 IntegerToList
73 erlang:list_to_integer/1 ListToInteger
74 erlang:error/1 Error
75 erlang:error/2 ErrorWithArguments
76 erlang:exit/1 Exit
77 erlang:throw/1 Throw
78 erlang:raise/3 Raise";

/// Those with an effect (the OTP module erlang).
const EFFECTS: &str = "35 erlang:self/0 SelfPid
79 erlang:'!'/2 SendOperator
80 erlang:send/2 Send
81 erlang:spawn/1 SpawnFun
82 erlang:spawn/3 Spawn
83 erlang:spawn_link/1 SpawnLinkFun
84 erlang:spawn_link/3 SpawnLink
85 erlang:link/1 Link
86 erlang:unlink/1 Unlink
87 erlang:exit/2 ExitSignal
88 erlang:process_flag/2 ProcessFlag
89 erlang:display/1 Display
90 erlang:make_ref/0 MakeRef";

/// The tests, with the count of terms (the OTP 24 genop table).
const TESTS: &str = "1 is_lt/2 Less
2 is_ge/2 AtLeast
3 is_eq/2 Equal
4 is_ne/2 NotEqual
5 is_eq_exact/2 ExactlyEqual
6 is_ne_exact/2 NotExactlyEqual
7 is_integer/1 IsInteger
8 is_number/1 IsNumber
9 is_atom/1 IsAtom
10 is_pid/1 IsPid
11 is_reference/1 IsReference
12 is_nil/1 IsNil
13 is_list/1 IsList
14 is_nonempty_list/1 IsNonemptyList
15 is_tuple/1 IsTuple
16 test_arity/2 TestArity
17 is_boolean/1 IsBoolean
18 is_function/1 IsFunction
19 is_function2/2 IsFunctionOfArity
20 is_map/1 IsMap
21 is_tagged_tuple/3 IsTaggedTuple
22 is_float/1 IsFloat
23 is_binary/1 IsBinary
24 is_bitstr/1 IsBitstring
25 is_port/1 IsPort";

/// The number, the arity and the name of a row.
fn parts(row: &str) -> (u16, usize, &str) {
    let (number, rest) = row.split_once(' ').unwrap_or(("", ""));
    let (function, name) = rest.split_once(' ').unwrap_or(("", ""));
    let (_, arity) = function.rsplit_once('/').unwrap_or(("", ""));
    (
        number.parse().unwrap_or(0),
        arity.parse().unwrap_or(0),
        name,
    )
}

/// Whether the builtin function of a row's number is its own, and takes so many arguments without an effect.
fn is_builtin(alloc: Global, row: &str, pure: bool) -> Result<bool, AllocError> {
    let (number, arity, name) = parts(row);
    let Some(builtin) = Builtin::numbered(number) else {
        return Ok(false);
    };
    let shown = format!(in alloc; "{builtin:?}")?;
    let takes = builtin.takes(arity) == pure && !builtin.takes(usize::wrapping_add(arity, 1));
    Ok(shown.as_str() == name && takes)
}

/// Whether the test of a row's number is its own, and of so many terms.
fn is_test(alloc: Global, row: &str) -> Result<bool, AllocError> {
    let (number, arity, name) = parts(row);
    let Some(test) = Test::numbered(number) else {
        return Ok(false);
    };
    let shown = format!(in alloc; "{test:?}")?;
    let takes = test.takes(arity) && !test.takes(usize::wrapping_add(arity, 1));
    Ok(shown.as_str() == name && takes)
}

#[test]
fn each_number_is_of_its_row(rt: HostRuntime) -> Result<(), Fail> {
    for row in BUILTINS.lines() {
        assert!(rt; is_builtin(rt.alloc(), row, true)?, "{row}");
    }
    for row in EFFECTS.lines() {
        assert!(rt; is_builtin(rt.alloc(), row, false)?, "{row}");
    }
    for row in TESTS.lines() {
        assert!(rt; is_test(rt.alloc(), row)?, "{row}");
    }
    assert_eq!(rt; BUILTINS.lines().count() + EFFECTS.lines().count(), 90);
    assert_eq!(rt; TESTS.lines().count(), 25);
    assert_eq!(rt; Builtin::numbered(0), None);
    assert_eq!(rt; Builtin::numbered(91), None);
    assert_eq!(rt; Test::numbered(0), None);
    assert_eq!(rt; Test::numbered(26), None);
    Ok(())
}
