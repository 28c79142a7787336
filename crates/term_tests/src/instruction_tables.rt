//! Each row of each table, spelled from the tables of OTP 24, in plain text.

use genop_table::{
    InstructionRow, Limit, Place, builtin, builtin_row, guard, instruction, returns, row, shape,
    test, test_arguments,
};
use std::alloc::AllocError;
use std::test::Fail;

/// Number, instruction, name, how many earlier rows have the name, and the parts behind it with their limits.
const INSTRUCTIONS: &str = "\
1 Label label 0 Count
2 Line line 0 Any
3 Comment % 0 Any
4 FuncInfo func_info 0 Src:Atom Src:Atom Count
5 Move move 0 Src Reg
6 Swap swap 0 Reg Reg
7 Allocate allocate 0 Count:Size Count:Size
8 AllocateHeap allocate_heap 0 Count:Size Need Count:Size
9 TestHeap test_heap 0 Need Count:Size
10 Deallocate deallocate 0 Count:Size
11 Trim trim 0 Count:Size Count:Size
12 InitYregs init_yregs 0 Regs
13 Call call 0 Count:Arguments Label:Target
14 CallExt call_ext 0 Count:Arguments Ext
15 CallFun call_fun 0 Count:Arguments
16 Apply apply 0 Count:Arguments
17 CallOnly call_only 0 Count:Arguments Label:Target
18 CallExtOnly call_ext_only 0 Count:Arguments Ext
19 CallLast call_last 0 Count:Arguments Label:Target Count:Size
20 CallExtLast call_ext_last 0 Count:Arguments Ext Count:Size
21 ApplyLast apply_last 0 Count:Arguments Count:Size
22 Return return 0
23 MakeFun2 make_fun2 0 Label:Target Any Any Count
24 MakeFun3 make_fun3 0 Label:Target Any Any Reg Srcs
25 Send send 0
26 Bif bif 0 Name Label:Failure Srcs:OfBuiltin Reg
27 GcBif gc_bif 0 Name Label:Failure Count:Size Srcs:OfBuiltin Reg
28 PutList put_list 0 Src Src Reg
29 PutTuple2 put_tuple2 0 Reg Srcs
30 GetList get_list 0 Reg Reg Reg
31 GetHd get_hd 0 Reg Reg
32 GetTl get_tl 0 Reg Reg
33 GetTupleElement get_tuple_element 0 Reg Count Reg
34 SetTupleElement set_tuple_element 0 Src Reg Count
35 PutMapAssoc put_map_assoc 0 Label:Failure Src Reg Count Pairs
36 PutMapExact put_map_exact 0 Label:Failure Src Reg Count Pairs
37 GetMapElements get_map_elements 0 Label:Target Src Gets
38 Jump jump 0 Label:Target
39 SelectVal select_val 0 Src Label:Target Cases
40 SelectTupleArity select_tuple_arity 0 Src Label:Target Arities
41 Test test 0 Name Label:Target Srcs:OfTest
42 HasMapFields test 1 Any Label:Target Src Srcs
43 LoopRec loop_rec 0 Label:Target Reg
44 RemoveMessage remove_message 0
45 Timeout timeout 0
46 LoopRecEnd loop_rec_end 0 Label:Target
47 Wait wait 0 Label:Target
48 WaitTimeout wait_timeout 0 Label:Target Src
49 RecvMarkerReserve recv_marker_reserve 0 Reg
50 RecvMarkerBind recv_marker_bind 0 Reg Reg
51 RecvMarkerUse recv_marker_use 0 Reg
52 RecvMarkerClear recv_marker_clear 0 Reg
53 Try try 0 Reg:Slot Label:Target
54 Catch catch 0 Reg:Slot Label:Target
55 TryEnd try_end 0 Reg:Slot
56 TryCase try_case 0 Reg:Slot
57 CatchEnd catch_end 0 Reg:Slot
58 Badmatch badmatch 0 Src
59 CaseEnd case_end 0 Src
60 TryCaseEnd try_case_end 0 Src
61 IfEnd if_end 0
62 Raise bif 1 Any Label:Raises Srcs:OfRaise Reg
63 RawRaise raw_raise 0
64 BuildStacktrace build_stacktrace 0
";

/// Number, name, and what the test takes.
const TESTS: &str = "\
1 is_lt TwoSources
2 is_ge TwoSources
3 is_eq TwoSources
4 is_ne TwoSources
5 is_eq_exact TwoSources
6 is_ne_exact TwoSources
7 is_integer OneSource
8 is_number OneSource
9 is_atom OneSource
10 is_pid OneSource
11 is_reference OneSource
12 is_nil OneSource
13 is_list OneSource
14 is_nonempty_list OneSource
15 is_tuple OneSource
16 test_arity SourceAndSize
17 is_boolean OneSource
18 is_function OneSource
19 is_function2 TwoSources
20 is_map OneSource
21 is_tagged_tuple SourceSizeAndTag
22 is_float OneSource
23 is_binary OneSource
24 is_bitstr OneSource
25 is_port OneSource
";

/// Number, module, name, arity, where the builtin may stand, and what it does.
const BUILTINS: &str = "\
1 erlang + 2 Guard Value
2 erlang - 2 Guard Value
3 erlang * 2 Guard Value
4 erlang div 2 Guard Value
5 erlang rem 2 Guard Value
6 erlang band 2 Guard Value
7 erlang bor 2 Guard Value
8 erlang bxor 2 Guard Value
9 erlang bsl 2 Guard Value
10 erlang bsr 2 Guard Value
11 erlang - 1 Guard Value
12 erlang + 1 Guard Value
13 erlang bnot 1 Guard Value
14 erlang abs 1 Guard Value
15 erlang == 2 Guard Value
16 erlang /= 2 Guard Value
17 erlang =< 2 Guard Value
18 erlang < 2 Guard Value
19 erlang >= 2 Guard Value
20 erlang > 2 Guard Value
21 erlang =:= 2 Guard Value
22 erlang =/= 2 Guard Value
23 erlang not 1 Guard Value
24 erlang and 2 Guard Value
25 erlang or 2 Guard Value
26 erlang xor 2 Guard Value
27 erlang hd 1 Guard Value
28 erlang tl 1 Guard Value
29 erlang length 1 Guard Value
30 erlang tuple_size 1 Guard Value
31 erlang element 2 Guard Value
32 erlang map_size 1 Guard Value
33 erlang map_get 2 Guard Value
34 erlang is_map_key 2 Guard Value
35 erlang self 0 Guard Effect
36 erlang is_atom 1 Guard Value
37 erlang is_integer 1 Guard Value
38 erlang is_number 1 Guard Value
39 erlang is_list 1 Guard Value
40 erlang is_tuple 1 Guard Value
41 erlang is_pid 1 Guard Value
42 erlang is_reference 1 Guard Value
43 erlang is_function 1 Guard Value
44 erlang is_map 1 Guard Value
45 erlang is_boolean 1 Guard Value
46 erlang is_float 1 Guard Value
47 erlang is_binary 1 Guard Value
48 erlang is_function 2 Guard Value
49 erlang max 2 Body Value
50 erlang min 2 Body Value
51 erlang ++ 2 Body Value
52 erlang -- 2 Body Value
53 erlang setelement 3 Body Value
54 erlang tuple_to_list 1 Body Value
55 erlang list_to_tuple 1 Body Value
56 erlang make_tuple 2 Body Value
57 lists reverse 2 Body Value
58 lists member 2 Body Value
59 lists keyfind 3 Body Value
60 maps get 2 Body Value
61 maps find 2 Body Value
62 maps put 3 Body Value
63 maps update 3 Body Value
64 maps remove 2 Body Value
65 maps is_key 2 Body Value
66 maps keys 1 Body Value
67 maps values 1 Body Value
68 maps to_list 1 Body Value
69 maps from_list 1 Body Value
70 maps merge 2 Body Value
71 erlang atom_to_list 1 Body Value
72 erlang integer_to_list 1 Body Value
73 erlang list_to_integer 1 Body Value
74 erlang error 1 Body Leaves
75 erlang error 2 Body Leaves
76 erlang exit 1 Body Leaves
77 erlang throw 1 Body Leaves
78 erlang raise 3 Body Value
79 erlang ! 2 Body Effect
80 erlang send 2 Body Effect
81 erlang spawn 1 Body Effect
82 erlang spawn 3 Body Effect
83 erlang spawn_link 1 Body Effect
84 erlang spawn_link 3 Body Effect
85 erlang link 1 Body Effect
86 erlang unlink 1 Body Effect
87 erlang exit 2 Body Effect
88 erlang process_flag 2 Body Effect
89 erlang display 1 Body Effect
90 erlang make_ref 0 Body Effect
";

// A place of a row: a space, the part, and the limit where there is one.
fn write_place(text: &mut String, place: Place) -> Result<(), AllocError> {
    write!(text, " {:?}", place.part)?;
    if place.limit != Limit::Free {
        write!(text, ":{:?}", place.limit)?;
    }
    Ok(())
}

fn write_row(text: &mut String, row: &InstructionRow) -> Result<(), AllocError> {
    write!(
        text,
        "{} {:?} {} {}",
        row.number, row.genop, row.name, row.arity
    )?;
    for place in row.places {
        write_place(text, *place)?;
    }
    text.push_str("\n")?;
    Ok(())
}

#[test]
fn each_instruction(rt: HostRuntime) -> Result<(), Fail> {
    let mut text = String::new(rt.alloc());
    for number in 1..65 {
        let row = row(number).ok_or("a row")?;
        write_row(&mut text, &row)?;
        if row.arity == 0 {
            assert_eq!(rt; instruction(row.name.as_bytes()), Some(number));
        }
        assert_eq!(rt; shape(number).ok_or("a shape")?.len(), row.places.len());
    }
    assert_eq!(rt; text.as_str(), INSTRUCTIONS);
    assert!(rt; row(0).is_none());
    assert!(rt; row(65).is_none());
    assert!(rt; shape(65).is_none());
    assert_eq!(rt; instruction(b"raise"), None);
    assert_eq!(rt; instruction(b""), None);
    Ok(())
}

// The next word of a line.
fn word<'a>(words: &mut std::str::Split<'a, char>) -> &'a str {
    words.next().unwrap_or("")
}

#[test]
fn each_test(rt: HostRuntime) -> Result<(), Fail> {
    let mut count = 0u16;
    for line in TESTS.lines() {
        let mut words = line.split(' ');
        let number = word(&mut words).parse::<u16>()?;
        assert_eq!(rt; test(word(&mut words).as_bytes()), Some(number));
        let mut arguments = String::new(rt.alloc());
        write!(arguments, "{:?}", test_arguments(number).ok_or("a test")?)?;
        assert_eq!(rt; arguments.as_str(), word(&mut words));
        count = number;
    }
    assert_eq!(rt; count, 25);
    assert_eq!(rt; test(b"has_map_fields"), None);
    assert!(rt; test_arguments(0).is_none());
    assert!(rt; test_arguments(26).is_none());
    Ok(())
}

#[test]
fn each_builtin(rt: HostRuntime) -> Result<(), Fail> {
    let mut count = 0u16;
    for line in BUILTINS.lines() {
        let mut words = line.split(' ');
        let number = word(&mut words).parse::<u16>()?;
        let owner = word(&mut words);
        let name = word(&mut words);
        let arity = word(&mut words).parse::<u8>()?;
        assert_eq!(rt;
            builtin(owner.as_bytes(), name.as_bytes(), arity),
            Some(number)
        );
        let row = builtin_row(number).ok_or("a builtin")?;
        let mut flags = String::new(rt.alloc());
        write!(flags, "{:?} {:?}", row.standing, row.conduct)?;
        let standing = word(&mut words);
        let conduct = word(&mut words);
        let mut expected = String::new(rt.alloc());
        write!(expected, "{standing} {conduct}")?;
        assert_eq!(rt; flags.as_str(), expected.as_str());
        assert_eq!(rt; guard(number), number <= 48);
        assert_eq!(rt; returns(number), !(74..=77).contains(&number));
        count = number;
    }
    assert_eq!(rt; count, 90);
    assert_eq!(rt; builtin(b"erlang", b"get", 2), None);
    assert_eq!(rt; builtin(b"maps", b"get", 1), None);
    assert_eq!(rt; builtin(b"m", b"f", 1), None);
    assert!(rt; builtin_row(0).is_none());
    assert!(rt; builtin_row(91).is_none());
    assert!(rt; !guard(0));
    assert!(rt; returns(91));
    Ok(())
}
