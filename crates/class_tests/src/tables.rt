//! Each row of the two tables, spelled anew in plain text, and names and types that are decided.

use crate::rows::{bytes_of, word};
use ej_term::Text;
use jvm_code::{
    VType, assignable, is_class_name, is_method_name, is_modified_utf8, mangle, mnemonic, opcode,
    runtime, runtime_row,
};
use std::alloc::AllocError;
use std::test::Fail;

/// Number, mnemonic and operands (JVMS SE 7, 6.5).
const OPCODES: &str = "\
1 aconst_null None
2 iconst_m1 None
3 iconst_0 None
4 iconst_1 None
5 iconst_2 None
6 iconst_3 None
7 iconst_4 None
8 iconst_5 None
16 bipush Byte
17 sipush Short
18 ldc ByteIndex
19 ldc_w Index
20 ldc2_w Index
21 iload Local
25 aload Local
26 iload_0 None
27 iload_1 None
28 iload_2 None
29 iload_3 None
42 aload_0 None
43 aload_1 None
44 aload_2 None
45 aload_3 None
54 istore Local
58 astore Local
59 istore_0 None
60 istore_1 None
61 istore_2 None
62 istore_3 None
75 astore_0 None
76 astore_1 None
77 astore_2 None
78 astore_3 None
87 pop None
89 dup None
95 swap None
96 iadd None
100 isub None
153 ifeq Branch
154 ifne Branch
155 iflt Branch
156 ifge Branch
157 ifgt Branch
158 ifle Branch
159 if_icmpeq Branch
160 if_icmpne Branch
161 if_icmplt Branch
162 if_icmpge Branch
163 if_icmpgt Branch
164 if_icmple Branch
165 if_acmpeq Branch
166 if_acmpne Branch
167 goto Branch
170 tableswitch Table
171 lookupswitch Lookup
172 ireturn None
184 invokestatic Index
196 wide Wide
198 ifnull Branch
199 ifnonnull Branch
";

/// Number, name and descriptor.
const METHODS: &str = "\
1 take (Lerl/Proc;I)Lerl/Term;
2 take_int (Lerl/Proc;I)I
3 take_trace (Lerl/Proc;I)Lerl/Trace;
4 keep (Lerl/Proc;Lerl/Term;)V
5 keep_int (Lerl/Proc;I)V
6 keep_trace (Lerl/Proc;Lerl/Trace;)V
7 push (Lerl/Proc;II)V
8 arg (Lerl/Proc;Lerl/Term;)V
9 enter (Lerl/Proc;)V
10 call (Lerl/Proc;Ljava/lang/String;)V
11 apply (Lerl/Proc;Lerl/Term;Lerl/Term;)I
12 call_fun (Lerl/Proc;Lerl/Term;)I
13 give (Lerl/Proc;Lerl/Term;)V
14 result (Lerl/Proc;)Lerl/Term;
15 more (Lerl/Proc;)I
16 integer (J)Lerl/Term;
17 lit (Ljava/lang/String;)Lerl/Term;
18 cons (Lerl/Term;Lerl/Term;)Lerl/Term;
19 tuple (Lerl/Proc;)Lerl/Term;
20 make_fun (Lerl/Proc;Lerl/Term;I)Lerl/Term;
21 bif0 (Lerl/Proc;I)Lerl/Term;
22 bif1 (Lerl/Proc;ILerl/Term;)Lerl/Term;
23 bif2 (Lerl/Proc;ILerl/Term;Lerl/Term;)Lerl/Term;
24 bif3 (Lerl/Proc;ILerl/Term;Lerl/Term;Lerl/Term;)Lerl/Term;
25 guard0 (Lerl/Proc;I)Lerl/Term;
26 guard1 (Lerl/Proc;ILerl/Term;)Lerl/Term;
27 guard2 (Lerl/Proc;ILerl/Term;Lerl/Term;)Lerl/Term;
28 guard3 (Lerl/Proc;ILerl/Term;Lerl/Term;Lerl/Term;)Lerl/Term;
29 test1 (ILerl/Term;)I
30 test2 (ILerl/Term;Lerl/Term;)I
31 test3 (ILerl/Term;Lerl/Term;Lerl/Term;)I
32 arity (Lerl/Term;)I
33 map_find (Lerl/Term;Lerl/Term;)Lerl/Term;
34 map_assoc (Lerl/Proc;Lerl/Term;)Lerl/Term;
35 map_exact (Lerl/Proc;Lerl/Term;)Lerl/Term;
36 map_assoc_guard (Lerl/Proc;Lerl/Term;)Lerl/Term;
37 map_exact_guard (Lerl/Proc;Lerl/Term;)Lerl/Term;
38 raise (Lerl/Proc;ILerl/Term;)V
39 raw (Lerl/Proc;Lerl/Term;Lerl/Term;)I
40 again (Lerl/Proc;Lerl/Trace;Lerl/Term;)V
41 opened (Lerl/Proc;Lerl/Term;)I
42 caught_class (Lerl/Proc;)Lerl/Term;
43 caught_reason (Lerl/Proc;)Lerl/Term;
44 caught_trace (Lerl/Proc;)Lerl/Trace;
45 catch_value (Lerl/Proc;Lerl/Term;)Lerl/Term;
46 build (Lerl/Trace;)Lerl/Term;
47 peek (Lerl/Proc;)Lerl/Term;
48 advance (Lerl/Proc;)V
49 remove (Lerl/Proc;)V
50 timeout (Lerl/Proc;)V
51 timer (Lerl/Proc;Lerl/Term;)I
52 woke (Lerl/Proc;)I
";

/// A module's name, and how it is mangled.
const NAMES: &str = "\
m m
a_b a_b
-f/0-fun-0- $2Df$2F0$2Dfun$2D0$2D
\u{e9} $C3$A9
\u{20ac} $E2$82$AC
A9z A9z
$ $24
";

/// Flags, a method's name, and whether it may be one.
const METHOD_NAMES: &str = "\
9 f__0 true
10 f__255 true
9 f__256 false
9 f__00 false
9 f__ false
9 f_0 false
9 __0 true
9 a__1__2 true
9 $2Df$2F0$2Dfun$2D0$2D__3 true
9 $2df__0 false
9 $41__0 false
9 $C3__0 false
9 $C3$A9__1 true
9 a-__1 false
10 f__0$p1 true
10 f__0$p999 true
10 f__0$p1000 false
10 f__0$p0 false
10 f__0$p01 false
9 f__0$p1 false
10 f__0$p1$p1 false
10 f__256$p1 false
";

/// A class's name, and whether it is a module's.
const CLASS_NAMES: &str = "\
erl/m/m true
erl/m/$2D true
erl/m/ false
erl/m/a/b false
erl/n/m false
m false
erl/m/$ED$A0$80 false
";

/// Bytes in hexadecimal, and whether they are modified UTF-8 (JVMS SE 7, 4.4.7).
const BYTES: &str = "\
61 true
7f true
00 false
c080 true
c081 false
c1bf false
c280 true
dfbf true
df false
e0a080 true
e09fbf false
eda080 true
efbfbf true
efbf false
f0908080 false
80 false
c220 false
";

/// Two types, and whether the first is assignable to the second.
const TYPES: &str = "\
Integer Top true
Long Top true
Top Integer false
Null a true
a Null false
a a true
a b false
a java/lang/Object true
java/lang/Object a false
Integer Integer true
Integer Long false
Long Long true
Null Null true
Top Top true
Null Integer false
";

#[test]
fn each_opcode(rt: HostRuntime) -> Result<(), Fail> {
    let mut count = 0u16;
    for line in OPCODES.lines() {
        let mut words = line.split(' ');
        let number = word(&mut words).parse::<u16>()?;
        let name = word(&mut words);
        assert_eq!(rt; opcode(name.as_bytes()), Some(number));
        let row = mnemonic(number).ok_or("an opcode")?;
        let mut operands = String::new(rt.alloc());
        write!(operands, "{:?}", row.operands)?;
        assert_eq!(rt; operands.as_str(), word(&mut words));
        assert_eq!(rt; row.name, name);
        count = u16::wrapping_add(count, 1);
    }
    assert_eq!(rt; count, 60);
    assert!(rt; mnemonic(0).is_none());
    assert!(rt; mnemonic(200).is_none());
    assert_eq!(rt; opcode(b"ret"), None);
    Ok(())
}

#[test]
fn each_runtime_method(rt: HostRuntime) -> Result<(), Fail> {
    let mut count = 0u16;
    for line in METHODS.lines() {
        let mut words = line.split(' ');
        let number = word(&mut words).parse::<u16>()?;
        let name = word(&mut words);
        let descriptor = word(&mut words);
        assert_eq!(rt;
            runtime(name.as_bytes(), descriptor.as_bytes()),
            Some(number)
        );
        assert_eq!(rt; runtime_row(number).ok_or("a row")?.name, name);
        assert_eq!(rt; runtime(name.as_bytes(), b"()V"), None);
        count = u16::wrapping_add(count, 1);
    }
    assert_eq!(rt; count, 52);
    assert!(rt; runtime_row(0).is_none());
    assert!(rt; runtime_row(53).is_none());
    assert_eq!(rt; runtime(b"takes", b"(Lerl/Proc;I)Lerl/Term;"), None);
    Ok(())
}

#[test]
fn each_name(rt: HostRuntime) -> Result<(), Fail> {
    for line in NAMES.lines() {
        let mut words = line.split(' ');
        let name = Text::make(rt.alloc(), word(&mut words))?;
        assert_eq!(rt; mangle(rt.alloc(), &name)?.as_str(), word(&mut words));
    }
    for line in METHOD_NAMES.lines() {
        let mut words = line.split(' ');
        let flags = word(&mut words).parse::<u16>()?;
        let name = word(&mut words).as_bytes();
        let is = word(&mut words) == "true";
        assert_eq!(rt; is_method_name(rt.alloc(), flags, name)?, is, "{line}");
    }
    for line in CLASS_NAMES.lines() {
        let mut words = line.split(' ');
        let name = word(&mut words).as_bytes();
        let is = word(&mut words) == "true";
        assert_eq!(rt; is_class_name(rt.alloc(), name)?, is, "{line}");
    }
    Ok(())
}

#[test]
fn each_byte_string(rt: HostRuntime) -> Result<(), Fail> {
    for line in BYTES.lines() {
        let mut words = line.split(' ');
        let bytes = bytes_of(rt.alloc(), word(&mut words))?;
        let is = word(&mut words) == "true";
        assert_eq!(rt; is_modified_utf8(bytes.as_slice()), is, "{line}");
    }
    assert!(rt; is_modified_utf8(b""));
    Ok(())
}

fn type_of(alloc: std::alloc::Global, word: &str) -> Result<VType, AllocError> {
    match word {
        "Top" => Ok(VType::Top),
        "Integer" => Ok(VType::Integer),
        "Long" => Ok(VType::Long),
        "Null" => Ok(VType::Null),
        name => Ok(VType::Class(Text::make(alloc, name)?)),
    }
}

#[test]
fn each_pair_of_types(rt: HostRuntime) -> Result<(), Fail> {
    for line in TYPES.lines() {
        let mut words = line.split(' ');
        let one = type_of(rt.alloc(), word(&mut words))?;
        let other = type_of(rt.alloc(), word(&mut words))?;
        let is = word(&mut words) == "true";
        assert_eq!(rt; assignable(&one, &other), is, "{line}");
    }
    Ok(())
}
