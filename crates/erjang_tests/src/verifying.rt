//! The program's `verify` over memory: lines, the first file that is refused, and calls that fail.

use crate::runs::{CLASS, Ran, texts};
use ej_outside::{MemShelf, MemSink};
use erjang_top::erjang;
use std::alloc::{AllocError, Global};
use std::test::Fail;

// A class of one method that gives back its second argument, spelled by hand.
const PLAIN: [u8; 118] =
    *b"\xca\xfe\xba\xbe\x00\x00\x002\x00\x08\x01\x00\x07erl/m/a\x07\x00\x01\x01\x00\x10java/lang/Object\x07\x00\x03\x01\x00\x04f__0\x01\x00\x0e(Lerl/Proc;I)I\x01\x00\x04Code\x00!\x00\x02\x00\x04\x00\x00\x00\x00\x00\x01\x00\x09\x00\x05\x00\x06\x00\x01\x00\x07\x00\x00\x00\x0e\x00\x01\x00\x02\x00\x00\x00\x02\x1b\xac\x00\x00\x00\x00\x00\x00";

// The same with a stack map of one frame, of which there is no byte.
const NO_FRAME: [u8; 142] =
    *b"\xca\xfe\xba\xbe\x00\x00\x002\x00\x09\x01\x00\x07erl/m/a\x07\x00\x01\x01\x00\x10java/lang/Object\x07\x00\x03\x01\x00\x04f__0\x01\x00\x0e(Lerl/Proc;I)I\x01\x00\x04Code\x01\x00\x0dStackMapTable\x00!\x00\x02\x00\x04\x00\x00\x00\x00\x00\x01\x00\x09\x00\x05\x00\x06\x00\x01\x00\x07\x00\x00\x00\x16\x00\x01\x00\x02\x00\x00\x00\x02\x1b\xac\x00\x00\x00\x01\x00\x08\x00\x00\x00\x02\x00\x01\x00\x00";

// A class with another byte at a place.
fn changed(alloc: Global, class: &[u8], place: usize, byte: u8) -> Result<Vec<u8>, AllocError> {
    let mut bytes = Vec::from_slice(alloc, class)?;
    if let Some(at) = bytes.get_mut(place) {
        *at = byte;
    }
    Ok(bytes)
}

// The plain class and what is made of it, and the class `m.class` of another program with a call of a method that is not.
fn classes(alloc: Global) -> Result<Vec<(String, Vec<u8>)>, AllocError> {
    let (cut, _) = PLAIN.split_at(117);
    let mut more = Vec::from_slice(alloc, PLAIN.as_slice())?;
    more.push(0)?;
    let mut files = Vec::new(alloc);
    for (name, bytes) in [
        ("a.class", Vec::from_slice(alloc, PLAIN.as_slice())?),
        ("m.class", Vec::from_slice(alloc, CLASS.as_slice())?),
        ("cut.class", Vec::from_slice(alloc, cut)?),
        ("more.class", more),
        ("version.class", changed(alloc, PLAIN.as_slice(), 7, 51)?),
        ("untyped.class", changed(alloc, PLAIN.as_slice(), 110, 42)?),
        ("opcode.class", changed(alloc, PLAIN.as_slice(), 110, 182)?),
        ("map.class", Vec::from_slice(alloc, NO_FRAME.as_slice())?),
        ("call.class", changed(alloc, CLASS.as_slice(), 86, b'l')?),
        ("empty.class", Vec::new(alloc)),
    ] {
        files.push((String::from_str(alloc, name)?, bytes))?;
    }
    Ok(files)
}

// The numbers of the calls that fail, of the shelf and of both sinks.
type Fails<'a> = [&'a [u64]; 3];

// Calls `verify` on these names, over those classes.
fn verify(alloc: Global, names: &str, fails: Fails<'_>) -> Result<Ran, AllocError> {
    let [shelf_fails, out_fails, err_fails] = fails;
    let shelf_fails = Vec::from_slice(alloc, shelf_fails)?;
    let mut shelf = MemShelf::new(alloc, classes(alloc)?, 0, shelf_fails)?;
    let mut out = MemSink::new(alloc, 4096, Vec::from_slice(alloc, out_fails)?)?;
    let mut err = MemSink::new(alloc, 4096, Vec::from_slice(alloc, err_fails)?)?;
    let mut words = Vec::new(alloc);
    words.push("verify")?;
    for name in names.split(' ') {
        words.push(name)?;
    }
    let words = texts(alloc, words.as_slice())?;
    let status = erjang(alloc, words.as_slice(), &mut shelf, &mut out, &mut err);
    Ok(Ran {
        status,
        shelf,
        out,
        err,
    })
}

// Of how many there are lines, the names, and what is said of the next, if anything.
const ANSWERS: &str = "\
1 a.class
3 a.class m.class a.class
0 cut.class ==> cut.class: byte 116: no class file
0 more.class ==> more.class: byte 118: no class file
0 empty.class ==> empty.class: byte 0: no class file
0 version.class ==> version.class: byte 6: outside the profile
0 opcode.class ==> opcode.class: byte 110: outside the profile
0 untyped.class ==> untyped.class: method 0, offset 1: not typed
0 call.class ==> call.class: method 0, offset 2: not linked
0 map.class ==> map.class: method 0: bad stack map
0 none.class a.class ==> none.class: absent
2 a.class m.class none.class cut.class ==> none.class: absent
1 m.class cut.class none.class a.class ==> cut.class: byte 116: no class file
2 a.class a.class untyped.class cut.class ==> untyped.class: method 0, offset 1: not typed
";

// The lines of the first of the names.
fn lines(alloc: Global, names: &str, count: usize) -> Result<String, AllocError> {
    let mut lines = String::new(alloc);
    for name in names.split(' ').take(count) {
        lines.push_str("ok ")?;
        lines.push_str(name)?;
        lines.push_str("\n")?;
    }
    Ok(lines)
}

#[test]
fn verifies_up_to_the_first_that_is_refused(rt: HostRuntime) -> Result<(), Fail> {
    let alloc = rt.alloc();
    for row in ANSWERS.lines() {
        let (count, row) = row.split_once(' ').unwrap_or((row, ""));
        let (names, line) = row.split_once(" ==> ").unwrap_or((row, ""));
        let ran = verify(alloc, names, [&[], &[], &[]])?;
        let status = if line.is_empty() { 0 } else { 1 };
        let written = lines(alloc, names, count.parse().unwrap_or(0))?;
        let said = if line.is_empty() {
            String::new(alloc)
        } else {
            format!(in alloc; "{line}\n")?
        };
        assert_eq!(rt; ran.status, status, "{row}");
        assert_eq!(rt; ran.out.taken(), written.as_bytes(), "{row}");
        assert_eq!(rt; ran.err.taken(), said.as_bytes(), "{row}");
        assert_eq!(rt; ran.shelf.held("a.class"), Some(PLAIN.as_slice()));
    }
    Ok(())
}

// The names, the calls that fail, and what then comes: the status, what is written, and what is said.
const FAULTS: [(&str, Fails<'static>, u8, &str, &str); 7] = [
    (
        "a.class m.class",
        [&[1], &[], &[]],
        3,
        "ok a.class\n",
        "m.class: read failed\n",
    ),
    (
        "cut.class",
        [&[0], &[], &[]],
        3,
        "",
        "cut.class: read failed\n",
    ),
    ("cut.class", [&[], &[], &[1]], 4, "", "cut.class"),
    ("m.class a.class", [&[1], &[], &[0]], 4, "ok m.class\n", ""),
    ("a.class", [&[], &[0], &[]], 4, "", ""),
    (
        "a.class m.class cut.class",
        [&[], &[4], &[]],
        4,
        "ok a.class\nok ",
        "",
    ),
    (
        "a.class none.class",
        [&[], &[3], &[]],
        1,
        "ok a.class\n",
        "none.class: absent\n",
    ),
];

#[test]
fn tells_what_failed(rt: HostRuntime) -> Result<(), Fail> {
    for (names, fails, status, written, said) in FAULTS {
        let ran = verify(rt.alloc(), names, fails)?;
        assert_eq!(rt; ran.status, status, "{names}");
        assert_eq!(rt; ran.out.taken(), written.as_bytes(), "{names}");
        assert_eq!(rt; ran.err.taken(), said.as_bytes(), "{names}");
    }
    Ok(())
}

#[test]
fn tells_a_file_that_is_too_long(rt: HostRuntime) -> Result<(), Fail> {
    let alloc = rt.alloc();
    let mut bytes = Vec::with_capacity(alloc, 67108865)?;
    for _ in 0..67108865 {
        bytes.push(0)?;
    }
    let mut files = Vec::new(alloc);
    files.push((String::from_str(alloc, "long.class")?, bytes))?;
    let mut shelf = MemShelf::new(alloc, files, 0, Vec::new(alloc))?;
    let mut out = MemSink::new(alloc, 64, Vec::new(alloc))?;
    let mut err = MemSink::new(alloc, 64, Vec::new(alloc))?;
    let words = texts(alloc, &["verify", "long.class"])?;
    let status = erjang(alloc, words.as_slice(), &mut shelf, &mut out, &mut err);
    assert_eq!(rt; status, 1);
    assert!(rt; out.taken().is_empty());
    assert_eq!(rt;
        err.taken(),
        b"long.class: longer than 67108864 bytes\n".as_slice()
    );
    Ok(())
}
