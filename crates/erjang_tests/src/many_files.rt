//! The program over several files: which is refused first, and what stands afterwards.

use crate::runs::{CLASS, NAME, QUOTED_CLASS, QUOTED_SOURCE, Ran, SOURCE, run_over};
use std::alloc::{AllocError, Global};
use std::test::Fail;

const CLASS_NAME: &str = "o/m.class";

const QUOTED_CLASS_NAME: &str = "o/A$20$E2$82$AC.class";

// Calls `compile` into `o` on these files; there are `m.S` and `n.S`, both of the module `m`, `q.S` of another, and
// `bad.S`, and the shelf's calls of these numbers fail.
fn compile(alloc: Global, files: &str, fails: &[u64]) -> Result<Ran, AllocError> {
    let sources: [(&str, &[u8]); 4] = [
        (NAME, SOURCE.as_bytes()),
        ("n.S", SOURCE.as_bytes()),
        ("q.S", QUOTED_SOURCE.as_bytes()),
        ("bad.S", b"{module,b}."),
    ];
    let mut words = Vec::new(alloc);
    words.push("compile")?;
    words.push("o")?;
    for file in files.split(' ') {
        words.push(file)?;
    }
    run_over(
        alloc,
        words.as_slice(),
        &sources,
        Vec::from_slice(alloc, fails)?,
    )
}

#[test]
fn puts_a_class_for_each(rt: HostRuntime) -> Result<(), Fail> {
    let ran = compile(rt.alloc(), "q.S m.S", &[])?;
    assert_eq!(rt; ran.status, 0);
    assert_eq!(rt; ran.shelf.held(CLASS_NAME), Some(CLASS.as_slice()));
    assert_eq!(rt; ran.shelf.held(QUOTED_CLASS_NAME), Some(QUOTED_CLASS));
    assert!(rt; ran.out.taken().is_empty() && ran.err.taken().is_empty());
    Ok(())
}

// Files, and what is said of the first that is refused.
const REFUSED: &str = "\
m.S m.S ==> m.S: same module as file 1
m.S q.S n.S ==> n.S: same module as file 1
q.S n.S m.S ==> m.S: same module as file 2
m.S n.S q.S q.S ==> n.S: same module as file 1
m.S none.S bad.S ==> none.S: absent
m.S bad.S none.S ==> bad.S: form 1: bad form
m.S m.S none.S ==> none.S: absent
";

#[test]
fn names_the_first_that_is_refused(rt: HostRuntime) -> Result<(), Fail> {
    for row in REFUSED.lines() {
        let (files, said) = row.split_once(" ==> ").unwrap_or((row, ""));
        let ran = compile(rt.alloc(), files, &[])?;
        let line = format!(in rt.alloc(); "{said}\n")?;
        assert_eq!(rt; ran.status, 1, "{row}");
        assert_eq!(rt; ran.err.taken(), line.as_bytes(), "{row}");
        assert!(rt; ran.shelf.held(CLASS_NAME).is_none(), "{row}");
        assert!(rt; ran.shelf.held(QUOTED_CLASS_NAME).is_none(), "{row}");
    }
    Ok(())
}

#[test]
fn stops_at_a_fault_of_the_shelf(rt: HostRuntime) -> Result<(), Fail> {
    let alloc = rt.alloc();
    let unread = compile(alloc, "m.S q.S none.S", &[1])?;
    assert_eq!(rt; unread.status, 3);
    assert_eq!(rt; unread.err.taken(), b"q.S: read failed\n".as_slice());
    assert!(rt; unread.shelf.held(CLASS_NAME).is_none());
    let half = compile(alloc, "m.S q.S", &[3])?;
    assert_eq!(rt; half.status, 4);
    assert!(rt; half.err.taken().is_empty());
    assert_eq!(rt; half.shelf.held(CLASS_NAME), Some(CLASS.as_slice()));
    let (front, _) = QUOTED_CLASS.split_at(QUOTED_CLASS.len() / 2);
    assert_eq!(rt; half.shelf.held(QUOTED_CLASS_NAME), Some(front));
    Ok(())
}

#[test]
fn takes_a_thousand_files(rt: HostRuntime) -> Result<(), Fail> {
    let alloc = rt.alloc();
    let mut files = String::from_str(alloc, "none.S")?;
    for _ in 1..1000 {
        files.push_str(" none.S")?;
    }
    assert_eq!(rt; compile(alloc, files.as_str(), &[])?.status, 1);
    files.push_str(" none.S")?;
    assert_eq!(rt; compile(alloc, files.as_str(), &[])?.status, 2);
    Ok(())
}
