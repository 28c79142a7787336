//! The program over memory: files that are there, calls that fail, and what comes of it.

use ej_outside::{MemShelf, MemSink};
use erjang_top::erjang;
use std::alloc::{AllocError, Global};
use std::process::Abort;
use std::test::Fail;

// The plainest source, with its file's name.
pub(crate) const NAME: &str = "m.S";

pub(crate) const SOURCE: &str =
    "{module,m}.\n{exports,[{f,1}]}.\n{attributes,[]}.\n{labels,3}.\n{function,f,1,2}.\n{label,1}.\n{func_info,{atom,m},{atom,f},1}.\n{label,2}.\nreturn.\n";

// Its class, spelled by another program and read by `javap -v`.
pub(crate) const CLASS: [u8; 378] =
    *b"\xca\xfe\xba\xbe\x00\x00\x002\x00 \x01\x00\x07erl/m/m\x07\x00\x01\x01\x00\x10java/lang/Object\x07\x00\x03\x01\x00\x0e(Lerl/Proc;I)I\x01\x00\x04Code\x01\x00\x06erl/Rt\x07\x00\x07\x01\x00\x04take\x01\x00\x17(Lerl/Proc;I)Lerl/Term;\x0c\x00\x09\x00\n\n\x00\x08\x00\x0b\x01\x00\x04give\x01\x00\x17(Lerl/Proc;Lerl/Term;)V\x0c\x00\x0d\x00\x0e\n\x00\x08\x00\x0f\x01\x00\x05raise\x01\x00\x18(Lerl/Proc;ILerl/Term;)V\x0c\x00\x11\x00\x12\n\x00\x08\x00\x13\x01\x00\x07integer\x01\x00\x0d(J)Lerl/Term;\x0c\x00\x15\x00\x16\n\x00\x08\x00\x17\x01\x00\x03lit\x01\x00\x1e(Ljava/lang/String;)Lerl/Term;\x0c\x00\x19\x00\x1a\n\x00\x08\x00\x1b\x08\x00\x1e\x01\x00\x0ffunction_clause\x01\x00\x04f__1\x00!\x00\x02\x00\x04\x00\x00\x00\x00\x00\x01\x00\x09\x00\x1f\x00\x05\x00\x01\x00\x06\x00\x00\x00\x19\x00\x03\x00\x03\x00\x00\x00\x0d*\x03\xb8\x00\x0cM*,\xb8\x00\x10\x03\xac\x00\x00\x00\x00\x00\x00";

// A source of several functions whose names, numbers and registers are at their edges, and its class, spelled likewise.
const EDGE_SOURCE: &[u8] =
    b"{module,a@b}.\n{exports,[{g,0},{f,2},{f,2}]}.\n{attributes,[]}.\n{labels,4294967295}.\n{function,f,2,4}.\n{label,3}.\n{line,[]}.\n{func_info,{atom,a@b},{atom,f},2}.\n{label,4}.\n{move,{x,1},{x,1023}}.\n{label,9}.\n{line,[]}.\n{line,[]}.\n{move,{x,1023},{x,0}}.\nreturn.\n{move,nil,{x,0}}.\nreturn.\n{function,g,0,0}.\n{label,4294967295}.\n{func_info,{atom,a@b},{atom,g},0}.\n{label,0}.\n{move,{integer,-9223372036854775808},{x,0}}.\n{move,{integer,9223372036854775807},{x,1}}.\n{move,{integer,-1},{x,2}}.\n{move,{integer,0},{x,253}}.\n{move,{atom,f},{x,254}}.\n{move,{integer,-1},{x,3}}.\n{move,{x,253},{x,253}}.\n{move,nil,{x,255}}.\n{move,{atom,f},{x,1}}.\nreturn.\n{function,f_G9@,8,7}.\n{label,6}.\n{line,[]}.\n{func_info,{atom,a@b},{atom,f_G9@},8}.\n{label,7}.\n{func_info,{atom,other},{atom,a@b},4294967295}.\n{move,{x,1023},{x,0}}.\n";

const EDGE_CLASS: &[u8] =
    b"\xca\xfe\xba\xbe\x00\x00\x002\x00.\x01\x00\x0berl/m/a$40b\x07\x00\x01\x01\x00\x10java/lang/Object\x07\x00\x03\x01\x00\x0e(Lerl/Proc;I)I\x01\x00\x04Code\x01\x00\x06erl/Rt\x07\x00\x07\x01\x00\x04take\x01\x00\x17(Lerl/Proc;I)Lerl/Term;\x0c\x00\x09\x00\n\n\x00\x08\x00\x0b\x01\x00\x04give\x01\x00\x17(Lerl/Proc;Lerl/Term;)V\x0c\x00\x0d\x00\x0e\n\x00\x08\x00\x0f\x01\x00\x05raise\x01\x00\x18(Lerl/Proc;ILerl/Term;)V\x0c\x00\x11\x00\x12\n\x00\x08\x00\x13\x01\x00\x07integer\x01\x00\x0d(J)Lerl/Term;\x0c\x00\x15\x00\x16\n\x00\x08\x00\x17\x01\x00\x03lit\x01\x00\x1e(Ljava/lang/String;)Lerl/Term;\x0c\x00\x19\x00\x1a\n\x00\x08\x00\x1b\x08\x00\x1e\x01\x00\x0ffunction_clause\x08\x00 \x01\x00\x02[]\x05\x80\x00\x00\x00\x00\x00\x00\x00\x05\x7f\xff\xff\xff\xff\xff\xff\xff\x05\xff\xff\xff\xff\xff\xff\xff\xff\x05\x00\x00\x00\x00\x00\x00\x00\x00\x08\x00*\x01\x00\x01f\x01\x00\x04f__2\x01\x00\x04g__0\x01\x00\nf_G9$40__8\x00!\x00\x02\x00\x04\x00\x00\x00\x00\x00\x03\x00\x09\x00+\x00\x05\x00\x01\x00\x06\x00\x00\x00)\x00\x03\x04\x02\x00\x00\x00\x1d*\x03\xb8\x00\x0cM*\x04\xb8\x00\x0cN-\xc4:\x04\x01\xc4\x19\x04\x01M*,\xb8\x00\x10\x03\xac\x00\x00\x00\x00\x00\x09\x00,\x00\x05\x00\x01\x00\x06\x00\x00\x00X\x00\x03\x01\x02\x00\x00\x00L\x14\x00!\xb8\x00\x18M\x14\x00#\xb8\x00\x18N\x14\x00%\xb8\x00\x18:\x04\x14\x00'\xb8\x00\x18:\xff\x13\x00)\xb8\x00\x1c\xc4:\x01\x00\x14\x00%\xb8\x00\x18:\x05\x19\xff:\xff\x13\x00\x1f\xb8\x00\x1c\xc4:\x01\x01\x13\x00)\xb8\x00\x1cN*,\xb8\x00\x10\x03\xac\x00\x00\x00\x00\x00\n\x00-\x00\x05\x00\x01\x00\x06\x00\x00\x00S\x00\x03\x00\n\x00\x00\x00G*\x03\xb8\x00\x0cM*\x04\xb8\x00\x0cN*\x05\xb8\x00\x0c:\x04*\x06\xb8\x00\x0c:\x05*\x07\xb8\x00\x0c:\x06*\x08\xb8\x00\x0c:\x07*\x11\x00\x06\xb8\x00\x0c:\x08*\x11\x00\x07\xb8\x00\x0c:\x09*\x03\x13\x00\x1d\xb8\x00\x1c\xb8\x00\x14\x07\xac\x00\x00\x00\x00\x00\x00";

// A source of names that need quotes, and its class, spelled by another program.
pub(crate) const QUOTED_SOURCE: &str =
    "{module,'A €'}.\n{exports,[{'b\\'c',0},{'',1}]}.\n{attributes,[]}.\n{labels,5}.\n{function,'b\\'c',0,2}.\n{label,1}.\n{func_info,{atom,'A €'},{atom,'b\\'c'},0}.\n{label,2}.\n{move,{atom,'é\\\\'},{x,0}}.\n{move,{atom,''},{x,1}}.\n{move,{atom,'end'},{x,2}}.\n{move,{atom,'[]'},{x,3}}.\n{move,nil,{x,4}}.\nreturn.\n{function,'',1,4}.\n{label,3}.\n{func_info,{atom,'A €'},{atom,''},1}.\n{label,4}.\nreturn.\n";

pub(crate) const QUOTED_CLASS: &[u8] =
    b"\xca\xfe\xba\xbe\x00\x00\x002\x00+\x01\x00\x13erl/m/A$20$E2$82$AC\x07\x00\x01\x01\x00\x10java/lang/Object\x07\x00\x03\x01\x00\x0e(Lerl/Proc;I)I\x01\x00\x04Code\x01\x00\x06erl/Rt\x07\x00\x07\x01\x00\x04take\x01\x00\x17(Lerl/Proc;I)Lerl/Term;\x0c\x00\x09\x00\n\n\x00\x08\x00\x0b\x01\x00\x04give\x01\x00\x17(Lerl/Proc;Lerl/Term;)V\x0c\x00\x0d\x00\x0e\n\x00\x08\x00\x0f\x01\x00\x05raise\x01\x00\x18(Lerl/Proc;ILerl/Term;)V\x0c\x00\x11\x00\x12\n\x00\x08\x00\x13\x01\x00\x07integer\x01\x00\x0d(J)Lerl/Term;\x0c\x00\x15\x00\x16\n\x00\x08\x00\x17\x01\x00\x03lit\x01\x00\x1e(Ljava/lang/String;)Lerl/Term;\x0c\x00\x19\x00\x1a\n\x00\x08\x00\x1b\x08\x00\x1e\x01\x00\x0ffunction_clause\x08\x00 \x01\x00\n'\\x{E9}\\\\'\x08\x00\"\x01\x00\x02''\x08\x00$\x01\x00\x05'end'\x08\x00&\x01\x00\x04'[]'\x08\x00(\x01\x00\x02[]\x01\x00\x08b$27c__0\x01\x00\x03__1\x00!\x00\x02\x00\x04\x00\x00\x00\x00\x00\x02\x00\x09\x00)\x00\x05\x00\x01\x00\x06\x00\x00\x009\x00\x03\x00\x07\x00\x00\x00-\x13\x00\x1f\xb8\x00\x1cM\x13\x00!\xb8\x00\x1cN\x13\x00#\xb8\x00\x1c:\x04\x13\x00%\xb8\x00\x1c:\x05\x13\x00'\xb8\x00\x1c:\x06*,\xb8\x00\x10\x03\xac\x00\x00\x00\x00\x00\x09\x00*\x00\x05\x00\x01\x00\x06\x00\x00\x00\x19\x00\x03\x00\x03\x00\x00\x00\x0d*\x03\xb8\x00\x0cM*,\xb8\x00\x10\x03\xac\x00\x00\x00\x00\x00\x00";

const USAGE: &[u8] =
    b"usage: erjang compile OUTDIR FILE... | beam SCRIPT FILE... | run SCRIPT CLASS... | verify CLASS... | sample N\n";

/// The outside of one call, and the status that it ended with.
#[derive(Drop)]
pub(crate) struct Ran {
    pub(crate) status: u8,
    pub(crate) shelf: MemShelf,
    pub(crate) out: MemSink,
    pub(crate) err: MemSink,
}

pub(crate) fn texts(alloc: Global, words: &[&str]) -> Result<Vec<String>, AllocError> {
    let mut texts = Vec::new(alloc);
    for word in words {
        texts.push(String::from_str(alloc, *word)?)?;
    }
    Ok(texts)
}

// Calls the program on one file, where the shelf's calls of these numbers fail.
pub(crate) fn run(
    alloc: Global,
    words: &[&str],
    source: &[u8],
    fails: Vec<u64>,
) -> Result<Ran, AllocError> {
    run_over(alloc, words, &[(NAME, source)], fails)
}

// Calls the program on files, where the shelf's calls of these numbers fail.
pub(crate) fn run_over(
    alloc: Global,
    words: &[&str],
    sources: &[(&str, &[u8])],
    fails: Vec<u64>,
) -> Result<Ran, AllocError> {
    let mut files = Vec::new(alloc);
    for (name, source) in sources {
        files.push((
            String::from_str(alloc, *name)?,
            Vec::from_slice(alloc, *source)?,
        ))?;
    }
    let mut shelf = MemShelf::new(alloc, files, 4096, fails)?;
    let mut out = MemSink::new(alloc, 4096, Vec::new(alloc))?;
    let mut err = MemSink::new(alloc, 4096, Vec::new(alloc))?;
    let words = texts(alloc, words)?;
    let status = erjang(alloc, words.as_slice(), &mut shelf, &mut out, &mut err);
    Ok(Ran {
        status,
        shelf,
        out,
        err,
    })
}

#[test]
fn compiles_the_plainest_source(rt: HostRuntime) -> Result<(), Fail> {
    let alloc = rt.alloc();
    let ran = run(
        alloc,
        &["compile", "o", NAME],
        SOURCE.as_bytes(),
        Vec::new(alloc),
    )?;
    assert_eq!(rt; ran.status, 0);
    assert_eq!(rt; ran.shelf.held("o/m.class"), Some(CLASS.as_slice()));
    assert_eq!(rt; ran.shelf.held(NAME), Some(SOURCE.as_bytes()));
    assert!(rt; ran.out.taken().is_empty() && ran.err.taken().is_empty());
    Ok(())
}

#[test]
fn compiles_names_and_numbers_at_their_edges(rt: HostRuntime) -> Result<(), Fail> {
    let alloc = rt.alloc();
    let ran = run(
        alloc,
        &["compile", "o/p", NAME],
        EDGE_SOURCE,
        Vec::new(alloc),
    )?;
    assert_eq!(rt; ran.status, 0);
    assert_eq!(rt; ran.shelf.held("o/p/a$40b.class"), Some(EDGE_CLASS));
    Ok(())
}

#[test]
fn compiles_names_in_quotes(rt: HostRuntime) -> Result<(), Fail> {
    let alloc = rt.alloc();
    let ran = run(
        alloc,
        &["compile", "o", NAME],
        QUOTED_SOURCE.as_bytes(),
        Vec::new(alloc),
    )?;
    assert_eq!(rt; ran.status, 0);
    assert_eq!(rt; ran.shelf.held("o/A$20$E2$82$AC.class"), Some(QUOTED_CLASS));
    Ok(())
}

// One call that ends otherwise: its words, its source, and the status and the line that it is to end with.
fn expect_line(
    rt: &(impl Abort + AllocGlobal),
    words: &[&str],
    source: &[u8],
    status: u8,
    line: &[u8],
) -> Result<(), AllocError> {
    let alloc = rt.alloc();
    let ran = run(alloc, words, source, Vec::new(alloc))?;
    assert_eq!(rt; ran.status, status, "{words:?}");
    assert_eq!(rt; ran.err.taken(), line, "{words:?}");
    assert!(rt; ran.out.taken().is_empty());
    assert!(rt; ran.shelf.held("o/m.class").is_none());
    assert_eq!(rt; ran.shelf.held(NAME), Some(source));
    Ok(())
}

#[test]
fn takes_no_other_words(rt: HostRuntime) -> Result<(), Fail> {
    let lists: [&[&str]; 11] = [
        &[],
        &["compile"],
        &["compile", "o"],
        &["compile", "", NAME],
        &["compile", "o", ""],
        &["compile", "o", "", NAME],
        &["compile", "o", NAME, ""],
        &["verify"],
        &["verify", ""],
        &["verify", NAME, ""],
        &["beam", "o", NAME],
    ];
    for words in lists {
        expect_line(&rt, words, SOURCE.as_bytes(), 2, USAGE)?;
    }
    Ok(())
}

#[test]
fn refuses_what_is_not_there(rt: HostRuntime) -> Result<(), Fail> {
    let words = ["compile", "o", "none.S"];
    expect_line(&rt, &words, SOURCE.as_bytes(), 1, b"none.S: absent\n")?;
    Ok(())
}

// The plainest source in other ways: spaces, comments and line breaks, quotes and escapes, zeros before a number, bytes
// that are no UTF-8 and some that are, and no line break at the end.
const OTHER_WAYS: [&[u8]; 5] = [
    b"% {module,n}.\n { module , m } .% the name\n\t{exports,[ {f,\n1} ]}.\r\n\x0c{attributes,[\x0b]}. {labels,3}.\n\n{function,f\n,1,2}.\n{label,1}.\n{func_info,{atom,m},{atom,f},1}. {label,2}.\nreturn.% .",
    b"{'module','m'}.\n{exports,[{'\\x66',1}]}.\n{'attributes',[]}.\n{labels,3}.\n{function,'\\146',1,2}.\n{label,1}.\n{func_info,{atom,'\\x{6D}'},{atom,f},1}.\n{label,2}.\n'return'.\n",
    b"{module,m}.\n{exports,[{f,01}]}.\n{attributes,[]}.\n{labels,0003}.\n{function,f,1,2}.\n{label,1}.\n{func_info,{atom,m},{atom,f},1}.\n{label,2}.\nreturn.\n",
    b"% \xe9\n{module,m}.\n{exports,[{f,1}]}.\n{attributes,[]}.\n{labels,3}.\n{function,f,1,2}.\n{label,1}.\n{func_info,{atom,m},{atom,f},1}.\n{label,2}.\nreturn.\n",
    b"% \xc3\xa9\n{module,m}.\n{exports,[{f,1}]}.\n{attributes,[]}.\n{labels,3}.\n{function,f,1,2}.\n{label,1}.\n{func_info,{atom,m},{atom,f},1}.\n{label,2}.\nreturn.",
];

#[test]
fn compiles_the_plainest_source_in_other_ways(rt: HostRuntime) -> Result<(), Fail> {
    let alloc = rt.alloc();
    for source in OTHER_WAYS {
        let ran = run(alloc, &["compile", "o", NAME], source, Vec::new(alloc))?;
        assert_eq!(rt; ran.status, 0, "{source:?}");
        assert_eq!(rt; ran.shelf.held("o/m.class"), Some(CLASS.as_slice()));
    }
    Ok(())
}

// Sources, one a line, and what is said of each.
const FAULTS: &str = r#" ==> form 0: bad form
% nothing ==> form 0: bad form
{module,m}. ==> form 1: bad form
{module,m}. {exports,[]}. {attributes,[]}. {labels,3}. ==> form 4: bad form
{module,m}. {exports,[{g,1}]}. {attributes,[]}. {labels,3}. {function,f,1,2}. {label,1}. {func_info,{atom,m},{atom,f},1}. {label,2}. return. ==> form 1: bad form
{module,m}. {exports,[{f,2}]}. {attributes,[]}. {labels,3}. {function,f,1,2}. {label,1}. {func_info,{atom,m},{atom,f},1}. {label,2}. return. ==> form 1: bad form
{module,m}. {exports,[]}. {attributes,[]}. {labels,3}. {function,f,1,2}. {label,1}. {func_info,{atom,m},{atom,f},1}. {label,2}. return. {function,f,1,4}. {label,3}. {func_info,{atom,m},{atom,f},1}. {label,4}. return. ==> form 9: bad form
{module,m}. {exports,[{f,1}]}. {attributes,[]}. {labels,99999999999999999999}. {function,f,1,2}. {label,1}. {func_info,{atom,m},{atom,f},1}. {label,2}. return. ==> form 3: bad form
{module,m}. {exports,[{f,256}]}. {attributes,[]}. {labels,3}. {function,f,256,2}. {label,1}. {func_info,{atom,m},{atom,f},256}. {label,2}. return. ==> form 1: bad form
{module,m}. {exports,[{f,1}]}. {attributes,[]}. {labels,3}. {function,f,1,2}. {label,2}. {func_info,{atom,m},{atom,f},1}. {label,2}. return. ==> label 2: defined twice
{module,m}. {exports,[]}. {attributes,[]}. {labels,3}. {function,f,1,2}. {label,1}. {func_info,{atom,m},{atom,f},1}. {label,2}. return. {function,g,1,3}. {label,1}. {func_info,{atom,m},{atom,g},1}. {label,3}. return. ==> label 1: defined twice
{module,m}. {exports,[{f,1}]}. {attributes,[]}. {labels,3}. {function,f,1,3}. {label,1}. {func_info,{atom,m},{atom,f},1}. {label,2}. return. ==> function 0: bad entry
{module,m}. {exports,[]}. {attributes,[]}. {labels,3}. {function,f,1,2}. {label,1}. {'%',a}. {func_info,{atom,m},{atom,f},1}. {label,2}. return. ==> function 0: bad entry
{module,''}. {exports,[{f,1}]}. {attributes,[]}. {labels,3}. {function,f,1,2}. {label,1}. {func_info,{atom,''},{atom,f},1}. {label,2}. return. ==> form 0: bad form
{module,m}. {exports,[{f,1}]}. {attributes,[]}. {labels,3}. {function,f,1,2}. return. ==> function 0: bad entry
{module,m}. {labels,4294967295}. {exports,[]}. {attributes,1.5}. {function,f,255,4294967295}. ==> function 0: bad entry
{module,m}. {exports,""}. {attributes,[]}. {labels,3}. {function,f,1,2}. {function,f,2,2}. return. ==> function 0: bad entry
{module,1}. ==> form 0: bad form
{module,''}. ==> form 0: bad form
{module,m,n}. ==> form 0: bad form
{module,m}. {exports,[{g,1}]}. {attributes,[]}. {labels,3}. {function,f,1,2}. ==> form 1: bad form
{module,m}. {attributes,[]}. {exports,[{f,2}]}. {labels,3}. {function,f,1,2}. ==> form 2: bad form
{module,m}. {exports,[]}. {attributes,[]}. {exports,[]}. {labels,3}. ==> form 3: bad form
{module,m}. {exports,[]}. {attributes,[]}. {labels,4294967296}. ==> form 3: bad form
{module,m}. {exports,[]}. {attributes,[]}. {labels,3}. return. ==> form 4: bad form
{module,m}. {exports,[]}. {attributes,[]}. {labels,3}. {function,f,256,2}. ==> form 4: bad form
{module,m}. {exports,[]}. {attributes,[]}. {labels,3}. {function,f,1,2}. {function,f,1,3}. ==> form 5: bad form
{module,m}. {exports,[]}. {attributes,[]}. {labels,3}. {function,f,1,2}. return. 1. ==> function 0, instruction 1: bad instruction
{module,m}. {exports,[]}. {attributes,[]}. {labels,3}. {function,f,1,2}. {function,g,1,2}. foo. ==> function 1, instruction 0: foo outside the profile
"#;

// What stands behind the entry label 2 of a function f/1, and what is said of it.
const BODY_FAULTS: &str = r#"{jump,{f,9}}. ==> function 0, instruction 3: label 9 missing
{label,2}. return. ==> label 2: defined twice
{call_ext_only,2,{extfunc,erlang,abs,1}}. ==> function 0, instruction 3: bad arity
{move,{float,1.0},{x,0}}. return. ==> function 0, instruction 3: move outside the profile
return. {'é€',1}. ==> function 0, instruction 4: é€ outside the profile
{move,{x,0}}. return. ==> function 0, instruction 3: bad instruction
return. {function,g,0,4}. {label,3}. {line,[]}. {jump,{f,9}}. ==> function 1: bad entry
{jump,{f,2}}. ==> function 0, instruction 3: not built
1.5. return. ==> function 0, instruction 3: bad instruction
[return]. return. ==> function 0, instruction 3: bad instruction
{}. return. ==> function 0, instruction 3: bad instruction
send_after. return. ==> function 0, instruction 3: send_after outside the profile
{move,{literal,1.5},{x,0}}. return. ==> function 0, instruction 3: move outside the profile
{move,{x,1024},{literal,1.5}}. return. ==> function 0, instruction 3: move outside the profile
{make_fun2,{f,2},#Ref<0.1>,0,0}. return. ==> function 0, instruction 3: make_fun2 outside the profile
{line,1.5,0}. return. ==> function 0, instruction 3: line outside the profile
{'%',1,#Pid<0.1>}. return. ==> function 0, instruction 3: % outside the profile
{test,is_foo,{f,2},[{literal,1.5}]}. return. ==> function 0, instruction 3: test outside the profile
{test,is_foo,{f,2},[{x,0}]}. return. ==> function 0, instruction 3: is_foo outside the profile
{test,is_foo}. return. ==> function 0, instruction 3: is_foo outside the profile
{test,1,{f,2},[{x,0}]}. return. ==> function 0, instruction 3: bad instruction
{test,is_atom,{f,0},[{x,0}]}. return. ==> function 0, instruction 3: bad instruction
{test,has_map_fields,{f,2},{x,0},{list,[{atom,a}]}}. return. ==> function 0, instruction 3: not built
{test,has_map_fields,{f,2},[{x,0}]}. return. ==> function 0, instruction 3: bad instruction
{test,is_integer,{f,2},[{x,0}]}. return. ==> function 0, instruction 3: not built
{test,is_integer,{f,2},[{x,0},{x,1}]}. return. ==> function 0, instruction 3: bad instruction
{test,test_arity,{f,2},[{x,0},2]}. return. ==> function 0, instruction 3: not built
{test,test_arity,{f,2},[{x,0},{integer,2}]}. return. ==> function 0, instruction 3: bad instruction
{test,is_tagged_tuple,{f,2},[{x,0},2,{atom,a}]}. return. ==> function 0, instruction 3: not built
{test,is_tagged_tuple,{f,2},[{x,0},2,a]}. return. ==> function 0, instruction 3: bad instruction
{bif,foo,{f,0},5,{x,0}}. return. ==> function 0, instruction 3: foo outside the profile
{bif,foo}. return. ==> function 0, instruction 3: foo outside the profile
{bif,self,{f,0},5,{x,0}}. return. ==> function 0, instruction 3: bad instruction
{bif,self,{f,0},[],{x,0}}. return. ==> function 0, instruction 3: not built
{bif,self,{f,0},[{x,0}],{x,0}}. return. ==> function 0, instruction 3: self outside the profile
{bif,hd,{f,0},"",{x,0}}. return. ==> function 0, instruction 3: hd outside the profile
{bif,max,{f,0},[{x,0},{x,1}],{x,0}}. return. ==> function 0, instruction 3: max outside the profile
{bif,raise,{f,0},[{x,2},{x,1}],{x,0}}. return. ==> function 0: undefined slot
{bif,raise,{f,0},[{x,2},{x,1},{x,0}],{x,0}}. return. ==> function 0, instruction 3: raise outside the profile
{bif,raise,{f,0},5,{x,0}}. return. ==> function 0, instruction 3: bad instruction
{bif,raise,{f,1},[{x,2},{x,1}],{x,0}}. return. ==> function 0, instruction 3: bad instruction
{gc_bif,raise,{f,0},0,[{x,2},{x,1}],{x,0}}. return. ==> function 0, instruction 3: raise outside the profile
{gc_bif,length,{f,0},1024,[{x,0}],{x,0}}. return. ==> function 0, instruction 3: not built
{gc_bif,length,{f,0},1025,[{x,0}],{x,0}}. return. ==> function 0, instruction 3: bad instruction
{gc_bif,length,{f,0},1,[{x,0},{x,1}],{x,0}}. return. ==> function 0, instruction 3: length outside the profile
{return}. return. ==> function 0, instruction 3: bad instruction
badmatch. return. ==> function 0, instruction 3: bad instruction
{move,{x,1024},{x,0}}. return. ==> function 0, instruction 3: bad instruction
{move,{x,1023},{x,0}}. return. ==> function 0: undefined slot
{test,is_atom,{f,3},[{x,0}]}. {move,{x,0},{x,3}}. {label,3}. {move,{x,3},{x,0}}. return. ==> function 0: undefined slot
{allocate,1,1}. {init_yregs,{list,[{y,0}]}}. {test,is_atom,{f,3},[{x,0}]}. {move,{x,0},{y,0}}. {label,3}. {move,{y,0},{x,0}}. {deallocate,1}. return. ==> function 0, instruction 3: not built
{move,{atom,a},{x,0}}. {label,4}. {line,[]}. {'%',1}. {swap,{x,0},{x,0}}. return. ==> function 0, instruction 7: not built
{move,{integer,1},{y,0}}. return. ==> function 0: undefined slot
{move,{literal,[]},{x,0}}. return. {function,g,0,4}. {label,3}. {func_info,{atom,m},{atom,g},0}. {label,4}. return. ==> function 1: undefined slot
return. {function,g,1,4}. {label,3}. {func_info,{atom,m},{atom,g},1}. {label,4}. {move,{literal,[]},{x,0}}. return. ==> function 1, instruction 3: not built
"#;

#[test]
fn names_the_first_fault(rt: HostRuntime) -> Result<(), Fail> {
    let alloc = rt.alloc();
    for (head, table) in [("", FAULTS), (HEAD, BODY_FAULTS)] {
        for row in table.lines() {
            let (forms, words) = row.split_once(" ==> ").unwrap_or((row, ""));
            let mut source = String::from_str(alloc, head)?;
            source.push_str(forms)?;
            let mut line = String::from_str(alloc, "m.S: ")?;
            line.push_str(words)?;
            line.push_str("\n")?;
            let call = ["compile", "o", NAME];
            expect_line(&rt, &call, source.as_bytes(), 1, line.as_bytes())?;
        }
    }
    Ok(())
}

#[test]
fn names_the_first_form_that_is_bad_text(rt: HostRuntime) -> Result<(), Fail> {
    let sources: [(&[u8], &[u8]); 9] = [
        (b"{module,m}.\n{exports,[", b"m.S: form 1: bad text\n"),
        (b"\xff", b"m.S: form 0: bad text\n"),
        (b"\x01", b"m.S: form 0: bad text\n"),
        (b"{module,m}", b"m.S: form 0: bad text\n"),
        (b"{module,m}.{exports,[]}.\n", b"m.S: form 0: bad text\n"),
        (b"{module,}.\n{exports,[}.\n", b"m.S: form 0: bad text\n"),
        (b"{module,'m\\^'}.\n", b"m.S: form 0: bad text\n"),
        (
            b"a. a. a. a. a. a. a. a. a. a. a. b b. ]. ",
            b"m.S: form 11: bad text\n",
        ),
        (b"{module,m}.\n% }\n.", b"m.S: form 1: bad text\n"),
    ];
    for (source, line) in sources {
        expect_line(&rt, &["compile", "o", NAME], source, 1, line)?;
    }
    Ok(())
}

// That many opening square brackets, as many closing ones, and a full stop.
fn nested(alloc: Global, depth: usize) -> Result<Vec<u8>, AllocError> {
    let mut source = Vec::new(alloc);
    for _at in 0..depth {
        source.push(b'[')?;
    }
    for _at in 0..depth {
        source.push(b']')?;
    }
    source.push(b'.')?;
    Ok(source)
}

#[test]
fn tells_a_form_that_is_too_deep(rt: HostRuntime) -> Result<(), Fail> {
    let lines: [(usize, &[u8]); 2] = [
        (256, b"m.S: form 0: bad form\n"),
        (257, b"m.S: form 0: too deep\n"),
    ];
    for (depth, line) in lines {
        let source = nested(rt.alloc(), depth)?;
        expect_line(&rt, &["compile", "o", NAME], source.as_slice(), 1, line)?;
    }
    Ok(())
}

// The lines before the instructions of a function f/1 of the module m, behind its entry label.
const HEAD: &str =
    "{module,m}.\n{exports,[{f,1}]}.\n{attributes,[]}.\n{labels,9}.\n{function,f,1,2}.\n{label,1}.\n{func_info,{atom,m},{atom,f},1}.\n{label,2}.\n";

// What the program answers to that function of these instructions, a line each, and so many more of one behind them.
fn answer_to(
    alloc: Global,
    instructions: &str,
    more: usize,
    instruction: &str,
) -> Result<Ran, AllocError> {
    let mut source = String::from_str(alloc, HEAD)?;
    source.push_str(instructions)?;
    for _at in 0..more {
        source.push_str(instruction)?;
    }
    let words = ["compile", "o", NAME];
    run(alloc, &words, source.as_bytes(), Vec::new(alloc))
}

#[test]
fn compiles_what_holds_its_terms(rt: HostRuntime) -> Result<(), Fail> {
    let bodies: [(&str, u8); 25] = [
        ("return.\n", 0),
        // what does nothing has anything in it
        (
            "{'%',{var_info,{x,0},[{type,{t_float,0.0}}]}}.\nreturn.\n",
            0,
        ),
        ("{line,[{location,\"m.erl\",7}]}.\nreturn.\n", 0),
        ("{line,1.5}.\n{'%',#Pid<0.1>}.\nreturn.\n", 0),
        ("", 1),
        // what is read holds a term
        ("{move,{x,1},{x,0}}.\nreturn.\n", 1),
        ("{move,{x,0},{x,1}}.\n{move,{x,1},{x,0}}.\nreturn.\n", 0),
        ("{move,{x,0},{x,1}}.\n{move,{x,2},{x,0}}.\nreturn.\n", 1),
        (
            "{move,nil,{x,1}}.\n{label,3}.\n{line,[]}.\n{move,{x,1},{x,7}}.\n{move,{x,7},{x,0}}.\nreturn.\n",
            0,
        ),
        // what is not reached is not looked at, but for its form
        ("return.\n{move,{x,5},{x,0}}.\nreturn.\n", 0),
        ("{func_info,{atom,n},{atom,g},7}.\n{move,{x,5},{x,0}}.\n", 0),
        ("return.\n{move,{x,5}}.\n", 1),
        // it runs off its end
        ("{move,{x,0},{x,1}}.\n", 1),
        ("{label,3}.\n", 1),
        // a label twice, behind the end too
        ("return.\n{label,2}.\nreturn.\n", 1),
        ("return.\n{label,3}.\n{label,4}.\nreturn.\n", 0),
        // registers and integers at their ends and past them
        (
            "{move,{x,0},{x,1023}}.\n{move,{x,1023},{x,0}}.\nreturn.\n",
            0,
        ),
        ("{move,{x,0},{x,1024}}.\nreturn.\n", 1),
        ("{move,{integer,9223372036854775807},{x,0}}.\nreturn.\n", 0),
        ("{move,{integer,9223372036854775808},{x,0}}.\nreturn.\n", 1),
        ("{move,{integer,-9223372036854775808},{x,0}}.\nreturn.\n", 0),
        ("{move,{integer,-9223372036854775809},{x,0}}.\nreturn.\n", 1),
        // zero with a sign, an atom of a reserved word, and no x register
        ("{move,{integer,-0},{x,0}}.\nreturn.\n", 0),
        ("{move,{atom,end},{x,0}}.\nreturn.\n", 0),
        ("{move,{y,0},{x,0}}.\nreturn.\n", 1),
    ];
    for (instructions, status) in bodies {
        let ran = answer_to(rt.alloc(), instructions, 0, "")?;
        assert_eq!(rt; ran.status, status, "{instructions}");
    }
    Ok(())
}

// A function of one argument weighs 64, 12 and 32 for its `func_info`, a move 10 and a return 16.
#[test]
fn weighs_a_function(rt: HostRuntime) -> Result<(), Fail> {
    let returns = "return.\nreturn.\nreturn.\nreturn.\n";
    let rows: [(&str, usize, &str, &str); 4] = [
        // 108, 64 and 3,259 moves are 32,762, and one more 32,772
        (returns, 3259, "{move,nil,{x,0}}.\n", ""),
        (
            returns,
            3260,
            "{move,nil,{x,0}}.\n",
            "m.S: function 0: weight 32772 above 32767\n",
        ),
        // a swap of 16 and 2,040 returns are 32,764, and 2,041 are 32,780; what is not built is looked at behind that
        (
            "{swap,{x,0},{x,0}}.\n",
            2040,
            "return.\n",
            "m.S: function 0, instruction 3: not built\n",
        ),
        (
            "{swap,{x,0},{x,0}}.\n",
            2041,
            "return.\n",
            "m.S: function 0: weight 32780 above 32767\n",
        ),
    ];
    for (instructions, more, instruction, said) in rows {
        let ran = answer_to(rt.alloc(), instructions, more, instruction)?;
        assert_eq!(rt; ran.err.taken(), said.as_bytes());
    }
    Ok(())
}

#[test]
fn tells_a_read_that_failed(rt: HostRuntime) -> Result<(), Fail> {
    let alloc = rt.alloc();
    let fails = Vec::from_slice(alloc, &[0])?;
    let ran = run(alloc, &["compile", "o", NAME], SOURCE.as_bytes(), fails)?;
    assert_eq!(rt; ran.status, 3);
    assert_eq!(rt; ran.err.taken(), b"m.S: read failed\n".as_slice());
    assert!(rt; ran.shelf.held("o/m.class").is_none());
    Ok(())
}

#[test]
fn leaves_half_where_the_put_failed(rt: HostRuntime) -> Result<(), Fail> {
    let alloc = rt.alloc();
    let fails = Vec::from_slice(alloc, &[1])?;
    let ran = run(alloc, &["compile", "o", NAME], SOURCE.as_bytes(), fails)?;
    assert_eq!(rt; ran.status, 4);
    assert!(rt; ran.err.taken().is_empty() && ran.out.taken().is_empty());
    let (half, _) = CLASS.split_at(189);
    assert_eq!(rt; ran.shelf.held("o/m.class"), Some(half));
    assert_eq!(rt; ran.shelf.held(NAME), Some(SOURCE.as_bytes()));
    Ok(())
}
