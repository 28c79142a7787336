//! Prints that are read, and texts that are not.

use ej_term::{AsmTerm, Text};
use sqlite_items::Items;
use std::alloc::{AllocError, Global};
use std::test::Fail;
use term_heap::Heap;
use term_text::{ReadFault, print, read};

/// Texts, and whether each is the canonical print of a readable term.
const TEXTS: &str = r#"no
yes 0
yes -1
yes 9223372036854775807
yes -9223372036854775808
no 9223372036854775808
no 01
no -0
no +1
no 1.0
yes a
yes b@c_D9
yes else
no end
no 'a'
yes ['after','and','andalso','band','begin','bnot','bor','bsl','bsr','bxor','case','catch','cond','div','end']
yes ['fun','if','let','not','of','or','orelse','receive','rem','try','when','xor']
yes ''
yes 'A'
yes '_'
yes 'a b'
yes 'it\'s'
yes '\\'
yes '"'
no '\"'
yes '\x{DF}\x{CF}\x{F7}\x{100}'
no ß
no 'ß'
yes '\x{0}\x{E9}\x{A}\x{7F}\x{10FFFF}'
no '\x{110000}'
no '\x{D800}'
no '\x{e9}'
no '\xE9'
no '\x{0E9}'
no '\n'
no '\x{7E}'
yes ' !~'
yes []
yes [a]
yes [1,2|3]
yes [[97,98],[]|'B']
no "ab"
no [1|[2]]
no [1|[]]
no [1,2
no [1]x
yes {}
yes {a,{},[{}]}
no {a, b}
no {a}}
yes #{}
yes #{1=>[],a=>#{}}
yes #{a=>1,b=>2}
yes #{{1}=>{2},[1]=>[2]}
yes #{1=>a,a=>b,#Ref<0.1>=>c,fun m:f/1=>d,#Pid<0.1>=>e,{}=>f,#{}=>g,[]=>h,[1]=>i}
no #{b=>2,a=>1}
no #{a=>1,a=>2}
yes fun lists:reverse/2
yes fun 'M':'or'/255
yes fun '':''/0
no fun m:f/256
no fun m:f/007
no fun m:f/-1
no fun 'm':f/1
yes #Pid<0.1>
yes #Pid<4294967295.4611686018427387904>
yes #Ref<0.2>
yes #Ref<4294967295.4611686018427387904>
no #Pid<00.1>
no #Pid<0.4611686018427387905>
no #Ref<4294967296.0>
no #Fun<m,g,1,[]>
no <<>>
no 1. 2
no 1 % c
no a.
no  a
yes {[#Pid<1.2>,#Ref<3.4>|fun m:f/0],#{k=>[v|w]}}"#;

#[test]
fn exactly_prints_are_read(rt: HostRuntime) -> Result<(), Fail> {
    let mut heap = Heap::new(rt.alloc());
    for row in TEXTS.lines() {
        let (is_print, text) = row.split_once(' ').unwrap_or((row, ""));
        match read(rt.alloc(), &mut heap, text.as_bytes()) {
            Ok(id) => {
                let bytes = print(rt.alloc(), &heap, id)?;
                assert!(rt; bytes.as_slice() == text.as_bytes(), "{row}");
                assert_eq!(rt; is_print, "yes", "{row}");
            }
            Err(ReadFault::BadText) => assert_eq!(rt; is_print, "no", "{row}"),
            Err(fault) => return Err(Fail::from(fault)),
        }
    }
    Ok(())
}

/// So many brackets, one in the other.
fn nested(alloc: Global, depth: usize) -> Result<String, AllocError> {
    let mut text = String::new(alloc);
    for _ in 0..depth {
        text.push_str("[")?;
    }
    for _ in 0..depth {
        text.push_str("]")?;
    }
    Ok(text)
}

#[test]
fn brackets_go_256_deep(rt: HostRuntime) -> Result<(), Fail> {
    let alloc = rt.alloc();
    let mut heap = Heap::new(alloc);
    let deepest = nested(alloc, 256)?;
    assert!(rt; read(alloc, &mut heap, deepest.as_bytes()).is_ok());
    let deeper = nested(alloc, 257)?;
    let refused = read(alloc, &mut heap, deeper.as_bytes());
    assert!(rt; matches!(refused, Err(ReadFault::BadText)));
    Ok(())
}

#[test]
fn a_loaded_map_prints_by_rising_keys(rt: HostRuntime) -> Result<(), Fail> {
    let alloc = rt.alloc();
    let mut pairs = Items::new(alloc);
    pairs.push((AsmTerm::Atom(Text::make(alloc, "b")?), AsmTerm::Int(2)))?;
    pairs.push((AsmTerm::Atom(Text::make(alloc, "a")?), AsmTerm::Int(1)))?;
    let mut heap = Heap::new(alloc);
    let id = heap.load(&AsmTerm::Map(pairs))?;
    let bytes = print(alloc, &heap, id)?;
    assert!(rt; bytes.as_slice() == b"#{a=>1,b=>2}".as_slice());
    Ok(())
}

#[test]
fn a_local_fun_prints_with_its_free_variables(rt: HostRuntime) -> Result<(), Fail> {
    let mut heap = Heap::new(rt.alloc());
    let ten = heap.int(10)?;
    let twenty = heap.int(20)?;
    let local = heap.fun(true, "m", "g", 1, &[ten, twenty])?;
    let bytes = print(rt.alloc(), &heap, local)?;
    assert!(rt; bytes.as_slice() == b"#Fun<m,g,1,[10,20]>".as_slice());
    Ok(())
}
