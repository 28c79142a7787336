//! Sources that are accepted and sources that are refused, with their sizes looked at and without.

use erjang_compile::accept;
use std::alloc::{AllocError, Global};
use std::test::Fail;

// Bodies of functions, what is said of their module where sizes are looked at, and what is said where they are not, if that is
// something else. `~PIECE~TIMES~` is PIECE written so often, with another number each time for `#`.
const BODIES: &str = r##"
1 {test,is_atom,{f,99},[{x,0}]}. {move,{x,0},{x,3}}. {label,99}. {move,{x,3},{x,0}}. return. ==> function 0: undefined slot
1 {allocate,1,1}. {init_yregs,{list,[{y,0}]}}. {test,is_atom,{f,99},[{x,0}]}. {move,{x,0},{y,0}}. {label,99}. {move,{y,0},{x,0}}. {deallocate,1}. return. ==> accepted 1
0 ~{move,{atom,a},{x,0}}. ~3265~{jump,{f,99}}. {label,99}. return. ==> accepted 1
0 ~{move,{atom,a},{x,0}}. ~3263~{move,{atom,a},{x,1}}. {swap,{x,0},{x,1}}. return. ==> function 0: weight 32768 above 32767 ==> accepted 1
1 return. & 0 ~{move,{atom,a},{x,0}}. ~3266~return. & 0 ~{move,{atom,a},{x,0}}. ~3267~return. ==> function 1: weight 32772 above 32767 ==> accepted 3
0 ~{move,{atom,a},{x,0}}. ~3266~return. & 0 {move,{x,3},{x,0}}. return. & 1 {move,{x,1},{x,0}}. return. ==> function 1: undefined slot
0 {move,{x,3},{x,0}}. return. & 0 {jump,{f,7}}. return. ==> function 1, instruction 3: label 7 missing
0 {jump,{f,7}}. {move,{float,1.0},{x,0}}. return. ==> function 0, instruction 4: move outside the profile
0 {move,{float,1.0},{x,0}}. return. {move ==> form 10: bad text
0 {move,{literal,"~a~21844~\t"},{x,0}}. return. ==> accepted 1
0 {move,{literal,"~a~21845~"},{x,0}}. return. ==> function 0, instruction 3: literal of 65536 bytes above 65535 ==> accepted 1
0 {move,{literal,"~\x{61}~21844~\t"},{x,0}}. return. ==> accepted 1
0 {move,{literal,"~\x{61}~21845~"},{x,0}}. return. ==> function 0, instruction 3: literal of 65536 bytes above 65535 ==> accepted 1
0 {move,{literal,[~'é',~7281~abcd]},{x,0}}. return. ==> accepted 1
0 {move,{literal,[~'é',~7281~abcde]},{x,0}}. return. ==> function 0, instruction 3: literal of 65536 bytes above 65535 ==> accepted 1
0 {move,{literal,#{~a => 1, ~30000~b => 2}},{x,0}}. return. ==> accepted 1
1 return. & 0 {line,[]}. {put_tuple2,{x,0},{list,[{literal,[b]},{literal,"~a~21846~"},{literal,"~a~21845~"}]}}. {move,{literal,"~a~21847~"},{x,0}}. return. & 0 {move,{literal,"~a~21847~"},{x,0}}. return. ==> function 1, instruction 4: literal of 65539 bytes above 65535 ==> accepted 3
0 {put_tuple2,{x,0},{list,[~{integer,#},~3223~{integer,0}]}}. return. & 0 {put_tuple2,{x,0},{list,[~{integer,#},~3223~{integer,1}]}}. return. & 0 {put_tuple2,{x,0},{list,[~{integer,#},~3223~{integer,2}]}}. return. & 0 {put_tuple2,{x,0},{list,[~{integer,#},~3223~{integer,3}]}}. return. & 0 {put_tuple2,{x,0},{list,[~{integer,#},~3223~{integer,4}]}}. return. ==> accepted 5
0 {put_tuple2,{x,0},{list,[~{integer,#},~3223~{integer,0}]}}. return. & 0 {put_tuple2,{x,0},{list,[~{integer,#},~3223~{integer,1}]}}. return. & 0 {put_tuple2,{x,0},{list,[~{integer,#},~3223~{integer,2}]}}. return. & 0 {put_tuple2,{x,0},{list,[~{integer,#},~3223~{integer,3}]}}. return. & 0 {put_tuple2,{x,0},{list,[~{integer,#},~3223~{integer,4}]}}. {move,{literal,"~a~21845~"},{x,0}}. return. ==> pool weight 65538 above 65534 ==> accepted 5
0 {put_tuple2,{x,0},{list,[~{integer,#},~3223~{integer,0}]}}. return. & 0 {put_tuple2,{x,0},{list,[~{integer,#},~3223~{integer,1}]}}. return. & 0 {put_tuple2,{x,0},{list,[~{integer,#},~3223~{integer,2}]}}. return. & 0 {put_tuple2,{x,0},{list,[~{integer,#},~3223~{integer,3}]}}. return. & 0 {put_tuple2,{x,0},{list,[~{integer,#},~3264~{integer,4}]}}. return. ==> function 4: weight 32774 above 32767 ==> accepted 5
"##;

// What is said of a source: how many functions have slot maps, or what is wrong first.
fn told(alloc: Global, source: &str, sizes: bool) -> Result<String, AllocError> {
    match accept(alloc, source.as_bytes(), sizes) {
        Ok(source) => format!(in alloc; "accepted {}", source.maps.len()),
        Err(fault) => format!(in alloc; "{fault}"),
    }
}

// A module of functions of these arities and bodies; the first labels of a function are its number behind a 1 and behind a 2.
fn module_of(alloc: Global, functions: &str) -> Result<String, AllocError> {
    let mut text = String::new(alloc);
    text.push_str("{module,m}. {exports,[]}. {attributes,[]}. {labels,99}.\n")?;
    for (func, function) in functions.split('&').enumerate() {
        let (arity, body) = function.trim().split_once(' ').unwrap_or(("0", ""));
        push_head(&mut text, func, arity)?;
        push_body(&mut text, func, body)?;
    }
    Ok(text)
}

fn push_head(text: &mut String, func: usize, arity: &str) -> Result<(), AllocError> {
    write!(
        text,
        "\n{{function,f{func},{arity},2{func}}}. {{label,1{func}}}. {{func_info,{{atom,m}},{{atom,f{func}}},{arity}}}. {{label,2{func}}}. "
    )
}

// Writes the body of that function out.
fn push_body(text: &mut String, func: usize, body: &str) -> Result<(), AllocError> {
    let mut piece = "";
    for (at, part) in body.split('~').enumerate() {
        match at % 3 {
            0 => text.push_str(part)?,
            1 => piece = part,
            _ => push_times(text, func, piece, part.parse::<u16>().unwrap_or(0))?,
        }
    }
    Ok(())
}

// The numbers of different functions are different ones.
fn push_times(text: &mut String, func: usize, piece: &str, times: u16) -> Result<(), AllocError> {
    for time in 0..times {
        match piece.split_once('#') {
            Some((front, back)) => write!(text, "{front}1{func}{time}{back}")?,
            None => text.push_str(piece)?,
        }
    }
    Ok(())
}

#[test]
fn accepts_what_fits(rt: HostRuntime) -> Result<(), Fail> {
    let alloc = rt.alloc();
    for row in BODIES.trim().lines() {
        let (functions, answers) = row.split_once(" ==> ").unwrap_or((row, ""));
        let (sized, read) = answers.split_once(" ==> ").unwrap_or((answers, answers));
        let source = module_of(alloc, functions)?;
        assert_eq!(rt;
            told(alloc, source.as_str(), true)?.as_str(),
            sized,
            "{row}"
        );
        assert_eq!(rt;
            told(alloc, source.as_str(), false)?.as_str(),
            read,
            "{row}"
        );
    }
    Ok(())
}
