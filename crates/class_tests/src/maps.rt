//! Stack maps: each form of frame at the ends of its tags, each verification type, and bytes that are no frames
//! (JVMS SE 7, 4.7.4).

ghost use Rattle.std.specs.Prelude.{◌<◌, ◌^◌, length, [], None, IfOk};
ghost use Rattle.stack_maps.specs.Full.{FitEach};

use crate::rows::bytes_of;
use ej_term::Text;
use jvm_code::{Constant, Frame, VType};
use sqlite_items::Items;
use stack_maps::{MapFault, MapFrame, decode, encode};
use std::alloc::{AllocError, Global};
use std::test::Fail;

/// The bytes of texts, from index 1 on. Behind each stands the class that it names.
const NAMES: &str =
    "612f42 c3a9 eda0bdedb880 eda080 c080 c3 00 f09f9880 edb080 c181 656c c3a9c3 e08080";

/// Bytes, and each frame: its offset, `:`, the locals, `/`, the stack. A type is its first letter, or the name of its class
/// in `<>`, but P for `erl/Proc`.
const FRAMES: &str = "\
0000
000100 0:PI/
00013f 63:PI/
00014001 0:PI/I
00017f00 63:PI/T
00014004 0:PI/L
00014005 0:PI/N
000140070002 0:PI/<a/B>
000140070004 0:PI/<é>
000140070006 0:PI/<😀>
00014007000a 0:PI/<\u{0}>
000140070016 0:PI/<el>
0001f7000005 0:PI/N
0001f7ffff01 65535:PI/I
0001fa0005 5:P/
0001f90005 5:/
0002fc000004f80000 0:PIL/ 1:/
0001fb0000 0:PI/
0001fbffff 65535:PI/
0001fc000004 0:PIL/
0001fd00090405 9:PILN/
0001feffff000105 65535:PITIN/
0001ff000000000000 0:/
0001ff00020003010405000201070002 2:ILN/I<a/B>
00020000 0:PI/ 1:PI/
00020500 5:PI/ 6:PI/
0002050c 5:PI/ 18:PI/
0002400100 0:PI/I 1:PI/
0002fc00000400 0:PIL/ 1:PIL/
0002ff000000010500010001 0:N/T 2:N/
0003fc000001fc000004fa0000 0:PII/ 1:PIIL/ 2:PII/
0002fbfffe00 65534:PI/ 65535:PI/
0002fb8000fb7ffe 32768:PI/ 65535:PI/";

/// Bytes that are no frames: a type that there is not, a tag that is none, more locals taken away than there are, an offset
/// above 65,535, an object's index that is of no class or of a name that is no Unicode text, a byte too many.
const NO_FRAMES: &str = "\
00014002
00014003
00014006
00014008
000140ff
000180
0001f6
000180000001
0001f6000001
0001f80000
0002fa0000f90000
0002f90000fa0000
0002fbffff00
0002fb8000fb7fff
0002ffffff0000000000
000140070000
000140070001
000140070008
00014007000c
00014007000e
000140070010
000140070012
000140070014
000140070018
00014007001a
00014007001b
00014007ffff
0001400700
000000
00010000
000100ff
000200
0001ff0000000100
ffff
00";

/// A table of each form, of which no part from the front is one.
const SMALL: &str = "0007057f01f70004070002fa0000fb0000fe0000000405ff000000020501000100";

fn pool(alloc: Global) -> Result<Items<Constant>, Fail> {
    let mut pool = Items::new(alloc);
    pool.push(Constant::Gap)?;
    let mut index: u16 = 1;
    for name in NAMES.split(' ') {
        let bytes = bytes_of(alloc, name)?;
        pool.push(Constant::Utf8(Items::from_slice(alloc, bytes.as_slice())?))?;
        pool.push(Constant::Class(index))?;
        index = index.wrapping_add(2);
    }
    pool.push(Constant::Class(0))?;
    Ok(pool)
}

fn push_types(out: &mut String, types: &[VType]) -> Result<(), AllocError> {
    for vtype in types {
        match vtype {
            VType::Top => out.push('T')?,
            VType::Integer => out.push('I')?,
            VType::Long => out.push('L')?,
            VType::Null => out.push('N')?,
            VType::Class(name) => push_class(out, name)?,
        }
    }
    Ok(())
}

fn push_class(out: &mut String, name: &Text) -> Result<(), AllocError> {
    if name.as_str() == "erl/Proc" {
        return out.push('P');
    }
    out.push('<')?;
    out.push_str(name.as_str())?;
    out.push('>')
}

fn shown(alloc: Global, frames: &[MapFrame]) -> Result<String, Fail> {
    let mut out = String::new(alloc);
    for frame in frames {
        write!(out, " {}:", frame.offset)?;
        push_types(&mut out, frame.frame.locals.as_slice())?;
        out.push('/')?;
        push_types(&mut out, frame.frame.stack.as_slice())?;
    }
    Ok(out)
}

#[test]
fn reads_frames(rt: HostRuntime) -> Result<(), Fail> {
    let alloc = rt.alloc();
    let pool = pool(alloc)?;
    for row in FRAMES.lines() {
        let (digits, expected) = row.split_once(' ').unwrap_or((row, ""));
        let frames = decode(alloc, bytes_of(alloc, digits)?.as_slice(), pool.as_slice())?;
        let shown = shown(alloc, frames.as_slice())?;
        assert_eq!(rt; shown.as_str().trim_start(), expected);
    }
    Ok(())
}

#[test]
fn refuses_what_is_no_frames(rt: HostRuntime) -> Result<(), Fail> {
    let alloc = rt.alloc();
    let pool = pool(alloc)?;
    for digits in NO_FRAMES.lines() {
        let bytes = bytes_of(alloc, digits)?;
        match decode(alloc, bytes.as_slice(), pool.as_slice()) {
            Ok(_) => assert_eq!(rt; digits, "is no frames"),
            Err(fault) => assert_eq!(rt; fault, MapFault::BadMap),
        }
    }
    Ok(())
}

#[test]
fn refuses_each_part(rt: HostRuntime) -> Result<(), Fail> {
    let alloc = rt.alloc();
    let pool = pool(alloc)?;
    let bytes = bytes_of(alloc, SMALL)?;
    let frames = decode(alloc, bytes.as_slice(), pool.as_slice())?;
    let shown = shown(alloc, frames.as_slice())?;
    assert_eq!(rt;
        shown.as_str(),
        " 5:PI/ 69:PI/I 74:PI/<a/B> 75:P/ 76:P/ 77:PTLN/ 78:NI/T"
    );
    for size in 0..bytes.len() {
        let part = &bytes.as_slice()[..size];
        assert!(rt; decode(alloc, part, pool.as_slice()).is_err());
    }
    Ok(())
}

fn two_frames(alloc: Global) -> Result<Items<MapFrame>, AllocError>
    ensures few { IfOk result (λ frames. length frames < 2 ^ 16) }
    ensures fit { IfOk result (λ frames. FitEach [] None frames) }
{
    let mut locals = Items::new(alloc);
    locals.push(VType::Long)?;
    locals.push(VType::Integer)?;
    let mut stack = Items::new(alloc);
    stack.push(VType::Null)?;
    let mut frames = Items::new(alloc);
    frames.push(MapFrame {
        offset: 3,
        frame: Frame { locals, stack },
    })?;
    frames.push(MapFrame {
        offset: 9,
        frame: Frame {
            locals: Items::new(alloc),
            stack: Items::new(alloc),
        },
    })?;
    Ok(frames)
}

#[test]
fn spells_full_frames(rt: HostRuntime) -> Result<(), Fail> {
    let alloc = rt.alloc();
    let frames = two_frames(alloc)?;
    let classes: [(Text, u16); 0] = [];
    let bytes = encode(alloc, frames.as_slice(), &classes)?;
    let expected = bytes_of(alloc, "0002ff000300020401000105ff000500000000")?;
    assert!(rt; bytes.as_slice() == expected.as_slice());
    let again = decode(alloc, bytes.as_slice(), &[])?;
    let shown = shown(alloc, again.as_slice())?;
    assert_eq!(rt; shown.as_str(), " 3:LI/N 9:/");
    Ok(())
}
