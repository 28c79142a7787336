//! Reads frames (JVMS SE 7, 4.7.4).

ghost use Rattle.std.specs.Prelude.{◌≡◌, ◌≤◌, IfOk, codes, [], None, Some};
ghost use Rattle.std.specs.Option.{option_map};
ghost use Rattle.jvm_code.specs.StackMaps as maps;
ghost use Rattle.stack_maps.specs.Gave.{Decodes, Gave, Given};
ghost use Rattle.stack_maps.specs.Read as spec;

use crate::fault::MapFault;
use crate::frame::MapFrame;
use crate::source::Source;
use crate::types::{copies, counted, vtypes};
use ej_term::Text;
use jvm_code::{Constant, Frame, VType};
use sqlite_items::Items;
use std::alloc::{AllocError, Global};

/// A delta, and the frame there with the same locals and no stack.
fn same(alloc: Global, locals: &[VType], delta: u16) -> Result<(u16, Frame), AllocError>
    ensures { IfOk result (λ p. Some (p, []) ≡ spec.same locals.now delta []) }
{
    let frame = Frame {
        locals: copies(alloc, locals)?,
        stack: Items::new(alloc),
    };
    Ok((delta, frame))
}

/// The same with one type on the stack, which is read.
fn one(
    alloc: Global,
    pool: &[Constant],
    locals: &[VType],
    delta: u16,
    source: &mut Source<'_>,
) -> Result<(u16, Frame), MapFault>
    ensures { Gave (λ p. p) (spec.one pool.now locals.now delta source.old) result source.new }
{
    let stack = vtypes(alloc, pool, 1, source)?;
    let frame = Frame {
        locals: copies(alloc, locals)?,
        stack,
    };
    Ok((delta, frame))
}

/// The same without so many of the last locals.
fn chop(
    alloc: Global,
    locals: &[VType],
    count: u8,
    delta: u16,
    source: &mut Source<'_>,
) -> Result<(u16, Frame), MapFault>
    ensures { Gave (λ p. p) (spec.chop locals.now count delta source.old) result source.new }
{
    let Some(left) = locals.len().checked_sub(count as usize) else {
        return Err(MapFault::BadMap);
    };
    let frame = Frame {
        locals: copies(alloc, &locals[..left])?,
        stack: Items::new(alloc),
    };
    Ok((delta, frame))
}

/// The same with so many locals more, which are read.
fn append(
    alloc: Global,
    pool: &[Constant],
    locals: &[VType],
    count: u8,
    delta: u16,
    source: &mut Source<'_>,
) -> Result<(u16, Frame), MapFault>
    ensures { Gave (λ p. p) (spec.append pool.now locals.now count delta source.old) result source.new }
{
    let more = vtypes(alloc, pool, count as u16, source)?;
    let mut locals = copies(alloc, locals)?;
    locals.append(more)?;
    let frame = Frame {
        locals,
        stack: Items::new(alloc),
    };
    Ok((delta, frame))
}

/// A frame that is read whole.
fn full(
    alloc: Global,
    pool: &[Constant],
    delta: u16,
    source: &mut Source<'_>,
) -> Result<(u16, Frame), MapFault>
    ensures { Gave (λ p. p) (spec.full pool.now delta source.old) result source.new }
{
    let locals = counted(alloc, pool, source)?;
    let stack = counted(alloc, pool, source)?;
    Ok((delta, Frame { locals, stack }))
}

/// What stands behind a tag from 247 on and its delta.
fn wide(
    alloc: Global,
    pool: &[Constant],
    locals: &[VType],
    tag: u8,
    delta: u16,
    source: &mut Source<'_>,
) -> Result<(u16, Frame), MapFault>
    requires { 247 ≤ tag }
    ensures { Gave (λ p. p) (spec.wide pool.now locals.now tag delta source.old) result source.new }
{
    match tag {
        247 => one(alloc, pool, locals, delta, source),
        248..=250 => chop(alloc, locals, 251 - tag, delta, source),
        251 => Ok(same(alloc, locals, delta)?),
        252..=254 => append(alloc, pool, locals, tag - 251, delta, source),
        _ => full(alloc, pool, delta, source),
    }
}

/// What stands behind a tag: a delta, and the frame there.
fn form(
    alloc: Global,
    pool: &[Constant],
    locals: &[VType],
    tag: u8,
    source: &mut Source<'_>,
) -> Result<(u16, Frame), MapFault>
    ensures { Gave (λ p. p) (spec.form pool.now locals.now tag source.old) result source.new }
{
    match tag {
        0..=63 => Ok(same(alloc, locals, tag as u16)?),
        64..=127 => one(alloc, pool, locals, (tag - 64) as u16, source),
        128..=246 => Err(MapFault::BadMap),
        _ => {
            let delta = source.u2()?;
            wide(alloc, pool, locals, tag, delta, source)
        }
    }
}

/// A tag, and what stands behind it.
fn shape(
    alloc: Global,
    pool: &[Constant],
    locals: &[VType],
    source: &mut Source<'_>,
) -> Result<(u16, Frame), MapFault>
    ensures { Gave (λ p. p) (spec.shape pool.now locals.now source.old) result source.new }
{
    let tag = source.u1()?;
    form(alloc, pool, locals, tag, source)
}

/// The offset of a frame with that delta behind another, if there is one.
fn offset_after(before: Option<&MapFrame>, delta: u16) -> u32
    ensures { result ≡ maps.offset_after (option_map (λ frame. spec.seen frame.now) before.entry) delta }
{
    match before {
        Some(frame) => frame.offset as u32 + delta as u32 + 1,
        None => delta as u32,
    }
}

/// The frame at its offset, which has 16 bits.
fn placed(before: Option<&MapFrame>, delta: u16, frame: Frame) -> Result<MapFrame, MapFault>
    ensures { Given (spec.at_offset (maps.offset_after (option_map (λ frame. spec.seen frame.now) before.entry) delta) frame) result }
{
    let offset = offset_after(before, delta);
    if offset > 65535 {
        return Err(MapFault::BadMap);
    }
    Ok(MapFrame {
        offset: offset as u16,
        frame,
    })
}

/// The locals of a frame, or of what stands before the first one.
fn locals_before<'a>(before: Option<&'a MapFrame>, first: &'a Frame) -> &'a [VType]
    requires { first.now ≡ maps.first }
    ensures { result.now ≡ spec.locals_before (option_map (λ frame. frame.now) before.entry) }
{
    match before {
        Some(frame) => frame.frame.locals.as_slice(),
        None => first.locals.as_slice(),
    }
}

/// A frame behind another, if there is one.
fn map_frame(
    alloc: Global,
    pool: &[Constant],
    before: Option<&MapFrame>,
    first: &Frame,
    source: &mut Source<'_>,
) -> Result<MapFrame, MapFault>
    requires { first.now ≡ maps.first }
    ensures { Gave (λ f. f) (spec.map_frame pool.now (option_map (λ frame. frame.now) before.entry) source.old) result source.new }
{
    let locals = locals_before(before, first);
    let (delta, frame) = shape(alloc, pool, locals, source)?;
    placed(before, delta, frame)
}

/// What stands before the first frame of each method.
#[tactic(auto, using(crate::proofs::TextsFound::process))]
fn first(alloc: Global) -> Result<Frame, AllocError>
    ensures { IfOk result (λ frame. frame ≡ maps.first) }
{
    let mut locals = Items::new(alloc);
    locals.push(VType::Class(Text::make(alloc, "erl/Proc")?))?;
    locals.push(VType::Integer)?;
    Ok(Frame {
        locals,
        stack: Items::new(alloc),
    })
}

/// So many frames.
#[tactic(auto, using(crate::proofs::FramesRead::at_end, crate::proofs::FramesRead::step_on, crate::proofs::FramesRead::stops))]
fn map_frames(
    alloc: Global,
    pool: &[Constant],
    count: u16,
    source: &mut Source<'_>,
) -> Result<Items<MapFrame>, MapFault>
    ensures { Gave (λ fs. fs) (spec.map_frames pool.now count None source.old) result source.new }
{
    let first = first(alloc)?;
    let mut frames: Items<MapFrame> = Items::new(alloc);
    let mut left = count;
    while left > 0 {
        left -= 1;
        match map_frame(alloc, pool, frames.as_slice().last(), &first, source) {
            Ok(next) => {
                frames.push(next)?;
            }
            Err(fault) => return Err(fault),
        }
    }
    Ok(frames)
}

/// All of the bytes.
fn all(alloc: Global, bytes: &[u8], pool: &[Constant]) -> Result<Items<MapFrame>, MapFault>
    ensures { Given (spec.frames pool.now bytes.now) result }
{
    let mut source = Source::new(bytes);
    let count = source.u2()?;
    let frames = map_frames(alloc, pool, count, &mut source)?;
    if source.left() > 0 {
        return Err(MapFault::BadMap);
    }
    Ok(frames)
}

/// The frames of the content of a `StackMapTable`, in the order of their offsets. The parameters of each method are a
/// process and an int. Answers `BadMap` exactly where no list of frames has the bytes.
#[tactic(auto, using(crate::proofs::FramesLaw::decodes))]
pub fn decode(alloc: Global, bytes: &[u8], pool: &[Constant]) -> Result<Items<MapFrame>, MapFault>
    ensures { Decodes pool.now bytes.now result }
{
    all(alloc, bytes, pool)
}
