//! Spells frames, each as a `full_frame` (JVMS SE 7, 4.7.4).

ghost use Rattle.std.specs.Prelude.{◌≡◌, ◌++◌, ◌∷◌, ◌<◌, ◌^◌, List, length, map, None, Some, true, IfOk, OnOk};
ghost use Rattle.std.specs.List.{flat_map, AllByRecursion};
ghost use Rattle.std.specs.Option.{option_map};
ghost use Rattle.jvm_code.specs.declared.class.Constant.{Constant};
ghost use Rattle.jvm_code.specs.Spelling as spelling;
ghost use Rattle.jvm_code.specs.StackMaps as maps;
ghost use Rattle.stack_maps.specs.declared.frame.MapFrame.{MapFrame as MapFrameSeen};
ghost use Rattle.stack_maps.specs.Full as spec;
ghost use Rattle.stack_maps.specs.Read.{seen};

use crate::frame::MapFrame;
use ej_term::Text;
use jvm_code::VType;
use std::alloc::{AllocError, Global};

/// Appends a number of two bytes, the high one first.
fn push_u2(out: &mut Vec<u8>, number: u16) -> Result<(), AllocError>
    ensures { OnOk result (out.new.items ≡ out.old.items ++ spelling.u2 number) }
{
    out.push((number / 256) as u8)?;
    out.push((number % 256) as u8)?;
    Ok(())
}

/// The index of the first class of that name, and 0 where there is none.
fn index_of(classes: &[(Text, u16)], name: &Text) -> u16
    ensures { result ≡ spec.index_of classes.now name.now }
{
    for (class, index) in classes {
        if class == name {
            return *index;
        }
    }
    0
}

/// Appends a type.
fn push_type(out: &mut Vec<u8>, classes: &[(Text, u16)], vtype: &VType) -> Result<(), AllocError>
    ensures bytes { OnOk result (out.new.items ≡ out.old.items ++ maps.info_bytes (spec.info_of classes.now vtype.now)) }
    ensures fits { OnOk result (maps.IsInfo (spec.info_of classes.now vtype.now)) }
{
    match vtype {
        VType::Top => {
            out.push(0)?;
            Ok(())
        }
        VType::Integer => {
            out.push(1)?;
            Ok(())
        }
        VType::Long => {
            out.push(4)?;
            Ok(())
        }
        VType::Null => {
            out.push(5)?;
            Ok(())
        }
        VType::Class(name) => {
            out.push(7)?;
            push_u2(out, index_of(classes, name))
        }
    }
}

fn push_types(out: &mut Vec<u8>, classes: &[(Text, u16)], types: &[VType]) -> Result<(), AllocError>
    ensures bytes { OnOk result (out.new.items ≡ out.old.items ++ maps.infos_bytes (spec.infos_of classes.now types.now)) }
    ensures fits { OnOk result (AllByRecursion maps.IsInfo (spec.infos_of classes.now types.now)) }
{
    for vtype in types {
        push_type(out, classes, vtype)?;
    }
    Ok(())
}

/// Appends a count of types, and the types.
fn push_counted(
    out: &mut Vec<u8>,
    classes: &[(Text, u16)],
    types: &[VType],
) -> Result<(), AllocError>
    requires { length types.now < 2 ^ 16 }
    ensures bytes { OnOk result (out.new.items ≡ out.old.items ++ spec.counted_bytes classes.now types.now) }
    ensures fits { OnOk result (AllByRecursion maps.IsInfo (spec.infos_of classes.now types.now)) }
{
    push_u2(out, types.len() as u16)?;
    push_types(out, classes, types)
}

/// How far a frame is from the one before it, less the 1 that is not written.
fn delta_behind(before: Option<&MapFrame>, offset: u16) -> u16
    ensures { result ≡ spec.delta_behind (option_map (λ frame. frame.now) before.entry) offset }
{
    match before {
        Some(frame) => offset.saturating_sub(frame.offset).saturating_sub(1),
        None => offset,
    }
}

/// Appends a frame behind another, if there is one.
fn push_frame(
    out: &mut Vec<u8>,
    classes: &[(Text, u16)],
    before: Option<&MapFrame>,
    frame: &MapFrame,
) -> Result<(), AllocError>
    requires locals { length frame.now.frame.locals < 2 ^ 16 }
    requires stack { length frame.now.frame.stack < 2 ^ 16 }
    ensures bytes { OnOk result (out.new.items ≡ out.old.items ++ maps.form_bytes (spec.full_form classes.now (option_map (λ frame. frame.now) before.entry) frame.now)) }
    ensures fits { OnOk result (maps.IsForm (spec.full_form classes.now (option_map (λ frame. frame.now) before.entry) frame.now)) }
    ensures within { OnOk result (spec.IsWithin frame.now) }
{
    out.push(255)?;
    push_u2(out, delta_behind(before, frame.offset))?;
    push_counted(out, classes, frame.frame.locals.as_slice())?;
    push_counted(out, classes, frame.frame.stack.as_slice())
}

/// Appends frames.
fn push_frames(
    out: &mut Vec<u8>,
    classes: &[(Text, u16)],
    frames: &[MapFrame],
) -> Result<(), AllocError>
    requires { spec.FitEach classes.now None frames.now }
    ensures bytes { OnOk result (out.new.items ≡ out.old.items ++ flat_map maps.form_bytes (spec.full_forms classes.now None frames.now)) }
    ensures fits { OnOk result (AllByRecursion maps.IsForm (spec.full_forms classes.now None frames.now)) }
    ensures within { OnOk result (AllByRecursion spec.IsWithin frames.now) }
{
    let mut before = None;
    for frame in frames {
        push_frame(out, classes, before, frame)?;
        before = Some(frame);
    }
    Ok(())
}

/// Bytes that have these frames over each pool in which each index of `classes` is that of a Class of the name beside it:
/// each frame as a `full_frame`. Each class that a frame names is in `classes`, offsets rise, there are at most 65,535
/// frames, and each has at most 65,535 locals and 65,535 operands. The error says that memory was wanting.
pub fn encode(
    alloc: Global,
    frames: &[MapFrame],
    classes: &[(Text, u16)],
) -> Result<Vec<u8>, AllocError>
    requires few { length frames.now < 2 ^ 16 }
    requires fit { spec.FitEach classes.now None frames.now }
    ensures are { IfOk result (λ bytes. (pool : List Constant) → spec.Holds pool classes.now → maps.AreFrames pool bytes.items (map seen frames.now)) }
    ensures alone { IfOk result (λ bytes. (pool : List Constant) → spec.Holds pool classes.now → (others : List MapFrameSeen) → maps.AreFrames pool bytes.items (map seen others) → others ≡ frames.now) }
{
    let mut out = Vec::new(alloc);
    push_u2(&mut out, frames.len() as u16)?;
    push_frames(&mut out, classes, frames)?;
    Ok(out)
}
