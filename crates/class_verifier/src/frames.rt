//! The frames of a method, each at its place.

ghost use Rattle.std.specs.Prelude.{◌≡◌, ℕ, nat_eq, nat_le, ◌&&◌, length, map, IfOk};
ghost use Rattle.std.specs.List.{list_all};
ghost use Rattle.indexmap.specs.IndexSet.{contains};
ghost use Rattle.stack_maps.specs.Read.{seen};
ghost use Rattle.stack_maps.specs.declared.frame.MapFrame.{MapFrame as FrameSeen};
ghost use Rattle.class_verifier.specs.Framed.{Framed, Lists};
ghost use Rattle.jvm_code.specs.Typing.{places, places_of};
ghost use Rattle.jvm_code.specs.Verification as spec;

use indexmap::IndexSet;
use jvm_code::{Class, Constant, Frame, Method, Op, VType};
use sqlite_items::Items;
use stack_maps::{MapFault, MapFrame, decode};
use std::alloc::{AllocError, Global};

/// The frames of the method of that class, in the order of their offsets. Answers `BadMap` exactly where its
/// `StackMapTable` is no list of frames, or one of them stands where no instruction begins or has more places than the
/// method.
pub(crate) fn frames(
    alloc: Global,
    class: &Class,
    method: &Method,
) -> Result<Items<MapFrame>, MapFault>
    ensures { Framed class.now method.now result }
{
    let frames = listed(alloc, class.pool.as_slice(), &method.maps)?;
    if are_placed(alloc, method, frames.as_slice())? {
        return Ok(frames);
    }
    Err(MapFault::BadMap)
}

// The frames of a `StackMapTable`, wherever they stand.
fn listed(
    alloc: Global,
    pool: &[Constant],
    maps: &Option<(u16, Items<u8>)>,
) -> Result<Items<MapFrame>, MapFault>
    ensures { Lists pool.now maps.now result }
{
    match maps {
        None => Ok(Items::new(alloc)),
        Some((_, bytes)) => decode(alloc, bytes.as_slice(), pool),
    }
}

// The offsets at which an instruction begins.
#[tactic(auto, using(crate::proofs::Starts::gathered_none, crate::proofs::Starts::gathered_more, crate::proofs::Starts::gathered_all))]
fn starts_of(alloc: Global, code: &[(u16, Op)]) -> Result<IndexSet<u16>, AllocError>
    ensures { IfOk result (λ starts. (n : ℕ) → contains nat_eq starts n ≡ spec.is_start code.now n) }
{
    let mut starts: IndexSet<u16> = IndexSet::new(alloc);
    for (offset, _) in code {
        starts.insert(*offset)?;
    }
    Ok(starts)
}

// Whether each frame stands where an instruction begins, and has room. The error says that memory was wanting.
fn are_placed(alloc: Global, method: &Method, frames: &[MapFrame]) -> Result<bool, AllocError>
    ensures { IfOk result (λ placed. placed ≡ spec.are_placed method.now (map seen frames.now)) }
{
    let starts = starts_of(alloc, method.code.as_slice())?;
    Ok(all_pass(method, &starts, frames))
}

fn all_pass(method: &Method, starts: &IndexSet<u16>, frames: &[MapFrame]) -> bool
    ensures { result ≡ list_all (λ (f : FrameSeen). contains nat_eq starts.now f.offset && spec.has_room method.now f.frame) frames.now }
{
    frames.iter().all(|frame| is_placed(method, starts, frame))
}

fn is_placed(method: &Method, starts: &IndexSet<u16>, frame: &MapFrame) -> bool
    ensures { result ≡ (contains nat_eq starts.now frame.now.offset && spec.has_room method.now frame.now.frame) }
{
    starts.contains(&frame.offset) && has_room(method, &frame.frame)
}

fn has_room(method: &Method, frame: &Frame) -> bool
    ensures { result ≡ spec.has_room method.now frame.now }
{
    has_places(frame.locals.as_slice(), method.max_locals)
        && has_places(frame.stack.as_slice(), method.max_stack)
}

// Whether the types take no more than so many places.
#[tactic(auto, using(crate::proofs::Room::room_stop, crate::proofs::Room::room_more))]
fn has_places(types: &[VType], most: u16) -> bool
    ensures { result ≡ nat_le (length (places types.now)) most }
{
    let mut left = most;
    for vtype in types {
        let count = place_count(vtype);
        if left < count {
            return false;
        }
        left -= count;
    }
    true
}

fn place_count(vtype: &VType) -> u16
    ensures { result ≡ length (places_of vtype.now) }
{
    match vtype {
        VType::Long => 2,
        _ => 1,
    }
}
