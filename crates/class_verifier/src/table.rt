//! The frames of a method by their offsets.

ghost use Rattle.std.specs.Prelude.{◌≡◌, ℤ, map, IfOk};
ghost use Rattle.std.specs.Ordering.{int_eq};
ghost use Rattle.std.specs.Option.{option_map};
ghost use Rattle.indexmap.specs.IndexMap.{get};
ghost use Rattle.stack_maps.specs.Read.{seen};
ghost use Rattle.class_verifier.specs.Targets.{frame_to};

use indexmap::IndexMap;
use jvm_code::Frame;
use stack_maps::MapFrame;
use std::alloc::{AllocError, Global};
use std::marker::Model;

/// Frames, each looked up by its offset. Contracts see the list of them.
#[derive(Drop)]
pub(crate) struct FrameTable<'a> {
    frames: &'a [MapFrame],
    by_offset: IndexMap<i64, &'a Frame>,
}

impl<'a> Model for FrameTable<'a> {
    ghost use Rattle.std.specs.Prelude.{◌≡◌, ℕ, ℤ, List, map};
    ghost use Rattle.std.specs.Ordering.{int_eq};
    ghost use Rattle.std.specs.Option.{option_map};
    ghost use Rattle.indexmap.specs.IndexMap.{get};
    ghost use Rattle.jvm_code.specs.declared.types.Frame.{Frame as FrameSeen};
    ghost use Rattle.stack_maps.specs.Read.{seen};
    ghost use Rattle.class_verifier.specs.Targets.{frame_to};

    ghost Value = { List (ℕ × FrameSeen) };

    ghost view = { λ table. map seen table.frames.now };

    ghost invariant = { λ table. (n : ℤ) → option_map (λ f. f.now) (get int_eq table.by_offset n) ≡ frame_to (map seen table.frames.now) n };
}

impl<'a> FrameTable<'a> {
    /// The frames by their offsets. The error says that memory was wanting.
    pub(crate) fn new(alloc: Global, frames: &'a [MapFrame]) -> Result<FrameTable<'a>, AllocError>
        ensures { IfOk result (λ table. table ≡ map seen frames.now) }
    {
        let by_offset = by_offset(alloc, frames)?;
        Ok(FrameTable { frames, by_offset })
    }

    /// The frame at an offset, which may be one of no code. None where there is none.
    pub(crate) fn at(&self, offset: i64) -> Option<&'a Frame>
        ensures { option_map (λ f. f.now) result ≡ frame_to self.now offset }
    {
        match self.by_offset.get(&offset) {
            Some(frame) => Some(*frame),
            None => None,
        }
    }
}

// The first frame of each offset.
fn by_offset<'a>(
    alloc: Global,
    frames: &'a [MapFrame],
) -> Result<IndexMap<i64, &'a Frame>, AllocError>
    ensures { IfOk result (λ table. (n : ℤ) → option_map (λ f. f.now) (get int_eq table n) ≡ frame_to (map seen frames.now) n) }
{
    let mut table: IndexMap<i64, &'a Frame> = IndexMap::new(alloc);
    for frame in frames {
        let offset = i64::from(frame.offset);
        if !table.contains_key(&offset) {
            table.insert(offset, &frame.frame)?;
        }
    }
    Ok(table)
}
