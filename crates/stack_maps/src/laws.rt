//! A law of stack maps.

ghost use Rattle.std.specs.Prelude.{◌≡◌, ℕ, List};
ghost use Rattle.jvm_code.specs.declared.class.Constant.{Constant as ConstantSeen};
ghost use Rattle.jvm_code.specs.declared.types.Frame.{Frame as FrameSeen};
ghost use Rattle.jvm_code.specs.StackMaps.{AreFrames};

/// Over one constant pool, bytes have at most one list of frames.
pub fn bytes_have_one_list_of_frames()
    ensures { (pool : List ConstantSeen) (bytes : List ℕ) (one other : List (ℕ × FrameSeen)) → AreFrames pool bytes one → AreFrames pool bytes other → one ≡ other }
{}
