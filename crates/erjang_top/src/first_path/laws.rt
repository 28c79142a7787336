//! Laws of the definitions: functions that do nothing, with the laws as their contracts.

ghost use Rattle.erjang_top.specs.first_path.Bridge.{Bridges};
ghost use Rattle.erjang_top.specs.first_path.Built.{NoneUnbuilt, SomeUnbuilt, OneUnbuilt};
ghost use Rattle.erjang_top.specs.first_path.Ranges.{Ranges};

/// Of a module that is read from a text all names and numbers are in range.
pub fn read_modules_are_in_range()
    ensures in_range { Ranges }
{}

/// The module of a source that is accepted meets the smaller rules of the first path, if each of its instructions is one
/// that is compiled so far.
pub fn accepted_modules_are_compiled()
    ensures bridges { Bridges }
{}

/// A module has one first instruction that is not compiled so far, or each of its instructions is, and not both.
pub fn one_instruction_is_the_first_unbuilt()
    ensures none { NoneUnbuilt }
    ensures some { SomeUnbuilt }
    ensures one { OneUnbuilt }
{}
