//! Worked scripts, as facts about the definitions of both runs.

ghost use Rattle.erjang_top.specs.first_path.Worked.{Returns, NotLoaded, OtherArity, NotExported, NothingToDo, MovesRegisters, MovesInteger, MovesAtom, MovesNil, Refuses, OtherExported};

/// Does nothing: its contract is the lines that the definitions of both runs give for worked scripts over modules
/// and their classes.
pub fn worked_runs()
    ensures returns { Returns }
    ensures not_loaded { NotLoaded }
    ensures other_arity { OtherArity }
    ensures not_exported { NotExported }
    ensures nothing_to_do { NothingToDo }
    ensures moves_registers { MovesRegisters }
    ensures moves_integer { MovesInteger }
    ensures moves_atom { MovesAtom }
    ensures moves_nil { MovesNil }
    ensures refuses { Refuses }
    ensures other_exported { OtherExported }
{}
