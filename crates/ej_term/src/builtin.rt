//! The builtin functions by name.

ghost use Rattle.std.specs.Prelude.{◌≡◌, slice_get};
ghost use Rattle.ej_term.specs.BuiltinNumbers.{builtins, builtin_numbered};
ghost use Rattle.ej_term.specs.Builtins.{rule, is_of};

/// A builtin function (the OTP modules erlang, lists and maps).
#[derive(Clone, Copy, Debug, PartialEq, Eq)]
pub enum Builtin {
    /// `erlang:'+'/2`
    Add,
    /// `erlang:'-'/2`
    Subtract,
    /// `erlang:'*'/2`
    Multiply,
    /// `erlang:'div'/2`
    Div,
    /// `erlang:'rem'/2`
    Rem,
    /// `erlang:'band'/2`
    Band,
    /// `erlang:'bor'/2`
    Bor,
    /// `erlang:'bxor'/2`
    Bxor,
    /// `erlang:'bsl'/2`
    Bsl,
    /// `erlang:'bsr'/2`
    Bsr,
    /// `erlang:'-'/1`
    Negate,
    /// `erlang:'+'/1`
    Plus,
    /// `erlang:'bnot'/1`
    Bnot,
    /// `erlang:abs/1`
    Abs,
    /// `erlang:'=='/2`
    Equal,
    /// `erlang:'/='/2`
    NotEqual,
    /// `erlang:'=<'/2`
    AtMost,
    /// `erlang:'<'/2`
    Less,
    /// `erlang:'>='/2`
    AtLeast,
    /// `erlang:'>'/2`
    Greater,
    /// `erlang:'=:='/2`
    ExactlyEqual,
    /// `erlang:'=/='/2`
    NotExactlyEqual,
    /// `erlang:'not'/1`
    Not,
    /// `erlang:'and'/2`
    And,
    /// `erlang:'or'/2`
    Or,
    /// `erlang:'xor'/2`
    Xor,
    /// `erlang:hd/1`
    Hd,
    /// `erlang:tl/1`
    Tl,
    /// `erlang:length/1`
    Length,
    /// `erlang:tuple_size/1`
    TupleSize,
    /// `erlang:element/2`
    Element,
    /// `erlang:map_size/1`
    MapSize,
    /// `erlang:map_get/2`
    MapGet,
    /// `erlang:is_map_key/2`
    IsMapKey,
    /// `erlang:self/0`
    SelfPid,
    /// `erlang:is_atom/1`
    IsAtom,
    /// `erlang:is_integer/1`
    IsInteger,
    /// `erlang:is_number/1`
    IsNumber,
    /// `erlang:is_list/1`
    IsList,
    /// `erlang:is_tuple/1`
    IsTuple,
    /// `erlang:is_pid/1`
    IsPid,
    /// `erlang:is_reference/1`
    IsReference,
    /// `erlang:is_function/1`
    IsFunction,
    /// `erlang:is_map/1`
    IsMap,
    /// `erlang:is_boolean/1`
    IsBoolean,
    /// `erlang:is_float/1`
    IsFloat,
    /// `erlang:is_binary/1`
    IsBinary,
    /// `erlang:is_function/2`
    IsFunctionOfArity,
    /// `erlang:max/2`
    Max,
    /// `erlang:min/2`
    Min,
    /// `erlang:'++'/2`
    Append,
    /// `erlang:'--'/2`
    SubtractList,
    /// `erlang:setelement/3`
    SetElement,
    /// `erlang:tuple_to_list/1`
    TupleToList,
    /// `erlang:list_to_tuple/1`
    ListToTuple,
    /// `erlang:make_tuple/2`
    MakeTuple,
    /// `lists:reverse/2`
    ListsReverse,
    /// `lists:member/2`
    ListsMember,
    /// `lists:keyfind/3`
    ListsKeyfind,
    /// `maps:get/2`
    MapsGet,
    /// `maps:find/2`
    MapsFind,
    /// `maps:put/3`
    MapsPut,
    /// `maps:update/3`
    MapsUpdate,
    /// `maps:remove/2`
    MapsRemove,
    /// `maps:is_key/2`
    MapsIsKey,
    /// `maps:keys/1`
    MapsKeys,
    /// `maps:values/1`
    MapsValues,
    /// `maps:to_list/1`
    MapsToList,
    /// `maps:from_list/1`
    MapsFromList,
    /// `maps:merge/2`
    MapsMerge,
    /// `erlang:atom_to_list/1`
    AtomToList,
    /// `erlang:integer_to_list/1`
    IntegerToList,
    /// `erlang:list_to_integer/1`
    ListToInteger,
    /// `erlang:error/1`
    Error,
    /// `erlang:error/2`
    ErrorWithArguments,
    /// `erlang:exit/1`
    Exit,
    /// `erlang:throw/1`
    Throw,
    /// `erlang:raise/3`
    Raise,
    /// `erlang:'!'/2`
    SendOperator,
    /// `erlang:send/2`
    Send,
    /// `erlang:spawn/1`
    SpawnFun,
    /// `erlang:spawn/3`
    Spawn,
    /// `erlang:spawn_link/1`
    SpawnLinkFun,
    /// `erlang:spawn_link/3`
    SpawnLink,
    /// `erlang:link/1`
    Link,
    /// `erlang:unlink/1`
    Unlink,
    /// `erlang:exit/2`
    ExitSignal,
    /// `erlang:process_flag/2`
    ProcessFlag,
    /// `erlang:display/1`
    Display,
    /// `erlang:make_ref/0`
    MakeRef,
}

/// All of them, in the order of their numbers, which begin with 1.
static BUILTINS: [Builtin; 90] = [
    Builtin::Add,
    Builtin::Subtract,
    Builtin::Multiply,
    Builtin::Div,
    Builtin::Rem,
    Builtin::Band,
    Builtin::Bor,
    Builtin::Bxor,
    Builtin::Bsl,
    Builtin::Bsr,
    Builtin::Negate,
    Builtin::Plus,
    Builtin::Bnot,
    Builtin::Abs,
    Builtin::Equal,
    Builtin::NotEqual,
    Builtin::AtMost,
    Builtin::Less,
    Builtin::AtLeast,
    Builtin::Greater,
    Builtin::ExactlyEqual,
    Builtin::NotExactlyEqual,
    Builtin::Not,
    Builtin::And,
    Builtin::Or,
    Builtin::Xor,
    Builtin::Hd,
    Builtin::Tl,
    Builtin::Length,
    Builtin::TupleSize,
    Builtin::Element,
    Builtin::MapSize,
    Builtin::MapGet,
    Builtin::IsMapKey,
    Builtin::SelfPid,
    Builtin::IsAtom,
    Builtin::IsInteger,
    Builtin::IsNumber,
    Builtin::IsList,
    Builtin::IsTuple,
    Builtin::IsPid,
    Builtin::IsReference,
    Builtin::IsFunction,
    Builtin::IsMap,
    Builtin::IsBoolean,
    Builtin::IsFloat,
    Builtin::IsBinary,
    Builtin::IsFunctionOfArity,
    Builtin::Max,
    Builtin::Min,
    Builtin::Append,
    Builtin::SubtractList,
    Builtin::SetElement,
    Builtin::TupleToList,
    Builtin::ListToTuple,
    Builtin::MakeTuple,
    Builtin::ListsReverse,
    Builtin::ListsMember,
    Builtin::ListsKeyfind,
    Builtin::MapsGet,
    Builtin::MapsFind,
    Builtin::MapsPut,
    Builtin::MapsUpdate,
    Builtin::MapsRemove,
    Builtin::MapsIsKey,
    Builtin::MapsKeys,
    Builtin::MapsValues,
    Builtin::MapsToList,
    Builtin::MapsFromList,
    Builtin::MapsMerge,
    Builtin::AtomToList,
    Builtin::IntegerToList,
    Builtin::ListToInteger,
    Builtin::Error,
    Builtin::ErrorWithArguments,
    Builtin::Exit,
    Builtin::Throw,
    Builtin::Raise,
    Builtin::SendOperator,
    Builtin::Send,
    Builtin::SpawnFun,
    Builtin::Spawn,
    Builtin::SpawnLinkFun,
    Builtin::SpawnLink,
    Builtin::Link,
    Builtin::Unlink,
    Builtin::ExitSignal,
    Builtin::ProcessFlag,
    Builtin::Display,
    Builtin::MakeRef,
];

fn all() -> &'static [Builtin; 90]
    ensures { result.now ≡ builtins }
{
    &BUILTINS
}

/// The builtin function at this place, from 0.
#[tactic(auto, using(std::proofs::lemmas::Option::slice_get_read))]
fn at(place: usize) -> Option<Builtin>
    ensures { result ≡ slice_get builtins place }
{
    if place < all().len() {
        Some(all()[place])
    } else {
        None
    }
}

impl Builtin {
    /// The builtin function of this number, from 1 to 90.
    pub fn numbered(number: u16) -> Option<Builtin>
        ensures { result ≡ builtin_numbered number }
    {
        let place = usize::from(number).checked_sub(1)?;
        at(place)
    }

    /// Whether it has no effect, and takes so many arguments.
    pub fn takes(self, count: usize) -> bool
        ensures { result ≡ is_of (rule self) count }
    {
        match self {
            Builtin::Add
            | Builtin::Subtract
            | Builtin::Multiply
            | Builtin::Div
            | Builtin::Rem
            | Builtin::Band
            | Builtin::Bor
            | Builtin::Bxor
            | Builtin::Bsl
            | Builtin::Bsr => count == 2,
            Builtin::Equal
            | Builtin::NotEqual
            | Builtin::AtMost
            | Builtin::Less
            | Builtin::AtLeast
            | Builtin::Greater
            | Builtin::ExactlyEqual
            | Builtin::NotExactlyEqual
            | Builtin::And
            | Builtin::Or
            | Builtin::Xor => count == 2,
            Builtin::Element
            | Builtin::MapGet
            | Builtin::IsMapKey
            | Builtin::IsFunctionOfArity
            | Builtin::Max
            | Builtin::Min
            | Builtin::Append
            | Builtin::SubtractList
            | Builtin::MakeTuple
            | Builtin::ListsReverse
            | Builtin::ListsMember
            | Builtin::MapsGet
            | Builtin::MapsFind
            | Builtin::MapsRemove
            | Builtin::MapsIsKey
            | Builtin::MapsMerge
            | Builtin::ErrorWithArguments => count == 2,
            Builtin::SetElement
            | Builtin::ListsKeyfind
            | Builtin::MapsPut
            | Builtin::MapsUpdate
            | Builtin::Raise => count == 3,
            Builtin::SelfPid
            | Builtin::SendOperator
            | Builtin::Send
            | Builtin::SpawnFun
            | Builtin::Spawn
            | Builtin::SpawnLinkFun
            | Builtin::SpawnLink
            | Builtin::Link
            | Builtin::Unlink
            | Builtin::ExitSignal
            | Builtin::ProcessFlag
            | Builtin::Display
            | Builtin::MakeRef => false,
            _ => count == 1,
        }
    }
}
