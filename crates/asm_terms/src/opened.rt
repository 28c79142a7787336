//! What has begun and not yet ended while a term is read.

use ej_term::{AsmTerm, Text};
use sqlite_items::Items;

/// A construct that has begun, with what was read of it.
#[derive(Drop)]
pub(crate) enum Opened {
    /// `{` and parts.
    Tuple(Items<AsmTerm>),
    /// `[` and elements.
    List(Items<AsmTerm>),
    /// `[`, elements and a bar; its tail comes.
    Tail(Items<AsmTerm>),
    /// A list whose tail is a list, which is read as part of it.
    Joined,
    /// `#{` and pairs; a key comes.
    Key(Items<(AsmTerm, AsmTerm)>),
    /// `#{`, pairs and a key; its value comes.
    Value(Items<(AsmTerm, AsmTerm)>, AsmTerm),
}

/// What the tokens that were read end with.
#[derive(Drop)]
pub(crate) enum Last {
    /// Nothing yet, a comma or an arrow: a term comes.
    Mark,
    /// An opening bracket: a term or its closing bracket comes.
    Bracket,
    /// A bar: the tail of a list comes.
    Bar,
    /// A whole term.
    Term(AsmTerm),
    /// The beginning of `fun M:F/A`.
    Fun(Function),
}

/// How much of `fun M:F/A` was read.
#[derive(Drop)]
pub(crate) enum Function {
    /// `fun`
    Word,
    /// `fun M`
    Module(Text),
    /// `fun M:`
    Colon(Text),
    /// `fun M:F`
    Name(Text, Text),
    /// `fun M:F/`
    Slash(Text, Text),
}
