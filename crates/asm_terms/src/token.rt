//! The tokens of a text.

use ej_term::Text;
use sqlite_items::Items;

/// A token. Space and comments stand between tokens and are none.
#[derive(Drop)]
pub enum Token {
    /// An integer of 64 bits.
    Int(i64),
    /// An atom, but for the word `fun` without quotes.
    Atom(Text),
    /// A string, by its characters; adjacent strings are one.
    Str(Items<u32>),
    /// A float, a binary, or an integer of more than 64 bits, as it is spelled.
    Opaque(Text),
    /// `#Pid<N.K>`
    Pid(u32, u64),
    /// `#Ref<N.K>`
    Ref(u32, u64),
    /// `fun`
    Fun,
    /// `{`
    OpenTuple,
    /// `}`
    CloseTuple,
    /// `[`
    OpenList,
    /// `]`
    CloseList,
    /// `#{`
    OpenMap,
    /// `,`
    Comma,
    /// `|`
    Bar,
    /// `=>`
    Arrow,
    /// `:`
    Colon,
    /// `/`
    Slash,
    /// `.` that is no full stop
    Dot,
}
