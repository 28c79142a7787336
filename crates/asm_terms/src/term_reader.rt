//! A term read token by token.

ghost use Rattle.std.specs.Prelude.{◌≡◌, [], ◌∷◌, ◌++◌, Some, IfOk};
ghost use Rattle.ej_term.specs.declared.asm_term.AsmTerm.{out-AsmTerm};
ghost use Rattle.asm_terms.specs.Grammar.{characters_as_terms};
ghost use Rattle.asm_terms.specs.TermReader as read;

use crate::opened::{Function, Last, Opened};
use crate::stack::Stack;
use crate::token::Token;
use ej_term::AsmTerm;
use sqlite_items::{Boxed, Items};
use std::alloc::{AllocError, Global};

/// What the tokens read so far have left open, and what they end with.
#[derive(Drop)]
pub(crate) struct TermReader {
    stack: Stack<Opened>,
    last: Last,
}

/// The reader behind one more token; none where no term goes on so.
type Step = Result<Option<TermReader>, AllocError>;

impl TermReader {
    /// Before the first token.
    pub(crate) fn new(alloc: Global) -> TermReader
        ensures { result ≡ read.start }
    {
        TermReader {
            stack: Stack::new(alloc),
            last: Last::Mark,
        }
    }

    /// Behind one more token.
    pub(crate) fn step(self, alloc: Global, token: Token) -> Step
        ensures { IfOk result (λ next. next ≡ read.step self.stack self.last token) }
    {
        let TermReader { stack, last } = self;
        match last {
            Last::Mark => begin(alloc, stack, token),
            Last::Bracket => begin_or_close(alloc, stack, token),
            Last::Bar => begin_tail(alloc, stack, token),
            Last::Term(term) => go_on(alloc, stack, term, token),
            Last::Fun(function) => Ok(external(stack, function, token)),
        }
    }

    /// The term that was read, where nothing is open.
    pub(crate) fn finish(self) -> Option<AsmTerm>
        ensures { result ≡ read.finish self }
    {
        let TermReader { stack, last } = self;
        match last {
            Last::Term(term) => match stack.pop() {
                None => Some(term),
                Some(_) => None,
            },
            _ => None,
        }
    }
}

/// Behind a whole term.
fn whole(stack: Stack<Opened>, term: AsmTerm) -> Option<TermReader>
    ensures { result ≡ read.whole stack term }
{
    Some(at(stack, Last::Term(term)))
}

/// With one more construct open.
fn open(stack: Stack<Opened>, opened: Opened, last: Last) -> Step
    ensures { IfOk result (λ next. next ≡ Some (read.at (opened ∷ stack) last)) }
{
    let stack = stack.push(opened)?;
    Ok(Some(TermReader { stack, last }))
}

/// Behind a token that begins a term, or is one.
fn begin(alloc: Global, stack: Stack<Opened>, token: Token) -> Step
    ensures { IfOk result (λ next. next ≡ read.begun stack token) }
{
    match token {
        Token::Int(n) => Ok(whole(stack, AsmTerm::Int(n))),
        Token::Atom(name) => Ok(whole(stack, AsmTerm::Atom(name))),
        Token::Str(characters) => Ok(whole(stack, AsmTerm::Str(characters))),
        Token::Opaque(spelled) => Ok(whole(stack, AsmTerm::Opaque(spelled))),
        Token::Pid(node, number) => Ok(whole(stack, AsmTerm::Pid(node, number))),
        Token::Ref(node, number) => Ok(whole(stack, AsmTerm::Ref(node, number))),
        Token::Fun => Ok(Some(at(stack, Last::Fun(Function::Word)))),
        Token::OpenTuple => open(stack, Opened::Tuple(Items::new(alloc)), Last::Bracket),
        Token::OpenList => open(stack, Opened::List(Items::new(alloc)), Last::Bracket),
        Token::OpenMap => open(stack, Opened::Key(Items::new(alloc)), Last::Bracket),
        _ => Ok(None),
    }
}

/// Behind what follows an opening bracket.
fn begin_or_close(alloc: Global, stack: Stack<Opened>, token: Token) -> Step
    ensures { IfOk result (λ next. next ≡ read.begun_or_closed stack token) }
{
    match token {
        Token::CloseTuple => Ok(close_brace(stack)),
        Token::CloseList => Ok(close_bracket(stack)),
        token => begin(alloc, stack, token),
    }
}

/// Behind a brace that closes a tuple or a map as it is.
fn close_brace(stack: Stack<Opened>) -> Option<TermReader>
    ensures { result ≡ read.closed_brace stack }
{
    let (top, stack) = stack.pop()?;
    match top {
        Opened::Tuple(parts) => whole(stack, AsmTerm::Tuple(parts)),
        Opened::Key(pairs) => whole(stack, AsmTerm::Map(pairs)),
        _ => None,
    }
}

/// Behind a bracket that closes a list as it is.
fn close_bracket(stack: Stack<Opened>) -> Option<TermReader>
    ensures { result ≡ read.closed_bracket stack }
{
    let (top, stack) = stack.pop()?;
    match top {
        Opened::List(elements) => whole(stack, AsmTerm::List(elements, None)),
        _ => None,
    }
}

/// Behind what follows a bar. A list there is read as part of the list before it, so that no element is moved twice.
fn begin_tail(alloc: Global, stack: Stack<Opened>, token: Token) -> Step
    ensures { IfOk result (λ next. next ≡ read.begun_tail stack token) }
{
    match token {
        Token::OpenList => join(stack),
        token => begin(alloc, stack, token),
    }
}

/// Behind a bar and `[`.
fn join(stack: Stack<Opened>) -> Step
    ensures { IfOk result (λ next. next ≡ read.joined stack) }
{
    let Some((top, stack)) = stack.pop() else {
        return Ok(None);
    };
    match top {
        Opened::Tail(elements) => {
            let stack = stack.push(Opened::Joined)?;
            open(stack, Opened::List(elements), Last::Bracket)
        }
        _ => Ok(None),
    }
}

/// Behind what follows a term.
fn go_on(alloc: Global, stack: Stack<Opened>, term: AsmTerm, token: Token) -> Step
    ensures { IfOk result (λ next. next ≡ read.gone_on stack term token) }
{
    let Some((top, stack)) = stack.pop() else {
        return Ok(None);
    };
    match token {
        Token::Comma => comma(top, stack, term),
        Token::CloseTuple => brace(top, stack, term),
        Token::CloseList => bracket(alloc, top, stack, term),
        Token::Bar => bar(top, stack, term),
        Token::Arrow => arrow(top, stack, term),
        _ => Ok(None),
    }
}

/// Behind a term and a comma, in what was opened last.
fn comma(top: Opened, stack: Stack<Opened>, term: AsmTerm) -> Step
    ensures { IfOk result (λ next. next ≡ read.comma (top ∷ stack) term) }
{
    match top {
        Opened::Tuple(parts) => open(stack, Opened::Tuple(with(parts, term)?), Last::Mark),
        Opened::List(elements) => open(stack, Opened::List(with(elements, term)?), Last::Mark),
        Opened::Value(pairs, key) => open(
            stack,
            Opened::Key(with(pairs, (key, term))?),
            Last::Mark,
        ),
        _ => Ok(None),
    }
}

/// Behind a term and `}`, in what was opened last.
fn brace(top: Opened, stack: Stack<Opened>, term: AsmTerm) -> Step
    ensures { IfOk result (λ next. next ≡ read.brace (top ∷ stack) term) }
{
    match top {
        Opened::Tuple(parts) => Ok(whole(stack, AsmTerm::Tuple(with(parts, term)?))),
        Opened::Value(pairs, key) => Ok(whole(stack, AsmTerm::Map(with(pairs, (key, term))?))),
        _ => Ok(None),
    }
}

/// Behind a term and `]`, in what was opened last.
fn bracket(alloc: Global, top: Opened, stack: Stack<Opened>, term: AsmTerm) -> Step
    ensures { IfOk result (λ next. next ≡ read.bracket (top ∷ stack) term) }
{
    match top {
        Opened::List(elements) => Ok(whole(stack, AsmTerm::List(with(elements, term)?, None))),
        Opened::Tail(elements) => Ok(whole(stack, list_before(alloc, elements, term)?)),
        Opened::Joined => Ok(whole(stack, term)),
        _ => Ok(None),
    }
}

/// Behind a term and `|`, in what was opened last.
fn bar(top: Opened, stack: Stack<Opened>, term: AsmTerm) -> Step
    ensures { IfOk result (λ next. next ≡ read.bar (top ∷ stack) term) }
{
    match top {
        Opened::List(elements) => open(stack, Opened::Tail(with(elements, term)?), Last::Bar),
        _ => Ok(None),
    }
}

/// Behind a term and `=>`, in what was opened last.
fn arrow(top: Opened, stack: Stack<Opened>, term: AsmTerm) -> Step
    ensures { IfOk result (λ next. next ≡ read.arrow (top ∷ stack) term) }
{
    match top {
        Opened::Key(pairs) => open(stack, Opened::Value(pairs, term), Last::Mark),
        _ => Ok(None),
    }
}

/// Behind one more token of `fun M:F/A`.
fn external(stack: Stack<Opened>, function: Function, token: Token) -> Option<TermReader>
    ensures { result ≡ read.external stack function token }
{
    match function {
        Function::Word => match token {
            Token::Atom(owner) => Some(at(stack, Last::Fun(Function::Module(owner)))),
            _ => None,
        },
        Function::Module(owner) => match token {
            Token::Colon => Some(at(stack, Last::Fun(Function::Colon(owner)))),
            _ => None,
        },
        Function::Colon(owner) => match token {
            Token::Atom(name) => Some(at(stack, Last::Fun(Function::Name(owner, name)))),
            _ => None,
        },
        Function::Name(owner, name) => match token {
            Token::Slash => Some(at(stack, Last::Fun(Function::Slash(owner, name)))),
            _ => None,
        },
        Function::Slash(owner, name) => match token {
            Token::Int(arity) => whole(stack, AsmTerm::ExtFun(owner, name, arity_of(arity)?)),
            _ => None,
        },
    }
}

/// With that stack, and that last.
fn at(stack: Stack<Opened>, last: Last) -> TermReader
    ensures { result ≡ read.at stack last }
{
    TermReader { stack, last }
}

/// The arity of that number, from 0 to 255.
fn arity_of(n: i64) -> Option<u8>
    ensures { result ≡ read.arity_of n }
{
    if n < 0 || n > 255 {
        return None;
    }
    Some(n as u8)
}

/// The list of these elements, and behind its bar that term, which is no list.
fn list_before(
    alloc: Global,
    elements: Items<AsmTerm>,
    behind: AsmTerm,
) -> Result<AsmTerm, AllocError>
    ensures { IfOk result (λ list. list ≡ read.list_before elements behind (out-AsmTerm behind)) }
{
    match behind {
        AsmTerm::Str(characters) => Ok(AsmTerm::List(
            with_characters(elements, characters.as_slice())?,
            None,
        )),
        behind => Ok(AsmTerm::List(elements, Some(Boxed::new(alloc, behind)?))),
    }
}

/// These elements, and then the integers of these characters.
fn with_characters(
    mut elements: Items<AsmTerm>,
    characters: &[u32],
) -> Result<Items<AsmTerm>, AllocError>
    ensures { IfOk result (λ all. all ≡ elements ++ characters_as_terms characters.now) }
{
    for character in characters {
        elements.push(AsmTerm::Int(i64::from(*character)))?;
    }
    Ok(elements)
}

/// These items, and then that one.
fn with<T: Drop>(mut items: Items<T>, item: T) -> Result<Items<T>, AllocError>
    ensures { IfOk result (λ all. all ≡ items ++ item ∷ []) }
{
    items.push(item)?;
    Ok(items)
}
