ghost use Rattle.std.specs.Prelude.{◌≡◌, ◌<◌, length, MatchOption};
ghost use Rattle.model_syntax.specs.Grammar.{class_text};
ghost use Rattle.model_syntax.specs.declared.sign.Sign.TheVariants as sign;
ghost use Rattle.model_syntax.specs.declared.word.Word.TheVariants as word;
ghost use Rattle.model_syntax.specs.Stream.{Sees, SeesName, SeesWord};
ghost use Rattle.groovy_expr.specs.Answers.{kinds};
ghost use Rattle.groovy_expr.specs.Readers.{ReadsPrimary};

use crate::calls::read_call;
use crate::closure::read_closure;
use crate::collections::read_bracket;
use crate::gstring::read_gstring;
use crate::ranks::read_expr;
use crate::reading::{name_at, opens_call, peek, sees};
use crate::refusal::Refusal;
use model_syntax::{Expr, NewClass, Sign, Token, TokenKind, Word};
use model_text::Text;
use sqlite_items::Boxed;
use std::alloc::Global;

/// A primary.
#[cycle(parser)]
pub fn read_primary(alloc: Global, tokens: &[Token], at: usize) -> Result<(Expr, usize), Refusal>
    ensures { ReadsPrimary tokens.now at result }
{
    let Some(kind) = peek(tokens, at) else {
        return Err(Refusal::Fault(at));
    };
    match kind {
        TokenKind::Int(value) => Ok((Expr::Number(*value), at + 1)),
        TokenKind::Text(text) => Ok((Expr::Literal(text.clone()?), at + 1)),
        TokenKind::Name(name) => read_named_primary(alloc, tokens, at, name),
        TokenKind::Word(word) => read_word(alloc, tokens, at, *word),
        TokenKind::Sign(sign) => read_enclosed(alloc, tokens, at, *sign),
        TokenKind::GStringOpen => {
            let (parts, end) = read_gstring(alloc, tokens, at)?;
            Ok((Expr::GString(parts), end))
        }
        _ => Err(Refusal::Fault(at)),
    }
}

/// A primary that begins with this word.
#[cycle(parser)]
fn read_word(
    alloc: Global,
    tokens: &[Token],
    at: usize,
    word: Word,
) -> Result<(Expr, usize), Refusal>
    requires seen { SeesWord (kinds tokens.now) at word }
    requires within { at < length tokens.now }
    ensures { ReadsPrimary tokens.now at result }
{
    match word {
        Word::True => Ok((Expr::True, at + 1)),
        Word::False => Ok((Expr::False, at + 1)),
        Word::Null => Ok((Expr::Null, at + 1)),
        Word::New => read_new(alloc, tokens, at),
        _ => Err(Refusal::Fault(at)),
    }
}

/// A primary that begins with this sign.
#[cycle(parser)]
fn read_enclosed(
    alloc: Global,
    tokens: &[Token],
    at: usize,
    sign: Sign,
) -> Result<(Expr, usize), Refusal>
    requires seen { Sees (kinds tokens.now) at sign }
    requires within { at < length tokens.now }
    ensures { ReadsPrimary tokens.now at result }
{
    match sign {
        Sign::ParenOpen => read_group(alloc, tokens, at),
        Sign::BracketOpen => read_bracket(alloc, tokens, at),
        Sign::BraceOpen => read_closure(alloc, tokens, at),
        _ => Err(Refusal::Fault(at)),
    }
}

/// A variable, or a call of a function.
#[cycle(parser)]
fn read_named_primary(
    alloc: Global,
    tokens: &[Token],
    at: usize,
    name: &Text,
) -> Result<(Expr, usize), Refusal>
    requires seen { SeesName (kinds tokens.now) at name.now }
    requires within { at < length tokens.now }
    ensures { ReadsPrimary tokens.now at result }
{
    let name = name.clone()?;
    if !opens_call(tokens, at + 1) {
        return Ok((Expr::Variable(name), at + 1));
    }
    let (arguments, end) = read_call(alloc, tokens, at + 1)?;
    Ok((Expr::Call(name, arguments), end))
}

/// An expression in parentheses.
#[cycle(parser)]
fn read_group(alloc: Global, tokens: &[Token], at: usize) -> Result<(Expr, usize), Refusal>
    requires seen { Sees (kinds tokens.now) at sign.ParenOpen }
    requires within { at < length tokens.now }
    ensures { ReadsPrimary tokens.now at result }
{
    let (inner, end) = read_expr(alloc, tokens, at + 1)?;
    if !sees(tokens, end, Sign::ParenClose) {
        return Err(Refusal::Fault(end));
    }
    Ok((Expr::Group(Boxed::new(alloc, inner)?), end + 1))
}

/// `new`, a class and its argument.
#[cycle(parser)]
fn read_new(alloc: Global, tokens: &[Token], at: usize) -> Result<(Expr, usize), Refusal>
    requires seen { SeesWord (kinds tokens.now) at word.New }
    requires within { at < length tokens.now }
    ensures { ReadsPrimary tokens.now at result }
{
    let Some(class) = class_at(tokens, at + 1) else {
        return Err(Refusal::Fault(at + 1));
    };
    if !sees(tokens, at + 1 + 1, Sign::ParenOpen) {
        return Err(Refusal::Fault(at + 1 + 1));
    }
    let inside = at + 1 + 1 + 1;
    if sees(tokens, inside, Sign::ParenClose) {
        return Ok((Expr::New(class, None), inside + 1));
    }
    let (argument, end) = read_expr(alloc, tokens, inside)?;
    if !sees(tokens, end, Sign::ParenClose) {
        return Err(Refusal::Fault(end));
    }
    Ok((
        Expr::New(class, Some(Boxed::new(alloc, argument)?)),
        end + 1,
    ))
}

/// The class that this is the name of.
fn class_of(name: &[u8]) -> Option<NewClass>
    ensures { MatchOption result ((class : NewClass) → name.now ≡ class_text class → ⊥) (λ class. name.now ≡ class_text class) }
{
    if name == b"Exception".as_slice() {
        return Some(NewClass::Exception);
    }
    if name == b"RuntimeException".as_slice() {
        return Some(NewClass::RuntimeException);
    }
    if name == b"Error".as_slice() {
        return Some(NewClass::Error);
    }
    None
}

/// The class whose name stands here.
fn class_at(tokens: &[Token], at: usize) -> Option<NewClass>
    ensures { MatchOption result ((class : NewClass) → SeesName (kinds tokens.now) at (class_text class) → ⊥) (λ class. SeesName (kinds tokens.now) at (class_text class) × (at < length tokens.now)) }
{
    match name_at(tokens, at) {
        Some(name) => class_of(name.as_slice()),
        None => None,
    }
}
