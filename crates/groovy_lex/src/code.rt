//! What stands outside of texts.
ghost use Rattle.std.specs.Prelude.{◌≡◌, ℕ, ◌+◌, ◌-◌, ◌^◌, ◌<◌, ◌≤◌, ◌⊎◌, ◌∷◌, List, length, true, false, MatchBool, MatchOption, IfOk};
ghost use Rattle.std.specs.Char.{is_ascii_digit};
ghost use Rattle.model_syntax.specs.declared.token.TokenKind.TheVariants.{GStringOpen};
ghost use Rattle.model_syntax.specs.Source.{Source, byte_at};
ghost use Rattle.model_syntax.specs.Spelling.{is_letter};
ghost use Rattle.model_syntax.specs.TextForms.{quotes, Opens};
ghost use Rattle.model_syntax.specs.OpenBrackets.{Open, depth, after_sign, is_opening, closed, text, IsCode};
ghost use Rattle.model_syntax.specs.Reading.{BeginsLine, Begins, Nothing, fails};
ghost use Rattle.groovy_lex.specs.declared.found.Found.TheVariants.{Token};
ghost use Rattle.groovy_lex.specs.OpenStack.{form_of, open_of, IsBracket};
ghost use Rattle.groovy_lex.specs.Signs.{IsSignAt};
ghost use Rattle.groovy_lex.specs.Steps.{IsFound};
ghost use Rattle.groovy_lex.specs.Turns.{Turns, IsOther};

use crate::characters::character_end;
use crate::comments::{block_comment, line_comment};
use crate::contents::{Stop, content, stop_at};
use crate::found::Found;
use crate::names::{is_letter, name_at};
use crate::numbers::number_at;
use crate::open::{MOST_BRACKETS, OpenStack, Opened, TextForm};
use crate::place::mark_end;
use crate::signs::sign_at;
use crate::source::{byte, stands_pair};
use model_syntax::{FaultKind, Sign, TokenKind};
use std::alloc::{AllocError, Global};

/// A newline: a token where it may end a statement, and a fault in a text that holds none.
fn newline_step(stack: &OpenStack, at: usize) -> Found
    requires small { at < 2 ^ 64 - 1 }
    requires code { IsCode stack.now }
    ensures { (B : Source) (n : ℕ) → B at ≡ 10 → at < n → IsFound B n stack.now stack.now at result }
{
    if let Some(opening) = stack.line_text() {
        return Found::Fails(FaultKind::UnendedText, opening);
    }
    if stack.ends_statements() {
        return Found::Token(TokenKind::Newline, at + 1);
    }
    Found::Blank(at + 1)
}

/// A name or a word.
fn name_step(alloc: Global, src: &[u8], at: usize) -> Result<Found, AllocError>
    requires inside { at < length src.now }
    requires letter { is_letter (byte_at src.now at) ≡ true }
    ensures { IfOk result (λ found. (s : List Open) → IsCode s → IsFound (byte_at src.now) (length src.now) s s at found) }
{
    let (kind, end) = name_at(alloc, src, at)?;
    Ok(Found::Token(kind, end))
}

/// A number.
fn number_step(src: &[u8], at: usize) -> Found
    requires inside { at < length src.now }
    requires digit { is_ascii_digit (byte_at src.now at) ≡ true }
    ensures { (s : List Open) → IsCode s → IsFound (byte_at src.now) (length src.now) s s at result }
{
    match number_at(src, at) {
        Some((value, end)) => Found::Token(TokenKind::Int(value), end),
        None => Found::Fails(FaultKind::BadNumber, at),
    }
}

/// The bracket that a sign opens.
fn bracket_of(sign: Sign) -> Option<Opened>
    ensures { MatchOption result (is_opening sign ≡ false) (λ bracket. (is_opening sign ≡ true) × IsBracket bracket × ((s : List Open) → after_sign sign s ≡ open_of bracket ∷ s)) }
{
    match sign {
        Sign::ParenOpen => Some(Opened::Paren),
        Sign::BracketOpen => Some(Opened::Bracket),
        Sign::BraceOpen => Some(Opened::Brace),
        _ => None,
    }
}

/// Whether the sign closes a bracket.
fn is_closing(sign: Sign) -> bool
    ensures { MatchBool result ((s : List Open) → after_sign sign s ≡ closed s) (is_opening sign ≡ false → (s : List Open) → after_sign sign s ≡ s) }
{
    match sign {
        Sign::ParenClose | Sign::BracketClose | Sign::BraceClose => true,
        _ => false,
    }
}

/// Opens or closes what a sign opens or closes. `false` where it would be the 129th open bracket, and then nothing has
/// changed.
fn turn(stack: &mut OpenStack, sign: Sign) -> Result<bool, AllocError>
    ensures { IfOk result (λ taken. Turns sign stack.old stack.new taken) }
{
    if let Some(bracket) = bracket_of(sign) {
        if stack.depth() >= MOST_BRACKETS {
            return Ok(false);
        }
        stack.open_bracket(bracket)?;
        return Ok(true);
    }
    if is_closing(sign) {
        stack.close();
    }
    Ok(true)
}

/// A sign.
fn sign_step(
    src: &[u8],
    stack: &mut OpenStack,
    at: usize,
    sign: Sign,
    end: usize,
) -> Result<Found, AllocError>
    requires code { IsCode stack.old }
    requires sign { IsSignAt (byte_at src.now) at end sign }
    requires past { (at < end) × (end ≤ length src.now) }
    ensures { IfOk result (λ found. IsFound (byte_at src.now) (length src.now) stack.old stack.new at found) }
{
    if !turn(stack, sign)? {
        return Ok(Found::Fails(FaultKind::NestingOver128, at));
    }
    Ok(Found::Token(TokenKind::Sign(sign), end))
}

/// The form of the text that opens here: three quotes open a triple text.
fn form_at(src: &[u8], at: usize) -> TextForm
    requires inside { at < length src.now }
    requires quote { (byte_at src.now at ≡ 39) ⊎ (byte_at src.now at ≡ 34) }
    ensures opens { Opens (byte_at src.now) (form_of result) at }
{
    let quote = byte(src, at);
    if stands_pair(src, at + 1, quote, quote) {
        if quote == b'\'' {
            return TextForm::TripleSingle;
        }
        return TextForm::TripleDouble;
    }
    if quote == b'\'' {
        return TextForm::Single;
    }
    TextForm::Double
}

/// A text. One without expressions is one token; of one with expressions it is the opening.
fn text_step(
    alloc: Global,
    src: &[u8],
    stack: &mut OpenStack,
    at: usize,
) -> Result<Found, AllocError>
    requires inside { at < length src.now }
    requires code { IsCode stack.old }
    requires quote { (byte_at src.now at ≡ 39) ⊎ (byte_at src.now at ≡ 34) }
    ensures { IfOk result (λ found. IsFound (byte_at src.now) (length src.now) stack.old stack.new at found) }
{
    let form = form_at(src, at);
    let from = at + form.quotes_len();
    let (plain, stop) = content(alloc, src, form, from)?;
    match stop_at(src, stack, form, at, stop) {
        Stop::Fails(kind, fault) => Ok(Found::Fails(kind, fault)),
        Stop::Closes => {
            let end = stop + form.quotes_len();
            Ok(Found::Token(TokenKind::Text(plain), end))
        }
        Stop::Begins(_) => {
            stack.open_text(form, at)?;
            Ok(Found::Token(TokenKind::GStringOpen, from))
        }
    }
}

/// Whether a comment to the line's end begins: `//`, or `#!` at the very start of the script.
fn begins_line(src: &[u8], at: usize) -> bool
    requires { at < length src.now }
    ensures { MatchBool result (BeginsLine (byte_at src.now) at × (at + 2 ≤ length src.now)) (BeginsLine (byte_at src.now) at → ⊥) }
{
    stands_pair(src, at, b'/', b'/') || (at == mark_end(src) && stands_pair(src, at, b'#', b'!'))
}

/// What is wrong where nothing of the language stands: a character of no token, or a byte of no character.
fn nothing_kind(src: &[u8], at: usize) -> FaultKind
    requires inside { at < length src.now }
    requires nothing { Begins (byte_at src.now) at → ⊥ }
    ensures { (s : List Open) → Nothing (byte_at src.now) s at (fails result at) }
{
    match character_end(src, at) {
        Some(_) => FaultKind::UnexpectedCharacter,
        None => FaultKind::NotUtf8,
    }
}

/// A comment, a sign, or nothing of the language.
fn other_step(src: &[u8], stack: &mut OpenStack, at: usize) -> Result<Found, AllocError>
    requires inside { at < length src.now }
    requires code { IsCode stack.old }
    requires other { IsOther (byte_at src.now at) }
    ensures { IfOk result (λ found. IsFound (byte_at src.now) (length src.now) stack.old stack.new at found) }
{
    if begins_line(src, at) {
        return Ok(line_comment(src, at));
    }
    if stands_pair(src, at, b'/', b'*') {
        return Ok(block_comment(src, at));
    }
    match sign_at(src, at) {
        Some((sign, end)) => sign_step(src, stack, at, sign, end),
        None => Ok(Found::Fails(nothing_kind(src, at), at)),
    }
}

/// What stands outside of texts: a blank or a comment, a newline, a name, word, number or sign, a text, or nothing of
/// these. `AllocError` only for want of memory.
pub(crate) fn code_step(
    alloc: Global,
    src: &[u8],
    stack: &mut OpenStack,
    at: usize,
) -> Result<Found, AllocError>
    requires inside { at < length src.now }
    requires code { IsCode stack.old }
    ensures { IfOk result (λ found. IsFound (byte_at src.now) (length src.now) stack.old stack.new at found) }
{
    match byte(src, at) {
        b' ' | b'\t' | b'\r' => Ok(Found::Blank(at + 1)),
        b'\n' => Ok(newline_step(stack, at)),
        b'\'' | b'"' => text_step(alloc, src, stack, at),
        b'0'..=b'9' => Ok(number_step(src, at)),
        first if is_letter(first) => name_step(alloc, src, at),
        _ => other_step(src, stack, at),
    }
}
