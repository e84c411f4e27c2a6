//! The characters of a text up to where none goes on, and what stands there.
ghost use Rattle.std.specs.Prelude.{◌≡◌, ℕ, ◌+◌, ◌<◌, ◌≤◌, List, length, true, false, MatchBool, IfOk};
ghost use Rattle.model_syntax.specs.declared.fault.FaultKind.TheVariants.{BadEscape};
ghost use Rattle.model_syntax.specs.Source.{byte_at};
ghost use Rattle.model_syntax.specs.TextForms.{Form, GoesOn, Begun, IsCutOff, is_double, is_triple};
ghost use Rattle.model_syntax.specs.OpenBrackets.{Open};
ghost use Rattle.model_syntax.specs.Reading.{TextFails};
ghost use Rattle.groovy_lex.specs.OpenStack.{form_of};
ghost use Rattle.groovy_lex.specs.Contents.{IsContent};
ghost use Rattle.groovy_lex.specs.Stops.{IsStop};

use crate::characters::character_end;
use crate::escapes::{closes, escape_front, take_character};
use crate::names::letter_at;
use crate::open::{MOST_BRACKETS, OpenStack, TextForm};
use crate::source::is_at;
use model_syntax::FaultKind;
use model_text::Text;
use std::alloc::{AllocError, Global};

/// The characters of a text from a place on up to where none goes on, and that place. `AllocError` only for want of
/// memory.
pub(crate) fn content(
    alloc: Global,
    src: &[u8],
    form: TextForm,
    from: usize,
) -> Result<(Text, usize), AllocError>
    requires { from ≤ length src.now }
    ensures { IfOk result (λ content. IsContent (byte_at src.now) (form_of form) from (length src.now) content.0 content.1) }
{
    let mut text = Text::new(alloc);
    let mut at = from;
    'characters: while at < src.len() {
        if closes(src, form, at) {
            return Ok((text, at));
        }
        match take_character(src, form, at, &mut text)? {
            Some(end) => at = end,
            None => return Ok((text, at)),
        }
    }
    Ok((text, at))
}

/// How an expression begins in a text.
#[derive(Clone, Copy, PartialEq, Eq, Debug)]
pub(crate) enum Expression {
    /// `${`
    Braces,
    /// `$` and a letter.
    Path,
}

/// What stands in a text where no character goes on.
#[derive(Clone, Copy, PartialEq, Eq, Debug)]
pub(crate) enum Stop {
    /// Its closing quotes.
    Closes,
    /// An expression.
    Begins(Expression),
    /// The fault of this kind, at this place.
    Fails(FaultKind, usize),
}

/// Whether a `$` stands at the place that begins an expression or is refused.
fn is_dollar(src: &[u8], form: TextForm, at: usize) -> bool
    ensures { MatchBool result ((byte_at src.now at ≡ 36) × (is_double (form_of form) ≡ true) × (at < length src.now)) ((byte_at src.now at ≡ 36) × (is_double (form_of form) ≡ true) → ⊥) }
{
    is_at(src, at, b'$') && form.is_double()
}

/// Whether a newline stands at the place and the text holds none.
fn ends_line(src: &[u8], form: TextForm, at: usize) -> bool
    ensures { MatchBool result ((byte_at src.now at ≡ 10) × (is_triple (form_of form) ≡ false)) ((byte_at src.now at ≡ 10) × (is_triple (form_of form) ≡ false) → ⊥) }
{
    is_at(src, at, b'\n') && !form.is_triple()
}

/// The fault of what goes on from `at` up to `end` and is not over there: the end of the script leaves the text without an
/// end, a byte that is of no character is told at itself, and any other character makes it a bad escape. `opening` is where
/// the text began.
fn broken_stop(src: &[u8], opening: usize, at: usize, end: usize) -> Stop
    requires { end ≤ length src.now }
    ensures { (s : List Open) (f : Form) → Begun (byte_at src.now) f at end → ((q : ℕ) → Begun (byte_at src.now) f at q → q ≤ end) → ((IsCutOff (byte_at src.now) f at → ⊥) → TextFails (byte_at src.now) s f opening at BadEscape at) → IsStop (byte_at src.now) s f opening at result }
{
    if end == src.len() {
        return Stop::Fails(FaultKind::UnendedText, opening);
    }
    match character_end(src, end) {
        Some(_) => Stop::Fails(FaultKind::BadEscape, at),
        None => Stop::Fails(FaultKind::NotUtf8, end),
    }
}

/// What a `$` begins in a text with expressions.
fn dollar_stop(src: &[u8], stack: &OpenStack, form: TextForm, opening: usize, at: usize) -> Stop
    requires inside { at < length src.now }
    requires dollar { byte_at src.now at ≡ 36 }
    requires double { is_double (form_of form) ≡ true }
    ensures { IsStop (byte_at src.now) stack.now (form_of form) opening at result }
{
    if is_at(src, at + 1, b'{') {
        if stack.depth() < MOST_BRACKETS {
            return Stop::Begins(Expression::Braces);
        }
        return Stop::Fails(FaultKind::NestingOver128, at);
    }
    if letter_at(src, at + 1) {
        return Stop::Begins(Expression::Path);
    }
    broken_stop(src, opening, at, at + 1)
}

/// What stands in a text where no character goes on. `opening` is where the text began.
pub(crate) fn stop_at(
    src: &[u8],
    stack: &OpenStack,
    form: TextForm,
    opening: usize,
    at: usize,
) -> Stop
    requires inside { at ≤ length src.now }
    requires stops { GoesOn (byte_at src.now) (form_of form) at → ⊥ }
    ensures { IsStop (byte_at src.now) stack.now (form_of form) opening at result }
{
    if closes(src, form, at) {
        return Stop::Closes;
    }
    if is_dollar(src, form, at) {
        return dollar_stop(src, stack, form, opening, at);
    }
    if ends_line(src, form, at) {
        return Stop::Fails(FaultKind::UnendedText, opening);
    }
    if is_at(src, at, b'\\') {
        let end = escape_front(src, at);
        return broken_stop(src, opening, at, end);
    }
    broken_stop(src, opening, at, at)
}
