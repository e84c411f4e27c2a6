//! What stands between the opening and the closing of a text with expressions.
ghost use Rattle.std.specs.Prelude.{◌≡◌, ℕ, ◌<◌, ◌≤◌, ◌∷◌, List, length, IfOk};
ghost use Rattle.model_syntax.specs.Source.{Source, byte_at};
ghost use Rattle.model_syntax.specs.TextForms.{GoesOn};
ghost use Rattle.model_syntax.specs.OpenBrackets.{Open, text, closed};
ghost use Rattle.model_syntax.specs.Reading.{part, goes, Reads};
ghost use Rattle.groovy_lex.specs.OpenStack.{form_of};
ghost use Rattle.groovy_lex.specs.Steps.{IsFound};

use crate::contents::{Expression, Stop, content, stop_at};
use crate::found::Found;
use crate::open::{OpenStack, Opened, TextForm};
use model_syntax::TokenKind;
use model_text::Text;
use std::alloc::{AllocError, Global};

/// A part of plain text, which is no token where it stands for nothing.
fn part_step(plain: Text, end: usize) -> Found
    ensures { (B : Source) (n : ℕ) (s : List Open) (a : ℕ) → Reads B s a (goes (part B plain a end) s end) → a < end → end ≤ n → IsFound B n s s a result }
{
    if plain.is_empty() {
        return Found::Blank(end);
    }
    Found::Token(TokenKind::GStringPart(plain), end)
}

/// What stands where no character of the text goes on: its closing, an expression, or a fault.
fn stop_step(
    src: &[u8],
    stack: &mut OpenStack,
    form: TextForm,
    opening: usize,
    at: usize,
) -> Result<Found, AllocError>
    requires inside { at < length src.now }
    requires top { stack.old ≡ text (form_of form) opening ∷ closed stack.old }
    requires stops { GoesOn (byte_at src.now) (form_of form) at → ⊥ }
    ensures { IfOk result (λ found. IsFound (byte_at src.now) (length src.now) stack.old stack.new at found) }
{
    match stop_at(src, stack, form, opening, at) {
        Stop::Fails(kind, fault) => Ok(Found::Fails(kind, fault)),
        Stop::Closes => {
            stack.close();
            Ok(Found::Token(TokenKind::GStringClose, at + form.quotes_len()))
        }
        Stop::Begins(Expression::Braces) => {
            stack.open_bracket(Opened::Expression)?;
            Ok(Found::Token(TokenKind::ExpressionOpen, at + 2))
        }
        Stop::Begins(Expression::Path) => Ok(Found::Path),
    }
}

/// What stands in a text with expressions, outside of these: a part, the closing, an expression, or a fault. `AllocError`
/// only for want of memory.
pub(crate) fn inside_step(
    alloc: Global,
    src: &[u8],
    stack: &mut OpenStack,
    form: TextForm,
    opening: usize,
    at: usize,
) -> Result<Found, AllocError>
    requires inside { at < length src.now }
    requires top { stack.old ≡ text (form_of form) opening ∷ closed stack.old }
    ensures { IfOk result (λ found. IsFound (byte_at src.now) (length src.now) stack.old stack.new at found) }
{
    let (plain, end) = content(alloc, src, form, at)?;
    if at < end {
        return Ok(part_step(plain, end));
    }
    stop_step(src, stack, form, opening, at)
}
