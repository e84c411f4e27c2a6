//! The functions and statements of a script, from its tokens.
ghost use Rattle.std.specs.Prelude.{◌≡◌, ℕ, ◌<◌, length, MatchBool, IfOk, Err};
ghost use Rattle.model_syntax.specs.BracketDepth.{IsShallow};
ghost use Rattle.model_syntax.specs.FirstFault.{IsTree, SyntaxPlace};
ghost use Rattle.groovy_expr.specs.declared.refusal.Refusal.{Refusal};
ghost use Rattle.groovy_expr.specs.Answers.{kinds};
ghost use Rattle.groovy_parse.specs.Readers.{BeginsFunction, ReadsTop, ReadsTops};

use crate::function::read_function;
use groovy_expr::{
    Refusal, is_name, place_at, read_stmt, sees, sees_word, skip_newline, skip_separators,
};
use model_syntax::{Sign, Token, Top, Tree, Word};
use sqlite_items::Items;
use std::alloc::Global;

/// The tree of a list of tokens, or the place of its syntax fault: the first token with which no script goes on, or the
/// number of tokens where they end too early.
///
/// Each open bracket takes a part of the stack while it is read, and nothing else does: so the brackets of the tokens must
/// nest at most 128 deep (`expr_parser::is_shallow`), as those of a script do that the lexer has read.
///
/// # Errors
///
/// `Fault` with that place exactly where they are no script, and `Memory` where the memory was refused.
pub fn parse_tokens(alloc: Global, tokens: &[Token]) -> Result<Tree, Refusal>
    requires shallow { IsShallow tokens.now }
    ensures found { IfOk result (λ tree. IsTree tokens.now tree) }
    ensures fault { (i : ℕ) → result ≡ Err (Refusal.Fault i) → SyntaxPlace tokens.now i }
{
    let tops = read_tops(alloc, tokens)?;
    Ok(Tree { tops })
}

/// All functions and statements. The first may stand behind a newline, and each other one stands behind separators.
fn read_tops(alloc: Global, tokens: &[Token]) -> Result<Items<Top>, Refusal>
    requires shallow { IsShallow tokens.now }
    ensures { ReadsTops tokens.now result }
{
    let mut all = Items::new(alloc);
    let mut from = skip_separators(tokens, 0);
    let mut may_begin = from == skip_newline(tokens, 0);
    'tops: while may_begin && from < tokens.len() {
        let (top, end) = read_top(alloc, tokens, from)?;
        all.push(top)?;
        from = skip_separators(tokens, end);
        may_begin = from != end;
    }
    if from < tokens.len() {
        return Err(Refusal::Fault(from));
    }
    Ok(all)
}

/// A function or a statement.
fn read_top(alloc: Global, tokens: &[Token], at: usize) -> Result<(Top, usize), Refusal>
    requires within { at < length tokens.now }
    requires shallow { IsShallow tokens.now }
    ensures { ReadsTop tokens.now at result }
{
    if begins_function(tokens, at) {
        let (function, end) = read_function(alloc, tokens, at)?;
        return Ok((Top::Function(function), end));
    }
    let (stmt, end) = read_stmt(alloc, tokens, at)?;
    Ok((Top::Statement(place_at(tokens, at), stmt), end))
}

/// Whether a function begins here: `void`, or `def`, a name and `(`.
fn begins_function(tokens: &[Token], at: usize) -> bool
    requires within { at < length tokens.now }
    ensures { MatchBool result (BeginsFunction (kinds tokens.now) at) (BeginsFunction (kinds tokens.now) at → ⊥) }
{
    if sees_word(tokens, at, Word::Void) {
        return true;
    }
    sees_word(tokens, at, Word::Def)
        && is_name(tokens, at + 1)
        && sees(tokens, at + 1 + 1, Sign::ParenOpen)
}
