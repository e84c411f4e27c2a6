ghost use Rattle.std.specs.Prelude.{◌≡◌, ◌<◌, ◌≤◌, length, None, IfOk, IfSome, Err, true};
ghost use Rattle.expr_parser.specs.declared.refusal.ExprRefusal.TheVariants.{Fault};
ghost use Rattle.groovy_expr.specs.Answers.{kinds};
ghost use Rattle.expr_parser.specs.Parsing.{ReadsNext, fault_in};
ghost use Rattle.expr_parser.specs.Shallow.{shallow_once};
ghost use Rattle.groovy_expr.specs.Readers.{ReadsExpr};
ghost use Rattle.groovy_expr.specs.Stops.{stops_expr};
ghost use Rattle.model_syntax.specs.BracketDepth.{IsShallow};
ghost use Rattle.model_syntax.specs.Operators.{rank_whole};

use crate::refusal::ExprRefusal;
use groovy_expr::{Refusal, ends_expr, read_expr};
use model_syntax::{Expr, Token};
use std::alloc::Global;

/// Reads expressions from tokens, one behind the other.
#[derive(Drop)]
pub struct Parser<'t> {
    alloc: Global,
    tokens: &'t [Token],
    /// The place of the next token to be read.
    at: usize,
    /// The fault that was met, which is told from then on.
    fault: Option<u32>,
    ghost few: { length tokens.now < 4294967296 },
    ghost shallow: { IsShallow tokens.now } by { shallow_once tokens.now },
    ghost within: { at ≤ length tokens.now },
}

impl<'t> Parser<'t> {
    /// A parser at the first of these tokens.
    ///
    /// Their brackets must nest at most 128 deep ([`is_shallow`](crate::is_shallow)), as those of a script do that the
    /// lexer has read: each open bracket takes a part of the stack while it is read, and nothing else does.
    pub fn new(alloc: Global, tokens: &'t [Token]) -> Self
        requires few { length tokens.now < 4294967296 }
        requires shallow { IsShallow tokens.now }
        ensures tokens { result.tokens.now ≡ tokens.now }
        ensures first { result.at ≡ 0 }
        ensures no_fault { result.fault ≡ None }
    {
        Parser {
            alloc,
            tokens,
            at: 0,
            fault: None,
        }
    }

    /// The expression that stands here, and the parser moves behind it.
    ///
    /// A fault is the first token with which no expression goes on, as the `(` of `1 (2)`; the parser stays where it is,
    /// and tells the same fault from then on. Where memory is refused it stays too, and may be asked again. But for that
    /// there is one answer (`proofs/OneAnswer.antt`).
    pub fn expr(&mut self) -> Result<Expr, ExprRefusal>
        ensures reads { self.old.fault ≡ None → ReadsNext self.old.tokens.now self.old.at self.new.at result }
        ensures keeps { self.old.fault ≡ None → self.new.fault ≡ fault_in result }
        ensures again { IfSome self.old.fault (λ token. (result ≡ Err (Fault token)) × (self.new ≡ self.old)) }
        ensures tokens { self.new.tokens ≡ self.old.tokens }
    {
        if let Some(token) = self.fault {
            return Err(ExprRefusal::Fault { token });
        }
        match read_ended(self.alloc, self.tokens, self.at) {
            Ok((tree, next)) => {
                self.at = next;
                Ok(tree)
            }
            Err(Refusal::Memory) => Err(ExprRefusal::Memory),
            Err(Refusal::Fault(place)) => {
                let token = place as u32;
                self.fault = Some(token);
                Err(ExprRefusal::Fault { token })
            }
        }
    }
}

/// The expression that stands at this place, if what stands behind it may follow an expression; else the fault is there.
fn read_ended(alloc: Global, tokens: &[Token], at: usize) -> Result<(Expr, usize), Refusal>
    requires shallow { IsShallow tokens.now }
    ensures reads { ReadsExpr rank_whole tokens.now at result }
    ensures ended { IfOk result (λ found. stops_expr (kinds tokens.now found.1) ≡ true) }
{
    let (tree, next) = read_expr(alloc, tokens, at)?;
    if !ends_expr(tokens, next) {
        return Err(Refusal::Fault(next));
    }
    Ok((tree, next))
}
