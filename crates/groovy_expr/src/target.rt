ghost use Rattle.std.specs.Prelude.{◌≡◌, ◌<◌, [], length, MatchOption, Some};
ghost use Rattle.model_syntax.specs.Stream.{Sees};
ghost use Rattle.model_syntax.specs.declared.tree.Suffix.{out-Suffix};
ghost use Rattle.model_syntax.specs.Operators.{assign_sign, suffixed};
ghost use Rattle.groovy_expr.specs.Answers.{kinds};
ghost use Rattle.groovy_expr.specs.Readers.{ReadsAssign};
ghost use Rattle.groovy_expr.specs.Targets.{behind, last_target, target_of};
ghost use Rattle.groovy_expr.specs.Updates.{ReadsUpdate, is_update};

use crate::primary::read_primary;
use crate::reading::{peek, sees};
use crate::refusal::Refusal;
use crate::simple::read_whole;
use crate::suffixes::{begins_suffix, read_suffix};
use crate::trees::suffixed;
use model_syntax::{Access, AssignSign, Assignment, Expr, Sign, Suffix, Target, Token, TokenKind};
use sqlite_items::{Boxed, Items};
use std::alloc::Global;

/// Whether an assignment sign, `++` or `--` stands here.
pub fn is_update(tokens: &[Token], at: usize) -> bool
    ensures { result ≡ is_update (kinds tokens.now at) }
{
    matches!(
        peek(tokens, at),
        Some(TokenKind::Sign(
            Sign::Assign
                | Sign::PlusAssign
                | Sign::MinusAssign
                | Sign::TimesAssign
                | Sign::ModAssign
                | Sign::Increment
                | Sign::Decrement
        ))
    )
}

/// What writes a value to a target, if this sign does.
fn assign_sign(sign: Sign) -> Option<AssignSign>
    ensures { result ≡ assign_sign sign }
{
    match sign {
        Sign::Assign => Some(AssignSign::Set),
        Sign::PlusAssign => Some(AssignSign::AddTo),
        Sign::MinusAssign => Some(AssignSign::SubtractFrom),
        Sign::TimesAssign => Some(AssignSign::MultiplyBy),
        Sign::ModAssign => Some(AssignSign::ReduceBy),
        _ => None,
    }
}

/// What the sign that stands here does with a value and a target.
fn assign_sign_at(tokens: &[Token], at: usize) -> Option<AssignSign>
    ensures { MatchOption result ((s : Sign) (o : AssignSign) → Sees (kinds tokens.now) at s → assign_sign s ≡ Some o → ⊥) (λ o. (s : Sign) × Sees (kinds tokens.now) at s × (assign_sign s ≡ Some o) × (at < length tokens.now)) }
{
    match peek(tokens, at) {
        Some(TokenKind::Sign(sign)) => assign_sign(*sign),
        _ => None,
    }
}

/// What an expression writes to, if it may stand before an assignment sign.
pub fn to_target(value: Expr) -> Option<Target>
    ensures { result ≡ target_of value }
{
    match value {
        Expr::Variable(name) => Some(Target::ToName(name)),
        Expr::Suffixed(primary, suffixes) => last_target(primary, suffixes),
        _ => None,
    }
}

/// What the last suffix behind a primary writes to.
fn last_target(primary: Boxed<Expr>, suffixes: Items<Suffix>) -> Option<Target>
    ensures { result ≡ last_target primary [] suffixes }
{
    let mut others = suffixes;
    let Some(last) = others.pop() else {
        return None;
    };
    target_behind(operand(primary, others), last)
}

/// A primary and the suffixes that stay with it as one tree.
fn operand(primary: Boxed<Expr>, suffixes: Items<Suffix>) -> Expr
    ensures { result ≡ suffixed primary suffixes }
{
    if suffixes.is_empty() {
        return primary.into_inner();
    }
    Expr::Suffixed(primary, suffixes)
}

/// What a suffix behind an operand writes to.
fn target_behind(operand: Expr, suffix: Suffix) -> Option<Target>
    ensures { result ≡ behind operand (out-Suffix suffix) }
{
    match suffix {
        Suffix::Property(Access::Direct, name) => Some(Target::ToProperty(operand, name)),
        Suffix::Property(Access::NullSafe, _) | Suffix::Method(_, _, _) => None,
        Suffix::Index(index) => Some(Target::ToIndex(operand, index)),
    }
}

/// What is done with a target: a value is written to it, or it is counted up or down.
#[cycle(parser)]
pub fn read_update(
    alloc: Global,
    tokens: &[Token],
    at: usize,
    target: Target,
) -> Result<(Assignment, usize), Refusal>
    ensures { ReadsUpdate tokens.now target at result }
{
    if sees(tokens, at, Sign::Increment) {
        return Ok((Assignment::Increment(target), at + 1));
    }
    if sees(tokens, at, Sign::Decrement) {
        return Ok((Assignment::Decrement(target), at + 1));
    }
    let Some(operator) = assign_sign_at(tokens, at) else {
        return Err(Refusal::Fault(at));
    };
    let (value, end) = read_whole(alloc, tokens, at + 1)?;
    Ok((Assignment::Write(target, operator, value), end))
}

/// An assignment, `++` or `--`.
#[cycle(parser)]
pub fn read_assign(
    alloc: Global,
    tokens: &[Token],
    at: usize,
) -> Result<(Assignment, usize), Refusal>
    ensures { ReadsAssign tokens.now at result }
{
    let (primary, next) = read_primary(alloc, tokens, at)?;
    let mut suffixes = Items::new(alloc);
    let mut end = next;
    'suffixes: while begins_suffix(tokens, end) {
        let (suffix, next) = read_suffix(alloc, tokens, end)?;
        suffixes.push(suffix)?;
        end = next;
    }
    if !is_update(tokens, end) {
        return Err(Refusal::Fault(end));
    }
    let Some(target) = to_target(suffixed(alloc, primary, suffixes)?) else {
        return Err(Refusal::Fault(end));
    };
    read_update(alloc, tokens, end, target)
}
