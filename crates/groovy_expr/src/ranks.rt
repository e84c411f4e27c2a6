ghost use Rattle.std.specs.Prelude.{◌≡◌, ◌<◌, ℕ, length, MatchOption, Some, Bool, true};
ghost use Rattle.model_syntax.specs.Operators.{rank_chain, rank_pair, rank_terms, rank_unary, rank_whole, pair_operator, terms_operator, prefix_of};
ghost use Rattle.model_syntax.specs.Stream.{Sees};
ghost use Rattle.model_syntax.specs.Grammar.{Prefixes};
ghost use Rattle.groovy_expr.specs.Answers.{kinds, Reads};
ghost use Rattle.groovy_expr.specs.Stops.{stops_prefixes};
ghost use Rattle.groovy_expr.specs.Ranks.{chain_of, pair_of, rank_of, terms_of};
ghost use Rattle.groovy_expr.specs.Readers.{ReadsExpr, Answer};

use crate::levels::{ChainRank, ExprRank, PairRank, TermsRank, prefix_of};
use crate::primary::read_primary;
use crate::reading::{peek, sees};
use crate::refusal::Refusal;
use crate::suffixes::read_suffixes;
use crate::trees::{chained, chosen, joined, prefixed, suffixed};
use model_syntax::{Choice, Expr, Operand, Operator, Prefix, Sign, Token, TokenKind};
use sqlite_items::Items;
use std::alloc::Global;

/// An expression of this rank.
#[cycle(parser)]
pub fn read_rank(
    alloc: Global,
    tokens: &[Token],
    at: usize,
    rank: ExprRank,
) -> Result<(Expr, usize), Refusal>
    ensures { ReadsExpr (rank_of rank) tokens.now at result }
{
    match rank {
        ExprRank::Whole => read_expr(alloc, tokens, at),
        ExprRank::Chain(level) => read_chain(alloc, tokens, at, level),
        ExprRank::Pair(level) => read_pair(alloc, tokens, at, level),
        ExprRank::Terms(level) => read_terms(alloc, tokens, at, level),
        ExprRank::Unary => read_unary(alloc, tokens, at),
    }
}

/// A whole expression.
#[cycle(parser)]
pub fn read_expr(alloc: Global, tokens: &[Token], at: usize) -> Result<(Expr, usize), Refusal>
    ensures { ReadsExpr rank_whole tokens.now at result }
{
    let mut choices = Items::new(alloc);
    let mut from = at;
    'choices: loop {
        let (value, next) = read_chain(alloc, tokens, from, ChainRank::Or)?;
        if sees(tokens, next, Sign::Elvis) {
            choices.push(Choice::IfSet(value))?;
            from = next + 1;
            continue;
        }
        if !sees(tokens, next, Sign::Question) {
            return Ok((chosen(alloc, choices, value)?, next));
        }
        let (second, colon) = read_chain(alloc, tokens, next + 1, ChainRank::Or)?;
        if !sees(tokens, colon, Sign::Colon) {
            return Err(Refusal::Fault(colon));
        }
        choices.push(Choice::IfTrue(value, second))?;
        from = colon + 1;
    }
}

/// Operands with `||` or `&&` between them.
#[cycle(parser)]
pub fn read_chain(
    alloc: Global,
    tokens: &[Token],
    at: usize,
    level: ChainRank,
) -> Result<(Expr, usize), Refusal>
    ensures { ReadsExpr (rank_chain (chain_of level)) tokens.now at result }
{
    let (first, next) = read_rank(alloc, tokens, at, level.within())?;
    let mut end = next;
    let mut others = Items::new(alloc);
    'operands: while sees(tokens, end, level.sign()) {
        let (operand, next) = read_rank(alloc, tokens, end + 1, level.within())?;
        others.push(operand)?;
        end = next;
    }
    Ok((chained(alloc, level, first, others)?, end))
}

/// The operator of this rank that stands here.
fn pair_operator_at(tokens: &[Token], at: usize, level: PairRank) -> Option<Operator>
    ensures { MatchOption result ((s : Sign) (o : Operator) → Sees (kinds tokens.now) at s → pair_operator (pair_of level) s ≡ Some o → ⊥) (λ o. (s : Sign) × Sees (kinds tokens.now) at s × (pair_operator (pair_of level) s ≡ Some o) × (at < length tokens.now)) }
{
    match peek(tokens, at) {
        Some(TokenKind::Sign(sign)) => level.operator(*sign),
        _ => None,
    }
}

/// The operator of this rank that stands here.
fn terms_operator_at(tokens: &[Token], at: usize, level: TermsRank) -> Option<Operator>
    ensures { MatchOption result ((s : Sign) (o : Operator) → Sees (kinds tokens.now) at s → terms_operator (terms_of level) s ≡ Some o → ⊥) (λ o. (s : Sign) × Sees (kinds tokens.now) at s × (terms_operator (terms_of level) s ≡ Some o) × (at < length tokens.now)) }
{
    match peek(tokens, at) {
        Some(TokenKind::Sign(sign)) => level.operator(*sign),
        _ => None,
    }
}

/// The sign before an operand that stands here.
fn prefix_at(tokens: &[Token], at: usize) -> Option<Prefix>
    ensures { MatchOption result ((s : Sign) (p : Prefix) → Sees (kinds tokens.now) at s → prefix_of s ≡ Some p → ⊥) (λ p. (s : Sign) × Sees (kinds tokens.now) at s × (prefix_of s ≡ Some p) × (at < length tokens.now)) }
{
    match peek(tokens, at) {
        Some(TokenKind::Sign(sign)) => prefix_of(*sign),
        _ => None,
    }
}

/// One operand, or two with an operator of this rank between them.
#[cycle(parser)]
pub fn read_pair(
    alloc: Global,
    tokens: &[Token],
    at: usize,
    level: PairRank,
) -> Result<(Expr, usize), Refusal>
    ensures { ReadsExpr (rank_pair (pair_of level)) tokens.now at result }
{
    let (first, middle) = read_rank(alloc, tokens, at, level.within())?;
    let Some(operator) = pair_operator_at(tokens, middle, level) else {
        return Ok((first, middle));
    };
    let (value, end) = read_rank(alloc, tokens, middle + 1, level.within())?;
    let mut others = Items::new(alloc);
    others.push(Operand { operator, value })?;
    Ok((joined(alloc, first, others)?, end))
}

/// Operands with operators of this rank between them.
#[cycle(parser)]
pub fn read_terms(
    alloc: Global,
    tokens: &[Token],
    at: usize,
    level: TermsRank,
) -> Result<(Expr, usize), Refusal>
    ensures { ReadsExpr (rank_terms (terms_of level)) tokens.now at result }
{
    let (first, next) = read_rank(alloc, tokens, at, level.within())?;
    let mut end = next;
    let mut others = Items::new(alloc);
    'operands: while let Some(operator) = terms_operator_at(tokens, end, level) {
        let (value, next) = read_rank(alloc, tokens, end + 1, level.within())?;
        others.push(Operand { operator, value })?;
        end = next;
    }
    Ok((joined(alloc, first, others)?, end))
}

/// The signs before an operand.
fn read_prefixes(
    alloc: Global,
    tokens: &[Token],
    at: usize,
) -> Result<(Items<Prefix>, usize), Refusal>
    ensures { Reads Prefixes stops_prefixes (kinds tokens.now) at result }
{
    let mut prefixes = Items::new(alloc);
    let mut end = at;
    'prefixes: while let Some(prefix) = prefix_at(tokens, end) {
        prefixes.push(prefix)?;
        end += 1;
    }
    Ok((prefixes, end))
}

/// Signs, a primary and its suffixes.
#[cycle(parser)]
pub fn read_unary(alloc: Global, tokens: &[Token], at: usize) -> Result<(Expr, usize), Refusal>
    ensures { ReadsExpr rank_unary tokens.now at result }
{
    let (prefixes, start) = read_prefixes(alloc, tokens, at)?;
    let (primary, next) = read_primary(alloc, tokens, start)?;
    let (suffixes, end) = read_suffixes(alloc, tokens, next)?;
    let operand = suffixed(alloc, primary, suffixes)?;
    Ok((prefixed(alloc, prefixes, operand)?, end))
}
