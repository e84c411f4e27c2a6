//! The grammar of label expressions, one function a rule.
ghost use Rattle.std.specs.Prelude.{◌≡◌, ◌+◌, ◌≤◌, ◌<◌, ℕ, ◌∷◌, List, Bool, Some, length, map, MatchOption, IfOk, IfErr};
ghost use Rattle.model_run.specs.LabelTokens as tokens;
ghost use Rattle.model_run.specs.Labels.{atom, negation, conjunction, disjunction, behind_implies, behind_iff, level, level_within, closed, Reading, Read, and_then, place_of, expression, label_fits, Implies, Iff, And, Or};
ghost use Rattle.label_expr.specs.declared.refusal.LabelRefusal.TheVariants.{Fault};
ghost use Rattle.label_expr.specs.Conditions.{formula, joined, negated, fits};
ghost use Rattle.label_expr.specs.FirstBad.{TellsFirstBad};
ghost use Rattle.label_expr.specs.Readings.{sign_of, seen, inside, Reads, IsRefusal, IsSaid, BeginsWith, BeginsWithName, IsBehind, IsBehindName};

use crate::condition::{Condition, LabelExpr};
use crate::lexer::spots;
use crate::refusal::LabelRefusal;
use crate::token::{Sign, Spot, Token};
use model_text::Text;
use sqlite_items::{Boxed, Items};
use std::alloc::{AllocError, Global};

/// So many parentheses may be open inside each other.
const MOST_OPEN: u32 = 64;

/// What a label says. Calls go as deep as parentheses are open, which are 64 at most.
///
/// `Fault` comes exactly where the text is no label expression, with the place of its first bad token: those before it
/// begin some label, and with this one they begin none (`first`). `Memory` comes only where the memory was refused.
pub fn parse(alloc: Global, text: &[u8]) -> Result<LabelExpr, LabelRefusal>
    ensures says { IfOk result (λ expr. IsSaid (expression text.now) expr) }
    ensures refused { IfErr result (λ refusal. IsRefusal (expression text.now) refusal) }
    ensures first { IfErr result (TellsFirstBad text.now) }
    ensures fits { IfOk result (λ expr. (labels : List (List ℕ)) → fits labels expr ≡ label_fits labels (Some text.now)) }
{
    let spots = spots(alloc, text)?;
    let parser = Parser {
        alloc,
        length: text.len() as u64,
    };
    let (condition, rest) = parser.level(MOST_OPEN, spots.as_slice())?;
    if !rest.is_empty() {
        return Err(parser.fault(rest));
    }
    Ok(LabelExpr::Where(condition))
}

/// The tokens behind this sign, where they begin with it.
fn behind(spots: &[Spot], sign: Sign) -> Option<&[Spot]>
    ensures { MatchOption result (BeginsWith (sign_of sign) (seen spots.now) → ⊥) (λ rest. IsBehind sign spots.now rest.now) }
{
    let Some((first, rest)) = spots.split_first() else {
        return None;
    };
    if first.token.is(sign) {
        return Some(rest);
    }
    None
}

/// The name that tokens begin with, and the tokens behind it.
fn name(spots: &[Spot]) -> Option<(&Text, &[Spot])>
    ensures { MatchOption result (BeginsWithName (seen spots.now) → ⊥) (λ read. IsBehindName read.0.now spots.now read.1.now) }
{
    let Some((first, rest)) = spots.split_first() else {
        return None;
    };
    match &first.token {
        Token::Name(name) => Some((name, rest)),
        Token::Sign(_) => None,
    }
}

/// How many `!` tokens begin with, and the tokens behind these.
fn negations(spots: &[Spot]) -> (usize, &[Spot])
    ensures signs { (go : List tokens.Spot → List tokens.Spot → Reading) (n : ℕ) → negation go n (seen spots.now) ≡ and_then (atom go n (seen result.1.now)) (λ f. Read (negated result.0 f)) }
    ensures no_longer { length result.1.now ≤ length spots.now }
{
    let mut rest = spots;
    let mut signs = 0;
    'signs: while let Some(next) = behind(rest, Sign::Not) {
        rest = next;
        signs += 1;
    }
    (signs, rest)
}

#[derive(Clone, Copy)]
struct Parser {
    alloc: Global,
    /// How many bytes the text has.
    length: u64,
}

impl Parser {
    /// The fault where these tokens should not begin.
    fn fault(&self, spots: &[Spot]) -> LabelRefusal
        ensures { result ≡ Fault (place_of self.now.length (seen spots.now)) }
    {
        match spots.first() {
            Some(spot) => LabelRefusal::Fault { at: spot.at },
            None => LabelRefusal::Fault { at: self.length },
        }
    }

    /// `a -> b`, `a <-> b`, or both, each at most once.
    #[cycle(parser)]
    fn level<'a>(
        &self,
        left: u32,
        spots: &'a [Spot],
    ) -> Result<(Condition, &'a [Spot]), LabelRefusal>
        ensures reads { (n : ℕ) → length spots.now ≤ n → Reads self.now.length (level (inside left n) n (seen spots.now)) result }
        ensures shorter { IfOk result (λ read. length read.1.now < length spots.now) }
    {
        let (first, rest) = self.disjunction(left, spots)?;
        if let Some(next) = behind(rest, Sign::Implies) {
            let (second, rest) = self.disjunction(left, next)?;
            let implied = self.implies(first, second)?;
            return self.behind_implies(left, implied, rest);
        }
        if let Some(next) = behind(rest, Sign::Iff) {
            let (second, rest) = self.disjunction(left, next)?;
            return self.behind_iff(left, first, second, rest);
        }
        Ok((first, rest))
    }

    /// What may stand behind `a -> b`: `<-> c`.
    #[cycle(parser)]
    fn behind_implies<'a>(
        &self,
        left: u32,
        implied: Condition,
        spots: &'a [Spot],
    ) -> Result<(Condition, &'a [Spot]), LabelRefusal>
        ensures reads { (n : ℕ) → length spots.now ≤ n → Reads self.now.length (behind_implies (inside left n) n (formula implied) (seen spots.now)) result }
        ensures shorter { IfOk result (λ read. length read.1.now ≤ length spots.now) }
    {
        let Some(next) = behind(spots, Sign::Iff) else {
            return Ok((implied, spots));
        };
        let (last, rest) = self.disjunction(left, next)?;
        Ok((self.iff(implied, last)?, rest))
    }

    /// What may stand behind `a <-> b`: `-> c`, which belongs to `b`.
    #[cycle(parser)]
    fn behind_iff<'a>(
        &self,
        left: u32,
        first: Condition,
        second: Condition,
        spots: &'a [Spot],
    ) -> Result<(Condition, &'a [Spot]), LabelRefusal>
        ensures reads { (n : ℕ) → length spots.now ≤ n → Reads self.now.length (behind_iff (inside left n) n (formula first) (formula second) (seen spots.now)) result }
        ensures shorter { IfOk result (λ read. length read.1.now ≤ length spots.now) }
    {
        let Some(next) = behind(spots, Sign::Implies) else {
            return Ok((self.iff(first, second)?, spots));
        };
        let (last, rest) = self.disjunction(left, next)?;
        let implied = self.implies(second, last)?;
        Ok((self.iff(first, implied)?, rest))
    }

    /// `a || b || c`
    #[cycle(parser)]
    fn disjunction<'a>(
        &self,
        left: u32,
        spots: &'a [Spot],
    ) -> Result<(Condition, &'a [Spot]), LabelRefusal>
        ensures reads { (n : ℕ) → length spots.now ≤ n → Reads self.now.length (disjunction (inside left n) n (seen spots.now)) result }
        ensures shorter { IfOk result (λ read. length read.1.now < length spots.now) }
    {
        let (first, mut rest) = self.conjunction(left, spots)?;
        let mut more = Items::new(self.alloc);
        'operands: while let Some(next) = behind(rest, Sign::Or) {
            let (operand, then) = self.conjunction(left, next)?;
            more.push(operand)?;
            rest = then;
        }
        Ok((self.any_of(first, more)?, rest))
    }

    /// `a && b && c`
    #[cycle(parser)]
    fn conjunction<'a>(
        &self,
        left: u32,
        spots: &'a [Spot],
    ) -> Result<(Condition, &'a [Spot]), LabelRefusal>
        ensures reads { (n : ℕ) → length spots.now ≤ n → Reads self.now.length (conjunction (inside left n) n (seen spots.now)) result }
        ensures shorter { IfOk result (λ read. length read.1.now < length spots.now) }
    {
        let (first, mut rest) = self.negation(left, spots)?;
        let mut more = Items::new(self.alloc);
        'operands: while let Some(next) = behind(rest, Sign::And) {
            let (operand, then) = self.negation(left, next)?;
            more.push(operand)?;
            rest = then;
        }
        Ok((self.all_of(first, more)?, rest))
    }

    /// `!!a`
    #[cycle(parser)]
    fn negation<'a>(
        &self,
        left: u32,
        spots: &'a [Spot],
    ) -> Result<(Condition, &'a [Spot]), LabelRefusal>
        ensures reads { (n : ℕ) → length spots.now ≤ n → Reads self.now.length (negation (inside left n) n (seen spots.now)) result }
        ensures shorter { IfOk result (λ read. length read.1.now < length spots.now) }
    {
        let (signs, behind) = negations(spots);
        let (condition, rest) = self.atom(left, behind)?;
        Ok((self.not(signs, condition)?, rest))
    }

    /// A name, or an expression in parentheses, of which so many may still open.
    #[cycle(parser)]
    fn atom<'a>(
        &self,
        left: u32,
        spots: &'a [Spot],
    ) -> Result<(Condition, &'a [Spot]), LabelRefusal>
        ensures reads { (n : ℕ) → length spots.now ≤ n → Reads self.now.length (atom (inside left n) n (seen spots.now)) result }
        ensures shorter { IfOk result (λ read. length read.1.now < length spots.now) }
    {
        if let Some((name, rest)) = name(spots) {
            return Ok((Condition::Label(name.clone()?), rest));
        }
        let Some(next) = behind(spots, Sign::Open) else {
            return Err(self.fault(spots));
        };
        if left == 0 {
            return Err(self.fault(spots));
        }
        self.group(left - 1, next)
    }

    /// What stands behind an opening parenthesis, up to its closing one.
    #[cycle(parser)]
    fn group<'a>(
        &self,
        left: u32,
        spots: &'a [Spot],
    ) -> Result<(Condition, &'a [Spot]), LabelRefusal>
        ensures reads { (n : ℕ) → length spots.now ≤ n → Reads self.now.length (closed (level_within left n (seen spots.now))) result }
        ensures shorter { IfOk result (λ read. length read.1.now < length spots.now) }
    {
        let (condition, rest) = self.level(left, spots)?;
        match behind(rest, Sign::Close) {
            Some(rest) => Ok((condition, rest)),
            None => Err(self.fault(rest)),
        }
    }

    fn not(&self, signs: usize, condition: Condition) -> Result<Condition, AllocError>
        ensures { IfOk result (λ made. formula made ≡ negated signs (formula condition)) }
    {
        if signs == 0 {
            return Ok(condition);
        }
        Ok(Condition::Not(signs, Boxed::new(self.alloc, condition)?))
    }

    fn all_of(&self, first: Condition, more: Items<Condition>) -> Result<Condition, AllocError>
        ensures { IfOk result (λ made. formula made ≡ joined And (formula first) (map formula more)) }
    {
        if more.is_empty() {
            return Ok(first);
        }
        Ok(Condition::All(Boxed::new(self.alloc, first)?, more))
    }

    fn any_of(&self, first: Condition, more: Items<Condition>) -> Result<Condition, AllocError>
        ensures { IfOk result (λ made. formula made ≡ joined Or (formula first) (map formula more)) }
    {
        if more.is_empty() {
            return Ok(first);
        }
        Ok(Condition::AnyOf(Boxed::new(self.alloc, first)?, more))
    }

    fn implies(&self, first: Condition, second: Condition) -> Result<Condition, AllocError>
        ensures { IfOk result (λ made. formula made ≡ Implies (formula first) (formula second)) }
    {
        let first = Boxed::new(self.alloc, first)?;
        let second = Boxed::new(self.alloc, second)?;
        Ok(Condition::Implies(first, second))
    }

    fn iff(&self, first: Condition, second: Condition) -> Result<Condition, AllocError>
        ensures { IfOk result (λ made. formula made ≡ Iff (formula first) (formula second)) }
    {
        let first = Boxed::new(self.alloc, first)?;
        let second = Boxed::new(self.alloc, second)?;
        Ok(Condition::Iff(first, second))
    }
}
