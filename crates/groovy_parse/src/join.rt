//! The faults of tokens, syntax and scopes, joined to a script's first.
ghost use Rattle.std.specs.Prelude.{◌≡◌, ◌<◌, ◌↔◌, length, IfOk, IfErr, Err};
ghost use Rattle.model_syntax.specs.declared.fault.ScriptFault.{ScriptFault};
ghost use Rattle.model_syntax.specs.declared.fault.ScriptRefusal.TheVariants.{Fault, TooLong};
ghost use Rattle.model_syntax.specs.declared.tree.Tree.{Tree};
ghost use Rattle.model_syntax.specs.Tokens.{Lexed, LexicalFault};
ghost use Rattle.model_syntax.specs.Scopes.{fault_at};
ghost use Rattle.model_syntax.specs.FirstFault.{SyntaxPlace, FirstFault, IsFaultless};
ghost use Rattle.groovy_parse.specs.Refusals.{script_limit, IsRefused};

use crate::script::parse_tokens;
use groovy_expr::Refusal;
use groovy_lex::{LexRefusal, lex, place_of};
use model_syntax::{FaultKind, Place, ScriptFault, ScriptRefusal, Token, Tree};
use scope_check::check;
use std::alloc::Global;

/// The most bytes that a script may have.
pub const SCRIPT_LIMIT: usize = 1_048_576;

/// The tree of a script.
///
/// # Errors
///
/// `TooLong` exactly where the script has more than 1,048,576 bytes, `Fault` with its first fault where it has one, and
/// `Memory` where the memory was refused.
pub fn parse(alloc: Global, script: &[u8]) -> Result<Tree, ScriptRefusal>
    ensures found { IfOk result (λ tree. IsFaultless script.now tree) }
    ensures only { IfOk result (λ tree. (other : Tree) → IsFaultless script.now other → other ≡ tree) }
    ensures fault { (f : ScriptFault) → result ≡ Err (Fault f) → FirstFault script.now f }
    ensures long { (result ≡ Err TooLong) ↔ (script_limit < length script.now) }
{
    if script.len() > SCRIPT_LIMIT {
        return Err(ScriptRefusal::TooLong);
    }
    parse_short(alloc, script)
}

/// The tree of a script, whatever its length.
fn parse_short(alloc: Global, script: &[u8]) -> Result<Tree, ScriptRefusal>
    ensures found { IfOk result (λ tree. IsFaultless script.now tree) }
    ensures refused { IfErr result (IsRefused script.now) }
{
    match lex(alloc, script) {
        Ok(tokens) => parse_lexed(alloc, script, tokens.as_slice()),
        Err(LexRefusal::Memory) => Err(ScriptRefusal::Memory),
        Err(LexRefusal::Fault { before, at, kind }) => {
            Err(lexical_refusal(alloc, script, before.as_slice(), at, kind))
        }
    }
}

/// The tree of a script that has these tokens.
fn parse_lexed(alloc: Global, script: &[u8], tokens: &[Token]) -> Result<Tree, ScriptRefusal>
    requires { Lexed script.now tokens.now }
    ensures found { IfOk result (λ tree. IsFaultless script.now tree) }
    ensures refused { IfErr result (IsRefused script.now) }
{
    match parse_tokens(alloc, tokens) {
        Ok(tree) => {
            check(alloc, &tree)?;
            Ok(tree)
        }
        Err(Refusal::Memory) => Err(ScriptRefusal::Memory),
        Err(Refusal::Fault(token)) => Err(ScriptRefusal::Fault(syntax_fault(
            script, tokens, token,
        ))),
    }
}

/// The syntax fault: at a token, or behind the last one at the end of the script.
fn syntax_fault(script: &[u8], tokens: &[Token], token: usize) -> ScriptFault
    requires lexed { Lexed script.now tokens.now }
    requires here { SyntaxPlace tokens.now token }
    ensures { FirstFault script.now result }
{
    match tokens.get(token) {
        Some(token) => fault_at(token.place, FaultKind::UnexpectedToken),
        None => fault_at(place_of(script, script.len()), FaultKind::UnexpectedEnd),
    }
}

/// Why a script is refused that has this lexical fault, with these tokens before it.
fn lexical_refusal(
    alloc: Global,
    script: &[u8],
    before: &[Token],
    at: usize,
    kind: FaultKind,
) -> ScriptRefusal
    requires { LexicalFault script.now kind at before.now }
    ensures { IsRefused script.now result }
{
    match parse_tokens(alloc, before) {
        Ok(_) => ScriptRefusal::Fault(fault_at(place_of(script, at), kind)),
        Err(Refusal::Memory) => ScriptRefusal::Memory,
        Err(Refusal::Fault(token)) => {
            ScriptRefusal::Fault(earlier_fault(script, before, token, at, kind))
        }
    }
}

/// The syntax fault where it is at a token before the lexical fault, and else the lexical fault.
fn earlier_fault(
    script: &[u8],
    before: &[Token],
    token: usize,
    at: usize,
    kind: FaultKind,
) -> ScriptFault
    requires lexical { LexicalFault script.now kind at before.now }
    requires here { SyntaxPlace before.now token }
    ensures { FirstFault script.now result }
{
    match before.get(token) {
        Some(token) => fault_at(token.place, FaultKind::UnexpectedToken),
        None => fault_at(place_of(script, at), kind),
    }
}

/// A fault of this kind at this place.
fn fault_at(place: Place, kind: FaultKind) -> ScriptFault
    ensures { result ≡ fault_at place kind }
{
    ScriptFault {
        line: place.line,
        column: place.column,
        kind,
    }
}
