ghost use Rattle.std.specs.Prelude.{Some};
ghost use Rattle.model_syntax.specs.FaultTexts.{fault_text};

use std::alloc::AllocError;
use std::fmt;

/// What is wrong with a script at the place of its first fault. Its text is what users see.
#[derive(Clone, Copy, PartialEq, Eq, Debug)]
pub enum FaultKind {
    /// `not UTF-8`: a byte that is of no character, also where it cuts an escape or a `$` off.
    NotUtf8,
    /// `unexpected character`: one that is of no token.
    UnexpectedCharacter,
    /// `unended text`, at the opening of the innermost text, also where the end of the script cuts an escape or a `$` off.
    UnendedText,
    /// `unended comment`, at its opening.
    UnendedComment,
    /// `bad escape`, at the backslash, or at a `$` that begins no expression.
    BadEscape,
    /// `bad number`, at its first digit.
    BadNumber,
    /// `nesting over 128`, at the 129th open bracket.
    NestingOver128,
    /// `unexpected token`, at a token with which no script goes on.
    UnexpectedToken,
    /// `unexpected end`, behind the last byte.
    UnexpectedEnd,
    /// `name already declared`, at the second declaration or parameter of a name in one scope.
    NameAlreadyDeclared,
    /// `function already declared`, at the second name.
    FunctionAlreadyDeclared,
    /// `break outside a loop`, at the word.
    BreakOutsideLoop,
    /// `continue outside a loop`, at the word.
    ContinueOutsideLoop,
}

impl fmt::Display for FaultKind {
    ghost output = { λ kind. Some (fault_text kind) };

    fn fmt<W: fmt::Write>(&self, f: &mut fmt::Formatter<W>) -> fmt::Result {
        match self {
            FaultKind::NotUtf8 => f.write_str("not UTF-8"),
            FaultKind::UnexpectedCharacter => f.write_str("unexpected character"),
            FaultKind::UnendedText => f.write_str("unended text"),
            FaultKind::UnendedComment => f.write_str("unended comment"),
            FaultKind::BadEscape => f.write_str("bad escape"),
            FaultKind::BadNumber => f.write_str("bad number"),
            FaultKind::NestingOver128 => f.write_str("nesting over 128"),
            FaultKind::UnexpectedToken => f.write_str("unexpected token"),
            FaultKind::UnexpectedEnd => f.write_str("unexpected end"),
            FaultKind::NameAlreadyDeclared => f.write_str("name already declared"),
            FaultKind::FunctionAlreadyDeclared => f.write_str("function already declared"),
            FaultKind::BreakOutsideLoop => f.write_str("break outside a loop"),
            FaultKind::ContinueOutsideLoop => f.write_str("continue outside a loop"),
        }
    }
}

/// The first fault of a script: its line, counted from 1 by LF, its column, counted from 1 in characters, and its kind.
#[derive(Clone, Copy, PartialEq, Eq, Debug)]
pub struct ScriptFault {
    pub line: u32,
    pub column: u32,
    pub kind: FaultKind,
}

/// Why a script is not taken.
#[derive(Clone, Copy, PartialEq, Eq, Debug)]
pub enum ScriptRefusal {
    /// The memory was refused.
    Memory,
    /// It has more than 1,048,576 bytes.
    TooLong,
    /// It has this first fault.
    Fault(ScriptFault),
}

impl From<AllocError> for ScriptRefusal {
    ghost use Rattle.std.specs.Prelude.{◌≡◌};
    ghost use Rattle.model_syntax.specs.declared.fault.ScriptRefusal.TheVariants.{Memory};

    ghost from_gives = { λ _ e. e ≡ Memory };

    fn from(_: AllocError) -> ScriptRefusal {
        ScriptRefusal::Memory
    }
}
