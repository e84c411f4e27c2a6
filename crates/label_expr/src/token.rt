ghost use Rattle.std.specs.Prelude.{◌≡◌, ◌≢◌, MatchBool};
ghost use Rattle.label_expr.specs.declared.token.Token.TheVariants as token;
ghost use Rattle.label_expr.specs.Readings.{sign_of, token_of};

use model_text::Text;

/// The signs of label expressions, and what is no name.
#[derive(Clone, Copy, PartialEq, Eq, Debug)]
pub(crate) enum Sign {
    /// `!`
    Not,
    /// `&&`
    And,
    /// `||`
    Or,
    /// `->`
    Implies,
    /// `<->`
    Iff,
    /// `(`
    Open,
    /// `)`
    Close,
    /// A space or a tab, which only separates.
    Blank,
    /// A byte that no token begins with.
    Unknown,
}

/// A token of a label expression.
#[derive(Drop)]
pub(crate) enum Token {
    /// A name, without its double quotes where it has such.
    Name(Text),
    /// A sign, or what is no token.
    Sign(Sign),
}

/// Whether these are one sign.
fn is_same_sign(one: Sign, other: Sign) -> bool
    ensures { MatchBool result (one ≡ other) (one ≢ other) }
{
    if one == other {
        return true;
    }
    false
}

impl Token {
    /// Whether it is this sign.
    pub fn is(&self, sign: Sign) -> bool
        ensures { MatchBool result (self.now ≡ token.Sign sign) (token_of self.now ≡ sign_of sign → ⊥) }
    {
        match self {
            Token::Sign(own) => is_same_sign(*own, sign),
            Token::Name(_) => false,
        }
    }
}

/// A token and the place of its first byte, in bytes from 0.
#[derive(Drop)]
pub(crate) struct Spot {
    pub token: Token,
    pub at: u64,
}
