//! What is open at a place of a script: brackets, and texts around them.
ghost use Rattle.std.specs.Prelude.{◌≡◌, ◌+◌, ◌<◌, [], ◌∷◌, true, MatchOption, OnOk, length};
ghost use Rattle.model_syntax.specs.TextForms.{quotes, quote, is_triple, is_double};
ghost use Rattle.model_syntax.specs.OpenBrackets.{depth, innermost_text, holds_newlines, ends_statements, closed, text, IsCode};
ghost use Rattle.groovy_lex.specs.OpenStack.{form_of, open_of, opens, IsBracket, text_of, IsLineText};

use std::alloc::{AllocError, Global};
use std::marker::Model;

/// The forms of texts (Groovy): `'..'`, `'''..'''`, `".."` and `"""..."""`.
#[derive(Clone, Copy, PartialEq, Eq, Debug)]
pub(crate) enum TextForm {
    Single,
    TripleSingle,
    Double,
    TripleDouble,
}

impl TextForm {
    /// The byte of its quotes.
    pub(crate) fn quote(self) -> u8
        ensures { result ≡ quote (form_of self) }
    {
        match self {
            TextForm::Single | TextForm::TripleSingle => b'\'',
            TextForm::Double | TextForm::TripleDouble => b'"',
        }
    }

    /// Whether it holds newlines.
    pub(crate) fn is_triple(self) -> bool
        ensures { result ≡ is_triple (form_of self) }
    {
        match self {
            TextForm::TripleSingle | TextForm::TripleDouble => true,
            TextForm::Single | TextForm::Double => false,
        }
    }

    /// Whether it has expressions.
    pub(crate) fn is_double(self) -> bool
        ensures { result ≡ is_double (form_of self) }
    {
        match self {
            TextForm::Double | TextForm::TripleDouble => true,
            TextForm::Single | TextForm::TripleSingle => false,
        }
    }

    /// How many bytes its quotes are.
    pub(crate) fn quotes_len(self) -> usize
        ensures { result ≡ length (quotes (form_of self)) }
    {
        if self.is_triple() { 3 } else { 1 }
    }
}

/// The most brackets that may be open at one place: this product's own limit.
pub(crate) const MOST_BRACKETS: usize = 128;

/// Something that is open.
#[derive(Clone, Copy, PartialEq, Eq, Debug)]
pub(crate) enum Opened {
    /// `(`
    Paren,
    /// `[`
    Bracket,
    /// `{`
    Brace,
    /// `${` in a text
    Expression,
    /// A text with expressions, and where it opened.
    Text(TextForm, usize),
}

/// What is open, with the innermost last, and how many of them are brackets. A contract sees the list, with the innermost
/// first.
#[derive(Drop)]
pub(crate) struct OpenStack {
    items: Vec<Opened>,
    brackets: usize,
}

impl Model for OpenStack {
    ghost use Rattle.std.specs.Prelude.{◌≡◌, List};
    ghost use Rattle.model_syntax.specs.OpenBrackets.{Open, depth};
    ghost use Rattle.groovy_lex.specs.OpenStack.{opens};

    ghost Value = { List Open };

    ghost view = { λ stack. opens stack.items.items };

    ghost invariant = { λ stack. stack.brackets ≡ depth (opens stack.items.items) };
}

#[tactic(auto, using(crate::proofs::OpenLemmas::opens_snoc), unfolding(model_syntax::specs::OpenBrackets::depth))]
impl OpenStack {
    /// Nothing is open.
    pub(crate) fn new(alloc: Global) -> OpenStack
        ensures { result ≡ [] }
    {
        OpenStack {
            items: Vec::new(alloc),
            brackets: 0,
        }
    }

    /// How many brackets are open.
    pub(crate) fn depth(&self) -> usize
        ensures { result ≡ depth self.now }
    {
        self.brackets
    }

    /// Opens a bracket.
    pub(crate) fn open_bracket(&mut self, bracket: Opened) -> Result<(), AllocError>
        requires bracket { IsBracket bracket }
        requires below { depth self.old < 128 }
        ensures { OnOk result (self.new ≡ open_of bracket ∷ self.old) }
    {
        self.items.push(bracket)?;
        self.brackets += 1;
        Ok(())
    }

    /// Opens a text.
    pub(crate) fn open_text(&mut self, form: TextForm, at: usize) -> Result<(), AllocError>
        ensures { OnOk result (self.new ≡ text (form_of form) at ∷ self.old) }
    {
        self.items.push(Opened::Text(form, at))?;
        Ok(())
    }

    /// Closes the innermost, and nothing where nothing is open.
    pub(crate) fn close(&mut self)
        ensures { self.new ≡ closed self.old }
    {
        match self.items.pop() {
            None => {}
            Some(Opened::Text(_, _)) => {}
            Some(_) => self.brackets -= 1,
        }
    }

    /// The innermost, where it is a text, and where that opened.
    pub(crate) fn text_at_top(&self) -> Option<(TextForm, usize)>
        ensures { MatchOption result (IsCode self.now) (λ t. self.now ≡ text (form_of t.0) t.1 ∷ closed self.now) }
    {
        text_at_end(self.items.as_slice())
    }

    /// Whether a newline may end a statement here.
    pub(crate) fn ends_statements(&self) -> bool
        ensures { result ≡ ends_statements self.now }
    {
        ends_at(self.items.as_slice())
    }

    /// Where the innermost text opened, if it holds no newlines.
    pub(crate) fn line_text(&self) -> Option<usize>
        ensures { MatchOption result (holds_newlines self.now ≡ true) (λ o. IsLineText self.now o) }
    {
        match self.innermost_text() {
            None => None,
            Some((form, opening)) => {
                if form.is_triple() {
                    return None;
                }
                Some(opening)
            }
        }
    }

    /// The innermost text, and where it opened.
    pub(crate) fn innermost_text(&self) -> Option<(TextForm, usize)>
        ensures { innermost_text self.now ≡ text_of result }
    {
        innermost_text_of(self.items.as_slice())
    }
}

/// The last text of these, and where it opened.
#[tactic(auto, using(crate::proofs::OpenLemmas::opens_snoc), unfolding(model_syntax::specs::OpenBrackets::innermost_text))]
fn innermost_text_of(items: &[Opened]) -> Option<(TextForm, usize)>
    ensures { innermost_text (opens items.now) ≡ text_of result }
{
    let mut found = None;
    'items: for item in items {
        if let Opened::Text(form, at) = *item {
            found = Some((form, at));
        }
    }
    found
}

/// The last of these, where it is a text, and where that opened.
fn text_at_end(items: &[Opened]) -> Option<(TextForm, usize)>
    ensures { MatchOption result (IsCode (opens items.now)) (λ t. opens items.now ≡ text (form_of t.0) t.1 ∷ closed (opens items.now)) }
{
    if items.is_empty() {
        return None;
    }
    match items[items.len() - 1] {
        Opened::Text(form, opening) => Some((form, opening)),
        Opened::Paren | Opened::Bracket | Opened::Brace | Opened::Expression => None,
    }
}

/// Whether a newline may end a statement where these are open.
fn ends_at(items: &[Opened]) -> bool
    ensures { result ≡ ends_statements (opens items.now) }
{
    if items.is_empty() {
        return true;
    }
    match items[items.len() - 1] {
        Opened::Brace => true,
        Opened::Paren | Opened::Bracket | Opened::Expression | Opened::Text(_, _) => false,
    }
}
