//! The words that are no names.
ghost use Rattle.std.specs.Prelude.{◌≡◌, map, MatchOption};
ghost use Rattle.std.specs.Str.{bytes_eq};
ghost use Rattle.model_syntax.specs.declared.word.Word.{Word};
ghost use Rattle.model_syntax.specs.Spelling.{word_text};
ghost use Rattle.groovy_lex.specs.Words.{lookup};

use model_syntax::Word;

/// The words by their bytes: those with a rule in the grammar, and then those without one.
const WORDS: [(&[u8], Word); 37] = [
    (b"def", Word::Def),
    (b"void", Word::Void),
    (b"if", Word::If),
    (b"else", Word::Else),
    (b"while", Word::While),
    (b"for", Word::For),
    (b"in", Word::In),
    (b"return", Word::Return),
    (b"break", Word::Break),
    (b"continue", Word::Continue),
    (b"try", Word::Try),
    (b"catch", Word::Catch),
    (b"finally", Word::Finally),
    (b"throw", Word::Throw),
    (b"new", Word::New),
    (b"true", Word::True),
    (b"false", Word::False),
    (b"null", Word::Null),
    (b"import", Word::Import),
    (b"package", Word::Package),
    (b"class", Word::Class),
    (b"interface", Word::Interface),
    (b"enum", Word::Enum),
    (b"trait", Word::Trait),
    (b"extends", Word::Extends),
    (b"implements", Word::Implements),
    (b"static", Word::Static),
    (b"final", Word::Final),
    (b"switch", Word::Switch),
    (b"case", Word::Case),
    (b"default", Word::Default),
    (b"do", Word::Do),
    (b"assert", Word::Assert),
    (b"as", Word::As),
    (b"instanceof", Word::InstanceOf),
    (b"this", Word::This),
    (b"super", Word::Super),
];

/// Whether the two are the same bytes.
fn is_text(text: &[u8], word: &[u8]) -> bool
    ensures { result ≡ bytes_eq text.now word.now }
{
    text == word
}

/// The word of the first row with these bytes.
fn lookup(mut table: &[(&[u8], Word)], text: &[u8]) -> Option<Word>
    ensures { result ≡ lookup (map (λ row. (row.0.now, row.1)) table.entry.now) text.now }
{
    'rows: while let [row, rest @ ..] = table {
        if is_text(text, row.0) {
            return Some(row.1);
        }
        table = rest;
    }
    None
}

/// The word of these bytes, and `None` where they are no word.
pub(crate) fn word_of(text: &[u8]) -> Option<Word>
    ensures { MatchOption result ((w : Word) → text.now ≡ word_text w → ⊥) (λ w. text.now ≡ word_text w) }
{
    lookup(&WORDS, text)
}
