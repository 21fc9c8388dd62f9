ghost use Rattle.std.specs.Prelude.{◌≡◌};
ghost use Rattle.spec_reader.specs.Expressions.{keyword_named};

/// A word that an expression begins with and that is no function.
#[derive(Clone, Copy)]
pub enum Keyword {
    Quote,
    If,
    Cond,
    And,
    Or,
    Let,
    LetStar,
}

/// The keyword that a name in lower case is.
pub fn keyword_named(name: &[u8]) -> Option<Keyword>
    ensures { result ≡ keyword_named name.now }
{
    if name == b"quote".as_slice() {
        Some(Keyword::Quote)
    } else if name == b"if".as_slice() {
        Some(Keyword::If)
    } else if name == b"cond".as_slice() {
        Some(Keyword::Cond)
    } else if name == b"and".as_slice() {
        Some(Keyword::And)
    } else if name == b"or".as_slice() {
        Some(Keyword::Or)
    } else if name == b"let".as_slice() {
        Some(Keyword::Let)
    } else if name == b"let*".as_slice() {
        Some(Keyword::LetStar)
    } else {
        None
    }
}
