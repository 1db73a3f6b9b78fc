//! Steps over tokens.
ghost use Rattle.std.specs.Prelude.{◌≡◌, ◌&&◌, [], ◌∷◌, ◌<◌, length, IsTrue, false, IfOk, IfErr, IfSome, MatchOption};
ghost use Rattle.flow_model.specs.Lexeme.{lexeme, lexemes};
ghost use Rattle.flow_model.specs.Grammar.{marked, named, type_tokens, type_of, whole, is_patch_id};
ghost use Rattle.flow_syntax.specs.Machine as m;
ghost use Rattle.flow_syntax.specs.Parsing.{Parsed, StopsAt, Lacks, LacksMark, IsNumber, IsPatchId, IsDeprecate, begins_deprecate, is_deprecate, is_text};

use crate::fault::Stop;
use flow_base::syntax::TypeAt;
use flow_base::text::{Key, Text};
use flow_base::token::{Mark, Token, Word};
use flow_base::value::{Kind, ValueFault};
use std::alloc::{AllocError, Global};

fn first_and_rest(tokens: &[Token]) -> Option<(&Token, &[Token])>
    ensures { MatchOption result (tokens.now ≡ []) (λ x. tokens.now ≡ x.0.now ∷ x.1.now) }
{
    let [first, rest @ ..] = tokens else {
        return None;
    };
    Some((first, rest))
}

/// The first token and what follows it.
pub fn next(tokens: &[Token]) -> Option<(&Token, &[Token])>
    ensures found { MatchOption result (lexemes tokens.now ≡ []) (λ x. lexemes tokens.now ≡ lexeme x.0.now ∷ lexemes x.1.now) }
    ensures shorter { IfSome result (λ x. length x.1.now < length tokens.now) }
{
    match first_and_rest(tokens) {
        None => None,
        Some((first, rest)) => Some((first, rest)),
    }
}

/// The mark that the tokens begin with, its place and what follows it.
pub fn mark(tokens: &[Token]) -> Option<(usize, Mark, &[Token])>
    ensures found { MatchOption result (LacksMark (lexemes tokens.now)) (λ x. lexemes tokens.now ≡ marked x.0 x.1 ∷ lexemes x.2.now) }
    ensures shorter { IfSome result (λ x. length x.2.now < length tokens.now) }
{
    let (first, rest) = next(tokens)?;
    match &first.word {
        Word::Mark(mark) => Some((first.from, *mark, rest)),
        _ => None,
    }
}

/// What follows the mark, and its place, if the tokens begin with it.
pub fn eat(tokens: &[Token], wanted: Mark) -> Option<(usize, &[Token])>
    ensures found { MatchOption result (Lacks wanted (lexemes tokens.now)) (λ x. lexemes tokens.now ≡ marked x.0 wanted ∷ lexemes x.1.now) }
    ensures shorter { IfSome result (λ x. length x.1.now < length tokens.now) }
{
    let (at, found, rest) = mark(tokens)?;
    if found == wanted {
        Some((at, rest))
    } else {
        None
    }
}

/// The place of the mark, which has to stand here, and what follows it.
pub fn expect(tokens: &[Token], wanted: Mark) -> Result<(usize, &[Token]), Stop>
    ensures ok { IfOk result (λ x. Parsed (m.sign wanted) (λ at. marked at wanted ∷ []) (λ at. at) (lexemes tokens.now) x.0
        (lexemes x.1.now)) }
    ensures shorter { IfOk result (λ x. length x.1.now < length tokens.now) }
    ensures err { IfErr result (λ e. StopsAt (m.sign wanted) (lexemes tokens.now) e) }
{
    match eat(tokens, wanted) {
        Some(found) => Ok(found),
        None => Err(Stop::Unexpected(tokens.len())),
    }
}

/// A name with its place, and what follows it.
pub fn name(alloc: Global, tokens: &[Token]) -> Result<(usize, Key, &[Token]), Stop>
    ensures ok { IfOk result (λ x. lexemes tokens.now ≡ named x.0 x.1 ∷ lexemes x.2.now) }
    ensures shorter { IfOk result (λ x. length x.2.now < length tokens.now) }
    ensures err { IfErr result (λ e. StopsAt m.name (lexemes tokens.now) e) }
{
    let Some((first, rest)) = next(tokens) else {
        return Err(Stop::Unexpected(0));
    };
    match &first.word {
        Word::Name(name) => Ok((first.from, name.copy(alloc)?, rest)),
        _ => Err(Stop::Unexpected(tokens.len())),
    }
}

/// What a number says as a count. A token's number is never negative.
fn whole(number: i64) -> u64
    ensures { result ≡ whole number }
{
    if number < 0 { 0 } else { number as u64 }
}

/// A number with its place, and what follows it.
pub fn number(tokens: &[Token]) -> Result<(usize, u64, &[Token]), Stop>
    ensures ok { IfOk result (λ x. IsNumber (lexemes tokens.now) x.0 x.1 (lexemes x.2.now)) }
    ensures shorter { IfOk result (λ x. length x.2.now < length tokens.now) }
    ensures err { IfErr result (λ e. StopsAt m.number (lexemes tokens.now) e) }
{
    let Some((first, rest)) = next(tokens) else {
        return Err(Stop::Unexpected(0));
    };
    match &first.word {
        Word::Int(number) => Ok((first.from, whole(*number), rest)),
        _ => Err(Stop::Unexpected(tokens.len())),
    }
}

/// The text as a patch's id, if it has 1 to 64 bytes.
fn as_patch_id(alloc: Global, text: &Text) -> Result<Option<Key>, AllocError>
    ensures { IfOk result (λ o. MatchOption o (is_patch_id text.now ≡ false) (λ id. (id ≡ text.now) × IsTrue (is_patch_id id))) }
{
    match Key::new(alloc, text.as_str()) {
        Ok(id) => Ok(Some(id)),
        Err(ValueFault::NoMemory(no_memory)) => Err(no_memory.error()),
        Err(ValueFault::NotAValue) => Ok(None),
        Err(ValueFault::TooLong) => Ok(None),
    }
}

/// A patch's id with its place, and what follows it.
pub fn patch_id(alloc: Global, tokens: &[Token]) -> Result<(usize, Key, &[Token]), Stop>
    ensures ok { IfOk result (λ x. IsPatchId (lexemes tokens.now) x.0 x.1 (lexemes x.2.now)) }
    ensures shorter { IfOk result (λ x. length x.2.now < length tokens.now) }
    ensures err { IfErr result (λ e. StopsAt m.patch_id (lexemes tokens.now) e) }
{
    let Some((first, rest)) = next(tokens) else {
        return Err(Stop::Unexpected(0));
    };
    match &first.word {
        Word::Text(text) => {
            let Some(id) = as_patch_id(alloc, text)? else {
                return Err(Stop::Unexpected(tokens.len()));
            };
            Ok((first.from, id, rest))
        }
        _ => Err(Stop::Unexpected(tokens.len())),
    }
}

/// Whether it is the name that a `deprecate` begins with.
fn is_deprecate(word: &Word) -> bool
    ensures { result ≡ is_deprecate word.now }
{
    match word {
        Word::Name(name) => name.as_str() == "deprecate",
        _ => false,
    }
}

fn is_text(word: &Word) -> bool
    ensures { result ≡ is_text word.now }
{
    match word {
        Word::Text(_) => true,
        _ => false,
    }
}

/// Whether they are that name and a text.
fn is_deprecated(name: &Word, id: &Word) -> bool
    ensures { result ≡ is_deprecate name.now && is_text id.now }
{
    is_deprecate(name) && is_text(id)
}

/// The place of the name that a `deprecate` begins with, and what follows it, if a text does. Any other statement may begin
/// with that name, so it is no keyword.
pub fn deprecate(tokens: &[Token]) -> Option<(usize, &[Token])>
    ensures found { MatchOption result (begins_deprecate (lexemes tokens.now) ≡ false)
        (λ x. IsDeprecate (lexemes tokens.now) x.0 (lexemes x.1.now)) }
    ensures shorter { IfSome result (λ x. length x.1.now < length tokens.now) }
{
    let (first, rest) = next(tokens)?;
    let (second, _) = next(rest)?;
    if is_deprecated(&first.word, &second.word) {
        Some((first.from, rest))
    } else {
        None
    }
}

/// A type with its place, and what follows it.
pub fn kind(tokens: &[Token]) -> Result<(TypeAt, &[Token]), Stop>
    ensures ok { IfOk result (λ x. Parsed m.type_ type_tokens type_of (lexemes tokens.now) x.0 (lexemes x.1.now)) }
    ensures shorter { IfOk result (λ x. length x.1.now < length tokens.now) }
    ensures err { IfErr result (λ e. StopsAt m.type_ (lexemes tokens.now) e) }
{
    let Some((at, found, rest)) = mark(tokens) else {
        return Err(Stop::Unexpected(tokens.len()));
    };
    match found {
        Mark::Int => {
            let kind = Kind::Int;
            Ok((TypeAt { at, kind }, rest))
        }
        Mark::Text => {
            let kind = Kind::Text;
            Ok((TypeAt { at, kind }, rest))
        }
        _ => Err(Stop::Unexpected(tokens.len())),
    }
}
