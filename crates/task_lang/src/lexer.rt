//! The tokens of a text, each cut as long as it can be.
//! This project's own.
ghost use Rattle.std.specs.Prelude.{◌≡◌, length, IfOk, take_while};
ghost use Rattle.rcp_base.specs.Name.{is_name_byte, name_of};
ghost use Rattle.std.specs.Char.{is_ascii_digit};
ghost use Rattle.std.specs.List.{list_all};
ghost use Rattle.task_lang.specs.Tokens as spec;
ghost use Rattle.task_lang.specs.Tokens.{tokens_of, lefts_of};

use crate::token::Token;
use rcp_base::{List, Memory, Name};
use std::alloc::Global;
use std::str;

/// The tokens of a text, in its order, and how many bytes are left where each begins.
pub fn tokens(alloc: Global, text: &[u8]) -> Result<(List<Token>, List<usize>), Memory>
    ensures tokens { IfOk result (λ cut. cut.0 ≡ tokens_of text.now) }
    ensures lefts { IfOk result (λ cut. cut.1 ≡ lefts_of text.now) }
{
    let mut list = List::new(alloc);
    let mut lefts = List::new(alloc);
    let mut rest = text;
    while let Some((first, behind)) = rest.split_first() {
        if is_blank(*first) {
            rest = behind;
        } else {
            let size = tail_len(*first, behind);
            list.push(token_of(&rest[..size + 1]))?;
            lefts.push(rest.len())?;
            rest = &behind[size..];
        }
    }
    Ok((list, lefts))
}

fn is_blank(b: u8) -> bool
    ensures { result ≡ spec.is_blank b }
{
    b == b' ' || b == b'\t' || b == b'\n' || b == b'\r'
}

// How many bytes behind a token's first belong to it.
fn tail_len(first: u8, behind: &[u8]) -> usize
    ensures { result ≡ length (spec.tail_of first behind.now) }
{
    if first.is_ascii_lowercase() {
        name_bytes_len(behind)
    } else if first.is_ascii_digit() {
        digits_len(behind)
    } else if goes_with_equal(first) && behind.starts_with(b"=") {
        1
    } else {
        0
    }
}

fn goes_with_equal(b: u8) -> bool
    ensures { result ≡ spec.goes_with_equal b }
{
    b == b':' || b == b'=' || b == b'!' || b == b'<' || b == b'>'
}

fn name_bytes_len(text: &[u8]) -> usize
    ensures { result ≡ length (take_while is_name_byte text.now) }
{
    text.iter().take_while(|b| is_name_byte(**b)).count()
}

fn digits_len(text: &[u8]) -> usize
    ensures { result ≡ length (take_while is_ascii_digit text.now) }
{
    text.iter().take_while(|b| b.is_ascii_digit()).count()
}

fn is_name_byte(b: u8) -> bool
    ensures { result ≡ is_name_byte b }
{
    b.is_ascii_lowercase() || b.is_ascii_digit() || b == b'_'
}

// The token that is written so.
#[tactic(auto, using(crate::proofs::LexemeLemmas::token_of_broken))]
fn token_of(lexeme: &[u8]) -> Token
    ensures { result ≡ spec.token_of lexeme.now }
{
    match str::from_utf8(lexeme) {
        Ok(text) => token_of_text(text),
        Err(_) => Token::Bad,
    }
}

#[tactic(auto, unfolding(crate::specs::Tokens::token_of))]
fn token_of_text(text: &str) -> Token
    ensures { result ≡ spec.token_of text.now }
{
    match (operator_of(text), reserved_of(text)) {
        (Some(token), _) => token,
        (None, Some(token)) => token,
        (None, None) => number_or_word(text),
    }
}

fn operator_of(text: &str) -> Option<Token>
    ensures { result ≡ spec.token_in spec.operators text.now }
{
    match text {
        ":=" => Some(Token::Assign),
        "==" => Some(Token::EqualEqual),
        "!=" => Some(Token::NotEqual),
        "<=" => Some(Token::LessEqual),
        ">=" => Some(Token::GreaterEqual),
        "<" => Some(Token::Less),
        ">" => Some(Token::Greater),
        "=" => Some(Token::Equal),
        "+" => Some(Token::Plus),
        "-" => Some(Token::Minus),
        "*" => Some(Token::Star),
        "/" => Some(Token::Slash),
        "%" => Some(Token::Percent),
        "(" => Some(Token::Open),
        ")" => Some(Token::Close),
        "," => Some(Token::Comma),
        ";" => Some(Token::Semicolon),
        _ => None,
    }
}

fn reserved_of(text: &str) -> Option<Token>
    ensures { result ≡ spec.token_in spec.reserved text.now }
{
    match text {
        "let" => Some(Token::Let),
        "and" => Some(Token::And),
        "or" => Some(Token::Or),
        "not" => Some(Token::Not),
        "abs" => Some(Token::Abs),
        "min" => Some(Token::Min),
        "max" => Some(Token::Max),
        "clamp" => Some(Token::Clamp),
        "if" => Some(Token::If),
        _ => None,
    }
}

fn number_or_word(text: &str) -> Token
    ensures { result ≡ spec.number_or_word (spec.number_in text.now) (name_of text.now) }
{
    match (number_of(text), Name::read(text)) {
        (Some(number), _) => Token::Number(number),
        (None, Some(name)) => Token::Word(name),
        (None, None) => Token::Bad,
    }
}

// The number that a text of digits writes, if it is below 2^63.
#[tactic(auto, using(crate::proofs::LexemeLemmas::number_of_parsed))]
fn number_of(text: &str) -> Option<i64>
    ensures { result ≡ spec.number_in text.now }
{
    if !are_digits(text) {
        return None;
    }
    text.parse::<i64>().ok()
}

fn are_digits(text: &str) -> bool
    ensures { result ≡ list_all is_ascii_digit text.now }
{
    text.bytes().all(|b| b.is_ascii_digit())
}
