//! Names of sensors, cells, tasks, actuators and lets.
//! This project's own.
ghost use Rattle.std.specs.Prelude.{◌≡◌, ◌≤◌, length, true};
ghost use Rattle.std.specs.List.{list_all};
ghost use Rattle.rcp_base.specs.Name as spec;
ghost use Rattle.rcp_base.specs.Name.{name_of};

use std::marker::Model;

/// A small letter, then small letters, digits and underscores, at most 32 bytes, and no reserved word of the task language.
/// Contracts see it as its bytes.
#[derive(Clone, Copy, Debug)]
pub struct Name {
    padded: [u8; 32],
    len: u8,
}

impl Model for Name {
    ghost use Rattle.std.specs.Prelude.{ℕ, List, take, length};
    ghost use Rattle.rcp_base.specs.NameFields.{IsPadded, padded_with_zeros, fields_come_back};

    ghost Value = { List ℕ };

    ghost view = { λ name. take name.len name.padded };

    ghost invariant = { IsPadded };

    ghost inverse = { λ bytes. record { padded = padded_with_zeros bytes; len = length bytes } };

    ghost inverse_ok = { fields_come_back };
}

impl Name {
    /// The name that a text is, if it is one.
    pub fn read(text: &str) -> Option<Name>
        ensures { result ≡ name_of text.now }
    {
        if !is_name(text) {
            return None;
        }
        let bytes = text.as_bytes();
        let mut padded = [0; 32];
        padded[..bytes.len()].copy_from_slice(bytes);
        Some(Name {
            padded,
            len: bytes.len() as u8,
        })
    }

    pub fn bytes(&self) -> &[u8]
        ensures all { result.now ≡ self.now }
        ensures short { length result.now ≤ 32 }
    {
        &self.padded[..self.len as usize]
    }
}

#[tactic(auto, unfolding(crate::specs::Name::is_name))]
fn is_name(text: &str) -> bool
    ensures test { result ≡ spec.is_name text.now }
    ensures short { result ≡ true → length text.now ≤ 32 }
{
    starts_as_name(text.as_bytes()) && text.len() <= 32 && !is_reserved(text)
}

fn starts_as_name(bytes: &[u8]) -> bool
    ensures { result ≡ spec.is_word bytes.now }
{
    match bytes {
        [] => false,
        [first, rest @ ..] => first.is_ascii_lowercase() && are_name_bytes(rest),
    }
}

fn are_name_bytes(bytes: &[u8]) -> bool
    ensures { result ≡ list_all spec.is_name_byte bytes.now }
{
    bytes.iter().all(|b| is_name_byte(*b))
}

fn is_name_byte(b: u8) -> bool
    ensures { result ≡ spec.is_name_byte b }
{
    b.is_ascii_lowercase() || b.is_ascii_digit() || b == b'_'
}

fn is_reserved(text: &str) -> bool
    ensures { result ≡ spec.is_reserved text.now }
{
    text == "let"
        || text == "and"
        || text == "or"
        || text == "not"
        || text == "abs"
        || text == "min"
        || text == "max"
        || text == "clamp"
        || text == "if"
}
