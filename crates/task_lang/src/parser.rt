//! From texts to expressions and tasks.
//! This project's own.
ghost use Rattle.std.specs.Prelude.{◌≡◌, ◌≤◌, length, slice_index_or};
ghost use Rattle.task_lang.specs.Answers.{IsExprAnswer, IsBodyAnswer};
ghost use Rattle.task_lang.specs.TextReaders as spec;
ghost use Rattle.task_lang.specs.Tokens.{tokens_of, lefts_of};

use crate::reader::{ReadFault, expr_of};
use crate::scan::{NameFault, first_wrong_name};
use crate::statements::task_of;
use crate::{LangFault, lexer};
use rcp_base::Name;
use rcp_model::{Expr, Task};
use std::alloc::Global;

/// The task of this name whose body is the text: one or more statements, each of which may use the lets before it.
/// The text has at most 16,384 bytes, and there are at most 64 sensors and 64 cells. A name in both lists is the sensor's.
///
/// # Errors
/// `Syntax` where the text is not in the grammar, else `UnknownName` or `BadTarget` at the first name that is wrong, each with its byte.
/// `Memory` where memory ran out.
pub fn parse_body(
    alloc: Global,
    name: Name,
    text: &str,
    sensors: &[Name],
    cells: &[Name],
) -> Result<Task, LangFault>
    requires text { length text.now ≤ 16384 }
    requires sensors { length sensors.now ≤ 64 }
    requires cells { length cells.now ≤ 64 }
    ensures { IsBodyAnswer sensors.now cells.now name text.now result }
{
    let (list, lefts) = lexer::tokens(alloc, text.as_bytes())?;
    let tokens = list.as_slice();
    let task = match task_of(alloc, name, tokens, sensors, cells) {
        Ok(task) => task,
        Err(fault) => return Err(fault_of_syntax(text, lefts.as_slice(), fault)),
    };
    match first_wrong_name(alloc, sensors, cells, tokens)? {
        None => Ok(task),
        Some((fault, left)) => Err(fault_of_name(text, lefts.as_slice(), fault, left)),
    }
}

/// The expression that the text is. The text has at most 16,384 bytes, and there are at most 64 sensors and 64 cells.
/// A name in both lists is the sensor's.
///
/// # Errors
/// `Syntax` where the text is not in the grammar, else `UnknownName` at the first name that is neither a sensor nor a cell, each with its byte.
/// `Memory` where memory ran out.
pub fn parse_expr(
    alloc: Global,
    text: &str,
    sensors: &[Name],
    cells: &[Name],
) -> Result<Expr, LangFault>
    requires text { length text.now ≤ 16384 }
    requires sensors { length sensors.now ≤ 64 }
    requires cells { length cells.now ≤ 64 }
    ensures { IsExprAnswer sensors.now cells.now text.now result }
{
    let (list, lefts) = lexer::tokens(alloc, text.as_bytes())?;
    let tokens = list.as_slice();
    let tree = match expr_of(alloc, tokens, sensors, cells) {
        Ok(tree) => tree,
        Err(fault) => return Err(fault_of_syntax(text, lefts.as_slice(), fault)),
    };
    match first_wrong_name(alloc, sensors, cells, tokens)? {
        None => Ok(tree),
        Some((fault, left)) => Err(fault_of_name(text, lefts.as_slice(), fault, left)),
    }
}

fn fault_of_syntax(text: &str, lefts: &[usize], fault: ReadFault) -> LangFault
    requires text { length text.now ≤ 16384 }
    requires lefts { lefts.now ≡ lefts_of text.now }
    ensures { result ≡ spec.fault_of_syntax text.now fault }
{
    match fault {
        ReadFault::Memory => LangFault::Memory,
        ReadFault::At { left } => LangFault::Syntax {
            byte: byte_at(text, lefts, left),
        },
    }
}

fn fault_of_name(text: &str, lefts: &[usize], fault: NameFault, left: usize) -> LangFault
    requires text { length text.now ≤ 16384 }
    requires lefts { lefts.now ≡ lefts_of text.now }
    ensures { result ≡ spec.fault_of_name text.now fault left }
{
    let byte = byte_at(text, lefts, left);
    match fault {
        NameFault::IsUnknown => LangFault::UnknownName { byte },
        NameFault::IsBadTarget => LangFault::BadTarget { byte },
    }
}

// The byte of the token where so many are left, or the text's length.
#[tactic(auto, using(crate::proofs::PlaceLemmas::left_within, crate::proofs::TextLemmas::byte_found))]
fn byte_at(text: &str, lefts: &[usize], left: usize) -> u32
    requires text { length text.now ≤ 16384 }
    requires lefts { lefts.now ≡ lefts_of text.now }
    ensures { result ≡ spec.byte_at text.now left }
{
    let bytes = left_at(lefts, lefts.len().saturating_sub(left));
    (text.len() - bytes) as u32
}

// How many bytes are left at a token, or none past the last one.
fn left_at(lefts: &[usize], place: usize) -> usize
    ensures { result ≡ slice_index_or lefts.now place 0 }
{
    match lefts.get(place) {
        Some(bytes) => *bytes,
        None => 0,
    }
}
