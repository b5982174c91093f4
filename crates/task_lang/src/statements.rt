//! From tokens to the statements of a body.
//! This project's own.
ghost use Rattle.std.specs.Prelude.{◌≡◌, ◌≤◌, [], length, unwrap_or, IfOk};
ghost use Rattle.rcp_base.specs.Answers.{place_in};
ghost use Rattle.task_lang.specs.declared.reader.Level.TheVariants as at;
ghost use Rattle.task_lang.specs.inner.Levels.{Follows, IsReadResult, level_reader};
ghost use Rattle.task_lang.specs.inner.Rows.{IsAdded};
ghost use Rattle.task_lang.specs.Statements as spec;
ghost use Rattle.task_lang.specs.StatementReaders as readers;
ghost use Rattle.task_lang.specs.Words as words;

use crate::names::{Names, place_in};
use crate::reader::{Level, ReadFault, expr_at, past, split_first};
use crate::token::{Mark, Token};
use rcp_base::{List, Memory, Name};
use rcp_model::{Expr, LetRow, SetRow, Task};
use std::alloc::Global;

/// A name for a value, or a cell's value.
#[derive(Debug, Drop)]
pub enum Statement {
    Let(Name, Expr),
    Set(Name, Expr),
}

/// The rows read so far, and the names of the lets among them.
#[derive(Drop)]
pub struct Rows {
    names: List<Name>,
    lets: List<LetRow>,
    sets: List<SetRow>,
}

impl Rows {
    fn new(alloc: Global) -> Rows
        ensures names { result.names ≡ [] }
        ensures lets { result.lets ≡ [] }
        ensures sets { result.sets ≡ [] }
    {
        Rows {
            names: List::new(alloc),
            lets: List::new(alloc),
            sets: List::new(alloc),
        }
    }

    fn add(&mut self, cells: &[Name], statement: Statement) -> Result<(), Memory>
        requires { length cells.now ≤ 65536 }
        ensures { IfOk result (λ done. IsAdded cells.now statement self.old self.new) }
    {
        match statement {
            Statement::Let(name, value) => {
                self.names.push(name)?;
                self.lets.push(LetRow { name, value })?;
            }
            Statement::Set(name, value) => {
                let cell = cell_of(&name, cells);
                self.sets.push(SetRow { cell, value })?;
            }
        }
        Ok(())
    }
}

/// The task of this name that all of the tokens write, or how many of them are left at the fault.
pub fn task_of(
    alloc: Global,
    name: Name,
    tokens: &[Token],
    sensors: &[Name],
    cells: &[Name],
) -> Result<Task, ReadFault>
    requires tokens { length tokens.now ≤ 65536 }
    requires sensors { length sensors.now ≤ 65536 }
    requires cells { length cells.now ≤ 65536 }
    ensures { IsReadResult (spec.IsTask sensors.now cells.now name) tokens.now result }
{
    task_at(alloc, name, 64, tokens, sensors, cells)
}

// The task, where at most `depth` brackets and prefixes enclose a token.
fn task_at(
    alloc: Global,
    name: Name,
    depth: u8,
    tokens: &[Token],
    sensors: &[Name],
    cells: &[Name],
) -> Result<Task, ReadFault>
    requires tokens { length tokens.now ≤ 65536 }
    requires sensors { length sensors.now ≤ 65536 }
    requires cells { length cells.now ≤ 65536 }
    ensures { Follows (λ task. task) result
        (readers.read_task depth sensors.now cells.now name tokens.now) }
{
    let mut rows = Rows::new(alloc);
    let mut rest = tokens;
    'statements: loop {
        let names = Names::new(sensors, cells, rows.names.as_slice());
        let (statement, next) = statement_at(alloc, &names, depth, rest)?;
        rows.add(cells, statement)?;
        rest = next;
        if rest.is_empty() {
            return Ok(Task {
                name,
                lets: rows.lets,
                sets: rows.sets,
            });
        }
    }
}

// The statement at the front, and the tokens behind it.
fn statement_at<'a>(
    alloc: Global,
    names: &Names,
    depth: u8,
    tokens: &'a [Token],
) -> Result<(Statement, &'a [Token]), ReadFault>
    ensures { Follows (λ x. (x.0, x.1.now)) result
        (readers.statement_reader (level_reader at.Or names.now depth) tokens.now) }
{
    let Some((token, behind)) = split_first(tokens) else {
        return Err(ReadFault::At { left: 0 });
    };
    if is_let(token) {
        return named(alloc, names, Mark::Equal, depth, behind);
    }
    named(alloc, names, Mark::Assign, depth, tokens)
}

// A name, a mark, an expression and a semicolon.
fn named<'a>(
    alloc: Global,
    names: &Names,
    mark: Mark,
    depth: u8,
    tokens: &'a [Token],
) -> Result<(Statement, &'a [Token]), ReadFault>
    ensures { Follows (λ x. (x.0, x.1.now)) result
        (readers.named_reader mark (readers.statement_of mark)
        (level_reader at.Or names.now depth) tokens.now) }
{
    let Some((token, behind)) = split_first(tokens) else {
        return Err(ReadFault::At { left: 0 });
    };
    let Some(name) = word_of(token) else {
        return Err(ReadFault::At { left: tokens.len() });
    };
    let rest = past(mark, behind)?;
    let (value, rest) = expr_at(alloc, names, Level::Or, depth, rest)?;
    let rest = past(Mark::Semicolon, rest)?;
    Ok((statement_of(mark, name, value), rest))
}

fn is_let(token: &Token) -> bool
    ensures { result ≡ words.is_let token.now }
{
    matches!(token, Token::Let)
}

/// The name that a token is.
pub fn word_of(token: &Token) -> Option<Name>
    ensures { result ≡ spec.word_of token.now }
{
    match token {
        Token::Word(name) => Some(*name),
        _ => None,
    }
}

// The statement that has this mark behind its name.
fn statement_of(mark: Mark, name: Name, value: Expr) -> Statement
    ensures { result ≡ readers.statement_of mark name value }
{
    match mark {
        Mark::Equal => Statement::Let(name, value),
        _ => Statement::Set(name, value),
    }
}

// The number of a cell, or the first cell's as a stand-in where it is none.
fn cell_of(name: &Name, cells: &[Name]) -> u16
    requires { length cells.now ≤ 65536 }
    ensures { result ≡ unwrap_or (place_in cells.now name.now) 0 }
{
    match place_in(name, cells) {
        Some(cell) => cell,
        None => 0,
    }
}
