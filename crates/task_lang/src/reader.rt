//! From tokens to expressions: each level of the grammar by its reader.
//! This project's own.
ghost use Rattle.std.specs.Prelude.{◌≡◌, ◌≤◌, [], ◌∷◌, length, MatchOption};
ghost use Rattle.task_lang.specs.Forms as forms;
ghost use Rattle.task_lang.specs.Reader as spec;
ghost use Rattle.task_lang.specs.ReaderParts as parts;
ghost use Rattle.task_lang.specs.declared.reader.Level.TheVariants as at;
ghost use Rattle.task_lang.specs.Rules.{IsExpr};
ghost use Rattle.task_lang.specs.Statements.{scope_of};
ghost use Rattle.task_lang.specs.inner.Levels.{IsReadResult, Follows, IsChain, HasPrefix, level_reader, inner_reader, below, operator_at, is_prefix, with_prefix};
ghost use Rattle.task_lang.specs.Words as words;

use crate::names::Names;
use crate::token::{Form, Mark, Token};
use rcp_base::{Memory, Name};
use rcp_model::{Expr, Op};
use sqlite_items::Boxed;
use std::alloc::{AllocError, Global};

/// Why tokens were not read.
#[derive(Clone, Copy, Debug)]
pub enum ReadFault {
    Memory,
    /// So many tokens are left at the fault.
    At { left: usize },
}

impl From<AllocError> for ReadFault {
    ghost use Rattle.std.specs.Prelude.{◌≡◌};
    ghost use Rattle.task_lang.specs.declared.reader.ReadFault.TheVariants.{Memory};

    ghost from_gives = { λ _ fault. fault ≡ Memory };

    fn from(_: AllocError) -> ReadFault {
        ReadFault::Memory
    }
}

impl From<Memory> for ReadFault {
    ghost use Rattle.std.specs.Prelude.{◌≡◌};
    ghost use Rattle.task_lang.specs.declared.reader.ReadFault.TheVariants.{Memory};

    ghost from_gives = { λ _ fault. fault ≡ Memory };

    fn from(_: Memory) -> ReadFault {
        ReadFault::Memory
    }
}

/// The levels of the grammar, from the loosest.
#[derive(Clone, Copy, Debug)]
pub enum Level {
    Or,
    And,
    Inv,
    Comparison,
    Sum,
    Product,
    Unary,
    Prim,
}

/// The expression of this level at the front, and the tokens behind it, where at most `depth` brackets and prefixes enclose a token.
#[cycle(reader)]
pub fn expr_at<'a>(
    alloc: Global,
    names: &Names,
    level: Level,
    depth: u8,
    tokens: &'a [Token],
) -> Result<(Expr, &'a [Token]), ReadFault>
    ensures { Follows (λ x. (x.0, x.1.now)) result (level_reader level names.now depth tokens.now) }
{
    match level {
        Level::Or => chained(alloc, names, level, depth, tokens),
        Level::And => chained(alloc, names, level, depth, tokens),
        Level::Inv => prefixed(alloc, names, level, depth, tokens),
        Level::Comparison => compared(alloc, names, depth, tokens),
        Level::Sum => chained(alloc, names, level, depth, tokens),
        Level::Product => chained(alloc, names, level, depth, tokens),
        Level::Unary => prefixed(alloc, names, level, depth, tokens),
        Level::Prim => prim(alloc, names, depth, tokens),
    }
}

// Operands between operators.
#[cycle(reader)]
fn chained<'a>(
    alloc: Global,
    names: &Names,
    level: Level,
    depth: u8,
    tokens: &'a [Token],
) -> Result<(Expr, &'a [Token]), ReadFault>
    requires { IsChain level }
    ensures { Follows (λ x. (x.0, x.1.now)) result (parts.chained (operator_at level)
        (level_reader (below level) names.now depth) tokens.now) }
{
    let (first, rest) = expr_at(alloc, names, operands(level), depth, tokens)?;
    onward(alloc, names, level, depth, first, rest)
}

// Goes on with operators and operands.
#[cycle(reader)]
fn onward<'a>(
    alloc: Global,
    names: &Names,
    level: Level,
    depth: u8,
    first: Expr,
    tokens: &'a [Token],
) -> Result<(Expr, &'a [Token]), ReadFault>
    requires { IsChain level }
    ensures { Follows (λ x. (x.0, x.1.now)) result (parts.onward (operator_at level)
        (level_reader (below level) names.now depth) first tokens.now) }
{
    let mut left = first;
    let mut rest = tokens;
    while let Some((token, behind)) = split_first(rest) {
        let Some(op) = operator(level, token) else {
            return Ok((left, rest));
        };
        let (operand, next) = expr_at(alloc, names, operands(level), depth, behind)?;
        let a = Boxed::new(alloc, left)?;
        let b = Boxed::new(alloc, operand)?;
        left = Expr::Two(op, a, b);
        rest = next;
    }
    Ok((left, rest))
}

// At most one operator.
#[cycle(reader)]
fn compared<'a>(
    alloc: Global,
    names: &Names,
    depth: u8,
    tokens: &'a [Token],
) -> Result<(Expr, &'a [Token]), ReadFault>
    ensures { Follows (λ x. (x.0, x.1.now)) result
        (parts.compared words.comparison_op (level_reader at.Sum names.now depth) tokens.now) }
{
    let (first, rest) = expr_at(alloc, names, Level::Sum, depth, tokens)?;
    let Some((token, behind)) = split_first(rest) else {
        return Ok((first, rest));
    };
    let Some(op) = operator(Level::Comparison, token) else {
        return Ok((first, rest));
    };
    let (second, next) = expr_at(alloc, names, Level::Sum, depth, behind)?;
    let a = Boxed::new(alloc, first)?;
    let b = Boxed::new(alloc, second)?;
    Ok((Expr::Two(op, a, b), next))
}

// A prefix, or none.
#[cycle(reader)]
fn prefixed<'a>(
    alloc: Global,
    names: &Names,
    level: Level,
    depth: u8,
    tokens: &'a [Token],
) -> Result<(Expr, &'a [Token]), ReadFault>
    requires { HasPrefix level }
    ensures { Follows (λ x. (x.0, x.1.now)) result
        (parts.prefixed (is_prefix level) (with_prefix level)
        (inner_reader level names.now depth)
        (level_reader (below level) names.now depth) tokens.now) }
{
    let Some((token, behind)) = split_first(tokens) else {
        return expr_at(alloc, names, operands(level), depth, tokens);
    };
    if !is_prefix(level, token) {
        return expr_at(alloc, names, operands(level), depth, tokens);
    }
    if depth == 0 {
        return Err(ReadFault::At { left: tokens.len() });
    }
    let (operand, rest) = expr_at(alloc, names, level, depth - 1, behind)?;
    let operand = Boxed::new(alloc, operand)?;
    Ok((with_prefix(level, operand), rest))
}

#[cycle(reader)]
fn prim<'a>(
    alloc: Global,
    names: &Names,
    depth: u8,
    tokens: &'a [Token],
) -> Result<(Expr, &'a [Token]), ReadFault>
    ensures { Follows (λ x. (x.0, x.1.now)) result
        (spec.prim names.now (inner_reader at.Or names.now depth) tokens.now) }
{
    let Some((token, behind)) = split_first(tokens) else {
        return Err(ReadFault::At { left: 0 });
    };
    if let Some(leaf) = leaf_of(names, token) {
        return Ok((leaf, behind));
    }
    let Some(form) = form_of(token) else {
        return Err(ReadFault::At { left: tokens.len() });
    };
    if depth == 0 {
        return Err(ReadFault::At { left: tokens.len() });
    }
    inside(alloc, names, form, depth - 1, behind)
}

// What stands behind the token that begins a form.
#[cycle(reader)]
fn inside<'a>(
    alloc: Global,
    names: &Names,
    form: Form,
    depth: u8,
    tokens: &'a [Token],
) -> Result<(Expr, &'a [Token]), ReadFault>
    ensures { Follows (λ x. (x.0, x.1.now)) result
        (spec.formed form (level_reader at.Or names.now depth) tokens.now) }
{
    match form {
        Form::Brackets => {
            let (a, rest) = expr_at(alloc, names, Level::Or, depth, tokens)?;
            let rest = past(Mark::Close, rest)?;
            Ok((a, rest))
        }
        Form::Abs => {
            let rest = past(Mark::Open, tokens)?;
            let (a, rest) = expr_at(alloc, names, Level::Or, depth, rest)?;
            let rest = past(Mark::Close, rest)?;
            let a = Boxed::new(alloc, a)?;
            Ok((Expr::Abs(a), rest))
        }
        Form::Min => {
            let (a, b, rest) = pair(alloc, names, depth, tokens)?;
            Ok((Expr::Two(Op::Min, a, b), rest))
        }
        Form::Max => {
            let (a, b, rest) = pair(alloc, names, depth, tokens)?;
            Ok((Expr::Two(Op::Max, a, b), rest))
        }
        Form::Clamp => {
            let (a, b, c, rest) = triple(alloc, names, depth, tokens)?;
            Ok((Expr::Clamp(a, b, c), rest))
        }
        Form::If => {
            let (a, b, c, rest) = triple(alloc, names, depth, tokens)?;
            Ok((Expr::If(a, b, c), rest))
        }
    }
}

#[cycle(reader)]
fn pair<'a>(
    alloc: Global,
    names: &Names,
    depth: u8,
    tokens: &'a [Token],
) -> Result<(Boxed<Expr>, Boxed<Expr>, &'a [Token]), ReadFault>
    ensures { Follows (λ x. (x.0 ∷ x.1 ∷ [], x.2.now)) result
        (parts.sequence (level_reader at.Or names.now depth) forms.two_arguments tokens.now) }
{
    let rest = past(Mark::Open, tokens)?;
    let (a, rest) = expr_at(alloc, names, Level::Or, depth, rest)?;
    let rest = past(Mark::Comma, rest)?;
    let (b, rest) = expr_at(alloc, names, Level::Or, depth, rest)?;
    let rest = past(Mark::Close, rest)?;
    let a = Boxed::new(alloc, a)?;
    let b = Boxed::new(alloc, b)?;
    Ok((a, b, rest))
}

#[cycle(reader)]
fn triple<'a>(
    alloc: Global,
    names: &Names,
    depth: u8,
    tokens: &'a [Token],
) -> Result<(Boxed<Expr>, Boxed<Expr>, Boxed<Expr>, &'a [Token]), ReadFault>
    ensures { Follows (λ x. (x.0 ∷ x.1 ∷ x.2 ∷ [], x.3.now)) result
        (parts.sequence (level_reader at.Or names.now depth) forms.three_arguments tokens.now) }
{
    let rest = past(Mark::Open, tokens)?;
    let (a, rest) = expr_at(alloc, names, Level::Or, depth, rest)?;
    let rest = past(Mark::Comma, rest)?;
    let (b, rest) = expr_at(alloc, names, Level::Or, depth, rest)?;
    let rest = past(Mark::Comma, rest)?;
    let (c, rest) = expr_at(alloc, names, Level::Or, depth, rest)?;
    let rest = past(Mark::Close, rest)?;
    let a = Boxed::new(alloc, a)?;
    let b = Boxed::new(alloc, b)?;
    let c = Boxed::new(alloc, c)?;
    Ok((a, b, c, rest))
}

pub fn past(mark: Mark, tokens: &[Token]) -> Result<&[Token], ReadFault>
    ensures { Follows (λ x. x.now) result (parts.past mark tokens.now) }
{
    let Some((token, behind)) = split_first(tokens) else {
        return Err(ReadFault::At { left: 0 });
    };
    if is_mark(mark, token) {
        Ok(behind)
    } else {
        Err(ReadFault::At { left: tokens.len() })
    }
}

/// The first token, and those behind it.
pub fn split_first(tokens: &[Token]) -> Option<(&Token, &[Token])>
    ensures { MatchOption result (tokens.now ≡ []) (λ p. tokens.now ≡ p.0.now ∷ p.1.now) }
{
    match tokens {
        [] => None,
        [first, rest @ ..] => Some((first, rest)),
    }
}

fn is_mark(mark: Mark, token: &Token) -> bool
    ensures { result ≡ words.is_mark mark token.now }
{
    match (mark, token) {
        (Mark::Open, Token::Open) => true,
        (Mark::Close, Token::Close) => true,
        (Mark::Comma, Token::Comma) => true,
        (Mark::Assign, Token::Assign) => true,
        (Mark::Equal, Token::Equal) => true,
        (Mark::Semicolon, Token::Semicolon) => true,
        _ => false,
    }
}

fn is_prefix(level: Level, token: &Token) -> bool
    ensures { result ≡ is_prefix level token.now }
{
    match (level, token) {
        (Level::Inv, Token::Not) => true,
        (Level::Unary, Token::Minus) => true,
        _ => false,
    }
}

fn with_prefix(level: Level, a: Boxed<Expr>) -> Expr
    ensures { result ≡ with_prefix level a }
{
    match level {
        Level::Inv => Expr::Not(a),
        _ => Expr::Neg(a),
    }
}

fn operands(level: Level) -> Level
    ensures { result ≡ below level }
{
    match level {
        Level::Or => Level::And,
        Level::And => Level::Inv,
        Level::Inv => Level::Comparison,
        Level::Comparison => Level::Sum,
        Level::Sum => Level::Product,
        Level::Product => Level::Unary,
        Level::Unary => Level::Prim,
        Level::Prim => Level::Prim,
    }
}

fn operator(level: Level, token: &Token) -> Option<Op>
    ensures { result ≡ operator_at level token.now }
{
    match (level, token) {
        (Level::Or, Token::Or) => Some(Op::Or),
        (Level::And, Token::And) => Some(Op::And),
        (Level::Comparison, Token::EqualEqual) => Some(Op::Eq),
        (Level::Comparison, Token::NotEqual) => Some(Op::Ne),
        (Level::Comparison, Token::Less) => Some(Op::Lt),
        (Level::Comparison, Token::LessEqual) => Some(Op::Le),
        (Level::Comparison, Token::Greater) => Some(Op::Gt),
        (Level::Comparison, Token::GreaterEqual) => Some(Op::Ge),
        (Level::Sum, Token::Plus) => Some(Op::Add),
        (Level::Sum, Token::Minus) => Some(Op::Sub),
        (Level::Product, Token::Star) => Some(Op::Mul),
        (Level::Product, Token::Slash) => Some(Op::Div),
        (Level::Product, Token::Percent) => Some(Op::Rem),
        _ => None,
    }
}

fn leaf_of(names: &Names, token: &Token) -> Option<Expr>
    ensures { result ≡ words.leaf_of names.now token.now }
{
    match token {
        Token::Number(n) => Some(Expr::Number(*n)),
        Token::Word(name) => Some(names.tree_of(name)),
        _ => None,
    }
}

fn form_of(token: &Token) -> Option<Form>
    ensures { result ≡ forms.form_of_token token.now }
{
    match token {
        Token::Open => Some(Form::Brackets),
        Token::Abs => Some(Form::Abs),
        Token::Min => Some(Form::Min),
        Token::Max => Some(Form::Max),
        Token::Clamp => Some(Form::Clamp),
        Token::If => Some(Form::If),
        _ => None,
    }
}

/// The one expression over these sensors and cells that all of the tokens write, or how many of them are left at the fault.
pub fn expr_of(
    alloc: Global,
    tokens: &[Token],
    sensors: &[Name],
    cells: &[Name],
) -> Result<Expr, ReadFault>
    requires sensors { length sensors.now ≤ 65536 }
    requires cells { length cells.now ≤ 65536 }
    ensures { IsReadResult (IsExpr (scope_of sensors.now cells.now [])) tokens.now result }
{
    let names = Names::new(sensors, cells, &[]);
    whole_expr(alloc, &names, 64, tokens)
}

fn whole_expr(alloc: Global, names: &Names, depth: u8, tokens: &[Token]) -> Result<Expr, ReadFault>
    ensures { Follows (λ tree. tree) result
        (spec.whole (level_reader at.Or names.now depth) tokens.now) }
{
    let (tree, rest) = expr_at(alloc, names, Level::Or, depth, tokens)?;
    if rest.is_empty() {
        Ok(tree)
    } else {
        Err(ReadFault::At { left: rest.len() })
    }
}
