//! The names of a text: whether each stands where it may.
//! This project's own.
ghost use Rattle.std.specs.Prelude.{◌≡◌, ◌+◌, ◌∷◌, length, is_some, IfOk, MatchOption, Some};
ghost use Rattle.task_lang.specs.NameFaults as spec;
ghost use Rattle.task_lang.specs.NameFaults.{first_wrong_name};

use crate::names::position_of;
use crate::reader::split_first;
use crate::statements::word_of;
use crate::token::Token;
use rcp_base::{List, Memory, Name};
use std::alloc::Global;
use std::marker::Model;

/// What can be wrong with a name.
#[derive(Clone, Copy, Debug)]
pub enum NameFault {
    /// An expression uses what is no sensor, no cell and no let of an earlier statement.
    IsUnknown,
    /// A statement names what it may not.
    IsBadTarget,
}

/// What a name stands for.
#[derive(Clone, Copy, Debug)]
pub enum Role {
    NewLet,
    SetCell,
    Operand,
}

/// What the tokens before have named: the lets in scope, the let of the statement that has not ended, and the cells that were set.
#[derive(Drop)]
pub struct Scan<'a> {
    sensors: &'a [Name],
    cells: &'a [Name],
    lets: List<Name>,
    begun: Option<Name>,
    set: List<Name>,
    behind_let: bool,
}

impl<'a> Model for Scan<'a> {
    ghost use Rattle.task_lang.specs.Statements.{scope_of};
    ghost use Rattle.task_lang.specs.NameFaults.{Seen, names_begun};

    ghost Value = { Seen };

    ghost view = { λ scan. record { scope = scope_of scan.sensors.now scan.cells.now scan.lets; begun = names_begun scan.begun; set = scan.set; behind_let = scan.behind_let } };
}

impl<'a> Scan<'a> {
    fn new(alloc: Global, sensors: &'a [Name], cells: &'a [Name]) -> Scan<'a>
        ensures { result ≡ spec.nothing_seen sensors.now cells.now }
    {
        Scan {
            sensors,
            cells,
            lets: List::new(alloc),
            begun: None,
            set: List::new(alloc),
            behind_let: false,
        }
    }

    // Goes past a token, or tells what is wrong with its name.
    fn step(&mut self, token: &Token, behind: &[Token]) -> Result<Option<NameFault>, Memory>
        ensures { IfOk result (λ found. MatchOption found
            (spec.wrong_name_from self.old (token.now ∷ behind.now)
            ≡ spec.wrong_name_from self.new behind.now)
            (λ fault. spec.wrong_name_from self.old (token.now ∷ behind.now)
            ≡ Some (fault, length behind.now + 1))) }
    {
        let Some(name) = word_of(token) else {
            self.pass(token)?;
            return Ok(None);
        };
        let role = self.role_before(behind);
        let fault = self.fault_in(role, &name);
        if fault.is_some() {
            return Ok(fault);
        }
        self.pass_name(role, name)?;
        Ok(None)
    }

    fn role_before(&self, rest: &[Token]) -> Role
        ensures { result ≡ spec.role_before self.now rest.now }
    {
        if self.behind_let {
            return Role::NewLet;
        }
        match rest {
            [Token::Assign, ..] => Role::SetCell,
            _ => Role::Operand,
        }
    }

    // What is wrong with a name in its role: a new let has a new name, and a cell is set once.
    fn fault_in(&self, role: Role, name: &Name) -> Option<NameFault>
        ensures { result ≡ spec.fault_in self.now role name.now }
    {
        match role {
            Role::NewLet => {
                if self.is_in_scope(name) {
                    return Some(NameFault::IsBadTarget);
                }
                None
            }
            Role::SetCell => {
                if is_among(self.cells, name) && !is_among(self.set.as_slice(), name) {
                    return None;
                }
                Some(NameFault::IsBadTarget)
            }
            Role::Operand => {
                if self.is_in_scope(name) {
                    return None;
                }
                Some(NameFault::IsUnknown)
            }
        }
    }

    // An expression may use the name.
    fn is_in_scope(&self, name: &Name) -> bool
        ensures { result ≡ spec.is_in_scope self.now.scope name.now }
    {
        is_among(self.sensors, name)
            || is_among(self.cells, name)
            || is_among(self.lets.as_slice(), name)
    }

    fn pass_name(&mut self, role: Role, name: Name) -> Result<(), Memory>
        ensures { IfOk result (λ done. self.new ≡ spec.seen_behind_name self.old role name) }
    {
        self.behind_let = false;
        match role {
            Role::NewLet => self.begun = Some(name),
            Role::SetCell => self.set.push(name)?,
            Role::Operand => (),
        }
        Ok(())
    }

    // Goes past what is no name.
    fn pass(&mut self, token: &Token) -> Result<(), Memory>
        ensures { IfOk result (λ done. self.new ≡ spec.seen_behind self.old token.now) }
    {
        match token {
            Token::Let => self.behind_let = true,
            Token::Semicolon => {
                self.behind_let = false;
                if let Some(name) = self.begun {
                    self.lets.push(name)?;
                    self.begun = None;
                }
            }
            _ => self.behind_let = false,
        }
        Ok(())
    }
}

/// The first wrong name of an expression or a body, and how many tokens are left there.
#[tactic(auto, unfolding(crate::specs::NameFaults::first_wrong_name))]
pub fn first_wrong_name(
    alloc: Global,
    sensors: &[Name],
    cells: &[Name],
    tokens: &[Token],
) -> Result<Option<(NameFault, usize)>, Memory>
    ensures { IfOk result (λ found. found ≡ first_wrong_name sensors.now cells.now tokens.now) }
{
    let mut scan = Scan::new(alloc, sensors, cells);
    let mut rest = tokens;
    while let Some((token, behind)) = split_first(rest) {
        if let Some(fault) = scan.step(token, behind)? {
            return Ok(Some((fault, rest.len())));
        }
        rest = behind;
    }
    Ok(None)
}

fn is_among(names: &[Name], name: &Name) -> bool
    ensures { result ≡ spec.has_name names.now name.now }
{
    position_of(name, names).is_some()
}
