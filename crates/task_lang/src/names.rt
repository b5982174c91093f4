//! The names in scope.
//! This project's own.
ghost use Rattle.std.specs.Prelude.{◌≡◌, ◌≤◌, ◌<◌, length, IfSome};
ghost use Rattle.task_lang.specs.Words.{named_by};
ghost use Rattle.rcp_base.specs.Answers.{place_in};
ghost use Rattle.task_lang.specs.Statements.{scope_of};
ghost use Rattle.task_lang.specs.inner.Scopes.{IsShort};

use rcp_base::Name;
use rcp_model::Expr;
use std::marker::Model;

/// The names that an expression may use, each list at most 65536 long. Contracts see them as their scope.
#[derive(Drop)]
pub struct Names<'a> {
    sensors: &'a [Name],
    cells: &'a [Name],
    lets: &'a [Name],
}

impl<'a> Model for Names<'a> {
    ghost use Rattle.task_lang.specs.Words.{Scope};
    ghost use Rattle.task_lang.specs.Statements.{scope_of};
    ghost use Rattle.task_lang.specs.inner.Scopes.{IsShort};

    ghost Value = { Scope };

    ghost view = { λ names. scope_of names.sensors.now names.cells.now names.lets.now };

    ghost invariant = { λ names. IsShort (scope_of names.sensors.now names.cells.now names.lets.now) };
}

impl<'a> Names<'a> {
    pub fn new(sensors: &'a [Name], cells: &'a [Name], lets: &'a [Name]) -> Names<'a>
        requires { IsShort (scope_of sensors.now cells.now lets.now) }
        ensures { result ≡ scope_of sensors.now cells.now lets.now }
    {
        Names {
            sensors,
            cells,
            lets,
        }
    }

    /// What a name stands for, or a stand-in where it is not in scope.
    pub fn tree_of(&self, name: &Name) -> Expr
        ensures { result ≡ named_by self.now name.now }
    {
        match (
            place_in(name, self.sensors),
            place_in(name, self.cells),
            place_in(name, self.lets),
        ) {
            (Some(i), _, _) => Expr::Sensor(i),
            (None, Some(i), _) => Expr::Cell(i),
            (None, None, Some(i)) => Expr::Let(i),
            (None, None, None) => Expr::Number(0),
        }
    }
}

/// The first place of a name in a list of at most 65536.
pub fn place_in(name: &Name, names: &[Name]) -> Option<u16>
    requires { length names.now ≤ 65536 }
    ensures { result ≡ place_in names.now name.now }
{
    match position_of(name, names) {
        Some(place) => Some(place as u16),
        None => None,
    }
}

/// The first place of a name.
pub fn position_of(name: &Name, names: &[Name]) -> Option<usize>
    ensures place { result ≡ place_in names.now name.now }
    ensures within { IfSome result (λ place. place < length names.now) }
{
    names.iter().position(|known| name.bytes() == known.bytes())
}
