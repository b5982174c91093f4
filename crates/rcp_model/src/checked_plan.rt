//! A plan whose parts are known to keep the rules.
//! This project's own.
ghost use Rattle.std.specs.Prelude.{◌≡◌};
ghost use Rattle.rcp_model.specs.Plan.{IsPlan};

use crate::PlanParts;
use std::marker::Model;

/// Parts that keep every rule of a task file but that of its vote pattern.
/// Contracts see it as its parts.
#[derive(Debug, Drop)]
pub struct Plan {
    parts: PlanParts,
}

impl Model for Plan {
    ghost use Rattle.rcp_model.specs.declared.plan.PlanParts.{PlanParts};
    ghost use Rattle.rcp_model.specs.contracts.plan.PlanParts.{the_row};

    ghost Value = { PlanParts };

    ghost coded = { the_row.coded };

    ghost use Rattle.rcp_model.specs.Plan.{IsPlan};

    ghost view = { λ plan. plan.parts };

    ghost invariant = { λ plan. IsPlan plan.parts };
}

impl Plan {
    /// The plan of parts that keep the rules.
    pub fn make(parts: PlanParts) -> Plan
        requires { IsPlan parts }
        ensures { result ≡ parts }
    {
        Plan { parts }
    }

    /// Its parts, which keep the rules.
    pub fn parts(&self) -> &PlanParts
        ensures parts { result.now ≡ self.now }
        ensures rules { IsPlan result.now }
    {
        &self.parts
    }
}
