//! The layers that a call runs, which may be handed in.
//! This project's own.
use clocked_layer::{Clocked, Stepped};
use distributed_layer::Distributed;
use event_queue::{First, Last};
use layer_stack::Layer;
use rcp_base::Memory;
use rcp_model::Plan;
use replica_layer::Replicated;
use std::alloc::Global;

/// Makes the layers that a call runs, each before the first frame of the plan.
pub trait Layers {
    ghost use Rattle.std.specs.Prelude.{◌≡◌, IfOk, Some};
    ghost use Rattle.clocked_layer.specs.Stepped.{no_mail};
    ghost use Rattle.rcp_model.specs.System.{initial_state};
    ghost use Rattle.rcp_top.specs.Events.{answers_of};
    ghost use Rattle.rcp_top.specs.declared.form.EventOrder.TheVariants as order;

    type Rs: Layer + Drop;

    type Ds: Layer + Drop;

    type Da: Stepped + Drop;

    type DaLast: Stepped + Drop;

    /// The replicas in one step.
    fn rs(&mut self, alloc: Global, plan: &Plan) -> Result<Self::Rs, Memory>
        ensures { IfOk result (λ layer. Self.Rs.is_at layer plan.now (initial_state plan.now)) };

    /// The replicas in phases.
    fn ds(&mut self, alloc: Global, plan: &Plan) -> Result<Self::Ds, Memory>
        ensures { IfOk result (λ layer. Self.Ds.is_at layer plan.now (initial_state plan.now)) };

    /// The replicas on clocks, with a picker of the first event that is due.
    fn da(&mut self, alloc: Global, plan: &Plan) -> Result<Self::Da, Memory>
        ensures rests { IfOk result (λ block.
            Self.Da.rests block plan.now (initial_state plan.now) no_mail) }
        ensures answers { IfOk result (λ block.
            Self.Da.answers block ≡ Some (answers_of order.First)) };

    /// The replicas on clocks, with a picker of the last event that is due.
    fn da_last(&mut self, alloc: Global, plan: &Plan) -> Result<Self::DaLast, Memory>
        ensures rests { IfOk result (λ block.
            Self.DaLast.rests block plan.now (initial_state plan.now) no_mail) }
        ensures answers { IfOk result (λ block.
            Self.DaLast.answers block ≡ Some (answers_of order.Last)) };
}

/// The layers that the program ships.
#[derive(Clone, Copy, Debug)]
pub struct Shipped;

impl Layers for Shipped {
    type Rs = Replicated;

    type Ds = Distributed;

    type Da = Clocked<First>;

    type DaLast = Clocked<Last>;

    fn rs(&mut self, alloc: Global, plan: &Plan) -> Result<Replicated, Memory> {
        Replicated::new(alloc, plan)
    }

    fn ds(&mut self, alloc: Global, plan: &Plan) -> Result<Distributed, Memory> {
        Distributed::new(alloc, plan)
    }

    fn da(&mut self, alloc: Global, plan: &Plan) -> Result<Clocked<First>, Memory> {
        Clocked::new(alloc, plan, First)
    }

    fn da_last(&mut self, alloc: Global, plan: &Plan) -> Result<Clocked<Last>, Memory> {
        Clocked::new(alloc, plan, Last)
    }
}
