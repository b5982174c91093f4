//! The replicas on clocks of their own, whose block of a frame is run event by event.
//! After NASA TM-104196.
ghost use Rattle.std.specs.Prelude.{◌≡◌, ◌<◌, ◌≤◌, ◌-◌, IfOk, min};
ghost use Rattle.rcp_base.specs.declared.TheConstants.{MAX_REPLICAS};
ghost use Rattle.rcp_model.specs.System.{initial_state};
ghost use Rattle.clocked_layer.specs.Clocked as specs;
ghost use Rattle.clocked_layer.specs.Clocked.{IsAtRest};
ghost use Rattle.clocked_layer.specs.Stepped.{no_mail};

use crate::machine::Machine;
use crate::stepped::Stepped;
use clock_model::laws::moments_keep_order;
use event_queue::{Agenda, Event, Picker};
use layer_stack::FrameIn;
use phase_machine::laws::resting_replicas_wait;
use rcp_base::Memory;
use rcp_model::Plan;
use std::alloc::Global;

/// The replicas of a plan on clocks of their own, and a picker that chooses among events
/// that are due at once. Only making them takes memory.
#[derive(Debug, Drop)]
pub struct Clocked<P> {
    pub(crate) machine: Machine,
    // Events that are left of the block.
    pub(crate) agenda: Agenda,
    // Events of the block that were taken.
    pub(crate) taken: Vec<Event>,
    pub(crate) picker: P,
}

impl<P: Picker + Drop> Clocked<P> {
    /// The replicas of a plan before the first frame.
    pub fn new(alloc: Global, plan: &Plan, picker: P) -> Result<Clocked<P>, Memory>
        ensures rests { IfOk result (λ clocked.
            IsAtRest clocked plan.now (initial_state plan.now) no_mail) }
        ensures picker { IfOk result (λ clocked. clocked.picker ≡ picker) }
    {
        let most = most_events(plan.parts().replicas);
        let machine = Machine::new(alloc, plan)?;
        let agenda = Agenda::new(alloc, most)?;
        let taken = Vec::with_capacity(alloc, most as usize)?;
        Ok(Clocked {
            machine,
            agenda,
            taken,
            picker,
        })
    }
}

// How many events a block of so many replicas may have.
fn most_events(replicas: u32) -> u32
    requires { replicas ≤ MAX_REPLICAS }
    ensures { result ≡ specs.most_events replicas }
{
    (4 + 2 * replicas) * replicas
}

// The place that an answer picks among so many: one past the last counts as the last.
fn place_of_answer(answer: u32, count: u32) -> u32
    requires { 0 < count }
    ensures place { result ≡ min answer (count - 1) }
    ensures below { result < count }
{
    if answer < count { answer } else { count - 1 }
}

impl<P: Picker> Stepped for Clocked<P> {
    ghost use Rattle.std.specs.Prelude.{length};
    ghost use Rattle.clocked_layer.specs.Clocked.{IsAtRest, IsRunning};

    ghost rests = { IsAtRest };

    ghost runs = { IsRunning };

    ghost log = { λ clocked. clocked.taken.items };

    ghost answers = { λ clocked. P.answers clocked.picker };

    ghost events_left = { λ clocked. length clocked.agenda.left };

    fn open(&mut self, input: &FrameIn) {
        moments_keep_order();
        self.taken.clear();
        self.machine.prepare(input, &mut self.agenda);
    }

    fn step(&mut self, input: &FrameIn) -> Option<Event> {
        let count = self.agenda.due();
        if count == 0 {
            return None;
        }
        let answer = self.picker.pick(count);
        let event = self.agenda.take(place_of_answer(answer, count));
        self.machine.act(&event, input);
        let _ = self.taken.push(event);
        Some(event)
    }

    fn close(&mut self, input: &FrameIn) {
        self.machine.finish(input);
    }

    fn log(&self) -> &[Event] {
        self.taken.as_slice()
    }

    fn box_slot(&self, to: u32, from: u32) -> Option<u32> {
        resting_replicas_wait();
        self.machine.phase(to).box_slot(from)
    }

    fn box_value(&self, to: u32, from: u32, cell: u32) -> Option<i64> {
        resting_replicas_wait();
        self.machine.phase(to).box_value(from, cell)
    }

    fn slot(&self, replica: u32) -> u32 {
        self.machine.phase(replica).slot()
    }

    fn cell(&self, replica: u32, cell: u32) -> i64 {
        self.machine.phase(replica).cell(cell)
    }

    fn command(&self, replica: u32, actuator: u32) -> Option<i64> {
        self.machine.phase(replica).command(actuator)
    }

    fn heard_slot(&self, to: u32, from: u32) -> Option<u32> {
        self.machine.phase(to).heard_slot(from)
    }

    fn heard_value(&self, to: u32, from: u32, cell: u32) -> Option<i64> {
        self.machine.phase(to).heard_value(from, cell)
    }

    fn voted_slot(&self, replica: u32) -> Option<u32> {
        self.machine.phase(replica).voted_slot()
    }

    fn voted_cell(&self, replica: u32, cell: u32) -> Option<i64> {
        self.machine.phase(replica).voted_cell(cell)
    }
}
