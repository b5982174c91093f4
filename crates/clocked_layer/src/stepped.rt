//! What runs the block of a frame event by event.
//! After NASA TM-104196.
use event_queue::Event;
use layer_stack::FrameIn;

/// The replicas on clocks, whose frame is a block of events: it is opened, takes its events one by one, and is closed.
/// No call takes memory.
///
/// `rests` says of which plan it is, at which state of the system and with which mail, where no block is open. Before the first
/// frame that is the initial state, with no mail. `runs` says of which plan it is where a block is open, with which rows, and
/// how far the block has come. `log` are the events taken since the last `open`, `answers` what its picker tells that it will
/// answer, if it tells that, and `events_left` how many events are left.
pub trait Stepped {
    ghost use Rattle.std.specs.Prelude.{◌≡◌, ◌<◌, ◌+◌, ℕ, List, [], ◌∷◌, ◌++◌, length, Option, Some, IfSome, IfNone, slice_get};
    ghost use Rattle.clocked_layer.specs.Block.{Block, block_after_event, closed_state, opened_block};
    ghost use Rattle.clocked_layer.specs.Ready.{IsTimely};
    ghost use Rattle.clocked_layer.specs.Stepped.{CanClose, HasMailbox, HasMailboxAndCell, IsOpen, Mail, RestsAt, box_slot_in, box_value_in, mail_of_block};
    ghost use Rattle.event_queue.specs.Agenda.{IsDueIn};
    ghost use Rattle.event_queue.specs.Picker.{later_answers, picked_place};
    ghost use Rattle.event_queue.specs.declared.event.Event.{Event};
    ghost use Rattle.layer_stack.specs.Layer.{CanRunFrame, HasReplica, HasCell, HasActuator, HasPair, HasPairAndCell, cell_in, heard_slot_in, heard_value_in, voted_slot_in, voted_cell_in};
    ghost use Rattle.rcp_model.specs.FrameLimits.{IsFrameOf};
    ghost use Rattle.rcp_model.specs.FrameRows.{FrameRows};
    ghost use Rattle.rcp_model.specs.System.{SystemState};
    ghost use Rattle.rcp_model.specs.declared.plan.PlanParts.{PlanParts};

    ghost rests: { Self → PlanParts → SystemState → Mail → Type 0 };

    ghost runs: { Self → PlanParts → FrameRows → Block → Type 0 };

    ghost log: { Self → List Event };

    ghost answers: { Self → Option (ℕ → ℕ) };

    ghost events_left: { Self → ℕ };

    /// Opens the block of the frame with these rows. All its mail stays where it is.
    fn open(&mut self, input: &FrameIn)
        requires ready { CanRunFrame (RestsAt (rests self.old)) input.now }
        ensures timely { (plan : PlanParts) (state : SystemState) (mail : Mail)
            → rests self.old plan state mail → IsFrameOf plan input.now
            → IsTimely plan input.now state }
        ensures block { (plan : PlanParts) (state : SystemState) (mail : Mail)
            → rests self.old plan state mail → IsFrameOf plan input.now
            → runs self.new plan input.now (opened_block plan state input.now mail) }
        ensures log { log self.new ≡ [] }
        ensures answers { answers self.new ≡ answers self.old };

    /// Takes one of the events that are due, which its picker picks. `None` exactly where no event is left.
    fn step(&mut self, input: &FrameIn) -> Option<Event>
        requires open { IsOpen (runs self.old) input.now }
        ensures due { IfSome result (λ event. (plan : PlanParts) (block : Block)
            → runs self.old plan input.now block → IsDueIn block.left event) }
        ensures picked { IfSome result (λ event. (plan : PlanParts) (block : Block)
            → runs self.old plan input.now block → IfSome (answers self.old) (λ told.
            slice_get block.left (picked_place block.left told) ≡ Some event)) }
        ensures block { IfSome result (λ event. (plan : PlanParts) (block : Block)
            → runs self.old plan input.now block
            → runs self.new plan input.now (block_after_event plan input.now block event)) }
        ensures log { IfSome result (λ event. log self.new ≡ log self.old ++ event ∷ []) }
        ensures answers { IfSome result (λ event. IfSome (answers self.old) (λ told.
            answers self.new ≡ Some (later_answers told))) }
        ensures fewer { IfSome result (λ event.
            events_left self.old ≡ events_left self.new + 1) }
        ensures none { IfNone result ((plan : PlanParts) (block : Block)
            → runs self.old plan input.now block → block.left ≡ []) }
        ensures same { IfNone result (self.new ≡ self.old) };

    /// Closes the block once no event of it is left: rows overwrite, and each replica that voted gives its commands.
    fn close(&mut self, input: &FrameIn)
        requires over { CanClose (runs self.old) input.now }
        ensures state { (plan : PlanParts) (block : Block)
            → runs self.old plan input.now block → block.left ≡ []
            → rests self.new plan (closed_state plan input.now block) (mail_of_block block) }
        ensures log { log self.new ≡ log self.old }
        ensures answers { answers self.new ≡ answers self.old };

    /// The events taken since the last `open`, in the order in which they were taken.
    fn log(&self) -> &[Event]
        ensures { result.now ≡ log self.now };

    /// The slot in what lies in the receiver's mailbox of a sender now, if a message does.
    fn box_slot(&self, to: u32, from: u32) -> Option<u32>
        requires { HasMailbox (rests self.now) (runs self.now) to from }
        ensures rests { (plan : PlanParts) (state : SystemState) (mail : Mail)
            → rests self.now plan state mail → to < plan.replicas → from < plan.replicas
            → result ≡ box_slot_in mail to from }
        ensures runs { (plan : PlanParts) (rows : FrameRows) (block : Block)
            → runs self.now plan rows block → to < plan.replicas → from < plan.replicas
            → result ≡ box_slot_in (mail_of_block block) to from };

    /// The value of a cell in it, if a message lies there and names one.
    fn box_value(&self, to: u32, from: u32, cell: u32) -> Option<i64>
        requires { HasMailboxAndCell (rests self.now) (runs self.now) to from cell }
        ensures rests { (plan : PlanParts) (state : SystemState) (mail : Mail)
            → rests self.now plan state mail
            → to < plan.replicas → from < plan.replicas → cell < length plan.cells
            → result ≡ box_value_in mail to from cell }
        ensures runs { (plan : PlanParts) (rows : FrameRows) (block : Block)
            → runs self.now plan rows block
            → to < plan.replicas → from < plan.replicas → cell < length plan.cells
            → result ≡ box_value_in (mail_of_block block) to from cell };

    /// The slot of a replica, where no block is open.
    fn slot(&self, replica: u32) -> u32
        requires { HasReplica (RestsAt (rests self.now)) replica }
        ensures { (plan : PlanParts) (state : SystemState)
            → RestsAt (rests self.now) plan state
            → replica < plan.replicas → result ≡ (state.replicas replica).slot };

    /// A cell of a replica.
    fn cell(&self, replica: u32, cell: u32) -> i64
        requires { HasCell (RestsAt (rests self.now)) replica cell }
        ensures { (plan : PlanParts) (state : SystemState)
            → RestsAt (rests self.now) plan state
            → replica < plan.replicas → cell < length plan.cells
            → result ≡ cell_in state replica cell };

    /// The command that a replica gave to an actuator in the last frame, if it gave one.
    fn command(&self, replica: u32, actuator: u32) -> Option<i64>
        requires { HasActuator (RestsAt (rests self.now)) replica actuator }
        ensures { (plan : PlanParts) (state : SystemState)
            → RestsAt (rests self.now) plan state
            → replica < plan.replicas → actuator < length plan.actuators
            → result ≡ state.commands replica actuator };

    /// The slot in what stood heard of a sender at the last vote of a replica.
    fn heard_slot(&self, to: u32, from: u32) -> Option<u32>
        requires { HasPair (RestsAt (rests self.now)) to from }
        ensures { (plan : PlanParts) (state : SystemState)
            → RestsAt (rests self.now) plan state
            → to < plan.replicas → from < plan.replicas
            → result ≡ heard_slot_in state to from };

    /// The value of a cell in it.
    fn heard_value(&self, to: u32, from: u32, cell: u32) -> Option<i64>
        requires { HasPairAndCell (RestsAt (rests self.now)) to from cell }
        ensures { (plan : PlanParts) (state : SystemState)
            → RestsAt (rests self.now) plan state
            → to < plan.replicas → from < plan.replicas → cell < length plan.cells
            → result ≡ heard_value_in state to from cell };

    /// The slot that a replica took at the vote of the last frame, if it voted.
    fn voted_slot(&self, replica: u32) -> Option<u32>
        requires { HasReplica (RestsAt (rests self.now)) replica }
        ensures { (plan : PlanParts) (state : SystemState)
            → RestsAt (rests self.now) plan state
            → replica < plan.replicas → result ≡ voted_slot_in state replica };

    /// A cell of a replica after that vote, before rows overwrite it.
    fn voted_cell(&self, replica: u32, cell: u32) -> Option<i64>
        requires { HasCell (RestsAt (rests self.now)) replica cell }
        ensures { (plan : PlanParts) (state : SystemState)
            → RestsAt (rests self.now) plan state
            → replica < plan.replicas → cell < length plan.cells
            → result ≡ voted_cell_in state replica cell };
}
