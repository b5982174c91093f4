//! What every layer does to one replica, and the loops over all replicas that layers share.
//! After NASA TM-102716 and NASA TM-104196; the code is this project's own.
#![tactic(auto)]

mod agreement;
mod ballot;
mod commanding;
mod computing;
mod hearing;
mod held;
mod holding;
mod keeping;
pub mod laws;
mod letters;
mod making;
mod post;
mod setting;
mod voting;
mod window;

pub use ballot::{Ballot, Heard};
pub use commanding::{command_all, command_at, command_one, command_row, evaluated};
pub use computing::{compute, compute_all, write_own, write_owns};
pub use hearing::{arrival_of, comes, hear, hear_all, take_message};
pub use held::Held;
pub use holding::{hold_all, hold_one, overwrite, sync};
pub use keeping::{end_tick, keep_all, keep_row};
pub use letters::{goes_out, put_letter, quiet_arrival, shade, write_row, write_rows};
pub use making::{ballots, command_rows, initial_states, messages, post_rows, vote_places};
pub use post::Post;
pub use setting::{Setting, has_vote};
pub use voting::{take_slot, vote, vote_all, vote_cell, vote_cells, vote_heard, vote_one};
pub use window::Window;
