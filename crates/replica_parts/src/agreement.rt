//! Whether what a replica heard is what it has itself.
//! This project's own.
ghost use Rattle.std.specs.Prelude.{◌≡◌, ◌↔◌, ◌<◌, ℕ, IfSome, IsTrue, length};
ghost use Rattle.replica_parts.specs.inner.Agreement.{Agrees, NamesNoOther};
ghost use Rattle.replica_parts.specs.Places.{message_at, message_in};
ghost use Rattle.replica_parts.specs.Rooms.{AreHeard};

use crate::ballot::Heard;
use crate::setting::Setting;
use mailbox::Message;

/// Whether each message that is heard names this slot and no value but these.
pub(crate) fn all_agree(setting: &Setting, heard: &[Heard], slot: u32, computed: &[i64]) -> bool
    requires heard { AreHeard setting.now heard.now }
    requires computed { length computed.now ≡ setting.now.cells }
    ensures { IsTrue result ↔ ((sender : ℕ) → sender < setting.now.replicas
        → IfSome (message_at heard.now sender) (Agrees slot computed.now)) }
{
    for sender in 0..setting.replicas {
        if !agrees(&heard[sender as usize], slot, computed) {
            return false;
        }
    }
    true
}

// Whether a message, if one is heard, does.
fn agrees(place: &Heard, slot: u32, computed: &[i64]) -> bool
    requires { length place.now.message.values ≡ length computed.now }
    ensures { IsTrue result ↔ IfSome (message_in place.now) (Agrees slot computed.now) }
{
    !place.present || names_own(&place.message, slot, computed)
}

// Whether a message does.
fn names_own(message: &Message, slot: u32, computed: &[i64]) -> bool
    requires { length message.now.values ≡ length computed.now }
    ensures { IsTrue result ↔ Agrees slot computed.now message.now }
{
    message.slot() == slot && names_no_other(message, computed)
}

// Whether a message names no value but these.
fn names_no_other(message: &Message, computed: &[i64]) -> bool
    requires { length message.now.values ≡ length computed.now }
    ensures { IsTrue result ↔ NamesNoOther computed.now message.now }
{
    for cell in 0..message.cells() {
        if !is_own(message.value(cell), computed[cell as usize]) {
            return false;
        }
    }
    true
}

// Whether a value, if there is one, is this.
fn is_own(value: Option<i64>, own: i64) -> bool
    ensures { IsTrue result ↔ IfSome value (λ one. one ≡ own) }
{
    match value {
        Some(one) => one == own,
        None => true,
    }
}
