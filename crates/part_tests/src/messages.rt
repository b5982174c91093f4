//! Messages, as who sends and who hears them sees them.
//! This project's own.
use mailbox::Message;
use std::test::Fail;

#[test]
fn a_message_has_a_slot_and_values(rt: HostRuntime) -> Result<(), Fail> {
    let mut message = Message::new(rt.alloc(), 3)?;
    assert_eq!(rt; message.cells(), 3);
    assert_eq!(rt; message.slot(), 0);
    message.reset(4);
    message.put(1, -7);
    assert_eq!(rt; message.slot(), 4);
    assert_eq!(rt; message.value(0), None);
    assert_eq!(rt; message.value(1), Some(-7));
    message.set_slot(2);
    assert_eq!(rt; message.slot(), 2);
    assert_eq!(rt; message.value(1), Some(-7));
    message.reset(1);
    assert_eq!(rt; message.value(1), None);
    Ok(())
}

#[test]
fn a_copy_is_as_its_original(rt: HostRuntime) -> Result<(), Fail> {
    let mut sent = Message::new(rt.alloc(), 2)?;
    sent.set_slot(3);
    sent.put(0, 10);
    let mut held = Message::new(rt.alloc(), 2)?;
    held.put(1, 5);
    held.copy_from(&sent);
    assert_eq!(rt; held.slot(), 3);
    assert_eq!(rt; held.value(0), Some(10));
    assert_eq!(rt; held.value(1), None);
    Ok(())
}
