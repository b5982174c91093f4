//! Mailboxes, as who hears sees them.
//! This project's own.
use mailbox::{Boxes, Message};
use std::test::Fail;

#[test]
fn a_message_lies_in_the_mailbox_of_its_sender(rt: HostRuntime) -> Result<(), Fail> {
    let mut boxes = Boxes::new(rt.alloc(), 3, 2)?;
    let mut message = Message::new(rt.alloc(), 2)?;
    message.reset(4);
    message.put(1, -7);
    boxes.put(2, &message);
    assert_eq!(rt; boxes.slot_of(0), None);
    assert_eq!(rt; boxes.value_of(0, 1), None);
    assert_eq!(rt; boxes.slot_of(2), Some(4));
    assert_eq!(rt; boxes.value_of(2, 0), None);
    assert_eq!(rt; boxes.value_of(2, 1), Some(-7));
    Ok(())
}

#[test]
fn the_later_message_stays(rt: HostRuntime) -> Result<(), Fail> {
    let mut boxes = Boxes::new(rt.alloc(), 2, 1)?;
    let mut message = Message::new(rt.alloc(), 1)?;
    message.put(0, 10);
    boxes.put(0, &message);
    boxes.put(1, &message);
    message.reset(3);
    boxes.put(1, &message);
    assert_eq!(rt; boxes.slot_of(0), Some(0));
    assert_eq!(rt; boxes.value_of(0, 0), Some(10));
    assert_eq!(rt; boxes.slot_of(1), Some(3));
    assert_eq!(rt; boxes.value_of(1, 0), None);
    Ok(())
}

#[test]
fn nothing_lies_there_after_a_clearing(rt: HostRuntime) -> Result<(), Fail> {
    let mut boxes = Boxes::new(rt.alloc(), 2, 1)?;
    let mut message = Message::new(rt.alloc(), 1)?;
    message.put(0, 5);
    boxes.put(1, &message);
    let heard = boxes.message(1).ok_or("no message")?;
    assert_eq!(rt; heard.slot(), 0);
    assert_eq!(rt; heard.value(0), Some(5));
    boxes.clear();
    assert!(rt; boxes.message(0).is_none());
    assert!(rt; boxes.message(1).is_none());
    Ok(())
}
