use crate::rows::first_row;
use ack_window::*;
use av_unit::{Bytes, OutOfMemory};
use chunk_wire::Message;
use std::alloc::Global;
use std::test::Fail;

/// Makes a message on stream 0 at time 0.
fn message(alloc: Global, kind: u8, bytes: &[u8]) -> Result<Message, OutOfMemory> {
    let mut body = Bytes::new(alloc);
    body.append(bytes)?;
    Ok(Message {
        kind,
        stream: 0,
        time: 0,
        body,
    })
}

/// Adds the digit of a message's type, and its body.
fn add_message(message: &Message, out: &mut Bytes) -> Result<(), OutOfMemory> {
    out.append(&[b'0'.wrapping_add(message.kind)])?;
    out.append(message.body.as_slice())
}

/// Adds the bytes written of the control that is read, and its answer.
fn add_again(alloc: Global, kind: u8, body: &[u8], out: &mut Bytes) -> Result<(), OutOfMemory> {
    match control_of(&message(alloc, kind, body)?) {
        Ok(Some(control)) => {
            add_message(&control_message(alloc, control)?, out)?;
            if let Some(answer) = ping_answer(&control) {
                add_message(&control_message(alloc, answer)?, out)?;
            }
            Ok(())
        }
        Ok(None) => out.append(b"-"),
        Err(_) => out.append(b"x"),
    }
}

/// Gives the result for each row: the digit of a type, and a body.
fn again(alloc: Global, rows: &[u8]) -> Result<Bytes, OutOfMemory> {
    let mut out = Bytes::new(alloc);
    let mut left = rows;
    for _ in 0..rows.len() {
        let Some((row, rest)) = first_row(left) else {
            break;
        };
        if let [kind, body @ ..] = row {
            add_again(alloc, kind.wrapping_sub(b'0'), body, &mut out)?;
        }
        out.append(b"|")?;
        left = rest;
    }
    Ok(out)
}

#[test]
fn controls_are_written_and_read(rt: HostRuntime) -> Result<(), Fail> {
    let rows =
        b"1\x00\x00\x10\x00|2\x00\x00\x00\x06|3\x01\x02\x03\xff|4\x00\x00\x00\x00\x00\x01|4\x1f\x02\x0a\x0b\x0c\x0d|\
4\x00\x06\x00\x00\x00\x05|5\x00\x26\x25\xa0|6\x00\x26\x25\xa0\x02|7\x00\x00\x00\x00\x00|6\x00\x26\x25\xa0|4\x00\x06\x00\x00\x00|";
    let want =
        b"1\x00\x00\x10\x00|2\x00\x00\x00\x06|3\x01\x02\x03\xff|4\x00\x00\x00\x00\x00\x01|4\x1f\x02\x0a\x0b\x0c\x0d|\
4\x00\x06\x00\x00\x00\x054\x00\x07\x00\x00\x00\x05|5\x00\x26\x25\xa0|6\x00\x26\x25\xa0\x02|-|x|x|";
    let alloc = rt.alloc();
    assert_eq!(rt; again(alloc, rows)?.as_slice(), want.as_slice());
    let short = BadControl { kind: 6, length: 4 };
    assert_eq!(rt;
        format!(in alloc; "{short}")?.as_str(),
        "a control message of type 6 whose body has 4 bytes, which are too few"
    );
    Ok(())
}

#[test]
fn a_window_counts_from_the_byte_after_it_was_set(rt: HostRuntime) {
    let mut inbound = Inbound::new(5_000);
    assert_eq!(rt; inbound.took(2_500), None);
    inbound.set(1_000);
    assert_eq!(rt; inbound.room_to_next(), 500);
    assert_eq!(rt; inbound.took(500), Some(3_000));
    inbound.set(1);
    assert_eq!(rt; inbound.took(1_000), Some(4_000));
}

/// Tells whether a sender is held back that took an acknowledgement.
fn holds_acked(outbound: &mut Outbound, value: u32) -> bool {
    outbound.acked(value);
    outbound.held_back()
}

/// Tells whether a sender is held back after it sent that number of bytes.
fn holds_sent(outbound: &mut Outbound, count: u64) -> bool {
    outbound.sent(count);
    outbound.held_back()
}

/// Tells whether a sender is held back whose window was set.
fn holds_set(outbound: &mut Outbound, size: u32, limit: u8) -> bool {
    outbound.set(size, limit);
    outbound.held_back()
}

#[test]
fn a_sender_is_held_back_and_goes_on(rt: HostRuntime) {
    let mut outbound = Outbound::new(1_000);
    assert!(rt;
        !holds_sent(&mut outbound, 5_000),
        "before any acknowledgement"
    );
    assert!(rt; holds_acked(&mut outbound, 4_000), "1,000 bytes behind");
    assert!(rt; !holds_acked(&mut outbound, 4_001), "999 bytes behind");
    assert!(rt; !holds_acked(&mut outbound, 100), "an older one");
    assert!(rt; holds_sent(&mut outbound, 2_000), "2,999 bytes behind");
    assert!(rt; holds_set(&mut outbound, 3_000, 1), "the lesser window");
    assert!(rt; holds_set(&mut outbound, 3_000, 2), "no other limit");
    assert!(rt; !holds_set(&mut outbound, 3_000, 0), "a greater window");
    assert!(rt; holds_sent(&mut outbound, 1 << 32), "past 32 bits");
    assert!(rt; !holds_acked(&mut outbound, 7_000), "all that was sent");
}
