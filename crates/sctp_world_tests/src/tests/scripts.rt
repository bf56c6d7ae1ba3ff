//! Scripts that are long: how much a line and a message hold, and a thousand messages. Where memory lacks for a text it is another one,
//! and the test fails.

use crate::tests::run;
use std::alloc::Global;

/// Both ends connect.
const OPENING: &str = "connect a\ngive a 0 b\ngive b 0 a\ngive a 1 b\ngive b 1 a\n";

/// What that prints.
const OPENED: &str =
    "a packet 0 44\nb packet 0 96\na packet 1 64\nb event OnConnected\nb packet 1 16\na event OnConnected\n";

fn add(text: &mut String, part: &str) {
    let _is_added = text.push_str(part).is_ok();
}

/// Whether the script prints this behind what the opening prints.
fn prints(alloc: Global, script: &str, want: &str) -> bool {
    let mut wanted = String::new(alloc);
    add(&mut wanted, OPENED);
    add(&mut wanted, want);
    let mut out = Vec::new(alloc);
    let end = run(alloc, script.as_bytes(), &mut out);
    end.is_ok() & (out.as_slice() == wanted.as_bytes())
}

/// The command that sends so many zeros.
fn send(script: &mut String, size: usize) {
    add(script, "send a 1 53 ");
    for _ in 0..size {
        add(script, "00");
    }
    add(script, " id 3\n");
}

/// Whether a message of so many zeros is answered so.
fn answers(alloc: Global, size: usize, want: &str) -> bool {
    let mut script = String::new(alloc);
    add(&mut script, OPENING);
    send(&mut script, size);
    prints(alloc, &script, want)
}

#[test]
fn too_long_a_message(rt: HostRuntime) {
    let refused =
        "a refused MessageTooLarge\na event OnLifecycleEnd 3\na event OnError ProtocolViolation: Unable to send too large message\n";
    let sent = "a packet 2 1188\na packet 3 1188\na packet 4 1188\na packet 5 1188\n";
    assert!(rt; answers(rt.alloc(), 262_145, refused) & answers(rt.alloc(), 262_144, sent));
}

/// Whether the line that sends so many zeros is a command.
fn is_command(alloc: Global, size: usize) -> bool {
    let mut script = String::new(alloc);
    send(&mut script, size);
    let mut out = Vec::new(alloc);
    run(alloc, script.as_bytes(), &mut out).is_ok()
}

#[test]
fn too_long_a_line(rt: HostRuntime) {
    // with as many zeros the line has 1,048,575 bytes, and with one more 1,048,577
    assert!(rt; is_command(rt.alloc(), 524_279) & !is_command(rt.alloc(), 524_280));
}

/// Sends and gives the packets `first` and the next one of a, and gives the packet `reply` of b between; and what that prints.
fn add_two(script: &mut String, want: &mut String, first: u32, reply: u32) {
    let second = first.saturating_add(1);
    let _ = write!(
        script,
        "send a 1 53 {first:08x}\ngive a {first} b\ngive b {reply} a\nrecv b\nsend a 1 53 {second:08x}\ngive a {second} b\nrecv b\n"
    );
    let _ = write!(
        want,
        "a event OnBufferedAmountLow 1\na packet {first} 32\nb packet {reply} 28\nb message 1 53 {first:08x}\na event OnBufferedAmountLow 1\na packet {second} 32\nb message 1 53 {second:08x}\n"
    );
}

/// Whether a thousand messages, each sent and given before the next, are received in order. The first is acknowledged at
/// once, of the others every second one, and the last when the acknowledgement has waited for 200 ms.
fn cross_in_order(alloc: Global) -> bool {
    let mut script = String::new(alloc);
    let mut want = String::new(alloc);
    add(&mut script, OPENING);
    for number in 1..501 {
        add_two(&mut script, &mut want, number * 2, number + 1);
    }
    add(&mut script, "time 200\ngive b 502 a\n");
    add(&mut want, "b packet 502 28\n");
    prints(alloc, &script, &want)
}

#[test]
fn a_thousand_messages(rt: HostRuntime) {
    assert!(rt; cross_in_order(rt.alloc()));
}
