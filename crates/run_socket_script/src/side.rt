//! An end, and a script that is run on two of them.

use crate::driven::Driven;
use crate::moves::run_lines;
use crate::output::Output;
use crate::setup::setup_of;
use sctp_state::CallError;
use std::alloc::Global;

/// A socket, and all packets that it emitted.
pub struct Side<S> {
    pub name: &'static str,
    pub socket: S,
    pub packets: Vec<Vec<u8>>,
}

fn new_side<S>(alloc: Global, name: &'static str, socket: S) -> Side<S> {
    Side {
        name,
        socket,
        packets: Vec::new(alloc),
    }
}

fn close<S: Driven>(side: Side<S>) {
    let Side {
        name: _,
        socket,
        packets: _packets,
    } = side;
    socket.let_go();
}

fn converse_as<S: Driven>(alloc: Global, a: S, b: S, lines: &str, output: &mut Output) {
    let (mut a, mut b) = (new_side(alloc, "a", a), new_side(alloc, "b", b));
    run_lines(alloc, &mut a, &mut b, lines, output);
    close(a);
    close(b);
}

fn let_go<S: Driven>(socket: Result<S, CallError>) {
    match socket {
        Ok(socket) => socket.let_go(),
        Err(_) => {}
    }
}

/// Runs the lines on two new sockets, where both could be made.
pub fn converse<S: Driven>(alloc: Global, lines: &str, output: &mut Output) {
    let setup = setup_of(alloc, lines, output);
    let a: Result<S, CallError> = S::made(alloc, "a", &setup.a);
    let b: Result<S, CallError> = S::made(alloc, "b", &setup.b);
    match (a, b) {
        (Ok(a), Ok(b)) => converse_as(alloc, a, b, lines, output),
        (a, b) => {
            let_go(a);
            let_go(b);
            writeln!(output, "no sockets");
        }
    }
}
