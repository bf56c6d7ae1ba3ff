//! Arrows from where a packet was sent to where it was given, and crosses where it never was.

ghost use Rattle.std.specs.Prelude.{◌≡◌, IfOk, OnOk, ◌++◌};
ghost use Rattle.sctp_trace.specs.Giving.{row_arrow, arrows, cross_if_lost, row_cross, crosses};
ghost use Rattle.sctp_trace.specs.Followed.{IsFollowed};

use crate::conversation::Conversation;
use crate::rows::{End, Row, What};
use std::alloc::{AllocError, Global};

/// A packet's way: rows count from 0.
#[derive(Clone, Copy)]
pub struct Arrow {
    pub from: End,
    /// The packet's number among those of its end, from 0 on.
    pub number: usize,
    /// The row in which it was sent, where there is one.
    pub sent: Option<usize>,
    /// The row in which it was given.
    pub given: usize,
}

/// A packet that was never given: its end, and the row in which it was sent.
#[derive(Clone, Copy)]
pub struct Cross {
    pub from: End,
    pub sent: usize,
}

fn push_arrow(
    arrows: &mut Vec<Arrow>,
    conversation: &Conversation,
    at: usize,
    row: &Row,
) -> Result<(), AllocError>
    requires { IsFollowed conversation.now }
    ensures { OnOk result (arrows.new.items ≡ arrows.old.items ++ row_arrow conversation.now.rows.now at row.now) }
{
    if let What::Given(number) = &row.what {
        let from = row.end.other();
        let sent = conversation.sending(from, *number);
        arrows.push(Arrow {
            from,
            number: *number,
            sent,
            given: at,
        })?;
    }
    Ok(())
}

/// An arrow for each giving, in their order.
pub fn arrows(alloc: Global, conversation: &Conversation) -> Result<Vec<Arrow>, AllocError>
    requires { IsFollowed conversation.now }
    ensures { IfOk result (λ found. found.items ≡ arrows conversation.now.rows.now) }
{
    let mut found = Vec::new(alloc);
    for at in 0..conversation.rows.len() {
        push_arrow(&mut found, conversation, at, &conversation.rows[at])?;
    }
    Ok(found)
}

fn push_if_lost(crosses: &mut Vec<Cross>, times: usize, cross: Cross) -> Result<(), AllocError>
    ensures { OnOk result (crosses.new.items ≡ crosses.old.items ++ cross_if_lost times cross) }
{
    match times {
        0 => crosses.push(cross)?,
        _ => {}
    }
    Ok(())
}

fn push_cross(
    crosses: &mut Vec<Cross>,
    conversation: &Conversation,
    at: usize,
    row: &Row,
) -> Result<(), AllocError>
    requires { IsFollowed conversation.now }
    ensures { OnOk result (crosses.new.items ≡ crosses.old.items ++ row_cross conversation.now.rows.now at row.now) }
{
    if let What::Sent(number, _, _) = &row.what {
        let times = conversation.times_given(row.end, *number);
        let cross = Cross {
            from: row.end,
            sent: at,
        };
        push_if_lost(crosses, times, cross)?;
    }
    Ok(())
}

/// A cross for each row in which a packet is sent that is never given, in their order.
pub fn crosses(alloc: Global, conversation: &Conversation) -> Result<Vec<Cross>, AllocError>
    requires { IsFollowed conversation.now }
    ensures { IfOk result (λ found. found.items ≡ crosses conversation.now.rows.now) }
{
    let mut found = Vec::new(alloc);
    for at in 0..conversation.rows.len() {
        push_cross(&mut found, conversation, at, &conversation.rows[at])?;
    }
    Ok(found)
}
