//! The link between the ends.

use crate::soak::end::Talker;
use crate::soak::messages::Plan;
use rand_core::Rng;
use std::alloc::AllocError;

/// What becomes of packets is drawn from `rng`.
#[derive(Drop)]
pub struct Link<R> {
    rng: R,
    plan: Plan,
}

/// What becomes of a packet.
#[derive(Clone, Copy)]
struct Fate {
    is_lost: bool,
    is_twice: bool,
    is_late: bool,
}

fn one_in<R: Rng>(rng: &mut R, many: u32) -> bool {
    let word = rng.next_u32();
    many != 0 && word % many == 0
}

impl<R: Rng> Link<R> {
    pub fn new(rng: R, plan: Plan) -> Link<R> {
        Link { rng, plan }
    }

    fn fate(&mut self) -> Fate {
        let plan = self.plan;
        Fate {
            is_lost: one_in(&mut self.rng, plan.lost),
            is_twice: one_in(&mut self.rng, plan.twice),
            is_late: one_in(&mut self.rng, plan.late),
        }
    }
}

/// A packet comes at once, or behind those that the next turn brings.
fn put<S>(to: &mut Talker<S>, bytes: Vec<u8>, is_late: bool) -> Result<(), AllocError> {
    let place = if is_late {
        &mut to.later
    } else {
        &mut to.end.came
    };
    place.push(bytes)?;
    Ok(())
}

fn put_twice<S>(to: &mut Talker<S>, bytes: &Vec<u8>, fate: Fate) -> Result<(), AllocError> {
    if fate.is_twice {
        put(to, bytes.clone()?, false)?;
    }
    put(to, bytes.clone()?, fate.is_late)
}

/// What one end sent goes to the other, and then what was late.
pub fn carry<S, R: Rng>(
    link: &mut Link<R>,
    from: &mut Talker<S>,
    to: &mut Talker<S>,
) -> Result<(), AllocError> {
    for bytes in &from.end.sent {
        from.counts.packets = from.counts.packets.saturating_add(1);
        let fate = link.fate();
        if fate.is_lost {
            from.counts.lost = from.counts.lost.saturating_add(1);
        } else {
            put_twice(to, bytes, fate)?;
        }
    }
    from.end.sent.clear();
    to.end.came.append(&mut to.late)?;
    std::mem::swap(&mut to.late, &mut to.later);
    Ok(())
}
