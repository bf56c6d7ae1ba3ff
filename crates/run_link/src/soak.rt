//! Conversations of many messages over a link that loses, repeats and reorders packets: says what was sent and what came.
//!
//! Every third message is partially reliable: it is sent again at most once, or not at all. When both ends have sent so many messages
//! as the last number of a plan says, and again at the end, the conversation stops until all is quiet, and what came and what the sockets
//! hold is printed; behind the word `packets` also how many packets it took.

mod conversation;
mod end;
mod link;
mod messages;

use crate::Owned;
use anyhow::Result;
use conversation::converse;
use link::Link;
pub use messages::Plan;
use rand_pcg::Pcg32;

fn number(word: Option<&str>) -> u32 {
    match word {
        Some(word) => word.parse::<u32>().unwrap_or(0),
        None => 0,
    }
}

/// `[packets] COUNT SEED LOST TWICE LATE RESET FIRST`: how many messages each end sends, the seed of the link, of how many packets one is
/// lost, one is given twice and one comes late (0: none), after how many messages a stream is reset (0: never), and after how many messages
/// the sockets are looked at first.
pub fn plan_of(line: &str) -> Option<Plan> {
    let mut words = line.strip_prefix("packets ").unwrap_or(line).split(' ');
    let plan = Plan {
        count: number(words.next()),
        seed: number(words.next()),
        lost: number(words.next()),
        twice: number(words.next()),
        late: number(words.next()),
        reset: number(words.next()),
        first: number(Some(words.next()?)),
        shows_packets: line.starts_with("packets "),
    };
    match words.next() {
        Some(_) => None,
        None => Some(plan),
    }
}

/// Runs a conversation of two new sockets.
pub fn soak<S: Owned>(rt: &HostRuntime, a: S, b: S, plan: Plan) -> Result<()> {
    let link = Link::new(Pcg32::new(u64::from(plan.seed), 3), plan);
    converse(rt, a, b, link, plan)
}
