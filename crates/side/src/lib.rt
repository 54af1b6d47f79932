// A side with many exchanges beside each other, in both roles, each as if it were alone.
#![tactic(auto)]

ghost use Rattle.side.specs.declared.Refused.TheVariants.{Fault as by_fault, OutOfMemory};
ghost use Rattle.std.specs.Prelude.{◌≡◌};

pub use calls::{Proposal, Side};
use exchange::{Effect, Post};
use papers::Fault;
use std::alloc::AllocError;

mod calls;
mod table;

// An order that made an exchange: its id, and what is sent first.
#[derive(Clone, Copy)]
pub struct Opened {
    pub id: [u8; 32],
    pub post: Post,
}

// What came of a message that was not refused.
#[derive(Clone, Copy)]
pub enum News {
    // a good offer to this side, by its id; nothing is kept of it
    Offered([u8; 32]),
    // this exchange went on
    Moved {
        id: [u8; 32],
        effect: Effect,
        ended_now: bool,
    },
}

// Why a call does nothing.
#[derive(Clone, Copy, Debug, PartialEq, Eq)]
pub enum Refused {
    Fault(Fault),
    OutOfMemory,
}

impl From<Fault> for Refused {
    ghost from_gives = { λ f r. r ≡ by_fault f };

    fn from(fault: Fault) -> Refused {
        Refused::Fault(fault)
    }
}

impl From<AllocError> for Refused {
    ghost from_gives = { λ _ r. r ≡ OutOfMemory };

    fn from(_e: AllocError) -> Refused {
        Refused::OutOfMemory
    }
}
