// One exchange, as one side sees it: a value that takes an event and gives what comes next and what is sent.
#![tactic(auto)]

ghost use Rattle.std.specs.Prelude.{◌≡◌};
ghost use Rattle.papers.specs.Fault.{number};
ghost use Rattle.exchange.specs.Steps.{outcome, with_state, refuse, go_on, me, to_notary, ended};
ghost use Rattle.exchange.specs.declared.Effect.TheVariants.{Send};

use contract::Contract;
use papers::{Acceptance, Fault, Notice, Off, Offer, Paper, Party, Question, Terms};

mod step;
mod tick;
mod words;

// In the place of the lock, for the first side's secret.
pub const NO_LOCK: [u8; 32] = [0; 32];

// Which side of the offer this one is.
#[derive(Clone, Copy)]
pub enum Role {
    First,
    Second,
}

// How far the exchange has come. A question is kept as it was signed, with the ticks since it was sent: the two stand in three cases, and a struct for them would be one more
// name in each line of the table of states.
#[derive(Clone, Copy)]
pub enum State {
    // the first side has made its offer
    Offered,
    // the first side has asked the notary to call it off
    AskedOff(Off, u8),
    // the first side keeps this acceptance, and has said its secret
    Said(Acceptance),
    // the first side has asked the notary by the acceptance that it keeps
    AskedStands(Question, u8),
    // the second side has made this acceptance
    Accepted(Acceptance),
    // the second side has asked the notary by its acceptance
    Asked(Question, u8),
    // ended, with a contract
    Bound(Contract),
    // ended without one, by the notary's Off
    Free(Notice),
}

// `id` is the offer's digest, `secret` what this side has drawn for the exchange.
#[derive(Clone, Copy)]
pub struct Exchange {
    pub role: Role,
    pub id: [u8; 32],
    pub offer: Offer,
    pub secret: [u8; 32],
    pub state: State,
}

// A paper for somebody.
#[derive(Clone, Copy)]
pub struct Post {
    pub to: Party,
    pub paper: Paper,
}

// What a step that is not refused does besides the next state.
#[derive(Clone, Copy)]
pub enum Effect {
    Nothing,
    Send(Post),
    // the notary has no room for this side's row: no answer, but to be reported
    Full,
}

impl Effect {
    // The paper goes to this party.
    pub(crate) fn send(to: Party, paper: Paper) -> Effect
        ensures { result ≡ Send (record { to = to; paper = paper }) }
    {
        Effect::Send(Post { to, paper })
    }
}

// The exchange after a step, and what the step does, or why it is refused.
pub type Outcome = (Exchange, Result<Effect, Fault>);

// What an order to make an offer says.
#[derive(Clone, Copy)]
pub struct Order {
    pub first: u16,
    pub second: u16,
    pub notary: u16,
    pub terms: Terms,
    pub text: [u8; 32],
    pub secret: [u8; 32],
}

impl Exchange {
    // Whether it has come to an end: it changes no more and sends nothing.
    pub fn ended(&self) -> bool
        ensures { result ≡ ended self.now.state }
    {
        match &self.state {
            State::Offered
            | State::AskedOff(..)
            | State::Said(_)
            | State::AskedStands(..)
            | State::Accepted(_)
            | State::Asked(..) => false,
            State::Bound(_) | State::Free(_) => true,
        }
    }

    // This side's number.
    pub fn me(&self) -> u16
        ensures { result ≡ me self.now }
    {
        match self.role {
            Role::First => self.offer.first,
            Role::Second => self.offer.second,
        }
    }

    // Waits in this state, and sends the question to the notary of the offer.
    pub fn ask_by(self, waiting: State, question: Paper) -> (Exchange, Effect)
        ensures { result ≡ (with_state self waiting, to_notary self question) }
    {
        let sent = Effect::send(Party::Notary(self.offer.notary), question);
        (self.in_state(waiting), sent)
    }

    fn in_state(self, state: State) -> Exchange
        ensures { result ≡ with_state self state }
    {
        Exchange { state, ..self }
    }

    fn go_on(self, state: State, effect: Effect) -> Outcome
        ensures { outcome result ≡ go_on self state effect }
    {
        (self.in_state(state), Ok(effect))
    }

    // A refusal leaves the exchange as it was.
    fn refuse(self, fault: Fault) -> Outcome
        ensures { outcome result ≡ refuse self (number fault) }
    {
        (self, Err(fault))
    }
}
