// A side that has taken many offers, and hears messages that it refuses: how long it takes is measured from outside, so that it needs no clock.
#![tactic(auto)]

use anyhow::{Context, Result, bail, ensure};
use exchange::Effect;
use notary::{Notary, Row};
use papers::{Fault, Paper, Party, Secret, Terms};
use side::{News, Proposal, Side};
use signing::Signatures;
use standin::{StandIn, directory};
use std::alloc::{AllocError, Global};
use std::env;

const USAGE: &str = "usage: pace TAKEN HEARD
Makes a side that has taken TAKEN offers, each of which has ended, and 3 that go on,
and passes HEARD messages to it that it refuses, of one offer after another.
TAKEN is at most 65533. The signatures are a stand-in, and no protection.";

const FIRST: u16 = 1;

const SECOND: u16 = 2;

const NOTARY: u16 = 1;

const FIRST_KEY: [u8; 32] = [1; 32];

const SECOND_KEY: [u8; 32] = [2; 32];

const NOTARY_KEY: [u8; 32] = [3; 32];

const TEXT: [u8; 32] = [4; 32];

const SECRET: [u8; 32] = [5; 32];

const WRONG_SECRET: [u8; 32] = [6; 32];

// How many offers may be taken in all, but for those that go on.
const MOST: u32 = 65533;

// From one message's offer to the next one's, in the order in which they were made: a prime, so that they are all come to.
const STRIDE: usize = 7919;

// What the arguments ask for.
#[derive(Clone, Copy)]
enum Asked {
    Help,
    Measure { taken: u32, heard: u32 },
}

fn number(name: &str, word: &str) -> Result<u32> {
    word.parse::<u32>()
        .ok()
        .context(format_args!("{name} is no number: {word}"))
}

// What these words ask for, the program's own name before them.
fn parse(words: &[String]) -> Result<Asked> {
    match words {
        [_, word] if word.as_str() == "--help" => Ok(Asked::Help),
        [_, taken, heard] => {
            let taken = number("TAKEN", taken)?;
            let heard = number("HEARD", heard)?;
            ensure!(taken <= MOST, "TAKEN is at most {MOST}, and not {taken}");
            Ok(Asked::Measure { taken, heard })
        }
        _ => bail!("two numbers are wanted, TAKEN and HEARD; --help says more"),
    }
}

// One party's key, with the directory of the three.
fn keys(heap: Global, own: &[u8; 32]) -> Result<StandIn, AllocError> {
    let parties = [
        (Party::Side(FIRST), FIRST_KEY),
        (Party::Side(SECOND), SECOND_KEY),
        (Party::Notary(NOTARY), NOTARY_KEY),
    ];
    Ok(StandIn::new(own, directory(heap, &parties)?))
}

// A secret for each number.
fn drawn(number: u32) -> [u8; 32] {
    let [a, b, c, d] = number.to_be_bytes();
    let mut secret = [7; 32];
    secret[0] = a;
    secret[1] = b;
    secret[2] = c;
    secret[3] = d;
    secret
}

// The question that comes of asking.
fn question_in(news: News) -> Option<Paper> {
    match news {
        News::Moved {
            effect: Effect::Send(post),
            ..
        } => Some(post.paper),
        News::Moved { .. } | News::Offered(_) => None,
    }
}

// A side, the notary's keys, and the ids of the side's offers.
#[derive(Drop)]
struct Desk {
    side: Side<StandIn>,
    notary: StandIn,
    ids: Vec<[u8; 32]>,
}

impl Desk {
    fn new(heap: Global) -> Result<Desk> {
        Ok(Desk {
            side: Side::new(heap, FIRST, keys(heap, &FIRST_KEY)?),
            notary: keys(heap, &NOTARY_KEY)?,
            ids: Vec::new(heap),
        })
    }

    // One more offer, by the secret of this number.
    fn offer(&mut self, number: u32) -> Result<[u8; 32]> {
        let proposal = Proposal {
            second: SECOND,
            notary: NOTARY,
            terms: Terms::Plain,
            text: TEXT,
            secret: drawn(number),
        };
        let Ok(opened) = self.side.offer(proposal) else {
            bail!("an offer is refused");
        };
        self.ids.push(opened.id)?;
        Ok(opened.id)
    }

    // It is called off, and the notary's Off comes.
    fn call_off(&mut self, id: &[u8; 32]) -> Result<()> {
        let question = question_in(self.side.ask(id)?).context("nothing is asked")?;
        let notary = Notary {
            keys: &self.notary,
            number: NOTARY,
            clock: 0,
        };
        let decision = notary.decide(&Row::Nothing, true, &question)?;
        self.side.hear(&decision.answer)?;
        Ok(())
    }

    // These many offers that have ended, and three that go on.
    fn take(&mut self, taken: u32) -> Result<()> {
        for number in 0..taken {
            let id = self.offer(number)?;
            self.call_off(&id)?;
        }
        for number in MOST..MOST + 3 {
            self.offer(number)?;
        }
        Ok(())
    }

    // A secret of the second side for this offer, which opens the lock that it names or does not: is it refused?
    fn refuses(&mut self, offer: [u8; 32], lock: [u8; 32], secret: [u8; 32]) -> bool {
        let said = Secret {
            offer,
            lock,
            secret,
        };
        match self.side.hear(&Paper::Secret(said)) {
            Err(Fault::WrongSecret | Fault::OutOfPlace) => true,
            Ok(_) | Err(_) => false,
        }
    }

    // The offer that the message of this number is of.
    fn id_for(&self, number: u32) -> Option<[u8; 32]> {
        let place = (number as usize * STRIDE).checked_rem(self.ids.len())?;
        Some(*self.ids.get(place)?)
    }

    // How many of so many messages are refused.
    fn hear(&mut self, heard: u32) -> Result<u64> {
        let lock = self.notary.digest(&SECRET);
        let mut refused = 0u64;
        for number in 0..heard {
            let secret = if number % 2 == 0 {
                SECRET
            } else {
                WRONG_SECRET
            };
            let id = self.id_for(number).context("there is no offer")?;
            if self.refuses(id, lock, secret) {
                refused += 1;
            }
        }
        Ok(refused)
    }
}

fn measure(rt: &(impl Print + Alloc), heap: Global, taken: u32, heard: u32) -> Result<()> {
    let mut desk = Desk::new(heap)?;
    desk.take(taken)?;
    let refused = desk.hear(heard)?;
    println!(rt; "taken {taken}, heard {heard}, refused {refused}")?;
    Ok(())
}

fn main(rt: HostRuntime) -> Result<()> {
    let words: Vec<String> = env::args(&rt)?.collect(rt.alloc())?;
    match parse(&words)? {
        Asked::Help => println!(rt; "{USAGE}")?,
        Asked::Measure { taken, heard } => measure(&rt, rt.alloc(), taken, heard)?,
    }
    Ok(())
}
