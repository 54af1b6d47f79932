// Plays seven courses of an exchange over the proved sides and notary, and then two exchanges of one side at once, and says how each ends.
#![tactic(auto)]

use anyhow::{Context, anyhow};
use contract::{Contract, cheated, is_contract};
use exchange::{Effect, Exchange, NO_LOCK, Order, Outcome, Post, State};
use notary::{Notary, Row};
use orders::{accept, ask, offer};
use papers::{Notice, Paper, Party, Secret, Terms};
use screening::receive;
use signing::Signatures;
use standin::{StandIn, directory};
use std::alloc::{AllocError, Global};

mod interleaved;

const FIRST: u16 = 1;

const SECOND: u16 = 2;

const NOTARY: u16 = 1;

const FIRST_KEY: [u8; 32] = [1; 32];

const SECOND_KEY: [u8; 32] = [2; 32];

const NOTARY_KEY: [u8; 32] = [3; 32];

const FIRST_SECRET: [u8; 32] = [4; 32];

const SECOND_SECRET: [u8; 32] = [5; 32];

const OTHER_SECRET: [u8; 32] = [6; 32];

// A side, with what it sent last.
#[derive(Drop)]
struct Side {
    keys: StandIn,
    exchange: Exchange,
    sent: Paper,
}

impl Side {
    fn new(keys: StandIn, opened: (Exchange, Post)) -> Side {
        let (exchange, post) = opened;
        Side {
            keys,
            exchange,
            sent: post.paper,
        }
    }

    // Its exchange goes on; what it sends is kept for who gets it.
    fn goes_on(&mut self, rt: &HostRuntime, outcome: Outcome) -> anyhow::Result<()> {
        let (exchange, effect) = outcome;
        self.exchange = exchange;
        match effect {
            Ok(Effect::Nothing) => println!(rt; "")?,
            Ok(Effect::Full) => println!(rt; ": there is no room for it")?,
            Ok(Effect::Send(post)) => {
                self.sent = post.paper;
                println!(rt; ", and sends {}", post.paper)?;
            }
            Err(fault) => println!(rt; ": refused, {}", fault.number())?,
        }
        Ok(())
    }

    fn asks(&mut self, rt: &HostRuntime) -> anyhow::Result<()> {
        print!(rt; "   side {} asks the notary", self.exchange.me())?;
        let outcome = ask(self.exchange, &self.keys);
        self.goes_on(rt, outcome)
    }

    fn gets(&mut self, rt: &HostRuntime, paper: Paper) -> anyhow::Result<()> {
        print!(rt; "   side {} gets {paper}", self.exchange.me())?;
        let outcome = receive(self.exchange, &self.keys, &paper);
        self.goes_on(rt, outcome)
    }

    // What its papers are worth. A text and no `Display`, which would name the side and not its papers.
    fn has(&self) -> &'static str {
        match self.exchange.state {
            State::Bound(papers) => {
                if is_contract(&self.keys, &papers) {
                    "a contract"
                } else {
                    "no contract"
                }
            }
            State::Free(_) => "the notary's Off",
            State::Offered
            | State::AskedOff(..)
            | State::Said(_)
            | State::AskedStands(..)
            | State::Accepted(_)
            | State::Asked(..) => "nothing yet",
        }
    }
}

// The notary, with what it answered last.
#[derive(Drop)]
struct Office {
    keys: StandIn,
    row: Row,
    answered: Option<Paper>,
}

impl Office {
    // It writes before it answers.
    fn gets(&mut self, rt: &HostRuntime, paper: Paper) -> anyhow::Result<()> {
        print!(rt; "   the notary gets {paper}")?;
        let notary = Notary {
            keys: &self.keys,
            number: NOTARY,
            clock: 0,
        };
        match notary.decide(&self.row, true, &paper) {
            Ok(decision) => {
                if let Some(notice) = decision.write {
                    self.row = Row::from(notice);
                    print!(rt; ", writes it")?;
                }
                self.answered = Some(decision.answer);
                println!(rt; ", and answers with {}", decision.answer)?;
            }
            Err(fault) => println!(rt; ": refused, {}", fault.number())?,
        }
        Ok(())
    }

    fn answer(&self) -> anyhow::Result<Paper> {
        self.answered.context("the notary has not answered")
    }

    fn forgets(&mut self, rt: &HostRuntime) -> anyhow::Result<()> {
        self.row = Row::Nothing;
        println!(rt; "   the notary forgets what it wrote, against the rules")?;
        Ok(())
    }
}

// Both sides and the notary; the second side's acceptance, and another one that it signs against the rules, with a question by it.
#[derive(Drop)]
struct Stage {
    first: Side,
    second: Side,
    notary: Office,
    acceptance: Paper,
    other_acceptance: Paper,
    other_question: Paper,
}

// One party's key, with the directory of all.
fn keys(heap: Global, own: &[u8; 32]) -> Result<StandIn, AllocError> {
    let parties = [
        (Party::Side(FIRST), FIRST_KEY),
        (Party::Side(SECOND), SECOND_KEY),
        (Party::Side(interleaved::THIRD), interleaved::THIRD_KEY),
        (Party::Notary(NOTARY), NOTARY_KEY),
    ];
    Ok(StandIn::new(own, directory(heap, &parties)?))
}

// The question that a side asks in this exchange.
fn asked_by(exchange: Exchange, keys: &StandIn) -> anyhow::Result<Paper> {
    let (_, outcome) = ask(exchange, keys);
    match outcome.context("a side cannot ask")? {
        Effect::Send(post) => Ok(post.paper),
        Effect::Nothing | Effect::Full => Err(anyhow!("a side cannot ask")),
    }
}

impl Stage {
    // Side 1 has made an offer to side 2, which has accepted it; the acceptance is under way.
    fn new(heap: Global) -> anyhow::Result<Stage> {
        let first_keys = keys(heap, &FIRST_KEY)?;
        let second_keys = keys(heap, &SECOND_KEY)?;
        let text = first_keys.digest(b"one violin, 1741");
        let order = Order {
            first: FIRST,
            second: SECOND,
            notary: NOTARY,
            terms: Terms::Plain,
            text,
            secret: FIRST_SECRET,
        };
        let made = offer(&first_keys, order).context("an order is refused")?;
        let (exchange, _) = made;
        let offer = exchange.offer;
        let accepted = accept(&second_keys, SECOND, offer, SECOND_SECRET).context(
            "an order is refused",
        )?;
        let (other, other_acceptance) = accept(&second_keys, SECOND, offer, OTHER_SECRET).context(
            "an order is refused",
        )?;
        let other_question = asked_by(other, &second_keys)?;
        let (_, acceptance) = accepted;
        Ok(Stage {
            first: Side::new(first_keys, made),
            second: Side::new(second_keys, accepted),
            notary: Office {
                keys: keys(heap, &NOTARY_KEY)?,
                row: Row::Nothing,
                answered: None,
            },
            acceptance: acceptance.paper,
            other_acceptance: other_acceptance.paper,
            other_question,
        })
    }

    // The first side's secret, said against the rules.
    fn first_secret(&self) -> Paper {
        let offer = self.first.exchange.id;
        Paper::Secret(Secret {
            offer,
            lock: NO_LOCK,
            secret: FIRST_SECRET,
        })
    }

    // Whether what the two sides hold shows that the notary cheated.
    fn shows_cheat(&self) -> bool {
        match (self.first.exchange.state, self.second.exchange.state) {
            (State::Free(off), State::Bound(Contract::Stands(stands))) => {
                cheated(&self.first.keys, &off, &Notice::from(stands))
            }
            (_, _) => false,
        }
    }

    fn tell_end(&self, rt: &HostRuntime) -> anyhow::Result<()> {
        let first = self.first.exchange.state;
        let second = self.second.exchange.state;
        let row = self.notary.row;
        println!(rt; "   first: {first}; second: {second}; book: {row}")?;
        let first = self.first.has();
        let second = self.second.has();
        println!(rt; "   the first side has {first}, the second has {second}")?;
        if self.shows_cheat() {
            println!(rt; "   both papers show that the notary cheated")?;
        }
        println!(rt; "")?;
        Ok(())
    }
}

// One course, by what is done after the acceptance is sent. A message that nobody gets is lost.
fn course<F: FnOnce(&mut Stage) -> anyhow::Result<()>>(
    rt: &HostRuntime,
    title: &str,
    play: F,
) -> anyhow::Result<()>
    requires { F.IsAlwaysCallable play }
{
    println!(rt; "{title}")?;
    println!(rt; "   side {FIRST} sends an offer to side {SECOND}")?;
    println!(rt; "   side {SECOND} gets it, and sends an acceptance")?;
    let mut stage = Stage::new(rt.alloc())?;
    play(&mut stage)?;
    stage.tell_end(rt)
}

fn the_acceptance_is_lost(rt: &HostRuntime) -> anyhow::Result<()> {
    course(
        rt,
        "C. The acceptance is lost, both ask, and the first side is first with the notary",
        |stage| {
            stage.first.asks(rt)?;
            stage.second.asks(rt)?;
            stage.notary.gets(rt, stage.first.sent)?;
            stage.first.gets(rt, stage.notary.answer()?)?;
            stage.notary.gets(rt, stage.second.sent)?;
            stage.second.gets(rt, stage.notary.answer()?)
        },
    )?;
    course(
        rt,
        "C. The acceptance is lost, both ask, and the second side is first with the notary",
        |stage| {
            stage.first.asks(rt)?;
            stage.second.asks(rt)?;
            stage.notary.gets(rt, stage.second.sent)?;
            stage.second.gets(rt, stage.notary.answer()?)?;
            stage.notary.gets(rt, stage.first.sent)?;
            stage.first.gets(rt, stage.notary.answer()?)
        },
    )
}

fn all_keep_to_the_rules(rt: &HostRuntime) -> anyhow::Result<()> {
    course(rt, "A. Offer, acceptance, secret, secret", |stage| {
        stage.first.gets(rt, stage.acceptance)?;
        stage.second.gets(rt, stage.first.sent)?;
        stage.first.gets(rt, stage.second.sent)
    })?;
    course(
        rt,
        "B. Called off; a later acceptance is refused",
        |stage| {
            stage.first.asks(rt)?;
            stage.notary.gets(rt, stage.first.sent)?;
            stage.first.gets(rt, stage.notary.answer()?)?;
            stage.first.gets(rt, stage.acceptance)?;
            stage.second.asks(rt)?;
            stage.notary.gets(rt, stage.second.sent)?;
            stage.second.gets(rt, stage.notary.answer()?)
        },
    )?;
    the_acceptance_is_lost(rt)?;
    course(rt, "D. Silence after the first secret", |stage| {
        stage.first.gets(rt, stage.acceptance)?;
        stage.first.asks(rt)?;
        stage.notary.gets(rt, stage.first.sent)?;
        stage.first.gets(rt, stage.notary.answer()?)
    })
}

fn somebody_breaks_the_rules(rt: &HostRuntime) -> anyhow::Result<()> {
    course(
        rt,
        "E. The first side calls off and says its secret all the same, against the rules",
        |stage| {
            stage.first.asks(rt)?;
            stage.notary.gets(rt, stage.first.sent)?;
            let secret = stage.first_secret();
            stage.second.gets(rt, secret)
        },
    )?;
    course(
        rt,
        "F. The second side signs two acceptances, against the rules",
        |stage| {
            stage.first.gets(rt, stage.acceptance)?;
            stage.first.gets(rt, stage.other_acceptance)?;
            stage.notary.gets(rt, stage.other_question)?;
            stage.first.asks(rt)?;
            stage.notary.gets(rt, stage.first.sent)?;
            stage.first.gets(rt, stage.notary.answer()?)
        },
    )?;
    course(rt, "G. The notary signs both, against the rules", |stage| {
        stage.first.asks(rt)?;
        stage.second.asks(rt)?;
        stage.notary.gets(rt, stage.first.sent)?;
        stage.first.gets(rt, stage.notary.answer()?)?;
        stage.notary.forgets(rt)?;
        stage.notary.gets(rt, stage.second.sent)?;
        stage.second.gets(rt, stage.notary.answer()?)
    })
}

fn main(rt: HostRuntime) -> anyhow::Result<()> {
    all_keep_to_the_rules(&rt)?;
    somebody_breaks_the_rules(&rt)?;
    interleaved::play(&rt)
}
