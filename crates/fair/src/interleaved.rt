// One side with two exchanges at once: one is called off while the other comes to its end.
use crate::{
    FIRST, FIRST_KEY, FIRST_SECRET, NOTARY, NOTARY_KEY, OTHER_SECRET, SECOND, SECOND_KEY,
    SECOND_SECRET, keys,
};
use anyhow::{Context, anyhow};
use exchange::Effect;
use notary::{Notary, Row};
use papers::{Offer, Paper, Terms};
use side::{News, Opened, Proposal, Refused, Side};
use signing::Signatures;
use standin::StandIn;
use std::alloc::Global;

pub const THIRD: u16 = 3;

pub const THIRD_KEY: [u8; 32] = [7; 32];

const THIRD_SECRET: [u8; 32] = [8; 32];

// A side by its number, which it is called by.
#[derive(Drop)]
struct Player {
    number: u16,
    side: Side<StandIn>,
}

// An order that a side was given, or why it is refused.
fn opened(order: Result<Opened, Refused>) -> anyhow::Result<Opened> {
    match order {
        Ok(opened) => Ok(opened),
        Err(Refused::Fault(fault)) => Err(anyhow!("an order is refused: {fault}")),
        Err(Refused::OutOfMemory) => Err(anyhow!("out of memory")),
    }
}

impl Player {
    fn new(heap: Global, number: u16, key: &[u8; 32]) -> anyhow::Result<Player> {
        let side = Side::new(heap, number, keys(heap, key)?);
        Ok(Player { number, side })
    }

    // The offer that it makes to this side, and the exchange's id.
    fn offers(
        &mut self,
        rt: &HostRuntime,
        second: u16,
        secret: [u8; 32],
    ) -> anyhow::Result<([u8; 32], Offer)> {
        let number = self.number;
        println!(rt; "   side {number} sends an offer to side {second}")?;
        let opened = opened(
            self.side.offer(Proposal {
                second,
                notary: NOTARY,
                terms: Terms::Plain,
                text: [9; 32],
                secret,
            }),
        )?;
        let id = opened.id;
        match opened.post.paper {
            Paper::Offer(offer) => Ok((id, offer)),
            _ => Err(anyhow!("no offer is sent")),
        }
    }

    fn accepts(
        &mut self,
        rt: &HostRuntime,
        offer: Offer,
        secret: [u8; 32],
    ) -> anyhow::Result<Paper> {
        println!(rt; "   side {} gets it, and sends an acceptance", self.number)?;
        let opened = opened(self.side.accept(offer, secret))?;
        Ok(opened.post.paper)
    }

    fn asks(&mut self, rt: &HostRuntime, id: &[u8; 32], with: u16) -> anyhow::Result<Paper> {
        print!(rt;
            "   side {} asks the notary about that with side {with}",
            self.number
        )?;
        sent(rt, self.side.ask(id).context("a side cannot ask")?)?.context("nothing is sent")
    }

    fn gets(
        &mut self,
        rt: &HostRuntime,
        from: &str,
        paper: Paper,
    ) -> anyhow::Result<Option<Paper>> {
        print!(rt; "   side {} gets {paper}{from}", self.number)?;
        match self.side.hear(&paper) {
            Ok(news) => sent(rt, news),
            Err(fault) => {
                println!(rt; ": refused, {}", fault.number())?;
                Ok(None)
            }
        }
    }
}

// What is sent, said and handed on.
fn sent(rt: &HostRuntime, news: News) -> anyhow::Result<Option<Paper>> {
    match news {
        News::Moved {
            effect: Effect::Send(post),
            ..
        } => {
            println!(rt; ", and sends {}", post.paper)?;
            Ok(Some(post.paper))
        }
        News::Moved { .. } | News::Offered(_) => {
            println!(rt; "")?;
            Ok(None)
        }
    }
}

fn notary_answers(rt: &HostRuntime, paper: Paper) -> anyhow::Result<Paper> {
    let keys = keys(rt.alloc(), &NOTARY_KEY)?;
    let notary = Notary {
        keys: &keys,
        number: NOTARY,
        clock: 0,
    };
    let decision = notary
        .decide(&Row::Nothing, true, &paper)
        .context("the notary refuses")?;
    println!(rt;
        "   the notary gets {paper}, writes it, and answers with {}",
        decision.answer
    )?;
    Ok(decision.answer)
}

pub(crate) fn play(rt: &HostRuntime) -> anyhow::Result<()> {
    println!(rt;
        "H. Two exchanges of one side at once; one is called off, the other comes to its end"
    )?;
    let heap = rt.alloc();
    let mut first = Player::new(heap, FIRST, &FIRST_KEY)?;
    let mut second = Player::new(heap, SECOND, &SECOND_KEY)?;
    let mut third = Player::new(heap, THIRD, &THIRD_KEY)?;
    let (off_id, to_second) = first.offers(rt, SECOND, FIRST_SECRET)?;
    let (bound_id, to_third) = first.offers(rt, THIRD, OTHER_SECRET)?;
    let late = second.accepts(rt, to_second, SECOND_SECRET)?;
    let acceptance = third.accepts(rt, to_third, THIRD_SECRET)?;
    let wish = first.asks(rt, &off_id, SECOND)?;
    let said = first
        .gets(rt, " of side 3", acceptance)?
        .context("nothing is said")?;
    let off = notary_answers(rt, wish)?;
    let answer = third
        .gets(rt, " of side 1", said)?
        .context("nothing is said")?;
    first.gets(rt, "", off)?;
    first.gets(rt, " of side 3", answer)?;
    first.gets(rt, " of side 2", late)?;
    let with_second = first.side.look(&off_id).context("no exchange")?;
    let with_third = first.side.look(&bound_id).context("no exchange")?;
    println!(rt;
        "   with side 2: {}; with side 3: {}",
        with_second.state, with_third.state
    )?;
    println!(rt; "")?;
    Ok(())
}
