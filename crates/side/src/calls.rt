// What can be asked of a side.
ghost use Rattle.std.specs.Prelude.{◌≡◌, ℕ, [], Some, IfOk, OnErr};
ghost use Rattle.signing.specs.Checks.{by_number, fault_in, ident};
ghost use Rattle.papers.specs.Fault.{number};
ghost use Rattle.side.specs.Table.{lookup, unknown, found, offer_fault, judging, side_offer, side_accept, side_ask, side_hears, ticked, tick_posts};
ghost use Rattle.side.specs.Refused.{Gives};

use crate::table::Table;
use crate::{News, Opened, Refused};
use exchange::{Exchange, Order, Post};
use orders::{accept, ask, offer, unsigned_offer};
use papers::{Encode, Fault, Offer, Paper, Terms};
use screening::{addressed, receive};
use signing::{Signatures, parties_known, vet};
use std::alloc::{AllocError, Global};

// A side: its number, its keys, and its exchanges.
#[derive(Drop)]
pub struct Side<K> {
    number: u16,
    keys: K,
    table: Table,
}

// What an offer of this side says, and the secret that is drawn for it.
#[derive(Clone, Copy)]
pub struct Proposal {
    pub second: u16,
    pub notary: u16,
    pub terms: Terms,
    pub text: [u8; 32],
    pub secret: [u8; 32],
}

impl<K: Signatures + Drop> Side<K> {
    pub fn new(heap: Global, number: u16, keys: K) -> Side<K>
        ensures number { result.number ≡ number }
        ensures keys { result.keys ≡ keys }
        ensures table { result.table ≡ [] }
    {
        Side {
            number,
            keys,
            table: Table::new(heap),
        }
    }

    // The exchange with this id.
    pub fn look(&self, id: &[u8; 32]) -> Option<Exchange>
        ensures { result ≡ lookup self.now.table id.now }
    {
        let (_, exchange) = self.table.find(id)?;
        Some(exchange)
    }

    // Makes an offer. Nothing is signed before the other checks are passed.
    #[tactic(auto, unfolding(crate::specs::Table::side_offer))]
    pub fn offer(&mut self, proposal: Proposal) -> Result<Opened, Refused>
        ensures answer { Gives (side_offer (K.scheme self.old.keys) (K.signs self.old.keys) self.old.table (record { first = self.old.number; second = proposal.second; notary = proposal.notary; terms = proposal.terms; text = proposal.text; secret = proposal.secret })) self.old.table self.new.table result }
        ensures same { (self.new.number ≡ self.old.number) × (self.new.keys ≡ self.old.keys) }
    {
        let text = proposal.text;
        let secret = proposal.secret;
        let order = Order {
            first: self.number,
            second: proposal.second,
            notary: proposal.notary,
            terms: proposal.terms,
            text,
            secret,
        };
        self.may_offer(&order)?;
        let (exchange, post) = offer(&self.keys, order)?;
        self.table.open(exchange, post)
    }

    // What is wrong with an order to make an offer, before anything is signed.
    fn may_offer(&self, order: &Order) -> Result<(), Fault>
        ensures { fault_in result ≡ offer_fault (K.scheme self.now.keys) (K.signs self.now.keys) self.now.table order.now }
    {
        if !parties_known(&self.keys, &unsigned_offer(&self.keys, order)) {
            return Err(Fault::UnknownParty);
        }
        if !self.table.has_room() {
            return Err(Fault::TooMany);
        }
        if self.table.uses(&order.secret) {
            return Err(Fault::OutOfPlace);
        }
        Ok(())
    }

    // Accepts an offer, with this secret drawn for it. Nothing is signed before the other checks are passed.
    #[tactic(auto, unfolding(crate::specs::Table::side_accept))]
    pub fn accept(&mut self, offer: Offer, secret: [u8; 32]) -> Result<Opened, Refused>
        ensures answer { Gives (side_accept (K.scheme self.old.keys) (K.signs self.old.keys) self.old.number self.old.table offer secret) self.old.table self.new.table result }
        ensures same { (self.new.number ≡ self.old.number) × (self.new.keys ≡ self.old.keys) }
    {
        self.judge(&offer)?;
        if self.table.uses(&secret) {
            return Err(Refused::Fault(Fault::OutOfPlace));
        }
        let (exchange, post) = accept(&self.keys, self.number, offer, secret)?;
        self.table.open(exchange, post)
    }

    // Asks the notary in this exchange.
    #[tactic(auto, unfolding(crate::specs::Table::side_ask))]
    pub fn ask(&mut self, id: &[u8; 32]) -> Result<News, Fault>
        ensures answer { (self.new.table, by_number result) ≡ side_ask (K.scheme self.old.keys) (K.signs self.old.keys) self.old.table id.now }
        ensures same { (self.new.number ≡ self.old.number) × (self.new.keys ≡ self.old.keys) }
    {
        let (place, exchange) = self.table.known(id)?;
        let outcome = ask(exchange, &self.keys);
        self.table.moved(place, &exchange, outcome)
    }

    // A message comes.
    #[tactic(auto, unfolding(crate::specs::Table::side_hears))]
    pub fn hear(&mut self, paper: &Paper) -> Result<News, Fault>
        ensures answer { (self.new.table, by_number result) ≡ side_hears (K.scheme self.old.keys) self.old.number self.old.table paper.now }
        ensures same { (self.new.number ≡ self.old.number) × (self.new.keys ≡ self.old.keys) }
    {
        match paper {
            Paper::Offer(offer) => Ok(News::Offered(self.judge(offer)?)),
            Paper::Acceptance(acceptance) => self.hear_of(&acceptance.offer, paper),
            Paper::Secret(secret) => self.hear_in(&secret.offer, paper),
            Paper::Off(wish) => self.hear_of(&wish.offer, paper),
            Paper::Notice(notice) => self.hear_of(&notice.finding.about(), paper),
            Paper::Refusal(refusal) => self.hear_in(&refusal.offer, paper),
            Paper::Question(question) => self.hear_of(&question.acceptance.offer, paper),
        }
    }

    // An offer comes: its id, if it may be accepted. Nothing is kept of it.
    fn judge(&self, offer: &Offer) -> Result<[u8; 32], Fault>
        ensures { by_number result ≡ judging (K.scheme self.now.keys) self.now.number self.now.table offer.now }
    {
        vet(&self.keys, &Paper::Offer(*offer))?;
        if offer.second != self.number {
            return Err(Fault::Misdirected);
        }
        if !self.table.has_room() {
            return Err(Fault::TooMany);
        }
        let id = self.keys.digest(&offer.encode());
        if self.table.find(&id).is_some() {
            return Err(Fault::OutOfPlace);
        }
        Ok(id)
    }

    // A message comes that names its offer in full.
    fn hear_of(&mut self, offer: &Offer, paper: &Paper) -> Result<News, Fault>
        ensures answer { (self.new.table, by_number result) ≡ found (K.scheme self.old.keys) self.old.table (ident (K.scheme self.old.keys) offer.now) paper.now (unknown (K.scheme self.old.keys) self.old.number paper.now) (lookup self.old.table (ident (K.scheme self.old.keys) offer.now)) }
        ensures same { (self.new.number ≡ self.old.number) × (self.new.keys ≡ self.old.keys) }
    {
        let id = self.keys.digest(&offer.encode());
        let Some(_) = self.table.find(&id) else {
            return Err(self.unknown(paper));
        };
        self.hear_in(&id, paper)
    }

    // A message comes in the exchange with this id.
    fn hear_in(&mut self, id: &[u8; 32], paper: &Paper) -> Result<News, Fault>
        ensures answer { (self.new.table, by_number result) ≡ found (K.scheme self.old.keys) self.old.table id.now paper.now (Some 5) (lookup self.old.table id.now) }
        ensures same { (self.new.number ≡ self.old.number) × (self.new.keys ≡ self.old.keys) }
    {
        let (place, exchange) = self.table.known(id)?;
        let outcome = receive(exchange, &self.keys, paper);
        self.table.moved(place, &exchange, outcome)
    }

    // What is wrong with a paper of an offer that is not known here.
    fn unknown(&self, paper: &Paper) -> Fault
        ensures { Some (number result) ≡ unknown (K.scheme self.now.keys) self.now.number paper.now }
    {
        if let Err(fault) = vet(&self.keys, paper) {
            return fault;
        }
        if addressed(self.number, paper) {
            Fault::UnknownOffer
        } else {
            Fault::Misdirected
        }
    }

    // A tick passes in each exchange. Without memory none passes.
    pub fn tick(&mut self, heap: Global) -> Result<Vec<Post>, AllocError>
        ensures passes { IfOk result (λ posts. (self.new.table ≡ ticked self.old.table) × (posts.items ≡ tick_posts self.old.table)) }
        ensures err { OnErr result (self.new.table ≡ self.old.table) }
        ensures same { (self.new.number ≡ self.old.number) × (self.new.keys ≡ self.old.keys) }
    {
        let posts = self.table.tick_posts(heap)?;
        self.table.tick();
        Ok(posts)
    }
}
