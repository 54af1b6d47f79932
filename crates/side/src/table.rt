// The exchanges of a side, in the order in which they were opened; ended ones stay.
ghost use Rattle.std.specs.Prelude.{◌≡◌, ℕ, Ok, ◌+◌, ◌<◌, ◌≤◌, List, [], ◌∷◌, ◌++◌, length, false, Some, None, MatchOption, MatchResult, is_ok, IfOk, OnOk, OnErr, slice_get, if◌then◌else◌};
ghost use Rattle.exchange.specs.Steps.{ended};

use crate::{News, Opened, Refused};
use exchange::{Effect, Exchange, Outcome, Post};
use papers::Fault;
use std::alloc::{AllocError, Global};
use std::collections::BTreeMap;
use std::marker::Model;

// How many may be going on at once, and how many offers may be taken in all.
const MOST_RUNNING: usize = 1024;

const MOST_TAKEN: usize = 65536;

// Each exchange's place by its offer's id and by its secret, and how many have not ended.
#[derive(Drop)]
pub struct Table {
    exchanges: Vec<Exchange>,
    places: BTreeMap<[u8; 32], usize>,
    drawn: BTreeMap<[u8; 32], usize>,
    running: usize,
}

// One, of an exchange that has not ended.
fn going_on(exchange: &Exchange) -> usize
    ensures { result ≡ (if ended exchange.now.state then 0 else 1) }
{
    if exchange.ended() { 0 } else { 1 }
}

impl Model for Table {
    ghost use Rattle.std.specs.Prelude.{List};
    ghost use Rattle.side.specs.Places.{Kept};
    ghost use Rattle.exchange.specs.declared.Exchange.{Exchange};

    ghost Value = { List Exchange };

    ghost view = { λ t. t.exchanges.items };

    ghost invariant = { λ t. Kept t.exchanges.items t.places t.drawn t.running };
}

impl Table {
    ghost use Rattle.papers.specs.Fault.{number};
    ghost use Rattle.signing.specs.Checks.{by_number};
    ghost use Rattle.exchange.specs.Steps.{outcome as stepped};
    ghost use Rattle.side.specs.Table.{lookup, store, uses, has_room, opens, moves, tick_posts, ticked};
    ghost use Rattle.side.specs.Places.{Found};
    ghost use Rattle.side.specs.Refused.{Gives};

    pub(crate) fn new(heap: Global) -> Table
        ensures { result ≡ [] }
    {
        Table {
            exchanges: Vec::new(heap),
            places: BTreeMap::new(heap),
            drawn: BTreeMap::new(heap),
            running: 0,
        }
    }

    // The exchange with this id, and its place.
    pub(crate) fn find(&self, id: &[u8; 32]) -> Option<(usize, Exchange)>
        ensures { MatchOption result (lookup self.now id.now ≡ None) (λ f. Found self.now id.now f.0 f.1) }
    {
        let place = *self.places.get(id)?;
        let exchange = *self.exchanges.get(place)?;
        if exchange.id == *id {
            Some((place, exchange))
        } else {
            None
        }
    }

    // The same, refused where there is none.
    pub(crate) fn known(&self, id: &[u8; 32]) -> Result<(usize, Exchange), Fault>
        ensures { MatchResult result (λ f. Found self.now id.now f.0 f.1) (λ f. (lookup self.now id.now ≡ None) × (number f ≡ 5)) }
    {
        self.find(id).ok_or(Fault::UnknownOffer)
    }

    // Whether the secret was drawn for one of them.
    pub(crate) fn uses(&self, secret: &[u8; 32]) -> bool
        ensures { result ≡ uses self.now secret.now }
    {
        let Some(place) = self.drawn.get(secret) else {
            return false;
        };
        match self.exchanges.get(*place) {
            Some(exchange) => exchange.secret == *secret,
            None => false,
        }
    }

    // Whether one more may be opened.
    pub(crate) fn has_room(&self) -> bool
        ensures { result ≡ has_room self.now }
    {
        self.running < MOST_RUNNING && self.exchanges.len() < MOST_TAKEN
    }

    // Another state of the exchange at this place.
    fn set(&mut self, place: usize, was: &Exchange, next: Exchange)
        requires here { slice_get self.old place ≡ Some was.now }
        requires id { next.id ≡ was.now.id }
        requires secret { next.secret ≡ was.now.secret }
        ensures { self.new ≡ store self.old next.id next }
    {
        self.running = self.running + going_on(&next) - going_on(was);
        self.exchanges[place] = next;
    }

    // One more exchange. Without memory the table stays as it was.
    fn push(&mut self, exchange: Exchange) -> Result<(), AllocError>
        requires free { lookup self.old exchange.id ≡ None }
        requires undrawn { uses self.old exchange.secret ≡ false }
        ensures ok { OnOk result (self.new ≡ self.old ++ exchange ∷ []) }
        ensures err { OnErr result (self.new ≡ self.old) }
    {
        let place = self.exchanges.len();
        let id = exchange.id;
        let secret = exchange.secret;
        self.places.insert(id, place)?;
        self.drawn.insert(secret, place)?;
        self.exchanges.push(exchange)?;
        self.running += going_on(&exchange);
        Ok(())
    }

    // A new exchange is kept, if its id was not used before.
    pub(crate) fn open(&mut self, exchange: Exchange, post: Post) -> Result<Opened, Refused>
        requires undrawn { uses self.old exchange.secret ≡ false }
        ensures { Gives (opens self.old (Ok (exchange, post))) self.old self.new result }
    {
        if self.find(&exchange.id).is_some() {
            return Err(Refused::Fault(Fault::OutOfPlace));
        }
        self.push(exchange)?;
        let id = exchange.id;
        Ok(Opened { id, post })
    }

    // The exchange at this place has taken a step.
    pub(crate) fn moved(
        &mut self,
        place: usize,
        was: &Exchange,
        outcome: Outcome,
    ) -> Result<News, Fault>
        requires here { Found self.old was.now.id place was.now }
        requires id { outcome.0.id ≡ was.now.id }
        requires secret { outcome.0.secret ≡ was.now.secret }
        ensures { (self.new, by_number result) ≡ moves self.old was.now.id was.now (stepped outcome) }
    {
        let (next, effect) = outcome;
        self.set(place, was, next);
        let id = next.id;
        let ended_now = next.ended() && !was.ended();
        Ok(News::Moved {
            id,
            effect: effect?,
            ended_now,
        })
    }

    // What each exchange sends at a tick, in the order in which they were opened.
    pub(crate) fn tick_posts(&self, heap: Global) -> Result<Vec<Post>, AllocError>
        ensures { IfOk result (λ posts. posts.items ≡ tick_posts self.now) }
    {
        let mut posts = Vec::new(heap);
        for exchange in self.exchanges.as_slice() {
            let (_, effect) = exchange.tick();
            match effect {
                Effect::Send(post) => posts.push(post)?,
                Effect::Nothing | Effect::Full => {}
            }
        }
        Ok(posts)
    }

    // A tick passes for each exchange.
    pub(crate) fn tick(&mut self)
        ensures { self.new ≡ ticked self.old }
    {
        for exchange in self.exchanges.iter_mut() {
            let (next, _) = exchange.tick();
            *exchange = next;
        }
    }
}
