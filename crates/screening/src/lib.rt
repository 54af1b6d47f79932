// A message that comes: what is wrong with it before the state of the exchange is looked at, and then the exchange's step.
#![tactic(auto)]

ghost use Rattle.std.specs.Prelude.{◌≡◌};
ghost use Rattle.signing.specs.Checks.{fault_in};
ghost use Rattle.exchange.specs.Steps.{addressed, concerns, other_side's, of_kept, second_opens, fits, checked, secret_checked, refusal_checked, fault, outcome, receive};

use contract::{opens, same_offer};
use exchange::{Exchange, NO_LOCK, Outcome, Role, State};
use papers::{Acceptance, Fault, Paper, Refusal, Secret};
use signing::{Signatures, party_of, refusal_signed, vet};

// Whether a paper that names its offer in full goes to this side.
pub fn addressed(side: u16, paper: &Paper) -> bool
    ensures { result ≡ addressed side paper.now }
{
    match paper {
        Paper::Offer(offer) => offer.second == side,
        Paper::Acceptance(acceptance) => acceptance.offer.first == side,
        Paper::Secret(_) => true,
        Paper::Off(wish) => party_of(side, &wish.offer),
        Paper::Notice(notice) => party_of(side, &notice.finding.about()),
        Paper::Refusal(_) => true,
        Paper::Question(question) => party_of(side, &question.acceptance.offer),
    }
}

// Whether it is the other side's secret: the second's is for a lock, the first's for none.
fn other_sides(role: Role, secret: &Secret) -> bool
    ensures { result ≡ other_side's role secret.now }
{
    match role {
        Role::First => secret.lock != NO_LOCK,
        Role::Second => secret.lock == NO_LOCK,
    }
}

// Whether the paper is about this very offer, byte for byte, or names its id.
fn concerns(exchange: &Exchange, paper: &Paper) -> bool
    ensures { result ≡ concerns exchange.now paper.now }
{
    match paper {
        Paper::Offer(offer) => same_offer(offer, &exchange.offer),
        Paper::Acceptance(acceptance) => same_offer(&acceptance.offer, &exchange.offer),
        Paper::Secret(secret) => secret.offer == exchange.id,
        Paper::Off(wish) => same_offer(&wish.offer, &exchange.offer),
        Paper::Notice(notice) => same_offer(&notice.finding.about(), &exchange.offer),
        Paper::Refusal(refusal) => refusal.offer == exchange.id,
        Paper::Question(question) => same_offer(&question.acceptance.offer, &exchange.offer),
    }
}

// Whether it is the secret of the acceptance that is kept.
fn of_kept<K: Signatures>(keys: &K, kept: &Acceptance, secret: &Secret) -> bool
    ensures { result ≡ of_kept (K.scheme keys.now) kept.now secret.now }
{
    secret.lock == kept.lock && opens(keys, &secret.secret, &kept.lock)
}

// A side's keys, and the exchange that a message may be of.
#[derive(Drop)]
struct Screen<'a, K> {
    keys: &'a K,
    exchange: &'a Exchange,
}

impl<K: Signatures> Screen<'_, K> {
    // Whether the second side's secret opens the lock that it is for.
    fn second_opens(&self, secret: &Secret) -> bool
        ensures { result ≡ second_opens (K.scheme self.now.keys.now) self.now.exchange.now.state secret.now }
    {
        match &self.exchange.state {
            State::Said(kept) => of_kept(self.keys, kept, secret),
            State::AskedStands(question, _) => of_kept(self.keys, &question.acceptance, secret),
            State::Offered
            | State::AskedOff(..)
            | State::Accepted(_)
            | State::Asked(..)
            | State::Bound(_)
            | State::Free(_) => opens(self.keys, &secret.secret, &secret.lock),
        }
    }

    // Whether the other side's secret opens the lock that it is for.
    fn fits(&self, secret: &Secret) -> bool
        ensures { result ≡ fits (K.scheme self.now.keys.now) self.now.exchange.now self.now.exchange.now.role secret.now }
    {
        match self.exchange.role {
            Role::First => self.second_opens(secret),
            Role::Second => opens(self.keys, &secret.secret, &self.exchange.offer.lock),
        }
    }

    // Of a paper that can be checked by itself.
    #[tactic(auto, unfolding(exchange::specs::Steps::checked))]
    fn checked(&self, paper: &Paper) -> Result<(), Fault>
        ensures { fault_in result ≡ checked (K.scheme self.now.keys.now) self.now.exchange.now paper.now }
    {
        vet(self.keys, paper)?;
        if !addressed(self.exchange.me(), paper) {
            return Err(Fault::Misdirected);
        }
        if !concerns(self.exchange, paper) {
            return Err(Fault::UnknownOffer);
        }
        Ok(())
    }

    // A secret names its offer by the id only: before the id is known to be this one's, its lock says nothing.
    #[tactic(auto, unfolding(exchange::specs::Steps::secret_checked))]
    fn secret_checked(&self, secret: &Secret) -> Result<(), Fault>
        ensures { fault_in result ≡ secret_checked (K.scheme self.now.keys.now) self.now.exchange.now secret.now }
    {
        if secret.offer != self.exchange.id {
            return Err(Fault::UnknownOffer);
        }
        if !other_sides(self.exchange.role, secret) {
            return Err(Fault::Misdirected);
        }
        if !self.fits(secret) {
            return Err(Fault::WrongSecret);
        }
        Ok(())
    }

    // A refusal names its offer by the id only, and does not name its notary.
    #[tactic(auto, unfolding(exchange::specs::Steps::refusal_checked))]
    fn refusal_checked(&self, refusal: &Refusal) -> Result<(), Fault>
        ensures { fault_in result ≡ refusal_checked (K.scheme self.now.keys.now) self.now.exchange.now refusal.now }
    {
        if refusal.offer != self.exchange.id {
            return Err(Fault::UnknownOffer);
        }
        if !refusal_signed(self.keys, self.exchange.offer.notary, refusal) {
            return Err(Fault::BadSignature);
        }
        Ok(())
    }

    // Refuses a message that is wrong in itself or is not for this exchange.
    fn fault(&self, paper: &Paper) -> Result<(), Fault>
        ensures { fault_in result ≡ fault (K.scheme self.now.keys.now) self.now.exchange.now paper.now }
    {
        match paper {
            Paper::Offer(_)
            | Paper::Acceptance(_)
            | Paper::Off(_)
            | Paper::Notice(_)
            | Paper::Question(_) => self.checked(paper),
            Paper::Secret(secret) => self.secret_checked(secret),
            Paper::Refusal(refusal) => self.refusal_checked(refusal),
        }
    }
}

// A message comes. A refusal leaves the exchange as it was.
#[tactic(auto, unfolding(exchange::specs::Steps::receive))]
pub fn receive<K: Signatures>(exchange: Exchange, keys: &K, paper: &Paper) -> Outcome
    ensures { outcome result ≡ receive (K.scheme keys.now) exchange paper.now }
{
    let screen = Screen {
        keys,
        exchange: &exchange,
    };
    match screen.fault(paper) {
        Ok(()) => exchange.step(paper),
        Err(fault) => (exchange, Err(fault)),
    }
}
