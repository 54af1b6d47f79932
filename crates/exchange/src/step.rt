// A message that is right in itself, by the state of the exchange.
ghost use Rattle.std.specs.Prelude.{◌≡◌};
ghost use Rattle.exchange.specs.Steps.{outcome, second_said, first_said, keep, heed, heed_said, step};

use crate::{Effect, Exchange, NO_LOCK, Outcome, State};
use contract::Contract;
use papers::{Acceptance, Fault, Finding, Notice, Paper, Party, Secret, Stands, Terms};

impl Exchange {
    // The own secret, for this lock.
    fn own_secret(&self, lock: [u8; 32]) -> Paper
        ensures { result ≡ Paper.Secret (record { offer = self.now.id; lock = lock; secret = self.now.secret }) }
    {
        let offer = self.id;
        let secret = self.secret;
        Paper::Secret(Secret {
            offer,
            lock,
            secret,
        })
    }

    // The first acceptance comes to the first side: it is kept, and the secret is said.
    fn keep(self, acceptance: Acceptance) -> Outcome
        ensures { outcome result ≡ keep self acceptance }
    {
        let said = Effect::send(Party::Side(self.offer.second), self.own_secret(NO_LOCK));
        self.go_on(State::Said(acceptance), said)
    }

    // The second side's secret comes to the first, which keeps this acceptance.
    fn second_said(self, kept: Acceptance, said: &Secret) -> Outcome
        ensures { outcome result ≡ second_said self kept said.now }
    {
        let first = self.secret;
        let second = said.secret;
        let contract = Contract::Secrets {
            acceptance: kept,
            first,
            second,
        };
        match self.offer.terms {
            Terms::Plain => self.go_on(State::Bound(contract), Effect::Nothing),
        }
    }

    // The first side's secret comes to the second, which has made this acceptance: it says its own.
    fn first_said(self, made: Acceptance, said: &Secret) -> Outcome
        ensures { outcome result ≡ first_said self made said.now }
    {
        let first = said.secret;
        let second = self.secret;
        let contract = Contract::Secrets {
            acceptance: made,
            first,
            second,
        };
        let own = self.own_secret(made.lock);
        match self.offer.terms {
            Terms::Plain => {
                let sent = Effect::send(Party::Side(self.offer.first), own);
                self.go_on(State::Bound(contract), sent)
            }
        }
    }

    // The notary's answer comes to a side that has asked, and may be freed.
    fn heed(self, notice: &Notice) -> Outcome
        ensures { outcome result ≡ heed self notice.now }
    {
        match (self.offer.terms, notice.finding) {
            (Terms::Plain, Finding::CalledOff(_)) => {
                self.go_on(State::Free(*notice), Effect::Nothing)
            }
            (Terms::Plain, Finding::Standing(acceptance)) => {
                // No conversion: it would give an `Option`, and the acceptance is here.
                let stands = Stands {
                    acceptance,
                    stamp: notice.stamp,
                    signature: notice.signature,
                };
                let contract = Contract::Stands(stands);
                self.go_on(State::Bound(contract), Effect::Nothing)
            }
        }
    }

    // It comes to a side that has asked after it has said its secret: only a contract can be the answer.
    fn heed_said(self, notice: &Notice) -> Outcome
        ensures { outcome result ≡ heed_said self notice.now }
    {
        match (self.offer.terms, notice.finding) {
            (Terms::Plain, Finding::CalledOff(_)) => self.refuse(Fault::OutOfPlace),
            (Terms::Plain, Finding::Standing(_)) => self.heed(notice),
        }
    }

    // A message that is right in itself and of this exchange: by the state and the kind of message, each pair named. Some that are refused alike stand on lines of
    // their own, so that an edit can turn just one.
    #[tactic(auto, unfolding(crate::specs::Steps::step))]
    pub fn step(self, paper: &Paper) -> Outcome
        ensures { outcome result ≡ step self paper.now }
    {
        use State::*;
        match (self.state, paper) {
            (Offered, Paper::Acceptance(acceptance)) => self.keep(*acceptance),
            (AskedOff(..), Paper::Acceptance(_)) => self.refuse(Fault::AcceptanceTooLate),
            (Said(_), Paper::Acceptance(_)) => self.refuse(Fault::AcceptanceTooLate),
            (Free(_), Paper::Acceptance(_)) => self.refuse(Fault::AcceptanceTooLate),
            (AskedStands(..) | Accepted(_) | Asked(..) | Bound(_), Paper::Acceptance(_)) => {
                self.refuse(Fault::AcceptanceTooLate)
            }
            (Said(kept), Paper::Secret(said)) => self.second_said(kept, said),
            (AskedStands(asked, _), Paper::Secret(said)) => {
                self.second_said(asked.acceptance, said)
            }
            (Accepted(made), Paper::Secret(said)) => self.first_said(made, said),
            (Asked(..), Paper::Secret(_)) => self.refuse(Fault::OutOfPlace),
            (Free(_), Paper::Secret(_)) => self.refuse(Fault::OutOfPlace),
            (Offered | AskedOff(..) | Bound(_), Paper::Secret(_)) => self.refuse(Fault::OutOfPlace),
            (AskedOff(..) | Asked(..), Paper::Notice(notice)) => self.heed(notice),
            (AskedStands(..), Paper::Notice(notice)) => self.heed_said(notice),
            (AskedOff(..) | AskedStands(..) | Asked(..), Paper::Refusal(_)) => {
                self.go_on(self.state, Effect::Full)
            }
            (
                Offered | Said(_) | Accepted(_) | Bound(_) | Free(_),
                Paper::Notice(_) | Paper::Refusal(_),
            ) => self.refuse(Fault::OutOfPlace),
            (
                Offered | AskedOff(..) | Said(_) | AskedStands(..),
                Paper::Offer(_) | Paper::Off(_) | Paper::Question(_),
            ) => self.refuse(Fault::OutOfPlace),
            (
                Accepted(_) | Asked(..) | Bound(_) | Free(_),
                Paper::Offer(_) | Paper::Off(_) | Paper::Question(_),
            ) => self.refuse(Fault::OutOfPlace),
        }
    }
}
