// What papers are worth: whether they make a contract, and whether they show that a notary cheated.
#![tactic(auto)]

ghost use Rattle.std.specs.Prelude.{◌≡◌};
ghost use Rattle.contract.specs.Contract.{secrets_count, same_offer, clash, opens, contract, cheated};
ghost use Rattle.signing.specs.Checks.{sound};

use octets::same;
use papers::{Acceptance, Encode, Finding, Notice, Offer, Paper, Stands, Terms};
use signing::{Authored, Signatures, vet};

// The papers of a contract.
#[derive(Clone, Copy)]
pub enum Contract {
    // an acceptance, with the first side's secret and the second's
    Secrets {
        acceptance: Acceptance,
        first: [u8; 32],
        second: [u8; 32],
    },
    // the notary's word for an acceptance
    Stands(Stands),
}

// Whether both secrets make a contract of an offer under these terms.
fn secrets_count(terms: Terms) -> bool
    ensures { result ≡ secrets_count terms }
{
    match terms {
        Terms::Plain => true,
    }
}

// Whether two offers are the same, byte for byte: papers are compared as byte strings, by a rule of the project, and not by a derived `==`.
pub fn same_offer(a: &Offer, b: &Offer) -> bool
    ensures { result ≡ same_offer a.now b.now }
{
    same(&a.encode(), &b.encode())
}

// Whether the secret opens the lock.
pub fn opens<K: Signatures>(keys: &K, secret: &[u8; 32], lock: &[u8; 32]) -> bool
    ensures { result ≡ opens (K.scheme keys.now) secret.now lock.now }
{
    keys.digest(secret) == *lock
}

// Whether a paper's parties are there and every signature in it is right.
fn is_sound<K: Signatures>(keys: &K, paper: &Paper) -> bool
    ensures { result ≡ sound (K.scheme keys.now) paper.now }
{
    vet(keys, paper).is_ok()
}

// Whether these papers are a contract.
#[tactic(auto, unfolding(crate::specs::Contract::contract))]
pub fn is_contract<K: Signatures>(keys: &K, papers: &Contract) -> bool
    ensures { result ≡ contract (K.scheme keys.now) papers.now }
{
    match papers {
        Contract::Secrets {
            acceptance,
            first,
            second,
        } => {
            is_sound(keys, &Paper::Acceptance(*acceptance))
                && secrets_count(acceptance.offer.terms)
                && opens(keys, first, &acceptance.offer.lock)
                && opens(keys, second, &acceptance.lock)
        }
        Contract::Stands(stands) => is_sound(keys, &Paper::Notice(Notice::from(*stands))),
    }
}

// Whether one notary may not have found both.
fn clashes(off: &Finding, stands: &Finding) -> bool
    ensures { result ≡ clash off.now stands.now }
{
    match (off, stands) {
        (Finding::CalledOff(off), Finding::Standing(acceptance)) => {
            same_offer(&off.offer, &acceptance.offer)
        }
        (Finding::CalledOff(_), Finding::CalledOff(_)) => false,
        (Finding::Standing(_), Finding::CalledOff(_)) => false,
        (Finding::Standing(_), Finding::Standing(_)) => false,
    }
}

// Whether these two notices show that their notary cheated.
#[tactic(auto, unfolding(crate::specs::Contract::cheated))]
pub fn cheated<K: Signatures>(keys: &K, off: &Notice, stands: &Notice) -> bool
    ensures { result ≡ cheated (K.scheme keys.now) off.now stands.now }
{
    is_sound(keys, &Paper::Notice(*off))
        && is_sound(keys, &Paper::Notice(*stands))
        && off.signer() == stands.signer()
        && clashes(&off.finding, &stands.finding)
}
