// What a side is told to do: to make an offer, to accept one, to ask the notary. Each signature that is made is checked before it leaves.
#![tactic(auto)]

ghost use Rattle.std.specs.Prelude.{◌≡◌, IfOk, MatchResult};
ghost use Rattle.papers.specs.Fault.{number};
ghost use Rattle.signing.specs.Checks.{by_number, passing, acceptance_signed, off_signed, question_signed};
ghost use Rattle.exchange.specs.Steps.{outcome, go_on, refuse, to_notary, unsigned_offer, new_acceptance, new_wish, new_question, opened, offer as offered, accept, ask};

use exchange::{Exchange, Order, Outcome, Post, Role, State};
use papers::{Acceptance, Encode, Fault, Off, Offer, Paper, Party, Question};
use signing::{Signatures, UNSIGNED, parties_known, sign_checked, vet};

// ---- papers that this side signs

// The offer that an order asks for, before it is signed.
pub fn unsigned_offer<K: Signatures>(keys: &K, order: &Order) -> Offer
    ensures { result ≡ unsigned_offer (K.scheme keys.now) (K.signs keys.now) order.now }
{
    let text = order.text;
    let lock = keys.digest(&order.secret);
    Offer {
        first: order.first,
        second: order.second,
        notary: order.notary,
        terms: order.terms,
        text,
        lock,
        signature: UNSIGNED,
    }
}

#[tactic(auto, unfolding(exchange::specs::Steps::new_acceptance))]
fn new_acceptance<K: Signatures>(
    keys: &K,
    offer: Offer,
    secret: &[u8; 32],
) -> Result<Acceptance, Fault>
    ensures { by_number result ≡ passing (acceptance_signed (K.scheme keys.now)) (new_acceptance (K.scheme keys.now) (K.signs keys.now) offer secret.now) }
{
    let lock = keys.digest(secret);
    let unsigned = Acceptance {
        offer,
        lock,
        signature: UNSIGNED,
    };
    sign_checked(keys, unsigned)
}

#[tactic(auto, unfolding(exchange::specs::Steps::new_wish))]
fn new_wish<K: Signatures>(keys: &K, offer: Offer) -> Result<Off, Fault>
    ensures { by_number result ≡ passing (off_signed (K.scheme keys.now)) (new_wish (K.scheme keys.now) (K.signs keys.now) offer) }
{
    let unsigned = Off {
        offer,
        signature: UNSIGNED,
    };
    sign_checked(keys, unsigned)
}

#[tactic(auto, unfolding(exchange::specs::Steps::new_question))]
fn new_question<K: Signatures>(
    keys: &K,
    side: u16,
    acceptance: Acceptance,
) -> Result<Question, Fault>
    ensures { by_number result ≡ passing (question_signed (K.scheme keys.now)) (new_question (K.scheme keys.now) (K.signs keys.now) side acceptance) }
{
    let unsigned = Question {
        side,
        acceptance,
        signature: UNSIGNED,
    };
    sign_checked(keys, unsigned)
}

// ---- orders

fn open<K: Signatures>(
    keys: &K,
    role: Role,
    offer: Offer,
    secret: [u8; 32],
    state: State,
) -> Exchange
    ensures { result ≡ opened (K.scheme keys.now) (K.signs keys.now) role offer secret state }
{
    let id = keys.digest(&offer.encode());
    Exchange {
        role,
        id,
        offer,
        secret,
        state,
    }
}

// Makes an offer. It is signed where its parties are known, and its signature is checked before it leaves, as each that a step makes.
#[tactic(auto, unfolding(exchange::specs::Steps::offer, exchange::specs::Steps::new_offer, signing::specs::Checks::vetted))]
pub fn offer<K: Signatures>(keys: &K, order: Order) -> Result<(Exchange, Post), Fault>
    ensures answer { by_number result ≡ offered (K.scheme keys.now) (K.signs keys.now) order }
    ensures secret { IfOk result (λ o. o.0.secret ≡ order.secret) }
{
    let unsigned = unsigned_offer(keys, &order);
    if !parties_known(keys, &unsigned) {
        return Err(Fault::UnknownParty);
    }
    let offer = sign_checked(keys, unsigned)?;
    let paper = Paper::Offer(offer);
    let exchange = open(keys, Role::First, offer, order.secret, State::Offered);
    let to = Party::Side(order.second);
    Ok((exchange, Post { to, paper }))
}

// Accepts an offer that is made to `me`.
#[tactic(auto, unfolding(exchange::specs::Steps::accept))]
pub fn accept<K: Signatures>(
    keys: &K,
    me: u16,
    offer: Offer,
    secret: [u8; 32],
) -> Result<(Exchange, Post), Fault>
    ensures answer { by_number result ≡ accept (K.scheme keys.now) (K.signs keys.now) me offer secret }
    ensures secret { IfOk result (λ o. o.0.secret ≡ secret) }
{
    vet(keys, &Paper::Offer(offer))?;
    if offer.second != me {
        return Err(Fault::Misdirected);
    }
    let acceptance = new_acceptance(keys, offer, &secret)?;
    let state = State::Accepted(acceptance);
    let exchange = open(keys, Role::Second, offer, secret, state);
    let to = Party::Side(offer.first);
    let paper = Paper::Acceptance(acceptance);
    Ok((exchange, Post { to, paper }))
}

// What the exchange asks the notary, and the state in which it waits for the answer: signed now, or once more the same bytes.
#[tactic(auto, unfolding(exchange::specs::Steps::ask))]
fn question<K: Signatures>(exchange: &Exchange, keys: &K) -> Result<(State, Paper), Fault>
    ensures { MatchResult result
        (λ q. ask (K.scheme keys.now) (K.signs keys.now) exchange.now ≡ go_on exchange.now q.0 (to_notary exchange.now q.1))
        (λ f. ask (K.scheme keys.now) (K.signs keys.now) exchange.now ≡ refuse exchange.now (number f)) }
{
    match exchange.state {
        State::Offered => {
            let wish = new_wish(keys, exchange.offer)?;
            Ok((State::AskedOff(wish, 0), Paper::Off(wish)))
        }
        State::AskedOff(wish, _) => Ok((State::AskedOff(wish, 0), Paper::Off(wish))),
        State::Said(kept) => {
            let asked = new_question(keys, exchange.me(), kept)?;
            Ok((State::AskedStands(asked, 0), Paper::Question(asked)))
        }
        State::AskedStands(asked, _) => {
            Ok((State::AskedStands(asked, 0), Paper::Question(asked)))
        }
        State::Accepted(made) => {
            let asked = new_question(keys, exchange.me(), made)?;
            Ok((State::Asked(asked, 0), Paper::Question(asked)))
        }
        State::Asked(asked, _) => Ok((State::Asked(asked, 0), Paper::Question(asked))),
        State::Bound(_) | State::Free(_) => Err(Fault::OutOfPlace),
    }
}

// Asks the notary, or asks again by the same bytes.
pub fn ask<K: Signatures>(exchange: Exchange, keys: &K) -> Outcome
    ensures { outcome result ≡ ask (K.scheme keys.now) (K.signs keys.now) exchange }
{
    match question(&exchange, keys) {
        Ok((waiting, question)) => {
            let (exchange, sent) = exchange.ask_by(waiting, question);
            (exchange, Ok(sent))
        }
        Err(fault) => (exchange, Err(fault)),
    }
}
