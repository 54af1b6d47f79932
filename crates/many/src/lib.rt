// Sides with many exchanges beside each other: what they share, and what each keeps to itself.
#![tactic(auto)]

use contract::Contract;
use exchange::{Effect, Exchange, NO_LOCK, Post, State};
use notary::{Decision, Notary, Row};
use papers::{
    Acceptance, Fault, Finding, Notice, Off, Offer, Paper, Party, Question, Refusal, Secret, Stamp,
    Terms,
};
use side::{News, Proposal, Side};
use signing::{Signatures, UNSIGNED, sign};
use standin::{StandIn, directory};
use std::alloc::{AllocError, Global};

const FIRST_KEY: [u8; 32] = [1; 32];

const SECOND_KEY: [u8; 32] = [2; 32];

const THIRD_KEY: [u8; 32] = [3; 32];

const NOTARY_KEY: [u8; 32] = [4; 32];

const TEXT: [u8; 32] = [7; 32];

// One party's key, in a directory of sides 1, 2 and 3 and notary 1.
fn keys(heap: Global, own: &[u8; 32]) -> Result<StandIn, AllocError> {
    let parties = [
        (Party::Side(1), FIRST_KEY),
        (Party::Side(2), SECOND_KEY),
        (Party::Side(3), THIRD_KEY),
        (Party::Notary(1), NOTARY_KEY),
    ];
    Ok(StandIn::new(own, directory(heap, &parties)?))
}

fn side(heap: Global, number: u16, own: &[u8; 32]) -> Result<Side<StandIn>, AllocError> {
    Ok(Side::new(heap, number, keys(heap, own)?))
}

// A secret for each number.
fn drawn(number: u16) -> [u8; 32] {
    let [high, low] = number.to_be_bytes();
    let mut secret = [9; 32];
    secret[0] = high;
    secret[1] = low;
    secret
}

// An offer of the text to this side; all offers are of the same text, and differ by their locks.
fn proposal(second: u16, number: u16) -> Proposal {
    Proposal {
        second,
        notary: 1,
        terms: Terms::Plain,
        text: TEXT,
        secret: drawn(number),
    }
}

// How far an exchange has come, where it is known at all.
#[derive(Clone, Copy, Debug, PartialEq, Eq)]
enum Stage {
    Unknown,
    Offered,
    AskedOff,
    Said,
    AskedStands,
    Accepted,
    Asked,
    BySecrets,
    ByStands,
    Free,
}

fn stage_of(exchange: &Exchange) -> Stage {
    match exchange.state {
        State::Offered => Stage::Offered,
        State::AskedOff(..) => Stage::AskedOff,
        State::Said(_) => Stage::Said,
        State::AskedStands(..) => Stage::AskedStands,
        State::Accepted(_) => Stage::Accepted,
        State::Asked(..) => Stage::Asked,
        State::Bound(Contract::Secrets { .. }) => Stage::BySecrets,
        State::Bound(Contract::Stands(_)) => Stage::ByStands,
        State::Free(_) => Stage::Free,
    }
}

fn seen(side: &Side<StandIn>, id: &[u8; 32]) -> Stage {
    match side.look(id) {
        Some(exchange) => stage_of(&exchange),
        None => Stage::Unknown,
    }
}

// What is sent, if anything.
fn sent(news: News) -> Option<Post> {
    match news {
        News::Moved {
            effect: Effect::Send(post),
            ..
        } => Some(post),
        News::Moved { .. } | News::Offered(_) => None,
    }
}

fn offer_in(side: &Side<StandIn>, id: &[u8; 32]) -> Option<Offer> {
    Some(side.look(id)?.offer)
}

// What the notary decides where its book has this row.
fn decided(notary: &StandIn, row: Row, paper: &Paper) -> Result<Decision, Fault> {
    let notary = Notary {
        keys: notary,
        number: 1,
        clock: 0,
    };
    notary.decide(&row, true, paper)
}

// ---- papers that are made by hand, to come late

fn acceptance_by(keys: &StandIn, offer: Offer, number: u16) -> Acceptance {
    let unsigned = Acceptance {
        offer,
        lock: keys.digest(&drawn(number)),
        signature: UNSIGNED,
    };
    sign(keys, unsigned)
}

fn wish_by(keys: &StandIn, offer: Offer) -> Off {
    let unsigned = Off {
        offer,
        signature: UNSIGNED,
    };
    sign(keys, unsigned)
}

fn question_by(keys: &StandIn, side: u16, acceptance: Acceptance) -> Question {
    let unsigned = Question {
        side,
        acceptance,
        signature: UNSIGNED,
    };
    sign(keys, unsigned)
}

fn notice_by(notary: &StandIn, finding: Finding) -> Notice {
    let unsigned = Notice {
        finding,
        stamp: Stamp::Plain,
        signature: UNSIGNED,
    };
    sign(notary, unsigned)
}

fn refusal_by(notary: &StandIn, offer: [u8; 32]) -> Refusal {
    let unsigned = Refusal {
        offer,
        signature: UNSIGNED,
    };
    sign(notary, unsigned)
}

// The first side's secret.
fn first_secret(offer: [u8; 32], number: u16) -> Secret {
    Secret {
        offer,
        lock: NO_LOCK,
        secret: drawn(number),
    }
}

// The second side's secret, for the lock of its acceptance.
fn second_secret(keys: &StandIn, offer: [u8; 32], number: u16) -> Secret {
    let secret = drawn(number);
    Secret {
        offer,
        lock: keys.digest(&secret),
        secret,
    }
}

#[cfg(test)]
mod tests {
    use super::*;
    use side::Refused;
    use std::process::Abort;
    use std::test::Fail;

    const TOO_MANY: Option<Refused> = Some(Refused::Fault(Fault::TooMany));

    const OUT_OF_PLACE: Option<Refused> = Some(Refused::Fault(Fault::OutOfPlace));

    // ---- three exchanges at once

    // Which message under way comes next. From the back, an exchange is done before the next one goes on; in turn, they go on beside each other in another order.
    #[derive(Clone, Copy, Debug)]
    enum Pick {
        Front,
        Back,
        InTurn,
    }

    // A message comes to a side, and an offer is accepted with this secret. Which exchange it was of, and what is sent.
    fn get(
        side: &mut Side<StandIn>,
        paper: &Paper,
        secret: [u8; 32],
    ) -> Result<([u8; 32], Option<Post>), Fail> {
        let news = side.hear(paper)?;
        match (news, paper) {
            (News::Moved { id, .. }, _) => Ok((id, sent(news))),
            (News::Offered(_), Paper::Offer(offer)) => {
                let opened = side.accept(*offer, secret)?;
                let id = opened.id;
                Ok((id, Some(opened.post)))
            }
            (News::Offered(_), _) => Err("only an offer is reported as one".into()),
        }
    }

    // Three sides, the three exchanges of side 1, the messages under way, and the number of the next secret.
    #[derive(Drop)]
    struct Hall {
        one: Side<StandIn>,
        two: Side<StandIn>,
        three: Side<StandIn>,
        ids: [[u8; 32]; 3],
        queue: Vec<Post>,
        secrets: u16,
    }

    impl Hall {
        // Side 1 has made an offer to side 2 and one to side 3, and side 2 one to side 1.
        fn new(heap: Global) -> Result<Hall, Fail> {
            let mut one = side(heap, 1, &FIRST_KEY)?;
            let mut two = side(heap, 2, &SECOND_KEY)?;
            let three = side(heap, 3, &THIRD_KEY)?;
            let to_two = one.offer(proposal(2, 1))?;
            let to_three = one.offer(proposal(3, 2))?;
            let to_one = two.offer(proposal(1, 3))?;
            Ok(Hall {
                one,
                two,
                three,
                ids: [to_two.id, to_three.id, to_one.id],
                queue: vec![in heap; to_two.post, to_three.post, to_one.post]?,
                secrets: 4,
            })
        }

        fn next(&mut self, pick: Pick, step: u8) -> Option<Post> {
            let from_front = match pick {
                Pick::Front => true,
                Pick::Back => false,
                Pick::InTurn => step % 2 == 0,
            };
            if from_front && !self.queue.is_empty() {
                Some(self.queue.remove(0))
            } else {
                self.queue.pop()
            }
        }

        // The message comes. Which exchange it was of.
        fn pass(&mut self, post: &Post) -> Result<[u8; 32], Fail> {
            let secret = drawn(self.secrets);
            self.secrets = self.secrets.wrapping_add(1);
            let (id, answer) = match post.to {
                Party::Side(1) => get(&mut self.one, &post.paper, secret)?,
                Party::Side(2) => get(&mut self.two, &post.paper, secret)?,
                Party::Side(3) => get(&mut self.three, &post.paper, secret)?,
                Party::Side(_) | Party::Notary(_) => return Err("nobody else is there".into()),
            };
            if let Some(post) = answer {
                self.queue.push(post)?;
            }
            Ok(id)
        }

        // How each side sees each exchange.
        fn stages(&self) -> [Stage; 9] {
            let [a, b, c] = &self.ids;
            [
                seen(&self.one, a),
                seen(&self.one, b),
                seen(&self.one, c),
                seen(&self.two, a),
                seen(&self.two, b),
                seen(&self.two, c),
                seen(&self.three, a),
                seen(&self.three, b),
                seen(&self.three, c),
            ]
        }
    }

    // How many of the stages differ.
    fn changes(before: &[Stage; 9], after: &[Stage; 9]) -> usize {
        before
            .iter()
            .zip(after.iter())
            .filter(|(was, is)| was != is)
            .count()
    }

    // One message is passed on: it moves the exchange that it is of, at the side that it goes to, and nothing else.
    fn pass_one(rt: &impl Abort, hall: &mut Hall, post: &Post) -> Result<(), Fail> {
        let before = hall.stages();
        let id = hall.pass(post)?;
        let after = hall.stages();
        assert_eq!(rt; changes(&before, &after), 1);
        let [a, b, c] = hall.ids;
        let column = if id == a {
            0
        } else if id == b {
            1
        } else {
            assert!(rt; id == c);
            2
        };
        let row = match post.to {
            Party::Side(1) => 0,
            Party::Side(2) => 3,
            Party::Side(_) | Party::Notary(_) => 6,
        };
        let place: usize = row + column;
        assert_ne!(rt; before.get(place), after.get(place));
        Ok(())
    }

    // Four messages in each exchange, in this order.
    fn play(rt: &impl Abort, heap: Global, pick: Pick) -> Result<(), Fail> {
        let mut hall = Hall::new(heap)?;
        for step in 0..12 {
            let post = hall.next(pick, step).ok_or("nothing is under way")?;
            pass_one(rt, &mut hall, &post)?;
        }
        assert!(rt; hall.queue.is_empty());
        let expected = [
            Stage::BySecrets,
            Stage::BySecrets,
            Stage::BySecrets,
            Stage::BySecrets,
            Stage::Unknown,
            Stage::BySecrets,
            Stage::Unknown,
            Stage::BySecrets,
            Stage::Unknown,
        ];
        assert_eq!(rt; hall.stages(), expected, "by {pick:?}");
        Ok(())
    }

    #[test]
    fn three_interleaved(rt: HostRuntime) -> Result<(), Fail> {
        for pick in [Pick::Front, Pick::Back, Pick::InTurn] {
            play(&rt, rt.alloc(), pick)?;
        }
        Ok(())
    }

    // ---- limits

    // A side asks about this offer, the notary's book has nothing of it, and the answer comes.
    fn ask_first(
        side: &mut Side<StandIn>,
        notary: &StandIn,
        id: &[u8; 32],
    ) -> Result<Notice, Fail> {
        let asked = sent(side.ask(id)?).ok_or("nothing is asked")?;
        let decision = decided(notary, Row::Nothing, &asked.paper)?;
        side.hear(&decision.answer)?;
        Ok(decision.write.ok_or("nothing is written")?)
    }

    #[test]
    fn limits(rt: HostRuntime) -> Result<(), Fail> {
        let heap = rt.alloc();
        let notary = keys(heap, &NOTARY_KEY)?;
        let mut one = side(heap, 1, &FIRST_KEY)?;
        let mut two = side(heap, 2, &SECOND_KEY)?;
        let opened = one.offer(proposal(2, 0))?;
        for number in 1..1024 {
            one.offer(proposal(2, number))?;
        }
        assert_eq!(rt; one.offer(proposal(2, 1024)).err(), TOO_MANY);

        // Nor is one of another side good now.
        let other = two.offer(proposal(1, 2000))?;
        let offer = offer_in(&two, &other.id).ok_or("it is not kept")?;
        assert_eq!(rt; one.hear(&other.post.paper).err(), Some(Fault::TooMany));
        assert_eq!(rt; one.accept(offer, drawn(2001)).err(), TOO_MANY);

        // One has ended: there is room for one more, by the secret of the order that was refused.
        ask_first(&mut one, &notary, &opened.id)?;
        assert_eq!(rt; seen(&one, &opened.id), Stage::Free);
        one.offer(proposal(2, 1024))?;
        assert_eq!(rt; one.offer(proposal(2, 1025)).err(), TOO_MANY);
        Ok(())
    }

    // ---- what comes late

    // An exchange that side 1 has offered and side 2 accepted, by the secrets 1 and 2, and everybody's keys.
    #[derive(Drop)]
    struct Pair {
        one: Side<StandIn>,
        two: Side<StandIn>,
        first: StandIn,
        second: StandIn,
        notary: StandIn,
        id: [u8; 32],
        offer: Offer,
        acceptance: Acceptance,
    }

    impl Pair {
        fn new(heap: Global) -> Result<Pair, Fail> {
            let mut one = side(heap, 1, &FIRST_KEY)?;
            let mut two = side(heap, 2, &SECOND_KEY)?;
            let second = keys(heap, &SECOND_KEY)?;
            let id = one.offer(proposal(2, 1))?.id;
            let offer = offer_in(&one, &id).ok_or("it is not kept")?;
            two.accept(offer, drawn(2))?;
            let acceptance = acceptance_by(&second, offer, 2);
            Ok(Pair {
                one,
                two,
                first: keys(heap, &FIRST_KEY)?,
                second,
                notary: keys(heap, &NOTARY_KEY)?,
                id,
                offer,
                acceptance,
            })
        }

        // The acceptance comes, and then both secrets.
        fn end_by_secrets(&mut self) -> Result<(), Fail> {
            self.one.hear(&Paper::Acceptance(self.acceptance))?;
            self.two.hear(&Paper::Secret(first_secret(self.id, 1)))?;
            let said = second_secret(&self.second, self.id, 2);
            self.one.hear(&Paper::Secret(said))?;
            Ok(())
        }

        // The first side asks, and the second side is answered with the same notice.
        fn end_by_notary(&mut self) -> Result<(), Fail> {
            let notice = ask_first(&mut self.one, &self.notary, &self.id)?;
            let question = sent(self.two.ask(&self.id)?).ok_or("nothing is asked")?;
            let decision = decided(&self.notary, Row::from(notice), &question.paper)?;
            self.two.hear(&decision.answer)?;
            Ok(())
        }

        fn off(&self) -> Paper {
            let finding = Finding::CalledOff(wish_by(&self.first, self.offer));
            Paper::Notice(notice_by(&self.notary, finding))
        }

        fn stands(&self) -> Paper {
            Paper::Notice(notice_by(&self.notary, Finding::Standing(self.acceptance)))
        }

        fn refusal(&self) -> Paper {
            Paper::Refusal(refusal_by(&self.notary, self.id))
        }

        fn question(&self) -> Paper {
            Paper::Question(question_by(&self.second, 2, self.acceptance))
        }
    }

    fn refuses_each(rt: &impl Abort, side: &mut Side<StandIn>, table: &[(Fault, Paper)]) {
        for (expected, paper) in table {
            assert_eq!(rt; side.hear(paper).err(), Some(*expected), "at {paper}");
        }
    }

    // What the first side refuses when its exchange has ended. A wrong secret is still a wrong one, and what is for the other side is still that.
    fn first_is_late(rt: &impl Abort, pair: &mut Pair) {
        let wrong = Secret {
            secret: drawn(3),
            ..second_secret(&pair.second, pair.id, 2)
        };
        let table = [
            (Fault::AcceptanceTooLate, Paper::Acceptance(pair.acceptance)),
            (
                Fault::AcceptanceTooLate,
                Paper::Acceptance(acceptance_by(&pair.second, pair.offer, 3)),
            ),
            (
                Fault::OutOfPlace,
                Paper::Secret(second_secret(&pair.second, pair.id, 2)),
            ),
            (Fault::WrongSecret, Paper::Secret(wrong)),
            (Fault::OutOfPlace, pair.off()),
            (Fault::OutOfPlace, pair.stands()),
            (Fault::OutOfPlace, pair.refusal()),
            (Fault::OutOfPlace, pair.question()),
            (Fault::Misdirected, Paper::Offer(pair.offer)),
            (Fault::Misdirected, Paper::Secret(first_secret(pair.id, 1))),
        ];
        refuses_each(rt, &mut pair.one, &table);
        assert_eq!(rt; pair.one.ask(&pair.id).err(), Some(Fault::OutOfPlace));
        assert_eq!(rt; pair.one.offer(proposal(2, 1)).err(), OUT_OF_PLACE);
    }

    // The same of the second side.
    fn second_is_late(rt: &impl Abort, pair: &mut Pair) {
        let wish = wish_by(&pair.first, pair.offer);
        let table = [
            (Fault::OutOfPlace, Paper::Secret(first_secret(pair.id, 1))),
            (Fault::WrongSecret, Paper::Secret(first_secret(pair.id, 3))),
            (Fault::OutOfPlace, Paper::Offer(pair.offer)),
            (Fault::OutOfPlace, Paper::Off(wish)),
            (Fault::OutOfPlace, pair.off()),
            (Fault::OutOfPlace, pair.stands()),
            (Fault::OutOfPlace, pair.refusal()),
            (Fault::Misdirected, Paper::Acceptance(pair.acceptance)),
            (
                Fault::Misdirected,
                Paper::Secret(second_secret(&pair.second, pair.id, 2)),
            ),
        ];
        refuses_each(rt, &mut pair.two, &table);
        assert_eq!(rt; pair.two.ask(&pair.id).err(), Some(Fault::OutOfPlace));
        assert_eq!(rt; pair.two.accept(pair.offer, drawn(3)).err(), OUT_OF_PLACE);
    }

    // Both have ended like this, and what comes late changes nothing.
    fn is_late(rt: &impl Abort, pair: &mut Pair, end: Stage) {
        assert_eq!(rt; seen(&pair.one, &pair.id), end);
        assert_eq!(rt; seen(&pair.two, &pair.id), end);
        first_is_late(rt, pair);
        second_is_late(rt, pair);
        assert_eq!(rt; seen(&pair.one, &pair.id), end);
        assert_eq!(rt; seen(&pair.two, &pair.id), end);
    }

    #[test]
    fn late_after_secrets(rt: HostRuntime) -> Result<(), Fail> {
        let mut pair = Pair::new(rt.alloc())?;
        pair.end_by_secrets()?;
        is_late(&rt, &mut pair, Stage::BySecrets);
        Ok(())
    }

    #[test]
    fn late_after_off(rt: HostRuntime) -> Result<(), Fail> {
        let mut pair = Pair::new(rt.alloc())?;
        pair.end_by_notary()?;
        is_late(&rt, &mut pair, Stage::Free);
        Ok(())
    }

    #[test]
    fn late_after_stands(rt: HostRuntime) -> Result<(), Fail> {
        let mut pair = Pair::new(rt.alloc())?;
        pair.one.hear(&Paper::Acceptance(pair.acceptance))?;
        pair.end_by_notary()?;
        is_late(&rt, &mut pair, Stage::ByStands);
        Ok(())
    }

    // Sides that have never heard of the offer.
    #[test]
    fn unknown_offer(rt: HostRuntime) -> Result<(), Fail> {
        let heap = rt.alloc();
        let pair = Pair::new(heap)?;
        let mut one = side(heap, 1, &FIRST_KEY)?;
        let mut two = side(heap, 2, &SECOND_KEY)?;
        let own = [
            Paper::Acceptance(pair.acceptance),
            Paper::Secret(second_secret(&pair.second, pair.id, 2)),
        ];
        for paper in &own {
            assert_eq!(rt;
                one.hear(paper).err(),
                Some(Fault::UnknownOffer),
                "at {paper}"
            );
        }
        let of_either = [
            Paper::Secret(first_secret(pair.id, 1)),
            Paper::Off(wish_by(&pair.first, pair.offer)),
            pair.off(),
            pair.stands(),
            pair.refusal(),
            pair.question(),
        ];
        for paper in &of_either {
            assert_eq!(rt;
                one.hear(paper).err(),
                Some(Fault::UnknownOffer),
                "at {paper}"
            );
            assert_eq!(rt;
                two.hear(paper).err(),
                Some(Fault::UnknownOffer),
                "at {paper}"
            );
        }
        assert_eq!(rt; one.ask(&pair.id).err(), Some(Fault::UnknownOffer));
        Ok(())
    }

    // A secret serves once, in either role; that of a refused order is not used up.
    #[test]
    fn used_secret(rt: HostRuntime) -> Result<(), Fail> {
        let heap = rt.alloc();
        let mut one = side(heap, 1, &FIRST_KEY)?;
        let mut two = side(heap, 2, &SECOND_KEY)?;
        one.offer(proposal(2, 1))?;
        let here = two.offer(proposal(1, 2))?.id;
        let there = two.offer(proposal(1, 3))?.id;
        let here = offer_in(&two, &here).ok_or("it is not kept")?;
        let there = offer_in(&two, &there).ok_or("it is not kept")?;

        assert_eq!(rt; one.offer(proposal(3, 1)).err(), OUT_OF_PLACE);
        assert_eq!(rt; one.accept(here, drawn(1)).err(), OUT_OF_PLACE);
        one.accept(here, drawn(4))?;
        assert_eq!(rt; one.accept(there, drawn(4)).err(), OUT_OF_PLACE);
        assert_eq!(rt; one.offer(proposal(3, 4)).err(), OUT_OF_PLACE);
        assert_eq!(rt; one.accept(here, drawn(5)).err(), OUT_OF_PLACE);
        one.accept(there, drawn(5))?;
        Ok(())
    }

    // ---- ticks

    // Whether this wish, and nothing else, is sent to the notary again.
    fn is_sent_again(posts: &[Post], asked: &Paper) -> bool {
        match (posts, asked) {
            (
                [
                    Post {
                        to,
                        paper: Paper::Off(wish),
                    },
                ],
                Paper::Off(was),
            ) => {
                *to == Party::Notary(1)
                    && wish.offer.signature == was.offer.signature
                    && wish.signature == was.signature
            }
            (_, _) => false,
        }
    }

    // The second question is ten ticks younger than the first.
    #[test]
    fn ticks(rt: HostRuntime) -> Result<(), Fail> {
        let heap = rt.alloc();
        let mut one = side(heap, 1, &FIRST_KEY)?;
        let first = one.offer(proposal(2, 1))?.id;
        let second = one.offer(proposal(3, 2))?.id;
        let first = sent(one.ask(&first)?).ok_or("nothing is asked")?.paper;
        for _ in 0..10 {
            assert!(rt; one.tick(heap)?.is_empty());
        }
        let second = sent(one.ask(&second)?).ok_or("nothing is asked")?.paper;
        for tick in 11..150 {
            let posts = one.tick(heap)?;
            match tick {
                64 | 128 => assert!(rt; is_sent_again(&posts, &first), "at {tick}"),
                74 | 138 => assert!(rt; is_sent_again(&posts, &second), "at {tick}"),
                _ => assert!(rt; posts.is_empty(), "at {tick}"),
            }
        }
        Ok(())
    }
}
