// What a notary decides: by what its book has for the offer, whether the asking side has room, and the message.
#![tactic(auto)]

ghost use Rattle.std.specs.Prelude.{◌≡◌, Some, None};
ghost use Rattle.papers.specs.Encoding.{about};
ghost use Rattle.signing.specs.Checks.{by_number, else_fault, and_then, fault_in, vetted};
ghost use Rattle.notary.specs.Decision.{row_of, row_name, notice_in, names, found, stamped, no_question, fault, new_notice, new_refusal, writes, refuses, answer as answered, decide};

use papers::{
    Acceptance, Encode, Fault, Finding, Notice, Off, Offer, Paper, Refusal, Stamp, Terms,
};
use signing::{Signatures, UNSIGNED, party_of, refusal_signed, sign, sign_checked, vet};
use std::fmt;

// What the book has for an offer. A rule of the project: an enum with a case for each, and no `Option` of a notice.
#[derive(Clone, Copy)]
pub enum Row {
    Nothing,
    // it is off, by the first side's wish
    Off {
        wish: Off,
        stamp: Stamp,
        signature: [u8; 64],
    },
    // this acceptance of it stands
    Stands {
        acceptance: Acceptance,
        stamp: Stamp,
        signature: [u8; 64],
    },
}

impl From<Notice> for Row {
    ghost from_gives = { λ n r. r ≡ row_of n };

    fn from(notice: Notice) -> Row {
        let Notice {
            finding,
            stamp,
            signature,
        } = notice;
        match finding {
            Finding::CalledOff(wish) => Row::Off {
                wish,
                stamp,
                signature,
            },
            Finding::Standing(acceptance) => Row::Stands {
                acceptance,
                stamp,
                signature,
            },
        }
    }
}

impl Row {
    // The notice that was written, if any.
    pub fn notice(&self) -> Option<Notice>
        ensures { result ≡ notice_in self.now }
    {
        let (finding, stamp, signature) = match *self {
            Row::Nothing => return None,
            Row::Off {
                wish,
                stamp,
                signature,
            } => (Finding::CalledOff(wish), stamp, signature),
            Row::Stands {
                acceptance,
                stamp,
                signature,
            } => (Finding::Standing(acceptance), stamp, signature),
        };
        Some(Notice {
            finding,
            stamp,
            signature,
        })
    }
}

impl fmt::Display for Row {
    ghost output = { λ r. Some (row_name r) };

    fn fmt<W: fmt::Write>(&self, f: &mut fmt::Formatter<W>) -> fmt::Result {
        f.write_str(match self {
            Row::Nothing => "nothing",
            Row::Off { .. } => "off",
            Row::Stands { .. } => "stands",
        })
    }
}

// The notice to write, if any, before the answer leaves; the side that is answered; the answer.
#[derive(Clone, Copy)]
pub struct Decision {
    pub write: Option<Notice>,
    pub to: u16,
    pub answer: Paper,
}

// ---- by the terms of the offer

// Whether the offer names this notary.
fn names(offer: &Offer, notary: u16) -> bool
    ensures { result ≡ names offer.now notary }
{
    match offer.terms {
        Terms::Plain => offer.notary == notary,
    }
}

// What it finds at this time, asked for a finding of which the book has nothing.
fn found(terms: Terms, _clock: u64, asked: Finding) -> Finding
    ensures { result ≡ found terms _clock asked }
{
    match terms {
        Terms::Plain => asked,
    }
}

// What it adds to a finding.
fn stamped(terms: Terms, _clock: u64) -> Stamp
    ensures { result ≡ stamped terms _clock }
{
    match terms {
        Terms::Plain => Stamp::Plain,
    }
}

// ---- the notary

// A notary at this time: its keys, its number, and what its clock shows.
#[derive(Drop)]
pub struct Notary<'a, K> {
    pub keys: &'a K,
    pub number: u16,
    pub clock: u64,
}

impl<K: Signatures> Notary<'_, K> {
    // A paper that is right in itself, and of an offer that names this notary.
    fn checked(&self, offer: &Offer, paper: &Paper) -> Result<(), Fault>
        ensures { fault_in result ≡ and_then (vetted (K.scheme self.now.keys.now) paper.now) (else_fault (names offer.now self.now.number) 4 None) }
    {
        vet(self.keys, paper)?;
        if !names(offer, self.number) {
            return Err(Fault::Misdirected);
        }
        Ok(())
    }

    // A paper that asks for nothing is out of place, whatever the book has.
    fn no_question(&self, offer: &Offer, paper: &Paper) -> Result<(), Fault>
        ensures { fault_in result ≡ no_question (K.scheme self.now.keys.now) self.now.number offer.now paper.now }
    {
        self.checked(offer, paper)?;
        Err(Fault::OutOfPlace)
    }

    // What is wrong with a message, the lowest number first.
    fn fault(&self, paper: &Paper) -> Result<(), Fault>
        ensures { fault_in result ≡ fault (K.scheme self.now.keys.now) self.now.number paper.now }
    {
        match paper {
            Paper::Off(wish) => self.checked(&wish.offer, paper),
            Paper::Question(question) => {
                let offer = question.acceptance.offer;
                self.checked(&offer, paper)?;
                if !party_of(question.side, &offer) {
                    return Err(Fault::Misdirected);
                }
                Ok(())
            }
            Paper::Offer(offer) => self.no_question(offer, paper),
            Paper::Acceptance(acceptance) => self.no_question(&acceptance.offer, paper),
            Paper::Notice(notice) => self.no_question(&notice.finding.about(), paper),
            Paper::Secret(_) | Paper::Refusal(_) => Err(Fault::OutOfPlace),
        }
    }

    // It writes what it finds, and answers with its paper, whose signature is checked before it leaves.
    #[tactic(auto, unfolding(crate::specs::Decision::new_notice))]
    fn writes(&self, asker: u16, finding: Finding) -> Result<Decision, Fault>
        ensures { by_number result ≡ writes (K.scheme self.now.keys.now) (K.signs self.now.keys.now) asker (new_notice (K.scheme self.now.keys.now) (K.signs self.now.keys.now) self.now.clock finding) }
    {
        let unsigned = Notice {
            finding,
            stamp: stamped(finding.about().terms, self.clock),
            signature: UNSIGNED,
        };
        let notice = sign_checked(self.keys, unsigned)?;
        Ok(Decision {
            write: Some(notice),
            to: asker,
            answer: Paper::Notice(notice),
        })
    }

    // It has no room for a row, and says so.
    #[tactic(auto, unfolding(crate::specs::Decision::new_refusal))]
    fn refuses(&self, asker: u16, offer: &Offer) -> Result<Decision, Fault>
        ensures { by_number result ≡ refuses (K.scheme self.now.keys.now) (K.signs self.now.keys.now) self.now.number asker (new_refusal (K.scheme self.now.keys.now) (K.signs self.now.keys.now) offer.now) }
    {
        let id = self.keys.digest(&offer.encode());
        let unsigned = Refusal {
            offer: id,
            signature: UNSIGNED,
        };
        let refusal = sign(self.keys, unsigned);
        if !refusal_signed(self.keys, self.number, &refusal) {
            return Err(Fault::BadSignature);
        }
        Ok(Decision {
            write: None,
            to: asker,
            answer: Paper::Refusal(refusal),
        })
    }

    // What the book has is the answer, whatever room is left; else there is something to write.
    fn answer(&self, row: &Row, room: bool, asker: u16, asked: Finding) -> Result<Decision, Fault>
        ensures { by_number result ≡ answered (K.scheme self.now.keys.now) (K.signs self.now.keys.now) self.now.number self.now.clock (notice_in row.now) room asker asked }
    {
        if let Some(notice) = row.notice() {
            return Ok(Decision {
                write: None,
                to: asker,
                answer: Paper::Notice(notice),
            });
        }
        let offer = asked.about();
        if room {
            self.writes(asker, found(offer.terms, self.clock, asked))
        } else {
            self.refuses(asker, &offer)
        }
    }

    // The decision, by what the book has for the offer, and the asking side's room.
    #[tactic(auto, unfolding(crate::specs::Decision::decide))]
    pub fn decide(&self, row: &Row, room: bool, paper: &Paper) -> Result<Decision, Fault>
        ensures { by_number result ≡ decide (K.scheme self.now.keys.now) (K.signs self.now.keys.now) self.now.number self.now.clock row.now room paper.now }
    {
        self.fault(paper)?;
        match paper {
            Paper::Off(wish) => {
                let asked = Finding::CalledOff(*wish);
                self.answer(row, room, wish.offer.first, asked)
            }
            Paper::Question(question) => {
                let asked = Finding::Standing(question.acceptance);
                self.answer(row, room, question.side, asked)
            }
            Paper::Offer(_)
            | Paper::Acceptance(_)
            | Paper::Secret(_)
            | Paper::Notice(_)
            | Paper::Refusal(_) => Err(Fault::OutOfPlace),
        }
    }
}
