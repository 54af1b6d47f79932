// What papers and faults are called.
ghost use Rattle.std.specs.Prelude.{Some};
ghost use Rattle.papers.specs.Words.{paper_name, fault_text};

use crate::{Fault, Finding, Paper};
use std::error::Error;
use std::fmt;

impl fmt::Display for Paper {
    ghost output = { λ x. Some (paper_name x) };

    fn fmt<W: fmt::Write>(&self, f: &mut fmt::Formatter<W>) -> fmt::Result {
        f.write_str(match self {
            Paper::Offer(_) => "an offer",
            Paper::Acceptance(_) => "an acceptance",
            Paper::Secret(_) => "a secret",
            Paper::Off(_) => "the wish to call off",
            Paper::Notice(notice) => match notice.finding {
                Finding::CalledOff(_) => "the notary's Off",
                Finding::Standing(_) => "the notary's Stands",
            },
            Paper::Refusal(_) => "a refusal",
            Paper::Question(_) => "a question by an acceptance",
        })
    }
}

impl fmt::Display for Fault {
    ghost output = { λ x. Some (fault_text x) };

    fn fmt<W: fmt::Write>(&self, f: &mut fmt::Formatter<W>) -> fmt::Result {
        f.write_str(match self {
            Fault::Malformed => "no paper has this kind and length",
            Fault::UnknownParty => "a party is not in the directory, or both sides are one",
            Fault::BadSignature => "a signature is wrong",
            Fault::Misdirected => "it is meant for somebody else",
            Fault::UnknownOffer => "the offer is not known here",
            Fault::AcceptanceTooLate => "the acceptance is too late",
            Fault::WrongSecret => "the secret does not open the lock",
            Fault::TooMany => "there are too many exchanges",
            Fault::NoRoom => "this side's room in the notary's book is full",
            Fault::OutOfPlace => "it is out of place now",
            Fault::MixedOffers => "the papers belong to different offers",
        })
    }
}

impl Error for Fault {}
