// The papers of an exchange, as values, and their bytes.
#![tactic(auto)]

ghost use Rattle.std.specs.Prelude.{◌≡◌};
ghost use Rattle.papers.specs.Encoding.{about};
ghost use Rattle.papers.specs.Fault.{number};
ghost use Rattle.papers.specs.declared.Finding.TheVariants.{Standing};
ghost use Rattle.papers.specs.Party.{same_party};

pub use encode::{Encode, LONGEST};
pub use signed::Signed;

mod encode;
mod signed;
mod words;

// Who signs. Sides and notaries are numbered apart: side 5 and notary 5 are two parties with two keys.
#[derive(Clone, Copy, Debug, PartialEq, Eq)]
pub enum Party {
    Side(u16),
    Notary(u16),
}

impl Party {
    // Whether it is this party: `==`, under the name that it has been called by.
    pub fn is(self, other: Party) -> bool
        ensures { result ≡ same_party self other }
    {
        self == other
    }
}

// What an offer is made under. Further kinds of offers get a case each.
#[derive(Clone, Copy)]
pub enum Terms {
    // nothing besides
    Plain,
}

// What a notary adds to its finding, by the offer's terms.
#[derive(Clone, Copy)]
pub enum Stamp {
    // nothing
    Plain,
}

// An offer of `first` to `second`; `lock` is the digest of the secret that `first` has drawn for it.
#[derive(Clone, Copy)]
pub struct Offer {
    pub first: u16,
    pub second: u16,
    pub notary: u16,
    pub terms: Terms,
    pub text: [u8; 32],
    pub lock: [u8; 32],
    pub signature: [u8; 64],
}

// The second side accepts the offer; `lock` is the digest of the secret that it has drawn for it.
#[derive(Clone, Copy)]
pub struct Acceptance {
    pub offer: Offer,
    pub lock: [u8; 32],
    pub signature: [u8; 64],
}

// A secret, with the id of its offer and the lock of its acceptance: zeros for the first side's, and no `Option`, since none and a lock of zeros would be two papers
// with the same bytes.
#[derive(Clone, Copy)]
pub struct Secret {
    pub offer: [u8; 32],
    pub lock: [u8; 32],
    pub secret: [u8; 32],
}

// The first side's wish to call its offer off.
#[derive(Clone, Copy)]
pub struct Off {
    pub offer: Offer,
    pub signature: [u8; 64],
}

// What a notary finds of an offer.
#[derive(Clone, Copy)]
pub enum Finding {
    // it is off, by the first side's wish
    CalledOff(Off),
    // this acceptance of it stands
    Standing(Acceptance),
}

impl Finding {
    // The offer that it is about.
    pub fn about(&self) -> Offer
        ensures { result ≡ about self.now }
    {
        match self {
            Finding::CalledOff(off) => off.offer,
            Finding::Standing(acceptance) => acceptance.offer,
        }
    }
}

// A finding with the notary's signature: his Off, or his Stands. Stamp and signature stand beside each other in `Stands` and in the book's rows too: one struct for the two
// would be no plainer, since the fields of a paper are those of its bytes.
#[derive(Clone, Copy)]
pub struct Notice {
    pub finding: Finding,
    pub stamp: Stamp,
    pub signature: [u8; 64],
}

// The notice of an acceptance that stands, where nothing else will do.
#[derive(Clone, Copy)]
pub struct Stands {
    pub acceptance: Acceptance,
    pub stamp: Stamp,
    pub signature: [u8; 64],
}

// As what it is: a notice.
impl From<Stands> for Notice {
    ghost from_gives = { λ s n. n ≡ record { finding = Standing s.acceptance; stamp = s.stamp; signature = s.signature } };

    fn from(stands: Stands) -> Notice {
        let Stands {
            acceptance,
            stamp,
            signature,
        } = stands;
        Notice {
            finding: Finding::Standing(acceptance),
            stamp,
            signature,
        }
    }
}

// The notary has no room for a new row of the side that asked. Its number on paper is 9.
#[derive(Clone, Copy)]
pub struct Refusal {
    pub offer: [u8; 32],
    pub signature: [u8; 64],
}

// A side asks the notary by an acceptance.
#[derive(Clone, Copy)]
pub struct Question {
    pub side: u16,
    pub acceptance: Acceptance,
    pub signature: [u8; 64],
}

// Each kind is matched where it matters, and no function picks the offer out of every paper: so a further kind is missed nowhere.
#[derive(Clone, Copy)]
pub enum Paper {
    Offer(Offer),
    Acceptance(Acceptance),
    Secret(Secret),
    Off(Off),
    Notice(Notice),
    Refusal(Refusal),
    Question(Question),
}

// Why something is refused. Where several apply, the one with the lowest number is given.
#[derive(Clone, Copy, Debug, PartialEq, Eq)]
pub enum Fault {
    // unknown kind, or bad length
    Malformed = 1,
    // a side or notary that is not in the directory, or first and second are the same
    UnknownParty = 2,
    // a wrong signature
    BadSignature = 3,
    // not to this side, or another notary's
    Misdirected = 4,
    // an offer that is not known here
    UnknownOffer = 5,
    // an acceptance after the first one, or after asking by Off
    AcceptanceTooLate = 6,
    // a secret whose digest is not the lock that stands there
    WrongSecret = 7,
    // 1,024 exchanges are open, or 65,536 offers were taken
    TooMany = 8,
    // this side's room in the notary's book is full
    NoRoom = 9,
    // a message that is not for this state, or an offer that this side has taken before
    OutOfPlace = 10,
    // papers that belong to different offers
    MixedOffers = 11,
}

impl Fault {
    // The number by which the fault is known.
    pub fn number(self) -> u8
        ensures { result ≡ number self }
    {
        self as u8
    }
}
