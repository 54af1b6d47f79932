// Each paper's bytes.
ghost use Rattle.std.specs.Prelude.{◌≡◌, ℕ, ◌+◌, ◌<◌, ◌≤◌, List, ◌∷◌, ◌++◌, length, is_ok, if◌then◌else◌};
ghost use Rattle.std.specs.List.{flat_map};
ghost use Rattle.papers.specs.Encoding.{kind_byte, terms_kind, offer_bytes, acceptance_bytes, secret_bytes, off_bytes, finding_bytes, finding_length, off_notice, stands_notice, notice_bytes, refusal_bytes, question_bytes, paper_bytes};

use crate::{
    Acceptance, Fault, Finding, Notice, Off, Offer, Paper, Question, Refusal, Secret, Stamp, Terms,
};
use octets::Buffer;
use std::alloc::AllocError;

// The bytes of the longest paper, a question.
pub const LONGEST: usize = 299;

// The kind bytes. The notary's Off has that of the wish in it.
#[derive(Clone, Copy)]
enum Kind {
    // an offer under plain terms
    Plain = 1,
    Acceptance = 2,
    Secret = 3,
    Off = 4,
    Stands = 5,
    Refusal = 6,
    Question = 7,
}

// What has bytes of its own.
pub trait Encode {
    ghost bytes: { Self → List ℕ };

    fn encode(&self) -> Buffer<LONGEST>
        ensures { result ≡ bytes self.now };
}

impl Kind {
    // A paper of this kind, with these parts behind its kind byte.
    #[inline(always)]
    fn paper(self, parts: &[&[u8]]) -> Buffer<LONGEST>
        requires { length (flat_map (λ p. p.now) parts.now) < LONGEST }
        ensures { result ≡ kind_byte self ∷ flat_map (λ p. p.now) parts.now }
    {
        let mut out = Buffer::new();
        out.push(self as u8);
        out.extend_all(parts);
        out
    }
}

impl Terms {
    // The kind of an offer under these terms.
    fn kind(self) -> Kind
        ensures { kind_byte result ≡ terms_kind self }
    {
        match self {
            Terms::Plain => Kind::Plain,
        }
    }
}

#[tactic(auto, unfolding(crate::specs::Encoding::offer_head, crate::specs::Encoding::offer_bytes))]
impl Encode for Offer {
    ghost bytes = { offer_bytes };

    fn encode(&self) -> Buffer<LONGEST>
        ensures bytes { result ≡ offer_bytes self.now }
        ensures len { length result ≡ 135 }
    {
        self.terms.kind().paper(&[
            &self.first.to_be_bytes(),
            &self.second.to_be_bytes(),
            &self.notary.to_be_bytes(),
            &self.text,
            &self.lock,
            &self.signature,
        ])
    }
}

#[tactic(auto, unfolding(crate::specs::Encoding::acceptance_head, crate::specs::Encoding::acceptance_bytes))]
impl Encode for Acceptance {
    ghost bytes = { acceptance_bytes };

    fn encode(&self) -> Buffer<LONGEST>
        ensures bytes { result ≡ acceptance_bytes self.now }
        ensures len { length result ≡ 232 }
    {
        Kind::Acceptance.paper(&[&self.offer.encode(), &self.lock, &self.signature])
    }
}

#[tactic(auto, unfolding(crate::specs::Encoding::secret_bytes))]
impl Encode for Secret {
    ghost bytes = { secret_bytes };

    fn encode(&self) -> Buffer<LONGEST>
        ensures bytes { result ≡ secret_bytes self.now }
        ensures len { length result ≡ 97 }
    {
        Kind::Secret.paper(&[&self.offer, &self.lock, &self.secret])
    }
}

#[tactic(auto, unfolding(crate::specs::Encoding::off_head, crate::specs::Encoding::off_bytes))]
impl Encode for Off {
    ghost bytes = { off_bytes };

    fn encode(&self) -> Buffer<LONGEST>
        ensures bytes { result ≡ off_bytes self.now }
        ensures len { length result ≡ 200 }
    {
        Kind::Off.paper(&[&self.offer.encode(), &self.signature])
    }
}

// What a notary signs of an offer under plain terms: the wish, or the acceptance under a kind of its own.
#[tactic(auto, unfolding(crate::specs::Encoding::finding_bytes))]
impl Encode for Finding {
    ghost bytes = { finding_bytes };

    fn encode(&self) -> Buffer<LONGEST>
        ensures bytes { result ≡ finding_bytes self.now }
        ensures len { length result ≡ finding_length self.now }
    {
        match self {
            Finding::CalledOff(wish) => wish.encode(),
            Finding::Standing(acceptance) => Kind::Stands.paper(&[&acceptance.encode()]),
        }
    }
}

impl Off {
    // The notary's Off: this wish, and his signature.
    #[tactic(auto, unfolding(crate::specs::Encoding::off_head, crate::specs::Encoding::off_bytes, crate::specs::Encoding::finding_bytes, crate::specs::Encoding::notice_head, crate::specs::Encoding::notice_bytes))]
    pub fn encode_notice(&self, signature: &[u8; 64]) -> Buffer<LONGEST>
        ensures bytes { result ≡ notice_bytes (off_notice self.now signature.now) }
        ensures len { length result ≡ 264 }
    {
        Kind::Off.paper(&[&self.offer.encode(), &self.signature, signature])
    }
}

impl Acceptance {
    // The notary's Stands: this acceptance under a kind of its own, and his signature.
    #[tactic(auto, unfolding(crate::specs::Encoding::finding_bytes, crate::specs::Encoding::notice_head, crate::specs::Encoding::notice_bytes))]
    pub fn encode_notice(&self, signature: &[u8; 64]) -> Buffer<LONGEST>
        ensures bytes { result ≡ notice_bytes (stands_notice self.now signature.now) }
        ensures len { length result ≡ 297 }
    {
        Kind::Stands.paper(&[&self.encode(), signature])
    }
}

// A call of its own, and not taken into the `match` over all papers, which would then move each paper's bytes twice.
#[tactic(auto, unfolding(crate::specs::Encoding::notice_head, crate::specs::Encoding::notice_bytes))]
impl Encode for Notice {
    ghost bytes = { notice_bytes };

    #[inline(never)]
    fn encode(&self) -> Buffer<LONGEST>
        ensures bytes { result ≡ notice_bytes self.now }
        ensures len { length result ≡ finding_length self.now.finding + 64 }
    {
        match (&self.finding, self.stamp) {
            (Finding::CalledOff(wish), Stamp::Plain) => wish.encode_notice(&self.signature),
            (Finding::Standing(acceptance), Stamp::Plain) => {
                acceptance.encode_notice(&self.signature)
            }
        }
    }
}

#[tactic(auto, unfolding(crate::specs::Encoding::refusal_head, crate::specs::Encoding::refusal_bytes))]
impl Encode for Refusal {
    ghost bytes = { refusal_bytes };

    fn encode(&self) -> Buffer<LONGEST>
        ensures bytes { result ≡ refusal_bytes self.now }
        ensures len { length result ≡ 98 }
    {
        Kind::Refusal.paper(&[&self.offer, &[Fault::NoRoom.number()], &self.signature])
    }
}

#[tactic(auto, unfolding(crate::specs::Encoding::question_head, crate::specs::Encoding::question_bytes))]
impl Encode for Question {
    ghost bytes = { question_bytes };

    fn encode(&self) -> Buffer<LONGEST>
        ensures bytes { result ≡ question_bytes self.now }
        ensures len { length result ≡ 299 }
    {
        Kind::Question.paper(&[
            &self.side.to_be_bytes(),
            &self.acceptance.encode(),
            &self.signature,
        ])
    }
}

#[tactic(auto, unfolding(crate::specs::Encoding::paper_bytes))]
impl Encode for Paper {
    ghost bytes = { paper_bytes };

    fn encode(&self) -> Buffer<LONGEST> {
        match self {
            Paper::Offer(offer) => offer.encode(),
            Paper::Acceptance(acceptance) => acceptance.encode(),
            Paper::Secret(secret) => secret.encode(),
            Paper::Off(off) => off.encode(),
            Paper::Notice(notice) => notice.encode(),
            Paper::Refusal(refusal) => refusal.encode(),
            Paper::Question(question) => question.encode(),
        }
    }
}

impl Paper {
    // Appends the paper's bytes, or leaves `out` as it was where there is no memory.
    pub fn append(&self, out: &mut Vec<u8>) -> Result<(), AllocError>
        ensures { out.new.items ≡ (if is_ok result then out.old.items ++ paper_bytes self.now else out.old.items) }
    {
        out.extend_from_slice(&self.encode())
    }
}
