// Papers that end in a signature. Their `impl`s are alike, but the gate refuses those that a macro of the repository writes.
ghost use Rattle.std.specs.Prelude.{◌≡◌, ℕ, List, ◌++◌, length};
ghost use Rattle.papers.specs.Encoding.{offer_head, acceptance_head, off_head, notice_head, refusal_head, question_head};
ghost use Rattle.papers.specs.Ends.{offer_ends, acceptance_ends, off_ends, notice_ends, refusal_ends, question_ends};

use crate::encode::Encode;
use crate::{Acceptance, Notice, Off, Offer, Question, Refusal};

// A paper that ends in a signature on all that stands before it.
pub trait Signed: Encode {
    ghost head: { Self → List ℕ };

    ghost signature: { Self → List ℕ };

    // the paper under another signature
    ghost with_signature: { Self → List ℕ → Self };

    fn signature(&self) -> &[u8; 64]
        ensures value { result.now ≡ signature self.now }
        ensures len { length result.now ≡ 64 };

    fn with_signature(self, other: [u8; 64]) -> Self
        ensures { result ≡ with_signature self other };

    ghost ends: { (x : Self) → Self.bytes x ≡ head x ++ signature x };
}

impl Signed for Offer {
    ghost head = { offer_head };

    ghost signature = { λ o. o.signature };

    ghost with_signature = { λ o s. record { first = o.first; second = o.second; notary = o.notary; terms = o.terms; text = o.text; lock = o.lock; signature = s } };

    ghost ends = { offer_ends };

    fn signature(&self) -> &[u8; 64] {
        &self.signature
    }

    fn with_signature(self, signature: [u8; 64]) -> Offer {
        Offer { signature, ..self }
    }
}

impl Signed for Acceptance {
    ghost head = { acceptance_head };

    ghost signature = { λ a. a.signature };

    ghost with_signature = { λ a s. record { offer = a.offer; lock = a.lock; signature = s } };

    ghost ends = { acceptance_ends };

    fn signature(&self) -> &[u8; 64] {
        let Acceptance { signature, .. } = self;
        signature
    }

    fn with_signature(self, signature: [u8; 64]) -> Acceptance {
        Acceptance { signature, ..self }
    }
}

impl Signed for Off {
    ghost head = { off_head };

    ghost signature = { λ f. f.signature };

    ghost with_signature = { λ f s. record { offer = f.offer; signature = s } };

    ghost ends = { off_ends };

    fn signature(&self) -> &[u8; 64] {
        &self.signature
    }

    fn with_signature(self, signature: [u8; 64]) -> Off {
        Off { signature, ..self }
    }
}

impl Signed for Notice {
    ghost head = { notice_head };

    ghost signature = { λ n. n.signature };

    ghost with_signature = { λ n s. record { finding = n.finding; stamp = n.stamp; signature = s } };

    ghost ends = { notice_ends };

    fn signature(&self) -> &[u8; 64] {
        &self.signature
    }

    fn with_signature(self, signature: [u8; 64]) -> Notice {
        Notice { signature, ..self }
    }
}

impl Signed for Refusal {
    ghost head = { refusal_head };

    ghost signature = { λ r. r.signature };

    ghost with_signature = { λ r s. record { offer = r.offer; signature = s } };

    ghost ends = { refusal_ends };

    fn signature(&self) -> &[u8; 64] {
        &self.signature
    }

    fn with_signature(self, signature: [u8; 64]) -> Refusal {
        Refusal { signature, ..self }
    }
}

impl Signed for Question {
    ghost head = { question_head };

    ghost signature = { λ q. q.signature };

    ghost with_signature = { λ q s. record { side = q.side; acceptance = q.acceptance; signature = s } };

    ghost ends = { question_ends };

    fn signature(&self) -> &[u8; 64] {
        &self.signature
    }

    fn with_signature(self, signature: [u8; 64]) -> Question {
        Question { signature, ..self }
    }
}
