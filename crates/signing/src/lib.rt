// Signatures and digests behind a trait, and what anybody can check of a paper with them.
#![tactic(auto)]

ghost use Rattle.std.specs.Prelude.{◌≡◌, ℕ, Bool, List};
ghost use Rattle.papers.specs.declared.Party.{Party};
ghost use Rattle.signing.specs.Scheme.{Scheme};
ghost use Rattle.signing.specs.Checks.{party_of, notary_of, offer_signed, acceptance_signed, off_signed, notice_signed, refusal_signed, question_signed, parties_known, known, accepted, finding_signed, signed, vetted, fault_in, by_number, passing};
ghost use Rattle.signing.specs.Authored.{offer_by, acceptance_by, off_by, notice_by, question_by};

use papers::{
    Acceptance, Encode, Fault, Finding, Notice, Off, Offer, Paper, Party, Question, Refusal,
    Signed, Stamp,
};

// A scheme of signatures with a digest, the directory of the parties, and one party's key.
pub trait Signatures {
    // what everybody computes alike
    ghost scheme: { Self → Scheme };

    // the signature that this key makes of a message
    ghost signs: { Self → List ℕ → List ℕ };

    fn digest(&self, bytes: &[u8]) -> [u8; 32]
        ensures { result ≡ (scheme self.now).digest bytes.now };

    fn lists(&self, party: Party) -> bool
        ensures { result ≡ (scheme self.now).lists party };

    fn verify(&self, party: Party, message: &[u8], signature: &[u8; 64]) -> bool
        ensures { result ≡ (scheme self.now).accepts party message.now signature.now };

    fn sign(&self, message: &[u8]) -> [u8; 64]
        ensures { result ≡ signs self.now message.now };
}

// Whether this side is one of the two that the offer is between.
pub fn party_of(side: u16, offer: &Offer) -> bool
    ensures { result ≡ party_of side offer.now }
{
    offer.first == side || offer.second == side
}

// ---- one signature, on all that stands before it

// In the place of a signature that is not made yet.
pub const UNSIGNED: [u8; 64] = [0; 64];

// A paper that says who must have signed it.
pub trait Authored: Signed {
    ghost signer: { Self → Party };

    ghost is_signed: { Scheme → Self → Bool };

    fn signer(&self) -> Party
        ensures { result ≡ signer self.now };

    ghost meaning: { (S : Scheme) (x : Self) → is_signed S x ≡ S.accepts (signer x) (Self.head x) (Self.signature x) };
}

impl Authored for Offer {
    ghost signer = { λ o. Party.Side o.first };

    ghost is_signed = { offer_signed };

    ghost meaning = { offer_by };

    fn signer(&self) -> Party {
        Party::Side(self.first)
    }
}

impl Authored for Acceptance {
    ghost signer = { λ a. Party.Side a.offer.second };

    ghost is_signed = { acceptance_signed };

    ghost meaning = { acceptance_by };

    fn signer(&self) -> Party {
        Party::Side(self.offer.second)
    }
}

impl Authored for Off {
    ghost signer = { λ f. Party.Side f.offer.first };

    ghost is_signed = { off_signed };

    ghost meaning = { off_by };

    fn signer(&self) -> Party {
        Party::Side(self.offer.first)
    }
}

impl Authored for Notice {
    ghost signer = { λ n. Party.Notary (notary_of n) };

    ghost is_signed = { notice_signed };

    ghost meaning = { notice_by };

    fn signer(&self) -> Party {
        match self.stamp {
            Stamp::Plain => Party::Notary(self.finding.about().notary),
        }
    }
}

impl Authored for Question {
    ghost signer = { λ q. Party.Side q.side };

    ghost is_signed = { question_signed };

    ghost meaning = { question_by };

    fn signer(&self) -> Party {
        Party::Side(self.side)
    }
}

// The part of a paper's bytes that is signed.
fn head<'a, P: Signed>(paper: &P, bytes: &'a [u8]) -> &'a [u8]
    requires { bytes.now ≡ P.bytes paper.now }
    ensures { result.now ≡ P.head paper.now }
{
    let n = bytes.len() - paper.signature().len();
    &bytes[0..n]
}

// Whether the paper's signature is this party's.
pub fn signed_by<K: Signatures, P: Signed>(keys: &K, party: Party, paper: &P) -> bool
    ensures { result ≡ (K.scheme keys.now).accepts party (P.head paper.now) (P.signature paper.now) }
{
    let bytes = paper.encode();
    keys.verify(party, head(paper, &bytes), paper.signature())
}

// Whether the paper's signature is that of the party that must have signed it.
pub fn is_signed<K: Signatures, P: Authored>(keys: &K, paper: &P) -> bool
    ensures { result ≡ P.is_signed (K.scheme keys.now) paper.now }
{
    signed_by(keys, paper.signer(), paper)
}

// A refusal does not say whose it is: by `notary`?
#[tactic(auto, unfolding(crate::specs::Checks::refusal_signed))]
pub fn refusal_signed<K: Signatures>(keys: &K, notary: u16, refusal: &Refusal) -> bool
    ensures { result ≡ refusal_signed (K.scheme keys.now) notary refusal.now }
{
    signed_by(keys, Party::Notary(notary), refusal)
}

// The paper with this key's signature in the place of its own.
pub fn sign<K: Signatures, P: Signed>(keys: &K, paper: P) -> P
    ensures { result ≡ P.with_signature paper (K.signs keys.now (P.head paper)) }
{
    let bytes = paper.encode();
    let signature = keys.sign(head(&paper, &bytes));
    paper.with_signature(signature)
}

// The same of a paper that says whose it is; refused where the signature does not pass as its signer's.
pub fn sign_checked<K: Signatures, P: Authored + Drop>(keys: &K, paper: P) -> Result<P, Fault>
    ensures { by_number result ≡ passing (P.is_signed (K.scheme keys.now)) (P.with_signature paper (K.signs keys.now (P.head paper))) }
{
    let signed = sign(keys, paper);
    if is_signed(keys, &signed) {
        Ok(signed)
    } else {
        Err(Fault::BadSignature)
    }
}

// ---- a paper with all the papers in it

// Whether who is named is in the directory, and first and second differ.
pub fn parties_known<K: Signatures>(keys: &K, offer: &Offer) -> bool
    ensures { result ≡ parties_known (K.scheme keys.now) offer.now }
{
    keys.lists(Party::Side(offer.first))
        && keys.lists(Party::Side(offer.second))
        && keys.lists(Party::Notary(offer.notary))
        && offer.first != offer.second
}

fn known<K: Signatures>(keys: &K, paper: &Paper) -> bool
    ensures { result ≡ known (K.scheme keys.now) paper.now }
{
    match paper {
        Paper::Offer(offer) => parties_known(keys, offer),
        Paper::Acceptance(acceptance) => parties_known(keys, &acceptance.offer),
        Paper::Secret(_) => true,
        Paper::Off(off) => parties_known(keys, &off.offer),
        Paper::Notice(notice) => parties_known(keys, &notice.finding.about()),
        Paper::Refusal(_) => true,
        Paper::Question(question) => {
            parties_known(keys, &question.acceptance.offer)
                && keys.lists(Party::Side(question.side))
        }
    }
}

fn accepted<K: Signatures>(keys: &K, acceptance: &Acceptance) -> bool
    ensures { result ≡ accepted (K.scheme keys.now) acceptance.now }
{
    is_signed(keys, &acceptance.offer) && is_signed(keys, acceptance)
}

fn finding_signed<K: Signatures>(keys: &K, finding: &Finding) -> bool
    ensures { result ≡ finding_signed (K.scheme keys.now) finding.now }
{
    match finding {
        Finding::CalledOff(off) => is_signed(keys, &off.offer) && is_signed(keys, off),
        Finding::Standing(acceptance) => accepted(keys, acceptance),
    }
}

fn signed<K: Signatures>(keys: &K, paper: &Paper) -> bool
    ensures { result ≡ signed (K.scheme keys.now) paper.now }
{
    match paper {
        Paper::Offer(offer) => is_signed(keys, offer),
        Paper::Acceptance(acceptance) => accepted(keys, acceptance),
        Paper::Secret(_) => true,
        Paper::Off(off) => finding_signed(keys, &Finding::CalledOff(*off)),
        Paper::Notice(notice) => finding_signed(keys, &notice.finding) && is_signed(keys, notice),
        Paper::Refusal(_) => true,
        Paper::Question(question) => {
            accepted(keys, &question.acceptance) && is_signed(keys, question)
        }
    }
}

// Refuses a paper with a party that is not there, and then one with a wrong signature.
#[tactic(auto, unfolding(crate::specs::Checks::vetted))]
pub fn vet<K: Signatures>(keys: &K, paper: &Paper) -> Result<(), Fault>
    ensures { fault_in result ≡ vetted (K.scheme keys.now) paper.now }
{
    if !known(keys, paper) {
        return Err(Fault::UnknownParty);
    }
    if !signed(keys, paper) {
        return Err(Fault::BadSignature);
    }
    Ok(())
}
