// A stand-in for signatures, for trying the protocol out.
//
// IT IS NO PROTECTION: whoever knows a party's public half can sign in its name.
#![tactic(auto)]

ghost use Rattle.std.specs.Prelude.{map, IfOk, ◌≡◌, ◌≤◌, ◌∷◌, ◌++◌, length};
ghost use Rattle.sha256.specs.Sha256.{digested};
ghost use Rattle.standin.specs.Seal.{public_half, sealed, signed, member_of, found, scheme_of};

use octets::Buffer;
use papers::Party;
use sha256::digest;
use signing::Signatures;
use std::alloc::{AllocError, Global};

// A line of the directory.
#[derive(Clone, Copy)]
pub struct Member {
    pub party: Party,
    pub public: [u8; 32],
}

// One party's key, by its public half, and the directory.
#[derive(Drop)]
pub struct StandIn {
    public: [u8; 32],
    members: Vec<Member>,
}

// The longest message that can be signed.
const MOST: usize = 480;

// The digest of the public half and then the message.
fn keyed(public: &[u8; 32], message: &[u8]) -> [u8; 32]
    requires { length message.now ≤ MOST }
    ensures { result ≡ digested (public.now ++ message.now) }
{
    let mut bytes = Buffer::<512>::new();
    bytes.extend(public);
    bytes.extend(message);
    digest(&bytes)
}

#[tactic(auto, unfolding(crate::specs::Seal::sealed))]
fn seal(public: &[u8; 32], message: &[u8]) -> [u8; 64]
    requires { length message.now ≤ MOST }
    ensures { result ≡ sealed public.now message.now }
{
    let inner = keyed(public, message);
    let outer = keyed(public, &inner);
    let mut out = Buffer::<64>::new();
    out.extend(&inner);
    out.extend(&outer);
    out.into_array()
}

// The public half of a key.
pub fn public_of(key: &[u8; 32]) -> [u8; 32]
    ensures { result ≡ public_half key.now }
{
    let mut marked = Buffer::<33>::new();
    marked.push(0);
    marked.extend(key);
    digest(&marked)
}

// The directory of these parties, by their keys: whoever tries the protocol out has all of them.
pub fn directory(heap: Global, parties: &[(Party, [u8; 32])]) -> Result<Vec<Member>, AllocError>
    ensures { IfOk result (λ members. members.items ≡ map member_of parties.now) }
{
    parties
        .iter()
        .map(|(party, own)| Member {
            party: *party,
            public: public_of(own),
        })
        .collect(heap)
}

impl StandIn {
    pub fn new(key: &[u8; 32], members: Vec<Member>) -> StandIn
        ensures public { result.public ≡ public_half key.now }
        ensures members { result.members ≡ members }
    {
        StandIn {
            public: public_of(key),
            members,
        }
    }

    // The party's public half, if it is in the directory.
    fn find(&self, party: Party) -> Option<[u8; 32]>
        ensures { result ≡ found self.now.members.items party }
    {
        let member = self.members.iter().find(|member| member.party == party)?;
        Some(member.public)
    }
}

#[tactic(auto, unfolding(crate::specs::Seal::signed, crate::specs::Seal::passes))]
impl Signatures for StandIn {
    ghost scheme = { λ k. scheme_of k.members.items };

    ghost signs = { λ k m. signed k.public m };

    fn digest(&self, bytes: &[u8]) -> [u8; 32] {
        digest(bytes)
    }

    fn lists(&self, party: Party) -> bool {
        self.find(party).is_some()
    }

    fn verify(&self, party: Party, message: &[u8], signature: &[u8; 64]) -> bool {
        let Some(public) = self.find(party) else {
            return false;
        };
        message.len() <= MOST && seal(&public, message) == *signature
    }

    fn sign(&self, message: &[u8]) -> [u8; 64] {
        if message.len() <= MOST {
            seal(&self.public, message)
        } else {
            [0; 64]
        }
    }
}
