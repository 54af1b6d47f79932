// Papers that are a contract, and papers that are just not.
#![tactic(auto)]

use contract::{Contract, cheated, is_contract};
use papers::{Acceptance, Finding, Notice, Off, Offer, Party, Stamp, Stands, Terms};
use signing::{Signatures, UNSIGNED, sign};
use standin::{StandIn, directory};
use std::alloc::{AllocError, Global};

const FIRST_KEY: [u8; 32] = [1; 32];

const SECOND_KEY: [u8; 32] = [2; 32];

const NOTARY_KEY: [u8; 32] = [3; 32];

const OTHER_NOTARY_KEY: [u8; 32] = [4; 32];

const FIRST_SECRET: [u8; 32] = [5; 32];

const SECOND_SECRET: [u8; 32] = [6; 32];

// One party's key, in a directory of sides 1 and 2 and notaries 1 and 2.
fn keys(heap: Global, own: &[u8; 32]) -> Result<StandIn, AllocError> {
    let parties = [
        (Party::Side(1), FIRST_KEY),
        (Party::Side(2), SECOND_KEY),
        (Party::Notary(1), NOTARY_KEY),
        (Party::Notary(2), OTHER_NOTARY_KEY),
    ];
    Ok(StandIn::new(own, directory(heap, &parties)?))
}

fn offer_by(keys: &StandIn, second: u16, lock: [u8; 32]) -> Offer {
    let unsigned = Offer {
        first: 1,
        second,
        notary: 1,
        terms: Terms::Plain,
        text: [7; 32],
        lock,
        signature: UNSIGNED,
    };
    sign(keys, unsigned)
}

fn acceptance_by(keys: &StandIn, offer: Offer, lock: [u8; 32]) -> Acceptance {
    let unsigned = Acceptance {
        offer,
        lock,
        signature: UNSIGNED,
    };
    sign(keys, unsigned)
}

fn off_by(first: &StandIn, notary: &StandIn, offer: Offer) -> Notice {
    let wish = Off {
        offer,
        signature: UNSIGNED,
    };
    notice_by(notary, Finding::CalledOff(sign(first, wish)))
}

fn notice_by(notary: &StandIn, finding: Finding) -> Notice {
    let unsigned = Notice {
        finding,
        stamp: Stamp::Plain,
        signature: UNSIGNED,
    };
    sign(notary, unsigned)
}

fn stands_by(notary: &StandIn, acceptance: Acceptance) -> Stands {
    let Notice {
        stamp,
        signature,
        ..
    } = notice_by(notary, Finding::Standing(acceptance));
    // No conversion: it would give an `Option`, and the acceptance is here.
    Stands {
        acceptance,
        stamp,
        signature,
    }
}

#[cfg(test)]
mod tests {
    use super::*;
    use std::test::Fail;

    fn secrets(acceptance: Acceptance, first: [u8; 32], second: [u8; 32]) -> Contract {
        Contract::Secrets {
            acceptance,
            first,
            second,
        }
    }

    #[test]
    fn what_makes_a_contract(rt: HostRuntime) -> Result<(), Fail> {
        let heap = rt.alloc();
        let first = keys(heap, &FIRST_KEY)?;
        let second = keys(heap, &SECOND_KEY)?;
        let notary = keys(heap, &NOTARY_KEY)?;
        let other = keys(heap, &OTHER_NOTARY_KEY)?;
        let x = FIRST_SECRET;
        let y = SECOND_SECRET;
        let offer = offer_by(&first, 2, first.digest(&x));
        let good = acceptance_by(&second, offer, second.digest(&y));
        let swapped = acceptance_by(
            &second,
            offer_by(&first, 2, first.digest(&y)),
            first.digest(&x),
        );
        let unsigned = acceptance_by(&first, offer, second.digest(&y));
        let forged_offer = acceptance_by(
            &second,
            offer_by(&second, 2, first.digest(&x)),
            second.digest(&y),
        );
        let to_itself = acceptance_by(
            &first,
            offer_by(&first, 1, first.digest(&x)),
            second.digest(&y),
        );
        let to_nobody = acceptance_by(
            &second,
            offer_by(&first, 3, first.digest(&x)),
            second.digest(&y),
        );
        let stands = stands_by(&notary, good);

        let table = [
            (true, secrets(good, x, y)),
            (false, secrets(good, y, y)),
            (false, secrets(good, x, x)),
            (false, secrets(good, y, x)),
            (false, secrets(swapped, x, y)),
            (true, secrets(swapped, y, x)),
            (false, secrets(unsigned, x, y)),
            (false, secrets(forged_offer, x, y)),
            (false, secrets(to_itself, x, y)),
            (false, secrets(to_nobody, x, y)),
            (true, Contract::Stands(stands)),
            (false, Contract::Stands(stands_by(&other, good))),
            (false, Contract::Stands(stands_by(&notary, unsigned))),
            (
                false,
                Contract::Stands(Stands {
                    acceptance: swapped,
                    ..stands
                }),
            ),
        ];
        for (expected, papers) in &table {
            assert_eq!(rt; is_contract(&first, papers), *expected);
        }
        Ok(())
    }

    #[test]
    fn what_shows_a_cheat(rt: HostRuntime) -> Result<(), Fail> {
        let heap = rt.alloc();
        let first = keys(heap, &FIRST_KEY)?;
        let second = keys(heap, &SECOND_KEY)?;
        let notary = keys(heap, &NOTARY_KEY)?;
        let other = keys(heap, &OTHER_NOTARY_KEY)?;
        let offer = offer_by(&first, 2, first.digest(&FIRST_SECRET));
        let another = offer_by(&first, 2, first.digest(&SECOND_SECRET));
        let good = acceptance_by(&second, offer, second.digest(&SECOND_SECRET));
        let off = off_by(&first, &notary, offer);
        let stands = Notice::from(stands_by(&notary, good));

        let table = [
            (true, off, stands),
            (false, stands, off),
            (false, off, off),
            (false, stands, stands),
            (false, off_by(&first, &notary, another), stands),
            (false, off_by(&second, &notary, offer), stands),
            (false, off_by(&first, &other, offer), stands),
            (false, off, Notice::from(stands_by(&other, good))),
        ];
        for (expected, f, s) in &table {
            assert_eq!(rt; cheated(&second, f, s), *expected);
        }
        Ok(())
    }
}
