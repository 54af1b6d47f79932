// How an exchange is said to stand.
ghost use Rattle.std.specs.Prelude.{Some};
ghost use Rattle.exchange.specs.Words.{state_name};

use crate::State;
use contract::Contract;
use std::fmt;

impl fmt::Display for State {
    ghost output = { λ s. Some (state_name s) };

    fn fmt<W: fmt::Write>(&self, f: &mut fmt::Formatter<W>) -> fmt::Result {
        f.write_str(match self {
            State::Offered
            | State::AskedOff(..)
            | State::Said(_)
            | State::AskedStands(..)
            | State::Accepted(_)
            | State::Asked(..) => "has not ended",
            State::Bound(Contract::Secrets { .. }) => "bound, by secrets",
            State::Bound(Contract::Stands(_)) => "bound, by Stands",
            State::Free(_) => "free",
        })
    }
}
