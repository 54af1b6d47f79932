// A tick that passes.
ghost use Rattle.std.specs.Prelude.{◌≡◌, ◌+◌, if◌then◌else◌, nat_le};
ghost use Rattle.exchange.specs.Steps.{with_state, to_notary, tick};
ghost use Rattle.exchange.specs.declared.Effect.TheVariants.{Nothing};
ghost use Rattle.exchange.specs.declared.State.{State};

use crate::{Effect, Exchange, State};
use papers::Paper;

// A question waits for this many ticks: the 64th after it sends it again.
const AGAIN: u8 = 63;

impl Exchange {
    // The question waits one tick more, in the state that is given its ticks; the 64th tick sends it again, the same bytes.
    fn wait<F: FnOnce(u8) -> State>(
        self,
        ticks: u8,
        question: Paper,
        waiting: F,
    ) -> (Exchange, Effect)
        requires { F.IsAlwaysCallable waiting }
        ensures { (s : State) × F.post waiting (if nat_le 63 ticks then 0 else ticks + 1) s
            × (result ≡ (with_state self s, (if nat_le 63 ticks then to_notary self question else Nothing))) }
    {
        if ticks < AGAIN {
            (self.in_state(waiting(ticks + 1)), Effect::Nothing)
        } else {
            self.ask_by(waiting(0), question)
        }
    }

    // A tick passes.
    #[tactic(auto, unfolding(crate::specs::Steps::tick))]
    pub fn tick(self) -> (Exchange, Effect)
        ensures { result ≡ tick self }
    {
        match self.state {
            State::AskedOff(wish, ticks) => {
                self.wait(ticks, Paper::Off(wish), |t| State::AskedOff(wish, t))
            }
            State::AskedStands(question, ticks) => {
                self.wait(
                    ticks,
                    Paper::Question(question),
                    |t| State::AskedStands(question, t),
                )
            }
            State::Asked(question, ticks) => {
                self.wait(
                    ticks,
                    Paper::Question(question),
                    |t| State::Asked(question, t),
                )
            }
            State::Offered
            | State::Said(_)
            | State::Accepted(_)
            | State::Bound(_)
            | State::Free(_) => (self, Effect::Nothing),
        }
    }
}
