ghost use Rattle.std.specs.Prelude.{◌≡◌, Ok, Err};
ghost use Rattle.history.specs.declared.calls.Answer.TheVariants as says;

use crate::calls::Answer;
use refusal::Refusal;
use runner::Stopped;
use schedule::Look;

impl From<()> for Answer {
    ghost from_gives = { λ u a. a ≡ says.Done };

    fn from(_: ()) -> Answer {
        Answer::Done
    }
}

impl From<u32> for Answer {
    ghost from_gives = { λ value a. a ≡ says.Cell value };

    fn from(value: u32) -> Answer {
        Answer::Cell(value)
    }
}

impl From<Look> for Answer {
    ghost from_gives = { λ look a. a ≡ says.Seen look };

    fn from(look: Look) -> Answer {
        Answer::Seen(look)
    }
}

impl From<Refusal> for Answer {
    ghost from_gives = { λ why a. a ≡ says.Refused why };

    fn from(why: Refusal) -> Answer {
        Answer::Refused(why)
    }
}

impl From<Stopped> for Answer {
    ghost from_gives = { λ stopped a. a ≡ says.Stopped stopped };

    fn from(stopped: Stopped) -> Answer {
        Answer::Stopped(stopped)
    }
}

// What was returned as well as why nothing was.
impl<T, E> From<Result<T, E>> for Answer
where
    Answer: From<T> + From<E>,
{
    ghost from_gives = { λ r a. elim r [ Ok value ↦ ⟦<Answer as From<T>>⟧.from_gives value a | Err why ↦ ⟦<Answer as From<E>>⟧.from_gives why a ] };

    fn from(r: Result<T, E>) -> Answer {
        match r {
            Ok(value) => Answer::from(value),
            Err(why) => Answer::from(why),
        }
    }
}
