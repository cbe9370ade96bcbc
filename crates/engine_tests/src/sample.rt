use clock::CounterClock;
use engine::Engine;
use history::{Answer, Call, live};
use refusal::Refusal;
use runner::Stopped;
use store::WordStore;
use summer::NoSummer;

// Plan 1 with two events, row 1 that names it on every day, and a word past the cells.
pub(crate) fn two_tariffs() -> [u32; 707] {
    let mut words = [0u32; 707];
    words[0] = 46800;
    words[2] = 8190;
    words[3] = 254;
    words[4] = 4294967294;
    words[5] = 1;
    words[130] = 6;
    words[132] = 1;
    words[133] = 22;
    words[135] = 2;
    words[706] = 7;
    words
}

// Makes the calls on a new engine over these words.
pub(crate) fn lives(words: &mut [u32], calls: &[Call], answers: &mut [Answer]) -> usize {
    let mut engine = Engine::new(CounterClock::new(), WordStore::new(words), NoSummer);
    live(&mut engine, calls, answers)
}

pub(crate) const NO_EDIT: Answer = Answer::Refused(Refusal::NoEdit);

// What an order of no bytes answers.
pub(crate) const NO_ORDER: Answer = Answer::Stopped(Stopped {
    place: 0,
    why: Refusal::BadOrder,
});
