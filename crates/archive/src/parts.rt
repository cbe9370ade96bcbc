// What an engine is made of.
#[derive(Drop)]
pub struct Parts<C, S, R> {
    pub clock: C,
    pub store: S,
    pub rule: R,
}
