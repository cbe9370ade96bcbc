// A law of summer time that is chosen when the program runs.
#[derive(Clone, Copy)]
pub(crate) enum Law {
    Europe,
    America,
    NoSummer,
}
