ghost use Rattle.std.specs.Prelude.{◌≡◌, drop, Some, None};
ghost use Rattle.orders.specs.Form.{command_at, closes, size_of, stands};

// One command of a work order.
#[derive(Clone, Copy)]
pub enum Command {
    Open,
    Put(u32, u32),
    Check,
    Commit,
    Discard,
}

// The command that the bytes begin with, and the rest of them.
pub fn next_command(bytes: &[u8]) -> Option<(Command, &[u8])>
    ensures { elim result [ Some p ↦ (command_at bytes.now ≡ Some p.0) × (p.1.now ≡ drop (size_of p.0) bytes.now) | None ↦ command_at bytes.now ≡ None ] }
{
    match bytes {
        [0x01, rest @ ..] => Some((Command::Open, rest)),
        [0x10, c1, c0, v3, v2, v1, v0, rest @ ..] => Some((
            Command::Put(
                u32::from(u16::from_be_bytes([*c1, *c0])),
                u32::from_be_bytes([*v3, *v2, *v1, *v0]),
            ),
            rest,
        )),
        [0x20, rest @ ..] => Some((Command::Check, rest)),
        [0x30, rest @ ..] => Some((Command::Commit, rest)),
        [0x40, rest @ ..] => Some((Command::Discard, rest)),
        _ => None,
    }
}

impl Command {
    // Whether the command may stand at this place, with so many bytes after it.
    pub(crate) fn stands(self, place: usize, after: usize) -> bool
        ensures { result ≡ stands self place after }
    {
        match self {
            Command::Open => place == 0,
            Command::Put(_, _) | Command::Check => place != 0,
            Command::Commit | Command::Discard => place != 0 && after == 0,
        }
    }

    // Whether it closes the order.
    pub(crate) fn closes(self) -> bool
        ensures { result ≡ closes self }
    {
        matches!(self, Command::Commit | Command::Discard)
    }
}
