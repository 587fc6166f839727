// What a line of the cases asks for.

// The call or the change that a line asks for.
#[derive(Clone, Copy)]
pub enum Command {
    Encode,
    Decode,
    Needs,
    Room,
    Handed,
    Build,
    Sizes,
    Values,
    Modify,
    Check,
    Words,
    WordAt,
    OccurrencesBelow,
    PlaceOf,
    Neighbours,
    Phrase,
    Ask,
    Group,
    Join,
    Yield,
    Quote,
    Open,
    Page,
    List,
    Text,
    Known,
    From,
    Iterate,
    Unique,
}

impl Command {
    // What a line asks for, by the character that it begins with; nothing where that is no command.
    pub fn of(line: &[u8]) -> Option<Command> {
        match line.first()? {
            b'e' => Some(Command::Encode),
            b'd' => Some(Command::Decode),
            b'n' => Some(Command::Needs),
            b'r' => Some(Command::Room),
            b'h' => Some(Command::Handed),
            b'b' => Some(Command::Build),
            b's' => Some(Command::Sizes),
            b'v' => Some(Command::Values),
            b'm' => Some(Command::Modify),
            b'c' => Some(Command::Check),
            b'w' => Some(Command::Words),
            b'1' => Some(Command::WordAt),
            b'2' => Some(Command::OccurrencesBelow),
            b'3' => Some(Command::PlaceOf),
            b'4' => Some(Command::Neighbours),
            b'5' => Some(Command::Phrase),
            b'a' => Some(Command::Ask),
            b'g' => Some(Command::Group),
            b'j' => Some(Command::Join),
            b'y' => Some(Command::Yield),
            b'q' => Some(Command::Quote),
            b'o' => Some(Command::Open),
            b'p' => Some(Command::Page),
            b'l' => Some(Command::List),
            b't' => Some(Command::Text),
            b'k' => Some(Command::Known),
            b'f' => Some(Command::From),
            b'i' => Some(Command::Iterate),
            b'u' => Some(Command::Unique),
            _ => None,
        }
    }
}
