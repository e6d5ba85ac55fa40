// The commands by their names.

// On the file's own bytes.
#[derive(Clone, Copy)]
pub enum Changing {
    Append,
    Cut,
    Change,
}

// The writer's calls that hand out no bytes.
#[derive(Clone, Copy)]
pub enum Entering {
    Name,
    LongName,
    Entry,
    EntryCount,
    EntryPart,
    EntryText,
}

// The writer's calls that store.
#[derive(Clone, Copy)]
pub enum Storing {
    Begin,
    Block,
    Close,
}

// Those that the file may be another after.
#[derive(Clone, Copy)]
pub enum Filing {
    Store(Storing),
    Blocks,
    Repair,
    Change(Changing),
}

#[derive(Clone, Copy)]
pub enum Command {
    Enter(Entering),
    File(Filing),
    New,
    State,
    Look,
    Nothing,
}

fn named_changing(name: &[u8]) -> Command {
    match test_text::place(b"append cut change", name) {
        0 => Command::File(Filing::Change(Changing::Append)),
        1 => Command::File(Filing::Change(Changing::Cut)),
        2 => Command::File(Filing::Change(Changing::Change)),
        _ => Command::Look,
    }
}

fn named_storing(name: &[u8]) -> Command {
    match test_text::place(b"new begin block blocks close state repair", name) {
        0 => Command::New,
        1 => Command::File(Filing::Store(Storing::Begin)),
        2 => Command::File(Filing::Store(Storing::Block)),
        3 => Command::File(Filing::Blocks),
        4 => Command::File(Filing::Store(Storing::Close)),
        5 => Command::State,
        6 => Command::File(Filing::Repair),
        _ => named_changing(name),
    }
}

fn named_entering(name: &[u8]) -> Command {
    match test_text::place(
        b"name long-name entry entry-count entry-part entry-text",
        name,
    ) {
        0 => Command::Enter(Entering::Name),
        1 => Command::Enter(Entering::LongName),
        2 => Command::Enter(Entering::Entry),
        3 => Command::Enter(Entering::EntryCount),
        4 => Command::Enter(Entering::EntryPart),
        5 => Command::Enter(Entering::EntryText),
        _ => named_storing(name),
    }
}

// The command of a line; one that is none of these looks at the file.
pub fn named(line: &[u8]) -> Command {
    if !test_text::is_command(line) {
        return Command::Nothing;
    }
    named_entering(test_text::word(line, 0))
}
