// The commands of docs/CASES.md, read from their letters and the fields behind them.
use page::bytes;

#[derive(Clone, Copy)]
pub enum Command<'a> {
    Text(&'a [u8]),
    EndOfLine,
    Change(Which, Change<'a>),
    Byte(Which, u16, u8),
    Exchange,
    Item(u16),
    Caps(Caps),
    Room(u16),
    Make,
    Judge,
    Condense,
    Check,
    AskRegister(u8),
    AskSummary(u8),
    List,
    Sweep(u16),
    OpenTally,
    CloseTally,
}

// The file that a command changes.
#[derive(Clone, Copy)]
pub enum Which {
    Register,
    Summary,
    Question,
}

// "level, neighbour cap and class cap".
#[derive(Clone, Copy)]
pub struct Caps {
    pub level: u16,
    pub mu: u16,
    pub nu: u16,
}

// "from the place on `out` bytes are taken out and the `in` bytes stand there instead".
#[derive(Clone, Copy)]
pub struct Change<'a> {
    pub place: u16,
    pub out: u16,
    pub come: Come<'a>,
}

#[derive(Clone, Copy)]
pub enum Come<'a> {
    Bytes(&'a [u8]),
    // "each byte of the `in` stands for two: 0 and itself".
    Numbers(&'a [u8]),
}

impl<'a> Command<'a> {
    // The command that stands first.
    pub fn read(unread: &mut Unread<'a>) -> Option<Command<'a>> {
        Some(match unread.byte()? {
            b't' => Command::Text(unread.text()?),
            b'e' => Command::EndOfLine,
            b'r' => Command::Change(Which::Register, unread.change(Come::Bytes)?),
            b's' => Command::Change(Which::Summary, unread.change(Come::Bytes)?),
            b'q' => Command::Change(Which::Question, unread.change(Come::Bytes)?),
            b'R' => Command::Change(Which::Register, unread.change(Come::Numbers)?),
            b'S' => Command::Change(Which::Summary, unread.change(Come::Numbers)?),
            b'Q' => Command::Change(Which::Question, unread.change(Come::Numbers)?),
            b'1' => Command::Byte(Which::Register, unread.number()?, unread.byte()?),
            b'2' => Command::Byte(Which::Summary, unread.number()?, unread.byte()?),
            b'3' => Command::Byte(Which::Question, unread.number()?, unread.byte()?),
            b'x' => Command::Exchange,
            b'i' => Command::Item(unread.number()?),
            b'c' => Command::Caps(unread.caps()?),
            b'o' => Command::Room(unread.number()?),
            b'm' => Command::Make,
            b'j' => Command::Judge,
            b'd' => Command::Condense,
            b'k' => Command::Check,
            b'a' => Command::AskRegister(unread.byte()?),
            b'b' => Command::AskSummary(unread.byte()?),
            b'l' => Command::List,
            b'w' => Command::Sweep(unread.number()?),
            b'[' => Command::OpenTally,
            b']' => Command::CloseTally,
            _ => return None,
        })
    }
}

// What is still to be read of a list of commands.
#[derive(Clone, Copy)]
pub struct Unread<'a> {
    pub bytes: &'a [u8],
}

impl<'a> Unread<'a> {
    fn byte(&mut self) -> Option<u8> {
        self.bytes.split_off_first().copied()
    }

    // "A number has two bytes, most significant first".
    fn number(&mut self) -> Option<u16> {
        let two = self.bytes.split_off(..2)?;
        Some(bytes::two(two, 0))
    }

    // "three numbers".
    fn caps(&mut self) -> Option<Caps> {
        let level = self.number()?;
        let mu = self.number()?;
        let nu = self.number()?;
        Some(Caps { level, mu, nu })
    }

    // "one byte k; k bytes".
    fn text(&mut self) -> Option<&'a [u8]> {
        let k = self.byte()?;
        self.bytes.split_off(..usize::from(k))
    }

    // "place, out, in; `in` bytes".
    fn change<F: FnOnce(&'a [u8]) -> Come<'a>>(&mut self, come: F) -> Option<Change<'a>>
        requires { F.IsAlwaysCallable come }
    {
        let place = self.number()?;
        let out = self.number()?;
        let count = self.number()?;
        let bytes = self.bytes.split_off(..usize::from(count))?;
        Some(Change {
            place,
            out,
            come: come(bytes),
        })
    }
}
