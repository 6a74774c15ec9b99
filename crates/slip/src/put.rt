// Numbers put into a buffer, the highest byte first.
ghost use Rattle.std.specs.Prelude.{◌≡◌, ◌<◌, ◌≤◌, length};
ghost use Rattle.slip.specs.Bytes.{bytes_of, number_bytes};
ghost use Rattle.slip.specs.Fields.{field_bytes, tag_code};

// A number, by how many bytes it takes: an enum, since one slice holds numbers of several widths.
#[derive(Clone, Copy)]
pub enum Number {
    One(u8),
    Two(u16),
    Four(u32),
    Eight(u64),
}

impl Number {
    fn width(&self) -> usize
        ensures { result ≡ length (number_bytes self.now) }
    {
        match self {
            Number::One(_) => 1,
            Number::Two(_) => 2,
            Number::Four(_) => 4,
            Number::Eight(_) => 8,
        }
    }
}

// What a field says, by the tag that it begins with.
#[derive(Clone, Copy, PartialEq, Eq, Debug)]
pub enum Tag {
    Reel = 1,
    Frames = 2,
    Rule = 3,
    Plan = 4,
    Guarantee = 5,
    Chance = 6,
    Standing = 7,
    Counts = 8,
    BadFrame = 9,
}

impl Tag {
    fn code(self) -> u8
        ensures { result ≡ tag_code self }
    {
        self as u8
    }
}

// A buffer, and where its next byte is put.
#[derive(Drop)]
pub struct Cursor<'b> {
    buffer: &'b mut [u8],
    at: usize,
    ghost inside: { at ≤ length buffer.now },
}

impl<'b> Cursor<'b> {
    ghost use Rattle.std.specs.Prelude.{[]};
    ghost use Rattle.slip.specs.Cursors.{HasRoom, Wrote, done, left};

    pub fn new(buffer: &'b mut [u8]) -> Cursor<'b>
        ensures before { done result ≡ [] }
        ensures behind { left result ≡ buffer.old }
        ensures same { result.buffer.ghost_name ≡ buffer.entry.ghost_name }
    {
        Cursor { buffer, at: 0 }
    }

    // How many bytes are put.
    pub fn count(&self) -> usize
        ensures { result ≡ length (done self.now) }
    {
        self.at
    }

    fn bytes(&mut self, bytes: &[u8])
        requires { HasRoom self.old bytes.now }
        ensures { Wrote self.old bytes.now self.new }
    {
        let end = self.at + bytes.len();
        let buffer = &mut *self.buffer;
        buffer[self.at..end].copy_from_slice(bytes);
        self.at = end;
    }

    fn number(&mut self, number: Number)
        requires { HasRoom self.old (number_bytes number) }
        ensures { Wrote self.old (number_bytes number) self.new }
    {
        match number {
            Number::One(n) => self.bytes(&n.to_be_bytes()),
            Number::Two(n) => self.bytes(&n.to_be_bytes()),
            Number::Four(n) => self.bytes(&n.to_be_bytes()),
            Number::Eight(n) => self.bytes(&n.to_be_bytes()),
        }
    }

    fn numbers(&mut self, numbers: &[Number])
        requires { HasRoom self.old (bytes_of numbers.now) }
        ensures { Wrote self.old (bytes_of numbers.now) self.new }
    {
        for number in numbers {
            self.number(*number);
        }
    }

    // A field: its tag, how long its value is, and the value.
    pub fn field(&mut self, tag: Tag, value: &[Number])
        requires small { length (bytes_of value.now) < 65536 }
        requires room { HasRoom self.old (field_bytes (record { tag = tag; value = bytes_of value.now })) }
        ensures { Wrote self.old (field_bytes (record { tag = tag; value = bytes_of value.now })) self.new }
    {
        let width: usize = value.iter().map(|number| number.width()).sum();
        self.numbers(&[Number::One(tag.code()), Number::Two(width as u16)]);
        self.numbers(value);
    }
}
