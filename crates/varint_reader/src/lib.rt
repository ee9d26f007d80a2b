// A reader stands in a notice and gives its numbers one by one (document 01, "Notice layout").
#![tactic(auto)]

ghost use Rattle.std.specs.Prelude.{◌≡◌};
ghost use Rattle.varint.specs.Reading.{read_number};
ghost use Rattle.varint_reader.specs.Standing.{moved_on};

use refusal::Read;

// The bytes, and the position of the next number in them.
#[derive(Clone, Copy)]
pub struct Reader<'a> {
    pub src: &'a [u8],
    pub at: usize,
}

impl<'a> Reader<'a> {
    // A reader at the first byte.
    pub fn new(src: &'a [u8]) -> Reader<'a>
        ensures { (result.src ≡ src.entry) × (result.at ≡ 0) }
    {
        Reader { src, at: 0 }
    }

    // The next number, or its refusal; the reader moves on to the place after the number, and stays where nothing can be read.
    pub fn next(&mut self) -> Read<u64>
        ensures { (result ≡ read_number self.old.src.now self.old.at)
            × (self.new ≡ moved_on self.old) }
    {
        let read = varint::read_number(self.src, self.at);
        self.at = read.map_or(self.at, |(_, next)| next);
        read
    }
}
