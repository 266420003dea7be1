// The reader for hosts: a struct that holds the file and its own bit position.
#![tactic(auto)]

ghost use Rattle.std.specs.Prelude.{◌≡◌};
ghost use Rattle.reader.specs.Reading.{reader_of, answer_of, moved_on, two_answers};

// A file, and the number of the bit that is read next. That bit may be past the end, where every read is refused.
#[derive(Drop)]
pub struct Reader<'a> {
    pub file: &'a [u8],
    pub at: usize,
}

impl<'a> Reader<'a> {
    // A reader of a file, at its first bit.
    pub fn new(file: &'a [u8]) -> Reader<'a>
        ensures { result ≡ reader_of file.entry }
    {
        Reader { file, at: 0 }
    }

    // The bit that is read next.
    pub fn position(&self) -> usize
        ensures { result ≡ self.now.at }
    {
        self.at
    }

    // The reader's file.
    pub fn file(&self) -> &'a [u8]
        ensures { result ≡ self.now.file }
    {
        self.file
    }

    // The field of `width` bits at the reader's position, which moves past it; or none, and the position does not change.
    pub fn read(&mut self, width: usize) -> Option<u64>
        ensures { (result ≡ answer_of self.old width) × (self.new ≡ moved_on self.old width) }
    {
        let (value, next) = bits::read(self.file, self.at, width)?;
        self.at = next;
        Some(value)
    }
}

// Two fields in a row from a cursor on, through a local reader. Its contract names no reader.
pub fn read_pair(file: &[u8], at: usize, first: usize, second: usize) -> (Option<u64>, Option<u64>)
    ensures { result ≡ two_answers file.now at first second }
{
    let mut reader = Reader { file, at };
    let one = reader.read(first);
    let two = reader.read(second);
    (one, two)
}
