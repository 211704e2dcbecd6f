ghost use Rattle.std.specs.Prelude.{◌≡◌, ◌≤◌, length, ◌==◌};

// Walks over the bytes of a schedule; the byte at the place is the next one to read.
#[derive(Clone, Copy)]
pub struct Reader<'a> {
    pub(crate) bytes: &'a [u8],
    pub(crate) place: usize,
    ghost within: { place ≤ length bytes.now },
}

impl<'a> Reader<'a> {
    // A reader at the first byte.
    pub fn new(bytes: &'a [u8]) -> Reader<'a>
        ensures { (result.bytes ≡ bytes.entry) × (result.place ≡ 0) }
    {
        Reader { bytes, place: 0 }
    }

    // Whether every byte is read.
    pub fn is_done(&self) -> bool
        ensures { result ≡ (self.now.place == length self.now.bytes.now) }
    {
        self.bytes.len() == self.place
    }

    // The place of the next byte to read.
    pub fn place(&self) -> usize
        ensures { result ≡ self.now.place }
    {
        self.place
    }
}
