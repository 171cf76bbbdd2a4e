// What is kept of a line while its bytes come in.

ghost use Rattle.std.specs.Prelude.{◌≡◌, [], ◌≤◌, take};
ghost use Rattle.stream.specs.Keep.{most_kept, keep};

// So many bytes are kept of a line, one more than a frame has.
const MOST_KEPT: usize = 40;

// A line's first bytes, so many at most. They stand in the first places: what stands past them is left free, and nothing reads it.
#[derive(Clone, Copy)]
pub struct Line {
    bytes: [u8; MOST_KEPT],
    length: usize,
    ghost short: { length ≤ most_kept },
}

impl Line {
    // Nothing kept.
    pub fn new() -> Line
        ensures { take result.length result.bytes ≡ [] }
    {
        Line {
            bytes: [0; MOST_KEPT],
            length: 0,
        }
    }

    // The bytes that are kept.
    pub fn as_slice(&self) -> &[u8]
        ensures { result.now ≡ take self.now.length self.now.bytes }
    {
        &self.bytes[..self.length]
    }

    // Keeps one byte more, while there is room.
    pub fn keep(&mut self, b: u8)
        ensures { take self.new.length self.new.bytes ≡ keep (take self.old.length self.old.bytes) b }
    {
        if self.length < MOST_KEPT {
            self.bytes[self.length] = b;
            self.length += 1;
        }
    }
}
