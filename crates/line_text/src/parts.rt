//! The parts of bytes between separators, one after the other.
ghost use Rattle.std.specs.Prelude.{◌≡◌, ◌<◌, ◌≤◌, [], ◌∷◌, length, IfSome, IfNone, take, drop, ◌+◌, Some};
ghost use Rattle.line_text.specs.Parts.{separates, parts_of, parts_left, room_left, now_left, rest_left};

/// Where bytes are cut.
#[derive(Clone, Copy)]
pub enum Separator {
    /// Into lines, at each line feed.
    LineFeed,
    /// Into words, at each space and each tab.
    Blank,
}

impl Separator {
    /// Whether a byte separates two parts.
    pub fn is(self, byte: u8) -> bool
        ensures { result ≡ separates self byte }
    {
        match self {
            Separator::LineFeed => byte == b'\n',
            Separator::Blank => byte == b' ' || byte == b'\t',
        }
    }
}

/// The place of the first separator.
fn first(bytes: &[u8], separator: Separator) -> Option<usize>
    ensures some { IfSome result (λ i. i < length bytes.now) }
    ensures found { IfSome result (λ i. parts_of separator bytes.now ≡ take i bytes.now ∷ parts_of separator (drop (i + 1) bytes.now)) }
    ensures none { IfNone result (parts_of separator bytes.now ≡ bytes.now ∷ []) }
{
    for (i, byte) in bytes.iter().enumerate() {
        if separator.is(*byte) {
            return Some(i);
        }
    }
    None
}

/// The parts that are left.
#[derive(Drop)]
pub struct Parts<'a> {
    pub left: Option<&'a [u8]>,
    pub separator: Separator,
}

impl<'a> Parts<'a> {
    /// The parts of these bytes.
    pub fn new(bytes: &'a [u8], separator: Separator) -> Parts<'a>
        ensures parts { parts_left result.left result.separator ≡ parts_of separator bytes.now }
        ensures room { room_left result.left ≡ length bytes.now + 1 }
        ensures whole { now_left result.left ≡ Some bytes.now }
        ensures kind { result.separator ≡ separator }
    {
        Parts {
            left: Some(bytes),
            separator,
        }
    }

    /// The next part.
    pub fn next(&mut self) -> Option<&'a [u8]>
        ensures some { IfSome result (λ part. parts_left self.old.left self.old.separator ≡ part.now ∷ parts_left self.new.left self.new.separator) }
        ensures shorter { IfSome result (λ part. room_left self.new.left + length part.now + 1 ≡ room_left self.old.left) }
        ensures none { IfNone result (parts_left self.old.left self.old.separator ≡ []) }
        ensures over { IfNone result (room_left self.old.left ≡ 0) }
        ensures still { IfNone result (room_left self.new.left ≡ 0) }
        ensures kind { self.new.separator ≡ self.old.separator }
    {
        let bytes = self.left?;
        match first(bytes, self.separator) {
            Some(i) => {
                self.left = Some(&bytes[i + 1..]);
                Some(&bytes[..i])
            }
            None => {
                self.left = None;
                Some(bytes)
            }
        }
    }

    /// All bytes that are left.
    pub fn rest(&self) -> &'a [u8]
        ensures { result.now ≡ rest_left self.now.left }
    {
        match self.left {
            Some(bytes) => bytes,
            None => b"",
        }
    }
}
