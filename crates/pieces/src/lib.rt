// What the lines of the two programs are written with: bytes, numbers, words, and fields behind a tab, each written into a
// buffer that the caller lends. A piece is written where there is room for it, and the cursor goes past it; where there is none
// nothing changes and the cursor stays. So the promises compose with no word of the room, and whether a line fits is asked
// before (`fits`). Each promise is an equation with a definition of specs/, and says that the buffer is still the same one (`same`: it is of two
// states, which no invariant says, and behind an `impl Model` the link to the caller's buffer is lost; so it is of every struct that
// lends something to be written).
#![tactic(auto)]

ghost use Rattle.std.specs.Prelude.{◌≡◌, [], ◌∷◌, ◌+◌, leb};
ghost use Rattle.text.specs.Numbers.{decimal_of};
ghost use Rattle.pieces.specs.Pieces.{letter, after, after_all, letters};
ghost use Rattle.pieces.specs.Cursors.{cursor_in, SameOut};

use text::TAB;

// A lent buffer, and the place where the next piece goes.
#[derive(Drop)]
pub struct Cursor<'a> {
    pub out: &'a mut [u8],
    pub at: usize,
}

impl Cursor<'_> {
    // A byte.
    pub fn put_byte(&mut self, byte: u8)
        ensures same { SameOut self.old self.new }
        ensures put { cursor_in self.new ≡ after (letter byte) (cursor_in self.old) }
    {
        if self.at < self.out.len() {
            self.out[self.at] = byte;
            self.at += 1;
        }
    }

    // A number in decimal.
    pub fn put_number(&mut self, n: u64)
        ensures same { SameOut self.old self.new }
        ensures put { cursor_in self.new ≡ after (decimal_of n) (cursor_in self.old) }
    {
        if let Some(past) = text::print_number(n, self.out, self.at) {
            self.at = past;
        }
    }

    // A tab and a letter.
    pub fn put_letter(&mut self, byte: u8)
        ensures same { SameOut self.old self.new }
        ensures put { cursor_in self.new ≡ after_all (letter 9 ∷ letter byte ∷ []) (cursor_in self.old) }
    {
        self.put_byte(TAB);
        self.put_byte(byte);
    }

    // A tab and a number.
    pub fn put_field(&mut self, n: u64)
        ensures same { SameOut self.old self.new }
        ensures put { cursor_in self.new ≡ after_all (letter 9 ∷ decimal_of n ∷ []) (cursor_in self.old) }
    {
        self.put_byte(TAB);
        self.put_number(n);
    }

    // A word, byte by byte.
    pub fn put_word(&mut self, word: &[u8])
        ensures same { SameOut self.old self.new }
        ensures put { cursor_in self.new ≡ after_all (letters word.now) (cursor_in self.old) }
    {
        for byte in word {
            self.put_byte(*byte);
        }
    }
}

// Whether so many bytes fit into the room from a place on. No sum can wrap.
pub fn fits(size: usize, at: usize, room: usize) -> bool
    ensures { result ≡ leb (at + size) room }
{
    at <= room && size <= room - at
}
