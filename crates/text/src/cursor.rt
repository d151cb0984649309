// A text written part by part into a lent room. `std::io::Cursor` does not promise that it keeps its room.
ghost use Rattle.std.specs.Prelude.{◌≡◌, [], ◌∷◌, ◌++◌, length};
ghost use Rattle.text.specs.Decimal.{decimal, signed_decimal};
ghost use Rattle.text.specs.Cursor.{HasRoom, Appends};

use itoa::write_digits;

// The room, and the place behind what is written.
#[derive(Drop)]
pub struct Cursor<'a> {
    pub room: &'a mut [u8],
    pub end: usize,
}

// A text copied over a part that is as long. Here the compiler knows that the two lie apart, and asks the host for `memcpy` alone.
fn copy(part: &mut [u8], text: &[u8])
    requires { length part.old ≡ length text.now }
    ensures { part.new ≡ text.now }
{
    part.copy_from_slice(text);
}

// How many digits a number has.
fn digits(n: u32) -> usize
    ensures { result ≡ length (decimal n) }
{
    if n < 10 {
        1
    } else if n < 100 {
        2
    } else if n < 1_000 {
        3
    } else if n < 10_000 {
        4
    } else {
        4 + digits(n / 10_000)
    }
}

impl Cursor<'_> {
    pub fn put(&mut self, text: &[u8])
        requires { HasRoom self.old text.now }
        ensures { Appends self.old text.now self.new }
    {
        let from = self.end;
        let end = from + text.len();
        copy(&mut self.room[from..end], text);
        self.end = end;
    }

    pub fn put_byte(&mut self, byte: u8)
        requires { HasRoom self.old (byte ∷ []) }
        ensures { Appends self.old (byte ∷ []) self.new }
    {
        let at = self.end;
        self.room[at] = byte;
        self.end = at + 1;
    }

    // Several digits, written where they stand.
    fn put_digits(&mut self, n: u32)
        requires { HasRoom self.old (decimal n) }
        ensures { Appends self.old (decimal n) self.new }
    {
        let end = self.end + digits(n);
        write_digits(u64::from(n), self.room, end);
        self.end = end;
    }

    // A number in decimal. A listing has many of one digit.
    pub fn put_number(&mut self, n: u32)
        requires { HasRoom self.old (decimal n) }
        ensures { Appends self.old (decimal n) self.new }
    {
        if n < 10 {
            self.put_byte(b'0' + n as u8);
        } else {
            self.put_digits(n);
        }
    }

    // A minus before one below zero.
    pub fn put_signed(&mut self, n: i32)
        requires { HasRoom self.old (signed_decimal n) }
        ensures { Appends self.old (signed_decimal n) self.new }
    {
        if n < 0 {
            self.put_byte(b'-');
        }
        self.put_number(n.unsigned_abs());
    }

    // A word and a number behind it.
    #[tactic(auto, using(crate::proofs::Writes::writing))]
    pub fn put_field(&mut self, word: &[u8], n: u32)
        requires { HasRoom self.old (word.now ++ decimal n) }
        ensures { Appends self.old (word.now ++ decimal n) self.new }
    {
        self.put(word);
        self.put_number(n);
    }
}
