// A library as text: its listing, and what the listing program prints of any bytes.
#![tactic(auto)]

ghost use Rattle.text.specs.Calls.{ListGives, PrintGives};

use image::refusal::{Place, Refusal};

mod cursor; // cursor.rt: a text written part by part
mod line; // line.rt: the header's line, and a record's
mod lines; // lines.rt: a whole listing

// The listing of a library, in the front of the room. Every listing fits into 147456 bytes.
pub fn list(image: &[u8], room: &mut [u8]) -> Result<usize, Refusal>
    ensures { ListGives image.now room.old result room.new }
{
    let library = checker::accept(image)?;
    if room.len() < 147456 {
        return Err(Refusal::Room(Place::None));
    }
    Ok(lines::put(room, &library))
}

// What the listing program prints: the listing, or `refused` and the number. The result is how many bytes of the page it takes.
pub fn print(image: &[u8], page: &mut [u8; 147456]) -> usize
    ensures { PrintGives image.now page.old result page.new }
{
    match list(image, page) {
        Ok(length) => length,
        Err(refusal) => line::put_refused(page, refusal),
    }
}
