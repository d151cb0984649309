// The listing program: reads an image on standard input, and prints its listing, or `refused` and the number. No contract can speak of
// what is read and printed: that the page holds what is to be printed of the bytes read is the contract of `text::print`, and that no more
// bytes need be read is `printed_front` in crates/text/proofs/Theorems.antt.
#![tactic(auto)]

ghost use Rattle.std.specs.Prelude.{◌≤◌, length};

use std::io::Read;

fn main(rt: HostRuntime) {
    // in front of the reading, since the compiler clears it twice where it stands behind
    let mut page = [0u8; 147456];
    // one byte more than an image may have: what is longer is refused
    let mut input = [0u8; 40977];
    let length = read_full(&mut rt.stdin(), &mut input);
    let end = text::print(&input[..length], &mut page);
    let _ = rt.write_all(&page[..end]);
}

// The input's bytes, at most as many as there is room for: how many they are. A read that fails ends the input.
// `read_exact` does not tell how many bytes a shorter input had, and `read_to_end` needs the heap.
fn read_full<R: Read>(reader: &mut R, room: &mut [u8]) -> usize
    ensures { result ≤ length room.old }
{
    let mut at = 0;
    while at < room.len()
        && let Ok(n @ 1..) = reader.read(&mut room[at..])
    {
        at += n;
    }
    at
}
