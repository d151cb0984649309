// The lines of a listing, written.
ghost use Rattle.std.specs.Prelude.{◌≤◌, ◌<◌, length};
ghost use Rattle.profile.specs.Bytes.{wells_at};
ghost use Rattle.image.specs.Refusals.{number_of};
ghost use Rattle.text.specs.Cursor.{HasRoom, Appends};
ghost use Rattle.text.specs.Written.{Written};
ghost use Rattle.text.specs.Listing.{values_text, header_line, node_text, record_line, refused_line};

use crate::cursor::Cursor;
use image::accepted::Accepted;
use image::refusal::Refusal;
use profile::source::{Profile, Stored};

// Wells, metric, count, and the root's code.
#[tactic(auto, using(crate::proofs::Writes::writing), unfolding(crate::specs::Listing::header_line))]
pub fn put_header(out: &mut Cursor, library: &Accepted<'_>)
    requires { HasRoom out.old (header_line library.now.records.image.now) }
    ensures { Appends out.old (header_line library.now.records.image.now) out.new }
{
    let shape = library.records.shape;
    out.put_field(b"wells ", shape.wells as u32);
    out.put_field(b" metric ", u32::from(shape.metric.number()));
    out.put_field(b" count ", shape.count as u32);
    out.put_field(b" root ", library.records.code(library.root));
    out.put_byte(b'\n');
}

// A record's code, its parent's code, and its level.
#[tactic(auto, using(crate::proofs::Writes::writing), unfolding(crate::specs::Listing::node_text))]
fn put_node(out: &mut Cursor, library: &Accepted<'_>, i: usize)
    requires counted { i < library.now.records.shape.count }
    requires room { HasRoom out.old (node_text library.now.records.image.now i) }
    ensures { Appends out.old (node_text library.now.records.image.now i) out.new }
{
    let records = library.records;
    out.put_number(records.code(i));
    out.put_byte(b' ');
    out.put_number(records.code(records.parent(i)));
    out.put_byte(b' ');
    out.put_signed(records.level(i));
}

// The values of a profile, each behind a space.
#[tactic(auto, using(crate::proofs::Writes::writing))]
fn put_values(out: &mut Cursor, profile: &Stored<'_>)
    requires { HasRoom out.old (values_text (wells_at profile.now.image.now profile.now.at profile.now.wells)) }
    ensures { Appends out.old (values_text (wells_at profile.now.image.now profile.now.at profile.now.wells)) out.new }
{
    for i in 0..profile.wells {
        out.put_byte(b' ');
        out.put_signed(i32::from(profile.well(i)));
    }
}

// The line of a record.
#[tactic(auto, using(crate::proofs::Writes::writing), unfolding(crate::specs::Listing::record_line, image::specs::Fields::profile_at))]
pub fn put_record(out: &mut Cursor, library: &Accepted<'_>, i: usize)
    requires counted { i < library.now.records.shape.count }
    requires room { HasRoom out.old (record_line library.now.records.image.now i) }
    ensures { Appends out.old (record_line library.now.records.image.now i) out.new }
{
    put_node(out, library, i);
    put_values(out, &library.records.profile(i));
    out.put_byte(b'\n');
}

// `refused` and a refusal's number, at the front of a room.
#[tactic(auto, using(crate::proofs::Writes::writing), unfolding(crate::specs::Listing::refused_line))]
pub fn put_refused(room: &mut [u8], refusal: Refusal) -> usize
    requires { length (refused_line (number_of refusal)) ≤ length room.old }
    ensures { Written room.old 0 (refused_line (number_of refusal)) result room.new }
{
    let mut out = Cursor { room, end: 0 };
    out.put_field(b"refused ", u32::from(refusal.number()));
    out.put_byte(b'\n');
    out.end
}
