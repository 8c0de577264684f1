// Bytes that are the row of a site, and bytes that are none.
ghost use Rattle.std.specs.Prelude.{◌<◌, ◌^◌, length};
ghost use Rattle.armus_base.specs.calls.Statuses.{IsInOrder};

use crate::texts::add_statuses;
use armus_base::{MAX_SITES, NoMemory};
use sites::{DecodeEnd, Snapshot, decode, encode};
use std::alloc::Global;
use std::test::Fail;
use tests_rows::{columns, cut, first_word, number, numbers};

// A kind, a site and how many there are, bytes, and the answer. `row`: the statuses of which the bytes are the row, or that they are bad; `cut`: a mark for
// each proper prefix of the bytes; `turned`: a mark for each byte, of the bytes with this one changed. A mark is b where those are bad.
const ROWS: &str = "\
row | 0 2 | 0 0 0 1 0 0 0 0 0 0 0 0 0 0 0 1 0 0 0 2 0 0 0 0 0 0 0 1 0 0 0 1 0 0 0 0 | t0 p0@1 p0:1 p1:0;\n\
cut | 0 2 | 0 0 0 1 0 0 0 0 0 0 0 0 0 0 0 1 0 0 0 2 0 0 0 0 0 0 0 1 0 0 0 1 0 0 0 0 | bbbbbbbbbbbbbbbbbbbbbbbbbbbbbbbbbbbb\n\
turned | 0 2 | 0 0 0 1 0 0 0 0 0 0 0 0 0 0 0 1 0 0 0 2 0 0 0 0 0 0 0 1 0 0 0 1 0 0 0 0 | bbbb...b........bbbbbbbb.......b....\n\
row | 0 2 | 0 0 0 0 |\n\
row | 0 2 | | bad\n\
row | 0 2 | 0 0 0 0 0 | bad\n\
row | 0 2 | 255 255 255 255 | bad\n\
row | 0 2 | 16 0 0 0 | bad\n\
row | 0 1 | 0 0 0 1 0 0 0 0 0 0 0 0 0 0 0 1 0 0 0 2 0 0 0 0 0 0 0 1 0 0 0 1 0 0 0 0 | t0 p0@1 p0:1 p1:0;\n\
row | 1 2 | 0 0 0 1 0 0 0 0 0 0 0 0 0 0 0 1 0 0 0 2 0 0 0 0 0 0 0 1 0 0 0 1 0 0 0 0 | bad\n\
row | 0 8 | 0 0 0 1 0 0 0 0 0 0 0 0 0 0 0 1 0 0 0 2 0 0 0 0 0 0 0 1 0 0 0 1 0 0 0 0 | t0 p0@1 p0:1 p1:0;\n\
row | 3 8 | 0 0 0 1 0 0 0 0 0 0 0 0 0 0 0 1 0 0 0 2 0 0 0 0 0 0 0 1 0 0 0 1 0 0 0 0 | bad\n\
";

// The statuses of a snapshot, if it is of this site and encoded as this very row.
fn encoded_text(
    alloc: Global,
    snapshot: &Snapshot,
    site: u32,
    row: &[u8],
) -> Result<String, NoMemory>
    requires in_order { IsInOrder snapshot.now.statuses }
    requires few { length snapshot.now.statuses < 2 ^ 28 }
{
    let again = encode(alloc, snapshot)?;
    if snapshot.site != site || again.as_slice() != row {
        return Ok(String::from_str(alloc, "another")?);
    }
    let mut text = String::new(alloc);
    add_statuses(&mut text, snapshot.statuses.as_slice())?;
    Ok(text)
}

// The statuses of which these bytes are the row for the site.
fn row_text(alloc: Global, site: u32, sites: u32, row: &[u8]) -> Result<String, NoMemory> {
    if sites < 1 || sites > MAX_SITES || site >= sites {
        return Ok(String::from_str(alloc, "no site")?);
    }
    match decode(alloc, site, sites, row) {
        Ok(snapshot) => encoded_text(alloc, &snapshot, site, row),
        Err(DecodeEnd::Bad) => Ok(String::from_str(alloc, "bad")?),
        Err(DecodeEnd::NoMemory) => Err(NoMemory),
    }
}

fn add_mark(
    alloc: Global,
    marks: &mut String,
    site: u32,
    sites: u32,
    row: &[u8],
) -> Result<(), NoMemory> {
    let text = row_text(alloc, site, sites, row)?;
    marks.push_str(match text.as_str() {
        "bad" => "b",
        "another" | "no site" => "!",
        _ => ".",
    })?;
    Ok(())
}

fn cut_text(alloc: Global, site: u32, sites: u32, row: &[u8]) -> Result<String, NoMemory> {
    let mut marks = String::new(alloc);
    for n in 0..row.len() {
        add_mark(alloc, &mut marks, site, sites, &row[..n])?;
    }
    Ok(marks)
}

fn turn(row: &mut [u8], at: usize) {
    if let Some(byte) = row.get_mut(at) {
        *byte ^= 1;
    }
}

fn turned_text(alloc: Global, site: u32, sites: u32, row: &mut [u8]) -> Result<String, NoMemory> {
    let mut marks = String::new(alloc);
    for at in 0..row.len() {
        turn(row, at);
        add_mark(alloc, &mut marks, site, sites, row)?;
        turn(row, at);
    }
    Ok(marks)
}

fn answer(alloc: Global, kind: &str, place: &str, bytes: &str) -> Result<String, NoMemory> {
    let (site, sites) = first_word(place);
    let (site, sites) = (number(site), number(sites));
    let mut row = numbers(alloc, bytes)?;
    match kind.trim() {
        "cut" => cut_text(alloc, site, sites, row.as_slice()),
        "turned" => turned_text(alloc, site, sites, row.as_mut_slice()),
        _ => row_text(alloc, site, sites, row.as_slice()),
    }
}

fn is_met(alloc: Global, row: &str) -> Result<bool, NoMemory> {
    let (kind, place, rest) = columns(row, "|");
    let (bytes, wanted) = cut(rest, "|");
    let answer = answer(alloc, kind, place, bytes)?;
    Ok(answer.as_str() == wanted.trim())
}

#[test]
fn rows_and_bytes(rt: HostRuntime) -> Result<(), Fail> {
    for row in ROWS.lines() {
        assert!(rt; is_met(rt.alloc(), row)?, "{row}");
    }
    Ok(())
}
