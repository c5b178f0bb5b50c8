// C calls for the comparison from the host: the enclosures of a list by plain rules and by slopes, and of a knot table. For tests alone.
#![tactic(auto)]

ghost use Rattle.std.specs.Prelude.{◌≡◌, drop, pos, ◌≢◌, OnErr};
ghost use Rattle.hostcall.specs.Numbers.{number_given};

mod refusals;

use crate::refusals::HostRefusal;
use book::knot_bytes::knot_of;
use book::ops::{Command, Op};
use codelist::intervals::Intervals;
use codelist::lines::Line;
use codelist::lists::{CodeList, ListTable};
use codelist::plain::Lists;
use family::cells::Cell;
use family::families::Family;
use family::readings::Reading;
use family::rows::{READINGS, Row};
use interval::enclosures::Enclosure;
use knots::knots::Knot;
use knots::tables::KnotTable;
use slopes::asking::SlopeLists;
use slopes::kind::Slopes;
use tables::curves::{LessReading, TableList, Tables};

// A line's eight bytes: the operation, three operands, a constant.
fn line_of(bytes: &[u8; 8]) -> Result<Line, HostRefusal> {
    let [byte, a, b, c, v0, v1, v2, v3] = *bytes;
    let op = Op::try_from(byte)?;
    let command = match op {
        Op::C => op.command(&[byte, v0, v1, v2, v3]),
        _ => op.command(&[byte, a, b, c]),
    };
    match command {
        Some(Command::Line(line)) => Ok(line),
        _ => Err(HostRefusal::Malformed),
    }
}

// Line by line: the first that is malformed or refused decides.
fn list_of(first: &[u8; 8], rest: &[[u8; 8]]) -> Result<CodeList, HostRefusal> {
    let mut list = CodeList::new(line_of(first)?)?;
    for line in rest {
        list.push(line_of(line)?)?;
    }
    Ok(list)
}

// A reading's nine bytes: whether it is there, its ends.
fn reading_of(bytes: &[u8; 9]) -> Result<Option<Reading>, HostRefusal> {
    let [present, l0, l1, l2, l3, h0, h1, h2, h3] = *bytes;
    let (lo, hi) = (
        i32::from_be_bytes([l0, l1, l2, l3]),
        i32::from_be_bytes([h0, h1, h2, h3]),
    );
    match present {
        0 => Ok(None),
        1 => Ok(Some(Reading::new(lo, hi)?)),
        _ => Err(HostRefusal::Malformed),
    }
}

// Eight readings.
fn row_of(bytes: &[u8]) -> Result<Row, HostRefusal> {
    let (readings, []) = bytes.as_chunks::<9>() else {
        return Err(HostRefusal::Malformed);
    };
    if readings.len() != READINGS {
        return Err(HostRefusal::Malformed);
    }
    let mut row = [None; READINGS];
    for (place, reading) in row.iter_mut().zip(readings) {
        *place = reading_of(reading)?;
    }
    Ok(row)
}

// Room for more knots than a table may have.
const ROOM: usize = 300;

fn table_of(reading: u8, bytes: &[u8]) -> Result<KnotTable, HostRefusal> {
    let (knots, []) = bytes.as_chunks::<8>() else {
        return Err(HostRefusal::Malformed);
    };
    let mut all = [Knot { x: 0, y: 0 }; ROOM];
    let Some(places) = all.get_mut(..knots.len()) else {
        return Err(HostRefusal::Malformed);
    };
    for (place, knot) in places.iter_mut().zip(knots) {
        *place = knot_of(knot);
    }
    Ok(KnotTable::new(reading, places)?)
}

// An answer's nine bytes: whether it has bounds, then its ends, big-endian.
fn bytes_of(answer: Enclosure) -> [u8; 9] {
    let Enclosure::Bounds { lo, hi } = answer else {
        return [0; 9];
    };
    let ([a, b, c, d], [e, f, g, h]) = (lo.to_be_bytes(), hi.to_be_bytes());
    [1, a, b, c, d, e, f, g, h]
}

// By plain rules, then by slopes.
fn answers_of(list: CodeList, cell: Cell, row: &Row) -> Result<[u8; 18], HostRefusal> {
    let mut items = ListTable::new();
    items.push(list)?;
    let lists = Lists {
        items,
        way: Intervals,
    };
    let plain = bytes_of(lists.enclosure(0, cell, row));
    let slope_lists = SlopeLists { items, way: Slopes };
    let sloped = bytes_of(slope_lists.enclosure(0, cell, row));
    let mut bytes = [0; 18];
    let (first, second) = bytes.split_at_mut(9);
    first.copy_from_slice(&plain);
    second.copy_from_slice(&sloped);
    Ok(bytes)
}

// Nothing is read where there is no room for the answers.
fn answers_of_list(
    lines: &[u8],
    readings: &[u8],
    cell: Cell,
    room: usize,
) -> Result<[u8; 18], HostRefusal> {
    if room < 18 {
        return Err(HostRefusal::NoRoom);
    }
    let (lines, []) = lines.as_chunks::<8>() else {
        return Err(HostRefusal::Ragged);
    };
    let [first, rest @ ..] = lines else {
        return Err(HostRefusal::NoLine);
    };
    let row = row_of(readings)?;
    answers_of(list_of(first, rest)?, cell, &row)
}

// Nothing is read where there is no room for the answer.
fn answer_of_table(
    reading: u8,
    knots: &[u8],
    readings: &[u8],
    cell: Cell,
    room: usize,
) -> Result<[u8; 9], HostRefusal> {
    if room < 9 {
        return Err(HostRefusal::NoRoom);
    }
    let row = row_of(readings)?;
    let mut items = TableList::new();
    items.push(table_of(reading, knots)?)?;
    let tables = Tables {
        items,
        way: LessReading,
    };
    Ok(bytes_of(tables.enclosure(0, cell, &row)))
}

// Writes an answer's bytes at the start of out. A refusal leaves out as it was, as does an out that is too short.
fn write<const N: usize>(
    answer: Result<[u8; N], HostRefusal>,
    out: &mut [u8],
) -> Result<(), HostRefusal>
    ensures refused { OnErr result (out.new ≡ out.old) }
    ensures rest { drop N out.new ≡ drop N out.old }
{
    let Some(place) = out.first_chunk_mut::<N>() else {
        return Err(HostRefusal::NoRoom);
    };
    *place = answer?;
    Ok(())
}

// 0, or the refusal's number.
#[tactic(auto, using(crate::specs::Numbers::never_zero))]
fn number_of(done: Result<(), HostRefusal>) -> i64
    ensures value { result ≡ number_given done }
    ensures refused { OnErr done (result ≢ pos 0) }
{
    match done {
        Ok(()) => 0,
        Err(refusal) => i64::from(refusal),
    }
}

// 0 where the answer is written into the first 9 bytes of out; otherwise a refusal's number, and out is as it was.
#[unsafe(no_mangle)]
pub extern "C" fn zefrwyll_host_table(
    reading: u8,
    knots: &[u8],
    readings: &[u8],
    lo: i32,
    hi: i32,
    out: &mut [u8],
) -> i64
    ensures refused { (result ≢ pos 0) → out.new ≡ out.old }
    ensures rest { drop 9 out.new ≡ drop 9 out.old }
{
    let answer = answer_of_table(reading, knots, readings, Cell { lo, hi }, out.len());
    number_of(write(answer, out))
}

// 0 where the answers are written into the first 18 bytes of out; otherwise a refusal's number, and out is as it was.
#[unsafe(no_mangle)]
pub extern "C" fn zefrwyll_host_enclosures(
    lines: &[u8],
    readings: &[u8],
    lo: i32,
    hi: i32,
    out: &mut [u8],
) -> i64
    ensures refused { (result ≢ pos 0) → out.new ≡ out.old }
    ensures rest { drop 18 out.new ≡ drop 18 out.old }
{
    let answers = answers_of_list(lines, readings, Cell { lo, hi }, out.len());
    number_of(write(answers, out))
}
