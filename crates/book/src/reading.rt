// The reader: the records of a book, one by one, each as a part of it.
ghost use Rattle.std.specs.Prelude.{◌≡◌, ◌+◌, ◌-◌, ◌*◌, ◌<◌, ◌≤◌, length, take, drop, slice_index};
ghost use Rattle.book.specs.declared.ops.Command.TheVariants.{Open};
ghost use Rattle.book.specs.Records.{size_of, tag_of, table_found, outside_by, record_at};
ghost use Rattle.book.specs.Told.{told_of, entry_told, said_of, entry_of, found_of, next_of, place_of, found_at, place_after, next_told, rule_told, start};

use crate::commands::read_command;
use crate::knot_bytes::read_table;
use crate::lines::read_lines;
use crate::ops::Command;
use crate::records::{Contents, ReadRecord, Reader, Record};
use crate::refusals::{Fault, Layer, Refusal};
use family::curves::ROOM;

// A book has at most so many bytes.
const BYTES: usize = 8192;

impl<'a> ReadRecord<'a> {
    // How many bytes it takes: the first byte, the tag, the body, and of a curve END.
    fn size(&self) -> usize
        ensures { result ≡ size_of (entry_of self.now) }
    {
        match self.contents {
            Contents::Curve(_) => self.body.len() + 10,
            Contents::Table(_) => self.body.len() + 9,
        }
    }
}

impl<'a> From<ReadRecord<'a>> for Record<'a> {
    ghost from_gives = { λ read told. told_of told ≡ entry_told (entry_of read) };

    fn from(read: ReadRecord<'a>) -> Record<'a> {
        let ReadRecord {
            tag,
            body,
            offset,
            ..
        } = read;
        match read.contents {
            Contents::Curve(_) => Record::Curve { tag, body, offset },
            Contents::Table(_) => Record::Table { tag, body, offset },
        }
    }
}

impl<'a> Reader<'a> {
    // At the book's start.
    pub fn open(book: &'a [u8]) -> Reader<'a>
        ensures book { result.book.now ≡ book.now }
        ensures place { place_of result ≡ start }
    {
        Reader {
            book,
            at: 0,
            curves: 0,
            tables: 0,
        }
    }

    // The private ones here want the place to lie in the book: `read_next` has looked. At the book's end it does not, so it is no invariant of
    // the reader.

    // The record at the reader's place, with the body up to that end.
    fn record_to(&self, end: usize, contents: Contents) -> ReadRecord<'a>
        requires begins { self.now.at + 9 ≤ end }
        requires ends { end ≤ length self.now.book.now }
        ensures { let bs = drop self.now.at self.now.book.now in entry_of result ≡ record { offset = self.now.at; tag = tag_of bs; body = take (end - (self.now.at + 9)) (drop 9 bs); said = said_of contents } }
    {
        ReadRecord {
            tag: &self.book[self.at + 1..self.at + 9],
            body: &self.book[self.at + 9..end],
            offset: self.at,
            contents,
        }
    }

    // The curve at the reader's place.
    fn curve(&self) -> Result<ReadRecord<'a>, Refusal>
        requires { self.now.at < length self.now.book.now }
        ensures { found_of result ≡ outside_by self.now.curves self.now.tables self.now.at (drop self.now.at self.now.book.now) Open }
    {
        if self.curves >= ROOM {
            return Err(Fault::TooMany.at(Layer::Record, self.at));
        }
        let (list, end) = read_lines(self.book, self.at + 9)?;
        Ok(self.record_to(end, Contents::Curve(list)))
    }

    // The table at the reader's place, whose operands take so many bytes.
    fn table(&self, width: usize) -> Result<ReadRecord<'a>, Refusal>
        requires count { width ≡ 10 + 8 * slice_index self.now.book.now (self.now.at + 10) }
        requires whole { self.now.at + width < length self.now.book.now }
        ensures { found_of result ≡ table_found self.now.tables self.now.at (drop self.now.at self.now.book.now) }
    {
        let at = self.at;
        let end = at + 1 + width;
        let read = read_table(&self.book[at + 9..end], self.tables);
        let table = read.map_err(|fault| fault.at(Layer::Record, at))?;
        Ok(self.record_to(end, Contents::Table(table)))
    }

    // What stands at the reader's place, outside curves.
    fn record(&self) -> Result<ReadRecord<'a>, Refusal>
        requires { self.now.at < length self.now.book.now }
        ensures { found_of result ≡ record_at self.now.curves self.now.tables self.now.at (drop self.now.at self.now.book.now) }
    {
        let (command, width) = read_command(&self.book[self.at..], self.at)?;
        match command {
            Command::Line(_) => Err(Fault::Misplaced.at(Layer::Line, self.at)),
            Command::Open => self.curve(),
            Command::Close => Err(Fault::Misplaced.at(Layer::Record, self.at)),
            Command::Table => self.table(width),
        }
    }

    // The next record, with its contents; otherwise as `next`.
    pub(crate) fn read_next(&mut self) -> Result<Option<ReadRecord<'a>>, Refusal>
        ensures found { next_of result ≡ found_at self.old.book.now (place_of self.old) }
        ensures place { place_of self.new ≡ place_after (place_of self.old) (found_at self.old.book.now (place_of self.old)) }
        ensures same { self.new.book.now ≡ self.old.book.now }
    {
        if self.book.len() > BYTES {
            return Err(Fault::TooLong.at(Layer::Book, 0));
        }
        if self.at >= self.book.len() {
            return Ok(None);
        }
        let read = self.record()?;
        self.at += read.size();
        match read.contents {
            Contents::Curve(_) => self.curves += 1,
            Contents::Table(_) => self.tables += 1,
        }
        Ok(Some(read))
    }

    // The next record; none at the book's end. A refusal leaves the reader where it was; a book that is too long is refused at once.
    // Not an Iterator's: a refusal would be told again for ever, and a `for` wants an end.
    pub fn next(&mut self) -> Result<Option<Record<'a>>, Refusal>
        ensures told { next_told result ≡ rule_told (found_at self.old.book.now (place_of self.old)) }
        ensures place { place_of self.new ≡ place_after (place_of self.old) (found_at self.old.book.now (place_of self.old)) }
        ensures same { self.new.book.now ≡ self.old.book.now }
    {
        Ok(self.read_next()?.map(Record::from))
    }
}
