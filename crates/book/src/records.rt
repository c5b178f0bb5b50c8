// The declared types: a record of a book, also as it is read, and the reader that hands records out.
use codelist::lists::CodeList;
use knots::tables::KnotTable;

// A curve or a table, as parts of the book: its tag of eight bytes, and its body. A curve's body is its lines; a table's the reading's number, the
// knot count and the knots. The offset is that of its first byte. Each case has all three: callers match on a record.
#[derive(Clone, Copy)]
pub enum Record<'a> {
    Curve {
        tag: &'a [u8],
        body: &'a [u8],
        offset: usize,
    },
    Table {
        tag: &'a [u8],
        body: &'a [u8],
        offset: usize,
    },
}

// What a record's body says: a curve's lines, or a table's reading and knots.
#[derive(Clone, Copy)]
pub(crate) enum Contents {
    Curve(CodeList),
    Table(KnotTable),
}

// A record as it is read, with its contents, which are not read again.
#[derive(Clone, Copy)]
pub(crate) struct ReadRecord<'a> {
    pub(crate) tag: &'a [u8],
    pub(crate) body: &'a [u8],
    pub(crate) offset: usize,
    pub(crate) contents: Contents,
}

// A place in a book, with the curves and tables before it.
#[derive(Clone, Copy)]
pub struct Reader<'a> {
    pub(crate) book: &'a [u8],
    pub(crate) at: usize,
    pub(crate) curves: usize,
    pub(crate) tables: usize,
}
