// Filling the families of lists and of tables from a book.
ghost use Rattle.std.specs.Prelude.{◌≡◌};
ghost use Rattle.book.specs.Books.{read_book};
ghost use Rattle.book.specs.Loading.{load_answer, ListsAfter, TablesAfter, ListsMean, TablesMean};

use crate::records::{Contents, Reader};
use crate::refusals::{Fault, Layer, Refusal};
use codelist::lists::ListTable;
use tables::curves::TableList;

// Fills lists and tables with the curves and tables of the book, in order; a refused book leaves both as they were.
pub fn load(book: &[u8], lists: &mut ListTable, tables: &mut TableList) -> Result<(), Refusal>
    ensures answer { result ≡ load_answer (read_book book.now) }
    ensures lists { ListsAfter (read_book book.now) lists.old lists.new }
    ensures tables { TablesAfter (read_book book.now) tables.old tables.new }
    ensures curves { ListsMean (read_book book.now) lists.new }
    ensures heights { TablesMean (read_book book.now) tables.new }
{
    let mut curves = ListTable::new();
    let mut knots = TableList::new();
    let mut reader = Reader::open(book);
    while let Some(read) = reader.read_next()? {
        let kept = match read.contents {
            Contents::Curve(list) => curves.push(list),
            Contents::Table(table) => knots.push(table),
        };
        // the reader finds no more than there is room for
        kept.map_err(|_| Fault::TooMany.at(Layer::Record, read.offset))?;
    }
    *lists = curves;
    *tables = knots;
    Ok(())
}
