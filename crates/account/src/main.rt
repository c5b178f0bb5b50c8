// An account of curves given as code lists: their lines with the entries over a cell, their enclosures by lists and by slopes, and for
// a flame margin which cells of a window are provably away from zero, and why. All numbers are counts (thousandths).
#![tactic(auto)]

ghost use Rattle.std.specs.Prelude.{◌≡◌};
ghost use Rattle.account.specs.Cells.{halved, Narrower};

pub mod errors;

use crate::errors::AccountError;
use codelist::entries::Table;
use codelist::intervals::Intervals;
use codelist::kinds::Kind;
use codelist::lines::Line;
use codelist::lists::{CodeList, ListTable};
use codelist::places::Place;
use codelist::plain::Lists;
use codelist::running::answer;
use family::cells::Cell;
use family::families::Family;
use family::readings::Reading;
use family::rows::{READINGS, Row};
use interval::enclosures::Sign;
use slope::entries::Slope;
use slopes::asking::SlopeLists;
use slopes::kind::Slopes;

fn list_of(lines: &[Line]) -> Result<CodeList, AccountError> {
    let [first, rest @ ..] = lines else {
        return Err(AccountError::NoLine);
    };
    let mut list = CodeList::new(*first)?;
    for line in rest {
        list.push(*line)?;
    }
    Ok(list)
}

// x·x − 4, (x − 2)(x + 2), the margin x − r, and |x·x + 5x| + x + 1.
fn curves() -> Result<ListTable, AccountError> {
    let curves: [&[Line]; 4] = [
        &[Line::X, Line::Mul(0, 0), Line::C(4000), Line::Sub(1, 2)],
        &[
            Line::X,
            Line::C(2000),
            Line::Sub(0, 1),
            Line::Add(0, 1),
            Line::Mul(2, 3),
        ],
        &[Line::X, Line::R(0), Line::Sub(0, 1)],
        &[
            Line::X,
            Line::Mul(0, 0),
            Line::C(5000),
            Line::Mul(0, 2),
            Line::Add(1, 3),
            Line::Abs(4),
            Line::Add(5, 0),
            Line::C(1000),
            Line::Add(6, 7),
        ],
    ];
    let mut lists = ListTable::new();
    for lines in curves {
        lists.push(list_of(lines)?)?;
    }
    Ok(lists)
}

// Reading 0 is [30, 33]; the others are absent.
fn margin_readings() -> Result<Row, AccountError> {
    let mut row = [None; READINGS];
    row[0] = Some(Reading::new(30, 33)?);
    Ok(row)
}

// A cell is halved while it is wider than this.
const WIDTH: i64 = 10;

// The two halves of a cell that is wider than the asked width; they meet at the middle.
fn halves(cell: Cell) -> Option<(Cell, Cell)>
    ensures value { result ≡ halved cell }
    ensures narrower { Narrower cell result }
{
    if cell.hi as i64 - cell.lo as i64 <= WIDTH {
        return None;
    }
    let c = cell.middle();
    Some((Cell { lo: cell.lo, hi: c }, Cell { lo: c, hi: cell.hi }))
}

fn verdict(sign: Option<Sign>, wide: bool) -> &'static str {
    match sign {
        Some(Sign::Plus) => "clear, one count or more above zero",
        Some(Sign::Minus) => "clear, one count or more below zero",
        None => if wide {
            "may touch zero, halved"
        } else {
            "may touch zero, kept"
        },
    }
}

// The curves that are shown, as a family by plain rules and by slopes, and the readings under which they are asked.
// No part of it: the handle that prints is lent to each call, and a curve's number and a cell change from call to call.
#[derive(Clone, Copy)]
struct Shown {
    plain: Lists,
    sloped: SlopeLists,
    row: Row,
}

impl Shown {
    fn list(&self, k: usize) -> Result<&CodeList, AccountError> {
        self.plain.items.get(k).ok_or(AccountError::NoCurve(k))
    }

    // The entries of a list over the cell, and its last line's.
    fn entries(&self, list: &CodeList, cell: Cell) -> (Table<Slope>, Slope) {
        let mut table = Table::new(Slopes::blank());
        let last = answer::<Slope, Slopes>(&mut table, list, cell, &self.row);
        (table, last)
    }

    // Each line of a curve with its entry over the cell.
    fn show_entries(&self, rt: &HostRuntime, k: usize, cell: Cell) -> Result<(), AccountError> {
        let list = self.list(k)?;
        let (table, _) = self.entries(list, cell);
        for (n, line) in list.lines().iter().enumerate() {
            let entry = table.entry(Place::clamped(n));
            println!(rt; "  {n} {line}: {entry}")?;
        }
        Ok(())
    }

    // The entry of a curve's last line over a cell, and the answers of both families.
    fn show_answers(&self, rt: &HostRuntime, k: usize, cell: Cell) -> Result<(), AccountError> {
        let list = self.list(k)?;
        let (_, entry) = self.entries(list, cell);
        let plain = self.plain.enclosure(k, cell, &self.row);
        let sloped = self.sloped.enclosure(k, cell, &self.row);
        let Cell { lo, hi } = cell;
        println!(rt; "  over {lo} to {hi}: {entry}: by lists {plain}, by slopes {sloped}")?;
        Ok(())
    }

    // The lines of a curve with their entries over a cell, then its answers.
    fn show_curve(&self, rt: &HostRuntime, k: usize, cell: Cell) -> Result<(), AccountError> {
        self.show_entries(rt, k, cell)?;
        self.show_answers(rt, k, cell)
    }

    // One line for the cell, then its halves where it is neither clear nor narrow.
    fn show_cells(&self, rt: &HostRuntime, k: usize, cell: Cell) -> Result<(), AccountError> {
        let margin = self.plain.enclosure(k, cell, &self.row);
        let parts = halves(cell);
        let said = verdict(margin.sign(), parts.is_some());
        let Cell { lo, hi } = cell;
        println!(rt; "cell {lo} to {hi}: margin in {margin}: {said}")?;
        if margin.is_clear() {
            return Ok(());
        }
        let Some((left, right)) = parts else {
            return Ok(());
        };
        self.show_cells(rt, k, left)?;
        self.show_cells(rt, k, right)
    }
}

fn main(rt: HostRuntime) -> Result<(), AccountError> {
    let items = curves()?;
    let shown = Shown {
        plain: Lists {
            items,
            way: Intervals,
        },
        sloped: SlopeLists { items, way: Slopes },
        row: margin_readings()?,
    };
    let one_to_two = Cell { lo: 1000, hi: 2000 };
    println!(rt; "curve 0, x*x - 4")?;
    shown.show_curve(&rt, 0, one_to_two)?;
    println!(rt; "curve 1, (x - 2)*(x + 2)")?;
    shown.show_curve(&rt, 1, one_to_two)?;
    println!(rt; "curve 2, margin x - r, reading 0 in [30, 33]")?;
    let window = Cell { lo: 0, hi: 100 };
    shown.show_curve(&rt, 2, window)?;
    shown.show_cells(&rt, 2, window)?;
    println!(rt; "curve 3, |x*x + 5x| + x + 1")?;
    for lo in [-10000, -6000, -5830, -1000, 0] {
        shown.show_answers(&rt, 3, Cell { lo, hi: lo + 100 })?;
    }
    shown.show_answers(
        &rt,
        3,
        Cell {
            lo: -10000,
            hi: 10000,
        },
    )
}
