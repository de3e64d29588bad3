// Rows of text in aligned columns.
use itertools::Itertools;
use std::alloc::{AllocError, Global};
use std::fmt;
use std::fmt::Write;

// The cells stand in columns; the tail, of any length or none, stands behind them.
#[derive(Drop)]
pub(crate) struct Row {
    pub(crate) cells: Vec<String>,
    pub(crate) tail: String,
}

#[derive(Clone, Copy)]
pub(crate) enum Side {
    Left,
    Right,
}

#[derive(Clone, Copy)]
struct Column {
    side: Side,
    width: usize,
}

// A text in its column.
#[derive(Clone, Copy)]
struct Cell<'a> {
    text: &'a str,
    column: Column,
}

impl fmt::Display for Cell<'_> {
    fn fmt<W: fmt::Write>(&self, f: &mut fmt::Formatter<W>) -> fmt::Result {
        let &Cell {
            text,
            column: Column { side, width },
        } = self;
        match side {
            Side::Left => write!(f, "{text:<width$}"),
            Side::Right => write!(f, "{text:>width$}"),
        }
    }
}

// A row of the names over the columns. Apart from their sides, since rows are laid out without a title too.
pub(crate) fn title(heap: Global, names: &[&str], tail: &str) -> Result<Row, AllocError> {
    Ok(Row {
        cells: names
            .iter()
            .map(|name| String::from_str(heap, name))
            .try_collect(heap)?,
        tail: String::from_str(heap, tail)?,
    })
}

fn widen(columns: &mut [Column], cells: &[String]) {
    for (column, cell) in columns.iter_mut().zip(cells.iter()) {
        column.width = column.width.max(cell.chars().count());
    }
}

// As wide as the widest of their cells.
fn columns_of(heap: Global, rows: &[Row], sides: &[Side]) -> Result<Vec<Column>, AllocError> {
    let mut columns: Vec<Column> = sides
        .iter()
        .map(|&side| Column { side, width: 0 })
        .collect(heap)?;
    for row in rows {
        widen(columns.as_mut_slice(), row.cells.as_slice());
    }
    Ok(columns)
}

fn add_row(
    heap: Global,
    out: &mut String,
    row: &Row,
    columns: &[Column],
) -> Result<(), AllocError> {
    let cells = row
        .cells
        .iter()
        .zip(columns.iter())
        .map(|(text, &column)| Cell {
            text: text.as_str(),
            column,
        })
        .join(heap, "  ")?;
    let tail = &row.tail;
    if tail.is_empty() {
        writeln!(out, "{cells}")
    } else {
        writeln!(out, "{cells}  {tail}")
    }
}

// The rows, a line each; the sides are those of the columns in turn.
pub(crate) fn laid_out(heap: Global, rows: &[Row], sides: &[Side]) -> Result<String, AllocError> {
    let columns = columns_of(heap, rows, sides)?;
    let mut out = String::new(heap);
    for row in rows {
        add_row(heap, &mut out, row, columns.as_slice())?;
    }
    Ok(out)
}
