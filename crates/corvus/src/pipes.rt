// The controller's tables in words: who holds which semaphore, and which block of the pipe area is whose.
use crate::columns::{Row, Side, laid_out, title};
use crate::packets::Name;
use crate::stop::Stop;
use crate::words::Stretch;
use controller::controller::Controller;
use model::names::BLANK;
use model::pipe::{Access, Area, Pipe};
use pile::runs::Run;
use std::alloc::{AllocError, Global};
use store::drive::Drive;
use store::noted::Noted;

fn semaphore_row(heap: Global, entry: usize, name: u64) -> Result<Row, AllocError> {
    Ok(Row {
        cells: vec![in heap; entry.to_string(heap)?]?,
        tail: Name(name).to_string(heap)?,
    })
}

fn print_semaphores(rt: &HostRuntime, names: &[u64]) -> Result<(), Stop> {
    let heap = rt.alloc();
    let mut rows = vec![in heap; title(heap, &["entry"], "name")?]?;
    for (i, &name) in names.iter().enumerate().filter(|&(_, &name)| name != BLANK) {
        rows.push(semaphore_row(heap, i, name)?)?;
    }
    if rows.len() < 2 {
        rt.println("no semaphore is locked")?;
        return Ok(());
    }
    rt.println("semaphores that are locked")?;
    rt.print(laid_out(heap, rows.as_slice(), &[Side::Right])?)?;
    Ok(())
}

// A function, since the type is another crate's.
fn access_words(access: Access) -> &'static str {
    match access {
        Access::Closed => "not open",
        Access::Reading => "open for read",
        Access::Writing => "open for write",
    }
}

// The blocks from the first on, so many.
fn blocks_words(heap: Global, first: u32, length: u32) -> Result<String, AllocError> {
    if length == 0 {
        return String::from_str(heap, "none");
    }
    Stretch::from(Run {
        first,
        count: length,
    })
    .to_string(heap)
}

fn pipe_row(heap: Global, pipe: &Pipe) -> Result<Row, AllocError> {
    let length = pipe.end.saturating_sub(pipe.start);
    Ok(Row {
        cells: vec![in heap;
            pipe.number.to_string(heap)?,
            Name(pipe.name).to_string(heap)?,
            pipe.start.to_string(heap)?,
            length.to_string(heap)?,
            blocks_words(heap, pipe.start, length)?,
        ]?,
        tail: String::from_str(heap, access_words(pipe.access))?,
    })
}

fn pipe_rows(heap: Global, pipes: &[Pipe]) -> Result<Vec<Row>, AllocError> {
    let names = ["pipe", "name", "first", "length", "blocks"];
    let mut rows = vec![in heap; title(heap, &names, "state")?]?;
    for pipe in pipes {
        rows.push(pipe_row(heap, pipe)?)?;
    }
    Ok(rows)
}

fn print_pipes(rt: &HostRuntime, area: Area, pipes: &[Pipe]) -> Result<(), Stop> {
    let heap = rt.alloc();
    let words = blocks_words(heap, u32::from(area.first), u32::from(area.blocks))?;
    println!(rt; "pipe area: blocks {words}")?;
    if pipes.is_empty() {
        rt.println("no pipe")?;
        return Ok(());
    }
    let rows = pipe_rows(heap, pipes)?;
    let sides = [
        Side::Right,
        Side::Left,
        Side::Right,
        Side::Right,
        Side::Left,
    ];
    rt.print(laid_out(heap, rows.as_slice(), &sides)?)?;
    Ok(())
}

pub(crate) fn print_tables(
    rt: &HostRuntime,
    controller: &Controller<Noted<Drive>>,
) -> Result<(), Stop> {
    print_semaphores(rt, controller.names())?;
    match controller.area() {
        Some(area) => print_pipes(rt, area, controller.pipes()),
        None => {
            rt.println("no pipe area")?;
            Ok(())
        }
    }
}
