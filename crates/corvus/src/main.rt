#![tactic(auto)]
// corvus: rooms, their places on drives, house images and packets, from the command line.
use opened::Room;
use scenarios::Manner;
use std::process::ExitCode;
use stop::Stop;

mod builds;
mod columns;
mod digits;
mod drive;
mod files;
mod help;
mod images;
mod map;
mod opened;
mod packets;
mod pipes;
mod places;
mod questions;
mod rooms;
mod scenarios;
mod serve;
mod shelf;
mod stand_in;
mod stop;
mod table;
mod words;

// The command that the words say, where it is one and has as many words as it takes.
fn obey(rt: &HostRuntime, words: &[&str]) -> Result<(), Stop> {
    match words {
        [] | ["help" | "--help"] => help::print(rt, help::TEXT),
        ["run" | "serve" | "tables", "--help", ..] => help::print(rt, help::BOX),
        ["rooms", table] => rooms::rooms(rt, table),
        ["place", table, name, blocks @ ..] if !blocks.is_empty() => {
            places::place(rt, Room { table, name }, blocks)
        }
        ["block", table, name, places @ ..] if !places.is_empty() => {
            places::block(rt, Room { table, name }, places)
        }
        ["map", table, name] => map::map(rt, Room { table, name }),
        ["check", image] => shelf::check(rt, image),
        ["new", image, blocks] => shelf::new(rt, image, blocks),
        ["get", image, block] => shelf::get(rt, image, block),
        ["put", image, block] => shelf::put(rt, image, block),
        ["packet", hex @ ..] => packets::explain(rt, hex),
        ["build", words @ ..] if !words.is_empty() => builds::build_words(rt, words),
        ["run"] => scenarios::run(rt, None, Manner::Shown),
        ["run", "--save"] => scenarios::run(rt, None, Manner::Saved),
        ["run", "--save", name] => scenarios::run(rt, Some(name), Manner::Saved),
        ["run", name] | ["run", name, ""] => scenarios::run(rt, Some(name), Manner::Shown),
        ["serve", image] => serve::serve(rt, image, None),
        ["serve", image, table, name] => serve::serve(rt, image, Some(Room { table, name })),
        ["tables", name] => scenarios::tables(rt, name),
        [command, ..] => Err(help::refused(rt.alloc(), command)),
    }
}

fn started(rt: &HostRuntime) -> Result<(), Stop> {
    let heap = rt.alloc();
    let words: Vec<String> = std::env::args(rt)?.skip(1).collect(heap)?;
    let words: Vec<&str> = words.iter().map(|word| word.as_str()).collect(heap)?;
    obey(rt, words.as_slice())
}

// A command that ends early has its line on standard error, and status 1.
fn main(rt: HostRuntime) -> ExitCode {
    match started(&rt) {
        Ok(()) => ExitCode::SUCCESS,
        Err(stop) => {
            let _ = eprintln!(rt; "corvus: {stop}");
            ExitCode::FAILURE
        }
    }
}
