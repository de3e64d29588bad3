// What the program can do, and what it says of a word that it does not know.
use crate::stop::Stop;
use std::alloc::Global;

pub(crate) const TEXT: &str = "\
corvus: where the blocks of a room's drive lie, what a house image holds, what a packet says

On a room table:

  corvus rooms TABLE
      The rooms: their blocks, the places that they take and their images;
      then which rooms share an image, and which of these overlap.
        corvus rooms examples/rooms.csv

  corvus place TABLE ROOM BLOCK...
      Where blocks of the room lie: place, track, sector, byte in the image.
        corvus place examples/rooms.csv 'Studio A' 0 6000

  corvus block TABLE ROOM PLACE...
      Which block of the room lies at a place, or why there is none.
        corvus block examples/rooms.csv 'Studio A' 120 6020

  corvus map TABLE ROOM
      A picture of the room's drive.
        corvus map examples/rooms.csv 'Studio B'

On an image:

  corvus check IMAGE
      The numbers in its header and its lost blocks, or the question that it fails.
        corvus check examples/images/trainees.img

  corvus new IMAGE BLOCKS
      Makes an image of that many zero blocks (1 to 1048576). A file is never written over.
        corvus new spare.img 200

  corvus get IMAGE BLOCK
      The block's 512 bytes, on standard output.
        corvus get spare.img 5 > block.bin

  corvus put IMAGE BLOCK
      512 bytes of standard input as the block; a lost block is sound from then on.
        corvus put spare.img 5 < block.bin

On packets:

  corvus packet HEX...
      What a packet says: the command, its fields, its reply; or the question that it fails.
        corvus packet 02 01 10 00

  corvus build [--room N] COMMAND FIELDS...
      The packet of a command, in hexadecimal, built in a buffer of N bytes (517).
      read SIZE DRIVE SECTOR and write SIZE DRIVE SECTOR HEX... (SIZE 128, 256, 256b, 512),
      lock NAME, unlock NAME, initialize-semaphores, status SELECTOR,
      initialize-area FIRST LENGTH, open-write NAME, open-read NAME,
      pipe-read NUMBER LENGTH, pipe-write NUMBER LENGTH HEX..., close NUMBER
        corvus build read 256 1 16

  corvus help
      This page.

A room table is a CSV file whose first line is
  room,image,tracks,sectors,firmware,spares,spared,offset,length
and which has a line for each room. Numbers are decimal. The image is a path from the
table's folder. Spared is a list of tracks with blanks between them. Offset and length
are the room's window, in blocks. Without tracks, the window lies on the image itself;
without a window too, the room is the whole image.

A refusal is one line on standard error, and the status is then 1.
";

// The box has a page of its own.
pub(crate) const BOX: &str = "\
corvus: what the box answers to packets

  corvus run [--save] [SCENARIO]
      Runs a scenario (standard input without a name) and prints a line for each packet:
      'reply HEX' or 'refused N'. With --save each accepted write is in the image before its
      reply is printed; without it no file is written.
        corvus run examples/session.scenario

  corvus tables SCENARIO
      The semaphores and pipes as the scenario leaves them. No file is written.
        corvus tables examples/session.scenario

  corvus serve IMAGE [TABLE ROOM]
      The box on standard input and output, with the room's placements on the image. A packet
      comes in a frame: its length in 2 bytes, the highest first, and the packet. Its answer
      goes out in one: 0 or the refusal's number in 1 byte, the reply's length in 2, the reply.
      An accepted write is in the image before its answer goes out.
        corvus serve examples/images/studios.img examples/rooms.csv 'Studio A'

  corvus run --help, corvus tables --help, corvus serve --help
      This page. 'corvus help' has the other commands.

A scenario has a line for each step, and # starts a comment:
  volume work FILE           starts afresh with a house image; shelf FILE: with one that is
                             only read; bank FILE: with a Bank
  spared T S F X [T1,T2,..]  puts spared tracks on it: tracks, sectors, firmware, spares, list
  window OFFSET COUNT TOTAL  puts a window on it
  packet [N] HEX             serves a packet, with a reply buffer of N bytes (1025)
A file is a path from the scenario's folder. A refused placement has no block, and the line
'# refused N' on standard error says so.

A refusal is one line on standard error, and the status is then 1.
";

pub(crate) fn print(rt: &HostRuntime, page: &str) -> Result<(), Stop> {
    rt.print(page)?;
    Ok(())
}

// How a command is given, where it is one. A text for each word, as a list to search would have, and no search:
// `obey` matches the words too, but with what stands behind them, which it borrows.
fn usage(command: &str) -> Option<&'static str> {
    match command {
        "help" | "--help" => Some("help"),
        "rooms" => Some("rooms TABLE"),
        "place" => Some("place TABLE ROOM BLOCK..."),
        "block" => Some("block TABLE ROOM PLACE..."),
        "map" => Some("map TABLE ROOM"),
        "check" => Some("check IMAGE"),
        "new" => Some("new IMAGE BLOCKS"),
        "get" => Some("get IMAGE BLOCK"),
        "put" => Some("put IMAGE BLOCK"),
        "packet" => Some("packet HEX..."),
        "build" => Some("build [--room N] COMMAND FIELDS..."),
        "run" => Some("run [--save] [SCENARIO]"),
        "serve" => Some("serve IMAGE [TABLE ROOM]"),
        "tables" => Some("tables SCENARIO"),
        _ => None,
    }
}

// Which page tells of the command: two pages, so no word needs one of its own.
fn page(command: &str) -> &'static str {
    match command {
        "run" | "serve" | "tables" => "run --help",
        _ => "help",
    }
}

// What is said of a command that is none, or that has the wrong words behind it.
pub(crate) fn refused(heap: Global, command: &str) -> Stop {
    let page = page(command);
    Stop::said(match usage(command) {
        Some(usage) => format!(in heap;
            "wrong number of words: it is 'corvus {usage}'; try 'corvus {page}'"
        ),
        None => format!(in heap; "'{command}' is no command; try 'corvus help'"),
    })
}
