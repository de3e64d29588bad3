// The box on standard input and output: packets in frames, and an answer in a frame for each.
use crate::files::{bytes_of, input};
use crate::images::header_of;
use crate::opened::Room;
use crate::stand_in::{Laid, StandIn};
use crate::stop::Stop;
use controller::serve::ServeRefusal;
use pile::Pile;
use pile::layer::Layer;
use scenario::line::Kind;
use std::io;
use std::io::Write;
use volume::Placement;

// The packet of the next frame. None at the end of input.
fn next_packet(rt: &HostRuntime) -> Result<Option<Vec<u8>>, Stop> {
    let heap = rt.alloc();
    let head = input(rt, 2)?;
    let length = match head.as_slice() {
        &[] => return Ok(None),
        &[high, low] => u16::from_be_bytes([high, low]),
        _ => {
            return Err(Stop::said(format!(in heap;
                "standard input ends in the length of a frame"
            )));
        }
    };
    let packet = input(rt, u64::from(length))?;
    let found = packet.len();
    if found < usize::from(length) {
        return Err(Stop::said(format!(in heap;
            "standard input ends in a frame: {found} of its {length} bytes are there"
        )));
    }
    Ok(Some(packet))
}

// The frame of an answer: 0 or the refusal's number, the length, the reply.
fn send(rt: &HostRuntime, answer: Result<usize, ServeRefusal>, reply: &[u8]) -> io::Result<()> {
    let (code, reply) = match answer {
        Ok(length) => (0, reply.get(..length).unwrap_or(reply)),
        Err(refusal) => (refusal.number(), [].as_slice()),
    };
    let length = u16::try_from(reply.len()).unwrap_or(u16::MAX);
    let [high, low] = length.to_be_bytes();
    let mut out = rt.stdout();
    out.write_all(&[code, high, low])?;
    out.write_all(reply)?;
    out.flush()
}

fn serve_one(rt: &HostRuntime, stand_in: &mut StandIn, packet: &[u8]) -> Result<(), Stop> {
    let mut reply = [0u8; 1025];
    let answer = stand_in.answer(rt, packet, &mut reply)?;
    send(rt, answer, &reply)?;
    Ok(())
}

fn serve_all(rt: &HostRuntime, stand_in: &mut StandIn) -> Result<(), Stop> {
    // Not `while let`, since a loop that waits on input needs an end.
    for _ in 0..u64::MAX {
        match next_packet(rt)? {
            Some(packet) => serve_one(rt, stand_in, packet.as_slice())?,
            None => return Ok(()),
        }
    }
    Ok(())
}

// The placements of the room, which have to fit an image of that many blocks.
fn pile_on(rt: &HostRuntime, path: &str, room: Room<'_>, count: u32) -> Result<Pile<Layer>, Stop> {
    let pile = room.pile(rt, count)?;
    let total = pile.total();
    if total > count {
        let room = room.name;
        return Err(Stop::said(format!(in rt.alloc();
            "{path}: {count} blocks; room {room} needs {total}"
        )));
    }
    Ok(pile)
}

pub(crate) fn serve(rt: &HostRuntime, path: &str, room: Option<Room<'_>>) -> Result<(), Stop> {
    let heap = rt.alloc();
    let bytes = bytes_of(rt, path)?;
    let head = header_of(heap, path, bytes.as_slice())?;
    let pile = room
        .map(|room| pile_on(rt, path, room, head.count))
        .transpose()?;
    let laid = Laid {
        path: String::from_str(heap, path)?,
        kind: Kind::Work,
        bytes,
        pile,
    };
    serve_all(rt, &mut StandIn::saving(laid))
}
