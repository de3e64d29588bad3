// Scenarios: a volume, placements on it, and packets that are served one after the other.
use crate::digits::bytes_from;
use crate::files::{beside, bytes_of, input_stop};
use crate::pipes::print_tables;
use crate::stand_in::{Laid, StandIn};
use crate::stop::{Stop, settled};
use controller::serve::ServeRefusal;
use pile::Pile;
use pile::layer::Layer;
use placement::refusal::Refusal;
use placement::shape::Shape;
use placement::tracks::SparedTracks;
use placement::window::Window;
use scenario::line::{Kind, Line, line_of};
use scenario::numbers::numbers;
use std::alloc::{AllocError, Global};
use std::io::{BufRead, BufReader};
use std::mem;

// The longest reply buffer that a packet may ask for.
const MOST_ROOM: u32 = 1_048_576;

// How far a scenario has come since its last volume line: what is laid is served from the first packet on.
#[derive(Drop)]
enum Stage {
    Empty,
    Laid(Laid),
    Serving(StandIn),
}

// What becomes of a packet: its answer is shown, it is in the file before that, or neither.
#[derive(Clone, Copy, PartialEq, Eq)]
pub(crate) enum Manner {
    Shown,
    Saved,
    Silent,
}

// A scenario without a name, or with an empty one, is read from standard input.
#[derive(Drop)]
struct Play<'a> {
    name: Option<&'a str>,
    manner: Manner,
    stage: Stage,
}

fn said(heap: Global, words: &str) -> Stop {
    Stop::said(String::from_str(heap, words))
}

fn unknown(heap: Global) -> Stop {
    said(
        heap,
        "this is no line of a scenario (volume, spared, window, packet); try 'corvus help'",
    )
}

// A refused placement stays fresh.
fn note_refusal(rt: &HostRuntime, r: Result<(), Refusal>) {
    if let Err(refusal) = r {
        let number = refusal.number();
        let _ = eprintln!(rt; "# refused {number}");
    }
}

fn tracks_layer(rt: &HostRuntime, shape: Shape, list: &str) -> Result<Layer, Stop> {
    let heap = rt.alloc();
    let spared = numbers(heap, list)?.ok_or_else(|| unknown(heap))?;
    let mut tracks = SparedTracks::fresh(heap);
    note_refusal(rt, tracks.set(shape, spared));
    Ok(Layer::Tracks(tracks))
}

fn window_layer(rt: &HostRuntime, offset: u32, count: u32, total: u32) -> Layer {
    let mut window = Window::fresh();
    note_refusal(rt, window.set(offset, count, total));
    Layer::Window(window)
}

impl Play<'_> {
    fn start(&mut self, rt: &HostRuntime, kind: Kind, path: &str) -> Result<(), Stop> {
        let path = beside(rt.alloc(), self.name.unwrap_or(""), path)?;
        let bytes = bytes_of(rt, path.as_str())?;
        self.stage = Stage::Laid(Laid {
            path,
            kind,
            bytes,
            pile: None,
        });
        Ok(())
    }

    fn lay(&mut self, heap: Global, layer: Layer) -> Result<(), Stop> {
        let laid = match &mut self.stage {
            Stage::Laid(laid) => laid,
            Stage::Serving(_) => {
                return Err(said(heap, "a placement has to stand above the first packet"));
            }
            Stage::Empty => return Err(said(heap, "a placement needs a volume line above it")),
        };
        match &mut laid.pile {
            Some(pile) => pile.put_on(layer)?,
            None => laid.pile = Some(Pile::new(heap, layer)),
        }
        Ok(())
    }

    // From what is laid on to the stand-in that serves it.
    fn set_up(&mut self) {
        self.stage = match mem::replace(&mut self.stage, Stage::Empty) {
            Stage::Laid(laid) => Stage::Serving(match self.manner {
                Manner::Saved => StandIn::saving(laid),
                Manner::Shown | Manner::Silent => StandIn::new(laid),
            }),
            stage => stage,
        };
    }

    // The stand-in, which the first packet sets up. Only that one: to take the stage out and put it back costs more than to serve a packet.
    fn serving(&mut self, heap: Global) -> Result<&mut StandIn, Stop> {
        if matches!(&self.stage, Stage::Laid(_)) {
            self.set_up();
        }
        match &mut self.stage {
            Stage::Serving(stand_in) => Ok(stand_in),
            _ => Err(said(heap, "a packet needs a volume line above it")),
        }
    }

    fn show(
        &self,
        rt: &HostRuntime,
        answer: Result<usize, ServeRefusal>,
        reply: &[u8],
    ) -> Result<(), Stop> {
        if self.manner == Manner::Silent {
            return Ok(());
        }
        match answer {
            Ok(_) => {
                let hex = hex::encode(rt.alloc(), reply)?;
                println!(rt; "reply {hex}")?;
            }
            Err(refusal) => {
                let number = refusal.number();
                println!(rt; "refused {number}")?;
            }
        }
        Ok(())
    }

    fn packet(&mut self, rt: &HostRuntime, room: u32, hex: &str) -> Result<(), Stop> {
        let heap = rt.alloc();
        let packet = bytes_from(heap, hex)?;
        if room > MOST_ROOM {
            return Err(said(heap, "a reply buffer has at most 1048576 bytes"));
        }
        let mut buffer = vec![in heap; 0xEEu8; room as usize]?;
        let stand_in = self.serving(heap)?;
        let answer = stand_in.answer(rt, packet.as_slice(), buffer.as_mut_slice())?;
        let length = answer.unwrap_or(0);
        let Some((reply, behind)) = buffer.as_slice().split_at_checked(length) else {
            return Err(said(heap, "the reply is longer than its buffer"));
        };
        if behind.iter().any(|&b| b != 0xEE) {
            return Err(said(heap, "a byte behind the reply has changed"));
        }
        self.show(rt, answer, reply)
    }

    fn obey(&mut self, rt: &HostRuntime, line: Line<'_>) -> Result<(), Stop> {
        let heap = rt.alloc();
        match line {
            Line::Blank => Ok(()),
            Line::Volume { kind, path } => self.start(rt, kind, path),
            Line::Spared { shape, list } => {
                let layer = tracks_layer(rt, shape, list)?;
                self.lay(heap, layer)
            }
            Line::Window {
                offset,
                count,
                total,
            } => self.lay(heap, window_layer(rt, offset, count, total)),
            Line::Packet { room, hex } => self.packet(rt, room, hex),
        }
    }

    fn obey_bytes(&mut self, rt: &HostRuntime, bytes: &[u8]) -> Result<(), Stop> {
        let heap = rt.alloc();
        let text = std::str::from_utf8(bytes).map_err(|_| said(
            heap,
            "the line is not UTF-8 text",
        ))?;
        self.obey(rt, line_of(text).ok_or_else(|| unknown(heap))?)
    }

    // The end of a line that stops the play.
    fn stopped(&self, heap: Global, line: usize, why: &str) -> Stop {
        let name = self.name.unwrap_or("standard input");
        Stop::said(format!(in heap; "{name}, line {line}: {why}"))
    }

    fn obey_all<R: BufRead + Drop>(&mut self, rt: &HostRuntime, reader: R) -> Result<(), Stop> {
        let heap = rt.alloc();
        for (i, line) in reader.split(heap, b'\n').enumerate() {
            let line = line.map_err(|e| input_stop(heap, e))?;
            if let Err(why) = settled(self.obey_bytes(rt, line.as_slice()))? {
                return Err(self.stopped(heap, i.saturating_add(1), why.as_str()));
            }
        }
        Ok(())
    }

    fn play(&mut self, rt: &HostRuntime) -> Result<(), Stop> {
        match self.name {
            Some(name) => {
                let bytes = bytes_of(rt, name)?;
                self.obey_all(rt, bytes.as_slice())
            }
            None => {
                let input = BufReader::new(rt.alloc(), rt.stdin()).map_err(|_| Stop::Memory(
                    AllocError,
                ))?;
                self.obey_all(rt, input)
            }
        }
    }
}

pub(crate) fn run(rt: &HostRuntime, name: Option<&str>, manner: Manner) -> Result<(), Stop> {
    let mut play = Play {
        name: name.filter(|name| !name.is_empty()),
        manner,
        stage: Stage::Empty,
    };
    play.play(rt)
}

// Plays the scenario in silence; then the tables as it left them.
pub(crate) fn tables(rt: &HostRuntime, name: &str) -> Result<(), Stop> {
    let heap = rt.alloc();
    let mut play = Play {
        name: Some(name).filter(|name| !name.is_empty()),
        manner: Manner::Silent,
        stage: Stage::Empty,
    };
    play.play(rt)?;
    let stand_in = play
        .serving(heap)
        .map_err(|_| said(heap, "the scenario has no volume"))?;
    print_tables(rt, stand_in.controller())
}
