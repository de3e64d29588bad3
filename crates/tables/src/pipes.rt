// The pipe table: room for 62 pipes, in the order of their blocks.
ghost use Rattle.std.specs.Prelude.{◌≡◌, ◌<◌, ◌≤◌, ◌↔◌, ltb, nat_lt, [], ◌∷◌, length, if◌then◌else◌, IsOk};
ghost use Rattle.model.specs.Gaps.{gap, keeps, best_gap};
ghost use Rattle.model.specs.Pipes.{numbered, find, named, named_writing, first_start, next_start, any, lowest_unused, closed_named, exchanged, inserted, is_writing};
ghost use Rattle.tables.specs.Places.{place, PlaceWithin};

use crate::search::place_of;
use arrayvec::ArrayVec;
use model::pipe::{Access, Area, Gap, Pipe};

// No heap while serving, so a list in fixed memory that is searched, and no map.
#[derive(Drop)]
pub struct Pipes {
    entries: ArrayVec<Pipe, 62>,
    ghost fits: { length entries.items ≤ 62 },
}

// Why a pipe is not put in: the table holds 62.
#[derive(Clone, Copy, PartialEq, Eq, Debug)]
pub struct TableFull;

// The start of the first of them, or the top where there is none.
fn first_start(pipes: &[Pipe], top: u32) -> u32
    ensures { result ≡ first_start pipes.now top }
{
    pipes.first().map_or(top, |pipe| pipe.start)
}

// The entry below a gap: how many pipes stand up to it, how it is open, and where it ends.
#[derive(Clone, Copy)]
struct Below {
    pipes: usize,
    access: Access,
    end: u32,
}

impl Below {
    // What the entry keeps of a gap: half, rounded up, if it is open for write.
    fn keeps(self, width: u32) -> u32
        ensures { result ≡ keeps (is_writing self.access) width }
    {
        if self.access.is_writing() {
            width - width / 2
        } else {
            0
        }
    }

    // The gap up to where the next entry starts.
    fn gap_to(self, high: u32) -> Gap
        ensures { result ≡ gap self.pipes (is_writing self.access) self.end high }
    {
        let width = high.saturating_sub(self.end);
        let kept = self.keeps(width);
        Gap {
            below: self.pipes,
            from: self.end + kept,
            gives: width - kept,
        }
    }
}

// The one that gives more, the lower on a tie.
fn wider(lower: Gap, upper: Gap) -> Gap
    ensures { result ≡ (if nat_lt lower.gives upper.gives then upper else lower) }
{
    if lower.gives < upper.gives {
        upper
    } else {
        lower
    }
}

impl Pipes {
    ghost use Rattle.tables.specs.Entries.{pipes_of};

    pub fn new() -> Self
        ensures { pipes_of result ≡ [] }
    {
        Pipes {
            entries: ArrayVec::new(),
        }
    }

    pub fn clear(&mut self)
        ensures { pipes_of self.new ≡ [] }
    {
        self.entries.clear();
    }

    // Puts a pipe in the place of the one of this number, if there is one. By its index: one search, proved once, serves `remove` and
    // `next_start` too.
    pub fn exchange(&mut self, number: u8, pipe: Pipe)
        ensures { pipes_of self.new ≡ exchanged number (pipe ∷ []) (pipes_of self.old) }
    {
        if let Some(i) = self.place(number) {
            self.entries[i] = pipe;
        }
    }

    // Takes the pipe of this number, if there is one, out of the table.
    pub fn remove(&mut self, number: u8)
        ensures { pipes_of self.new ≡ exchanged number [] (pipes_of self.old) }
    {
        if let Some(i) = self.place(number) {
            self.entries.remove(i);
        }
    }

    // Puts a pipe in with so many below it, or refuses and leaves all as it was where there is no room for one more.
    pub fn insert(&mut self, below: usize, pipe: Pipe) -> Result<(), TableFull>
        ensures room { IsOk result ↔ (length (pipes_of self.old) < 62) }
        ensures after { pipes_of self.new ≡ (if ltb (length (pipes_of self.old)) 62 then inserted below pipe (pipes_of self.old) else pipes_of self.old) }
    {
        if self.entries.is_full() {
            return Err(TableFull);
        }
        let below = below.min(self.entries.len());
        self.entries.insert(below, pipe);
        Ok(())
    }

    // In the table's order.
    pub fn pipes(&self) -> &[Pipe]
        ensures pipes { result.now ≡ pipes_of self.now }
        ensures few { length result.now ≤ 62 }
    {
        self.entries.as_slice()
    }

    // Where the pipe of this number stands.
    fn place(&self, number: u8) -> Option<usize>
        ensures found { result ≡ place (numbered number) (pipes_of self.now) }
        ensures inside { PlaceWithin result (length (pipes_of self.now)) }
    {
        place_of(self.pipes(), |pipe| number == pipe.number)
    }

    pub fn find(&self, number: u8) -> Option<Pipe>
        ensures { result ≡ find number (pipes_of self.now) }
    {
        let i = self.place(number)?;
        Some(self.pipes()[i])
    }

    // The start of the entry behind the pipe, or the top where there is none.
    pub fn next_start(&self, number: u8, top: u32) -> u32
        ensures { result ≡ next_start number (pipes_of self.now) top }
    {
        match self.place(number) {
            Some(i) => first_start(&self.pipes()[i + 1..], top),
            None => top,
        }
    }

    pub fn has_writer(&self, name: u64) -> bool
        ensures { result ≡ any (named_writing name) (pipes_of self.now) }
    {
        place_of(self.pipes(), |pipe| {
            name == pipe.name && pipe.access.is_writing()
        })
        .is_some()
    }

    pub fn has_name(&self, name: u64) -> bool
        ensures { result ≡ any (named name) (pipes_of self.now) }
    {
        place_of(self.pipes(), |pipe| name == pipe.name).is_some()
    }

    // A number from 1 to 62 that no pipe has, the lowest of them, where there is room for one more.
    pub fn lowest_unused(&self) -> Option<u8>
        ensures { result ≡ lowest_unused (pipes_of self.now) }
    {
        if self.entries.is_full() {
            return None;
        }
        (1..63).find(|&number| self.find(number).is_none())
    }

    // Of the pipes of the name that are not open, the one with the lowest number, and the last of these in the table.
    pub fn closed_named(&self, name: u64) -> Option<Pipe>
        ensures { result ≡ closed_named name (pipes_of self.now) }
    {
        self.pipes()
            .iter()
            .rev()
            .filter(|pipe| name == pipe.name && pipe.access == Access::Closed)
            .min_by_key(|pipe| pipe.number)
            .copied()
    }

    // The gap that gives most, the lowest on a tie.
    pub fn best_gap(&self, area: Area) -> Gap
        ensures { result ≡ best_gap area (pipes_of self.now) }
    {
        let mut best = Gap::default();
        let mut below = Below {
            pipes: 0,
            access: Access::Closed,
            end: u32::from(area.first),
        };
        // A loop: a `scan` of the entries below, with a fold of what the gaps give, would be no plainer.
        for (i, pipe) in self.pipes().iter().enumerate() {
            best = wider(best, below.gap_to(pipe.start));
            below = Below {
                pipes: i + 1,
                access: pipe.access,
                end: pipe.end,
            };
        }
        wider(best, below.gap_to(area.end()))
    }
}
