// The controller's tables and its volume. Nothing but commands alters them after the making.
ghost use Rattle.std.specs.Prelude.{◌≡◌, length, if◌then◌else◌, nat_le};
ghost use Rattle.packet.specs.Commands.{status};
ghost use Rattle.model.specs.Tables.{tables_asked};
ghost use Rattle.model.specs.Steps.{call};
ghost use Rattle.model.specs.Laws.{Does};
ghost use Rattle.model.specs.Runs.{Making};
ghost use Rattle.tables.specs.Names.{names_of};
ghost use Rattle.tables.specs.Entries.{pipes_of};
ghost use Rattle.status.specs.Written.{after_table};
ghost use Rattle.controller.specs.Calls.{status_answer, status_into};
ghost use Rattle.controller.specs.Worlds.{world_of};

use model::pipe::{Area, Pipe};
use status::asked;
use status::entries::Entries;
use tables::pipes::Pipes;
use tables::semaphores::Semaphores;
use volume::Volume;

// Apart from the volume, so that all that a room shares stands in one place.
#[derive(Drop)]
pub(crate) struct Tables {
    pub(crate) semaphores: Semaphores,
    pub(crate) area: Option<Area>,
    pub(crate) pipes: Pipes,
}

impl Tables {
    // The tables that the selector asks for, at the front. None, and nothing written, where there is no such selector.
    pub(crate) fn put(&self, selector: u8, out: &mut [u8; 1024]) -> Option<usize>
        ensures count { result ≡ (if nat_le selector 3 then Some (length (tables_asked (names_of self.now.semaphores) self.now.area (pipes_of self.now.pipes) selector)) else None) }
        ensures after { out.new ≡ after_table (nat_le selector 3) (tables_asked (names_of self.now.semaphores) self.now.area (pipes_of self.now.pipes) selector) out.old }
    {
        let tables = asked::Tables {
            names: self.semaphores.names(),
            entries: Entries {
                area: self.area,
                pipes: self.pipes.pipes(),
            },
        };
        asked::put_tables(&tables, selector, out)
    }
}

// The commands stand in files of their own, by what they serve: one file would have over 600 lines.
// No Model: the clauses of `new`, `volume` and `into_volume` name the volume itself, of which a World has the meaning alone.
#[derive(Drop)]
pub struct Controller<V> {
    pub(crate) tables: Tables,
    pub(crate) volume: V,
}

impl<V: Volume> Controller<V> {
    // The making: every semaphore entry blank, no pipe area.
    pub fn new(volume: V) -> Self
        ensures volume { result.volume ≡ volume }
        ensures making { Making (world_of V.Volume.meaning result) }
    {
        Controller {
            tables: Tables {
                semaphores: Semaphores::new(),
                area: None,
                pipes: Pipes::new(),
            },
            volume,
        }
    }

    pub fn volume(&self) -> &V
        ensures { result.now ≡ self.now.volume }
    {
        &self.volume
    }

    // The semaphore names, in the table's order; eight blanks mark an unused entry.
    pub fn names(&self) -> &[u64]
        ensures { result.now ≡ (world_of V.Volume.meaning self.now).semaphores }
    {
        self.tables.semaphores.names()
    }

    pub fn area(&self) -> Option<Area>
        ensures { result ≡ (world_of V.Volume.meaning self.now).area }
    {
        self.tables.area
    }

    // The pipes, in the table's order.
    pub fn pipes(&self) -> &[Pipe]
        ensures { result.now ≡ (world_of V.Volume.meaning self.now).pipes }
    {
        self.tables.pipes.pipes()
    }

    // The tables that the selector asks for go to the front of the buffer. None, and the buffer as it was, where there is no such selector.
    pub fn status(&self, selector: u8, into: &mut [u8; 1024]) -> Option<usize>
        ensures does { Does (world_of V.Volume.meaning self.now) (call (status selector)) (status_answer result into.new) (world_of V.Volume.meaning self.now) }
        ensures buffer { into.new ≡ status_into result into.new into.old }
    {
        self.tables.put(selector, into)
    }

    // The volume back, as the commands left it.
    pub fn into_volume(self) -> V
        ensures { result ≡ self.volume }
    {
        let Controller { tables: _, volume } = self;
        volume
    }
}
