// Sector reads and writes.
ghost use Rattle.std.specs.Prelude.{◌≡◌, ◌+◌, ◌<◌, ◌≤◌, true, length, take};
ghost use Rattle.volume.specs.Parts.{part};
ghost use Rattle.packet.specs.Commands.{read, write, size_bytes, first_byte};
ghost use Rattle.model.specs.Steps.{call, obey};
ghost use Rattle.model.specs.Laws.{Does};
ghost use Rattle.controller.specs.Answers.{sector_write_answer, read_answer};
ghost use Rattle.controller.specs.Calls.{read_into};
ghost use Rattle.controller.specs.Worlds.{world_of};
ghost use Rattle.controller.specs.Parts.{part_outcome};

use crate::answers::SectorRefusal;
use crate::controller::Controller;
use packet::command::SectorAddress;
use tables::area::covers;
use volume::Volume;

// The bytes over a part of block n. Where the block is lost, it has no rest to keep, and nothing is written.
fn write_part<V: Volume>(
    volume: &mut V,
    n: u32,
    first: usize,
    bytes: &[u8],
) -> Result<(), SectorRefusal>
    requires below { n < (V.Volume.meaning volume.old).count }
    requires writable { (V.Volume.meaning volume.old).writable ≡ true }
    requires fits { first + length bytes.now ≤ 512 }
    ensures { (result, V.Volume.meaning volume.new) ≡ part_outcome (V.Volume.meaning volume.old) n first bytes.now }
{
    let mut block = [0u8; 512];
    volume.read(n, &mut block)?;
    block[first..first + bytes.len()].copy_from_slice(bytes);
    Ok(volume.write(n, &block)?)
}

impl<V: Volume> Controller<V> {
    // The block that the sector is a part of goes into the buffer.
    pub(crate) fn obey_read(
        &self,
        at: SectorAddress,
        block: &mut [u8; 512],
    ) -> Result<(), SectorRefusal>
        ensures { obey (world_of V.Volume.meaning self.now) (read at.size at.drive at.sector) ≡ (read_answer result (part block.new (first_byte at.size at.sector) (size_bytes at.size)), world_of V.Volume.meaning self.now) }
    {
        if at.drive != 1 {
            return Err(SectorRefusal::NoDrive);
        }
        Ok(self.volume.read(at.block(), block)?)
    }

    // The sector goes to the front of the buffer, which a refusal leaves alone.
    pub fn read(&self, at: SectorAddress, into: &mut [u8; 512]) -> Result<(), SectorRefusal>
        ensures does { Does (world_of V.Volume.meaning self.now) (call (read at.size at.drive at.sector)) (read_answer result (take (size_bytes at.size) into.new)) (world_of V.Volume.meaning self.now) }
        ensures buffer { into.new ≡ read_into result (take (size_bytes at.size) into.new) into.old }
    {
        if !at.is_in_range() {
            return Err(SectorRefusal::Field);
        }
        let mut block = [0u8; 512];
        self.obey_read(at, &mut block)?;
        let first = at.first_byte();
        let count = at.size.bytes();
        into[..count].copy_from_slice(&block[first..first + count]);
        Ok(())
    }

    pub(crate) fn obey_write(
        &mut self,
        at: SectorAddress,
        bytes: &[u8],
    ) -> Result<(), SectorRefusal>
        requires { length bytes.now ≡ size_bytes at.size }
        ensures { obey (world_of V.Volume.meaning self.old) (write at.size at.drive at.sector bytes.now) ≡ (sector_write_answer result, world_of V.Volume.meaning self.new) }
    {
        if at.drive != 1 {
            return Err(SectorRefusal::NoDrive);
        }
        let n = at.block();
        if n >= self.volume.count() {
            return Err(SectorRefusal::Beyond);
        }
        if !self.volume.writable() || covers(self.tables.area, n) {
            return Err(SectorRefusal::Protected);
        }
        match bytes.first_chunk::<512>() {
            Some(whole) => Ok(self.volume.write(n, whole)?),
            None => write_part(&mut self.volume, n, at.first_byte(), bytes),
        }
    }

    // A field that no packet could be built with is refused before anything else; `build` asks the same, with refusals of its own.
    pub fn write(&mut self, at: SectorAddress, bytes: &[u8]) -> Result<(), SectorRefusal>
        ensures { Does (world_of V.Volume.meaning self.old) (call (write at.size at.drive at.sector bytes.now)) (sector_write_answer result) (world_of V.Volume.meaning self.new) }
    {
        if !at.is_in_range() || bytes.len() != at.size.bytes() {
            return Err(SectorRefusal::Field);
        }
        self.obey_write(at, bytes)
    }
}
