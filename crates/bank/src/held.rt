// The sector that a Bank holds.
ghost use Rattle.std.specs.Prelude.{◌≡◌, length};

#[derive(Drop)]
pub(crate) struct Held {
    pub(crate) sector: u32,
    pub(crate) bytes: [u8; 1024],
    ghost full: { length bytes ≡ 1024 },
}

impl Held {
    ghost use Rattle.std.specs.Prelude.{◌+◌, ◌*◌, ◌≤◌, ◌<◌};
    ghost use Rattle.volume.specs.Parts.{part, with_part};
    ghost use Rattle.bank.specs.Sectors.{block_bytes, overwritten};

    // A copy of a sector of the bytes. Here and below, the sector or half is within the bytes: each caller works the number out, so no value
    // has it as a fact of its own.
    pub(crate) fn copy_of(bytes: &[u8], sector: u32) -> Held
        requires { 1024 * sector + 1024 ≤ length bytes.now }
        ensures sector { result.sector ≡ sector }
        ensures bytes { result.bytes ≡ part bytes.now (1024 * sector) 1024 }
    {
        let from = 1024 * sector as usize;
        let mut held = [0; 1024];
        held.copy_from_slice(&bytes[from..from + 1024]);
        Held {
            sector,
            bytes: held,
        }
    }

    // Puts the sector in its place in the bytes.
    pub(crate) fn put_into(&self, bytes: &mut [u8])
        requires { 1024 * self.now.sector + 1024 ≤ length bytes.old }
        ensures { bytes.new ≡ with_part bytes.old (1024 * self.now.sector) self.now.bytes }
    {
        let from = 1024 * self.sector as usize;
        bytes[from..from + 1024].copy_from_slice(&self.bytes);
    }

    // Puts the sector in its place and takes another one. In place: a new Held would be copied once more.
    pub(crate) fn exchange(&mut self, bytes: &mut [u8], sector: u32)
        requires old { 1024 * self.old.sector + 1024 ≤ length bytes.old }
        requires new { 1024 * sector + 1024 ≤ length bytes.old }
        ensures sector { self.new.sector ≡ sector }
        ensures put { bytes.new ≡ with_part bytes.old (1024 * self.old.sector) self.old.bytes }
        ensures bytes { self.new.bytes ≡ part bytes.new (1024 * sector) 1024 }
    {
        self.put_into(bytes);
        let from = 1024 * sector as usize;
        self.bytes.copy_from_slice(&bytes[from..from + 1024]);
        self.sector = sector;
    }

    pub(crate) fn half(&self, half: u32) -> &[u8]
        requires { half < 2 }
        ensures { result.now ≡ block_bytes self.now.bytes half }
    {
        let from = 512 * half as usize;
        &self.bytes[from..from + 512]
    }

    // Lays a block on a half.
    pub(crate) fn lay_half(&mut self, half: u32, block: &[u8; 512])
        requires { half < 2 }
        ensures bytes { self.new.bytes ≡ overwritten self.old.bytes half block.now }
        ensures sector { self.new.sector ≡ self.old.sector }
    {
        let from = 512 * half as usize;
        self.bytes[from..from + 512].copy_from_slice(block);
    }
}
