#![tactic(auto)]
// A Bank: plain bytes in sectors of 1,024, two blocks to a sector, written through one held sector.
ghost use Rattle.std.specs.Prelude.{◌≡◌, ◌≤◌, length};
ghost use Rattle.bank.specs.Sectors.{held_end, block_count};

use held::Held;
use volume::Volume;
use volume::answers::{ReadRefusal, WriteRefusal};

mod held;

// Letting a Bank go would lose its held sector, so it is not `Drop`: `into_bytes` ends it.
pub struct Bank {
    bytes: Vec<u8>,
    held: Option<Held>,
    ghost inside: { held_end held ≤ length bytes.items },
}

// How many blocks so many bytes have.
fn block_count(len: usize) -> u32
    ensures { result ≡ block_count len }
{
    (2 * (len / 1024)).min(1_048_576) as u32
}

impl Bank {
    ghost use Rattle.std.specs.Prelude.{◌+◌, ◌*◌, ◌/◌, None, IsTrue};
    ghost use Rattle.bank.specs.Sectors.{is_held, bank_byte, bank_meaning, block_bytes, overwritten};
    ghost use Rattle.bank.specs.Banks.{all_bytes, meaning_of};

    pub fn new(bytes: Vec<u8>) -> Bank
        ensures all { all_bytes result ≡ bytes.items }
        ensures same { meaning_of result ≡ bank_meaning bytes.items }
    {
        Bank { bytes, held: None }
    }

    // The offset of block n's first byte in the bytes.
    pub fn block_byte(&self, n: u32) -> Option<u64>
        ensures { result ≡ bank_byte (all_bytes self.now) n }
    {
        (n < self.count()).then(|| 512 * u64::from(n))
    }

    // Puts the held sector, if any, back into the bytes, which then are all; no sector is held any more.
    pub fn put_back(&mut self)
        ensures all { self.new.bytes.items ≡ all_bytes self.old }
        ensures len { length self.new.bytes.items ≡ length self.old.bytes.items }
        ensures none { self.new.held ≡ None }
        ensures same { meaning_of self.new ≡ meaning_of self.old }
    {
        // Lent, since to take it out would copy it once more.
        let Some(held) = &self.held else {
            return;
        };
        held.put_into(self.bytes.as_mut_slice());
        self.held = None;
    }

    // The bytes, with the held sector put back.
    pub fn into_bytes(mut self) -> Vec<u8>
        ensures all { result.items ≡ all_bytes self }
        ensures same { bank_meaning result.items ≡ meaning_of self }
    {
        self.put_back();
        let Bank { bytes, held: _ } = self;
        bytes
    }

    // One call, with a clause in the words of `hold`.
    fn holds(&self, sector: u32) -> bool
        ensures { result ≡ is_held self.now.held sector }
    {
        self.held.as_ref().is_some_and(|held| held.sector == sector)
    }

    // Makes a sector the held one, and changes no block. That sector or block lies within the bytes is asked for by each function below:
    // the number is the caller's, so no value has it as a fact of its own.
    fn hold(&mut self, sector: u32)
        requires { 1024 * sector + 1024 ≤ length self.old.bytes.items }
        ensures held { IsTrue (is_held self.new.held sector) }
        ensures all { all_bytes self.new ≡ all_bytes self.old }
    {
        if self.holds(sector) {
            return;
        }
        match &mut self.held {
            Some(held) => held.exchange(self.bytes.as_mut_slice(), sector),
            None => self.held = Some(Held::copy_of(self.bytes.as_slice(), sector)),
        }
    }

    // Block n, in the held sector if it is there.
    fn block(&self, n: u32) -> &[u8]
        requires { 512 * n + 512 ≤ length self.now.bytes.items }
        ensures { result.now ≡ block_bytes (all_bytes self.now) n }
    {
        match &self.held {
            Some(held) if held.sector == n / 2 => held.half(n % 2),
            _ => {
                let from = 512 * n as usize;
                &self.bytes.as_slice()[from..from + 512]
            }
        }
    }

    // Lays a block on its half of its sector, which is the held one from then on.
    fn lay_block(&mut self, n: u32, block: &[u8; 512])
        requires { 1024 * (n / 2) + 1024 ≤ length self.old.bytes.items }
        ensures { all_bytes self.new ≡ overwritten (all_bytes self.old) n block.now }
    {
        self.hold(n / 2);
        // There always is one now: `hold` has seen to it.
        if let Some(held) = &mut self.held {
            held.lay_half(n % 2, block);
        }
    }
}

impl Volume for Bank {
    ghost use Rattle.volume.specs.Meanings.{write_answer, written};
    ghost use Rattle.bank.specs.Sectors.{bank_with, beyond};
    ghost use Rattle.bank.specs.Banks.{all_bytes, meaning_of};
    ghost use Rattle.bank.specs.Soundness.{bank_sound};

    ghost meaning = { meaning_of };

    ghost sound = { λ b. bank_sound (all_bytes b) };

    fn count(&self) -> u32 {
        block_count(self.bytes.len())
    }

    fn writable(&self) -> bool {
        true
    }

    fn read(&self, n: u32, buffer: &mut [u8; 512]) -> Result<(), ReadRefusal> {
        if n >= self.count() {
            return Err(ReadRefusal::Beyond);
        }
        buffer.copy_from_slice(self.block(n));
        Ok(())
    }

    // What lies past the last block is never written.
    fn write(&mut self, n: u32, bytes: &[u8; 512]) -> Result<(), WriteRefusal>
        ensures answer { result ≡ write_answer (meaning_of self.old) n }
        ensures after { meaning_of self.new ≡ written (meaning_of self.old) n bytes.now }
        ensures all { all_bytes self.new ≡ bank_with (all_bytes self.old) n bytes.now }
        ensures past { beyond (all_bytes self.new) ≡ beyond (all_bytes self.old) }
    {
        if n >= self.count() {
            return Err(WriteRefusal::Beyond);
        }
        self.lay_block(n, bytes);
        Ok(())
    }
}
