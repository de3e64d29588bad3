// A volume with a note of the block that was written last.
ghost use Rattle.std.specs.Prelude.{◌≡◌, None};
ghost use Rattle.volume.specs.Meanings.{write_answer, written};
ghost use Rattle.store.specs.Notes.{noted_by};

use volume::Volume;
use volume::answers::{ReadRefusal, WriteRefusal};

// It means what the volume means.
#[derive(Drop)]
pub struct Noted<V> {
    volume: V,
    last: Option<u32>,
}

impl<V: Volume> Noted<V> {
    pub fn new(volume: V) -> Noted<V>
        ensures volume { result.volume ≡ volume }
        ensures last { result.last ≡ None }
    {
        Noted { volume, last: None }
    }

    pub fn volume(&self) -> &V
        ensures { result.now ≡ self.now.volume }
    {
        &self.volume
    }

    // Tells the block that was written last since `take_written` forgot one, and forgets nothing.
    pub fn written(&self) -> Option<u32>
        ensures { result ≡ self.now.last }
    {
        self.last
    }

    // Tells the block that was written last since it was asked before, and forgets it.
    pub fn take_written(&mut self) -> Option<u32>
        ensures last { result ≡ self.old.last }
        ensures none { self.new.last ≡ None }
        ensures volume { self.new.volume ≡ self.old.volume }
    {
        self.last.take()
    }

    pub fn into_volume(self) -> V
        ensures { result ≡ self.volume }
    {
        self.volume
    }
}

impl<V: Volume> Volume for Noted<V> {
    ghost meaning = { λ s. V.Volume.meaning s.volume };

    ghost sound = { λ s. V.Volume.sound s.volume };

    fn count(&self) -> u32 {
        self.volume.count()
    }

    fn writable(&self) -> bool {
        self.volume.writable()
    }

    fn read(&self, n: u32, buffer: &mut [u8; 512]) -> Result<(), ReadRefusal> {
        self.volume.read(n, buffer)
    }

    // An accepted write is noted.
    fn write(&mut self, n: u32, bytes: &[u8; 512]) -> Result<(), WriteRefusal>
        ensures answer { result ≡ write_answer (V.Volume.meaning self.old.volume) n }
        ensures after { V.Volume.meaning self.new.volume ≡ written (V.Volume.meaning self.old.volume) n bytes.now }
        ensures noted { self.new.last ≡ noted_by result n self.old.last }
    {
        self.volume.write(n, bytes)?;
        self.last = Some(n);
        Ok(())
    }
}
