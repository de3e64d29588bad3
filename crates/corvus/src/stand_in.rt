// The stand-in: a controller on the bytes of a file, which gets every accepted write where it is asked to.
use crate::files::{Target, put_back};
use crate::stop::Stop;
use bank::Bank;
use controller::controller::Controller;
use controller::serve::ServeRefusal;
use image::shelf::ShelfImage;
use image::work::WorkImage;
use pile::Pile;
use pile::layer::Layer;
use scenario::line::Kind;
use store::Store;
use store::drive::Drive;
use store::noted::Noted;
use volume::Volume;
use volume::piled::Piled;

// A file's bytes and the placements on them, of which the first lies lowest.
#[derive(Drop)]
pub(crate) struct Laid {
    pub(crate) path: String,
    pub(crate) kind: Kind,
    pub(crate) bytes: Vec<u8>,
    pub(crate) pile: Option<Pile<Layer>>,
}

fn drive_of(kind: Kind, bytes: Vec<u8>, pile: Option<Pile<Layer>>) -> Drive {
    let volume = match kind {
        Kind::Work => Store::Work(WorkImage::new(bytes)),
        Kind::Shelf => Store::Shelf(ShelfImage::new(bytes)),
        Kind::Bank => Store::Bank(Bank::new(bytes)),
    };
    match pile {
        Some(pile) => Drive::Piled(Piled { pile, volume }),
        None => Drive::Plain(volume),
    }
}

impl Laid {
    // The file's path, and the controller on what is laid.
    fn served(self) -> (String, Controller<Noted<Drive>>) {
        let Laid {
            path,
            kind,
            bytes,
            pile,
        } = self;
        let drive = drive_of(kind, bytes, pile);
        (path, Controller::new(Noted::new(drive)))
    }
}

// A block, and where it stands in the file.
#[derive(Clone, Copy, PartialEq, Eq)]
struct Written {
    number: u32,
    bytes: [u8; 512],
    target: Option<Target>,
}

// The block that was written last.
fn last_written(drive: &Noted<Drive>) -> Option<Written> {
    let number = drive.bottom()?;
    let store = drive.volume().store();
    let mut bytes = [0u8; 512];
    let block = store
        .read(number, &mut bytes)
        .ok()
        .and_then(|()| store.block_byte(number));
    let map = store.map_byte(number);
    Some(Written {
        number,
        bytes,
        target: block.map(|block| Target { block, map }),
    })
}

// The file that accepted writes go to, and the block that it got last.
#[derive(Drop)]
struct Keeper {
    path: String,
    saved: Option<Written>,
}

impl Keeper {
    // Brings the block that was written last into the file, unless it is there already.
    fn save(&mut self, rt: &HostRuntime, drive: &Noted<Drive>) -> Result<(), Stop> {
        let Some(block) = last_written(drive) else {
            return Ok(());
        };
        if self.saved == Some(block) {
            return Ok(());
        }
        let Some(target) = block.target else {
            let n = block.number;
            return Err(Stop::said(format!(in rt.alloc();
                "block {n} was written and cannot be saved"
            )));
        };
        put_back(rt, self.path.as_str(), target, &block.bytes)?;
        self.saved = Some(block);
        Ok(())
    }
}

pub(crate) struct StandIn {
    keeper: Option<Keeper>,
    controller: Controller<Noted<Drive>>,
}

// The volume is not `Drop`, so that its bytes are taken out of it.
impl Drop for StandIn {
    fn drop(self) {
        let StandIn {
            keeper: _,
            controller,
        } = self;
        let _bytes = controller
            .into_volume()
            .into_volume()
            .into_store()
            .into_bytes();
    }
}

impl StandIn {
    // The file stays as it is.
    pub(crate) fn new(laid: Laid) -> StandIn {
        let (_path, controller) = laid.served();
        StandIn {
            keeper: None,
            controller,
        }
    }

    // Every accepted write goes to the file.
    pub(crate) fn saving(laid: Laid) -> StandIn {
        let (path, controller) = laid.served();
        StandIn {
            keeper: Some(Keeper { path, saved: None }),
            controller,
        }
    }

    pub(crate) fn controller(&self) -> &Controller<Noted<Drive>> {
        &self.controller
    }

    // Serves a packet. An accepted write is in the file when this returns. A length and no slice: a scenario looks at
    // the bytes behind the reply too.
    pub(crate) fn answer(
        &mut self,
        rt: &HostRuntime,
        packet: &[u8],
        reply: &mut [u8],
    ) -> Result<Result<usize, ServeRefusal>, Stop> {
        let answer = self.controller.serve(packet, reply);
        if let Some(keeper) = &mut self.keeper {
            keeper.save(rt, self.controller.volume())?;
        }
        Ok(answer)
    }
}
