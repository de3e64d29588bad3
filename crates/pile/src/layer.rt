// A layer of a pile, of the kinds that a room has: spared tracks, or a window.
ghost use Rattle.std.specs.Prelude.{◌≡◌};
ghost use Rattle.pile.specs.Layers.{layer_layout, layer_lawful};

use placement::tracks::SparedTracks;
use placement::window::Window;
use volume::Placement;

// The kinds are closed: a boxed `dyn` would be no plainer, and hide from clauses which of them it is.
#[derive(Drop)]
pub enum Layer {
    Tracks(SparedTracks),
    Window(Window),
}

impl Placement for Layer {
    ghost layout = { layer_layout };

    ghost lawful = { layer_lawful };

    fn count(&self) -> u32 {
        match self {
            Layer::Tracks(tracks) => tracks.count(),
            Layer::Window(window) => window.count(),
        }
    }

    fn total(&self) -> u32 {
        match self {
            Layer::Tracks(tracks) => tracks.total(),
            Layer::Window(window) => window.total(),
        }
    }

    fn place(&self, n: u32) -> Option<u32> {
        match self {
            Layer::Tracks(tracks) => tracks.place(n),
            Layer::Window(window) => window.place(n),
        }
    }

    fn block_at(&self, place: u32) -> Option<u32> {
        match self {
            Layer::Tracks(tracks) => tracks.block_at(place),
            Layer::Window(window) => window.block_at(place),
        }
    }
}
