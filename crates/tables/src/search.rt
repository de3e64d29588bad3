// The first entry of a table that is wanted.
ghost use Rattle.std.specs.Prelude.{◌≡◌, Bool, length};
ghost use Rattle.std.specs.Iterator.{ActsAsAt};
ghost use Rattle.tables.specs.Places.{place, PlaceWithin};

// Where the first entry that the closure wants stands. A function for its clause: `position` tells of its steps, this of `place`.
pub fn place_of<T, W: FnMut(&T) -> bool>(entries: &[T], wanted: W) -> Option<usize>
    requires { W.IsAlwaysCallable wanted }
    ensures found { (is : T → Bool) → ActsAsAt W.FnMut wanted is → result ≡ place is entries.now }
    ensures inside { PlaceWithin result (length entries.now) }
{
    entries.iter().position(wanted)
}
