// The area that pipes stand in.
ghost use Rattle.std.specs.Prelude.{◌≡◌};
ghost use Rattle.model.specs.Sectors.{within};

use model::pipe::Area;

// Does the area, if there is one, have block n? A function for its clause, since `is_some_and` alone does not say `within`.
pub fn covers(area: Option<Area>, n: u32) -> bool
    ensures { result ≡ within n area }
{
    area.is_some_and(|area| area.has(n))
}
