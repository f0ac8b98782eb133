// "Level i is 1 to 4, neighbour cap µ is 1 to 7, class cap ν is 1 to 15": said here for condensing (4) and for a summary's header (6).
#![tactic(auto)]

ghost use Rattle.std.specs.Prelude.{◌≡◌};
ghost use Rattle.meaning.specs.WellFormed as meant;

pub fn in_range(i: u16, mu: u16, nu: u16) -> bool
    ensures { result ≡ meant.in_range i mu nu }
{
    if !within(1, i, 4) {
        return false;
    }
    if !within(1, mu, 7) {
        return false;
    }
    within(1, nu, 15)
}

// Neither below the least nor above the most.
pub fn within(least: u16, v: u16, most: u16) -> bool
    ensures { result ≡ meant.within least v most }
{
    least <= v && v <= most
}
