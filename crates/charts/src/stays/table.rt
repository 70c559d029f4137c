// The stays of all ports, handed over whole.
ghost use Rattle.std.specs.Prelude.{◌≡◌};
ghost use Rattle.charts.specs.Stays.{all_short};

#[derive(Clone, Copy)]
pub struct Stays {
    pub(super) hours: [u32; 256],
    // whether each is within its limit, found once, since a chart asks at every entry
    pub(super) short: bool,
    ghost told: { short ≡ all_short hours },
}
