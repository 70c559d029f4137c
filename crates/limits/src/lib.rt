// Every limit of the rules, and the one list of refusals.
#![tactic(auto)]

pub mod refusal;

ghost use Rattle.std.specs.Prelude.{◌≡◌};
ghost use Rattle.limits.specs.Numbers.{most_ports, most_grid_ports, most_legs, most_hours, most_cost, most_places, exact_size};

// The ports of a chart: from 1 to this many, numbered from 0.
pub const MOST_PORTS: usize = 256;

// The ports of a grid chart: from 1 to this many.
pub const MOST_GRID_PORTS: usize = 64;

// The entries of a chart, and the leg lines of a sheet.
pub const MOST_LEGS: usize = 4096;

// The hours of a leg, and the stay in a port.
pub const MOST_HOURS: u32 = 9_999;

// The size of a leg's cost, and of a grid's or a hire cost.
pub const MOST_COST: u64 = 999_999_999;

// The places of a cost: from 1 to this many.
pub const MOST_PLACES: usize = 4;

// Arithmetic on costs is exact up to this size, which is 2 to the 62nd.
pub const EXACT_SIZE: u64 = 4_611_686_018_427_387_904;

// Each limit of the code is the limit of the same name in the definitions.
pub fn limits_agree()
    ensures ports { MOST_PORTS ≡ most_ports }
    ensures grid { MOST_GRID_PORTS ≡ most_grid_ports }
    ensures legs { MOST_LEGS ≡ most_legs }
    ensures hours { MOST_HOURS ≡ most_hours }
    ensures cost { MOST_COST ≡ most_cost }
    ensures places { MOST_PLACES ≡ most_places }
    ensures exact { EXACT_SIZE ≡ exact_size }
{}
