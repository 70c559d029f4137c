// How a tally begins, and how it counts a leg.
ghost use Rattle.std.specs.Prelude.{◌≡◌, ◌<◌, ◌≤◌};
ghost use Rattle.limits.specs.Numbers.{most_legs, most_hours, most_cost, most_places};
ghost use Rattle.sheets.specs.Places.{row_of, largest};
ghost use Rattle.sheets.specs.Begun.{tallied, opened, counted};

use super::Tally;
use crate::form::{Form, HEAD_LENGTH, leg_length};
use crate::kind::SheetKind;
use crate::places::Places;

impl Tally {
    // The tally of a sheet's first line.
    #[tactic(auto, unfolding(rows::specs::Rows::zero_row))]
    pub fn open(form: Form, ports: usize) -> Tally
        ensures { tallied result ≡ opened form ports }
    {
        Tally {
            form,
            ports,
            end: HEAD_LENGTH,
            legs: 0,
            least: 0,
            hours: 0,
            cost: Places::ZERO,
        }
    }

    // Counts a leg line whose cost has so many places.
    pub fn count(&mut self, number: usize, hours: u32, cost: Places, places: usize)
        requires few { (places ≤ most_places) × (self.old.legs < most_legs) }
        requires fits { (number < most_legs) × ((hours ≤ most_hours) × (largest (row_of cost) ≤ most_cost)) }
        ensures { tallied self.new ≡ counted places (tallied self.old) number hours (row_of cost) }
    {
        self.end += leg_length(places);
        self.legs += 1;
        self.least = self.form.least_after(number);
        self.hours += u64::from(hours);
        self.cost = self.cost.plus(cost);
    }

    // Counts a leg line whose cost is of a kind.
    pub fn count_leg<K: SheetKind>(&mut self, number: usize, hours: u32, cost: K)
        requires few { self.old.legs < most_legs }
        requires fits { (number < most_legs) × ((hours ≤ most_hours) × (largest (K.CostKind.row cost) ≤ most_cost)) }
        ensures { tallied self.new ≡ counted K.CostKind.kind.places (tallied self.old) number hours (K.CostKind.row cost) }
    {
        self.count(number, hours, cost.places(), K::place_count());
    }
}
