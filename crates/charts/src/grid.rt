// A grid chart: hours between each two ports, at one money cost for all legs.
ghost use Rattle.std.specs.Prelude.{◌≡◌, ◌/◌, ◌%◌, ◌<◌, ◌≤◌, [], take, slice_index};
ghost use Rattle.limits.specs.Numbers.{most_grid_ports, most_legs};
ghost use Rattle.limits.specs.Refusals.{if_refused, answer};
ghost use Rattle.rows.specs.Orders.{by_dollars};
ghost use Rattle.rows.specs.Rows.{one_place};
ghost use Rattle.charts.specs.Grid.{grid, grid_refusal};

use super::chart::Chart;
use super::leg::{Entry, Leg};
use super::limited::{check_cost, check_port_count, limited_entry};
use costs::{CostKind, Money};
use limits::refusal::Refusal;
use limits::{MOST_GRID_PORTS, MOST_LEGS};

#[derive(Clone, Copy)]
pub struct GridChart<'a> {
    ports: usize,
    hours: &'a [u32],
    cost: Money,
    ghost some: { 1 ≤ ports },
    ghost few: { ports ≤ most_grid_ports },
}

// The hours under a number, and none past the end.
fn hours_under(hours: &[u32], n: usize) -> u32
    ensures value { result ≡ slice_index (take most_legs hours.now) n }
    ensures few { 0 < result → n < most_legs }
{
    if n < hours.len() && n < MOST_LEGS {
        hours[n]
    } else {
        0
    }
}

// The ports that a number joins: number u * ports + v leads from u to v.
fn ends(ports: usize, n: usize) -> (u16, u16)
    requires { (0 < ports) × (n < most_legs) }
    ensures { (result.0 ≡ n / ports) × (result.1 ≡ n % ports) }
{
    ((n / ports) as u16, (n % ports) as u16)
}

impl<'a> GridChart<'a> {
    // Whether the hours open as a grid of so many ports: the entries are not looked at.
    pub fn check(ports: usize, hours: &[u32], cost: Money) -> Result<(), Refusal>
        ensures { result ≡ answer (grid_refusal by_dollars ports hours.now (one_place cost.dollars)) tt }
    {
        check_port_count(MOST_GRID_PORTS, ports)?;
        if hours.len() != ports * ports {
            return Err(Refusal::Length);
        }
        check_cost(cost)
    }

    // The chart over all hours; where the check refuses, a chart of one port over none of them.
    pub fn open(ports: usize, hours: &'a [u32], cost: Money) -> Self
        ensures ports { result.ports ≡ if_refused (grid_refusal by_dollars ports hours.now (one_place cost.dollars)) 1 ports }
        ensures hours { result.hours.now ≡ if_refused (grid_refusal by_dollars ports hours.now (one_place cost.dollars)) [] hours.now }
        ensures cost { result.cost ≡ cost }
    {
        match Self::check(ports, hours, cost) {
            Ok(()) => GridChart { ports, hours, cost },
            Err(_) => GridChart {
                ports: 1,
                hours: &hours[0..0],
                cost,
            },
        }
    }
}

impl<'a> Chart for GridChart<'a> {
    type Cost = Money;

    ghost meaning = { λ c. grid by_dollars c.ports (one_place c.cost.dollars) c.hours.now };

    fn ports(&self) -> usize {
        self.ports
    }

    fn count(&self) -> usize {
        self.hours.len().min(MOST_LEGS)
    }

    fn entry(&self, n: usize) -> Entry<Money> {
        let hours = hours_under(self.hours, n);
        // 0 is no code for none here: a grid is numbers of hours, of which 0 is a blank.
        if hours == 0 {
            return Entry::Blank;
        }
        let (from, to) = ends(self.ports, n);
        limited_entry(
            self.ports,
            Leg {
                from,
                to,
                hours,
                cost: self.cost,
            },
        )
    }
}
