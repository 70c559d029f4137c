// A written chart: ports handed in, over a lent table of legs of any cost kind.
ghost use Rattle.std.specs.Prelude.{◌≡◌, ◌≤◌, [], Some, None, slice_index_or};
ghost use Rattle.limits.specs.Numbers.{most_ports};
ghost use Rattle.limits.specs.Refusals.{if_refused, answer};
ghost use Rattle.charts.specs.Edits.{Edited};
ghost use Rattle.charts.specs.Meaning.{shown_at, leg as leg_shown};
ghost use Rattle.charts.specs.Reading.{figures_of};
ghost use Rattle.charts.specs.Written.{table_refusal, places_read, written, enter_refusal, withdraw_refusal, reprice_refusal, repriced};

use super::chart::Chart;
use super::leg::{Entry, Leg};
use super::limited::check_port_count;
use super::table::{enter_at, read, read_part, reprice_at, withdraw_at};
use costs::CostKind;
use limits::refusal::Refusal;
use limits::{MOST_LEGS, MOST_PORTS};

#[derive(Drop)]
pub struct WrittenChart<'a, K> {
    ports: usize,
    table: &'a mut [Option<Leg<K>>],
    ghost some: { 1 ≤ ports },
    ghost few: { ports ≤ most_ports },
}

impl<'a, K: CostKind> Chart for WrittenChart<'a, K> {
    type Cost = K;

    ghost meaning = { λ c. written K.CostKind.kind K.CostKind.row c.ports c.table.now };

    fn ports(&self) -> usize {
        self.ports
    }

    fn count(&self) -> usize {
        read_part(self.table).len()
    }

    fn entry(&self, n: usize) -> Entry<K> {
        read(self.ports, self.table, n)
    }
}

impl<'a, K: CostKind> WrittenChart<'a, K> {
    // Whether the table opens as a chart of so many ports: its entries are not looked at.
    pub fn check(ports: usize, table: &[Option<Leg<K>>]) -> Result<(), Refusal>
        ensures { result ≡ answer (table_refusal ports table.now) tt }
    {
        check_port_count(MOST_PORTS, ports)?;
        if table.len() <= MOST_LEGS {
            Ok(())
        } else {
            Err(Refusal::Length)
        }
    }

    // The chart over the whole table; where the check refuses, a chart of one port over none of it.
    pub fn open(ports: usize, table: &'a mut [Option<Leg<K>>]) -> Self
        ensures ports { result.ports ≡ if_refused (table_refusal ports table.old) 1 ports }
        ensures table { result.table.now ≡ if_refused (table_refusal ports table.old) [] table.old }
        ensures lender { table_refusal ports table.old ≡ None → result.table.ghost_name ≡ table.entry.ghost_name }
    {
        match Self::check(ports, table) {
            Ok(()) => WrittenChart { ports, table },
            Err(_) => WrittenChart {
                ports: 1,
                table: &mut table[0..0],
            },
        }
    }

    // Puts a leg under a blank number.
    pub fn enter(&mut self, n: usize, leg: Leg<K>) -> Result<(), Refusal>
        ensures edit { let k = K.CostKind.kind in
            let row = K.CostKind.row in
            let p = self.old.ports in
            let before = self.old.table.now in
            Edited k row p (enter_refusal k row p (places_read before) n leg) n (Some leg) before self.new.table.now result }
        ensures shown { let k = K.CostKind.kind in
            let row = K.CostKind.row in
            let p = self.old.ports in
            enter_refusal k row p (places_read self.old.table.now) n leg ≡ None →
            shown_at (written k row p self.new.table.now) n ≡ leg_shown (figures_of row leg) }
        ensures ports { self.new.ports ≡ self.old.ports }
        ensures lender { self.new.table.ghost_name ≡ self.old.table.ghost_name }
    {
        enter_at(self.ports, self.table, n, leg)
    }

    // Makes a number in use blank.
    pub fn withdraw(&mut self, n: usize) -> Result<(), Refusal>
        ensures edit { let k = K.CostKind.kind in
            let row = K.CostKind.row in
            let before = self.old.table.now in
            Edited k row self.old.ports (withdraw_refusal (places_read before) n) n None before self.new.table.now result }
        ensures ports { self.new.ports ≡ self.old.ports }
        ensures lender { self.new.table.ghost_name ≡ self.old.table.ghost_name }
    {
        withdraw_at(self.table, n)
    }

    // Replaces the hours and the cost under a number in use; the ports stay.
    pub fn reprice(&mut self, n: usize, hours: u32, cost: K) -> Result<(), Refusal>
        ensures edit { let k = K.CostKind.kind in
            let row = K.CostKind.row in
            let before = self.old.table.now in
            Edited k row self.old.ports (reprice_refusal k row (places_read before) n hours cost) n (repriced hours cost (slice_index_or before n None)) before self.new.table.now result }
        ensures ports { self.new.ports ≡ self.old.ports }
        ensures lender { self.new.table.ghost_name ≡ self.old.table.ghost_name }
    {
        reprice_at(self.table, n, hours, cost)
    }
}
