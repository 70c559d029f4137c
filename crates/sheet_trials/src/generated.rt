// Small charts drawn at random from a fixed start, written, read back and written again.
use crate::back::comes_back;
use charts::Leg;
use costs::{Money, MoneyTonnes};
use sheets::{Places, SheetKind};
use std::alloc::{AllocError, Global};
use std::io;

const CHARTS: u32 = 400;

const TABLE_LENGTH: u8 = 12;

// Costs are drawn below one of these, so that short and long numbers are alike common.
const COST_RANGES: [u32; 4] = [1, 10, 100_000, 1_000_000_000];

// A linear congruential generator, of which the high bytes are used.
#[derive(Clone, Copy)]
struct Draws {
    state: u64,
}

impl Draws {
    fn next(&mut self) -> [u8; 8] {
        self.state = self
            .state
            .wrapping_mul(6_364_136_223_846_793_005)
            .wrapping_add(1_442_695_040_888_963_407);
        self.state.to_be_bytes()
    }

    fn port(&mut self, ports: u16) -> u16 {
        let [high, ..] = self.next();
        u16::from(high).checked_rem(ports).unwrap_or(0)
    }

    fn hours(&mut self) -> u32 {
        let [a, b, ..] = self.next();
        u32::from(u16::from_be_bytes([a, b])) % 10_000
    }

    fn cost_place(&mut self) -> i64 {
        let [a, b, c, d, range, sign, ..] = self.next();
        let below = COST_RANGES[range as usize % 4];
        let drawn = u32::from_be_bytes([a, b, c, d]).checked_rem(below);
        let magnitude = i64::from(drawn.unwrap_or(0));
        if sign < 128 { magnitude } else { -magnitude }
    }

    fn leg<K: SheetKind>(&mut self, ports: u16) -> Leg<K> {
        let first = self.cost_place();
        let second = self.cost_place();
        Leg {
            from: self.port(ports),
            to: self.port(ports),
            hours: self.hours(),
            cost: K::made_of(Places {
                numbers: [first, second, 0, 0],
            }),
        }
    }

    // About half of the places get a leg.
    fn place<K: SheetKind>(&mut self, ports: u16) -> Option<Leg<K>> {
        let [coin, ..] = self.next();
        if coin < 128 {
            Some(self.leg(ports))
        } else {
            None
        }
    }

    fn table<K: SheetKind>(
        &mut self,
        heap: Global,
        ports: u16,
    ) -> Result<Vec<Option<Leg<K>>>, AllocError> {
        (0..TABLE_LENGTH).map(|_| self.place(ports)).collect(heap)
    }
}

fn try_charts<K: SheetKind + PartialEq>(rt: &HostRuntime, name: &str) -> io::Result<()> {
    let mut draws = Draws { state: 2026 };
    let mut differ: u32 = 0;
    // Counted in a loop, since memory may run out for any chart.
    for _ in 0..CHARTS {
        let [high, ..] = draws.next();
        let ports = u16::from(high).saturating_add(1);
        let table = draws.table::<K>(rt.alloc(), ports)?;
        if !comes_back(rt.alloc(), ports as usize, table.as_slice())? {
            differ = differ.saturating_add(1);
        }
    }
    println!(rt;
        "Charts drawn in {name}: {CHARTS} written, read back and written again, of which differ: {differ}"
    )
}

pub fn run(rt: &HostRuntime) -> io::Result<()> {
    try_charts::<Money>(rt, "dollars")?;
    try_charts::<MoneyTonnes>(rt, "dollars then tonnes")
}
