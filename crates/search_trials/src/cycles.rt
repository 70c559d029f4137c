// Every simple cycle of a chart of at most three ports and four legs, looked at one by one.
use charts::Leg;
use costs::{Money, Rate};

// What the simple cycles of a chart tell.
#[derive(Clone, Copy, Default)]
pub struct Cycles {
    pub idle: bool,
    pub cheapest: Option<Rate<Money>>,
}

// The sums are the trial's own, and not by `plus`, which is part of what it tries.
fn rate_of(legs: &[Leg<Money>]) -> Rate<Money> {
    let (dollars, hours) = legs.iter().fold(
        (0_i64, 0_u64),
        |(dollars, hours), leg| (
            dollars.wrapping_add(leg.cost.dollars),
            hours.saturating_add(u64::from(leg.hours)),
        ),
    );
    Rate {
        cost: Money { dollars },
        hours,
    }
}

// Whether the legs close, each reaching the port that the next one leaves, and leave no port twice.
fn is_cycle(legs: &[Leg<Money>]) -> bool {
    match legs {
        [a] => a.from == a.to,
        [a, b] => a.to == b.from && b.to == a.from && a.from != b.from,
        [a, b, c] => a.to == b.from
            && b.to == c.from
            && c.to == a.from
            && a.from != b.from
            && b.from != c.from
            && c.from != a.from,
        _ => false,
    }
}

impl Cycles {
    // The simple cycles among the legs of a table; one function for each leg of a cycle, so that each has one loop.
    pub fn of(table: &[Option<Leg<Money>>]) -> Cycles {
        let mut all = Cycles::default();
        for a in table.iter().flatten() {
            all.from_one(table, *a);
        }
        all
    }

    fn from_one(&mut self, table: &[Option<Leg<Money>>], a: Leg<Money>) {
        self.consider(&[a]);
        for b in table.iter().flatten() {
            self.from_two(table, a, *b);
        }
    }

    fn from_two(&mut self, table: &[Option<Leg<Money>>], a: Leg<Money>, b: Leg<Money>) {
        self.consider(&[a, b]);
        for c in table.iter().flatten() {
            self.consider(&[a, b, *c]);
        }
    }

    // One list of legs more: if it is a cycle it counts.
    fn consider(&mut self, legs: &[Leg<Money>]) {
        if !is_cycle(legs) {
            return;
        }
        let rate = rate_of(legs);
        self.idle |= rate.hours == 0;
        self.cheapest = match self.cheapest {
            Some(old) if !rate.is_cheaper_than(old) => Some(old),
            _ => Some(rate),
        };
    }
}
