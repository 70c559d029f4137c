// The edges of exactness, of fits and of the comparison of rates.
use crate::kind::CostKind;
use crate::money::Money;
use crate::money_tonnes::MoneyTonnes;
use crate::rate::Rate;
use limits::EXACT_SIZE;

// 2 to the 62nd, as a place of a cost
const EXACT: i64 = 4_611_686_018_427_387_904;

fn money(dollars: i64) -> Money {
    Money { dollars }
}

fn money_tonnes(dollars: i64, tonnes: i64) -> MoneyTonnes {
    MoneyTonnes { dollars, tonnes }
}

fn cheaper(c1: i64, t1: u64, c2: i64, t2: u64) -> bool {
    Rate {
        cost: money(c1),
        hours: t1,
    }
    .is_cheaper_than(Rate {
        cost: money(c2),
        hours: t2,
    })
}

#[test]
fn money_fits(rt: HostRuntime) {
    assert!(rt; money(EXACT).fits(EXACT_SIZE));
    assert!(rt; money(-EXACT).fits(EXACT_SIZE));
    assert!(rt; !money(EXACT + 1).fits(EXACT_SIZE));
    assert!(rt; !money(-EXACT - 1).fits(EXACT_SIZE));
    assert!(rt; !money(i64::MIN).fits(EXACT_SIZE));
    assert!(rt; money(0).fits(0));
    assert!(rt; !money(-1).fits(0));
}

#[test]
fn money_tonnes_fits(rt: HostRuntime) {
    assert!(rt; money_tonnes(EXACT, -EXACT).fits(EXACT_SIZE));
    assert!(rt; !money_tonnes(0, EXACT + 1).fits(EXACT_SIZE));
    assert!(rt; !money_tonnes(i64::MIN, 0).fits(EXACT_SIZE));
    assert!(rt; !money_tonnes(0, i64::MIN).fits(EXACT_SIZE));
}

#[test]
fn exact_to_the_edge(rt: HostRuntime) {
    assert_eq!(rt; money(EXACT / 2).plus(money(EXACT / 2)), money(EXACT));
    assert_eq!(rt; money(EXACT).negated(), money(-EXACT));
    assert_eq!(rt; money(-EXACT / 2).multiple(2), money(-EXACT));
    assert_eq!(rt; money(0).multiple(u64::MAX), money(0));
    assert_eq!(rt; money_tonnes(-1, 3).multiple(4), money_tonnes(-4, 12));
    assert_eq!(rt;
        money_tonnes(-1, 3).plus(money_tonnes(2, -5)),
        money_tonnes(1, -2)
    );
    assert_eq!(rt; money_tonnes(-1, 3).negated(), money_tonnes(1, -3));
}

#[test]
fn past_the_edge_nothing_stops(rt: HostRuntime) {
    let _ = money(i64::MAX).plus(money(i64::MAX));
    let _ = money(i64::MIN).negated();
    let _ = money(i64::MIN).multiple(u64::MAX);
    assert!(rt; money(i64::MIN).below(money(i64::MAX)));
}

#[test]
fn tonnes_decide_last(rt: HostRuntime) {
    assert!(rt; money_tonnes(-1, 9).below(money_tonnes(0, 0)));
    assert!(rt; money_tonnes(0, -1).below(money_tonnes(0, 0)));
    assert!(rt; !money_tonnes(0, 0).below(money_tonnes(0, 0)));
    assert!(rt; !money_tonnes(0, 0).below(money_tonnes(-1, 9)));
}

#[test]
fn rates_around_zero(rt: HostRuntime) {
    assert!(rt; cheaper(-1, 9, 1, 9));
    assert!(rt; cheaper(-1, 9, 0, 1));
    assert!(rt; cheaper(0, 1, 1, 9_999));
    assert!(rt; !cheaper(0, 1, 0, 7));
    assert!(rt; !cheaper(0, 7, 0, 1));
    assert!(rt; cheaper(-1, 1, -1, 2));
}

#[test]
fn level_rates_of_other_figures(rt: HostRuntime) {
    assert!(rt; !cheaper(-1_200, 60, -2_400, 120));
    assert!(rt; !cheaper(-2_400, 120, -1_200, 60));
    assert!(rt; cheaper(-1_201, 60, -2_400, 120));
}
