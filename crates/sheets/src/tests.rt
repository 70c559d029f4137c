// Sheets at the limits: exact buffers and one byte less, the widest numbers of every column, and each refusal.
use crate::form::Form;
use crate::listing::write_sheet;
use crate::numbered::NumberedLeg;
use crate::sheet::BegunSheet;
use charts::Leg;
use costs::{Money, MoneyTonnes};
use limits::refusal::Refusal;
use std::test::Fail;

fn sailed(number: usize, from: u16, to: u16, hours: u32, dollars: i64) -> NumberedLeg<Money> {
    NumberedLeg {
        number,
        leg: Leg {
            from,
            to,
            hours,
            cost: Money { dollars },
        },
    }
}

fn triangle() -> [NumberedLeg<Money>; 4] {
    [
        sailed(0, 0, 1, 40, -1_200),
        sailed(1, 1, 0, 20, 300),
        sailed(2, 1, 2, 30, -600),
        sailed(3, 2, 0, 50, -600),
    ]
}

#[test]
fn fills_an_exact_buffer(rt: HostRuntime) {
    let mut out = [0; 181];
    assert!(rt; write_sheet(Form::Chart, 3, &triangle(), &mut out) == Ok(181));
    assert!(rt;
        out == *b"C    3    1\nL    0    0    1    40      -1200\nL    1    1    0    20        300\nL    2    1    2    30       -600\nL    3    2    0    50       -600\nE    4       140           -2100\n"
    );
}

#[test]
fn refuses_one_byte_less(rt: HostRuntime) {
    let mut out = [7; 180];
    assert!(rt; write_sheet(Form::Chart, 3, &triangle(), &mut out) == Err(Refusal::Length));
    assert!(rt; out[113] == 0);
    assert!(rt; out[114] == 7);
    assert!(rt; write_sheet::<Money>(Form::Chart, 3, &[], &mut [7; 44]) == Err(Refusal::Length));
    assert!(rt; write_sheet::<Money>(Form::Chart, 3, &[], &mut [7; 45]) == Ok(45));
}

#[test]
fn fills_the_widest_columns(rt: HostRuntime) {
    let mut out = [b'.'; 152];
    let cost = MoneyTonnes {
        dollars: -999_999_999,
        tonnes: 999_999_999,
    };
    let leg = Leg {
        from: 255,
        to: 255,
        hours: 9_999,
        cost,
    };
    let legs = [
        NumberedLeg { number: 4_095, leg },
        NumberedLeg { number: 4_095, leg },
    ];
    assert!(rt; write_sheet(Form::Round, 256, &legs, &mut out) == Ok(151));
    assert!(rt;
        out == *b"R  256    2\nL 4095  255  255  9999 -999999999  999999999\nL 4095  255  255  9999 -999999999  999999999\nE    2     19998     -1999999998      1999999998\n."
    );
}

// What a leg after leg 7 of a sheet of three ports is answered.
fn answer_after_seven(form: Form, next: NumberedLeg<Money>) -> Result<(), Refusal> {
    write_sheet(form, 3, &[sailed(7, 0, 1, 1, 1), next], &mut [0; 200])?;
    Ok(())
}

#[test]
fn refuses_in_order(rt: HostRuntime) {
    assert!(rt; answer_after_seven(Form::Chart, sailed(8, 0, 1, 9_999, 999_999_999)) == Ok(()));
    assert!(rt;
        answer_after_seven(Form::Chart, sailed(7, 3, 3, 10_000, 1_000_000_000))
            == Err(Refusal::Number)
    );
    assert!(rt; answer_after_seven(Form::Round, sailed(4_096, 0, 1, 1, 1)) == Err(Refusal::Number));
    assert!(rt;
        answer_after_seven(Form::Round, sailed(7, 0, 3, 10_000, 1_000_000_000))
            == Err(Refusal::Port)
    );
    assert!(rt;
        answer_after_seven(Form::Round, sailed(7, 0, 1, 10_000, 1_000_000_000))
            == Err(Refusal::Hours)
    );
    assert!(rt;
        answer_after_seven(Form::Round, sailed(7, 0, 1, 1, 1_000_000_000)) == Err(Refusal::Cost)
    );
    assert!(rt; write_sheet::<Money>(Form::Round, 0, &[], &mut [0; 9]) == Err(Refusal::Port));
    assert!(rt; write_sheet::<Money>(Form::Round, 257, &[], &mut [0; 99]) == Err(Refusal::Port));
}

#[test]
fn takes_4096_lines(rt: HostRuntime) {
    let mut out = [0; 139_400];
    let leg = sailed(0, 0, 0, 9_999, -999_999_999);
    assert!(rt; write_sheet(Form::Round, 1, &[leg; 4_096], &mut out) == Ok(139_309));
    let end = *b"E 4096  40955904  -4095999995904\n";
    assert!(rt; out[139_276..139_309] == end[0..33]);
    assert!(rt; write_sheet(Form::Round, 1, &[leg; 4_097], &mut out) == Err(Refusal::Number));
}

#[test]
fn stays_begun_until_the_end_line_fits(rt: HostRuntime) -> Result<(), Fail> {
    let mut out = [7; 45];
    let begun: BegunSheet<Money> = BegunSheet::begin(Form::Chart, 1, &mut out)?;
    match begun.close(&mut out[0..44]) {
        Ok(_) => Err(Fail::new("closed")),
        Err(begun) => {
            begun.strike(&mut out[0..11]);
            assert!(rt; out[10] == 0 && out[11] == b'\n' && out[12] == 7);
            Ok(())
        }
    }
}
