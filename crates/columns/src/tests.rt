// Columns at the limits of their widths.
ghost use Rattle.std.specs.Prelude.{◌^◌, ◌<◌};

use crate::*;

// Five columns of a buffer of seven bytes.
fn put_five(n: u64) -> [u8; 7]
    requires { n < 10 ^ 5 }
{
    let mut out = *b"..x..y.";
    let _next = put_number(&mut out, 1, 5, n);
    out
}

#[test]
fn puts_unsigned(rt: HostRuntime) {
    assert!(rt; put_five(0) == *b".    0.");
    assert!(rt; put_five(9) == *b".    9.");
    assert!(rt; put_five(10) == *b".   10.");
    assert!(rt; put_five(99_999) == *b".99999.");
}

#[test]
fn puts_signed(rt: HostRuntime) {
    let mut out = *b"------------";
    assert_eq!(rt; put_number(&mut out, 1, 11, -999_999_999_i64), 12);
    assert!(rt; out == *b"- -999999999");
    assert_eq!(rt; put_number(&mut out, 0, 2, 0_i64), 2);
    assert!(rt; out == *b" 0-999999999");
}

#[test]
fn puts_sums(rt: HostRuntime) {
    let mut out = *b"                ";
    assert_eq!(rt; put_number(&mut out, 0, 16, -4_095_999_995_904_i64), 16);
    assert!(rt; out == *b"  -4095999995904");
    assert!(rt; read_number::<i64>(&out, 0, 16) == Some((-4_095_999_995_904, 16)));
}

#[test]
fn reads_unsigned(rt: HostRuntime) {
    assert!(rt; read_number::<u64>(b"    0", 0, 5) == Some((0, 5)));
    assert!(rt; read_number::<u64>(b"L    9   10", 1, 5) == Some((9, 6)));
    assert!(rt; read_number::<u64>(b"L    9   10", 6, 5) == Some((10, 11)));
    assert!(rt; read_number::<u64>(b"99999", 0, 5) == Some((99_999, 5)));
    assert!(rt;
        read_number::<u64>(b"999999999999999999", 0, 18) == Some((999_999_999_999_999_999, 18))
    );
}

#[test]
fn reads_signed(rt: HostRuntime) {
    assert!(rt; read_number::<i64>(b" -999999999", 0, 11) == Some((-999_999_999, 11)));
    assert!(rt; read_number::<i64>(b"99999999999", 0, 11) == Some((99_999_999_999, 11)));
    assert!(rt; read_number::<i64>(b"          0", 0, 11) == Some((0, 11)));
}

#[test]
fn refuses_other_forms(rt: HostRuntime) {
    assert!(rt; read_number::<u64>(b"     ", 0, 5) == None);
    assert!(rt; read_number::<u64>(b"   1 ", 0, 5) == None);
    assert!(rt; read_number::<u64>(b"  007", 0, 5) == None);
    assert!(rt; read_number::<u64>(b"   00", 0, 5) == None);
    assert!(rt; read_number::<u64>(b"   +1", 0, 5) == None);
    assert!(rt; read_number::<u64>(b"   -1", 0, 5) == None);
    assert!(rt; read_number::<u64>(b"  1 2", 0, 5) == None);
}

#[test]
fn refuses_other_signs(rt: HostRuntime) {
    assert!(rt; read_number::<i64>(b"   -0", 0, 5) == None);
    assert!(rt; read_number::<i64>(b"  - 1", 0, 5) == None);
    assert!(rt; read_number::<i64>(b"  --1", 0, 5) == None);
    assert!(rt; read_number::<i64>(b"  -01", 0, 5) == None);
    assert!(rt; read_number::<i64>(b"    -", 0, 5) == None);
    assert!(rt; read_number::<i64>(b"   +1", 0, 5) == None);
}

#[test]
fn refuses_other_places(rt: HostRuntime) {
    assert!(rt; read_number::<u64>(b"    1", 1, 5) == None);
    assert!(rt; read_number::<u64>(b"    1", 6, 1) == None);
    assert!(rt; read_number::<u64>(b"    1", 5, 0) == None);
    assert!(rt; read_number::<u64>(b"                  1", 0, 19) == None);
}
