use super::*;

#[test]
fn integers(rt: HostRuntime) {
    let fields = [
        ("0", Some(0)),
        ("0000000000", Some(0)),
        ("4294967295", Some(4_294_967_295)),
        ("9999999999", Some(9_999_999_999)),
        ("00000000000", None),
        ("", None),
        ("+1", None),
        ("1 ", None),
        ("1.0", None),
        ("1e2", None),
    ];
    for (field, number) in fields {
        assert_eq!(rt; integer_of(field.as_bytes()), number, "at {field:?}");
    }
}

#[test]
fn money(rt: HostRuntime) {
    let fields = [
        ("0.1", Some(10)),
        ("0.10", Some(10)),
        ("0.01", Some(1)),
        ("1", Some(100)),
        ("00.05", Some(5)),
        ("9999999999.99", Some(999_999_999_999)),
        ("0.", None),
        (".02", None),
        ("0.055", None),
        ("0,05", None),
        ("-0.01", None),
        ("", None),
    ];
    for (field, hundredths) in fields {
        assert_eq!(rt; money_of(field.as_bytes()), hundredths, "at {field:?}");
    }
}

#[test]
fn dates(rt: HostRuntime) {
    let fields = [
        ("1992-01-01", Some(0)),
        ("1992-02-29", Some(59)),
        ("1996-02-29", Some(1520)),
        ("1996-03-13", Some(1533)),
        ("1998-12-31", Some(2556)),
        ("1995-02-29", None),
        ("1996-02-30", None),
        ("1991-12-31", None),
        ("1999-01-01", None),
        ("96-03-13", None),
        ("1996-3-13", None),
        ("1996/03/13", None),
        ("1996-00-10", None),
        ("1996-13-01", None),
    ];
    for (field, day) in fields {
        assert_eq!(rt; date_field(field.as_bytes()), day, "at {field:?}");
    }
}
