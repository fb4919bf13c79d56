mod bad_lines;
mod parts;
mod scripts;
mod spelled;

use super::*;

/// Texts, and the numbers that they write.
const TEXTS: [(&str, Option<u64>); 15] = [
    ("0", Some(0)),
    ("7", Some(7)),
    ("007", Some(7)),
    ("18446744073709551615", Some(u64::MAX)),
    ("00000000000000000001", Some(1)),
    ("18446744073709551616", None),
    ("99999999999999999999", None),
    ("000000000000000000001", None),
    ("", None),
    ("+1", None),
    ("-1", None),
    (" 1", None),
    ("1 ", None),
    ("0x10", None),
    ("1_000", None),
];

#[test]
fn texts(rt: HostRuntime) {
    for (text, value) in TEXTS {
        assert_eq!(rt; number(text), value, "{text:?}");
    }
}
