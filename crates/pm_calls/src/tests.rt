//! The calls of a script of two lanes, and the first lines that lanes do not run.

use super::*;
use pm_objects::Oid;
use pm_script::parse;
use std::test::Fail;

#[test]
fn a_lanes_lines_are_cut_into_calls(rt: HostRuntime) -> Result<(), Fail> {
    let text =
        b"lane 0\nset root 0 1\nbegin root\nlane 1\npublish\nlane 0\nbegin root\ncommit\ncommit\n";
    let Ok(script) = parse(rt.alloc(), text) else {
        return Err(Fail::from("a script"));
    };
    let rooms = lane_rooms(rt.alloc(), script.lines.as_slice(), script.lanes)?;
    assert!(rt; rooms.len() == 2);
    assert!(rt; rooms[0].calls.len() == 2 && rooms[1].calls.len() == 1);
    assert!(rt; rooms[0].calls[0].lines.len() == 1);
    let lines = rooms[0].calls[1].lines.as_slice();
    assert!(rt; lines.len() == 4);
    let root = Oid { pool: 7, off: 4160 };
    let call = call_of(rt.alloc(), Names { pool: 7, root }, 0, lines)?;
    assert!(rt; call.first == 3 && call.last == 9 && call.root == Some(4160));
    Ok(())
}

/// Scripts, and the first line of each that lanes do not run.
const BEYOND: [(&str, Option<u64>); 16] = [
    ("", None),
    ("lane 0\nbegin\ncommit\n", None),
    ("lane 0\nbegin root\nabort 5\n", None),
    ("lane 0\nbegin\nlock root\ncommit\n", None),
    ("lane 0\nbegin\nlockr root\ncommit\n", None),
    ("lane 0\nbegin root\nadd root 0 8\ncommit\n", None),
    ("lane 0\nbegin root\nwrite root 0 cafe\ncommit\n", None),
    ("lane 0\nbegin r:root\nread root 0 8\ncommit\n", None),
    ("lane 0\nbegin root\ninc root 0 1\ncommit\n", None),
    ("lane 0\nset root 0 1\n", None),
    ("lane 0\npublish\n", None),
    ("lane 0\ncancel\n", None),
    ("lane 0\nbegin\nalloc a 64 7\ncommit\n", Some(3)),
    ("lane 0\nbegin\nalloc a 64 7\nfree $a\ncommit\n", Some(3)),
    ("lane 0\nset root 0 1\nlane 1\nroot_size\n", Some(4)),
    (
        "# A skipped line counts.\nlane 0\nreserve a 64 7\ncancel\n",
        Some(3),
    ),
];

#[test]
fn the_first_line_beyond_lanes(rt: HostRuntime) -> Result<(), Fail> {
    for (text, line) in BEYOND {
        let Ok(script) = parse(rt.alloc(), text.as_bytes()) else {
            return Err(Fail::from("a script"));
        };
        assert_eq!(rt;
            line_beyond_lanes(script.lines.as_slice()),
            line,
            "{text:?}"
        );
    }
    Ok(())
}
