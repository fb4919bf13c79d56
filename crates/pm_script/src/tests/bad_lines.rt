//! Texts that are no scripts: the first bad line, and why.

use super::spelled::{tells, told};
use crate::*;
use std::alloc::Global;
use std::process::Abort;
use std::test::Fail;

/// Each reason.
const REASONS: [(&str, &str); 11] = [
    ("lane 0\nbegin\troot\ncommit", "2 Text"),
    ("lane 0\nfrob\nbegin root", "2 Word"),
    ("lane 0\nbegin root\nadd root 0", "3 Count"),
    ("lane 0\nbegin root\nadd root -1 8\ncommit", "3 Number"),
    ("lane 0\nbegin root\nwrite root 0 123\ncommit", "3 Hex"),
    ("lane 0\nbegin $a\ncommit", "2 Letter"),
    ("lane 32\nbegin root\ncommit", "1 LaneNumber"),
    ("begin root\ncommit", "1 NoLane"),
    ("lane 0\nbegin root\nroot 64\ncommit", "3 Inside"),
    ("lane 0\ncommit", "2 Outside"),
    ("lane 0\nbegin root\nadd root 0 8\n", "2 Open"),
];

/// Bytes that no text of a script has, in comments too.
const BAD_BYTES: [(&str, &str); 4] = [
    ("lane 0\r\nbegin root\r\ncommit", "1 Text"),
    ("lane 0\nbegin root\n# caf\u{e9}\ncommit", "3 Text"),
    ("lane 0\nbegin root\ncommit\n\u{7f}", "4 Text"),
    ("\u{1f}frob", "1 Text"),
];

/// Other first words.
const BAD_WORDS: [(&str, &str); 4] = [
    ("Lane 0\nbegin root\ncommit", "1 Word"),
    ("lane0\n", "1 Word"),
    ("lane 0\nLock root\n", "2 Word"),
    ("frob 0 1 2 3", "1 Word"),
];

/// Other numbers of operands.
const BAD_COUNTS: [(&str, &str); 6] = [
    ("lane", "1 Count"),
    ("lane 0 1", "1 Count"),
    ("lane 0\nbegin\nadd root 0 8 9", "3 Count"),
    ("lane 0\nbegin\nwrite root 0", "3 Count"),
    ("lane 0\nbegin\nread root 0", "3 Count"),
    ("lane 0\nbegin\ncommit root", "3 Count"),
];

/// Operands that are no numbers, and those out of range.
const BAD_NUMBERS: [(&str, &str); 10] = [
    ("lane x", "1 Number"),
    ("lane 18446744073709551616", "1 Number"),
    ("lane 000000000000000000000", "1 Number"),
    ("lane 0\nbegin\nadd root 18446744073709551616 8", "3 Number"),
    (
        "lane 0\nbegin\nadd root 0 000000000000000000001",
        "3 Number",
    ),
    ("lane 0\nbegin\nwrite root x 00", "3 Number"),
    ("lane 0\nbegin\nread root x 8", "3 Number"),
    ("lane 0\nbegin\nread root 0 0", "3 Number"),
    ("lane 0\nbegin\nread root 0 4097", "3 Number"),
    ("lane 0\nbegin\nread root 0 x", "3 Number"),
];

/// Bytes in bad digits.
const BAD_DIGITS: [(&str, &str); 2] = [
    ("lane 0\nbegin\nwrite root 0 0g", "3 Hex"),
    ("lane 0\nbegin\nwrite root 0 0", "3 Hex"),
];

/// Operands that name no object.
const BAD_OBJECTS: [(&str, &str); 10] = [
    ("lane 0\nbegin root $z", "2 Letter"),
    ("lane 0\nbegin r:$a", "2 Letter"),
    ("lane 0\nbegin r:r:root", "2 Letter"),
    ("lane 0\nbegin w:root", "2 Letter"),
    ("lane 0\nbegin Root", "2 Letter"),
    ("lane 0\nbegin r:", "2 Letter"),
    ("lane 0\nbegin 18446744073709551616", "2 Letter"),
    ("lane 0\nbegin 000000000000000000000", "2 Letter"),
    ("lane 0\nbegin\nadd r:root 0 8", "3 Letter"),
    ("lane 0\nbegin\nread $a 0 8", "3 Letter"),
];

/// Bad lines of the words that stand inside of a transaction and outside.
const BAD_ACTIONS: [(&str, &str); 11] = [
    ("lane 0\nset root 8", "2 Count"),
    ("lane 0\npublish 1", "2 Count"),
    ("lane 0\ncancel x", "2 Count"),
    ("lane 0\nset root x 1", "2 Number"),
    ("lane 0\nset root 8 18446744073709551616", "2 Number"),
    ("lane 0\nset foo 8 -1", "2 Number"),
    ("lane 0\nset foo 8 1", "2 Letter"),
    ("set root 8 1\nlane 0", "1 NoLane"),
    ("publish", "1 NoLane"),
    ("cancel", "1 NoLane"),
    ("lane 0\nbegin\ncancel\npublish", "2 Open"),
];

/// Bad lines that make or free an object.
const BAD_OBJECTS_MADE: [(&str, &str); 17] = [
    ("lane 0\nbegin\nalloc a 64", "3 Count"),
    ("lane 0\nbegin\nfree root 0", "3 Count"),
    ("lane 0\nbegin\nalloc ab x 0", "3 Number"),
    ("lane 0\nbegin\nalloc a 64 18446744073709551616", "3 Number"),
    ("lane 0\nbegin\nalloc ab 64 0", "3 Letter"),
    ("lane 0\nbegin\nalloc A 64 0", "3 Letter"),
    ("lane 0\nbegin\nalloc ` 64 0", "3 Letter"),
    ("lane 0\nbegin\nalloc { 64 0", "3 Letter"),
    ("lane 0\nbegin\nalloc $a 64 0", "3 Letter"),
    ("lane 0\nbegin\nalloc a 64 0\nfree $b", "4 Letter"),
    ("lane 0\nbegin\nfree r:root", "3 Letter"),
    ("alloc a 64 0\nlane 0", "1 NoLane"),
    ("free root", "1 NoLane"),
    ("lane 0\nalloc a 64 0", "2 Outside"),
    ("lane 0\nfree root", "2 Outside"),
    ("lane 0\nbegin\ncommit\nfree root", "4 Outside"),
    ("lane 0\nbegin\nalloc a 64 0\nfree root", "2 Open"),
];

/// Bad lines that reserve an object, write it, or free one later.
const BAD_RESERVED: [(&str, &str); 28] = [
    ("lane 0\nreserve a 64", "2 Count"),
    ("lane 0\nreserve a 64 0 0", "2 Count"),
    ("lane 0\nput root 0", "2 Count"),
    ("lane 0\nput root 0 00 00", "2 Count"),
    ("lane 0\ndefer", "2 Count"),
    ("lane 0\ndefer root 0", "2 Count"),
    ("lane 0\nreserve ab x 0", "2 Number"),
    ("lane 0\nreserve ab 64 18446744073709551616", "2 Number"),
    ("lane 0\nput $a x 0g", "2 Number"),
    ("lane 0\nput root 00 x", "2 Hex"),
    ("lane 0\nput $a 0 0g", "2 Hex"),
    ("lane 0\nput root 0 123", "2 Hex"),
    ("lane 0\nreserve ab 64 0", "2 Letter"),
    ("lane 0\nreserve A 64 0", "2 Letter"),
    ("lane 0\nreserve root 64 0", "2 Letter"),
    ("lane 0\nreserve a 64 0\nreserve $a 64 0", "3 Letter"),
    ("lane 0\nput $a 0 00\nreserve a 64 0", "2 Letter"),
    ("lane 0\nreserve a 64 0\nput a 0 00", "3 Letter"),
    ("lane 0\nreserve a 64 0\nput $b 0 00", "3 Letter"),
    ("lane 0\nreserve a 64 0\nlane 1\nput $a 0 00", "4 Letter"),
    ("lane 0\nput r:root 0 00", "2 Letter"),
    ("lane 0\ndefer $a", "2 Letter"),
    ("lane 0\ndefer Root", "2 Letter"),
    ("reserve a 64 0\nlane 0", "1 NoLane"),
    ("put root 0 00", "1 NoLane"),
    ("defer root", "1 NoLane"),
    ("lane 0\nreserve a 64 0\nwrite $a 0 00", "3 Outside"),
    (
        "lane 0\nbegin\nreserve a 64 0\nput $a 0 00\ndefer $a",
        "2 Open",
    ),
];

/// Letters that no line of the lane has bound, and what is no letter.
const UNBOUND: [(&str, &str); 13] = [
    ("lane 0\nbegin\nfree $a\nalloc a 64 0", "3 Letter"),
    (
        "lane 0\nbegin\nalloc a 64 0\nlane 1\nbegin $a\ncommit",
        "5 Letter",
    ),
    (
        "lane 0\nbegin\nalloc a 64 0\ncommit\nlane 1\nset $a 0 1",
        "6 Letter",
    ),
    ("lane 0\nbegin\nalloc a 64 0\nalloc $a 64 0", "4 Letter"),
    ("lane 0\nbegin\nalloc a 64 0\nfree $", "4 Letter"),
    ("lane 0\nbegin\nalloc a 64 0\nfree a", "4 Letter"),
    ("lane 0\nbegin\nalloc a 64 0\nfree $A", "4 Letter"),
    ("lane 0\nbegin\nalloc a 64 0\nfree $aa", "4 Letter"),
    ("lane 0\nbegin\nalloc a 64 0\nfree $3", "4 Letter"),
    ("lane 0\nbegin\nalloc a 64 0\nfree $$a", "4 Letter"),
    ("lane 0\nbegin\nalloc a 64 0\nfree r:$a", "4 Letter"),
    (
        "lane 0\nbegin\nalloc a 64 0\ncommit\nbegin r:$b\ncommit",
        "5 Letter",
    ),
    (
        "lane 0\nbegin\nalloc a 64 0\ncommit\nadd $a 0 8",
        "5 Outside",
    ),
];

/// Bad lines of transactions that publish, and make or free objects.
const MIXED: [(&str, &str); 6] = [
    ("lane 0\nbegin\npublish\nalloc a x 0", "4 Number"),
    ("lane 0\nbegin\npublish\nfree $a", "4 Letter"),
    ("lane 0\nbegin\nalloc a 64 0\npublish 1", "4 Count"),
    ("lane 0\nbegin\npublish\nlane 1\nfree root", "5 Outside"),
    (
        "lane 0\nbegin\nalloc a 64 0\npublish\nroot_size",
        "5 Inside",
    ),
    ("lane 0\nbegin\npublish\nalloc a 64 0", "2 Open"),
];

/// Two reasons in one line.
const TWO_REASONS: [(&str, &str); 11] = [
    ("frob\u{7f}", "1 Text"),
    ("add x y", "1 Count"),
    ("add $a x 8", "1 Number"),
    ("write $a x 0g", "1 Number"),
    ("write $a 0 0g", "1 Hex"),
    ("write $a 0 00", "1 Letter"),
    ("read $a 0 0", "1 Number"),
    ("begin $a", "1 Letter"),
    ("commit", "1 NoLane"),
    ("lane 0\nbegin\nbegin $a", "3 Letter"),
    ("lane 0\nadd root 0", "2 Count"),
];

/// Two bad lines.
const TWO_BAD_LINES: [(&str, &str); 3] = [
    ("lane 0\nbegin root\nfrob\nlane 32", "3 Word"),
    ("lane 0\nbegin root\nusable root\nfrob", "3 Inside"),
    ("lane 0\nbegin root\n\nadd $a 0 8", "4 Letter"),
];

/// In transactions and out of them.
const PLACES: [(&str, &str); 5] = [
    ("lane 0\nbegin\ncommit\ncommit", "4 Outside"),
    ("lane 0\nbegin\ncommit\nwrite root 0 00", "4 Outside"),
    ("lane 0\nread root 0 8\nbegin\ncommit", "2 Outside"),
    ("lane 0\nbegin\nlane 1\nadd root 0 8", "4 Outside"),
    (
        "lane 0\nbegin\nlane 1\nbegin\nlane 0\ntype root",
        "6 Inside",
    ),
];

/// Each word of a transaction, once right and once wrong in each way.
const INSIDE: [(&str, &str); 23] = [
    ("lane 0\nbegin\nlock", "3 Count"),
    ("lane 0\nbegin\nlock root root", "3 Count"),
    ("lane 0\nbegin\nlock r:root", "3 Letter"),
    ("lane 0\nbegin\nlock $a", "3 Letter"),
    ("lock root", "1 NoLane"),
    ("lane 0\nlock root", "2 Outside"),
    ("lane 0\nbegin\nlockr", "3 Count"),
    ("lane 0\nbegin\nlockr null", "3 Letter"),
    ("lane 0\nlockr root", "2 Outside"),
    ("lane 0\nbegin\ninc root 8", "3 Count"),
    ("lane 0\nbegin\ninc root x 1", "3 Number"),
    ("lane 0\nbegin\ninc root 8 18446744073709551616", "3 Number"),
    ("lane 0\nbegin\ninc Root 8 1", "3 Letter"),
    ("lane 0\ninc root 8 1", "2 Outside"),
    ("lane 0\nbegin\nabort", "3 Count"),
    ("lane 0\nbegin\nabort 5 6", "3 Count"),
    ("lane 0\nbegin\nabort x", "3 Number"),
    ("lane 0\nbegin\nabort 4294967296", "3 Number"),
    ("lane 0\nbegin\nabort 18446744073709551616", "3 Number"),
    ("abort 1", "1 NoLane"),
    ("lane 0\nabort 1", "2 Outside"),
    ("lane 0\nbegin\nabort 1\nabort 1", "4 Outside"),
    (
        "lane 0\nbegin\nlock root\nlockr root\ninc root 0 1",
        "2 Open",
    ),
];

/// Each word of a call outside of transactions, wrong in each way: the atomic calls and the questions.
const OUTSIDE: [(&str, &str); 33] = [
    ("lane 0\nalloc_to a root 8 64", "2 Count"),
    ("lane 0\nalloc_to a root 8 64 7 7", "2 Count"),
    ("lane 0\nalloc_to a root x 64 7", "2 Number"),
    ("lane 0\nalloc_to a root 8 x 7", "2 Number"),
    ("lane 0\nalloc_to a root 8 64 x", "2 Number"),
    ("lane 0\nalloc_to ab root 8 64 7", "2 Letter"),
    ("lane 0\nalloc_to a $a 8 64 7", "2 Letter"),
    ("alloc_to a root 8 64 7", "1 NoLane"),
    ("lane 0\nbegin\nalloc_to a root 8 64 7", "3 Inside"),
    ("lane 0\nrealloc_at a root 8 64", "2 Count"),
    ("lane 0\nrealloc_at a root -8 64 7", "2 Number"),
    ("lane 0\nrealloc_at $a root 8 64 7", "2 Letter"),
    ("lane 0\nrealloc_at a null 8 64 7", "2 Letter"),
    ("lane 0\nbegin\nrealloc_at a root 8 64 7", "3 Inside"),
    ("lane 0\nfree_at root", "2 Count"),
    ("lane 0\nfree_at root x", "2 Number"),
    ("lane 0\nfree_at x 8", "2 Letter"),
    ("free_at root 8", "1 NoLane"),
    ("lane 0\nbegin\nfree_at root 8", "3 Inside"),
    ("lane 0\nusable", "2 Count"),
    ("lane 0\nusable before", "2 Letter"),
    ("lane 0\nbegin\nusable root", "3 Inside"),
    ("lane 0\ntype root root", "2 Count"),
    ("lane 0\ntype $a", "2 Letter"),
    ("lane 0\nbegin\ntype root", "3 Inside"),
    ("lane 0\nroot", "2 Count"),
    ("lane 0\nroot 64 0", "2 Count"),
    ("lane 0\nroot x", "2 Number"),
    ("root 64", "1 NoLane"),
    ("lane 0\nbegin\nroot 64", "3 Inside"),
    ("lane 0\nroot_size root", "2 Count"),
    ("root_size", "1 NoLane"),
    ("lane 0\nbegin\nroot_size", "3 Inside"),
];

/// The same of the list calls.
const LISTS: [(&str, &str); 31] = [
    ("lane 0\ninsert root before null", "2 Count"),
    ("lane 0\ninsert root before null 16512 16512", "2 Count"),
    ("lane 0\ninsert $a before null 16512", "2 Letter"),
    ("lane 0\ninsert root Before null 16512", "2 Letter"),
    ("lane 0\ninsert root 16512 before null", "2 Letter"),
    ("lane 0\ninsert root before Null 16512", "2 Letter"),
    ("lane 0\ninsert root before null null", "2 Letter"),
    ("lane 0\ninsert root after $a 16512", "2 Letter"),
    ("insert root before null 16512", "1 NoLane"),
    ("lane 0\nbegin\ninsert root before null 16512", "3 Inside"),
    ("lane 0\ninsert_new a root before null 64", "2 Count"),
    ("lane 0\ninsert_new a root before null x 7", "2 Number"),
    ("lane 0\ninsert_new a root between null 64 x", "2 Number"),
    ("lane 0\ninsert_new 1 root before null 64 7", "2 Letter"),
    ("lane 0\ninsert_new a null before null 64 7", "2 Letter"),
    ("lane 0\ninsert_new a root null before 64 7", "2 Letter"),
    ("lane 0\ninsert_new a root before $a 64 7", "2 Letter"),
    (
        "lane 0\nbegin\ninsert_new a root before null 64 7",
        "3 Inside",
    ),
    ("lane 0\nremove root", "2 Count"),
    ("lane 0\nremove root null", "2 Letter"),
    ("lane 0\nbegin\nremove root 16512", "3 Inside"),
    ("lane 0\nremove_free root 16512 0", "2 Count"),
    ("lane 0\nremove_free $a root", "2 Letter"),
    ("lane 0\nbegin\nremove_free root 16512", "3 Inside"),
    ("lane 0\nmove root root after null", "2 Count"),
    ("lane 0\nmove root null after null 16512", "2 Letter"),
    ("lane 0\nmove root root after null", "2 Count"),
    ("lane 0\nmove root root aft null 16512", "2 Letter"),
    ("lane 0\nbegin\nmove root root after null 16512", "3 Inside"),
    ("lane 0\nmembers", "2 Count"),
    ("lane 0\nbegin\nmembers root", "3 Inside"),
];

/// Transactions that are never closed, and those whose inner levels are not.
const LEFT_OPEN: [(&str, &str); 10] = [
    ("lane 0\nbegin\nbegin\n", "2 Open"),
    ("lane 0\nbegin\nbegin\nbegin\ncommit\nabort 1", "2 Open"),
    (
        "lane 0\nbegin\nbegin\ncommit\ncommit\nbegin\nbegin\ncommit",
        "6 Open",
    ),
    (
        "lane 0\nbegin\nlane 1\nbegin\nbegin\nlane 0\ncommit\nlane 1\ncommit",
        "4 Open",
    ),
    (
        "lane 1\nbegin\nlane 0\nbegin\nlane 1\nbegin\ncommit",
        "2 Open",
    ),
    ("lane 0\nbegin\nbegin\ncommit\nusable root", "5 Inside"),
    ("lane 0\nbegin\nbegin\ncommit\ncommit\ncommit", "6 Outside"),
    ("lane 1\nbegin\nlane 0\n\nbegin\n", "2 Open"),
    ("lane 1\nbegin\nlane 0\nbegin\nlane 1\ncommit", "4 Open"),
    ("lane 1\nbegin\ncommit\n#\nbegin\nlane 0", "5 Open"),
];

/// Compares the first bad line of each text of a table.
fn all_tell(rt: &impl Abort, alloc: Global, table: &[(&str, &str)]) -> Result<(), Fail> {
    for (text, fault) in table {
        let wanted = format!(in alloc; "bad script line {fault}")?;
        tells(rt, alloc, text, wanted.as_str())?;
    }
    Ok(())
}

#[test]
fn bad_lines(rt: HostRuntime) -> Result<(), Fail> {
    let tables: [&[(&str, &str)]; 19] = [
        &REASONS,
        &BAD_BYTES,
        &BAD_WORDS,
        &BAD_COUNTS,
        &BAD_NUMBERS,
        &BAD_DIGITS,
        &BAD_OBJECTS,
        &BAD_ACTIONS,
        &BAD_OBJECTS_MADE,
        &BAD_RESERVED,
        &UNBOUND,
        &MIXED,
        &TWO_REASONS,
        &TWO_BAD_LINES,
        &PLACES,
        &INSIDE,
        &OUTSIDE,
        &LISTS,
        &LEFT_OPEN,
    ];
    for table in tables {
        all_tell(&rt, rt.alloc(), table)?;
    }
    let told = told(rt.alloc(), &[b'#', 0xFF])?;
    assert!(rt; told.as_str() == "bad script line 1 Text");
    Ok(())
}
