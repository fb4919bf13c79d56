//! Texts that are scripts.

use super::spelled::tells;
use std::test::Fail;

/// Texts that are scripts, and what they say.
const SCRIPTS: [(&str, &str); 28] = [
    // nothing is said
    ("", "1 lanes;"),
    ("# nothing\n\n", "1 lanes;"),
    ("lane 0", "1 lanes;"),
    ("\n\nlane 4\n", "5 lanes;"),
    // one transaction, in each form of operand
    (
        "lane 0\nbegin root\nadd root 0 8\nwrite root 0 0102030405060708\nread root 0 8\ncommit\n",
        "1 lanes; 2 0 begin root; 3 0 add root 0 8; 4 0 write root 0 0102030405060708; 5 0 read root 0 8; 6 0 commit;",
    ),
    (
        "lane 0\nbegin 16512 r:root r:16640 root\nread 16640 7 4096\nadd 16512 18446744073709551615 00000000000000000001\nwrite 16512 63 fF\ncommit",
        "1 lanes; 2 0 begin 16512 r:root r:16640 root; 3 0 read 16640 7 4096; 4 0 add 16512 18446744073709551615 1; 5 0 write 16512 63 ff; 6 0 commit;",
    ),
    ("lane 0\nbegin\ncommit", "1 lanes; 2 0 begin; 3 0 commit;"),
    (
        "lane 0\nbegin root root r:root\ncommit",
        "1 lanes; 2 0 begin root root r:root; 3 0 commit;",
    ),
    // skipped lines count, and spaces do not
    (
        "# a story\n\nlane 0\n  #inside\nbegin root\n   \ncommit\n\n# the end",
        "1 lanes; 5 0 begin root; 7 0 commit;",
    ),
    (
        "  lane   0 \n begin  root\nadd root   007 8  \n  commit  ",
        "1 lanes; 2 0 begin root; 3 0 add root 7 8; 4 0 commit;",
    ),
    (
        "lane 00\nbegin 0000016512\ncommit",
        "1 lanes; 2 0 begin 16512; 3 0 commit;",
    ),
    // one transaction after another
    (
        "lane 0\nbegin\ncommit\nbegin root\ncommit",
        "1 lanes; 2 0 begin; 3 0 commit; 4 0 begin root; 5 0 commit;",
    ),
    // lanes, and a lane that comes again
    (
        "lane 31\nbegin root\ncommit",
        "32 lanes; 2 31 begin root; 3 31 commit;",
    ),
    (
        "lane 1\nlane 7\nlane 0\nbegin\ncommit",
        "8 lanes; 4 0 begin; 5 0 commit;",
    ),
    (
        "lane 0\nbegin root\nlane 1\nbegin 16512\nlane 0\nadd root 0 8\nlane 0\nwrite root 0 01\nlane 1\ncommit\nlane 0\ncommit\n",
        "2 lanes; 2 0 begin root; 4 1 begin 16512; 6 0 add root 0 8; 8 0 write root 0 01; 10 1 commit; 12 0 commit;",
    ),
    // words that stand inside of a transaction and outside
    (
        "lane 0\nset root 8 18446744073709551615\npublish\nbegin root\nset 16512 0 007\npublish\ncancel\ncommit\ncancel\n",
        "1 lanes; 2 0 set root 8 18446744073709551615; 3 0 publish; 4 0 begin root; 5 0 set 16512 0 7; 6 0 publish; 7 0 cancel; 8 0 commit; 9 0 cancel;",
    ),
    (
        "lane 1\nbegin\nlane 0\nset root 3 0\nlane 1\ncommit\n",
        "2 lanes; 2 1 begin; 4 0 set root 3 0; 6 1 commit;",
    ),
    // objects that are made and freed, and a letter that comes again
    (
        "lane 0\nbegin root\nalloc a 64 7\nfree 16512\nset root 8 1\nalloc z 0 18446744073709551615\nfree root\nalloc a 007 0\ncancel\ncommit\n",
        "1 lanes; 2 0 begin root; 3 0 alloc a 64 7; 4 0 free 16512; 5 0 set root 8 1; 6 0 alloc z 0 18446744073709551615; 7 0 free root; 8 0 alloc a 7 0; 9 0 cancel; 10 0 commit;",
    ),
    // letters, each in the place of an ID: `$` and the line that bound it last
    (
        "lane 0\nbegin\nalloc a 64 7\nadd $a 0 8\nwrite $a 0 ff\nread $a 0 8\nset $a 8 1\nfree $a\ncommit\nset $a 0 1\nbegin $a r:$a root\ncommit\n",
        "1 lanes; 2 0 begin; 3 0 alloc a 64 7; 4 0 add $3 0 8; 5 0 write $3 0 ff; 6 0 read $3 0 8; 7 0 set $3 8 1; 8 0 free $3; 9 0 commit; 10 0 set $3 0 1; 11 0 begin $3 r:$3 root; 12 0 commit;",
    ),
    (
        "lane 0\nbegin\nalloc a 64 0\nalloc z 64 0\nfree $a\nalloc a 64 0\nfree $z\nfree $a\nalloc a 8 0\ncommit\nbegin $a $z\ncommit",
        "1 lanes; 2 0 begin; 3 0 alloc a 64 0; 4 0 alloc z 64 0; 5 0 free $3; 6 0 alloc a 64 0; 7 0 free $4; 8 0 free $6; 9 0 alloc a 8 0; 10 0 commit; 11 0 begin $9 $4; 12 0 commit;",
    ),
    // a lane has its own letters
    (
        "lane 0\nbegin\nalloc a 64 0\nlane 1\nbegin\nalloc a 64 0\nfree $a\ncommit\nlane 0\nfree $a\ncommit\n",
        "2 lanes; 2 0 begin; 3 0 alloc a 64 0; 5 1 begin; 6 1 alloc a 64 0; 7 1 free $6; 8 1 commit; 10 0 free $3; 11 0 commit;",
    ),
    (
        "lane 1\nbegin\nalloc b 64 0\nlane 0\nbegin\nalloc b 64 0\nlane 1\nalloc b 64 0\nlane 0\nfree $b\ncommit\nlane 1\nread $b 0 8\ncommit\n",
        "2 lanes; 2 1 begin; 3 1 alloc b 64 0; 5 0 begin; 6 0 alloc b 64 0; 8 1 alloc b 64 0; 10 0 free $6; 11 0 commit; 13 1 read $8 0 8; 14 1 commit;",
    ),
    // a transaction publishes, and makes or frees objects, in any order
    (
        "lane 0\nbegin\nalloc a 64 0\npublish\ncommit",
        "1 lanes; 2 0 begin; 3 0 alloc a 64 0; 4 0 publish; 5 0 commit;",
    ),
    (
        "lane 0\nbegin\nfree root\ncancel\npublish\ncommit",
        "1 lanes; 2 0 begin; 3 0 free root; 4 0 cancel; 5 0 publish; 6 0 commit;",
    ),
    (
        "lane 0\nbegin\npublish\nalloc a 64 0\nset $a 0 42\npublish\nfree $a\ncommit",
        "1 lanes; 2 0 begin; 3 0 publish; 4 0 alloc a 64 0; 5 0 set $4 0 42; 6 0 publish; 7 0 free $4; 8 0 commit;",
    ),
    (
        "lane 0\nbegin\nset root 8 1\npublish\ncancel\nfree root\ncommit",
        "1 lanes; 2 0 begin; 3 0 set root 8 1; 4 0 publish; 5 0 cancel; 6 0 free root; 7 0 commit;",
    ),
    (
        "lane 0\nbegin\nalloc a 64 0\nlane 1\nbegin\npublish\nlane 0\npublish\ncommit\nlane 1\ncommit",
        "2 lanes; 2 0 begin; 3 0 alloc a 64 0; 5 1 begin; 6 1 publish; 8 0 publish; 9 0 commit; 11 1 commit;",
    ),
    // one lane publishes while another makes an object, and later publishes too
    (
        "lane 0\nbegin\nalloc a 64 0\nlane 1\nbegin\npublish\nlane 0\nfree 16512\ncommit\npublish\nbegin\npublish\ncommit\nlane 1\npublish\ncommit\n",
        "2 lanes; 2 0 begin; 3 0 alloc a 64 0; 5 1 begin; 6 1 publish; 8 0 free 16512; 9 0 commit; 10 0 publish; 11 0 begin; 12 0 publish; 13 0 commit; 15 1 publish; 16 1 commit;",
    ),
];

/// Lines that reserve objects, write them and free objects later, in transactions and outside, and what they say.
const RESERVED: [(&str, &str); 8] = [
    (
        "lane 0\nreserve a 64 7\nput 16512 8 0102fF\ndefer root\npublish\n",
        "1 lanes; 2 0 reserve a 64 7; 3 0 put 16512 8 0102ff; 4 0 defer root; 5 0 publish;",
    ),
    (
        "lane 0\nbegin\nreserve z 0 18446744073709551615\nput root 007 00\ndefer 0016512\npublish\ncommit\n",
        "1 lanes; 2 0 begin; 3 0 reserve z 0 18446744073709551615; 4 0 put root 7 00; 5 0 defer 16512; 6 0 publish; 7 0 commit;",
    ),
    // a letter that a reserve binds is an ID of the lane's later lines, in a transaction and outside
    (
        "lane 0\nreserve x 64 7\nput $x 0 ff\nset $x 8 1\ndefer $x\nbegin r:$x\nput $x 1 ff\nread $x 0 8\ncommit\ncancel\n",
        "1 lanes; 2 0 reserve x 64 7; 3 0 put $2 0 ff; 4 0 set $2 8 1; 5 0 defer $2; 6 0 begin r:$2; 7 0 put $2 1 ff; 8 0 read $2 0 8; 9 0 commit; 10 0 cancel;",
    ),
    (
        "lane 0\nbegin\nreserve x 64 7\nput $x 0 ff\ncommit\nput $x 0 fe\ndefer $x\n",
        "1 lanes; 2 0 begin; 3 0 reserve x 64 7; 4 0 put $3 0 ff; 5 0 commit; 6 0 put $3 0 fe; 7 0 defer $3;",
    ),
    // an alloc and a reserve bind the same letters, and the last one counts
    (
        "lane 0\nbegin\nalloc x 64 0\nreserve x 128 0\nfree $x\nalloc x 8 0\ndefer $x\ncommit\n",
        "1 lanes; 2 0 begin; 3 0 alloc x 64 0; 4 0 reserve x 128 0; 5 0 free $4; 6 0 alloc x 8 0; 7 0 defer $6; 8 0 commit;",
    ),
    (
        "lane 0\nreserve a 64 0\nreserve b 64 0\nreserve a 64 0\ndefer $a\ndefer $b",
        "1 lanes; 2 0 reserve a 64 0; 3 0 reserve b 64 0; 4 0 reserve a 64 0; 5 0 defer $4; 6 0 defer $3;",
    ),
    // each lane has its own
    (
        "lane 0\nreserve a 64 0\nlane 1\nbegin\nreserve a 8 0\nlane 0\nput $a 0 00\nlane 1\nput $a 0 01\ncommit",
        "2 lanes; 2 0 reserve a 64 0; 4 1 begin; 5 1 reserve a 8 0; 7 0 put $2 0 00; 9 1 put $5 0 01; 10 1 commit;",
    ),
    // an object may come again
    (
        "lane 0\ndefer root\ndefer root\ncancel",
        "1 lanes; 2 0 defer root; 3 0 defer root; 4 0 cancel;",
    ),
];

/// Levels of transactions, their locks and numbers, and calls outside of them, and what they say.
const CALLS: [(&str, &str); 12] = [
    (
        "lane 0\nbegin root\nlock 16512\nlockr root\ninc 16512 8 18446744073709551615\nabort 4294967295\n",
        "1 lanes; 2 0 begin root; 3 0 lock 16512; 4 0 lockr root; 5 0 inc 16512 8 18446744073709551615; 6 0 abort 4294967295;",
    ),
    // a level in a level: each commit and each abort closes the innermost
    (
        "lane 0\nbegin root\nbegin\nbegin r:root\ncommit\nadd root 0 8\ncommit\nbegin\nabort 0\ncommit\nroot_size",
        "1 lanes; 2 0 begin root; 3 0 begin; 4 0 begin r:root; 5 0 commit; 6 0 add root 0 8; 7 0 commit; 8 0 begin; 9 0 abort 0; 10 0 commit; 11 0 root_size;",
    ),
    (
        "lane 0\nbegin\nbegin\nlane 1\nusable root\nbegin\nlane 0\ncommit\nlane 1\ncommit\ntype root\nlane 0\ninc root 0 1\nabort 7\nusable root",
        "2 lanes; 2 0 begin; 3 0 begin; 5 1 usable root; 6 1 begin; 8 0 commit; 10 1 commit; 11 1 type root; 13 0 inc root 0 1; 14 0 abort 7; 15 0 usable root;",
    ),
    // atomic calls
    (
        "lane 0\nalloc_to a root 8 64 7\nrealloc_at b $a 016 0 18446744073709551615\nfree_at 16512 24\n",
        "1 lanes; 2 0 alloc_to a root 8 64 7; 3 0 realloc_at b $2 16 0 18446744073709551615; 4 0 free_at 16512 24;",
    ),
    (
        "lane 0\nusable root\nusable 16512\ntype root\ntype 0016512\nroot 64\nroot 18446744073709551615\nroot_size\n",
        "1 lanes; 2 0 usable root; 3 0 usable 16512; 4 0 type root; 5 0 type 16512; 6 0 root 64; 7 0 root 18446744073709551615; 8 0 root_size;",
    ),
    // list calls
    (
        "lane 0\ninsert root before null 16512\ninsert 16640 after root 16512\ninsert root after null root\n",
        "1 lanes; 2 0 insert root before null 16512; 3 0 insert 16640 after root 16512; 4 0 insert root after null root;",
    ),
    (
        "lane 0\ninsert_new m root after null 64 7\ninsert_new n root before $m 8 0\ninsert root before $m $n\nmembers root\n",
        "1 lanes; 2 0 insert_new m root after null 64 7; 3 0 insert_new n root before $2 8 0; 4 0 insert root before $2 $3; 5 0 members root;",
    ),
    (
        "lane 0\nremove root 16512\nremove_free 16640 16512\nmove root 16640 before null 16512\nmove 16640 root after 16512 16768\nmembers 16640",
        "1 lanes; 2 0 remove root 16512; 3 0 remove_free 16640 16512; 4 0 move root 16640 before null 16512; 5 0 move 16640 root after 16512 16768; 6 0 members 16640;",
    ),
    // each call that gives an offset binds its letter, and the last one counts
    (
        "lane 0\nalloc_to a root 0 64 0\nusable $a\nrealloc_at a root 0 128 0\nusable $a\ninsert_new a root after null 64 0\nusable $a\nreserve a 64 0\nusable $a\nbegin\nalloc a 64 0\ncommit\nusable $a",
        "1 lanes; 2 0 alloc_to a root 0 64 0; 3 0 usable $2; 4 0 realloc_at a root 0 128 0; 5 0 usable $4; 6 0 insert_new a root after null 64 0; 7 0 usable $6; 8 0 reserve a 64 0; 9 0 usable $8; 10 0 begin; 11 0 alloc a 64 0; 12 0 commit; 13 0 usable $11;",
    ),
    (
        "lane 0\nalloc_to a root 0 64 0\nlane 1\nalloc_to a root 0 64 0\nremove root $a\nlane 0\nmove root $a after $a root",
        "2 lanes; 2 0 alloc_to a root 0 64 0; 4 1 alloc_to a root 0 64 0; 5 1 remove root $4; 7 0 move root $2 after $2 root;",
    ),
    // one letter in each place of an ID
    (
        "lane 0\nreserve a 64 0\nalloc_to b $a 8 64 7\nrealloc_at b $a 8 64 7\nfree_at $a 8\ntype $a\ninsert $a before $a $a\ninsert_new c $a before $a 64 7\nremove $a $a\nremove_free $a $a\nmove $a $a after $a $a\nmembers $a",
        "1 lanes; 2 0 reserve a 64 0; 3 0 alloc_to b $2 8 64 7; 4 0 realloc_at b $2 8 64 7; 5 0 free_at $2 8; 6 0 type $2; 7 0 insert $2 before $2 $2; 8 0 insert_new c $2 before $2 64 7; 9 0 remove $2 $2; 10 0 remove_free $2 $2; 11 0 move $2 $2 after $2 $2; 12 0 members $2;",
    ),
    (
        "lane 0\nreserve a 64 0\nbegin\nlock $a\nlockr $a\ninc $a 0 1\nabort 1",
        "1 lanes; 2 0 reserve a 64 0; 3 0 begin; 4 0 lock $2; 5 0 lockr $2; 6 0 inc $2 0 1; 7 0 abort 1;",
    ),
];

#[test]
fn scripts(rt: HostRuntime) -> Result<(), Fail> {
    for (text, wanted) in SCRIPTS {
        tells(&rt, rt.alloc(), text, wanted)?;
    }
    for (text, wanted) in RESERVED {
        tells(&rt, rt.alloc(), text, wanted)?;
    }
    for (text, wanted) in CALLS {
        tells(&rt, rt.alloc(), text, wanted)?;
    }
    Ok(())
}
