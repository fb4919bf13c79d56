use super::*;
use pm_objects::{Call, Entry, Fate, Object, PoolView, Refusal, Reply, Sequence, TxErr, Value};
use pm_shelf::{FailingSink, ListSink, SinkFault};
use std::alloc::{AllocError, Global};
use std::test::Fail;

fn object(alloc: Global, kind: u64, bytes: &[u8], members: &[u64]) -> Result<Object, AllocError> {
    let bytes = Vec::from_slice(alloc, bytes)?;
    let members = Vec::from_slice(alloc, members)?;
    Ok(Object {
        kind,
        bytes: Sequence::from_vec(bytes),
        members: Sequence::from_vec(members),
    })
}

fn pool(
    alloc: Global,
    root: Option<u64>,
    objects: Vec<(u64, Object)>,
) -> Result<PoolView, AllocError> {
    Ok(PoolView {
        id: 7,
        name: Sequence::from_vec(Vec::from_slice(alloc, b"notes")?),
        lanes: 1,
        zones: 1,
        objects: Sequence::from_vec(objects),
        root,
    })
}

/// So many bytes: these at their place, and zeros around them.
fn bytes_with(alloc: Global, size: usize, at: usize, others: &[u8]) -> Result<Vec<u8>, AllocError> {
    let mut bytes = vec![in alloc; 0u8; at]?;
    bytes.extend_from_slice(others)?;
    bytes.resize(size, 0)?;
    Ok(bytes)
}

#[test]
fn a_pool_without_a_root(rt: HostRuntime) -> Result<(), Fail> {
    let empty = pool(rt.alloc(), None, vec![in rt.alloc()]?)?;
    let text = dump_text(rt.alloc(), &empty)?;
    assert_eq!(rt; text.as_slice(), b"root none\n".as_slice());
    Ok(())
}

/// A root at 16512 of so many bytes, all 0 but for some at a place, and the lines that its bytes make.
#[test]
fn data_of_a_root(rt: HostRuntime) -> Result<(), Fail> {
    for (size, at, others, data) in [
        (64, 0, b"".as_slice(), ""),
        (
            64,
            0,
            b"\x01\x02\x03\x04\x05\x06\x07\x08".as_slice(),
            "data 0 01020304050607080000000000000000\n",
        ),
        (
            64,
            63,
            b"\xff".as_slice(),
            "data 48 000000000000000000000000000000ff\n",
        ),
        (
            20,
            15,
            b"\x9a\xa9\xf0\x0f\x10".as_slice(),
            "data 0 0000000000000000000000000000009a\ndata 16 a9f00f10\n",
        ),
        (17, 15, b"\x00\x0a".as_slice(), "data 16 0a\n"),
    ] {
        let bytes = bytes_with(rt.alloc(), size, at, others)?;
        let root = object(rt.alloc(), 0, bytes.as_slice(), &[])?;
        let view = pool(rt.alloc(), Some(16512), vec![in rt.alloc(); (16512, root)]?)?;
        let text = dump_text(rt.alloc(), &view)?;
        let want = format!(in rt.alloc(); "root 16512\nobject 16512 type 0 size {size}\n{data}")?;
        assert_eq!(rt;
            text.as_slice(),
            want.as_bytes(),
            "{size} bytes, from {at} on"
        );
    }
    Ok(())
}

#[test]
fn objects_with_types_and_members(rt: HostRuntime) -> Result<(), Fail> {
    let list = object(rt.alloc(), 3, &[0], &[16640, 16768])?;
    let member = object(rt.alloc(), u64::MAX, &[0xde, 0xad], &[])?;
    let view = pool(
        rt.alloc(),
        Some(16512),
        vec![in rt.alloc(); (16512, list), (16640, member)]?,
    )?;
    let text = dump_text(rt.alloc(), &view)?;
    assert_eq!(rt;
        text.as_slice(),
        concat!(
            "root 16512\n",
            "object 16512 type 3 size 1\n",
            "members 16640 16768\n",
            "object 16640 type 18446744073709551615 size 2\n",
            "data 0 dead\n",
        )
        .as_bytes()
    );
    Ok(())
}

#[test]
fn a_sink_gets_the_text(rt: HostRuntime) -> Result<(), Fail> {
    for text in ["", "\n", "one line\n", "one\ntwo\n\nno end"] {
        let mut sink = ListSink::new(rt.alloc());
        let answer = put_lines(text.as_bytes(), &mut sink);
        assert!(rt;
            answer == Ok(()) && sink.bytes() == text.as_bytes(),
            "{text}"
        );
    }
    Ok(())
}

/// Whether the text's lines are put so where the put of this number fails, and the answer tells the fault or none.
fn are_put(alloc: Global, text: &str, failing: u64, put: &str, fails: bool) -> Result<bool, Fail> {
    let mut sink = FailingSink::new(alloc, vec![in alloc; failing]?);
    let answer = put_lines(text.as_bytes(), &mut sink);
    let wanted = if fails {
        Err(SinkFault::Failed)
    } else {
        Ok(())
    };
    Ok(answer == wanted && sink.bytes() == put.as_bytes())
}

/// A text, the put that fails, what is put then, and whether that put came: each put is one line, and an empty text has none.
#[test]
fn each_put_is_one_line(rt: HostRuntime) -> Result<(), Fail> {
    for (text, failing, put, fails) in [
        ("one\ntwo\nthree\n", 0, "", true),
        ("one\ntwo\nthree\n", 1, "one\n", true),
        ("one\ntwo\nthree\n", 2, "one\ntwo\n", true),
        ("one\ntwo\nthree\n", 3, "one\ntwo\nthree\n", false),
        ("", 0, "", false),
    ] {
        assert!(rt;
            are_put(rt.alloc(), text, failing, put, fails)?,
            "put {failing} fails"
        );
    }
    Ok(())
}

/// An entry of lane 0 with these lines, of which `root` stood for an offset, if so.
fn entry(
    alloc: Global,
    number: u64,
    root: Option<u64>,
    fate: Fate,
    values: Vec<(u64, Value)>,
) -> Result<Entry, AllocError> {
    Ok(Entry {
        number,
        call: Call {
            lane: 0,
            first: 2,
            last: 5,
            root,
            operations: Sequence::from_vec(Vec::new(alloc)),
        },
        reply: Reply {
            values: Sequence::from_vec(values),
            at: 4,
        },
        fate,
    })
}

/// The entries' text, one behind the other, and no lanes.
fn line(alloc: Global, entry: Entry) -> Result<Vec<u8>, AllocError> {
    report_text(alloc, &[entry], &[])
}

#[test]
fn fates_in_a_report(rt: HostRuntime) -> Result<(), Fail> {
    let alloc = rt.alloc();
    let refused = TxErr::Refused(Refusal::OutOfRange);
    let cases: [(Option<u64>, Fate, &[u8]); 8] = [
        (
            Some(16512),
            Fate::Done,
            b"1 lane 0 lines 2-5 done root=16512\n",
        ),
        (
            Some(16512),
            Fate::Kept,
            b"1 lane 0 lines 2-5 kept root=16512\n",
        ),
        (Some(16512), Fate::Lost, b"1 lane 0 lines 2-5 lost\n"),
        (None, Fate::Done, b"1 lane 0 lines 2-5 done\n"),
        (
            Some(0),
            Fate::Aborted(refused),
            b"1 lane 0 lines 2-5 aborted OutOfRange at 4 root=0\n",
        ),
        (
            None,
            Fate::Aborted(TxErr::Canceled),
            b"1 lane 0 lines 2-5 aborted ECANCELED at 4\n",
        ),
        (
            None,
            Fate::Aborted(TxErr::User(12)),
            b"1 lane 0 lines 2-5 aborted 12 at 4\n",
        ),
        (
            None,
            Fate::Refused(Refusal::Short(3)),
            b"1 lane 0 lines 2-5 refused Short 3\n",
        ),
    ];
    for (root, fate, wanted) in cases.iter() {
        let text = line(alloc, entry(alloc, 1, *root, *fate, Vec::new(alloc))?)?;
        assert_eq!(rt; text.as_slice(), *wanted);
    }
    Ok(())
}

#[test]
fn values_and_ends_in_a_report(rt: HostRuntime) -> Result<(), Fail> {
    let alloc = rt.alloc();
    let mut values = Vec::new(alloc);
    values.push((3, Value::Offset(16640)))?;
    values.push((4, Value::Number(7)))?;
    values.push((
        5,
        Value::Bytes(Sequence::from_vec(Vec::from_slice(alloc, &[1, 0xaf])?)),
    ))?;
    values.push((
        6,
        Value::Members(Sequence::from_vec(Vec::from_slice(alloc, &[8, 16])?)),
    ))?;
    values.push((7, Value::Members(Sequence::from_vec(Vec::new(alloc)))))?;
    values.push((8, Value::Refused(Refusal::Listed)))?;
    let entries = [entry(alloc, 12, None, Fate::Done, values)?];
    let ends = [LaneEnd::Ended, LaneEnd::Stopped(14), LaneEnd::Spent(2)];
    let text = report_text(alloc, &entries, &ends)?;
    let wanted: &[u8] =
        b"12 lane 0 lines 2-5 done 3=16640 4=7 5=01af 6=8,16 7=none 8=Listed\nlane 0 ended\nlane 1 stopped after 14 calls\nlane 2 spent at line 2\n";
    assert_eq!(rt; text.as_slice(), wanted);
    Ok(())
}
