use super::*;
use crate::spelling::PAGE_WORDS;
use pm_layout::VERSION;
use std::test::Fail;

/// A page with the header of the pool with one lane, one zone, id 7 and layout demo, and the words of `damage` put over it.
fn damaged(damage: &[(usize, u64)]) -> Result<[u64; PAGE_WORDS], Fail> {
    let header = Header {
        version: VERSION,
        id: 7,
        lanes: 1,
        zones: 1,
        bytes: 278_528,
        name: Name::new(b"demo").ok_or("demo is a name")?,
    };
    let mut page = [9; PAGE_WORDS];
    encode(&header, &mut page);
    for (word, value) in damage {
        if let Some(place) = page.get_mut(*word) {
            *place = *value;
        }
    }
    Ok(page)
}

/// Names, and whether they are layout names.
#[test]
fn names(rt: HostRuntime) {
    let most = [b'~'; 63];
    let table: [(&[u8], bool); 8] = [
        (b"demo", true),
        (b"!", true),
        (&most, true),
        (b"", false),
        (&[b'~'; 64], false),
        (b"two words", false),
        (b"tab\t", false),
        (b"del\x7f", false),
    ];
    for (text, good) in table {
        assert_eq!(rt; Name::new(text).is_some(), good, "{text:?}");
    }
}

/// The header page of that pool, worked by hand from docs/FORMAT.md.
#[test]
fn page_by_hand(rt: HostRuntime) -> Result<(), Fail> {
    let page = damaged(&[])?;
    let pair = [
        0x4c4f_4f50_424f_4d50,
        1,
        7,
        1,
        1,
        278_528,
        0,
        0,
        0x6f6d_6564,
        0,
        0,
        0,
        0,
        0,
        0,
        0,
    ];
    for (at, word) in pair.iter().enumerate() {
        if at != 6 && at != 7 {
            assert_eq!(rt; page[at], *word, "word {at}");
            assert_eq!(rt; page[256 + at], *word, "word {at} of the copy");
        }
    }
    // The halves of the name line are 0x6f6d6564 and fifteen zeros: the sums of the sums have it sixteen times.
    assert_eq!(rt; page[6], 0xf6d6_5640_6f6d_6564);
    assert_eq!(rt; page[262], page[6]);
    assert_eq!(rt; page[7], page[263]);
    assert_eq!(rt; (page[16], page[255], page[272], page[511]), (9, 9, 9, 9));
    Ok(())
}

/// Pages with damaged words, the fault that each has, and its text.
#[test]
fn faults(rt: HostRuntime) -> Result<(), Fail> {
    let table: [(&[(usize, u64)], HeaderFault, &[u8]); 6] = [
        (&[(0, 0), (256, 0)], HeaderFault::NotPool, b"NotPool"),
        (&[(9, 1)], HeaderFault::HeaderMain, b"HeaderMain"),
        (&[(258, 8)], HeaderFault::HeaderCopy, b"HeaderCopy"),
        (&[(0, 0), (263, 1)], HeaderFault::HeaderBoth, b"HeaderBoth"),
        (&[(7, 0), (263, 0)], HeaderFault::HeaderBoth, b"HeaderBoth"),
        (&[(6, 0), (262, 0)], HeaderFault::HeaderBoth, b"HeaderBoth"),
    ];
    for (damage, fault, text) in table {
        let page = damaged(damage)?;
        assert_eq!(rt; decode(&page).err(), Some(fault), "{fault}");
        assert_eq!(rt; fault.to_string(rt.alloc())?.as_bytes(), text);
    }
    Ok(())
}

/// Words put one after the other into good pairs, the pair's sum mended behind each, and the fault that the page
/// then has.
#[test]
fn good_pairs_that_differ(rt: HostRuntime) -> Result<(), Fail> {
    let mut page = damaged(&[])?;
    let table = [
        (256, 2, 8, Some(HeaderFault::HeaderDiffer)),
        (256, 2, 7, None),
        (0, 1, 3, Some(HeaderFault::HeaderDiffer)),
        (256, 1, 3, Some(HeaderFault::Version(3))),
    ];
    for (header, word, value, fault) in table {
        page[header + word] = value;
        page[header + 7] = pm_words::sum64(&page[header..header + 7]);
        assert_eq!(rt; decode(&page).err(), fault);
    }
    assert_eq!(rt;
        HeaderFault::HeaderDiffer.to_string(rt.alloc())?.as_str(),
        "HeaderDiffer"
    );
    assert_eq!(rt;
        HeaderFault::Version(3).to_string(rt.alloc())?.as_str(),
        "Version 3"
    );
    Ok(())
}

/// What is written is read again, and a damaged pair comes back from the other one.
#[test]
fn read_and_mended(rt: HostRuntime) -> Result<(), Fail> {
    let mut page = damaged(&[])?;
    let header = decode(&page).map_err(|_| "the page has a header")?;
    assert_eq!(rt;
        (
            header.version,
            header.id,
            header.lanes,
            header.zones,
            header.bytes
        ),
        (1, 7, 1, 1, 278_528)
    );
    assert_eq!(rt; header.name.as_bytes(), b"demo".as_slice());
    for word in [3, 259] {
        page[word] = 2;
        match decode(&page) {
            Err(HeaderFault::HeaderMain) => copy_good(&mut page),
            Err(HeaderFault::HeaderCopy) => copy_good(&mut page),
            _ => panic!(rt; "one pair is damaged"),
        }
        assert_eq!(rt; page[word], 1);
        assert!(rt; decode(&page).is_ok());
    }
    Ok(())
}
