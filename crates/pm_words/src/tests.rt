use super::*;

/// The table of sums of docs/FORMAT.md, worked by hand.
#[test]
fn sums_by_hand(rt: HostRuntime) {
    assert_eq!(rt; sum64(&[]), 0);
    assert_eq!(rt; sum64(&[0, 0, 0]), 0);
    assert_eq!(rt; sum64(&[1]), 8_589_934_593);
    assert_eq!(rt; sum64(&[1, 2]), 34_359_738_371);
    assert_eq!(rt; sum64(&[4_294_967_296]), 4_294_967_297);
    assert_eq!(rt; sum64(&[u64::MAX]), 0xffff_fffd_ffff_fffe);
    assert_eq!(rt; sum64(&[1, 16512, 1, 0, 0, 0, 0]), 0x0003_0618_0000_4082);
}

#[test]
fn words_masks_and_places(rt: HostRuntime) {
    let mut words = [0; 2];
    words_of(b"PMOBPOOL\x01\0\0\0\0\0\0\x80", &mut words);
    assert_eq!(rt; words[0], 0x4c4f_4f50_424f_4d50);
    assert_eq!(rt; words[1], 0x8000_0000_0000_0001);
    let mut bytes = [0; 16];
    bytes_of(&words, &mut bytes);
    assert_eq!(rt;
        bytes.as_slice(),
        b"PMOBPOOL\x01\0\0\0\0\0\0\x80".as_slice()
    );
    assert_eq!(rt; mask(4, 8), 0xff0);
    assert_eq!(rt; mask(0, 64), u64::MAX);
    assert_eq!(rt; mask(64, 0), 0);
    assert_eq!(rt; line_of(16512), 258);
    assert_eq!(rt; word_of(16519), 2064);
    words_and_bytes_agree();
}

/// A word whose byte j is 0x11 times j + 1, so that byte 0 is 0x11: worked by hand.
#[test]
fn patches_by_hand(rt: HostRuntime) {
    let word = 0x8877_6655_4433_2211;
    assert_eq!(rt; patch(word, 0, &[0xaa]), 0x8877_6655_4433_22aa);
    assert_eq!(rt; patch(word, 7, &[0xaa]), 0xaa77_6655_4433_2211);
    assert_eq!(rt; patch(word, 2, &[0xaa, 0xbb, 0xcc]), 0x8877_66cc_bbaa_2211);
    assert_eq!(rt;
        patch(word, 0, &[1, 2, 3, 4, 5, 6, 7, 8]),
        0x0807_0605_0403_0201
    );
    assert_eq!(rt; patch(word, 3, &[]), word);
    assert_eq!(rt; patch(word, 8, &[]), word);
}
