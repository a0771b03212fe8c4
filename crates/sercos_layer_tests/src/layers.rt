// Worked examples of the layers below the top call.
use sercos_bits::{BitBuf, Content, bits_of, fcs};
use sercos_hdlc::{BadFrame, TooLong, frame, frame_len, unframe};
use sercos_io::{PlainSource, Words, read_all};
use std::test::Fail;

// The check value of this check sequence in catalogues.
#[test]
fn check_value(rt: HostRuntime) {
    assert_eq!(rt; fcs(b"123456789"), 0x906e);
}

// A frame of more than 2050 bytes: a flag, zeros and a flag.
#[test]
fn too_long_a_frame(rt: HostRuntime) {
    let mut bits = BitBuf::new();
    assert!(rt; bits_of(b"\x7e", &mut bits).is_ok());
    for _ in 0..16408u32 {
        assert!(rt; bits.push(false).is_ok());
    }
    assert!(rt; bits_of(b"\x7e", &mut bits).is_ok());
    let mut content = Content::new();
    assert_eq!(rt; unframe(&bits, &mut content), Err(BadFrame::Long(2051)));
    assert_eq!(rt; content.as_slice().len(), 0);
}

// A frame of 49 bits, as the bytes that its bits fill, and read again.
#[test]
fn frame_and_content(rt: HostRuntime) -> Result<(), Fail> {
    let mut bits = BitBuf::new();
    assert_eq!(rt; frame(b"\xff\x00", &mut bits), Ok(()));
    assert_eq!(rt; bits.len(), 49);
    let mut wanted = BitBuf::new();
    assert!(rt; bits_of(b"\x7e\xdf\x01\x0e\xe1\xfd\x00", &mut wanted).is_ok());
    wanted.cut(49);
    assert!(rt; bits.is_same(&wanted));
    let mut content = Content::new();
    assert_eq!(rt; unframe(&bits, &mut content), Ok(2));
    assert_eq!(rt; content.as_slice(), b"\xff\x00".as_slice());
    Ok(())
}

// The longest content, all ones, and one byte more.
#[test]
fn long_frames(rt: HostRuntime) {
    let ones = [0xff; 2049];
    let mut bits = BitBuf::new();
    assert_eq!(rt; frame(&ones[..2048], &mut bits), Ok(()));
    assert_eq!(rt; bits.len(), 19693);
    assert_eq!(rt; frame_len(&ones[..2048]), 19693);
    let mut content = Content::new();
    assert_eq!(rt; unframe(&bits, &mut content), Ok(2048));
    assert_eq!(rt; frame(&ones, &mut bits), Err(TooLong));
    assert_eq!(rt; bits.len(), 19693);
}

#[test]
fn with_ample_memory(rt: HostRuntime) -> Result<(), Fail> {
    let mut words = Words::new(rt.alloc());
    words.push("show")?;
    words.push("--")?;
    assert_eq!(rt; words.len(), 2);
    assert_eq!(rt; words.get(1), "--");
    let mut source = PlainSource::new(Vec::from_slice(rt.alloc(), b"a text")?);
    let bytes = read_all(rt.alloc(), &mut source)?;
    assert_eq!(rt; bytes.as_slice(), b"a text".as_slice());
    Ok(())
}
