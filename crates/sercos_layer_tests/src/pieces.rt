// Frames whose bits come in pieces.
use sercos_bits::{BitBuf, Content, bits_of};
use sercos_hdlc::{BadFrame, Deframer};

// Feeds the first `len` of the bits that bytes spell, in pieces of `size` bits, and reads them as a frame.
fn read_in_pieces(
    reader: &mut Deframer,
    bytes: &[u8],
    len: usize,
    size: usize,
    content: &mut Content,
) -> Result<usize, BadFrame> {
    let mut bits = BitBuf::new();
    let _fits = bits_of(bytes, &mut bits);
    bits.cut(len);
    let mut piece = BitBuf::new();
    for place in 0..bits.len() {
        let _room = piece.push(bits.get(place));
        if piece.len() == size && reader.taken() < 1000 {
            reader.feed(&piece);
            piece.clear();
        }
    }
    if piece.len() < size && reader.taken() < 1000 {
        reader.feed(&piece);
    }
    reader.finish(content)
}

// Returns whether the reader then reads the frame of the bytes ff and 00, as if nothing had been read before.
fn reads_the_frame(reader: &mut Deframer, size: usize, content: &mut Content) -> bool {
    let read = read_in_pieces(reader, b"\x7e\xdf\x01\x0e\xe1\xfd\x00", 49, size, content);
    read == Ok(2) && content.as_slice() == b"\xff\x00".as_slice()
}

// One reader reads frames in pieces of 1, 7 and 64 bits, and refuses what isn't one. After each it reads the first one again.
#[test]
fn frames_in_pieces(rt: HostRuntime) {
    let mut reader = Deframer::new();
    let mut content = Content::new();
    for size in [1usize, 7, 64] {
        assert!(rt; reads_the_frame(&mut reader, size, &mut content));
        assert!(rt; reads_the_frame(&mut reader, size, &mut content));
        assert_eq!(rt;
            read_in_pieces(
                &mut reader,
                b"\x7e\x88\x38\xf8\xfc\x00",
                41,
                size,
                &mut content
            ),
            Ok(1)
        );
        assert!(rt; reads_the_frame(&mut reader, size, &mut content));
        assert_eq!(rt;
            read_in_pieces(&mut reader, b"\x7e\x88\x38\xf8\x7e", 40, size, &mut content),
            Err(BadFrame::Abort(32))
        );
        assert!(rt; reads_the_frame(&mut reader, size, &mut content));
        assert_eq!(rt;
            read_in_pieces(
                &mut reader,
                b"\x7e\xdf\x11\x0e\xe1\xfd\x00",
                49,
                size,
                &mut content
            ),
            Err(BadFrame::Check(0xf087, 0x7ccf))
        );
        assert!(rt; reads_the_frame(&mut reader, size, &mut content));
        assert_eq!(rt;
            read_in_pieces(
                &mut reader,
                b"\x7e\xdf\x01\x0e\xe1\x1d",
                45,
                size,
                &mut content
            ),
            Err(BadFrame::NoClose(45))
        );
        assert!(rt; reads_the_frame(&mut reader, size, &mut content));
    }
}

// A flag, and more zeros than any list of bits holds.
#[test]
fn zeros_without_end(rt: HostRuntime) {
    let mut reader = Deframer::new();
    let mut piece = BitBuf::new();
    assert!(rt; bits_of(b"\x7e", &mut piece).is_ok());
    reader.feed(&piece);
    piece.clear();
    for _ in 0..10000u32 {
        assert!(rt; piece.push(false).is_ok());
    }
    for _ in 0..30u32 {
        assert!(rt; reader.taken() < 1000000 && piece.len() == 10000);
        reader.feed(&piece);
    }
    let mut content = Content::new();
    assert_eq!(rt; reader.finish(&mut content), Err(BadFrame::NoClose(300008)));
    assert!(rt; reads_the_frame(&mut reader, 64, &mut content));
}

// A frame of one byte too many.
#[test]
fn zeros_up_to_a_flag(rt: HostRuntime) {
    let mut reader = Deframer::new();
    let mut piece = BitBuf::new();
    assert!(rt; bits_of(b"\x7e", &mut piece).is_ok());
    reader.feed(&piece);
    let mut zeros = BitBuf::new();
    for _ in 0..16408u32 {
        assert!(rt; zeros.push(false).is_ok());
    }
    assert!(rt; zeros.len() == 16408 && reader.taken() < 1000);
    reader.feed(&zeros);
    assert!(rt; reader.taken() < 1000000);
    reader.feed(&piece);
    let mut content = Content::new();
    assert_eq!(rt; reader.finish(&mut content), Err(BadFrame::Long(2051)));
    assert!(rt; reads_the_frame(&mut reader, 7, &mut content));
}
