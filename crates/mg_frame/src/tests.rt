use super::*;
use std::test::Fail;

/// A log record that sets the key `a` to `x`: partition 0, change 1, kind 1.
const BODY: [u8; 18] = [0, 0, 0, 0, 0, 0, 0, 0, 0, 1, 1, 1, b'a', 0, 0, 0, 1, b'x'];

/// The frame of `BODY` with number 1. Its digest was computed with another program.
const FRAME: [u8; 38] = [
    0, 0, 0, 18, 0, 0, 0, 0, 0, 0, 0, 1, 0, 0, 0, 0, 0, 0, 0, 0, 0, 1, 1, 1, b'a', 0, 0, 0, 1,
    b'x', 0xf7, 0x3d, 0xaa, 0x31, 0xdc, 0xec, 0x04, 0x37,
];

#[test]
fn a_frame_is_the_worked_one(rt: HostRuntime) -> Result<(), Fail> {
    let mut out = Vec::new(rt.alloc());
    put_frame(1, &BODY, &mut out)?;
    assert_eq!(rt; out.as_slice(), FRAME.as_slice());
    Ok(())
}

#[test]
fn a_body_is_written_in_place(rt: HostRuntime) -> Result<(), Fail> {
    let mut out = vec![in rt.alloc(); 7u8, 8]?;
    let start = begin_frame(1, BODY.len(), &mut out)?;
    assert_eq!(rt; start, 2);
    let (first, second) = BODY.split_at(5);
    out.extend_from_slice(first)?;
    out.extend_from_slice(second)?;
    end_frame(start, &mut out)?;
    assert_eq!(rt; &out[..2], [7, 8].as_slice());
    assert_eq!(rt; &out[2..], FRAME.as_slice());
    Ok(())
}

#[test]
fn each_answer_of_take_frame(rt: HostRuntime) {
    let whole = Taken::Whole {
        start: 12,
        end: 30,
        next: 38,
    };
    assert_eq!(rt; take_frame(&FRAME, 0, 1), whole);
    assert_eq!(rt;
        take_frame(&FRAME[..37], 0, 1),
        Taken::Short { want: 38, have: 37 }
    );
    assert_eq!(rt;
        take_frame(&FRAME[..5], 0, 1),
        Taken::Short { want: 12, have: 5 }
    );
    assert_eq!(rt; take_frame(&[], 0, 1), Taken::End);
    assert_eq!(rt; take_frame(&FRAME, 38, 1), Taken::End);
    assert_eq!(rt;
        take_frame(&FRAME, 0, 2),
        Taken::Number { kept: 1, asked: 2 }
    );

    let mut torn = FRAME;
    torn[29] = b'y';
    let answer = take_frame(&torn, 0, 1);
    assert_eq!(rt;
        answer,
        Taken::Torn {
            kept: 0xf73d_aa31_dcec_0437,
            found: 0x787d_3b91_a30b_74d3
        }
    );
}

#[test]
fn fields_are_written_and_read(rt: HostRuntime) -> Result<(), Fail> {
    let mut out = Vec::new(rt.alloc());
    put_u8(0xab, &mut out)?;
    put_u16(0x0102, &mut out)?;
    put_u32(0x0304_0506, &mut out)?;
    put_u64(0x0708_090a_0b0c_0d0e, &mut out)?;
    put_short(b"key", &mut out)?;
    put_long(b"document", &mut out)?;
    let want =
        b"\xab\x01\x02\x03\x04\x05\x06\x07\x08\x09\x0a\x0b\x0c\x0d\x0e\x03key\0\0\0\x08document";
    assert_eq!(rt; out.as_slice(), want.as_slice());

    assert_eq!(rt; out.len(), 31);
    assert_eq!(rt; get_u8(&out, 0), Some(0xab));
    assert_eq!(rt; get_u16(&out, 1), Some(0x0102));
    assert_eq!(rt; get_u32(&out, 3), Some(0x0304_0506));
    assert_eq!(rt; get_u64(&out, 7), Some(0x0708_090a_0b0c_0d0e));
    assert!(rt; get_short(&out, 15) == Some(b"key"));
    assert!(rt; get_long(&out, 19) == Some(b"document"));
    assert!(rt; get_long(&out, 20).is_none());
    assert!(rt; get_u8(&out, 31).is_none());

    let (number, after) = split_u16(&out[1..]).ok_or("no number")?;
    assert!(rt; number == 0x0102 && after == &out[3..]);
    let (list, after) = split_long(&out[19..]).ok_or("no list")?;
    assert!(rt; list == b"document".as_slice() && after.is_empty());
    Ok(())
}
