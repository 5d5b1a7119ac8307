use super::*;
use std::test::Fail;

/// The block of a with payload 1, ab with 2 and b with 3.
const SMALL: [u8; 15] = [0, 1, b'a', 1, 1, 1, 1, b'b', 1, 2, 0, 1, b'b', 1, 3];

#[test]
fn a_small_block_is_listed_built_and_searched(rt: HostRuntime) -> Result<(), Fail> {
    let alloc = rt.alloc();
    let pairs = items(alloc, &SMALL)?;
    assert_eq!(rt; pairs.len(), 3);
    for (pair, (key, payload)) in pairs.iter().zip([
        (b"a".as_slice(), 1),
        (b"ab".as_slice(), 2),
        (b"b".as_slice(), 3),
    ]) {
        assert_eq!(rt; pair.key.as_slice(), key);
        assert_eq!(rt; pair.payload.as_slice(), [payload].as_slice());
    }
    assert_eq!(rt;
        build(alloc, pairs.as_slice())?.as_slice(),
        SMALL.as_slice()
    );
    let mut out = [0; 255];
    for (key, want) in [
        (b"a".as_slice(), Some(1)),
        (b"ab".as_slice(), Some(2)),
        (b"b".as_slice(), Some(3)),
        (b"".as_slice(), None),
        (b"aa".as_slice(), None),
        (b"abc".as_slice(), None),
        (b"c".as_slice(), None),
    ] {
        let found = find(&SMALL, key, &mut out)?;
        assert_eq!(rt; found.is_some(), want.is_some(), "{key:?}");
        if let Some(payload) = want {
            assert_eq!(rt; found, Some(1));
            assert_eq!(rt; out[0], payload);
        }
    }
    Ok(())
}

#[test]
fn what_is_no_block_is_refused_where_it_breaks(rt: HostRuntime) -> Result<(), Fail> {
    let alloc = rt.alloc();
    let mut out = [0; 255];
    let none: [u8; 0] = [];
    assert_eq!(rt; items(alloc, &none)?.len(), 0);
    assert_eq!(rt; build(alloc, &[])?.len(), 0);
    assert_eq!(rt; find(&none, b"a", &mut out)?, None);
    let rows: [(&[u8], u64); 6] = [
        // A shared front that is not the longest.
        (&[0, 1, b'a', 1, 1, 0, 2, b'a', b'b', 1, 2], 5),
        // A key that does not rise.
        (&[0, 1, b'b', 0, 0, 1, b'a', 0], 4),
        // A key without bytes.
        (&[0, 0, 0], 0),
        // More of the key before than it has.
        (&[0, 1, b'a', 0, 2, 1, b'b', 0], 4),
        // A payload that is cut.
        (&[0, 1, b'a', 1], 0),
        // A byte that is no item.
        (&[0, 1, b'a', 0, 1], 4),
    ];
    for (block, at) in rows {
        assert_eq!(rt;
            items(alloc, block).err(),
            Some(BlockError::NotABlock { at }),
            "{block:?}"
        );
        assert_eq!(rt;
            find(block, b"z", &mut out).err(),
            Some(NotABlock { at }),
            "{block:?}"
        );
    }
    // What stands behind the first key that is not below is not looked at.
    assert_eq!(rt; find(&[0, 1, b'b', 1, 7, 9], b"a", &mut out)?, None);
    assert_eq!(rt; find(&[0, 1, b'b', 1, 7, 9], b"b", &mut out)?, Some(1));
    assert_eq!(rt; out[0], 7);
    Ok(())
}

#[test]
fn an_altered_byte_is_refused_or_spells_other_pairs(rt: HostRuntime) -> Result<(), Fail> {
    let alloc = rt.alloc();
    for at in 0..SMALL.len() {
        for value in 0..=255 {
            let mut block = SMALL;
            block[at] = value;
            match items(alloc, &block) {
                Ok(pairs) => {
                    let again = build(alloc, pairs.as_slice())?;
                    assert_eq!(rt; again.as_slice(), block.as_slice());
                }
                Err(refused) => assert_ne!(rt; refused, BlockError::NoMemory),
            }
        }
    }
    Ok(())
}

#[test]
fn a_builder_is_filled_and_a_cursor_reads_it(rt: HostRuntime) -> Result<(), Fail> {
    let mut builder = BlockBuilder::new(rt.alloc());
    let (first, last) = ([b'k'; 250], [b'k'; 251]);
    assert!(rt; !builder.may_push(&last, &[]));
    assert!(rt; !builder.may_push(&[], &[]));
    assert!(rt; builder.may_push(&first, &[7; 255]));
    assert_eq!(rt; builder.size_with(&first, &[7; 255]), 508);
    builder.push(&first, &[7; 255])?;
    assert_eq!(rt; builder.size(), 508);
    assert!(rt; !builder.may_push(&first, &[]));
    assert!(rt; builder.may_push(b"kl", b"x"));
    assert_eq!(rt; builder.size_with(b"kl", b"x"), 513);
    builder.push(b"kl", b"x")?;
    assert_eq!(rt; &builder.bytes()[508..], [1, 1, b'l', 1, b'x'].as_slice());
    let mut cursor = BlockCursor::new(builder.bytes());
    assert!(rt; cursor.advance()?);
    assert_eq!(rt; cursor.key(), first.as_slice());
    assert_eq!(rt; cursor.payload(), [7; 255].as_slice());
    assert!(rt; cursor.advance()?);
    assert_eq!(rt; cursor.key(), b"kl".as_slice());
    assert!(rt; !cursor.advance()?);
    let mut out = [0; 255];
    assert_eq!(rt; find(builder.bytes(), &first, &mut out)?, Some(255));
    assert_eq!(rt; out[254], 7);
    builder.clear();
    assert!(rt; builder.is_empty());
    assert_eq!(rt; builder.finish().len(), 0);
    Ok(())
}
