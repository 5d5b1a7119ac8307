use super::*;
use std::alloc::{AllocError, Global};
use std::test::Fail;

fn key_of(number: u32) -> [u8; 4] {
    number.to_be_bytes()
}

fn filter_of(alloc: Global, keys: u32) -> Result<Filter, AllocError> {
    let mut filter = Filter::sized(alloc, u64::from(keys))?;
    for number in 0..keys {
        filter.put(&key_of(number));
    }
    Ok(filter)
}

/// The places that the key `abc` has among 1,024 bits.
const PLACES_OF_ABC: [usize; 7] = [703, 1002, 222, 547, 419, 668, 865];

#[test]
fn the_bits_of_a_worked_key(rt: HostRuntime) -> Result<(), Fail> {
    let mut body = vec![in rt.alloc(); 0u8; 128]?;
    assert_eq!(rt; body.len(), 128);
    for place in PLACES_OF_ABC {
        let byte = place / 8;
        assert!(rt; byte < body.len());
        body[byte] |= 1 << (place % 8);
    }
    let mut filter = Filter::sized(rt.alloc(), 100)?;
    assert!(rt; !filter.may_hold(b"abc"));
    filter.put(b"abc");
    assert_eq!(rt; filter.bytes(), body.as_slice());
    let again = Filter::of_bytes(body).ok_or("a body of 128 bytes")?;
    assert!(rt; again.may_hold_hashed(&HashedKey::new(b"abc")));
    assert!(rt; !again.may_hold(b"abd"));
    Ok(())
}

#[test]
fn sizes_are_powers_of_two(rt: HostRuntime) -> Result<(), Fail> {
    for (keys, bytes) in [
        (0, 8),
        (6, 8),
        (7, 16),
        (12, 16),
        (13, 32),
        (10_000, 16_384),
    ] {
        let filter = Filter::sized(rt.alloc(), keys)?;
        assert_eq!(rt; filter.bytes().len(), bytes, "for {keys} keys");
    }
    for length in [0, 1, 4, 9, 24] {
        let body = vec![in rt.alloc(); 0u8; length]?;
        assert!(rt;
            Filter::of_bytes(body).is_none(),
            "a body of {length} bytes"
        );
    }
    Ok(())
}

#[test]
fn a_folded_filter_is_one_made_for_fewer_keys(rt: HostRuntime) -> Result<(), Fail> {
    for keys in [0u32, 6, 7, 100, 10_000] {
        let mut folded = Filter::sized(rt.alloc(), 10_000)?;
        for number in 0..keys {
            folded.put(&key_of(number));
        }
        let bits = 8 * folded.bytes().len() as u64;
        let keys_put = u64::from(keys);
        if bits < 10 * keys_put {
            return Err("a filter of fewer than ten bits a key")?;
        }
        folded.fold(keys_put);
        let direct = filter_of(rt.alloc(), keys)?;
        assert_eq!(rt; folded.bytes(), direct.bytes(), "of {keys} keys");
        assert_eq!(rt; folded.memory(), 16_384, "of {keys} keys");
        let fitted = folded.fitted(rt.alloc())?;
        assert_eq!(rt; fitted.bytes(), direct.bytes(), "of {keys} keys");
        assert_eq!(rt; fitted.memory(), direct.bytes().len(), "of {keys} keys");
    }
    Ok(())
}

#[test]
fn most_other_keys_are_denied(rt: HostRuntime) -> Result<(), Fail> {
    // The second count is the greatest for which a filter has 131,072 bits.
    for keys in [10_000u32, 13_107] {
        let filter = filter_of(rt.alloc(), keys)?;
        let may_hold = |number: &u32| filter.may_hold(&key_of(*number));
        assert!(rt;
            (0..keys).all(|number| may_hold(&number)),
            "a key that was put in"
        );
        let wrong = (100_000..110_000u32).filter(may_hold).count();
        assert!(rt;
            wrong <= 200,
            "{wrong} of 10,000 other keys, with {keys} put in"
        );
    }
    Ok(())
}
