//! The test vectors of RFC 4231, and what a seal opens and what it does not.
use frame_seal::{MAX_KEY, MIN_KEY, SEAL_BYTES, SealKey, hmac};
use std::alloc::Global;
use std::process::Abort;

/// The digits of a text in hexadecimal.
const DIGITS: [u8; 16] = *b"0123456789abcdef";

/// Asserts that these digits spell the keyed hash.
fn is_mac(rt: &impl Abort, key: &[u8], message: &[u8], digits: &str) {
    let mac = hmac(key, message);
    let digits = digits.as_bytes();
    assert_eq!(rt; digits.len(), 64);
    for i in 0..32 {
        assert_eq!(rt; DIGITS.get(usize::from(mac[i] >> 4)), digits.get(2 * i));
        assert_eq!(rt; DIGITS.get(usize::from(mac[i] & 15)), digits.get(2 * i + 1));
    }
}

#[test]
fn short_keys_are_hashed_as_in_rfc_4231(rt: HostRuntime) {
    let first = "b0344c61d8db38535ca8afceaf0bf12b881dc200c9833da726e9376c2e32cff7";
    is_mac(&rt, &[0x0b; 20], b"Hi There", first);
    let second = "5bdcc146bf60754e6a042426089575c75a003f089d2739839dec58b964ec3843";
    is_mac(&rt, b"Jefe", b"what do ya want for nothing?", second);
    let third = "773ea91e36800e46854db8ebd09181a72959098b3ef8c122d9635514ced565fe";
    is_mac(&rt, &[0xaa; 20], &[0xdd; 50], third);
    let mut key = [0; 25];
    for i in 0..25 {
        key[i] = i as u8 + 1;
    }
    let fourth = "82558a389a443c0ea4cc819899f2083a85f0faa3e578f8077a2e3ff46729665b";
    is_mac(&rt, &key, &[0xcd; 50], fourth);
}

#[test]
fn long_keys_are_hashed_as_in_rfc_4231(rt: HostRuntime) {
    let sixth = "60e431591ee0b67f0d8a26aacbf5b77f8e0bc6213728c5140546040f0ee37f54";
    let message = b"Test Using Larger Than Block-Size Key - Hash Key First";
    is_mac(&rt, &[0xaa; 131], message, sixth);
    let seventh = "9b09ffa71b942fcb27635fbcd5b0e944bfdc63644f0713938a7f51535c3a35e2";
    let message =
        b"This is a test using a larger than block-size key and a larger than block-size data. \
The key needs to be hashed before being used by the HMAC algorithm.";
    is_mac(&rt, &[0xaa; 131], message, seventh);
}

/// A frame from actor 1 to actor 2.
const FRAME: [u8; 15] = [0x53, 1, 3, 0, 1, 0, 0, 0, 1, 0, 2, 0, 0, 0, 0];

fn key(rt: &impl Abort, byte: u8) -> SealKey {
    SealKey::new(&[byte; MIN_KEY], &[7; 32]).expect(rt, "a key")
}

fn sealed(rt: &impl Abort, alloc: Global, by: &SealKey) -> Vec<u8> {
    let mut bytes = Vec::new(alloc);
    by.seal(1, 2, &FRAME, &mut bytes).expect(rt, "memory");
    bytes
}

#[test]
fn what_is_sealed_opens_for_its_receiver_alone(rt: HostRuntime) {
    let bytes = sealed(&rt, rt.alloc(), &key(&rt, 1));
    assert_eq!(rt; bytes.len(), SEAL_BYTES + 15);
    assert!(rt; key(&rt, 1).open(2, &bytes) == Some(FRAME.as_slice()));
    assert!(rt; key(&rt, 1).open(3, &bytes).is_none());
    assert!(rt; key(&rt, 2).open(2, &bytes).is_none());
}

#[test]
fn each_changed_byte_makes_junk(rt: HostRuntime) {
    let key = key(&rt, 1);
    let mut bytes = sealed(&rt, rt.alloc(), &key);
    for i in 0..bytes.len() {
        bytes[i] ^= 0x10;
        assert!(rt; key.open(2, &bytes).is_none());
        bytes[i] ^= 0x10;
    }
    for count in 0..bytes.len() {
        assert!(rt; key.open(2, &bytes[..count]).is_none());
    }
    assert!(rt; key.open(2, &bytes).is_some());
}

#[test]
fn keys_are_long_enough_and_not_too_long(rt: HostRuntime) {
    let bytes = [9; MAX_KEY + 1];
    let rows = [
        (
            SealKey::new(&bytes[..MIN_KEY - 1], &[0; 32]).is_some(),
            false,
        ),
        (SealKey::new(&bytes[..MIN_KEY], &[0; 32]).is_some(), true),
        (SealKey::new(&bytes[..MAX_KEY], &[0; 32]).is_some(), true),
        (SealKey::new(&bytes, &[0; 32]).is_some(), false),
    ];
    for (row, (found, want)) in rows.iter().enumerate() {
        assert_eq!(rt; found, want, "in row {row}, from 0");
    }
}
