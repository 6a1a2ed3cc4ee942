// HMAC over SHA-256.
ghost use Rattle.std.specs.Prelude.{◌≡◌, ◌≤◌, ◌++◌, ℕ, List, length};
ghost use Rattle.sha2.specs.Sha256.{sha256};
ghost use Rattle.sha2.specs.Hashers.{Holds256};
ghost use Rattle.frame_seal.specs.Hmac.{block_of, filled, hmac_by, hmac_of, turned};

use sha2::{Digest, Sha256};

/// The bits of the key that are turned for the inner hash.
const INNER_MASK: u8 = 0x36;

/// The bits of the key that are turned for the outer hash.
const OUTER_MASK: u8 = 0x5c;

/// The key, followed by zeros up to a block.
#[tactic(auto, using(crate::proofs::Blocks::filled_is))]
fn filled(key: &[u8]) -> [u8; 64]
    requires { length key.now ≤ 64 }
    ensures { result ≡ filled key.now }
{
    let mut block = [0; 64];
    block[..key.len()].copy_from_slice(key);
    block
}

/// The block of a key. A key of more than a block counts as its digest.
#[tactic(auto, unfolding(crate::specs::Hmac::block_of))]
pub fn block_of(key: &[u8]) -> [u8; 64]
    ensures { result ≡ block_of key.now }
{
    if key.len() <= 64 {
        filled(key)
    } else {
        filled(&Sha256::digest(key))
    }
}

/// The block with these bits of each byte turned.
fn turned(block: &[u8; 64], mask: u8) -> [u8; 64]
    ensures { result ≡ turned mask block.now }
{
    let mut turned = [0; 64];
    for i in 0..64 {
        turned[i] = block[i] ^ mask;
    }
    turned
}

/// The inner hash, which has the key and waits for the message.
pub fn begin(block: &[u8; 64]) -> Sha256
    ensures { Holds256 result (turned 0x36 block.now) }
{
    let mut inner = Sha256::new();
    inner.update(turned(block, INNER_MASK));
    inner
}

/// The keyed hash of what the inner hash has taken behind the key.
#[tactic(auto, unfolding(crate::specs::Hmac::hmac_by))]
pub fn end(block: &[u8; 64], inner: Sha256) -> [u8; 32]
    ensures { (message : List ℕ) → Holds256 inner (turned 0x36 block.now ++ message) →
        result ≡ hmac_by block.now message }
{
    let digest = inner.finalize();
    let mut outer = Sha256::new();
    outer.update(turned(block, OUTER_MASK));
    outer.update(digest);
    outer.finalize()
}

/// The keyed hash of a message, by a key of any length.
#[tactic(auto, unfolding(crate::specs::Hmac::hmac_of))]
pub fn hmac(key: &[u8], message: &[u8]) -> [u8; 32]
    ensures { result ≡ hmac_of key.now message.now }
{
    let block = block_of(key);
    let mut inner = begin(&block);
    inner.update(message);
    end(&block, inner)
}
