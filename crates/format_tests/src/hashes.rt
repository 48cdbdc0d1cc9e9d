use content_hash::{Hasher, of_block, of_digests};
use fh_model::{BLOCK_BYTES, Bytes32};
use std::alloc::{AllocError, Global};
use std::test::*;

/// The digest of no bytes.
const NOTHING: &str = "e3b0c44298fc1c149afbf4c8996fb92427ae41e4649b934ca495991b7852b855";

/// A digest as 64 hex digits.
fn spelled(alloc: Global, digest: &Bytes32) -> Result<String, AllocError> {
    let mut text = String::new(alloc);
    for byte in &digest.bytes {
        write!(text, "{byte:02x}")?;
    }
    Ok(text)
}

/// So many bytes, each its place modulo 251.
fn counted(alloc: Global, len: usize) -> Result<Vec<u8>, AllocError> {
    let mut bytes = vec![in alloc; 0u8; len]?;
    for (place, byte) in bytes.iter_mut().enumerate() {
        *byte = (place % 251) as u8;
    }
    Ok(bytes)
}

/// The content hash, with the bytes taken in by pieces of this size at most.
fn hash_by_pieces(bytes: &[u8], size: usize) -> Bytes32 {
    let mut hasher = Hasher::new();
    for piece in bytes.chunks(size.max(1)) {
        hasher.update(piece);
    }
    hasher.digest()
}

/// The digests of the blocks, the last of which may be shorter.
fn block_digests(alloc: Global, bytes: &[u8]) -> Result<Vec<Bytes32>, AllocError> {
    let mut hasher = Hasher::new();
    let mut digests = Vec::new(alloc);
    let mut rest = bytes;
    while !rest.is_empty() {
        let filled = hasher.fill(rest);
        if let Some(digest) = filled.digest {
            digests.push(digest)?;
        }
        rest = &rest[filled.taken..];
    }
    if let Some(digest) = hasher.last_digest() {
        digests.push(digest)?;
    }
    Ok(digests)
}

/// Messages, and their published SHA-256 digests.
static VECTORS: [(&[u8], &str); 3] = [
    (
        b"abc",
        "ba7816bf8f01cfea414140de5dae2223b00361a396177a9cb410ff61f20015ad",
    ),
    (
        b"abcdbcdecdefdefgefghfghighijhijkijkljklmklmnlmnomnopnopq",
        "248d6a61d20638b8e5c026930c3e6039a33ce45964ff2167f6ecedd419db06c1",
    ),
    (
        b"abcdefghbcdefghicdefghijdefghijkefghijklfghijklmghijklmnhijklmnoijklmnopjklmnopqklmnopqrlmnopqrsmnopqrstnopqrstu",
        "cf5b16a778af8380036ce59e7b0492370b249b11e8f07a51afac45037afee9d1",
    ),
];

/// The digest of a million times `a`.
const MILLION: &str = "cdc76e5c9914fb9281a1c7e284d73e67f1809a48a497200e046d39ccc7112cd0";

/// Fails where a digest has other digits, and tells them.
fn expect(alloc: Global, digest: &Bytes32, want: &str) -> Result<(), Fail> {
    let digits = spelled(alloc, digest)?;
    if digits.as_str() != want {
        return Err(digits.as_str().into());
    }
    Ok(())
}

/// Fails where a message isn't one block with this digest.
fn expect_block(alloc: Global, message: &[u8], want: &str) -> Result<(), Fail> {
    let digests = block_digests(alloc, message)?;
    match digests.as_slice() {
        [digest] => expect(alloc, digest, want),
        _ => Err("not one block".into()),
    }
}

#[test]
fn published_digests_of_sha_256_are_those_of_a_block(rt: HostRuntime) -> Result<(), Fail> {
    let alloc = rt.alloc();
    for (message, want) in &VECTORS {
        expect_block(alloc, message, want)?;
    }
    let million = vec![in alloc; b'a'; 1_000_000]?;
    expect_block(alloc, &million, MILLION)
}

#[test]
fn no_byte_has_no_block(rt: HostRuntime) -> Result<(), Fail> {
    let digests = block_digests(rt.alloc(), b"")?;
    assert!(rt; digests.is_empty());
    expect(rt.alloc(), &of_digests(&[]), NOTHING)
}

/// A length, how many blocks it has, and the content hashes of so many zeros and of so many bytes that are counted.
static SIZES: [(usize, usize, &str, &str); 6] = [
    (0, 0, NOTHING, NOTHING),
    (
        1,
        1,
        "1406e05881e299367766d313e26c05564ec91bf721d31726bd6e46e60689539a",
        "1406e05881e299367766d313e26c05564ec91bf721d31726bd6e46e60689539a",
    ),
    (
        4_194_303,
        1,
        "839e2d868a885f260431d186466f0f3c189ee0eee5cc444b54e717740ad7f1c3",
        "e1d05b9adf4293b7fec11b099ce74116fc06dfa733a9833be9166ab4c769da43",
    ),
    (
        4_194_304,
        1,
        "c7e946d101855255d919ef0c70718633adf77d3dfb3adeeecf5d0cb4e951be58",
        "b9654428408015906b44a00935b70af33830aa344b780b0eabd535a133150d04",
    ),
    (
        4_194_305,
        2,
        "14a4d47f23a30177885d9820122f17d2d3a55fe63f7f5c27b95f689e0b2accd6",
        "4a6cc0a344febaa07772e7c974834b2fb1d24594d4ba15f27c97a54699709f44",
    ),
    (
        8_388_608,
        2,
        "03ae066c707c588592d9e27aa2444ca98423e0999024f1ceaa11a153790b37de",
        "b76a633d9733b991a976dba723df6940bfaf789390a929fe8f68fd1b4705c8c1",
    ),
];

/// Fails where a content has another hash in some pieces, or another number of blocks.
fn expect_content(alloc: Global, content: &[u8], blocks: usize, want: &str) -> Result<(), Fail> {
    for size in [usize::MAX, 1_000_003, 65_536] {
        expect(alloc, &hash_by_pieces(content, size), want)?;
    }
    let digests = block_digests(alloc, content)?;
    if digests.len() != blocks {
        return Err(digests.len().into());
    }
    expect(alloc, &of_digests(&digests), want)
}

#[test]
fn contents_about_the_size_of_a_block_have_their_hashes(rt: HostRuntime) -> Result<(), Fail> {
    let alloc = rt.alloc();
    let zeros = vec![in alloc; 0u8; 2 * BLOCK_BYTES]?;
    let counted = counted(alloc, 2 * BLOCK_BYTES)?;
    for (len, blocks, of_zeros, of_counted) in &SIZES {
        let len = (*len).min(zeros.len()).min(counted.len());
        expect_content(alloc, &zeros[..len], *blocks, of_zeros)?;
        expect_content(alloc, &counted[..len], *blocks, of_counted)?;
    }
    Ok(())
}

/// The content hash of `hello`.
const HELLO: &str = "9595c9df90075148eb06860365df33584b75bff782a510c6cd4883a419833d50";

#[test]
fn a_content_of_one_block_has_its_digest_and_its_hash(rt: HostRuntime) -> Result<(), Fail> {
    let alloc = rt.alloc();
    let (none, hash) = of_block(b"");
    assert!(rt; none.is_none());
    expect(alloc, &hash, NOTHING)?;
    let (some, hash) = of_block(b"hello");
    let Some(digest) = some else {
        return Err("no digest".into());
    };
    expect(
        alloc,
        &digest,
        "2cf24dba5fb0a30e26e83b2ac5b9e29e1b161e5c1fa7425e73043362938b9824",
    )?;
    expect(alloc, &hash, HELLO)
}

#[test]
fn hello_has_its_hash(rt: HostRuntime) -> Result<(), Fail> {
    for size in 1..6 {
        expect(rt.alloc(), &hash_by_pieces(b"hello", size), HELLO)?;
    }
    Ok(())
}
