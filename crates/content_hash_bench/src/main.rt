//! `content_hash_bench WAY COUNT` hashes 64 MiB of the letter a COUNT times, so that a script can time it, and prints
//! the last result in hex digits. WAY is `content`, for the content hash, or `sha2`, for SHA-256 alone.
//!
//! With other words it hashes nothing, prints nothing and ends with status 2; its status is 5 where memory is wanting,
//! and 1 where it can't print.
#![tactic(auto)]

use content_hash::Hasher;
use fh_model::Bytes32;
use sha2::{Digest, Sha256};
use std::alloc::{AllocError, Global};
use std::process::ExitCode;
use std::{env, io};

const CONTENT_BYTES: usize = 67_108_864;

/// The content comes in pieces of this size, as from a connection.
const PIECE_BYTES: usize = 65_536;

#[derive(Clone, Copy)]
enum Way {
    Content,
    Sha2,
}

/// How the content is hashed, and how often.
#[derive(Clone, Copy)]
struct Plan {
    way: Way,
    count: u64,
}

/// The plan that the program's words spell.
fn plan_of(rt: &HostRuntime) -> io::Result<Option<Plan>> {
    let mut words = env::args(rt)?.skip(1);
    let (Some(way), Some(count), None) = (words.next(), words.next(), words.next()) else {
        return Ok(None);
    };
    let way = match way.as_str() {
        "content" => Way::Content,
        "sha2" => Way::Sha2,
        _ => return Ok(None),
    };
    match count.parse() {
        Ok(count) => Ok(Some(Plan { way, count })),
        Err(_) => Ok(None),
    }
}

/// The content hash of the bytes.
fn content_hash_of(bytes: &[u8]) -> Bytes32 {
    let mut hasher = Hasher::new();
    for piece in bytes.chunks(PIECE_BYTES) {
        hasher.update(piece);
    }
    hasher.digest()
}

/// The SHA-256 digest of the bytes.
fn digest_of(bytes: &[u8]) -> Bytes32 {
    let mut hasher = Sha256::new();
    for piece in bytes.chunks(PIECE_BYTES) {
        hasher.update(piece);
    }
    Bytes32 {
        bytes: hasher.finalize(),
    }
}

/// The result of the last time, or zeros where there is none.
fn hashed(plan: Plan, bytes: &[u8]) -> Bytes32 {
    let mut result = Bytes32 { bytes: [0; 32] };
    for _ in 0..plan.count {
        result = match plan.way {
            Way::Content => content_hash_of(bytes),
            Way::Sha2 => digest_of(bytes),
        };
    }
    result
}

/// A digest as 64 hex digits.
fn spelled(alloc: Global, digest: &Bytes32) -> Result<String, AllocError> {
    let mut text = String::new(alloc);
    for byte in &digest.bytes {
        write!(text, "{byte:02x}")?;
    }
    Ok(text)
}

/// Hashes by the plan, and answers the last result in hex digits.
fn run(alloc: Global, plan: Plan) -> Result<String, AllocError> {
    let content = vec![in alloc; b'a'; CONTENT_BYTES]?;
    spelled(alloc, &hashed(plan, &content))
}

fn main(rt: HostRuntime) -> ExitCode {
    let Ok(Some(plan)) = plan_of(&rt) else {
        return ExitCode::from(2);
    };
    let Ok(text) = run(rt.alloc(), plan) else {
        return ExitCode::from(5);
    };
    match println!(rt; "{text}") {
        Ok(()) => ExitCode::from(0),
        Err(_) => ExitCode::from(1),
    }
}
