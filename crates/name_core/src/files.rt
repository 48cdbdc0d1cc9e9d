//! The file that a commit makes of pieces.
ghost use Rattle.std.specs.Prelude.{◌≡◌, ◌<◌, ◌^◌, ◌&&◌, ◌∷◌, [], not, IfOk, map, option_copied};
ghost use Rattle.std.specs.Option.{option_to_list};
ghost use Rattle.fh_model.specs.Content.{are_blocks, size_of};
ghost use Rattle.fh_model.specs.Files.{file_of, hash_on, id_over, next_over};
ghost use Rattle.fh_model.specs.Pieces.{numbered};
ghost use Rattle.fh_model.specs.Uploads.{has_gap};
ghost use Rattle.fh_model.specs.Verdicts.{target_of};

use crate::shared::Shared;
use content_hash::of_digests;
use fh_model::{
    BLOCK_BYTES, BlockPiece, BlockPieces, Bytes32, Commit, Copies, FileMeta, Item, Items, NoMemory,
    Node, Piece, Pieces,
};
use std::alloc::Global;

/// The list of one piece.
fn one_piece(alloc: Global, place: u64, len: u32, digest: Bytes32) -> Result<Pieces, NoMemory>
    ensures pieces { IfOk result (λ pieces. pieces ≡ record { place = place; len = len; digest = digest } ∷ []) }
    ensures size { IfOk result (λ pieces. size_of pieces < 2 ^ 32) }
{
    let mut pieces = Items::empty(alloc);
    pieces.push(Piece { place, len, digest })?;
    Ok(pieces)
}

/// The piece, where there is one.
pub(crate) fn pieces_of(alloc: Global, last: &Option<Piece>) -> Result<Pieces, NoMemory>
    ensures pieces { IfOk result (λ pieces. pieces ≡ option_to_list last.now) }
    ensures size { IfOk result (λ pieces. size_of pieces < 2 ^ 32) }
{
    match last {
        None => Ok(Items::empty(alloc)),
        Some(piece) => one_piece(alloc, piece.place, piece.len, piece.digest),
    }
}

/// Whether the pieces are whole blocks but for the last.
fn are_blocks(pieces: &[Piece]) -> bool
    ensures { result ≡ are_blocks pieces.now }
{
    match pieces {
        [] => true,
        [piece] => 0 < piece.len && piece.len as usize <= BLOCK_BYTES,
        [piece, rest @ ..] => piece.len as usize == BLOCK_BYTES && are_blocks(rest),
    }
}

/// Whether the data is no file's.
pub(crate) fn has_gap(drafted: u32, pieces: &[Piece]) -> bool
    ensures { result ≡ has_gap drafted pieces.now }
{
    !(drafted == 0 && are_blocks(pieces))
}

/// How many bytes the pieces have together.
pub(crate) fn size_of(pieces: &[Piece]) -> u64
    requires { size_of pieces.now < 2 ^ 64 }
    ensures { result ≡ size_of pieces.now }
{
    let mut size = 0;
    for piece in pieces {
        size += piece.len as u64;
    }
    size
}

fn digests_of(alloc: Global, pieces: &[Piece]) -> Result<Vec<Bytes32>, NoMemory>
    ensures { IfOk result (λ digests. digests.items ≡ map (λ piece. piece.digest) pieces.now) }
{
    let mut digests = Vec::new(alloc);
    for piece in pieces {
        digests.push(piece.digest)?;
    }
    Ok(digests)
}

/// The content hash of what the pieces hold.
#[tactic(auto, using(crate::proofs::PieceLemmas::joined_digests))]
pub(crate) fn hash_on(alloc: Global, pieces: &[Piece]) -> Result<Bytes32, NoMemory>
    ensures { IfOk result (λ hash. hash ≡ hash_on pieces.now) }
{
    let digests = digests_of(alloc, pieces)?;
    Ok(of_digests(&digests))
}

/// The file that the commit makes of the pieces.
pub(crate) fn file_of(
    alloc: Global,
    id: u64,
    rev: u64,
    moment: u64,
    commit: &Commit,
    pieces: &Pieces,
) -> Result<FileMeta, NoMemory>
    requires { size_of pieces.now < 2 ^ 64 }
    ensures { IfOk result (λ meta. meta ≡ file_of id rev moment commit.now pieces.now) }
{
    Ok(FileMeta {
        id,
        rev,
        size: size_of(pieces.as_slice()),
        hash: hash_on(alloc, pieces.as_slice())?,
        client: commit.client.unwrap_or(moment),
        server: moment,
        pieces: pieces.copy()?,
    })
}

/// The id of a file that is written over what stands there.
pub(crate) fn id_over(item: Option<&Shared<Item>>, next: u64) -> u64
    ensures { result ≡ id_over (target_of (option_copied item.entry)) next }
{
    match item {
        None => next,
        Some(item) => match &item.node {
            Node::File(meta) => meta.id,
            Node::Folder { .. } => next,
            Node::Mount { .. } => next,
        },
    }
}

/// The next id behind it.
pub(crate) fn next_over(item: Option<&Shared<Item>>, next: u64) -> u64
    requires { next < 2 ^ 63 }
    ensures { result ≡ next_over (target_of (option_copied item.entry)) next }
{
    match item {
        None => next + 1,
        Some(item) => match &item.node {
            Node::File(_) => next,
            Node::Folder { .. } => next + 1,
            Node::Mount { .. } => next + 1,
        },
    }
}

/// The pieces with the numbers of their blocks, from 0 on.
pub(crate) fn numbered(alloc: Global, pieces: &[Piece]) -> Result<BlockPieces, NoMemory>
    ensures { IfOk result (λ held. held ≡ numbered 0 pieces.now) }
{
    let mut held = Items::empty(alloc);
    let mut block = 0;
    for piece in pieces {
        held.push(BlockPiece {
            block,
            piece: *piece,
        })?;
        block += 1;
    }
    Ok(held)
}
