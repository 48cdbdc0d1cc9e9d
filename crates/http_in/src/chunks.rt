ghost use Rattle.std.specs.Prelude.{◌≡◌, ◌≤◌, length};
ghost use Rattle.http_in.specs.LineVerdicts.{IsLineVerdict};
ghost use Rattle.http_in.specs.Advance.{IsMove, Falls, IsEndVerdict, IsTrailerVerdict, shrunk, due};

use crate::heads::SPANS;
use crate::held::Held;
use crate::limits::{CHUNK_LINE_MAX_BYTES, HEAD_MAX_BYTES, HEAD_MAX_LINES};
use crate::place::Place;
use httparse::spans::{HeaderSpan, parse_headers};
use httparse::{Status, parse_chunk_size};

/// The most bytes of a chunk line with its CR LF.
const LINE_BYTES: usize = CHUNK_LINE_MAX_BYTES + 2;

/// What one move came to.
#[derive(Clone, Copy, Drop)]
pub(crate) enum Move {
    /// On to this place.
    To(Place),
    /// So many bytes of content come.
    Gives(u64),
    /// More bytes must come first.
    Wants,
    Done,
    Bad,
    TooLarge,
}

/// What the bytes at hand say of a chunk line.
#[derive(Clone, Copy, Drop)]
enum LineVerdict {
    Whole(usize, u64),
    Bad,
    Unfinished,
}

fn judge_line(held: &[u8]) -> LineVerdict
    ensures { IsLineVerdict held.now result }
{
    let line = &held[..held.len().min(LINE_BYTES)];
    match parse_chunk_size(line) {
        Ok(Status::Complete((len, size))) => LineVerdict::Whole(len, size),
        Ok(Status::Partial) => {
            if held.len() < LINE_BYTES {
                LineVerdict::Unfinished
            } else {
                LineVerdict::Bad
            }
        }
        Err(_) => LineVerdict::Bad,
    }
}

/// What the bytes at hand say of the end of a chunk.
#[derive(Clone, Copy, Drop)]
enum EndVerdict {
    Whole,
    Bad,
    Unfinished,
}

fn judge_end(held: &[u8]) -> EndVerdict
    ensures { IsEndVerdict held.now result }
{
    if held.is_empty() {
        return EndVerdict::Unfinished;
    }
    if held[0] != 13 {
        return EndVerdict::Bad;
    }
    if held.len() < 2 {
        return EndVerdict::Unfinished;
    }
    if held[1] != 10 {
        return EndVerdict::Bad;
    }
    EndVerdict::Whole
}

/// What the bytes at hand say of trailers.
#[derive(Clone, Copy, Drop)]
enum TrailerVerdict {
    Whole(usize),
    TooLarge,
    Bad,
    Unfinished,
}

fn judge_trailers(held: &[u8], spans: &mut [HeaderSpan]) -> TrailerVerdict
    requires within { length held.now ≤ HEAD_MAX_BYTES }
    requires room { length spans.old ≡ SPANS }
    ensures { IsTrailerVerdict held.now result }
{
    match parse_headers(held, spans) {
        Ok(Status::Complete((len, count))) => {
            if count <= HEAD_MAX_LINES {
                TrailerVerdict::Whole(len)
            } else {
                TrailerVerdict::TooLarge
            }
        }
        Ok(Status::Partial) => {
            if held.len() < HEAD_MAX_BYTES {
                TrailerVerdict::Unfinished
            } else {
                TrailerVerdict::TooLarge
            }
        }
        Err(_) => TrailerVerdict::Bad,
    }
}

/// The move at a chunk line.
fn at_line(budget: u64, held: &mut Held) -> Move
    ensures is { IsMove (Place.Line budget) held.old result held.new }
    ensures falls { Falls (Place.Line budget) result (length held.new) }
    ensures within { length held.new ≤ length held.old }
{
    match judge_line(held.as_slice()) {
        LineVerdict::Whole(len, size) => {
            if size > budget {
                return Move::TooLarge;
            }
            held.drop_front(len);
            if size == 0 {
                Move::To(Place::Trailers)
            } else {
                Move::To(Place::Chunk(size, budget - size))
            }
        }
        LineVerdict::Bad => Move::Bad,
        LineVerdict::Unfinished => Move::Wants,
    }
}

/// The move at the end of a chunk.
fn at_end(budget: u64, held: &mut Held) -> Move
    ensures is { IsMove (Place.ChunkEnd budget) held.old result held.new }
    ensures falls { Falls (Place.ChunkEnd budget) result (length held.new) }
    ensures within { length held.new ≤ length held.old }
{
    match judge_end(held.as_slice()) {
        EndVerdict::Whole => {
            held.drop_front(2);
            Move::To(Place::Line(budget))
        }
        EndVerdict::Bad => Move::Bad,
        EndVerdict::Unfinished => Move::Wants,
    }
}

/// The move at the trailers.
fn at_trailers(held: &mut Held, spans: &mut [HeaderSpan]) -> Move
    requires within { length held.old ≤ HEAD_MAX_BYTES }
    requires room { length spans.old ≡ SPANS }
    ensures is { IsMove Place.Trailers held.old result held.new }
    ensures falls { Falls Place.Trailers result (length held.new) }
    ensures within { length held.new ≤ length held.old }
{
    match judge_trailers(held.as_slice(), spans) {
        TrailerVerdict::Whole(len) => {
            held.drop_front(len);
            Move::Done
        }
        TrailerVerdict::TooLarge => Move::TooLarge,
        TrailerVerdict::Bad => Move::Bad,
        TrailerVerdict::Unfinished => Move::Wants,
    }
}

/// The move at a place.
pub(crate) fn advance(place: Place, held: &mut Held, spans: &mut [HeaderSpan]) -> Move
    requires within { length held.old ≤ HEAD_MAX_BYTES }
    requires room { length spans.old ≡ SPANS }
    ensures is { IsMove place held.old result held.new }
    ensures falls { Falls place result (length held.new) }
    ensures within { length held.new ≤ length held.old }
{
    match place {
        Place::Known(count) => {
            if count == 0 {
                Move::Done
            } else {
                Move::Gives(count)
            }
        }
        Place::Line(budget) => at_line(budget, held),
        Place::Chunk(count, budget) => {
            if count == 0 {
                Move::To(Place::ChunkEnd(budget))
            } else {
                Move::Gives(count)
            }
        }
        Place::ChunkEnd(budget) => at_end(budget, held),
        Place::Trailers => at_trailers(held, spans),
        Place::Over => Move::TooLarge,
    }
}

/// The place after so many bytes of content.
pub(crate) fn shrink(place: Place, count: u64) -> Place
    requires { count ≤ due place }
    ensures { result ≡ shrunk place count }
{
    match place {
        Place::Known(most) => Place::Known(most - count),
        Place::Chunk(most, budget) => Place::Chunk(most - count, budget),
        other => other,
    }
}
