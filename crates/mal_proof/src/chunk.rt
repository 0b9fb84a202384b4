//! Chunks of a log.

ghost use Rattle.std.specs.Prelude.{◌≡◌, ℕ, ◌-◌, ◌<◌, ◌≤◌, length, slice_index_or};
ghost use Rattle.mal_proof.specs.Logged.{AreCounted, HasPlace};

use mal_base::Lines;

/// Lines that stand in a log, how many lines of the log there are up to the end of these, and whether they are marked.
#[derive(Drop)]
pub struct Chunk {
    pub lines: Lines,
    pub end: usize,
    pub ends: bool,
}

/// How many of these chunks, which stand at the front of a log, end before a line or at it, the lines counted from 0:
/// the next chunk has the line.
pub fn chunks_before(chunks: &[Chunk], n: usize) -> usize
    requires { AreCounted 0 chunks.now }
    ensures bound { result ≤ length chunks.now }
    ensures before { (k : ℕ) (d : Chunk) → k < result → (slice_index_or chunks.now k d).end ≤ n }
    ensures behind { (k : ℕ) (d : Chunk) → result ≤ k → k < length chunks.now
        → n < (slice_index_or chunks.now k d).end }
{
    chunks.partition_point(|chunk| chunk.end <= n)
}

/// The place, among lines that end so in a log, of the log's line of this number, counted from 0, which they have.
pub fn place_among(lines: &Lines, end: usize, n: usize) -> usize
    requires { HasPlace lines.now.lines end n }
    ensures value { result ≡ n - (end - length lines.now.lines) }
    ensures within { result < length lines.now.lines }
{
    n - (end - lines.count())
}
