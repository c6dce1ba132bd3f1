//! The characters of a text, with the place of each.

ghost use Rattle.std.specs.Prelude.{◌≡◌, ℕ, ◌+◌, ◌-◌, ◌*◌, ◌≤◌, ◌<◌, ◌^◌, length, slice_index, IfOk};
ghost use Rattle.rl_base.specs.Lines.{line_starts, Rises, IsCount, AreCounts};

use crate::place::Place;
use std::alloc::{AllocError, Global};
use std::marker::Model;

// How many characters share an entry in the index of lines.
const BLOCK: u32 = 64;

/// The characters of a text, at most 2^24 of them. Contracts see it as the list of their codes.
#[derive(Drop)]
pub struct Chars {
    items: Vec<char>,
    // The offsets behind the line feeds.
    starts: Vec<u32>,
    // For each block of characters, how many lines start at or before its first offset.
    ended: Vec<u32>,
}

impl Model for Chars {
    ghost use Rattle.std.specs.Prelude.{ℕ, List, ◌≡◌, ◌*◌, ◌≤◌, ◌<◌, ◌^◌, length};
    ghost use Rattle.rl_base.specs.Lines.{line_starts, AreCounts};

    ghost Value = { List ℕ };

    ghost view = { λ t. t.items.items };

    ghost invariant = { λ t. (length t.items.items ≤ 2 ^ 24)
        × (t.starts.items ≡ line_starts 0 t.items.items)
        × (AreCounts t.starts.items t.ended.items)
        × (length t.items.items < 64 * length t.ended.items) };
}

impl Chars {
    ghost use Rattle.rl_base.specs.Text.{place_of};

    pub(crate) fn new(alloc: Global, items: Vec<char>) -> Result<Chars, AllocError>
        requires { length items.items ≤ 2 ^ 24 }
        ensures { IfOk result (λ text. text ≡ items.items) }
    {
        let starts = line_starts(alloc, &items)?;
        let ended = counts(alloc, &starts, items.len() as u32)?;
        Ok(Chars {
            items,
            starts,
            ended,
        })
    }

    /// How many characters there are.
    pub fn len(&self) -> u32
        ensures count { result ≡ length self.now }
        ensures limit { result ≤ 2 ^ 24 }
    {
        self.items.len() as u32
    }

    /// The character at the offset.
    pub fn at(&self, i: u32) -> char
        requires { i < length self.now }
        ensures { result ≡ slice_index self.now i }
    {
        self.items[i as usize]
    }

    /// The characters in order.
    pub fn as_slice(&self) -> &[char]
        ensures value { result.now ≡ self.now }
        ensures limit { length result.now ≤ 2 ^ 24 }
    {
        &self.items
    }

    /// The place of the offset in the text of the module.
    pub fn place(&self, module: u32, offset: u32) -> Place
        requires { offset ≤ length self.now }
        ensures { result ≡ place_of self.now «module» offset }
    {
        let ended = count_at_most(&self.starts, &self.ended, offset);
        let start = line_start(&self.starts, ended);
        Place {
            module,
            offset,
            line: ended as u32 + 1,
            column: offset - start + 1,
        }
    }
}

fn line_starts(alloc: Global, items: &[char]) -> Result<Vec<u32>, AllocError>
    requires { length items.now ≤ 2 ^ 24 }
    ensures { IfOk result (λ starts. starts.items ≡ line_starts 0 items.now) }
{
    let mut starts = Vec::new(alloc);
    for (i, c) in items.iter().enumerate() {
        if *c == '\n' {
            starts.push(i as u32 + 1)?;
        }
    }
    Ok(starts)
}

// The offset at which a line begins, in front of which so many lines end.
fn line_start(starts: &[u32], ended: usize) -> u32
    requires { ended ≤ length starts.now }
    ensures first { ended ≡ 0 → result ≡ 0 }
    ensures later { 0 < ended → result ≡ slice_index starts.now (ended - 1) }
{
    if ended == 0 { 0 } else { starts[ended - 1] }
}

// The index of the rising numbers: how many are at most the first offset of each block.
fn counts(alloc: Global, numbers: &[u32], len: u32) -> Result<Vec<u32>, AllocError>
    requires rises { Rises numbers.now }
    requires few { length numbers.now ≤ 2 ^ 24 }
    requires limit { len ≤ 2 ^ 24 }
    ensures { IfOk result (λ counts. (AreCounts numbers.now counts.items)
        × (len < 64 * length counts.items)) }
{
    let mut counts = Vec::new(alloc);
    for block in 0..len / BLOCK + 1 {
        let count = count_between(numbers, 0, numbers.len(), block * BLOCK);
        counts.push(count as u32)?;
    }
    Ok(counts)
}

// How many of the rising numbers are at most the bound, looked up in its block alone.
fn count_at_most(numbers: &[u32], counts: &[u32], bound: u32) -> usize
    requires rises { Rises numbers.now }
    requires counted { AreCounts numbers.now counts.now }
    requires within { bound < 64 * length counts.now }
    ensures { IsCount numbers.now bound result }
{
    let block = (bound / BLOCK) as usize;
    let low = counts[block] as usize;
    let high = block_end(numbers, counts, block);
    count_between(numbers, low, high, bound)
}

// From where on the numbers are behind the block.
fn block_end(numbers: &[u32], counts: &[u32], block: usize) -> usize
    requires counted { AreCounts numbers.now counts.now }
    requires within { block < length counts.now }
    ensures within { result ≤ length numbers.now }
    ensures above { (k : ℕ) → result ≤ k → k < length numbers.now
        → 64 * (block + 1) < slice_index numbers.now k }
{
    if block + 1 < counts.len() {
        counts[block + 1] as usize
    } else {
        numbers.len()
    }
}

// How many of the rising numbers are at most the bound, by halving between `low` and `high`.
fn count_between(numbers: &[u32], mut low: usize, mut high: usize, bound: u32) -> usize
    requires rises { Rises numbers.now }
    requires in_order { low ≤ high }
    requires within { high ≤ length numbers.now }
    requires below { (k : ℕ) → k < low → slice_index numbers.now k ≤ bound }
    requires above { (k : ℕ) → high ≤ k → k < length numbers.now
        → bound < slice_index numbers.now k }
    ensures { IsCount numbers.now bound result }
{
    while low < high {
        let middle = low + (high - low) / 2;
        if numbers[middle] <= bound {
            low = middle + 1;
        } else {
            high = middle;
        }
    }
    low
}
