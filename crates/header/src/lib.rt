// The header read and checked, and what a log may list.
#![tactic(auto)]

ghost use Rattle.std.specs.Prelude.{◌≡◌, ◌==◌, true, ◌+◌, ◌*◌, ◌<◌, ◌≤◌, not, List, ℕ, length, take, take_while};
ghost use Rattle.std.specs.List.{list_all};
ghost use Rattle.spec.specs.Bytes.{distinct};
ghost use Rattle.spec.specs.Disk.{is_target};
ghost use Rattle.spec.specs.Journal.{targets_in, is_record_wrong, header_fault, are_targets};
ghost use Rattle.block.specs.Places.{found_at};
ghost use Rattle.header.specs.Header.{record_targets, ascends};

use block::{is_target, load2};
use spec::{DiskBlock, Limits};
use std::marker::Model;
use zeros::{is_zero, is_zero_at};

// What a log lists: the first `count` cells, the others are 0. No ArrayVec, which is not Copy.
#[derive(Clone, Copy)]
pub struct Targets {
    cells: [u32; Limits::LOG_LENGTH],
    count: usize,
}

impl Model for Targets {
    ghost use Rattle.std.specs.Prelude.{ℕ, List, ◌++◌, ◌-◌, length, take, replicate};
    ghost use mathlib.Core.Path.{ap₂};
    ghost use Rattle.lists.specs.Padded.{Padded, padded-count, padded-cells};

    ghost Value = { List ℕ };

    ghost view = { λ t. take t.count t.cells };

    ghost invariant = { λ t. Padded 32 t.cells t.count };

    ghost inverse = { λ l. record { cells = l ++ replicate (32 - length l) 0; count = length l } };

    ghost inverse_ok = { λ t h. ap₂ (λ (cells : List ℕ) (count : ℕ). record { cells = cells; count = count })
        (padded-cells 32 t.cells t.count h) (padded-count 32 t.cells t.count h) };
}

impl Targets {
    // How many there are.
    pub fn len(&self) -> usize
        ensures { (result ≡ length self.now) × (result ≤ 32) }
    {
        self.as_slice().len()
    }

    // The targets as a slice.
    pub fn as_slice(&self) -> &[u32]
        ensures { (result.now ≡ self.now) × (length result.now ≤ 32) }
    {
        &self.cells[..self.count]
    }

    // Whether a log may list them.
    pub fn are_targets(&self, blocks: usize) -> bool
        ensures { result ≡ are_targets blocks self.now }
    {
        can_list(blocks, self.as_slice())
    }
}

// ---- the records

// The targets of all records, the empty ones included.
fn record_targets(head: &[u8]) -> [u32; Limits::LOG_LENGTH]
    ensures { result ≡ record_targets head.now }
{
    std::array::from_fn(|i| load2(head, Limits::LOG_RECORD_SIZE * i))
}

// Whether record i is wrong, where l has the targets of all records.
fn is_record_wrong(blocks: usize, head: &[u8], l: &[u32; Limits::LOG_LENGTH], i: usize) -> bool
    requires { (l.now ≡ record_targets head.now) × (i < 32) }
    ensures { result ≡ is_record_wrong blocks head.now i }
{
    let t = l[i];
    let before = &l[..i];
    let outside = !is_target(blocks, DiskBlock(t));
    let seen = before.contains(&t);
    let late = before.contains(&0);
    let blank = is_zero_at(head, Limits::LOG_RECORD_SIZE * i + 2, 14);
    ((t != 0) & (outside | seen | late)) | !blank
}

// Refusal 10: the lowest record that is wrong. A header is zero but for the time of a commit.
pub fn header_fault(blocks: usize, head: &[u8]) -> Option<usize>
    ensures { result ≡ found_at (header_fault blocks head.now) }
{
    if is_zero(head) {
        return None;
    }
    let l = record_targets(head);
    (0..Limits::LOG_LENGTH).find(|i| is_record_wrong(blocks, head, &l, *i))
}

// How many records are used, before the first empty one.
fn used(l: &[u32]) -> usize
    ensures { result ≡ length (take_while (λ t. not (t == 0)) l.now) }
{
    l.iter().take_while(|t| **t != 0).count()
}

// The targets of the leading used records. Of a header with none the other records are not read.
pub fn targets_in(head: &[u8]) -> Targets
    ensures { result ≡ targets_in head.now }
{
    if load2(head, 0) == 0 {
        return Targets {
            cells: [0; Limits::LOG_LENGTH],
            count: 0,
        };
    }
    let mut cells = record_targets(head);
    let count = used(&cells);
    cells[count..].fill(0);
    Targets { cells, count }
}

// ---- what a log may list

// Whether each target lies within 33 to N-1.
fn are_inside(blocks: usize, l: &[u32]) -> bool
    ensures { result ≡ list_all (λ b. is_target blocks b) l.now }
{
    l.iter().all(|b| is_target(blocks, DiskBlock(*b)))
}

// Whether each target is lower than the next.
pub fn is_ascending(l: &[u32]) -> bool
    ensures { result ≡ ascends l.now }
{
    l.is_sorted_by(|a, b| a < b)
}

// Whether no target is listed twice.
fn is_distinct(l: &[u32]) -> bool
    ensures { result ≡ distinct l.now }
{
    l.iter().enumerate().all(|(i, x)| !l[i + 1..].contains(x))
}

// Whether a log may list targets that ascend: at least one, the first and the last within 33 to N-1.
pub fn can_list_up(blocks: usize, l: &[u32]) -> bool
    requires { ascends l.now ≡ true }
    ensures { result ≡ are_targets blocks l.now }
{
    let Some((first, last)) = l.first().zip(l.last()) else {
        return false;
    };
    is_target(blocks, DiskBlock(*first)) & is_target(blocks, DiskBlock(*last))
}

// Whether a log may list them: at least one, each within 33 to N-1, none twice.
pub fn can_list(blocks: usize, l: &[u32]) -> bool
    ensures { result ≡ are_targets blocks l.now }
{
    if is_ascending(l) {
        return can_list_up(blocks, l);
    }
    are_inside(blocks, l) & is_distinct(l)
}
