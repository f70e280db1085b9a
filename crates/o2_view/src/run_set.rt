// Runs of numbers, and whether a number lies in one.
ghost use Rattle.std.specs.Prelude.{◌≡◌, ◌+◌, ◌<◌, ◌≤◌, ◌^◌, ℕ, List, [], ◌∷◌, ◌++◌, All, OnOk, OnErr, IfSome, IfNone, Some, None, true, false};
ghost use Rattle.std.specs.Ordering.{nat_cmp};
ghost use Rattle.std.specs.BTreeMap.{get};
ghost use Rattle.o2_view.specs.Plans.{is_in_runs};
ghost use Rattle.o2_view.specs.Indexes.{AreSpans, IsAdding};

use o2_disk::NoMemory;
use std::alloc::Global;
use std::collections::BTreeMap;
use std::marker::Model;

/// Runs of numbers, each by its first number and how many there are, in the order in which they were added.
#[derive(Drop)]
pub struct RunSet {
    runs: Vec<(u64, u64)>,
    // Spans of these numbers, each by its first number with the number behind it. A later one ends later.
    ends: BTreeMap<u64, u64>,
}

impl Model for RunSet {
    ghost use Rattle.std.specs.Prelude.{ℕ, List};
    ghost use Rattle.std.specs.Ordering.{nat_cmp};
    ghost use Rattle.std.specs.BTreeMap.{get};
    ghost use Rattle.o2_view.specs.Indexes.{AreRuns};

    ghost Value = { List (ℕ × ℕ) };

    ghost view = { λ set. set.runs.items };

    ghost invariant = { λ set. AreRuns set.runs.items (get nat_cmp set.ends) };
}

// The last span that begins at b or before.
fn span_up_to(ends: &BTreeMap<u64, u64>, b: u64) -> Option<(u64, u64)>
    ensures found { IfSome result (λ span. (span.0 ≤ b) × (get nat_cmp ends.now span.0 ≡ Some span.1)) }
    ensures last { IfSome result (λ span. (s e : ℕ) → get nat_cmp ends.now s ≡ Some e → s ≤ b → s ≤ span.0) }
    ensures none { IfNone result ((s e : ℕ) → get nat_cmp ends.now s ≡ Some e → b < s) }
{
    match ends.range(..=b).next_back() {
        Some((first, end)) => Some((*first, *end)),
        None => None,
    }
}

// The first span that begins behind b.
fn span_behind(ends: &BTreeMap<u64, u64>, b: u64) -> Option<(u64, u64)>
    requires { b + 1 < 2 ^ 64 }
    ensures found { IfSome result (λ span. (b < span.0) × (get nat_cmp ends.now span.0 ≡ Some span.1)) }
    ensures first { IfSome result (λ span. (s e : ℕ) → get nat_cmp ends.now s ≡ Some e → b < s → span.0 ≤ s) }
    ensures none { IfNone result ((s e : ℕ) → get nat_cmp ends.now s ≡ Some e → s ≤ b) }
{
    match ends.range(b + 1..).next() {
        Some((first, end)) => Some((*first, *end)),
        None => None,
    }
}

// Adds the span of a run, and drops those behind it that end no later.
fn add_span(ends: &mut BTreeMap<u64, u64>, first: u64, count: u64) -> Result<(), NoMemory>
    requires { first + count < 2 ^ 64 }
    ensures ok { OnOk result ((runs : List (ℕ × ℕ)) → AreSpans runs (get nat_cmp ends.old) → AreSpans (runs ++ (first, count) ∷ []) (get nat_cmp ends.new)) }
    ensures err { OnErr result ((runs : List (ℕ × ℕ)) → AreSpans runs (get nat_cmp ends.old) → AreSpans runs (get nat_cmp ends.new)) }
{
    if count == 0 {
        return Ok(());
    }
    let end = first + count;
    if let Some((_, last)) = span_up_to(ends, first) {
        if end <= last {
            return Ok(());
        }
    }
    let Ok(_) = ends.insert(first, end) else {
        return Err(NoMemory);
    };
    drop_useless(ends, first, end);
    Ok(())
}

// Drops the spans behind the one at `first` that end no later.
fn drop_useless(ends: &mut BTreeMap<u64, u64>, first: u64, end: u64)
    requires { first + 1 < 2 ^ 64 }
    ensures { (runs : List (ℕ × ℕ)) → IsAdding runs first end (get nat_cmp ends.old) → AreSpans runs (get nat_cmp ends.new) }
{
    while let Some((next, last)) = span_behind(ends, first) {
        if end < last {
            return;
        }
        ends.remove(&next);
    }
}

impl RunSet {
    /// A set of no runs.
    pub fn new(alloc: Global) -> Self
        ensures { result ≡ [] }
    {
        RunSet {
            runs: Vec::new(alloc),
            ends: BTreeMap::new(alloc),
        }
    }

    /// One run more.
    pub fn push(&mut self, first: u64, count: u64) -> Result<(), NoMemory>
        requires { first + count < 2 ^ 64 }
        ensures ok { OnOk result (self.new ≡ self.old ++ (first, count) ∷ []) }
        ensures err { OnErr result (self.new ≡ self.old) }
    {
        let Ok(()) = self.runs.push((first, count)) else {
            return Err(NoMemory);
        };
        let Ok(()) = add_span(&mut self.ends, first, count) else {
            self.runs.pop();
            return Err(NoMemory);
        };
        Ok(())
    }

    /// Whether b lies in one of the runs.
    pub fn has(&self, b: u64) -> bool
        ensures { result ≡ is_in_runs self.now b }
    {
        match span_up_to(&self.ends, b) {
            Some((_, end)) => b < end,
            None => false,
        }
    }

    /// Whether a number from `first` to below `first + count` lies in one of the runs.
    pub fn meets(&self, first: u64, count: u64) -> bool
        requires { first + count < 2 ^ 64 }
        ensures some { result ≡ true → ((b : ℕ) × (first ≤ b) × (b < first + count) × (is_in_runs self.now b ≡ true)) }
        ensures none { result ≡ false → (b : ℕ) → first ≤ b → b < first + count → is_in_runs self.now b ≡ false }
    {
        if count == 0 {
            return false;
        }
        // Of the spans that begin below the end, the last ends last.
        match span_up_to(&self.ends, first + count - 1) {
            Some((_, end)) => first < end,
            None => false,
        }
    }

    /// All runs.
    pub fn as_slice(&self) -> &[(u64, u64)]
        ensures items { result.now ≡ self.now }
        ensures ends { All (λ run. run.0 + run.1 < 2 ^ 64) self.now }
    {
        &self.runs
    }
}
