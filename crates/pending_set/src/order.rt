ghost use Rattle.std.specs.Prelude.{◌≡◌, ℕ, ◌<◌, ◌≤◌, ◌^◌, IfOk, length, slice_index, slice_index_or, map};
ghost use Rattle.pending_set.specs.Ranking.{IsPrecedence, IsRank, IsWhole, AreEntries};

use rx_value::Memory;
use std::alloc::Global;
use std::cmp::Reverse;

/// A number behind its priority, so that Rust's order of pairs is the order of precedence.
pub type Entry = (Reverse<i64>, u32);

fn entries(alloc: Global, priorities: &[i64]) -> Result<Vec<Entry>, Memory>
    requires { length priorities.now < 2 ^ 32 }
    ensures { IfOk result (λ v. AreEntries priorities.now (length priorities.now) v.items) }
{
    let mut entries = Vec::new(alloc);
    for (number, priority) in priorities.iter().enumerate() {
        if entries.push((Reverse(*priority), number as u32)).is_err() {
            return Err(Memory);
        }
    }
    Ok(entries)
}

fn numbers(alloc: Global, entries: &[Entry]) -> Result<Vec<u32>, Memory>
    ensures { IfOk result (λ v. v.items ≡ map (λ e. e.1) entries.now) }
{
    Ok(entries.iter().map(|entry| entry.1).collect(alloc)?)
}

/// All numbers, each behind those that come before it.
pub fn precedence(alloc: Global, priorities: &[i64]) -> Result<Vec<u32>, Memory>
    requires { length priorities.now < 2 ^ 32 }
    ensures { IfOk result (λ v. IsPrecedence priorities.now v.items) }
{
    let mut entries = entries(alloc, priorities)?;
    entries.sort_unstable();
    numbers(alloc, entries.as_slice())
}

/// Where each number stands in the order.
pub fn ranks(alloc: Global, order: &[u32]) -> Result<Vec<u32>, Memory>
    requires short { length order.now < 2 ^ 32 }
    requires whole { IsWhole order.now }
    ensures { IfOk result (λ v. IsRank order.now v.items) }
{
    let mut ranks = vec![in alloc; 0; order.len()]?;
    for (place, number) in order.iter().enumerate() {
        ranks[*number as usize] = place as u32;
    }
    Ok(ranks)
}
