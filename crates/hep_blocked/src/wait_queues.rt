//! Wait queues: under each want, the processes that wait for it.
ghost use Rattle.std.specs.Prelude.{◌≡◌, OnErr, OnOk, IsSome};
ghost use Rattle.indexmap.specs.IndexMap.{IsUnique, get};
ghost use Rattle.hep_cells.specs.declared.want.Want.{Want as PureWant};
ghost use Rattle.hep_blocked.specs.WaitQueues.{items_of, list_of, want_eq, with_process, without_list, without_process};

use hep_cells::Want;
use indexmap::IndexMap;
use std::alloc::{AllocError, Global};

/// The wait queues, under what their processes wait for.
pub type WaitQueues = IndexMap<Want, Vec<u64>>;

/// Adds a process to the queue of a want. Fails where memory was refused, and no queue has changed then.
pub fn add(alloc: Global, lists: &mut WaitQueues, want: Want, p: u64) -> Result<(), AllocError>
    requires unique { IsUnique want_eq lists.old }
    ensures unique { IsUnique want_eq lists.new }
    ensures added { OnOk result ((w : PureWant) → list_of lists.new w ≡ with_process want p (list_of lists.old) w) }
    ensures refused { OnErr result ((w : PureWant) → list_of lists.new w ≡ list_of lists.old w) }
{
    open_list(alloc, lists, want)?;
    push(lists, want, p)
}

// Makes an empty queue for a want, unless there is one.
fn open_list(alloc: Global, lists: &mut WaitQueues, want: Want) -> Result<(), AllocError>
    requires unique { IsUnique want_eq lists.old }
    ensures unique { IsUnique want_eq lists.new }
    ensures there { OnOk result (IsSome (get want_eq lists.new want)) }
    ensures same { (w : PureWant) → list_of lists.new w ≡ list_of lists.old w }
{
    if !lists.contains_key(&want) {
        lists.insert(want, Vec::new(alloc))?;
    }
    Ok(())
}

// Adds a process to a queue that exists.
fn push(lists: &mut WaitQueues, want: Want, p: u64) -> Result<(), AllocError>
    requires { IsSome (get want_eq lists.old want) }
    ensures unique { IsUnique want_eq lists.new }
    ensures added { OnOk result ((w : PureWant) → list_of lists.new w ≡ with_process want p (list_of lists.old) w) }
    ensures refused { OnErr result ((w : PureWant) → list_of lists.new w ≡ list_of lists.old w) }
{
    if let Some(list) = lists.get_mut(&want) {
        list.push(p)?;
    }
    Ok(())
}

/// Removes a queue and returns it.
pub fn take(lists: &mut WaitQueues, want: Want) -> Option<Vec<u64>>
    ensures taken { list_of lists.old want ≡ items_of result }
    ensures rest { (w : PureWant) → list_of lists.new w ≡ without_list want (list_of lists.old) w }
    ensures unique { IsUnique want_eq lists.new }
{
    lists.swap_remove(&want)
}

/// Removes a process from the queue of a want.
pub fn take_out(lists: &mut WaitQueues, want: Want, p: u64)
    requires unique { IsUnique want_eq lists.old }
    ensures unique { IsUnique want_eq lists.new }
    ensures left { (w : PureWant) → list_of lists.new w ≡ without_process want p (list_of lists.old) w }
{
    if let Some(list) = lists.get_mut(&want) {
        list.retain(|q| *q != p);
    }
}
