//! Lock orders in JSON.

ghost use Rattle.std.specs.Prelude.{◌≡◌, ◌++◌, OnOk};
ghost use Rattle.json.specs.Tree.{items_tokens, json_tokens};
ghost use Rattle.answer_stats.specs.Order.{edge_json, edges_json, edges_of, lock_json};
ghost use Rattle.answer_stats.specs.Order.{locks_json, order_json, orders_json, paired_json};
ghost use Rattle.answer_stats.specs.Order.{spin_lock_json};

use json::Writer;
use model::event::{Lock, Subject};
use model::set::Guard;
use report_json::event::write_subject;
use report_json::member::{put_number, put_text};
use std::alloc::AllocError;
use verifier_orders::{Edge, LockOrder};

/// Writes the orders of drivers, to the end of the array.
pub(crate) fn write_orders(out: &mut Writer, orders: &[LockOrder]) -> Result<(), AllocError>
    ensures before { out.new.before ≡ out.old.before }
    ensures tokens { OnOk result
        (out.new.tokens ≡ out.old.tokens ++ items_tokens (orders_json 0 orders.now)) }
{
    for (driver, order) in orders.iter().enumerate() {
        write_order(out, driver as u64, order)?;
    }
    out.end_array()
}

/// Writes the order of the driver of a number.
fn write_order(out: &mut Writer, driver: u64, order: &LockOrder) -> Result<(), AllocError>
    ensures before { out.new.before ≡ out.old.before }
    ensures tokens { OnOk result
        (out.new.tokens ≡ out.old.tokens ++ json_tokens (order_json driver order.now)) }
{
    out.begin_object()?;
    put_number(out, "driver", driver)?;
    out.key("order")?;
    write_paired(out, order)?;
    out.key("cycle")?;
    out.begin_array()?;
    write_edges(out, edges_of(order))?;
    out.end_object()
}

/// Writes the locks of which one is taken while another is held, in order, if they have one.
fn write_paired(out: &mut Writer, order: &LockOrder) -> Result<(), AllocError>
    ensures before { out.new.before ≡ out.old.before }
    ensures tokens { OnOk result
        (out.new.tokens ≡ out.old.tokens ++ json_tokens (paired_json order.now)) }
{
    match order {
        LockOrder::Ordered(locks) => {
            out.begin_array()?;
            write_locks(out, locks.paired.as_slice())
        }
        LockOrder::Cycle(_) => out.null(),
    }
}

/// The edges of a cycle, or none where there is an order.
fn edges_of(order: &LockOrder) -> &[Edge]
    ensures { result.now ≡ edges_of order.now }
{
    match order {
        LockOrder::Ordered(_) => &[],
        LockOrder::Cycle(edges) => edges.as_slice(),
    }
}

/// Writes locks, to the end of the array.
fn write_locks(out: &mut Writer, locks: &[Guard]) -> Result<(), AllocError>
    ensures before { out.new.before ≡ out.old.before }
    ensures tokens { OnOk result
        (out.new.tokens ≡ out.old.tokens ++ items_tokens (locks_json locks.now)) }
{
    for lock in locks {
        write_lock(out, lock)?;
    }
    out.end_array()
}

/// Writes edges, to the end of the array.
fn write_edges(out: &mut Writer, edges: &[Edge]) -> Result<(), AllocError>
    ensures before { out.new.before ≡ out.old.before }
    ensures tokens { OnOk result
        (out.new.tokens ≡ out.old.tokens ++ items_tokens (edges_json edges.now)) }
{
    for edge in edges {
        write_edge(out, edge)?;
    }
    out.end_array()
}

/// Writes where a routine takes a lock, and under which.
fn write_edge(out: &mut Writer, edge: &Edge) -> Result<(), AllocError>
    ensures before { out.new.before ≡ out.old.before }
    ensures tokens { OnOk result
        (out.new.tokens ≡ out.old.tokens ++ json_tokens (edge_json edge.now)) }
{
    out.begin_object()?;
    put_number(out, "routine", edge.routine as u64)?;
    put_number(out, "position", edge.at as u64)?;
    out.key("taken")?;
    write_lock(out, &edge.taken)?;
    out.key("held")?;
    write_lock(out, &edge.held)?;
    out.end_object()
}

/// Writes a lock.
fn write_lock(out: &mut Writer, lock: &Guard) -> Result<(), AllocError>
    ensures before { out.new.before ≡ out.old.before }
    ensures tokens { OnOk result
        (out.new.tokens ≡ out.old.tokens ++ json_tokens (lock_json lock.now)) }
{
    match lock {
        Guard::DeviceLock(spin) => write_spin_lock(out, spin.index() as u64),
        Guard::CancelLock => write_subject(out, Subject::Lock(Lock::SystemCancel)),
    }
}

/// Writes the spin lock of a number.
fn write_spin_lock(out: &mut Writer, number: u64) -> Result<(), AllocError>
    ensures before { out.new.before ≡ out.old.before }
    ensures tokens { OnOk result
        (out.new.tokens ≡ out.old.tokens ++ json_tokens (spin_lock_json number)) }
{
    out.begin_object()?;
    put_text(out, "kind", "spin_lock")?;
    put_number(out, "lock", number)?;
    out.end_object()
}
