//! Workers in threads.
ghost use Rattle.std.specs.Prelude.{◌≡◌, ◌+◌, ◌<◌, ◌≤◌, vec_len, vec_capacity, All};

use bound_word::BoundTable;
use gates::Gate;
use lock_model::WORKERS;
use search_worker::{Hands, Post, search};
use std::snapshot::Snapshot;
use std::sync::Wait;
use std::sync::ledger::Ledger;
use std::thread;
use std::thread::{Promise, PromisedHandle, Scope, Threads};

/// The promise that the seat that a worker hands back is of this table.
#[derive(Drop)]
pub(crate) struct OfTable(pub(crate) Snapshot<BoundTable>);

impl<L: Ledger> Promise<Hands<L>> for OfTable {
    ghost kept_by = { λ promise hands. hands.seat.table ≡ promise.0.value.table };
}

/// A worker in its thread.
pub(crate) type Running<L> = PromisedHandle<Hands<L>, OfTable>;

// Starts a worker, or runs it on this thread where no other can be made.
fn start<'s, E, L: Ledger + Send + Sync, R: Threads + Wait + Sync, G: Gate + Sync>(
    scope: &Scope<'s, E>,
    post: &'s Post<'s, L, R, G>,
    worker: u8,
    hands: Hands<L>,
    running: &mut Vec<Running<L>>,
    ended: &mut Vec<Hands<L>>,
)
    requires worker { worker < WORKERS }
    requires seat { hands.seat.table ≡ post.now.word.now.table }
    requires room_running { vec_len running.old < vec_capacity running.old }
    requires room_ended { vec_len ended.old < vec_capacity ended.old }
    ensures count { vec_len running.new + vec_len ended.new ≡ vec_len running.old + vec_len ended.old + 1 }
    ensures room { (vec_capacity running.new ≡ vec_capacity running.old) × (vec_capacity ended.new ≡ vec_capacity ended.old) }
    ensures running { All (λ h. h.promise.0.value.table ≡ post.now.word.now.table) running.old.items → All (λ h. h.promise.0.value.table ≡ post.now.word.now.table) running.new.items }
    ensures ended { All (λ h. h.seat.table ≡ post.now.word.now.table) ended.old.items → All (λ h. h.seat.table ≡ post.now.word.now.table) ended.new.items }
{
    match scope.spawn_with(OfTable(Snapshot::of(post.word)), move || {
        search(post, worker, hands)
    }) {
        Ok(handle) => running.push_reserved(handle),
        Err(refused) => ended.push_reserved((refused.value)()),
    }
}

// Starts all workers.
fn start_all<'s, E, L: Ledger + Send + Sync, R: Threads + Wait + Sync, G: Gate + Sync>(
    scope: &Scope<'s, E>,
    post: &'s Post<'s, L, R, G>,
    mut crew: Vec<Hands<L>>,
    running: &mut Vec<Running<L>>,
    ended: &mut Vec<Hands<L>>,
)
    requires few { vec_len crew ≤ WORKERS }
    requires seats { All (λ h. h.seat.table ≡ post.now.word.now.table) crew.items }
    requires empty { (vec_len running.old ≡ 0) × (vec_len ended.old ≡ 0) }
    requires room { (vec_len crew ≤ vec_capacity running.old) × (vec_len crew ≤ vec_capacity ended.old) }
    ensures count { vec_len running.new + vec_len ended.new ≡ vec_len crew }
    ensures room { vec_len crew ≤ vec_capacity ended.new }
    ensures running { All (λ h. h.promise.0.value.table ≡ post.now.word.now.table) running.new.items }
    ensures ended { All (λ h. h.seat.table ≡ post.now.word.now.table) ended.new.items }
{
    while let Some(hands) = crew.pop() {
        let worker = crew.len() as u8;
        start(scope, post, worker, hands, running, ended);
    }
}

// Waits for all threads, and puts what they hand back to what has ended.
fn join_all<L: Ledger, R: Threads + Wait, G: Gate>(
    post: &Post<'_, L, R, G>,
    mut running: Vec<Running<L>>,
    mut ended: Vec<Hands<L>>,
) -> Vec<Hands<L>>
    requires room { vec_len running + vec_len ended ≤ vec_capacity ended }
    requires running { All (λ h. h.promise.0.value.table ≡ post.now.word.now.table) running.items }
    requires ended { All (λ h. h.seat.table ≡ post.now.word.now.table) ended.items }
    ensures count { vec_len result ≡ vec_len running + vec_len ended }
    ensures seats { All (λ h. h.seat.table ≡ post.now.word.now.table) result.items }
{
    while let Some(handle) = running.pop() {
        ended.push_reserved(handle.join(post.rt));
    }
    ended
}

// Starts all workers and waits for them.
fn run_in<'s, E, L: Ledger + Send + Sync, R: Threads + Wait + Sync, G: Gate + Sync>(
    scope: &Scope<'s, E>,
    post: &'s Post<'s, L, R, G>,
    crew: Vec<Hands<L>>,
    mut running: Vec<Running<L>>,
    mut ended: Vec<Hands<L>>,
) -> Vec<Hands<L>>
    requires few { vec_len crew ≤ WORKERS }
    requires seats { All (λ h. h.seat.table ≡ post.now.word.now.table) crew.items }
    requires empty { (vec_len running ≡ 0) × (vec_len ended ≡ 0) }
    requires room { (vec_len crew ≤ vec_capacity running) × (vec_len crew ≤ vec_capacity ended) }
    ensures count { vec_len result ≡ vec_len crew }
    ensures seats { All (λ h. h.seat.table ≡ post.now.word.now.table) result.items }
{
    start_all(scope, post, crew, &mut running, &mut ended);
    join_all(post, running, ended)
}

/// Runs a worker for each of up to eight hands, each in a thread of its own where one can be made,
/// and waits for all. What they hand back is of the same table.
pub(crate) fn run_all<'s, L: Ledger + Send + Sync, R: Threads + Wait + Sync, G: Gate + Sync>(
    post: &Post<'s, L, R, G>,
    crew: Vec<Hands<L>>,
    running: Vec<Running<L>>,
    ended: Vec<Hands<L>>,
) -> Vec<Hands<L>>
    requires few { vec_len crew ≤ WORKERS }
    requires seats { All (λ h. h.seat.table ≡ post.now.word.now.table) crew.items }
    requires empty { (vec_len running ≡ 0) × (vec_len ended ≡ 0) }
    requires room { (vec_len crew ≤ vec_capacity running) × (vec_len crew ≤ vec_capacity ended) }
    ensures count { vec_len result ≡ vec_len crew }
    ensures seats { All (λ h. h.seat.table ≡ post.now.word.now.table) result.items }
{
    thread::scope(
        thread::scope_env(),
        post.rt,
        |scope| -> Vec<Hands<L>>
            requires few { vec_len crew ≤ WORKERS }
            requires seats { All (λ h. h.seat.table ≡ post.now.word.now.table) crew.items }
            requires empty { (vec_len running ≡ 0) × (vec_len ended ≡ 0) }
            requires room { (vec_len crew ≤ vec_capacity running) × (vec_len crew ≤ vec_capacity ended) }
            ensures count { vec_len result ≡ vec_len crew }
            ensures seats { All (λ h. h.seat.table ≡ post.entry.now.word.now.table) result.items }
        { run_in(scope, post, crew, running, ended) },
    )
}
