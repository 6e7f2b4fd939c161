//! A queue for each module, by its place.
ghost use Rattle.std.specs.Prelude.{◌≡◌, ◌<◌, ◌+◌, ◌-◌, ◌∷◌, ◌++◌, ℕ, Bool, List, [], All, IfOk};
ghost use Rattle.std.specs.Prelude.{IfSome, IfNone, IsTrue, IsFalse, OnOk, Some, drop, get_or};
ghost use Rattle.std.specs.Prelude.{length, map, replicate, set, vec_len};
ghost use Rattle.std.specs.VecDeque.{deque_capacity, deque_len};
ghost use Rattle.std.specs.declared.cmp.Ordering.TheVariants.{Less};
ghost use Rattle.cip_event.specs.declared.frame.FrameName.{FrameName as Name};
ghost use Rattle.cip_world.specs.Names.{name_cmp};
ghost use Rattle.cip_threads.specs.Feeds.{feeds_of};
ghost use Rattle.cip_threads.specs.Queues.{queue_at, enqueue, count_all};
ghost use Rattle.cip_threads.specs.QueueSteps.{AreSplit, HasRoom, HaveRoom, IsLeast, Moved};

use crate::feed::Feed;
use cip_base::{ModuleId, NoMemory};
use cip_world::FrameName;
use std::alloc::Global;
use std::collections::VecDeque;

/// So many queues with nothing in them.
pub(crate) fn no_queues<T: Drop>(alloc: Global, count: usize) -> Result<Vec<VecDeque<T>>, NoMemory>
    ensures { IfOk result (λ v. map (λ q. q.items) v.items ≡ replicate count []) }
{
    let mut queues = Vec::new(alloc);
    for _i in 0..count {
        queues.push(VecDeque::new(alloc))?;
    }
    Ok(queues)
}

/// The first in a module's queue.
pub(crate) fn first_in<T>(queues: &[VecDeque<T>], m: usize) -> Option<&T>
    requires { m < length queues.now }
    ensures some { IfSome result (λ x. queue_at (map (λ q. q.items) queues.now) m
        ≡ x.now ∷ drop 1 (queue_at (map (λ q. q.items) queues.now) m)) }
    ensures none { IfNone result (queue_at (map (λ q. q.items) queues.now) m ≡ []) }
{
    queues[m].front()
}

/// Takes the first out of a module's queue.
pub(crate) fn take_first<T>(queues: &mut Vec<VecDeque<T>>, m: usize) -> Option<T>
    requires { m < vec_len queues.old }
    ensures some { IfSome result (λ x. queue_at (map (λ q. q.items) queues.old.items) m
        ≡ x ∷ drop 1 (queue_at (map (λ q. q.items) queues.old.items) m)) }
    ensures none { IfNone result (queue_at (map (λ q. q.items) queues.old.items) m ≡ []) }
    ensures after { map (λ q. q.items) queues.new.items
        ≡ set (map (λ q. q.items) queues.old.items) m
        (drop 1 (queue_at (map (λ q. q.items) queues.old.items) m)) }
    ensures count { vec_len queues.new ≡ vec_len queues.old }
{
    queues[m].pop_front()
}

// A feed more at the end of a module's queue.
fn push_feed(queues: &mut Vec<VecDeque<Feed>>, fed: (ModuleId, Feed)) -> Result<(), NoMemory>
    requires { fed.0.0 < vec_len queues.old }
    ensures ok { OnOk result (map (λ q. q.items) queues.new.items
        ≡ set (map (λ q. q.items) queues.old.items) fed.0.0
        (queue_at (map (λ q. q.items) queues.old.items) fed.0.0 ++ fed.1 ∷ [])) }
    ensures count { vec_len queues.new ≡ vec_len queues.old }
{
    let (m, feed) = fed;
    queues[m.0].push_back(feed)?;
    Ok(())
}

/// Each feed at the end of its module's queue.
pub(crate) fn deal(
    alloc: Global,
    count: usize,
    feeds: Vec<(ModuleId, Feed)>,
) -> Result<Vec<VecDeque<Feed>>, NoMemory>
    requires { All (λ fed. fed.0.0 < count) feeds.items }
    ensures { IfOk result (λ v.
        map (λ q. q.items) v.items ≡ enqueue (replicate count []) feeds.items) }
{
    let mut queues = no_queues(alloc, count)?;
    let mut left = VecDeque::from(feeds);
    while let Some(fed) = left.pop_front() {
        push_feed(&mut queues, fed)?;
    }
    Ok(queues)
}

// Moves a module's queue to the end of a list.
fn pour(
    queues: &mut Vec<VecDeque<Feed>>,
    m: usize,
    feeds: &mut Vec<(ModuleId, Feed)>,
) -> Result<(), NoMemory>
    requires { m < vec_len queues.old }
    ensures moved { OnOk result (Moved (map (λ q. q.items) queues.old.items)
        (map (λ q. q.items) queues.new.items) feeds.old.items feeds.new.items) }
    ensures empty { OnOk result (queue_at (map (λ q. q.items) queues.new.items) m ≡ []) }
    ensures count { vec_len queues.new ≡ vec_len queues.old }
{
    while let Some(feed) = take_first(queues, m) {
        feeds.push((ModuleId(m), feed))?;
    }
    Ok(())
}

/// The feeds of all queues, module by module.
pub(crate) fn feeds_left(
    alloc: Global,
    queues: Vec<VecDeque<Feed>>,
) -> Result<Vec<(ModuleId, Feed)>, NoMemory>
    ensures feeds { IfOk result (λ v. (m : ℕ)
        → feeds_of m v.items ≡ queue_at (map (λ q. q.items) queues.items) m) }
    ensures size { IfOk result (λ v.
        length v.items ≡ count_all (map (λ q. q.items) queues.items)) }
{
    let mut queues = queues;
    let mut feeds = Vec::new(alloc);
    for m in 0..queues.len() {
        pour(&mut queues, m, &mut feeds)?;
    }
    Ok(feeds)
}

// Room for so many more in the queue that a frame goes to.
fn reserve_at(
    queues: &mut Vec<VecDeque<FrameName>>,
    send: &(ModuleId, FrameName),
    count: usize,
) -> Result<(), NoMemory>
    requires { send.now.0.0 < vec_len queues.old }
    ensures same { map (λ q. q.items) queues.new.items ≡ map (λ q. q.items) queues.old.items }
    ensures stays { (k : ℕ) (n : ℕ)
        → HasRoom (λ q. deque_capacity q - deque_len q) queues.old.items k n
        → HasRoom (λ q. deque_capacity q - deque_len q) queues.new.items k n }
    ensures room { OnOk result (HasRoom (λ q. deque_capacity q - deque_len q) queues.new.items
        send.now.0.0 count) }
    ensures count { vec_len queues.new ≡ vec_len queues.old }
{
    let m = send.0;
    queues[m.0].reserve(count)?;
    Ok(())
}

// One of these, by its place.
fn nth(sends: &[(ModuleId, FrameName)], i: usize) -> (ModuleId, FrameName)
    requires { i < length sends.now }
    ensures { result ≡ get_or sends.now i result }
{
    sends[i]
}

/// Room for each of these in its module's queue.
pub(crate) fn reserve_all(
    queues: &mut Vec<VecDeque<FrameName>>,
    sends: &[(ModuleId, FrameName)],
) -> Result<(), NoMemory>
    requires { All (λ x. x.0.0 < length queues.old.items) sends.now }
    ensures same { map (λ q. q.items) queues.new.items ≡ map (λ q. q.items) queues.old.items }
    ensures room { OnOk result (HaveRoom (λ q. deque_capacity q - deque_len q) queues.new.items
        (length sends.now) sends.now) }
    ensures count { vec_len queues.new ≡ vec_len queues.old }
{
    for i in 0..sends.len() {
        let send = nth(sends, i);
        reserve_at(queues, &send, sends.len())?;
    }
    Ok(())
}

// A frame more at the end of its module's queue, in which there is room.
fn push_reserved(queues: &mut Vec<VecDeque<FrameName>>, send: &(ModuleId, FrameName))
    requires within { send.now.0.0 < vec_len queues.old }
    requires room { HasRoom (λ q. deque_capacity q - deque_len q) queues.old.items
        send.now.0.0 1 }
    ensures items { map (λ q. q.items) queues.new.items
        ≡ set (map (λ q. q.items) queues.old.items) send.now.0.0
        (queue_at (map (λ q. q.items) queues.old.items) send.now.0.0 ++ send.now.1 ∷ []) }
    ensures stays { (k : ℕ) (n : ℕ)
        → HasRoom (λ q. deque_capacity q - deque_len q) queues.old.items k (n + 1)
        → HasRoom (λ q. deque_capacity q - deque_len q) queues.new.items k n }
    ensures count { vec_len queues.new ≡ vec_len queues.old }
{
    let m = send.0;
    queues[m.0].push_back_reserved(send.1);
}

/// Each of these at the end of its module's queue.
pub(crate) fn push_all(queues: &mut Vec<VecDeque<FrameName>>, sends: &[(ModuleId, FrameName)])
    requires within { All (λ x. x.0.0 < length queues.old.items) sends.now }
    requires room { HaveRoom (λ q. deque_capacity q - deque_len q) queues.old.items
        (length sends.now) sends.now }
    ensures { map (λ q. q.items) queues.new.items
        ≡ enqueue (map (λ q. q.items) queues.old.items) sends.now }
{
    for i in 0..sends.len() {
        let send = nth(sends, i);
        push_reserved(queues, &send);
    }
}

// Whether a name is less than another.
fn is_less(one: FrameName, other: FrameName) -> bool
    ensures yes { IsTrue result → name_cmp one other ≡ Less }
    ensures no { IsFalse result → name_cmp one other ≡ Less → ⊥ }
{
    one.entry < other.entry || one.entry == other.entry && one.output < other.output
}

// A name in front of a module's queue.
#[derive(Clone, Copy)]
struct Front {
    m: usize,
    name: FrameName,
}

// The least name in front of a queue.
fn least_front(queues: &[VecDeque<FrameName>]) -> Option<Front>
    ensures some { IfSome result (λ r. IsLeast (map (λ q. q.items) queues.now)
        (length queues.now) r.m r.name) }
    ensures none { IfNone result (count_all (map (λ q. q.items) queues.now) ≡ 0) }
{
    let mut least = None;
    for m in 0..queues.len() {
        least = lesser(queues, least, m);
    }
    least
}

// The least name in front of one more queue than before.
fn lesser(queues: &[VecDeque<FrameName>], least: Option<Front>, m: usize) -> Option<Front>
    requires within { m < length queues.now }
    requires some { IfSome least (λ r. IsLeast (map (λ q. q.items) queues.now) m r.m r.name) }
    requires none { IfNone least ((k : ℕ) → k < m
        → queue_at (map (λ q. q.items) queues.now) k ≡ []) }
    ensures some { IfSome result (λ r.
        IsLeast (map (λ q. q.items) queues.now) (m + 1) r.m r.name) }
    ensures none { IfNone result ((k : ℕ) → k < m + 1
        → queue_at (map (λ q. q.items) queues.now) k ≡ []) }
{
    let Some(name) = first_in(queues, m) else {
        return least;
    };
    let name = *name;
    if let Some(front) = least {
        if !is_less(name, front.name) {
            return least;
        }
    }
    Some(Front { m, name })
}

/// The names of all queues, so many of them, in rising order.
pub(crate) fn merge(
    alloc: Global,
    queues: Vec<VecDeque<FrameName>>,
    count: usize,
) -> Result<Vec<FrameName>, NoMemory>
    requires { count_all (map (λ q. q.items) queues.items) ≡ count }
    ensures names { IfOk result (λ v. (own : ℕ → Name → Bool) (names : List Name)
        → AreSplit own (map (λ q. q.items) queues.items) names → v.items ≡ names) }
    ensures size { IfOk result (λ v. length v.items ≡ count) }
{
    let mut queues = queues;
    let mut names = Vec::new(alloc);
    for _i in 0..count {
        let Some(front) = least_front(queues.as_slice()) else {
            return Ok(names);
        };
        let _first = take_first(&mut queues, front.m);
        names.push(front.name)?;
    }
    Ok(names)
}
