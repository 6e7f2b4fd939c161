//! What the lock holds: feeds, frames, what each module has in hand, and the journal.
ghost use Rattle.std.specs.Prelude.{◌↔◌, ◌≡◌, ◌∷◌, [], ◌<◌, List, All, IfOk, IfErr, OnOk, OnErr};
ghost use Rattle.std.specs.Prelude.{IfSome, IfNone, IsTrue, IsFalse, Some, None, drop, length, map};
ghost use Rattle.std.specs.Prelude.{replicate, reverse, vec_len, set};
ghost use Rattle.cip_world.specs.declared.journal.Input.{Input as Given};
ghost use Rattle.cip_threads.specs.declared.feed.Feed.{Feed as Fed};
ghost use Rattle.cip_threads.specs.Feeds.{event_of};
ghost use Rattle.cip_threads.specs.Books.{hand_at, count_hands};
ghost use Rattle.cip_threads.specs.Queues.{queue_at};

use crate::feed::Feed;
use crate::frames::{frame_for, sends_of};
use crate::queues::{
    deal, feeds_left, first_in, merge, no_queues, push_all, reserve_all, take_first,
};
use crate::report::CompareFault;
use crate::views::BookView;
use cip_base::{ModuleId, NoMemory};
use cip_chassis::Topology;
use cip_routing::{Event, Output};
use cip_world::{End, Entry, FrameName, Input, Outputs};
use std::alloc::Global;
use std::collections::VecDeque;
use std::marker::Model;
use std::mem;
use std::sync::Condvar;
use thiserror::Error;

/// What a call of `hand` gives a module's worker.
#[derive(Drop)]
pub enum Handed {
    /// An event to step by.
    Work(Event),
    /// Nothing more comes.
    Stop,
    /// What the module took before is not entered yet.
    Held,
    /// Nothing waits for the module now, but something may come.
    NotYet,
}

/// Why nothing was entered: the book is as it was.
#[derive(Clone, Copy, Debug, Error, PartialEq, Eq)]
pub enum CommitFault {
    /// An allocation was refused.
    #[error("out of memory")]
    NoMemory,
    /// The module has nothing in hand, or the topology has no such module.
    #[error("nothing in hand")]
    NothingInHand,
}

/// What a book leaves.
#[derive(Drop)]
pub(crate) struct Finished {
    pub(crate) journal: Vec<Entry>,
    pub(crate) feeds: Vec<(ModuleId, Feed)>,
    pub(crate) frames: Vec<FrameName>,
    pub(crate) end: End,
}

/// What the workers of a topology's modules share: the feeds and frames that wait, what each module
/// has in hand, and the journal. Contracts see it as a `BookView`.
#[derive(Drop)]
pub struct BookState {
    alloc: Global,
    topology: Topology,
    given: Vec<(ModuleId, Feed)>,
    // What waits for each module, and how much of it there is in all.
    feeds: Vec<VecDeque<Feed>>,
    frames: Vec<VecDeque<FrameName>>,
    feed_count: usize,
    frame_count: usize,
    hands: Vec<Option<Input>>,
    journal: Vec<Entry>,
    taken: usize,
    turns: usize,
    stopped: bool,
    // What the worker of each module sleeps on, until the book takes it.
    signals: Vec<Condvar>,
}

impl Model for BookState {
    ghost use Rattle.std.specs.Prelude.{map, reverse};
    ghost use Rattle.cip_threads.specs.declared.views.BookView.{BookView};
    ghost use Rattle.cip_threads.specs.Books.{IsBook};

    ghost Value = { BookView };

    ghost view = { λ b. record {
      topology = b.topology;
      given = b.given.items;
      feeds = map (λ q. q.items) b.feeds.items;
      frames = map (λ q. q.items) b.frames.items;
      hands = b.hands.items;
      journal = reverse b.journal.items;
      taken = b.taken;
      turns = b.turns;
      stopped = b.stopped;
    } };

    ghost invariant = { λ b. IsBook (record {
      topology = b.topology;
      given = b.given.items;
      feeds = map (λ q. q.items) b.feeds.items;
      frames = map (λ q. q.items) b.frames.items;
      hands = b.hands.items;
      journal = reverse b.journal.items;
      taken = b.taken;
      turns = b.turns;
      stopped = b.stopped;
    }) b.feed_count b.frame_count };
}

/// Whether each feed is for a module of the topology.
pub fn feeds_fit(topology: &Topology, feeds: &[(ModuleId, Feed)]) -> bool
    ensures { IsTrue result ↔ All (λ fed. fed.0.0 < length topology.now.modules) feeds.now }
{
    let count = topology.configs().len();
    feeds.iter().all(|fed| fed.0.0 < count)
}

// The event of the first feed in a module's queue.
fn feed_for(alloc: Global, queues: &[VecDeque<Feed>], m: usize) -> Result<Option<Event>, NoMemory>
    requires { m < length queues.now }
    ensures some { IfOk result (λ found. IfSome found (λ event. (feed : Fed)
        × (queue_at (map (λ q. q.items) queues.now) m
        ≡ feed ∷ drop 1 (queue_at (map (λ q. q.items) queues.now) m))
        × (event ≡ event_of feed))) }
    ensures none { IfOk result (λ found. IfNone found
        (queue_at (map (λ q. q.items) queues.now) m ≡ [])) }
{
    match first_in(queues, m) {
        Some(feed) => {
            let event = feed.event(alloc)?;
            Ok(Some(event))
        }
        None => Ok(None),
    }
}

// Whether a module has something in hand.
fn is_full(hands: &[Option<Input>], m: usize) -> bool
    requires { m < length hands.now }
    ensures yes { IsTrue result → (input : Given) × (hand_at hands.now m ≡ Some input) }
    ensures no { IsFalse result → hand_at hands.now m ≡ None }
{
    hands[m].is_some()
}

fn put_hand(hands: &mut Vec<Option<Input>>, m: usize, input: Input)
    requires { m < vec_len hands.old }
    ensures { hands.new.items ≡ set hands.old.items m (Some input) }
{
    hands[m] = Some(input);
}

// Takes the first feed out of a module's queue.
fn take_feed(queues: &mut Vec<VecDeque<Feed>>, m: usize) -> Feed
    requires within { m < vec_len queues.old }
    requires full { (feed : Fed) × (rest : List Fed)
        × (queue_at (map (λ q. q.items) queues.old.items) m ≡ feed ∷ rest) }
    ensures value { queue_at (map (λ q. q.items) queues.old.items) m
        ≡ result ∷ drop 1 (queue_at (map (λ q. q.items) queues.old.items) m) }
    ensures after { map (λ q. q.items) queues.new.items
        ≡ set (map (λ q. q.items) queues.old.items) m
        (drop 1 (queue_at (map (λ q. q.items) queues.old.items) m)) }
{
    let Some(feed) = take_first(queues, m) else {
        unreachable!()
    };
    feed
}

fn take_hand(hands: &mut Vec<Option<Input>>, m: usize) -> Input
    requires within { m < vec_len hands.old }
    requires full { (input : Given) × (hand_at hands.old.items m ≡ Some input) }
    ensures value { hand_at hands.old.items m ≡ Some result }
    ensures after { hands.new.items ≡ set hands.old.items m None }
{
    let Some(input) = hands[m].take() else {
        unreachable!()
    };
    input
}

/// A copy; NoMemory where an allocation is refused.
pub(crate) fn copy_feeds(
    alloc: Global,
    feeds: &[(ModuleId, Feed)],
) -> Result<Vec<(ModuleId, Feed)>, NoMemory>
    ensures { IfOk result (λ v. v.items ≡ feeds.now) }
{
    let mut copies = Vec::new(alloc);
    for i in 0..feeds.len() {
        let copy = copy_feed(alloc, &feeds[i])?;
        copies.push(copy)?;
    }
    Ok(copies)
}

fn copy_feed(alloc: Global, given: &(ModuleId, Feed)) -> Result<(ModuleId, Feed), NoMemory>
    ensures { IfOk result (λ copy. copy ≡ given.now) }
{
    let feed = given.1.copy(alloc)?;
    Ok((given.0, feed))
}

fn is_same_feed(one: &(ModuleId, Feed), other: &(ModuleId, Feed)) -> bool
    ensures { IsTrue result → one.now ≡ other.now }
{
    one.0 == other.0 && one.1.is(&other.1)
}

// The module of the first feed that differs.
fn first_other(one: &[(ModuleId, Feed)], other: &[(ModuleId, Feed)]) -> Option<ModuleId>
    ensures { IfNone result (one.now ≡ other.now) }
{
    if one.len() != other.len() {
        return Some(ModuleId(0));
    }
    for i in 0..one.len() {
        if !is_same_feed(&one[i], &other[i]) {
            return Some(one[i].0);
        }
    }
    None
}

// The first module with something in hand.
fn first_full(hands: &[Option<Input>]) -> Option<ModuleId>
    ensures { IfNone result (count_hands hands.now ≡ 0) }
{
    for i in 0..hands.len() {
        if hands[i].is_some() {
            return Some(ModuleId(i));
        }
    }
    None
}

// A signal for each of so many modules.
fn signals(alloc: Global, count: usize) -> Result<Vec<Condvar>, NoMemory> {
    let mut signals = Vec::new(alloc);
    for _i in 0..count {
        signals.push(Condvar::new())?;
    }
    Ok(signals)
}

// The first module with something in its queue.
fn first_waiting<T>(queues: &[VecDeque<T>]) -> Option<ModuleId> {
    for m in 0..queues.len() {
        if !queues[m].is_empty() {
            return Some(ModuleId(m));
        }
    }
    None
}

fn no_hands(alloc: Global, count: usize) -> Result<Vec<Option<Input>>, NoMemory>
    ensures { IfOk result (λ v. v.items ≡ replicate count None) }
{
    let mut hands = Vec::new(alloc);
    for _i in 0..count {
        hands.push(None)?;
    }
    Ok(hands)
}

impl BookState {
    ghost use Rattle.std.specs.Prelude.{true, ◌↔◌};
    ghost use Rattle.cip_threads.specs.Hands.{IsHanded, IsEntered, IsNotEntered, IsQuiet, opened};
    ghost use Rattle.cip_threads.specs.Hands.{stopped_of};
    ghost use Rattle.cip_threads.specs.Ends.{IsFinished, MayEnd};
    ghost use Rattle.cip_threads.specs.Flows.{sends_of};

    /// A book in which every feed waits, nothing is in hand, and the journal is empty. So many
    /// turns may be taken. NoMemory where an allocation is refused.
    pub fn new(
        alloc: Global,
        topology: Topology,
        feeds: Vec<(ModuleId, Feed)>,
        turns: usize,
    ) -> Result<BookState, NoMemory>
        requires { All (λ fed. fed.0.0 < length topology.modules) feeds.items }
        ensures { IfOk result (λ s. s ≡ opened topology feeds.items turns) }
    {
        let count = topology.configs().len();
        let given = copy_feeds(alloc, feeds.as_slice())?;
        let feed_count = feeds.as_slice().len();
        let feeds = deal(alloc, count, feeds)?;
        let frames = no_queues(alloc, count)?;
        let hands = no_hands(alloc, count)?;
        let signals = signals(alloc, count)?;
        Ok(BookState {
            alloc,
            topology,
            given,
            feeds,
            frames,
            feed_count,
            frame_count: 0,
            hands,
            journal: Vec::new(alloc),
            taken: 0,
            turns,
            stopped: false,
            signals,
        })
    }

    /// Moves the first feed of a module, or the first waiting frame that comes to it, into its
    /// hand: Work. It looks in this order: stopped, or no such module: Stop; something in hand:
    /// Held; turns left and something waits for the module: Work; no turns left, or nothing waits
    /// and nothing is in hand anywhere: Stop; else NotYet. All answers but Work change nothing, and
    /// so does NoMemory.
    pub fn hand(&mut self, m: ModuleId) -> Result<Handed, NoMemory>
        ensures ok { IfOk result (λ answer. IsHanded self.old self.new m.0 answer) }
        ensures err { OnErr result (self.new ≡ self.old) }
    {
        if self.stopped {
            return Ok(Handed::Stop);
        }
        if m.0 >= self.hands.as_slice().len() {
            return Ok(Handed::Stop);
        }
        if is_full(self.hands.as_slice(), m.0) {
            return Ok(Handed::Held);
        }
        if self.taken >= self.turns {
            return Ok(Handed::Stop);
        }
        if let Some(event) = feed_for(self.alloc, self.feeds.as_slice(), m.0)? {
            let feed = take_feed(&mut self.feeds, m.0);
            self.feed_count -= 1;
            put_hand(&mut self.hands, m.0, feed.into_input());
            self.taken += 1;
            return Ok(Handed::Work(event));
        }
        if let Some(found) = frame_for(
            self.alloc,
            &self.topology,
            self.journal.as_slice(),
            self.frames.as_slice(),
            m.0,
        )? {
            let _name = take_first(&mut self.frames, m.0);
            self.frame_count -= 1;
            put_hand(
                &mut self.hands,
                m.0,
                Input::Frame {
                    port: found.port,
                    from: found.from,
                    name: found.name,
                },
            );
            self.taken += 1;
            return Ok(Handed::Work(found.event));
        }
        if self.is_quiet() {
            return Ok(Handed::Stop);
        }
        Ok(Handed::NotYet)
    }

    /// Whether nothing waits and nothing is in hand. It looks at counts alone.
    pub(crate) fn is_quiet(&self) -> bool
        ensures yes { IsTrue result → IsQuiet self.now }
        ensures no { IsFalse result → IsQuiet self.now → ⊥ }
    {
        self.feed_count == 0 && self.frame_count == 0 && self.taken == self.journal.as_slice().len()
    }

    /// Whether all turns are taken.
    pub(crate) fn is_spent(&self) -> bool {
        self.taken >= self.turns
    }

    /// Appends the entry of what a module has in hand, with these outputs; the frames among them
    /// wait from then on. NoMemory, and NothingInHand also where the topology has no such module;
    /// nothing is changed then.
    pub fn enter(&mut self, m: ModuleId, outputs: Vec<Output>) -> Result<(), CommitFault>
        ensures ok { OnOk result (IsEntered self.old self.new m outputs.items) }
        ensures err { OnErr result (self.new ≡ self.old) }
        ensures fault { IfErr result (IsNotEntered self.old m) }
    {
        match self.enter_sends(m, outputs) {
            Ok(_) => Ok(()),
            Err(fault) => Err(fault),
        }
    }

    /// The same as `enter`, answering the frames that wait from then on, each with the module that
    /// it comes to.
    pub(crate) fn enter_sends(
        &mut self,
        m: ModuleId,
        outputs: Vec<Output>,
    ) -> Result<Vec<(ModuleId, FrameName)>, CommitFault>
        ensures ok { OnOk result (IsEntered self.old self.new m outputs.items) }
        ensures sends { IfOk result (λ v. v.items
            ≡ sends_of self.old.topology m.0 (length self.old.journal) 0 outputs.items) }
        ensures err { OnErr result (self.new ≡ self.old) }
        ensures fault { IfErr result (IsNotEntered self.old m) }
    {
        if m.0 >= self.hands.as_slice().len() {
            return Err(CommitFault::NothingInHand);
        }
        if !is_full(self.hands.as_slice(), m.0) {
            return Err(CommitFault::NothingInHand);
        }
        let number = self.journal.as_slice().len();
        let Ok(sends) = sends_of(self.alloc, &self.topology, number, m, outputs.as_slice()) else {
            return Err(CommitFault::NoMemory);
        };
        let Some(frame_count) = self.frame_count.checked_add(sends.as_slice().len()) else {
            return Err(CommitFault::NoMemory);
        };
        if self.journal.reserve(1).is_err() {
            return Err(CommitFault::NoMemory);
        }
        let Ok(()) = reserve_all(&mut self.frames, sends.as_slice()) else {
            return Err(CommitFault::NoMemory);
        };
        push_all(&mut self.frames, sends.as_slice());
        self.frame_count = frame_count;
        let input = take_hand(&mut self.hands, m.0);
        self.journal.push_reserved(Entry::Step {
            at: m,
            input,
            outputs: Outputs::of(outputs),
        });
        Ok(sends)
    }

    /// Ends the handing out.
    pub fn stop(&mut self)
        ensures { self.new ≡ stopped_of self.old }
    {
        self.stopped = true;
    }

    /// What the workers sleep on, one for each module, where nobody took it before.
    pub(crate) fn take_signals(&mut self) -> Vec<Condvar>
        ensures { self.new ≡ self.old }
    {
        mem::replace(&mut self.signals, Vec::new(self.alloc))
    }

    // The module that something waits for.
    fn first_with_work(&self) -> ModuleId {
        if let Some(m) = first_waiting(self.feeds.as_slice()) {
            return m;
        }
        match first_waiting(self.frames.as_slice()) {
            Some(m) => m,
            None => ModuleId(0),
        }
    }

    // What is left, where nothing is in hand.
    fn leave(self, end: End) -> Result<Finished, CompareFault>
        requires idle { count_hands self.hands ≡ 0 }
        requires end { MayEnd self end }
        ensures { IfOk result (λ f. IsFinished self.topology self.given self.turns
            (reverse f.journal.items) f.feeds.items f.frames.items f.end) }
    {
        let Ok(feeds) = feeds_left(self.alloc, self.feeds) else {
            return Err(CompareFault::NoMemory);
        };
        let Ok(frames) = merge(self.alloc, self.frames, self.frame_count) else {
            return Err(CompareFault::NoMemory);
        };
        Ok(Finished {
            journal: self.journal,
            feeds,
            frames,
            end,
        })
    }

    // How the book ends, where it is that of this topology, these feeds and turns, nothing is in
    // hand, and nothing waits with turns left.
    fn end_of(
        &self,
        topology: &Topology,
        given: &[(ModuleId, Feed)],
        turns: usize,
    ) -> Result<End, CompareFault>
        ensures topology { IfOk result (λ end. self.now.topology ≡ topology.now) }
        ensures given { IfOk result (λ end. self.now.given ≡ given.now) }
        ensures turns { IfOk result (λ end. self.now.turns ≡ turns) }
        ensures idle { IfOk result (λ end. count_hands self.now.hands ≡ 0) }
        ensures end { IfOk result (MayEnd self.now) }
    {
        if !self.topology.is(topology) {
            return Err(CompareFault::Differs(ModuleId(0)));
        }
        if self.turns != turns {
            return Err(CompareFault::Differs(ModuleId(0)));
        }
        if let Some(m) = first_other(self.given.as_slice(), given) {
            return Err(CompareFault::Differs(m));
        }
        if let Some(m) = first_full(self.hands.as_slice()) {
            return Err(CompareFault::Differs(m));
        }
        if self.feed_count == 0 && self.frame_count == 0 {
            return Ok(End::Quiet);
        }
        if self.taken < self.turns {
            return Err(CompareFault::Differs(self.first_with_work()));
        }
        Ok(End::Limit)
    }

    /// What is left, where the book is that of this topology, these feeds and turns, nothing is in
    /// hand, and nothing waits with turns left; else Differs of the module where it does not add
    /// up. NoMemory where an allocation is refused.
    pub(crate) fn finish(
        self,
        topology: &Topology,
        given: &[(ModuleId, Feed)],
        turns: usize,
    ) -> Result<Finished, CompareFault>
        ensures { IfOk result (λ f. IsFinished topology.now given.now turns
            (reverse f.journal.items) f.feeds.items f.frames.items f.end) }
    {
        match self.end_of(topology, given, turns) {
            Ok(end) => self.leave(end),
            Err(fault) => Err(fault),
        }
    }
}
