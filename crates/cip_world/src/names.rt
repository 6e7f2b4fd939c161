//! Names of frames, in rising order.
ghost use Rattle.std.specs.Prelude.{◌≡◌, ◌∷◌, ◌++◌, [], None, false, not, filter, slice_get};
ghost use Rattle.std.specs.Prelude.{MatchOption, MatchResult, OnOk, OnErr, IfOk};
ghost use Rattle.std.specs.List.{list_any};
ghost use Rattle.cip_world.specs.Journals.{same_name};
ghost use Rattle.cip_world.specs.Names.{AllBefore};
ghost use Rattle.cip_world.specs.Spots.{names_in, AreInOrder, AreSpots, IsPlaceOf, value_of};
ghost use Rattle.cip_world.specs.Spots.{is_first, is_first_gone, is_last_gone};

use cip_base::NoMemory;
use cip_event::FrameName;
use std::alloc::Global;
use std::collections::VecDeque;
use std::marker::Model;

/// A set of names, which contracts see as a rising list.
#[derive(Drop)]
pub(crate) struct Names {
    // Each name with whether it is there still: one that is taken out amid others keeps its place
    // until all before it or all behind it are gone.
    spots: VecDeque<(FrameName, bool)>,
}

impl Model for Names {
    ghost use Rattle.std.specs.Prelude.{List};
    ghost use Rattle.cip_event.specs.declared.frame.FrameName.{FrameName};
    ghost use Rattle.cip_world.specs.Spots.{names_in, AreSpots};

    ghost Value = { List FrameName };

    ghost view = { λ n. names_in n.spots.items };

    ghost invariant = { λ n. AreSpots n.spots.items };
}

// Where a name stands, by binary search.
fn searched(spots: &VecDeque<(FrameName, bool)>, name: FrameName) -> Result<usize, usize>
    requires { AreInOrder spots.now.items }
    ensures { MatchResult result (IsPlaceOf spots.now.items name)
        (λ _. value_of name spots.now.items ≡ None) }
{
    spots.binary_search_by_key(&name, |&(name, _)| name)
}

// Where a name stands: at once where it is the first.
fn place_of(spots: &VecDeque<(FrameName, bool)>, name: FrameName) -> Option<usize>
    requires { AreInOrder spots.now.items }
    ensures { MatchOption result (value_of name spots.now.items ≡ None)
        (IsPlaceOf spots.now.items name) }
{
    match spots.front() {
        Some((first, _)) if *first == name => Some(0),
        _ => match searched(spots, name) {
            Ok(place) => Some(place),
            Err(_) => None,
        },
    }
}

fn is_first_gone(spots: &VecDeque<(FrameName, bool)>) -> bool
    ensures { result ≡ is_first_gone spots.now.items }
{
    match spots.front() {
        Some((_, waits)) => !*waits,
        None => false,
    }
}

#[tactic(auto, using(crate::proofs::Spotted::last_is))]
fn is_last_gone(spots: &VecDeque<(FrameName, bool)>) -> bool
    ensures { result ≡ is_last_gone spots.now.items }
{
    match spots.back() {
        Some((_, waits)) => !*waits,
        None => false,
    }
}

fn is_first(spots: &VecDeque<(FrameName, bool)>, name: FrameName) -> bool
    ensures { result ≡ is_first spots.now.items name }
{
    match spots.front() {
        Some((first, _)) => *first == name,
        None => false,
    }
}

// The names at the end that are gone leave their places.
fn give_up_last(spots: &mut VecDeque<(FrameName, bool)>)
    requires { AreInOrder spots.old.items }
    ensures rising { AreInOrder spots.new.items }
    ensures last { is_last_gone spots.new.items ≡ false }
    ensures same { names_in spots.new.items ≡ names_in spots.old.items }
{
    while is_last_gone(spots) {
        spots.pop_back();
    }
}

// The names at the front that are gone leave their places.
fn give_up_first(spots: &mut VecDeque<(FrameName, bool)>)
    requires rising { AreInOrder spots.old.items }
    requires last { is_last_gone spots.old.items ≡ false }
    ensures spots { AreSpots spots.new.items }
    ensures same { names_in spots.new.items ≡ names_in spots.old.items }
{
    while is_first_gone(spots) {
        spots.pop_front();
    }
}

// A name that is not the first is taken out, if it is there.
#[inline(never)]
fn remove_amid(spots: &mut VecDeque<(FrameName, bool)>, name: FrameName)
    requires { AreSpots spots.old.items }
    ensures spots { AreSpots spots.new.items }
    ensures gone { names_in spots.new.items
        ≡ filter (λ f. not (same_name f name)) (names_in spots.old.items) }
{
    match place_of(spots, name) {
        Some(place) => {
            spots[place].1 = false;
            give_up_last(spots);
            give_up_first(spots);
        }
        None => {}
    }
}

// The names that are there still, behind others.
fn push_waiting(
    spots: &VecDeque<(FrameName, bool)>,
    all: &mut Vec<FrameName>,
) -> Result<(), NoMemory>
    ensures { OnOk result (all.new.items ≡ all.old.items ++ names_in spots.now.items) }
{
    for place in 0..spots.len() {
        let (name, waits) = spots[place];
        if waits {
            all.push(name)?;
        }
    }
    Ok(())
}

impl Names {
    /// No name.
    pub(crate) fn new(alloc: Global) -> Names
        ensures { result ≡ [] }
    {
        Names {
            spots: VecDeque::new(alloc),
        }
    }

    /// Whether a name is there.
    pub(crate) fn has(&self, name: FrameName) -> bool
        ensures { result ≡ list_any (λ f. same_name f name) self.now }
    {
        match place_of(&self.spots, name) {
            Some(place) => self.spots[place].1,
            None => false,
        }
    }

    /// The least name.
    pub(crate) fn first(&self) -> Option<FrameName>
        ensures { result ≡ slice_get self.now 0 }
    {
        match self.spots.front() {
            Some((name, _)) => Some(*name),
            None => None,
        }
    }

    /// Adds a name that is above all others.
    pub(crate) fn add(&mut self, name: FrameName) -> Result<(), NoMemory>
        requires { AllBefore name self.old }
        ensures ok { OnOk result (self.new ≡ self.old ++ name ∷ []) }
        ensures err { OnErr result (self.new ≡ self.old) }
    {
        match self.spots.push_back((name, true)) {
            Ok(()) => Ok(()),
            Err(_) => Err(NoMemory),
        }
    }

    /// Takes a name out, if it is there.
    pub(crate) fn remove(&mut self, name: FrameName)
        ensures { self.new ≡ filter (λ f. not (same_name f name)) self.old }
    {
        if is_first(&self.spots, name) {
            self.spots.pop_front();
            give_up_first(&mut self.spots);
        } else {
            remove_amid(&mut self.spots, name);
        }
    }

    /// The names as a list.
    pub(crate) fn list(&self, alloc: Global) -> Result<Vec<FrameName>, NoMemory>
        ensures { IfOk result (λ v. v.items ≡ self.now) }
    {
        let mut all = Vec::new(alloc);
        push_waiting(&self.spots, &mut all)?;
        Ok(all)
    }
}
