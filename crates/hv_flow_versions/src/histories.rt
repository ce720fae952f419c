// The histories of all cells.
ghost use Rattle.std.specs.Prelude.{◌≡◌, ◌<◌, ◌+◌, ◌++◌, if◌then◌else◌, drop, take, length, map, replicate, slice_get, slice_set, IfOk, OnOk, OnErr};
ghost use Rattle.std.specs.Vec.{vec_len};
ghost use Rattle.hv_flow_versions.specs.Histories as spec;

use crate::cell::Cell;
use crate::closing::Closing;
use crate::history::History;
use crate::version::Site;
use std::alloc::{AllocError as NoMemory, Global};
use std::marker::Model;

/// The histories of all cells.
#[derive(Drop)]
pub struct Histories {
    list: Vec<History>,
}

impl Model for Histories {
    ghost use Rattle.std.specs.Prelude.{List};
    ghost use Rattle.hv_flow_versions.specs.declared.history.History.{History};

    ghost Value = { List History };

    ghost view = { λ h. h.list.items };
}

#[tactic(auto, using(crate::proofs::ListLemmas::replicate_more))]
fn start(alloc: Global, count: usize) -> Result<Vec<History>, NoMemory>
    ensures { IfOk result (λ all. all.items ≡ replicate count spec.first_history) }
{
    let mut all = Vec::new(alloc);
    for _k in 0..count {
        all.push(History::new(alloc))?;
    }
    Ok(all)
}

#[tactic(auto, using(crate::proofs::Changes::changed_in, crate::proofs::Changes::changed_past))]
fn close_one(list: &mut Vec<History>, at: usize, depth: usize, closing: Closing)
    ensures { list.new.items ≡ spec.changed_at (spec.close depth closing) at 0 list.old.items }
{
    if at < list.len() {
        let history = &mut list[at];
        history.close(depth, closing);
    }
}

fn close_all(list: &mut Vec<History>, trail: &[usize], from: usize, depth: usize, closing: Closing)
    ensures { list.new.items ≡ spec.closed_all depth closing (drop from trail.now) list.old.items }
{
    for k in from..trail.len() {
        close_one(list, trail[k], depth, closing);
    }
}

#[tactic(auto, using(crate::proofs::Changes::kept_in, crate::proofs::Changes::kept_past))]
fn keeps_one(list: &[History], at: usize, depth: usize, closing: Closing) -> bool
    ensures { result ≡ spec.kept_at (spec.keeps depth closing) at 0 list.now }
{
    if at < list.len() {
        let history = &list[at];
        history.keeps(depth, closing)
    } else {
        false
    }
}

// Puts the number behind those that are kept.
fn keep_if(trail: &mut Vec<usize>, kept: usize, at: usize, keeps: bool) -> usize
    requires { kept < vec_len trail.old }
    ensures trail { trail.new.items ≡ (if keeps then slice_set trail.old.items kept at else trail.old.items) }
    ensures kept { result ≡ (if keeps then kept + 1 else kept) }
{
    if keeps {
        trail[kept] = at;
        kept + 1
    } else {
        kept
    }
}

fn end_all(
    list: &mut Vec<History>,
    trail: &mut Vec<usize>,
    from: usize,
    depth: usize,
    closing: Closing,
)
    ensures list { list.new.items ≡ spec.closed_all depth closing (drop from trail.old.items) list.old.items }
    ensures trail { trail.new.items ≡ take from trail.old.items ++ spec.kept_all depth closing (drop from trail.old.items) list.old.items }
{
    let mut kept = from;
    for k in from..trail.len() {
        let at = trail[k];
        let keeps = keeps_one(list.as_slice(), at, depth, closing);
        kept = keep_if(trail, kept, at, keeps);
        close_one(list, at, depth, closing);
    }
    trail.truncate(kept);
}

#[tactic(auto, using(crate::proofs::Changes::changed_in, crate::proofs::Changes::changed_past, crate::proofs::Changes::set_same))]
fn set_one(list: &mut Vec<History>, at: usize, site: Site, value: bool) -> Result<(), NoMemory>
    ensures ok { OnOk result (list.new.items ≡ spec.changed_at (spec.set_history site value) at 0 list.old.items) }
    ensures err { OnErr result (list.new.items ≡ list.old.items) }
{
    if at < list.len() {
        let history = &mut list[at];
        history.set(site, value)?;
    }
    Ok(())
}

impl Histories {
    /// So many cells, none of which was changed: each is a no.
    pub fn new(alloc: Global, count: usize) -> Result<Histories, NoMemory>
        ensures { IfOk result (λ all. all ≡ replicate count spec.first_history) }
    {
        let list = start(alloc, count)?;
        Ok(Histories { list })
    }

    /// How many cells there are, whether reached or not.
    pub fn len(&self) -> usize
        ensures { result ≡ length self.now }
    {
        self.list.len()
    }

    /// What a cell may be, seen from a turn.
    #[tactic(auto, using(crate::proofs::Changes::map_in, crate::proofs::Changes::map_past))]
    pub fn at(&self, index: usize, turn: usize) -> Option<Cell>
        ensures { result ≡ slice_get (map (λ h. spec.visible turn h.newest) self.now) index }
    {
        if index < self.list.len() {
            let history = &self.list[index];
            Some(history.newest.visible(turn))
        } else {
            None
        }
    }

    /// Whether the cell is changed first, if it is changed in a part of this depth.
    #[tactic(auto, using(crate::proofs::Changes::is_new_in, crate::proofs::Changes::is_new_past))]
    pub fn is_new(&self, index: usize, depth: usize) -> bool
        ensures { result ≡ spec.is_new depth index 0 self.now }
    {
        if index < self.list.len() {
            let history = &self.list[index];
            history.newest.depth != depth
        } else {
            false
        }
    }

    /// A cell gets a value. Without memory it stays.
    pub fn set(&mut self, index: usize, site: Site, value: bool) -> Result<(), NoMemory>
        ensures ok { OnOk result (self.new ≡ spec.changed_at (spec.set_history site value) index 0 self.old) }
        ensures err { OnErr result (self.new ≡ self.old) }
    {
        set_one(&mut self.list, index, site, value)
    }

    /// The part of this depth ends. The trail keeps the cells whose first version outside is made.
    pub fn end(&mut self, trail: &mut Vec<usize>, from: usize, depth: usize, closing: Closing)
        ensures list { self.new ≡ spec.closed_all depth closing (drop from trail.old.items) self.old }
        ensures trail { trail.new.items ≡ take from trail.old.items ++ spec.kept_all depth closing (drop from trail.old.items) self.old }
    {
        end_all(&mut self.list, trail, from, depth, closing);
    }

    /// The one side of this depth ends, in which the cells of the trail from a number on were
    /// changed.
    pub fn close(&mut self, trail: &[usize], from: usize, depth: usize, closing: Closing)
        ensures { self.new ≡ spec.closed_all depth closing (drop from trail.now) self.old }
    {
        close_all(&mut self.list, trail, from, depth, closing);
    }
}
