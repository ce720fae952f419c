// The histories of all cells, and the parts that are open.
ghost use Rattle.std.specs.Prelude.{◌≡◌, length, map, slice_get, if◌then◌else◌, IfOk, OnOk, OnErr};
ghost use Rattle.hv_flow_versions.specs.Histories.{visible};
ghost use Rattle.hv_flow_versions.specs.States as spec;

use crate::cell::Cell;
use crate::closing::Closing;
use crate::histories::Histories;
use crate::part::{Kind, Part};
use crate::stack::Stack;
use crate::trail::Trail;
use crate::version::Site;
use std::alloc::{AllocError as NoMemory, Global};

/// The histories of all cells, and the parts that are open.
#[derive(Drop)]
pub struct State {
    pub histories: Histories,
    /// The numbers of the cells that were changed in the parts that are open.
    pub trail: Trail,
    pub parts: Stack<Part>,
    pub reached: bool,
    /// How deep the innermost turn is; 0 is none.
    pub turn: usize,
}

impl State {
    /// The begin of a body: it is reached, no part is open, and so many cells are a no.
    pub fn new(alloc: Global, count: usize) -> Result<State, NoMemory>
        ensures { IfOk result (λ s. s ≡ spec.starting_state count) }
    {
        let histories = Histories::new(alloc, count)?;
        Ok(State {
            histories,
            trail: Trail::new(alloc),
            parts: Stack::new(alloc),
            reached: true,
            turn: 0,
        })
    }

    /// How many cells are seen: all, or none where the walk isn't reached.
    pub fn len(&self) -> usize
        ensures { result ≡ length (spec.now_seen self.now.reached self.now.turn self.now.histories) }
    {
        if self.reached {
            self.histories.len()
        } else {
            0
        }
    }

    /// What a cell may be, seen from the innermost turn; none is seen where the walk isn't reached.
    pub fn at(&self, index: usize) -> Option<Cell>
        ensures { result ≡ slice_get (spec.now_seen self.now.reached self.now.turn self.now.histories) index }
    {
        if self.reached {
            self.histories.at(index, self.turn)
        } else {
            None
        }
    }

    fn site(&self) -> Site
        ensures { result ≡ spec.site_of self.now.parts self.now.turn }
    {
        let sides = match self.parts.top() {
            Some(part) => part.kind.sides(),
            None => 0,
        };
        Site {
            depth: self.parts.len(),
            sides,
            turn: self.turn,
        }
    }

    /// A cell is about to be changed.
    pub fn list(&mut self, index: usize) -> Result<(), NoMemory>
        ensures ok { OnOk result (self.new ≡ spec.listed_state index self.old) }
        ensures err { OnErr result (self.new ≡ self.old) }
    {
        if self.histories.is_new(index, self.parts.len()) {
            self.trail.push(index)?;
        }
        Ok(())
    }

    /// A cell that is listed gets a value. Without memory it stays.
    pub fn set(&mut self, index: usize, value: bool) -> Result<(), NoMemory>
        ensures ok { OnOk result (self.new ≡ spec.set_state value index self.old) }
        ensures err { OnErr result (self.new ≡ self.old) }
    {
        if self.reached {
            let site = self.site();
            self.histories.set(index, site, value)?;
        }
        Ok(())
    }

    /// What comes next isn't reached, as behind a `return`.
    pub fn stop(&mut self)
        ensures { self.new ≡ spec.stopped_state self.old }
    {
        self.reached = false;
    }

    fn open(&mut self, kind: Kind) -> Result<(), NoMemory>
        ensures ok { OnOk result (self.new ≡ spec.opened_state kind self.old) }
        ensures err { OnErr result (self.new ≡ self.old) }
    {
        self.parts.push(Part {
            kind,
            from: self.trail.len(),
            around: self.turn,
        })
    }

    /// A part with two sides begins, in its one side.
    pub fn split(&mut self) -> Result<(), NoMemory>
        ensures ok { OnOk result (self.new ≡ spec.split_state self.old) }
        ensures err { OnErr result (self.new ≡ self.old) }
    {
        self.open(Kind::OneSide(self.reached))
    }

    /// A turn of a loop begins; it is the innermost.
    pub fn enter(&mut self) -> Result<(), NoMemory>
        ensures ok { OnOk result (self.new ≡ spec.entered_state self.old) }
        ensures err { OnErr result (self.new ≡ self.old) }
    {
        self.open(Kind::Turn(self.reached))?;
        self.turn = self.parts.len();
        Ok(())
    }

    fn end(&mut self, from: usize, depth: usize, closing: Closing)
        ensures { self.new ≡ spec.ended_state from depth closing self.old }
    {
        self.trail.end(&mut self.histories, from, depth, closing);
    }

    /// The one side ends and the other begins, reached if what was before both was. Elsewhere nothing changes.
    pub fn change_sides(&mut self)
        ensures { self.new ≡ spec.sides_changed_state self.old }
    {
        if let Some(
            Part {
                kind: Kind::OneSide(before),
                from,
                around,
            },
        ) = self.parts.top()
        {
            let closing = if self.reached {
                Closing::ChangeSides(around)
            } else {
                Closing::Uncover
            };
            let depth = self.parts.len();
            self.histories
                .close(self.trail.as_slice(), from, depth, closing);
            let sides = if self.reached { 1 } else { 0 };
            self.parts.put(Part {
                kind: Kind::OtherSide(sides),
                from,
                around,
            });
            self.reached = before;
        }
    }

    fn pass(&mut self, before: bool, from: usize, sides: usize) -> Result<(), NoMemory>
        ensures ok { OnOk result (self.new ≡ spec.passed_state before from sides self.old) }
        ensures err { OnErr result (self.new ≡ self.old) }
    {
        let Some(passed) = sides.checked_add(1) else {
            return Err(NoMemory);
        };
        let depth = self.parts.len();
        self.parts.pop();
        if self.reached {
            let closing = Closing::Pass(self.site(), passed);
            self.end(from, depth, closing);
            self.put_sides(passed);
        } else {
            self.end(from, depth, Closing::Uncover);
        }
        self.reached = before;
        Ok(())
    }

    fn put_sides(&mut self, sides: usize)
        ensures { self.new ≡ spec.with_sides sides self.old }
    {
        if let Some(part) = self.parts.top() {
            self.parts.put(Part {
                kind: Kind::OtherSide(sides),
                from: part.from,
                around: part.around,
            });
        }
    }

    /// More than `usize::MAX` sides that are passed are more than memory holds.
    pub fn change_sides_within(&mut self) -> Result<(), NoMemory>
        ensures ok { OnOk result (self.new ≡ spec.sides_changed_within_state self.old) }
        ensures err { OnErr result (self.new ≡ self.old) }
    {
        let inner = self.parts.top();
        let outer = self.parts.second();
        match (inner, outer) {
            (
                Some(
                    Part {
                        kind: Kind::OneSide(before),
                        from,
                        ..
                    },
                ),
                Some(
                    Part {
                        kind: Kind::OtherSide(sides),
                        ..
                    },
                ),
            ) => self.pass(before, from, sides),
            _ => {
                self.change_sides();
                Ok(())
            }
        }
    }

    /// The part ends with its other side: a cell may be what it may be behind each side that was reached to its end.
    pub fn join(&mut self)
        ensures { self.new ≡ spec.joined_state self.old }
    {
        if let Some(
            Part {
                kind: Kind::OtherSide(sides),
                from,
                ..
            },
        ) = self.parts.top()
        {
            let depth = self.parts.len();
            self.parts.pop();
            let closing = Closing::Join(self.site(), sides, self.reached);
            self.end(from, depth, closing);
            self.reached = sides != 0 || self.reached;
        }
    }

    /// The turn ends: behind the loop there may have been any number of turns like it, and also none.
    pub fn leave(&mut self)
        ensures { self.new ≡ spec.left_state self.old }
    {
        if let Some(
            Part {
                kind: Kind::Turn(before),
                from,
                around,
            },
        ) = self.parts.top()
        {
            let depth = self.parts.len();
            self.parts.pop();
            self.turn = around;
            let closing = if self.reached {
                Closing::Leave(self.site())
            } else {
                Closing::Uncover
            };
            self.end(from, depth, closing);
            self.reached = before;
        }
    }
}
