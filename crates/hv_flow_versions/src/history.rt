// The versions of a cell.
ghost use Rattle.std.specs.Prelude.{◌≡◌, OnOk, OnErr};
ghost use Rattle.hv_flow_versions.specs.Histories as spec;

use crate::cell::Cell;
use crate::closing::Closing;
use crate::stack::Stack;
use crate::version::{Site, Version};
use std::alloc::{AllocError as NoMemory, Global};

/// What a cell may be, in each part where it was changed.
#[derive(Drop)]
pub struct History {
    pub newest: Version,
    /// The latest of them first.
    pub older: Stack<Version>,
}

fn joined_value(version: Version, sides: usize, reached: bool) -> Cell
    ensures { result ≡ spec.joined_value sides reached version }
{
    if sides == 0 {
        version.now
    } else if reached {
        version.behind(sides).either(version.now)
    } else {
        version.behind(sides)
    }
}

impl History {
    /// A cell that was never changed is a no, which takes no memory.
    pub fn new(alloc: Global) -> History
        ensures { result ≡ spec.first_history }
    {
        History {
            newest: Version::first(),
            older: Stack::new(alloc),
        }
    }

    fn under(&self) -> Version
        ensures { result ≡ spec.under_of self.now.older }
    {
        match self.older.top() {
            Some(version) => version,
            None => Version::first(),
        }
    }

    fn uncover(&mut self)
        ensures { self.new ≡ spec.uncovered self.old }
    {
        self.newest = match self.older.pop() {
            Some(version) => version,
            None => Version::first(),
        };
    }

    // A version further out takes the place of the newest, and of what was changed there before.
    fn put_outside(&mut self, version: Version)
        ensures { self.new ≡ spec.put_outside version self.old }
    {
        if let Some(under) = self.older.top() {
            if under.depth == version.depth {
                self.older.pop();
            }
        }
        self.newest = version;
    }

    fn change_outside(&mut self, site: Site, now: Cell)
        ensures { self.new ≡ spec.changed_outside site now self.old }
    {
        self.put_outside(Version {
            depth: site.depth,
            now,
            sides: self.under().sides_at(site),
            seen: site.sides,
        });
    }

    fn change_sides(&mut self, turn: usize)
        ensures { self.new ≡ spec.other_side turn self.old }
    {
        if self.newest.seen == 0 {
            self.newest = Version {
                depth: self.newest.depth,
                now: self.under().visible(turn),
                sides: self.newest.now,
                seen: 1,
            };
        }
    }

    fn pass(&mut self, site: Site, passed: usize)
        ensures { self.new ≡ spec.passed site passed self.old }
    {
        let under = self.under();
        let sides = if site.sides == 0 {
            self.newest.now
        } else {
            under.sides_at(site).either(self.newest.now)
        };
        self.put_outside(Version {
            depth: site.depth,
            now: under.visible(site.turn),
            sides,
            seen: passed,
        });
    }

    fn leave(&mut self, site: Site)
        ensures { self.new ≡ spec.left site self.old }
    {
        let before = self.under().visible(site.turn);
        self.change_outside(site, before.turned(self.newest.now));
    }

    /// The part of this depth ends.
    pub fn close(&mut self, depth: usize, closing: Closing)
        ensures { self.new ≡ spec.close depth closing self.old }
    {
        if self.newest.depth == depth {
            match closing {
                Closing::Uncover => self.uncover(),
                Closing::ChangeSides(turn) => self.change_sides(turn),
                Closing::Pass(site, passed) => self.pass(site, passed),
                Closing::Join(site, sides, reached) => {
                    let now = joined_value(self.newest, sides, reached);
                    self.change_outside(site, now);
                }
                Closing::Leave(site) => self.leave(site),
            }
        }
    }

    fn is_first_outside(&self, closing: Closing) -> bool
        ensures { result ≡ spec.is_first closing self.now }
    {
        match closing {
            Closing::Uncover | Closing::ChangeSides(_) => false,
            Closing::Pass(site, _) => self.under().depth != site.depth,
            Closing::Join(site, _, _) => self.under().depth != site.depth,
            Closing::Leave(site) => self.under().depth != site.depth,
        }
    }

    /// Whether the part outside gets its first version of the cell as the part of this depth ends.
    pub fn keeps(&self, depth: usize, closing: Closing) -> bool
        ensures { result ≡ spec.keeps depth closing self.now }
    {
        self.newest.depth == depth && self.is_first_outside(closing)
    }

    /// The cell gets a value. Without memory it stays.
    pub fn set(&mut self, site: Site, value: bool) -> Result<(), NoMemory>
        ensures ok { OnOk result (self.new ≡ spec.set_history site value self.old) }
        ensures err { OnErr result (self.new ≡ self.old) }
    {
        let version = Version {
            depth: site.depth,
            now: self.newest.visible(site.turn).set(value),
            sides: self.newest.sides_at(site),
            seen: site.sides,
        };
        if self.newest.depth != site.depth {
            self.older.push(self.newest)?;
        }
        self.newest = version;
        Ok(())
    }
}
