ghost use Rattle.std.specs.Prelude.{◌≡◌, List, ℕ, Option, Some, None, string_bytes, OnOk};
ghost use Rattle.std.specs.Io.{ReadsAtMost, WritesAtMost};
ghost use Rattle.std.specs.Io.KnownBytes.{ReadConsumes, WriteAppends, Keeps};
ghost use Rattle.hv_ports.specs.Causes.{HasCause, TakesEmpty, TakesSome};

/// A call of a source or a sink that didn't succeed.
#[derive(Clone, Copy, Debug, PartialEq, Eq)]
pub struct Failed;

/// Named files, of which one is read.
pub trait Source {
    /// The bytes of a file, by its name, where the source tells them.
    ghost files: { Self → List ℕ → Option (List ℕ) };

    /// The bytes that are left of the started file, where the source tells them.
    ghost left: { Self → Option (List ℕ) };

    /// The name that was asked for.
    ghost asked: { Self → Option (List ℕ) };

    /// How often the source has failed.
    ghost faults: { Self → ℕ };

    /// Asks for a file, of which nothing was read yet. A name that can't be opened is a fault.
    fn start(&mut self, name: String) -> Result<(), Failed>
        requires { asked self.old ≡ None }
        ensures asked { asked self.new ≡ Some (string_bytes name) }
        ensures bytes { OnOk result (Keeps (files self.old (string_bytes name)) (left self.new)) }
        ensures cause { HasCause (faults self.old) (faults self.new) result };

    /// Moves bytes to the front of a buffer and answers how many; none into a buffer with room is the
    /// end.
    fn read(&mut self, to: &mut [u8]) -> Result<usize, Failed>
        ensures bound { ReadsAtMost result to.new }
        ensures bytes { ReadConsumes (left self.old) (left self.new) result to.new }
        ensures asked { asked self.new ≡ asked self.old }
        ensures cause { HasCause (faults self.old) (faults self.new) result };
}

/// What takes bytes in order.
pub trait Sink {
    /// The bytes written, where the sink tells them.
    ghost written: { Self → Option (List ℕ) };

    /// How often the sink has failed.
    ghost faults: { Self → ℕ };

    /// Takes a front of a piece, at least one byte of one that isn't empty, and answers its length.
    /// An empty piece changes nothing.
    fn write(&mut self, from: &[u8]) -> Result<usize, Failed>
        ensures bound { WritesAtMost result from.now }
        ensures some { TakesSome result from.now }
        ensures empty { TakesEmpty result from.now (written self.old) (written self.new) (faults self.old) (faults self.new) }
        ensures bytes { WriteAppends (written self.old) (written self.new) result from.now }
        ensures cause { HasCause (faults self.old) (faults self.new) result };
}
