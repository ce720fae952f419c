// A sink that takes a few bytes at a time, up to a limit.
ghost use Rattle.std.specs.Prelude.{Some};

use hv_ports::{Failed, Sink};

#[derive(Drop)]
pub struct Trickle {
    pub bytes: Vec<u8>,
    /// How many bytes a write takes at most.
    pub most: usize,
    /// How many bytes all writes take.
    pub limit: usize,
    pub faults: u64,
}

impl Sink for Trickle {
    ghost written = { λ t. Some t.bytes.items };

    ghost faults = { λ t. t.faults };

    fn write(&mut self, from: &[u8]) -> Result<usize, Failed> {
        if from.is_empty() {
            return Ok(0);
        }
        let room = self.limit.saturating_sub(self.bytes.len());
        let count = from.len().min(self.most).min(room);
        if count == 0 || self.bytes.extend_from_slice(&from[..count]).is_err() {
            self.faults = self.faults.saturating_add(1);
            return Err(Failed);
        }
        Ok(count)
    }
}
