ghost use Rattle.std.specs.Prelude.{◌≡◌, ◌<◌, ◌^◌};

use std::marker::Model;

/// A slot of six bytes: the id that it holds, or 0 where it is empty.
#[derive(Drop)]
pub struct Slot {
    high: [u8; 2],
    low: [u8; 4],
}

impl Model for Slot {
    ghost use Rattle.std.specs.Prelude.{ℕ, ◌+◌, ◌*◌, ◌^◌};
    ghost use Rattle.std.specs.Int.{from_be_bytes, w16, w32};

    ghost Value = { ℕ };

    ghost view = { λ s. from_be_bytes w16 s.high * 2 ^ 32 + from_be_bytes w32 s.low };
}

impl Slot {
    pub fn new(id: u64) -> Slot
        requires { id < 2 ^ 48 }
        ensures { result ≡ id }
    {
        Slot {
            high: ((id >> 32) as u16).to_be_bytes(),
            low: ((id & 0xffff_ffff) as u32).to_be_bytes(),
        }
    }

    pub fn id(&self) -> u64
        ensures value { result ≡ self.now }
        ensures fits { result < 2 ^ 48 }
    {
        (u16::from_be_bytes(self.high) as u64) * 0x1_0000_0000 + u32::from_be_bytes(self.low) as u64
    }
}
