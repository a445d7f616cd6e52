// The account of a buffer.
ghost use Rattle.std.specs.Prelude.{◌≡◌, ◌↔◌, ◌+◌, ◌-◌, ◌<◌, ◌≤◌, Ok, Err, IfOk, MatchResult, IfErr, OnOk, OnErr};
ghost use Rattle.nc_base.specs.declared.answer.Code.TheVariants as code;
ghost use Rattle.request_queue.specs.Buffer.{new_code};

use nc_base::{Code, MAX_ATTACHED};
use std::marker::Model;

/// The bytes of a buffer, and how many of them are taken.
#[derive(Debug, Drop)]
pub struct Room {
    size: u64,
    used: u64,
}

impl Model for Room {
    ghost use Rattle.std.specs.Prelude.{◌≤◌};
    ghost use Rattle.request_queue.specs.Buffer.{Account};

    ghost Value = { Account };

    ghost view = { λ a. record { size = a.size; used = a.used } };

    ghost invariant = { λ a. a.used ≤ a.size };
}

impl Room {
    /// A buffer of `size` bytes, 1 to [`MAX_ATTACHED`]. `ENullBuf` for 0 bytes, and `ETooLarge` for more.
    pub fn new(size: u64) -> Result<Self, Code>
        ensures ok { IfOk result (λ room. room ≡ record { size = size; used = 0 }) }
        ensures right { OnOk result (new_code size ≡ code.Ok) }
        ensures refused { IfErr result (λ refusal. (refusal ≡ new_code size) × (refusal ≡ code.Ok → ⊥)) }
    {
        if size == 0 {
            return Err(Code::ENullBuf);
        }
        if size > MAX_ATTACHED {
            return Err(Code::ETooLarge);
        }
        Ok(Room { size, used: 0 })
    }

    pub fn size(&self) -> u64
        ensures { result ≡ self.now.size }
    {
        self.size
    }

    /// The bytes that are taken.
    pub fn used(&self) -> u64
        ensures value { result ≡ self.now.used }
        ensures within { result ≤ self.now.size }
    {
        self.used
    }

    /// Takes `len` bytes. `EInsuffBuf` where fewer are left.
    pub fn claim(&mut self, len: u64) -> Result<(), Code>
        ensures ok { OnOk result (self.new ≡ record self.old { used = self.old.used + len }) }
        ensures err { OnErr result (self.new ≡ self.old) }
        ensures cause { MatchResult result (λ _. self.old.used + len ≤ self.old.size)
            (λ refusal. (refusal ≡ code.EInsuffBuf) × (self.old.size < self.old.used + len)) }
    {
        if len > self.size - self.used {
            return Err(Code::EInsuffBuf);
        }
        self.used += len;
        Ok(())
    }

    /// Gives `len` bytes back.
    pub fn release(&mut self, len: u64)
        requires { len ≤ self.old.used }
        ensures { self.new ≡ record self.old { used = self.old.used - len } }
    {
        self.used -= len;
    }
}
