//! A source and a sink in memory, which fail at the calls that they are told.
ghost use Rattle.std.specs.Prelude.{◌≡◌, ◌+◌, ◌-◌, ◌<◌, ◌≤◌, ◌↔◌, ◌++◌, [], min, take, drop, length, vec_len, Some, IfOk, IsErr, OnErr};
ghost use Rattle.std.specs.Io.{ReadsAtMost, WritesAtMost};
ghost use Rattle.std.specs.Io.KnownBytes.{ReadConsumes, WriteAppends};
ghost use Rattle.volap_io.specs.Failing.{HasCause};
ghost use Rattle.volap_io.specs.Causes.{one_more};
ghost use Rattle.volap_io.specs.Memory.{ReadFails, WriteFails};

use crate::{Failed, Sink, Source};
use std::alloc::{AllocError, Global};
use std::marker::Model;

/// A source of bytes in memory.
#[derive(Drop)]
pub struct MemSource {
    bytes: Vec<u8>,
    /// How many bytes were given.
    at: usize,
    /// The calls that fail, counted from 0.
    fail: Vec<u64>,
    /// How many bytes a call gives at most.
    most: usize,
    calls: u64,
    faults: u64,
}

impl Model for MemSource {
    ghost use Rattle.std.specs.Prelude.{◌<◌, ◌≤◌, drop, vec_len};
    ghost use Rattle.volap_io.specs.Memory.{Supply};

    ghost Value = { Supply };

    ghost view = { λ s. record {
      left = drop s.at s.bytes.items;
      fail = s.fail.items;
      most = s.most;
      calls = s.calls;
      faults = s.faults;
    } };

    ghost invariant = { λ s. (s.at ≤ vec_len s.bytes) × (0 < s.most) };
}

impl MemSource {
    /// Gives these bytes, at most `most` a call. `fail` names the calls that fail, counted from 0.
    pub fn new(bytes: Vec<u8>, fail: Vec<u64>, most: usize) -> MemSource
        requires { 0 < most }
        ensures { result ≡ record {
          left = bytes.items;
          fail = fail.items;
          most = most;
          calls = 0;
          faults = 0;
        } }
    {
        MemSource {
            bytes,
            at: 0,
            fail,
            most,
            calls: 0,
            faults: 0,
        }
    }
}

impl Source for MemSource {
    ghost left = { λ s. Some s.left };

    ghost faults = { λ s. s.faults };

    fn read(&mut self, buf: &mut [u8]) -> Result<usize, Failed>
        ensures bound { ReadsAtMost result buf.new }
        ensures bytes { ReadConsumes (Some self.old.left) (Some self.new.left) result buf.new }
        ensures cause { HasCause self.old.faults self.new.faults result }

        // It fails at the calls that are named, and else gives as much as it can.
        ensures fails { IsErr result ↔ ReadFails self.old }
        ensures count { IfOk result
            (λ n. n ≡ min (min (length buf.new) self.old.most) (length self.old.left)) }
        ensures ok { IfOk result (λ n. self.new ≡ record self.old {
          left = drop n self.old.left;
          calls = one_more self.old.calls;
        }) }
        ensures err { OnErr result (self.new ≡ record self.old {
          calls = one_more self.old.calls;
          faults = one_more self.old.faults;
        }) }
    {
        let call = self.calls;
        self.calls = call.saturating_add(1);
        if self.fail.contains(&call) {
            self.faults = self.faults.saturating_add(1);
            return Err(Failed);
        }
        let left = &self.bytes[self.at..];
        let count = buf.len().min(self.most).min(left.len());
        buf[..count].copy_from_slice(&left[..count]);
        self.at += count;
        Ok(count)
    }
}

/// A sink in memory, with room for so many bytes.
#[derive(Drop)]
pub struct MemSink {
    bytes: Vec<u8>,
    /// How many bytes were taken.
    len: usize,
    /// The calls that fail, counted from 0.
    fail: Vec<u64>,
    /// How many bytes a call takes at most.
    most: usize,
    calls: u64,
    faults: u64,
}

impl Model for MemSink {
    ghost use Rattle.std.specs.Prelude.{◌<◌, ◌≤◌, take, vec_len};
    ghost use Rattle.volap_io.specs.Memory.{Store};

    ghost Value = { Store };

    ghost view = { λ s. record {
      taken = take s.len s.bytes.items;
      room = vec_len s.bytes;
      fail = s.fail.items;
      most = s.most;
      calls = s.calls;
      faults = s.faults;
    } };

    ghost invariant = { λ s. (s.len ≤ vec_len s.bytes) × (0 < s.most) };
}

impl MemSink {
    /// Takes `room` bytes, at most `most` a call. `fail` names the calls that fail, counted from 0.
    pub fn new(
        alloc: Global,
        room: usize,
        fail: Vec<u64>,
        most: usize,
    ) -> Result<MemSink, AllocError>
        requires { 0 < most }
        ensures { IfOk result (λ sink. sink ≡ record {
          taken = [];
          room = room;
          fail = fail.items;
          most = most;
          calls = 0;
          faults = 0;
        }) }
    {
        Ok(MemSink {
            bytes: vec![in alloc; 0u8; room]?,
            len: 0,
            fail,
            most,
            calls: 0,
            faults: 0,
        })
    }

    /// The bytes that were taken, in order.
    pub fn taken(&self) -> &[u8]
        ensures { result.now ≡ self.now.taken }
    {
        &self.bytes[..self.len]
    }
}

impl Sink for MemSink {
    ghost taken = { λ s. Some s.taken };

    ghost faults = { λ s. s.faults };

    fn write(&mut self, piece: &[u8]) -> Result<usize, Failed>
        ensures bound { WritesAtMost result piece.now }
        ensures some { IfOk result (λ n. 0 < length piece.now → 0 < n) }
        ensures bytes { WriteAppends (Some self.old.taken) (Some self.new.taken) result piece.now }
        ensures cause { HasCause self.old.faults self.new.faults result }

        // It fails at the calls that are named and without room, and else takes as much as it can.
        ensures fails { IsErr result ↔ WriteFails self.old piece.now }
        ensures count { IfOk result (λ n. n
            ≡ min (min (length piece.now) self.old.most) (self.old.room - length self.old.taken)) }
        ensures ok { IfOk result (λ n. self.new ≡ record self.old {
          taken = self.old.taken ++ take n piece.now;
          calls = one_more self.old.calls;
        }) }
        ensures err { OnErr result (self.new ≡ record self.old {
          calls = one_more self.old.calls;
          faults = one_more self.old.faults;
        }) }
    {
        let call = self.calls;
        self.calls = call.saturating_add(1);
        let room = self.bytes.len() - self.len;
        if self.fail.contains(&call) || (room == 0 && !piece.is_empty()) {
            self.faults = self.faults.saturating_add(1);
            return Err(Failed);
        }
        let count = piece.len().min(self.most).min(room);
        let end = self.len + count;
        self.bytes[self.len..end].copy_from_slice(&piece[..count]);
        self.len = end;
        Ok(count)
    }
}
