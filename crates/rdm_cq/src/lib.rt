//! Items that wait in a ring with reserved places, as the completions of an endpoint.
#![tactic(auto)]

ghost use Rattle.std.specs.Prelude.{◌≡◌, false, ◌<◌, ◌^◌, IfOk};
ghost use Rattle.rdm_cq.specs.Queue.{no_completions, reserve_answer, after_reserve, unreserved, written, poll_answer, polled};
ghost use Rattle.rdm_cq.specs.Queue as Queue;
ghost use Rattle.rdm_cq.specs.Runs.{ComesAsWritten};

use circular_buffer::HeapCircularBuffer;
use rdm_num::NoMemory;
use std::alloc::Global;
use std::marker::Model;

#[cfg(test)]
mod tests;

/// Each place is reserved or holds an item.
#[derive(Clone, Copy, Debug, PartialEq, Eq)]
pub struct CqFull;

/// Items that wait to be polled, and places that are reserved for more. An endpoint's completions
/// stand in a `Cq<Completion>`.
#[derive(Drop)]
pub struct Cq<T> {
    ring: HeapCircularBuffer<T>,
    reserved: usize,
}

impl<T> Model for Cq<T> {
    ghost use Rattle.std.specs.Prelude.{◌≤◌, ◌+◌, length};
    ghost use Rattle.rdm_cq.specs.Queue.{Queue};

    ghost Value = { Queue T };

    ghost view = { λ q. record { reserved = q.reserved; list = q.ring.items; size = q.ring.capacity } };

    ghost invariant = { λ q. q.reserved + length q.ring.items ≤ q.ring.capacity };
}

impl<T> Cq<T> {
    /// Takes the memory for so many items. With size 0 each reserve is refused.
    pub fn new(alloc: Global, size: usize) -> Result<Cq<T>, NoMemory>
        ensures { IfOk result (λ q. q ≡ no_completions size) }
    {
        let ring = HeapCircularBuffer::with_capacity(alloc, size)?;
        Ok(Cq { ring, reserved: 0 })
    }

    /// Reserves a place for an item that is still to come.
    pub fn reserve(&mut self) -> Result<(), CqFull>
        ensures answer { result ≡ reserve_answer self.old }
        ensures after { self.new ≡ after_reserve self.old }
    {
        if self.is_full() {
            return Err(CqFull);
        }
        self.reserved += 1;
        Ok(())
    }

    /// Gives a reserved place back, which is free then.
    pub fn unreserve(&mut self)
        requires { 0 < self.old.reserved }
        ensures after { self.new ≡ unreserved self.old }
        ensures free { Queue.is_full self.new ≡ false }
    {
        self.reserved -= 1;
    }

    /// Puts an item last, into a reserved place.
    pub fn write(&mut self, item: T)
        requires { 0 < self.old.reserved }
        ensures { self.new ≡ written self.old item }
    {
        self.unreserve();
        // The place is free now, so nothing is overwritten.
        match self.ring.push_back(item) {
            None => (),
            Some(_) => unreachable!(),
        }
    }

    /// Takes the first item out.
    pub fn poll(&mut self) -> Option<T>
        ensures answer { result ≡ poll_answer self.old }
        ensures after { self.new ≡ polled self.old }
    {
        self.ring.pop_front()
    }

    /// A reserve would be refused.
    pub fn is_full(&self) -> bool
        ensures value { result ≡ Queue.is_full self.now }
        ensures within { Queue.IsWithin self.now }
        ensures bounded { self.now.size < 2 ^ 63 }
    {
        self.reserved + self.ring.len() == self.ring.capacity()
    }

    /// No item waits.
    pub fn is_empty(&self) -> bool
        ensures { result ≡ Queue.is_empty self.now }
    {
        self.ring.is_empty()
    }
}

/// Over any calls, reserved places and items together are no more than the size, and items come
/// out as they were written: in their order, each once.
pub fn completions_law<T>()
    ensures { ComesAsWritten T }
{}
