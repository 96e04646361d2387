// The parts of a range of a block that are at home.
ghost use Rattle.std.specs.Prelude.{◌≡◌, ◌+◌, ◌-◌, ◌<◌, ◌≤◌, length, IfOk, MatchOption, MatchResult};
ghost use Rattle.rdm_mr.specs.Homing.{TakenIsOut, BackUndoesOut};
ghost use Rattle.rdm_mr.specs.Tiles.{IsOf, AreBytes, AreHome, AreOut, IsWhole, IsAll, IsPartAt, all_home, overwritten, with_part, after_take_out};

use crate::ordered::{find, lift, locate, overwrite, put, read};
use crate::part::{NoMemory, Part};
use std::alloc::{AllocFailed, Global};
use std::marker::Model;

/// What is at home of a range of a block, while parts of it are out. It must be spent, by `close`.
pub struct Home {
    /// An empty part, which says where the range begins in which block.
    anchor: Part,
    size: usize,
    /// How many parts are out. There is room at all times to put them back.
    out: usize,
    parts: Vec<Part>,
}

impl Model for Home {
    ghost use Rattle.rdm_mr.specs.Tiles.{Tiles, tiles_code};

    ghost Value = { Tiles };

    ghost coded = { tiles_code };

    ghost use Rattle.std.specs.Prelude.{◌+◌};
    ghost use Rattle.rdm_mr.specs.Ordered.{cells_of};
    ghost use Rattle.rdm_mr.specs.SoundHome.{IsHome};

    ghost view = { λ h. record { block = h.anchor.block; whole = h.anchor.whole; start = h.anchor.start; cells = cells_of h.anchor.start (h.anchor.start + h.size) h.parts.items; out = h.out } };

    ghost invariant = { IsHome };
}

impl Home {
    /// All of the part is at home. Where memory is wanting the part comes back.
    pub fn new(alloc: Global, part: Part) -> Result<Home, Part>
        ensures { MatchResult result (λ home. home ≡ all_home part) (λ back. back ≡ part) }
    {
        let size = part.len();
        let _start = part.start();
        let (anchor, rest) = part.split(0);
        let mut parts = Vec::new(alloc);
        if size == 0 {
            return Ok(Home {
                anchor: anchor.join(rest),
                size,
                out: 0,
                parts,
            });
        }
        match parts.push(rest) {
            Ok(()) => Ok(Home {
                anchor,
                size,
                out: 0,
                parts,
            }),
            Err(AllocFailed { value }) => {
                parts.destroy_empty();
                Err(anchor.join(value))
            }
        }
    }

    /// How many places the range has.
    pub fn len(&self) -> usize
        ensures { result ≡ length self.now.cells }
    {
        self.size
    }

    /// The bytes of a range, if all of it is at home.
    pub fn get(&self, at: usize, len: usize) -> Option<&[u8]>
        requires { at + len ≤ length self.now.cells }
        ensures { MatchOption result (AreHome at len self.now.cells → ⊥) (λ bytes. (length bytes.now ≡ len) × AreBytes at bytes.now self.now.cells) }
    {
        if len == 0 {
            return Some(&[]);
        }
        let from = self.anchor.start() + at;
        let Some(i) = locate(&self.parts, from, from + len) else {
            return None;
        };
        let part = &self.parts[i];
        Some(read(part, from - part.start(), len))
    }

    /// Writes bytes from `at` on, where all is at home.
    pub fn write(&mut self, at: usize, bytes: &[u8])
        requires { AreHome at (length bytes.now) self.old.cells }
        ensures { self.new ≡ overwritten self.old at bytes.now }
    {
        if bytes.is_empty() {
            return;
        }
        let from = self.anchor.start() + at;
        match locate(&self.parts, from, from + bytes.len()) {
            Some(i) => {
                let skip = from - self.parts[i].start();
                overwrite(&mut self.parts[i], skip, bytes);
            }
            None => unreachable!(),
        }
    }

    /// Takes a part out, if all of its range is at home.
    pub fn take_out(&mut self, at: usize, len: usize) -> Result<Option<Part>, NoMemory>
        requires some { 0 < len }
        requires inside { at + len ≤ length self.old.cells }
        ensures answer { IfOk result (λ out. MatchOption out (AreHome at len self.old.cells → ⊥) (IsPartAt self.old at len)) }
        ensures after { self.new ≡ after_take_out self.old result }
    {
        let _size = self.size;
        let from = self.anchor.start() + at;
        let Some(i) = locate(&self.parts, from, from + len) else {
            return Ok(None);
        };
        let part = lift(&mut self.parts, i, from, len, self.out)?;
        self.out += 1;
        Ok(Some(part))
    }

    /// Puts a part back that is out.
    pub fn put_back(&mut self, part: Part)
        requires of { IsOf self.old part × (self.old.start ≤ part.start) }
        requires some { 0 < length part.bytes }
        requires counted { 0 < self.old.out }
        requires out { AreOut (part.start - self.old.start) (length part.bytes) self.old.cells }
        ensures { self.new ≡ with_part self.old part }
    {
        let i = find(&self.parts, part.start());
        put(&mut self.parts, i, part);
        self.out -= 1;
    }

    /// The whole part, once nothing is out.
    pub fn close(self) -> Part
        requires { IsWhole self.cells }
        ensures { IsAll self result }
    {
        let Home {
            anchor,
            size: _,
            out: _,
            mut parts,
        } = self;
        match parts.pop() {
            Some(part) => {
                parts.destroy_empty();
                anchor.join(part)
            }
            None => {
                parts.destroy_empty();
                anchor
            }
        }
    }
}

/// What is taken out can be put back, and with the same bytes that leaves all as it was.
pub fn home_law()
    ensures out { TakenIsOut }
    ensures back { BackUndoesOut }
{}
