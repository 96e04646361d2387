//! The program of a rank while it is read.
ghost use Rattle.std.specs.Prelude.{◌≡◌, ◌∷◌, [], length, map, reverse, OnOk};
ghost use Rattle.rdm_script.specs.Programs.{lives_tested};

use crate::Reason;
use crate::draft::Draft;
use rdm_num::NoMemory;
use std::alloc::Global;
use std::collections::BTreeSet;
use std::marker::Model;

/// The instructions of a rank so far, seen from the newest to the oldest, and the lives that they
/// opened and closed.
#[derive(Drop)]
pub struct Program<'v> {
    drafts: Vec<Draft<'v>>,
    is_open: bool,
    opened: BTreeSet<u32>,
}

impl<'v> Model for Program<'v> {
    ghost use Rattle.std.specs.Prelude.{List, map, reverse};
    ghost use Rattle.rdm_model.specs.declared.job.Instr.{Instr};
    ghost use Rattle.rdm_script.specs.Drafts.{made, KeepsLives};

    ghost Value = { List Instr };

    ghost view = { λ p. reverse (map made p.drafts.items) };

    ghost invariant = { λ p. KeepsLives (reverse (map made p.drafts.items)) p.is_open p.opened.keys };
}

impl<'v> Program<'v> {
    ghost use Rattle.rdm_script.specs.Drafts.{made};

    pub fn new(alloc: Global) -> Program<'v>
        ensures { result ≡ [] }
    {
        Program {
            drafts: Vec::new(alloc),
            is_open: false,
            opened: BTreeSet::new(alloc),
        }
    }

    pub fn len(&self) -> usize
        ensures { result ≡ length self.now }
    {
        self.drafts.len()
    }

    /// An open comes where no life is open and with an identifier that was not opened before, and
    /// what needs a life comes where one is open.
    pub fn lives_tested(&self, draft: &Draft<'v>) -> Result<(), Reason>
        ensures { result ≡ lives_tested self.now (made draft.now) }
    {
        match draft.opened() {
            Some(connid) => {
                if self.is_open {
                    Err(Reason::OpenTwice)
                } else if self.opened.contains(&connid) {
                    Err(Reason::RepeatConnid)
                } else {
                    Ok(())
                }
            }
            None => {
                if self.is_open {
                    Ok(())
                } else if draft.needs_life() {
                    Err(Reason::NoLife)
                } else {
                    Ok(())
                }
            }
        }
    }

    /// Adds the next instruction.
    pub fn push(&mut self, draft: Draft<'v>) -> Result<(), NoMemory>
        ensures { OnOk result (self.new ≡ made draft.entry ∷ self.old) }
    {
        self.drafts.reserve(1)?;
        if let Some(connid) = draft.opened() {
            self.opened.insert(connid)?;
        }
        self.is_open = draft.is_open_after(self.is_open);
        self.drafts.push_reserved(draft);
        Ok(())
    }

    /// The instructions in order.
    pub fn into_drafts(self) -> Vec<Draft<'v>>
        ensures { map made result.items ≡ reverse self.entry }
    {
        self.drafts
    }
}
